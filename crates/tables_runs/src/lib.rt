// Runs of a step: right states in a row that all go to one state, or to states in a row, or have no move.
#![tactic(auto)]

ghost use Rattle.std.specs.Prelude.{◌≡◌, ℕ, ◌+◌, ◌-◌, ◌*◌, ◌/◌, ◌%◌, ◌≤◌, ◌<◌, length, get_or};
ghost use Rattle.move_tables.specs.Moves.{Bounded};
ghost use Rattle.tables_ranges.specs.Cut.{Cut};
ghost use Rattle.tables_runs.specs.Runs.{Run, Runs, Within, Blank, landing};

// A run of one state, and a run of two states that go to states in a row.
const ONE_STATE: u16 = 2;

const TWO_ALONG: u16 = 5;

// What one state more adds to a run.
const ONE_MORE: u16 = 2;

// The run that begins at state t, from the one that begins at the next state: twice its length, and 1 more if it goes
// to states in a row.
fn run_at(runs: &[u16], rm: &[u16], w: usize, steps: usize, c: usize, t: usize) -> u16
    requires { Bounded w steps rm.now × ((c < steps) × ((t < w) × ((steps * w ≤ length runs.now)
        × (t + 1 < w → Run rm.now w steps c (t + 1) (get_or runs.now (c * w + (t + 1)) 0))))) }
    ensures { Run rm.now w steps c t result }
{
    let next = t + 1;
    if w <= next {
        return ONE_STATE;
    }
    let v = rm[t * steps + c];
    let x = rm[next * steps + c];
    let f = runs[c * w + next];
    if x == v {
        if f % 2 == 0 {
            return f + ONE_MORE;
        }
        return ONE_STATE;
    }
    if v == move_tables::NO_MOVE {
        return ONE_STATE;
    }
    if x != v + 1 {
        return ONE_STATE;
    }
    if f % 2 == 1 {
        return f + ONE_MORE;
    }
    if f == ONE_STATE {
        return TWO_ALONG;
    }
    ONE_STATE
}

// The runs of step c, from the last state to the first.
fn step_runs(runs: &mut [u16], rm: &[u16], w: usize, steps: usize, c: usize)
    requires { Bounded w steps rm.now × ((c < steps) × (steps * w ≤ length runs.old)) }
    ensures { ((t : ℕ) → t < w → Run rm.now w steps c t (get_or runs.new (c * w + t) 0))
        × ((i : ℕ) → i < c * w → get_or runs.new i 0 ≡ get_or runs.old i 0) }
{
    let base = c * w;
    for t in (0..w).rev() {
        runs[base + t] = run_at(runs, rm, w, steps, c, t);
    }
}

// The runs of every step, step by step: entry c * w + t is that of step c from state t on.
pub fn find_runs(runs: &mut [u16], rm: &[u16], w: usize, steps: usize)
    requires { Bounded w steps rm.now × (steps * w ≤ length runs.old) }
    ensures { Runs rm.now w steps runs.new }
{
    for c in 0..steps {
        step_runs(runs, rm, w, steps, c);
    }
}

// The first byte from byte a on and before byte e that is not 0, e if all are.
pub fn first_byte(row: &[u8], a: usize, e: usize) -> usize
    requires { (a ≤ e) × (e ≤ length row.now) }
    ensures { (a ≤ result) × ((result ≤ e) × Blank row.now a result) }
{
    for j in a..e {
        if row[j] != 0 {
            return j;
        }
    }
    e
}

// A run of at most so many states is short: where the byte of its first state has no bit set, that byte is passed over,
// and all such bytes that follow it.
const SHORT_RUN: usize = 64;

// The states of the run e of step c that begins at t, each kept in the row only if its move leads into the source.
fn run_step(
    row: &mut [u8],
    source: &[u8],
    rm: &[u16],
    w: usize,
    steps: usize,
    c: usize,
    t: usize,
    e: usize,
)
    requires { Bounded w steps rm.now × ((c < steps) × ((t < w) × (Run rm.now w steps c t e
        × ((w ≤ 8 * length row.old) × (w ≤ 8 * length source.now))))) }
    ensures { Cut t (t + e / 2) (landing source.now rm.now steps c) row.old
        row.new }
{
    let end = t + e / 2;
    let v = rm[t * steps + c] as usize;
    if v == move_tables::NO_TARGET {
        tables_ranges::clear_range(row, t, end);
        return;
    }
    if e % 2 == 1 {
        tables_ranges::and_range(row, source, t, end, v);
        return;
    }
    if bitmaps::get(source, v) {
        return;
    }
    tables_ranges::clear_range(row, t, end);
}

// The same for the run that begins at t, or, where it is short and nothing is set in the byte of t, for all states up to
// the next byte in which something is set; the state to go on from.
fn cut_from(
    row: &mut [u8],
    source: &[u8],
    rm: &[u16],
    runs: &[u16],
    w: usize,
    steps: usize,
    c: usize,
    t: usize,
) -> usize
    requires { Bounded w steps rm.now × ((c < steps) × ((t < w) × (Runs rm.now w steps runs.now
        × ((w ≤ 8 * length row.old) × (w ≤ 8 * length source.now))))) }
    ensures { (t < result) × ((result ≤ w)
        × Cut t result (landing source.now rm.now steps c) row.old row.new) }
{
    let e = runs[c * w + t] as usize;
    if e <= 2 * SHORT_RUN {
        if row[t / 8] == 0 {
            let b = bitmaps::bytes_for(w);
            return w.min(8 * first_byte(row, t / 8 + 1, b));
        }
    }
    run_step(row, source, rm, w, steps, c, t, e);
    t + e / 2
}

// Each state of the row kept only if its move by step c leads into the source. Nothing is set in the row before `from` and
// from `to` on, so only the states between are gone through.
pub fn row_step(
    row: &mut [u8],
    source: &[u8],
    rm: &[u16],
    runs: &[u16],
    w: usize,
    steps: usize,
    c: usize,
    from: usize,
    to: usize,
)
    requires { Bounded w steps rm.now × ((c < steps) × (Runs rm.now w steps runs.now
        × ((w ≤ 8 * length row.old) × ((w ≤ 8 * length source.now) × Within w row.old from to)))) }
    ensures { Cut 0 w (landing source.now rm.now steps c) row.old
        row.new }
{
    let mut t = from;
    while t < to {
        t = cut_from(row, source, rm, runs, w, steps, c, t);
    }
}
