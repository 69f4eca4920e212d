// The check of a raster: the lowest pair, by row and then column, that has a state which may not be there or breaks a
// rule, with the least step at which it does.
#![tactic(auto)]

ghost use Rattle.std.specs.Prelude.{◌≡◌, true, false, ℕ, ◌+◌, ◌*◌, ◌/◌, ◌≤◌, ◌<◌, length, set};
ghost use Rattle.move_tables.specs.Moves.{Bounded, no_move};
ghost use Rattle.bitmaps.specs.Packed.{bytes_for};
ghost use Rattle.tables_rows.specs.Given.{Slices};
ghost use Rattle.tables_rows.specs.Raster.{part};
ghost use Rattle.tables_check.specs.Fault.{fault_of_pair, table_from};
ghost use Rattle.tables_shifts.specs.Shifts.{class_limit, class_entries};
ghost use Rattle.tables_runs.specs.Runs.{Within};
ghost use Rattle.tables_cut.specs.Rule.{ok_of, Shape, Tables, Loaded};
ghost use Rattle.tables_check.specs.Scan.{first_bad, fault_at, Blank, Sifted, RowPasses};
ghost use Rattle.limits.specs.Limits.{state_limit, step_limit, keep_limit};

use limits::{FEW_MOVES, FEW_STATES, KEEP_LIMIT, MOVE_LIMIT, STATE_LIMIT};
use move_tables::Sides;
use steps::Step;
use tables_cut::Span;
use tables_shifts::{ALL_ENTRIES, FEW_MASK_BYTES, MASK_LIMIT};

// What a pair that is set fails at: a state that may not be there, or a rule, broken at a step.
#[derive(Clone, Copy)]
pub enum Fault {
    NotAllowed,
    Broken(Step),
}

// A pair that fails, its left state before its right one, with the step where it breaks a rule (SPECIFICATION 11.5).
#[derive(Clone, Copy)]
pub enum FailedPair {
    NotAllowedAt(usize, usize),
    BrokenAt(Step, usize, usize),
}

impl Fault {
    // The fault with the pair that fails at it.
    fn of_pair(self, s: usize, t: usize) -> FailedPair
        ensures { result ≡ fault_of_pair self s t }
    {
        match self {
            Fault::NotAllowed => FailedPair::NotAllowedAt(s, t),
            Fault::Broken(step) => FailedPair::BrokenAt(step, s, t),
        }
    }
}

// Whether a step that leads the left to u and the right to v is matched: the left has no move, or the pair (u, v) is
// set.
fn step_ok(raster: &[u8], n: usize, w: usize, u: usize, v: usize) -> bool
    requires { (n ≤ state_limit) × ((w ≤ state_limit) × (((u ≡ no_move → ⊥) → u < n)
        × (((v ≡ no_move → ⊥) → v < w) × (n * bytes_for w ≤ length raster.now)))) }
    ensures { result ≡ ok_of w raster.now u v }
{
    if u == move_tables::NO_TARGET {
        return true;
    }
    if v == move_tables::NO_TARGET {
        return false;
    }
    tables_rows::is_set(raster, n, w, u, v)
}

// The least step at which the pair (s, t) breaks a rule, `steps` if there is none.
pub fn first_bad(
    raster: &[u8],
    lm: &[u16],
    rm: &[u16],
    n: usize,
    w: usize,
    steps: usize,
    s: usize,
    t: usize,
) -> usize
    requires { Bounded n steps lm.now × (Bounded w steps rm.now ×
        ((s < n) × ((t < w) × (n * bytes_for w ≤ length raster.now)))) }
    ensures { result ≡ first_bad lm.now rm.now w steps raster.now s t }
{
    let a = s * steps;
    let b = t * steps;
    for c in 0..steps {
        let u = lm[a + c] as usize;
        let v = rm[b + c] as usize;
        if !step_ok(raster, n, w, u, v) {
            return c;
        }
    }
    steps
}

// What the pair (s, t) fails at, if it is set; `row` is the left state's row, lent as a part of the raster.
fn fault_at(
    row: &[u8],
    raster: &[u8],
    keep: &[u8],
    holds: &[u8],
    lm: &[u16],
    rm: &[u16],
    sides: Sides,
    s: usize,
    t: usize,
) -> Result<(), Fault>
    requires { Slices keep.now holds.now lm.now rm.now sides
        × ((s < sides.left_states) × ((t < sides.right_states)
        × ((sides.left_states * bytes_for sides.right_states ≤ length raster.now)
        × (row.now ≡ part (bytes_for sides.right_states) s raster.now)))) }
    ensures { result ≡ fault_at lm.now rm.now keep.now holds.now
        sides.right_states sides.steps raster.now s t }
{
    if !bitmaps::get(row, t) {
        return Ok(());
    }
    if !bitmaps::get(keep, s) {
        return Err(Fault::NotAllowed);
    }
    if !bitmaps::get(holds, t) {
        return Err(Fault::NotAllowed);
    }
    let c = first_bad(
        raster,
        lm,
        rm,
        sides.left_states,
        sides.right_states,
        sides.steps,
        s,
        t,
    );
    if c < sides.steps {
        return Err(Fault::Broken(Step { number: c }));
    }
    Ok(())
}

// Whether a byte of the row begins at column t and nothing in it is set.
fn is_blank(row: &[u8], t: usize) -> bool
    requires { t / 8 < length row.now }
    ensures { Blank result row.now t }
{
    if t % 8 != 0 {
        return false;
    }
    row[t / 8] == 0
}

// The row, a copy of row s, cut by every step of the left state s.
fn cut_by_steps(
    row: &mut [u8],
    raster: &[u8],
    lm: &[u16],
    rm: &[u16],
    runs: &[u16],
    classes: &[u16],
    masks: &[u8],
    sides: Sides,
    s: usize,
    span: Span,
)
    requires { Tables lm.now rm.now runs.now classes.now masks.now sides.left_states sides.right_states sides.steps
        × ((s < sides.left_states)
        × ((sides.left_states * bytes_for sides.right_states ≤ length raster.now)
        × ((bytes_for sides.right_states ≤ length row.old)
        × Within sides.right_states row.old span.from span.to))) }
    ensures { Sifted lm.now rm.now sides.right_states sides.steps
        raster.now s sides.steps row.old row.new }
{
    for step in 0..sides.steps {
        tables_cut::cut_by_step(
            row, raster, lm, rm, runs, classes, masks, sides, s, step, span,
        );
    }
}

// Whether the row is still row s of the raster, byte by byte.
fn is_row(row: &[u8], raster: &[u8], n: usize, w: usize, s: usize) -> bool
    requires { (n ≤ state_limit) × ((w ≤ state_limit) × ((s < n) × ((n * bytes_for w ≤ length raster.now)
        × (bytes_for w ≤ length row.now)))) }
    ensures { result ≡ true → Loaded w raster.now s row.now }
{
    let b = bitmaps::bytes_for(w);
    let a = s * b;
    let e = a + b;
    let before = &raster[a..e];
    let mut changed: u8 = 0;
    for i in 0..b {
        changed = changed | (row[i] ^ before[i]);
    }
    changed == 0
}

// Whether no pair of row s fails: the left state is safe, and a copy of the row, cut by the right states whose
// invariant is true and by every step, loses nothing.
fn row_passes(
    row: &mut [u8],
    raster: &[u8],
    keep: &[u8],
    holds: &[u8],
    lm: &[u16],
    rm: &[u16],
    runs: &[u16],
    classes: &[u16],
    masks: &[u8],
    sides: Sides,
    s: usize,
) -> bool
    requires { Slices keep.now holds.now lm.now rm.now sides
        × (Shape rm.now runs.now classes.now masks.now sides.right_states sides.steps × ((s < sides.left_states)
        × ((sides.left_states * bytes_for sides.right_states ≤ length raster.now)
        × (bytes_for sides.right_states ≤ length row.old)))) }
    ensures { RowPasses result (fault_at lm.now rm.now keep.now holds.now
        sides.right_states sides.steps raster.now) sides.right_states s }
{
    let n = sides.left_states;
    let w = sides.right_states;
    tables_cut::load(row, raster, n, w, s);
    let span = tables_cut::span_of(row, w);
    if span.from == span.to {
        return true;
    }
    if !bitmaps::get(keep, s) {
        return false;
    }
    tables_ranges::and_range(row, holds, 0, w, 0);
    cut_by_steps(row, raster, lm, rm, runs, classes, masks, sides, s, span);
    is_row(row, raster, n, w, s)
}

// A row for a copy.
fn blank_row() -> [u8; KEEP_LIMIT]
    ensures { length result ≡ keep_limit }
{
    [0; KEEP_LIMIT]
}

// The lowest pair that fails, by row and then column. A row that passes whole is passed over; only the first row that does
// not is gone through pair by pair.
fn scan_rows(
    raster: &[u8],
    keep: &[u8],
    holds: &[u8],
    lm: &[u16],
    rm: &[u16],
    runs: &[u16],
    classes: &[u16],
    masks: &[u8],
    sides: Sides,
) -> Result<(), FailedPair>
    requires { Slices keep.now holds.now lm.now rm.now sides
        × (Shape rm.now runs.now classes.now masks.now sides.right_states sides.steps
        × (sides.left_states * bytes_for sides.right_states ≤ length raster.now)) }
    ensures { result ≡ table_from (fault_at lm.now rm.now keep.now
        holds.now sides.right_states sides.steps raster.now) sides.right_states
        sides.left_states 0 }
{
    let n = sides.left_states;
    let w = sides.right_states;
    let b = bitmaps::bytes_for(w);
    let mut copy = blank_row();
    let mut s: usize = 0;
    // Kept: the rows in a loop around the columns, left by a label with the lowest pair that fails (SPECIFICATION 11.5).
    'rows: loop {
        if n <= s {
            break 'rows Ok(());
        }
        if row_passes(
            &mut copy, raster, keep, holds, lm, rm, runs, classes, masks, sides, s,
        ) {
            s += 1;
            continue 'rows;
        }
        let a = s * b;
        let e = a + b;
        let row = &raster[a..e];
        let mut t: usize = 0;
        'columns: while t < w {
            if is_blank(row, t) {
                t += 8;
                continue 'columns;
            }
            if let Err(fault) = fault_at(row, raster, keep, holds, lm, rm, sides, s, t) {
                break 'rows Err(fault.of_pair(s, t));
            }
            t += 1;
        }
        s += 1;
    }
}

// The lowest pair that fails, with room for the runs and classes of STATES right states.
fn scan_within<const STATES: usize, const MOVES: usize, const ENTRIES: usize, const MASKS: usize>(
    raster: &[u8],
    keep: &[u8],
    holds: &[u8],
    lm: &[u16],
    rm: &[u16],
    sides: Sides,
) -> Result<(), FailedPair>
    requires given { Slices keep.now holds.now lm.now rm.now sides }
    requires room { sides.left_states * bytes_for sides.right_states ≤ length raster.now }
    requires few { (sides.right_states ≤ STATES) × (STATES ≤ state_limit) }
    requires sizes { (MOVES ≡ STATES * step_limit) × ((ENTRIES ≡ step_limit * class_entries)
        × (MASKS ≡ step_limit * class_limit * bytes_for STATES)) }
    ensures { result ≡ table_from (fault_at lm.now rm.now keep.now
        holds.now sides.right_states sides.steps raster.now) sides.right_states
        sides.left_states 0 }
{
    let w = sides.right_states;
    let mut runs = [0; MOVES];
    let mut classes = [0; ENTRIES];
    let mut masks = [0; MASKS];
    tables_cut::find_shape(&mut runs, &mut classes, &mut masks, rm, w, sides.steps);
    scan_rows(raster, keep, holds, lm, rm, &runs, &classes, &masks, sides)
}

// The lowest pair that fails, by row and then column. The large arrays would take longer to make than the table of few
// states to check.
pub fn scan(
    raster: &[u8],
    keep: &[u8],
    holds: &[u8],
    lm: &[u16],
    rm: &[u16],
    sides: Sides,
) -> Result<(), FailedPair>
    requires { Slices keep.now holds.now lm.now rm.now sides
        × (sides.left_states * bytes_for sides.right_states ≤ length raster.now) }
    ensures { result ≡ table_from (fault_at lm.now rm.now keep.now
        holds.now sides.right_states sides.steps raster.now) sides.right_states
        sides.left_states 0 }
{
    if sides.right_states <= FEW_STATES {
        scan_within::<FEW_STATES, FEW_MOVES, ALL_ENTRIES, FEW_MASK_BYTES>(
            raster, keep, holds, lm, rm, sides,
        )
    } else {
        scan_within::<STATE_LIMIT, MOVE_LIMIT, ALL_ENTRIES, MASK_LIMIT>(
            raster, keep, holds, lm, rm, sides,
        )
    }
}
