// Classes of a step: the right states that it shifts alike. A step whose moves are hundreds of short runs often has few
// shifts; then a row is cut by one range for each class, under the mask of the class, and not by one for each run.
#![tactic(auto)]

ghost use Rattle.std.specs.Prelude.{◌≡◌, true, ◌&&◌, ◌||◌, ℕ, ◌+◌, ◌-◌, ◌*◌, ◌/◌, ◌%◌, ◌≤◌, ◌<◌, length, get_or};
ghost use Rattle.std.specs.Int.Bits.{bit_or};
ghost use Rattle.limits.specs.Limits.{state_limit, step_limit, keep_limit};
ghost use Rattle.bitmaps.specs.Bits.{bit_at};
ghost use Rattle.bitmaps.specs.Packed.{bytes_for};
ghost use Rattle.move_tables.specs.Moves.{no_move, Bounded};
ghost use Rattle.tables_ranges.specs.Cut.{Cut};
ghost use Rattle.tables_runs.specs.Runs.{Runs, landing};
ghost use Rattle.tables_shifts.specs.Placing.{Filled, Behind, Opened, Added};
ghost use Rattle.tables_shifts.specs.Shifts.{class_limit, class_numbers, class_entries, count_of, class_at, mask_at, first_of, leads, in_class, Class, Classed, Room, Shifts};

use limits::{FEW_BYTES, KEEP_LIMIT, STEP_LIMIT};

// The classes of a step at most; a step that needs more is done by runs.
const CLASS_LIMIT: usize = 16;

// The numbers of a class: its first state, the end behind its last one, the target of the first.
const CLASS_NUMBERS: usize = 3;

const FIRST: usize = 1;

const END: usize = 2;

const TARGET: usize = 3;

// The numbers of a step: how many classes it has, 0 if it is done by runs, and those of each.
const CLASS_ENTRIES: usize = 1 + CLASS_NUMBERS * CLASS_LIMIT;

// The numbers of all steps, and the bytes of their masks, for all texts and for those of few states.
pub const ALL_ENTRIES: usize = STEP_LIMIT * CLASS_ENTRIES;

pub const MASK_LIMIT: usize = STEP_LIMIT * CLASS_LIMIT * KEEP_LIMIT;

pub const FEW_MASK_BYTES: usize = STEP_LIMIT * CLASS_LIMIT * FEW_BYTES;

// A step of fewer runs than this is done by runs, and so is one with fewer runs for each class than RUNS_WORTH.
const MANY_RUNS: usize = 16;

const RUNS_WORTH: usize = 8;

// How many classes there are so far, one more than CLASS_LIMIT if they are too many, and the class of the last state.
#[derive(Clone, Copy)]
struct Placed {
    count: usize,
    last: usize,
}

// Where number n of class i of step c stands.
fn class_at(c: usize, i: usize, n: usize) -> usize
    requires { (c < step_limit) × ((i < class_limit) × (n ≤ class_numbers)) }
    ensures { result ≡ class_at c i n }
{
    c * CLASS_ENTRIES + CLASS_NUMBERS * i + n
}

// Where the mask of class i of step c begins.
fn mask_at(w: usize, c: usize, i: usize) -> usize
    requires { (w ≤ state_limit) × ((c < step_limit) × (i < class_limit)) }
    ensures { result ≡ mask_at w c i }
{
    (c * CLASS_LIMIT + i) * bitmaps::bytes_for(w)
}

// A number of a slice.
fn number(s: &[u16], at: usize) -> usize
    requires { at < length s.now }
    ensures { (result ≡ get_or s.now at 0) × (result ≤ no_move) }
{
    s[at] as usize
}

// Number n of class i of step c.
fn class_number(classes: &[u16], c: usize, i: usize, n: usize) -> usize
    requires { (c < step_limit) × ((i < class_limit) × ((n ≤ class_numbers)
        × ((c + 1) * class_entries ≤ length classes.now))) }
    ensures { (result ≡ get_or classes.now (class_at c i n) 0) × (result ≤ no_move) }
{
    number(classes, class_at(c, i, n))
}

// Whether class i of step c leads state t to v.
fn leads_to(classes: &[u16], c: usize, i: usize, t: usize, v: usize) -> bool
    requires { (c < step_limit) × ((i < class_limit) × (((c + 1) * class_entries ≤ length classes.now)
        × ((first_of classes.now c i ≤ t) × (t < state_limit)))) }
    ensures { result ≡ true → leads classes.now c i t ≡ v }
{
    let first = class_number(classes, c, i, FIRST);
    let target = class_number(classes, c, i, TARGET);
    target + (t - first) == v
}

// The first of the k classes of step c that leads state t to v, or k if there is none.
fn class_of(classes: &[u16], c: usize, k: usize, t: usize, v: usize) -> usize
    requires { (c < step_limit) × ((k ≤ class_limit) × (((c + 1) * class_entries ≤ length classes.now)
        × (((i : ℕ) → i < k → first_of classes.now c i ≤ t) × (t < state_limit)))) }
    ensures { (result ≤ k) × (result < k → leads classes.now c result t ≡ v) }
{
    for j in 0..k {
        if leads_to(classes, c, j, t, v) {
            return j;
        }
    }
    k
}

// The same, but the class of the last state is tried before the others: states in a row often have one class.
fn near_class(classes: &[u16], c: usize, k: usize, last: usize, t: usize, v: usize) -> usize
    requires { (c < step_limit) × ((k ≤ class_limit) × (((c + 1) * class_entries ≤ length classes.now)
        × (((i : ℕ) → i < k → first_of classes.now c i ≤ t) × (t < state_limit)))) }
    ensures { (result ≤ k) × (result < k → leads classes.now c result t ≡ v) }
{
    if last < k {
        if leads_to(classes, c, last, t, v) {
            return last;
        }
    }
    class_of(classes, c, k, t, v)
}

// No bit set in the bytes j to e of the masks.
fn clear_mask(masks: &mut [u8], j: usize, e: usize)
    requires { (j ≤ e) × (e ≤ length masks.old) }
    ensures { Filled (λ (i : ℕ). 0) j e masks.old masks.new }
{
    masks[j..e].fill(0);
}

// Class i of step c with no state in it, from state t on, which it leads to v.
fn open_class(
    classes: &mut [u16],
    masks: &mut [u8],
    w: usize,
    steps: usize,
    c: usize,
    i: usize,
    t: usize,
    v: usize,
)
    requires { (w ≤ state_limit) × ((steps ≤ step_limit) × ((c < steps) × ((i < class_limit) × ((t < w)
        × ((v < w) × Room w steps classes.old masks.old))))) }
    ensures { Opened w c i t v classes.old masks.old classes.new
        masks.new }
{
    let at = mask_at(w, c, i);
    clear_mask(masks, at, at + bitmaps::bytes_for(w));
    classes[class_at(c, i, FIRST)] = t as u16;
    classes[class_at(c, i, TARGET)] = v as u16;
}

// Puts state t, which comes after its states, into class i of step c.
fn add_state(
    classes: &mut [u16],
    masks: &mut [u8],
    w: usize,
    steps: usize,
    c: usize,
    i: usize,
    t: usize,
)
    requires { (w ≤ state_limit) × ((steps ≤ step_limit) × ((c < steps) × ((i < class_limit) × ((t < w)
        × Room w steps classes.old masks.old)))) }
    ensures { Added w c i t classes.old masks.old classes.new
        masks.new }
{
    classes[class_at(c, i, END)] = (t + 1) as u16;
    let j = mask_at(w, c, i) + t / 8;
    let k = 7 - t % 8;
    masks[j] = masks[j] | (1u8 << k);
}

// Puts state t into a class of step c, if it has a move: into one that is there, or a new one.
fn place(
    classes: &mut [u16],
    masks: &mut [u8],
    rm: &[u16],
    w: usize,
    steps: usize,
    c: usize,
    t: usize,
    p: Placed,
) -> Placed
    requires { Bounded w steps rm.now × ((c < steps) × ((t < w) × (Room w steps classes.old masks.old
        × Classed rm.now w steps classes.old masks.old c p.count t))) }
    ensures { Behind w c classes.old masks.old classes.new masks.new
        × (result.count ≤ class_limit
        → Classed rm.now w steps classes.new masks.new c result.count (t + 1)) }
{
    let v = number(rm, t * steps + c);
    if v == move_tables::NO_TARGET {
        return p;
    }
    let k = p.count;
    let i = near_class(classes, c, k, p.last, t, v);
    if i < k {
        add_state(classes, masks, w, steps, c, i, t);
        return Placed { count: k, last: i };
    }
    if k == CLASS_LIMIT {
        return Placed {
            count: k + 1,
            last: k,
        };
    }
    open_class(classes, masks, w, steps, c, k, t, v);
    add_state(classes, masks, w, steps, c, k, t);
    Placed {
        count: k + 1,
        last: k,
    }
}

// The classes of step c, from the first state to the last: how many, or 0 if they are too many.
fn step_classes(
    classes: &mut [u16],
    masks: &mut [u8],
    rm: &[u16],
    w: usize,
    steps: usize,
    c: usize,
) -> usize
    requires { Bounded w steps rm.now × ((c < steps) × Room w steps classes.old masks.old) }
    ensures { Behind w c classes.old masks.old classes.new masks.new
        × ((result ≤ class_limit)
        × (0 < result → Classed rm.now w steps classes.new masks.new c result w)) }
{
    let mut p = Placed { count: 0, last: 0 };
    for t in 0..w {
        p = place(classes, masks, rm, w, steps, c, t, p);
        if CLASS_LIMIT < p.count {
            return 0;
        }
    }
    p.count
}

// How many runs step c has.
fn run_count(rm: &[u16], runs: &[u16], w: usize, steps: usize, c: usize) -> usize
    requires { Bounded w steps rm.now × ((c < steps) × Runs rm.now w steps runs.now) }
{
    let mut r: usize = 0;
    let mut t: usize = 0;
    while t < w {
        t += number(runs, c * w + t) / 2;
        r += 1;
    }
    r
}

// The classes of step c, if it has many more runs than classes: how many, else 0.
fn step_shifts(
    classes: &mut [u16],
    masks: &mut [u8],
    rm: &[u16],
    runs: &[u16],
    w: usize,
    steps: usize,
    c: usize,
) -> usize
    requires { Bounded w steps rm.now × ((c < steps) × (Runs rm.now w steps runs.now
        × Room w steps classes.old masks.old)) }
    ensures { Behind w c classes.old masks.old classes.new masks.new
        × ((result ≤ class_limit)
        × (0 < result → Classed rm.now w steps classes.new masks.new c result w)) }
{
    let many = run_count(rm, runs, w, steps, c);
    if many < MANY_RUNS {
        return 0;
    }
    let k = step_classes(classes, masks, rm, w, steps, c);
    if many <= RUNS_WORTH * k {
        return 0;
    }
    k
}

// The classes of every step that gains by them.
pub fn find_shifts(
    classes: &mut [u16],
    masks: &mut [u8],
    rm: &[u16],
    runs: &[u16],
    w: usize,
    steps: usize,
)
    requires { Bounded w steps rm.now × (Runs rm.now w steps runs.now
        × Room w steps classes.old masks.old) }
    ensures { Shifts rm.now w steps classes.new masks.new }
{
    for c in 0..steps {
        let k = step_shifts(classes, masks, rm, runs, w, steps, c);
        classes[c * CLASS_ENTRIES] = k as u16;
    }
}

// Whether step c is done by classes.
pub fn is_shifted(classes: &[u16], c: usize) -> bool
    requires { (c < step_limit) × (c * class_entries < length classes.now) }
    ensures { result ≡ true → 0 < count_of classes.now c }
{
    0 < number(classes, c * CLASS_ENTRIES)
}

// A row with no bit set. It stands behind a function because antt must not unfold an array of this length.
fn no_row() -> [u8; KEEP_LIMIT]
    ensures { (length result ≡ keep_limit) × ((j : ℕ) → get_or result j 0 ≡ 0) }
{
    [0u8; KEEP_LIMIT]
}

// The bytes j to e of a row, taken from the masks, from byte `at` on.
fn copy_mask(row: &mut [u8], masks: &[u8], at: usize, j: usize, e: usize)
    requires { (j ≤ e) × ((e ≤ length row.old) × (at + e ≤ length masks.now)) }
    ensures { Filled (λ (i : ℕ). get_or masks.now (at + i) 0) j e row.old
        row.new }
{
    row[j..e].copy_from_slice(&masks[at + j..at + e]);
}

// The bytes j to e of a row, joined with those of another.
fn or_bytes(row: &mut [u8], other: &[u8], j: usize, e: usize)
    requires { (j ≤ e) × ((e ≤ length row.old) × (e ≤ length other.now)) }
    ensures { Filled (λ (i : ℕ). bit_or (get_or row.old i 0) (get_or other.now i 0)) j e
        row.old row.new }
{
    for i in j..e {
        row[i] = row[i] | other[i];
    }
}

// Joins to the row the states of class i of step c that are led into the source: the class's mask, cut by the range of
// the source to which it leads. The part is room for the mask.
fn join_class(
    row: &mut [u8],
    part: &mut [u8],
    source: &[u8],
    classes: &[u16],
    masks: &[u8],
    rm: &[u16],
    w: usize,
    steps: usize,
    c: usize,
    i: usize,
)
    requires { (w ≤ state_limit) × ((steps ≤ step_limit) × ((c < steps) × ((i < class_limit)
        × (Room w steps classes.now masks.now × (Class rm.now w steps classes.now masks.now c i w
        × ((w ≤ 8 * length row.old) × ((w ≤ 8 * length part.old) × (w ≤ 8 * length source.now)))))))) }
    ensures { (length row.new ≡ length row.old)
        × ((length part.new ≡ length part.old)
        × ((t : ℕ) → t < w → bit_at row.new t ≡ (bit_at row.old t
        || (in_class masks.now w c i t
        && landing source.now rm.now steps c t)))) }
{
    let first = class_number(classes, c, i, FIRST);
    let end = class_number(classes, c, i, END);
    let target = class_number(classes, c, i, TARGET);
    let from = first / 8;
    let to = bitmaps::bytes_for(end);
    copy_mask(part, masks, mask_at(w, c, i), from, to);
    tables_ranges::and_range(part, source, first, end, target);
    or_bytes(row, part, from, to);
}

// Each state of the row kept only if its move by step c, which has classes, leads into the source.
pub fn row_step(
    row: &mut [u8],
    source: &[u8],
    classes: &[u16],
    masks: &[u8],
    rm: &[u16],
    w: usize,
    steps: usize,
    c: usize,
)
    requires { Bounded w steps rm.now × ((c < steps) × (Shifts rm.now w steps classes.now masks.now
        × ((0 < count_of classes.now c) × ((w ≤ 8 * length row.old) × (w ≤ 8 * length source.now))))) }
    ensures { Cut 0 w (landing source.now rm.now steps c) row.old
        row.new }
{
    let mut landed = no_row();
    let mut part = no_row();
    let count = number(classes, c * CLASS_ENTRIES);
    for i in 0..count {
        join_class(
            &mut landed,
            &mut part,
            source,
            classes,
            masks,
            rm,
            w,
            steps,
            c,
            i,
        );
    }
    tables_ranges::and_range(row, &landed, 0, w, 0);
}
