// A row of a raster, copied and cut: each of its pairs is kept only if a step breaks no rule there.
#![tactic(auto)]

ghost use Rattle.std.specs.Prelude.{◌+◌, ◌*◌, ◌≤◌, ◌<◌, length};
ghost use Rattle.limits.specs.Limits.{state_limit};
ghost use Rattle.bitmaps.specs.Packed.{bytes_for};
ghost use Rattle.tables_ranges.specs.Cut.{Cut};
ghost use Rattle.move_tables.specs.Moves.{Bounded};
ghost use Rattle.tables_runs.specs.Runs.{Within, Blank, landing};
ghost use Rattle.tables_shifts.specs.Shifts.{Room};
ghost use Rattle.tables_cut.specs.Rule.{fine, Shape, Tables, Loaded};

use move_tables::Sides;

// The bits of a row from `from` on and before `to`.
#[derive(Clone, Copy)]
pub struct Span {
    pub from: usize,
    pub to: usize,
}

// Row s of the raster, written to the front of `row`.
pub fn load(row: &mut [u8], raster: &[u8], n: usize, w: usize, s: usize)
    requires { (n ≤ state_limit) × ((w ≤ state_limit) × ((s < n) × ((n * bytes_for w ≤ length raster.now)
        × (bytes_for w ≤ length row.old)))) }
    ensures { Loaded w raster.now s row.new }
{
    let b = bitmaps::bytes_for(w);
    let a = s * b;
    let e = a + b;
    let from = &raster[a..e];
    bitmaps::copy(row, from, b);
}

// The end of the last of b bytes that is not 0; only those from `first` on are looked at.
fn end_byte(row: &[u8], b: usize, first: usize) -> usize
    requires { (first ≤ b) × (b ≤ length row.now) }
    ensures { (first ≤ result) × ((result ≤ b) × Blank row.now result b) }
{
    for j in (first..b).rev() {
        if row[j] != 0 {
            return j + 1;
        }
    }
    first
}

// Where the bits that are set in a row of w bits begin and end, by whole bytes.
pub fn span_of(row: &[u8], w: usize) -> Span
    requires { (w ≤ state_limit) × (bytes_for w ≤ length row.now) }
    ensures { Within w row.now result.from result.to }
{
    let b = bitmaps::bytes_for(w);
    let first = tables_runs::first_byte(row, 0, b);
    let end = end_byte(row, b, first);
    let from = w.min(8 * first);
    let to = w.min(8 * end);
    Span { from, to }
}

// The runs of the right's moves, and the classes of the steps that gain by them.
pub fn find_shape(
    runs: &mut [u16],
    classes: &mut [u16],
    masks: &mut [u8],
    rm: &[u16],
    w: usize,
    steps: usize,
)
    requires { Bounded w steps rm.now × ((steps * w ≤ length runs.old) × Room w steps classes.old masks.old) }
    ensures { Shape rm.now runs.new classes.new masks.new w steps }
{
    tables_runs::find_runs(runs, rm, w, steps);
    tables_shifts::find_shifts(classes, masks, rm, runs, w, steps);
}

// Each state of the row kept only if its move by step c leads into the target row: by classes where the step has them
// and most of the row is to be gone through, else by runs.
fn cut_by_row(
    row: &mut [u8],
    target: &[u8],
    rm: &[u16],
    runs: &[u16],
    classes: &[u16],
    masks: &[u8],
    sides: Sides,
    c: usize,
    span: Span,
)
    requires { Bounded sides.right_states sides.steps rm.now
        × (Shape rm.now runs.now classes.now masks.now sides.right_states sides.steps
        × ((c < sides.steps) × ((sides.right_states ≤ 8 * length row.old)
        × ((sides.right_states ≤ 8 * length target.now)
        × Within sides.right_states row.old span.from span.to)))) }
    ensures { Cut 0 sides.right_states (landing target.now rm.now sides.steps c)
        row.old row.new }
{
    let w = sides.right_states;
    if w / 2 < span.to - span.from {
        if tables_shifts::is_shifted(classes, c) {
            tables_shifts::row_step(row, target, classes, masks, rm, w, sides.steps, c);
            return;
        }
    }
    tables_runs::row_step(row, target, rm, runs, w, sides.steps, c, span.from, span.to);
}

// The row, cut by step c of the left state s: each of its bits is kept only if the step breaks no rule at that pair.
pub fn cut_by_step(
    row: &mut [u8],
    raster: &[u8],
    lm: &[u16],
    rm: &[u16],
    runs: &[u16],
    classes: &[u16],
    masks: &[u8],
    sides: Sides,
    s: usize,
    c: usize,
    span: Span,
)
    requires { Tables lm.now rm.now runs.now classes.now masks.now sides.left_states sides.right_states
        sides.steps × ((s < sides.left_states) × ((c < sides.steps)
        × ((sides.left_states * bytes_for sides.right_states ≤ length raster.now)
        × ((bytes_for sides.right_states ≤ length row.old)
        × Within sides.right_states row.old span.from span.to)))) }
    ensures { Cut 0 sides.right_states (fine lm.now rm.now sides.right_states
        sides.steps raster.now s c) row.old row.new }
{
    let w = sides.right_states;
    let u = lm[s * sides.steps + c] as usize;
    if u == move_tables::NO_TARGET {
        return;
    }
    let b = bitmaps::bytes_for(w);
    let a = u * b;
    let e = a + b;
    let target = &raster[a..e];
    cut_by_row(row, target, rm, runs, classes, masks, sides, c, span);
}
