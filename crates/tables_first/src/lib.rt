// The first cut of a table: each row is that of all allowed pairs, cut at once by the masks of the left state's steps; for
// as long as no pair is gone, a step is matched wherever it leads the right to a state whose invariant is true.
#![tactic(auto)]

ghost use Rattle.std.specs.Prelude.{◌≡◌, ◌*◌, ◌≤◌, ◌<◌, length};
ghost use Rattle.limits.specs.Limits.{state_limit};
ghost use Rattle.bitmaps.specs.Bits.{bit_at};
ghost use Rattle.bitmaps.specs.Packed.{bytes_for, Bitmap};
ghost use Rattle.move_tables.specs.Moves.{Bounded};
ghost use Rattle.tables_rows.specs.Given.{Slices};
ghost use Rattle.tables_count.specs.Pairs.{passing};
ghost use Rattle.tables_ranges.specs.Cut.{Cut};
ghost use Rattle.tables_runs.specs.Runs.{Runs};
ghost use Rattle.tables_first.specs.Masks.{Mask, Masks, passes};
ghost use Rattle.tables_first.specs.First.{First, FirstRow, FirstRows};

use move_tables::Sides;

// The stamp of a row that is as full as `holds`.
const FULL: u32 = 0;

// The stamp of a row that has lost a pair.
const CUT: u32 = 1;

// The mask of step c: the states of `holds` that the step leads into `holds`.
fn step_mask(
    row: &mut [u8],
    holds: &[u8],
    rm: &[u16],
    runs: &[u16],
    w: usize,
    steps: usize,
    c: usize,
)
    requires { Bounded w steps rm.now × (Runs rm.now w steps runs.now × ((c < steps)
        × ((bytes_for w ≤ length row.old) × (bytes_for w ≤ length holds.now)))) }
    ensures { Mask rm.now holds.now w steps c row.new }
{
    let b = bitmaps::bytes_for(w);
    bitmaps::copy(row, holds, b);
    tables_runs::row_step(row, holds, rm, runs, w, steps, c, 0, w);
}

// The masks of all steps, a row each.
fn find_masks(masks: &mut [u8], holds: &[u8], rm: &[u16], runs: &[u16], w: usize, steps: usize)
    requires { Bounded w steps rm.now × (Runs rm.now w steps runs.now
        × ((steps * bytes_for w ≤ length masks.old) × (bytes_for w ≤ length holds.now))) }
    ensures { Masks rm.now holds.now w steps steps masks.new }
{
    let b = bitmaps::bytes_for(w);
    for c in 0..steps {
        let a = c * b;
        let e = a + b;
        step_mask(&mut masks[a..e], holds, rm, runs, w, steps, c);
    }
}

// The row cut by the mask of step c, if the left state s has a move by it.
fn cut_by_mask(row: &mut [u8], masks: &[u8], lm: &[u16], sides: Sides, s: usize, c: usize)
    requires { Bounded sides.left_states sides.steps lm.now × ((sides.right_states ≤ state_limit)
        × ((s < sides.left_states) × ((c < sides.steps)
        × ((bytes_for sides.right_states ≤ length row.old)
        × (sides.steps * bytes_for sides.right_states ≤ length masks.now))))) }
    ensures { Cut 0 sides.right_states
        (passes lm.now masks.now sides.right_states sides.steps s c)
        row.old row.new }
{
    let u = lm[s * sides.steps + c];
    if u == move_tables::NO_MOVE {
        return;
    }
    let w = sides.right_states;
    let b = bitmaps::bytes_for(w);
    let a = c * b;
    let e = a + b;
    tables_ranges::and_range(row, &masks[a..e], 0, w, 0);
}

// Row s of the first cut and how many pairs are set in it, where a full row has `all`: none where the left state is not
// safe.
fn first_row(
    row: &mut [u8],
    masks: &[u8],
    keep: &[u8],
    holds: &[u8],
    lm: &[u16],
    sides: Sides,
    s: usize,
    all: usize,
) -> usize
    requires { Bounded sides.left_states sides.steps lm.now × ((sides.right_states ≤ state_limit)
        × ((s < sides.left_states) × ((bytes_for sides.left_states ≤ length keep.now)
        × (Bitmap sides.right_states holds.now
        × ((bytes_for sides.right_states ≤ length row.old)
        × ((sides.steps * bytes_for sides.right_states ≤ length masks.now)
        × (all ≡ passing (bit_at holds.now) sides.right_states))))))) }
    ensures { FirstRow lm.now keep.now holds.now masks.now
        sides.right_states sides.steps s row.new
        × (result ≡ passing (bit_at row.new) sides.right_states) }
{
    let w = sides.right_states;
    let steps = sides.steps;
    let b = bitmaps::bytes_for(w);
    if !bitmaps::get(keep, s) {
        bitmaps::fill(row, b, 0);
        return 0;
    }
    bitmaps::copy(row, holds, b);
    for c in 0..steps {
        cut_by_mask(row, masks, lm, sides, s, c);
    }
    let lost = tables_count::row_lost(holds, row, w);
    all - lost
}

// The stamp of a row with m pairs, where a full one has `all`.
fn stamp_of(m: usize, all: usize) -> u32
    ensures { (result ≤ 1) × (result ≡ 0 → m ≡ all) }
{
    if m == all {
        return FULL;
    }
    CUT
}

// All rows of the first cut and their stamps, by the masks of the steps; how many pairs are set.
fn first_rows(
    raster: &mut [u8],
    stamps: &mut [u32],
    masks: &[u8],
    keep: &[u8],
    holds: &[u8],
    lm: &[u16],
    sides: Sides,
) -> usize
    requires { Bounded sides.left_states sides.steps lm.now × ((sides.right_states ≤ state_limit)
        × ((bytes_for sides.left_states ≤ length keep.now) × (Bitmap sides.right_states holds.now
        × ((sides.left_states * bytes_for sides.right_states ≤ length raster.old)
        × ((sides.left_states ≤ length stamps.old)
        × (sides.steps * bytes_for sides.right_states ≤ length masks.now)))))) }
    ensures { FirstRows lm.now keep.now holds.now masks.now
        sides.left_states sides.right_states sides.steps raster.old raster.new
        stamps.new result }
{
    let n = sides.left_states;
    let w = sides.right_states;
    let all = tables_count::row_ones(holds, w);
    let b = bitmaps::bytes_for(w);
    let mut r: usize = 0;
    for s in 0..n {
        let a = s * b;
        let e = a + b;
        let m = first_row(&mut raster[a..e], masks, keep, holds, lm, sides, s, all);
        stamps[s] = stamp_of(m, all);
        r += m;
    }
    r
}

// The first cut of the table: its rows, their stamps, and how many pairs are set. `masks` is room for a row a step.
pub fn first_cut(
    raster: &mut [u8],
    stamps: &mut [u32],
    masks: &mut [u8],
    keep: &[u8],
    holds: &[u8],
    lm: &[u16],
    rm: &[u16],
    runs: &[u16],
    sides: Sides,
) -> usize
    requires { Slices keep.now holds.now lm.now rm.now sides
        × (Runs rm.now sides.right_states sides.steps runs.now
        × ((sides.left_states * bytes_for sides.right_states ≤ length raster.old)
        × ((sides.left_states ≤ length stamps.old)
        × (sides.steps * bytes_for sides.right_states ≤ length masks.old)))) }
    ensures { First lm.now rm.now keep.now holds.now
        sides.left_states sides.right_states sides.steps raster.old raster.new
        stamps.new result }
{
    find_masks(masks, holds, rm, runs, sides.right_states, sides.steps);
    first_rows(raster, stamps, masks, keep, holds, lm, sides)
}
