// The widest table: of all pairs those that break a rule are taken out, row by row, until none does.
#![tactic(auto)]

ghost use Rattle.std.specs.Prelude.{◌≡◌, ◌*◌, ◌≤◌, length};
ghost use Rattle.limits.specs.Limits.{state_limit, step_limit};
ghost use Rattle.bitmaps.specs.Packed.{bytes_for};
ghost use Rattle.tables_rows.specs.Given.{Slices};
ghost use Rattle.tables_shifts.specs.Shifts.{class_limit, class_entries};
ghost use Rattle.tables_widest.specs.Room.{Room};
ghost use Rattle.tables_widest.specs.Whole.{WidestAnswers};

use limits::{FEW_BYTES, FEW_MOVES, FEW_STATES, KEEP_LIMIT, MOVE_LIMIT, STATE_LIMIT, STEP_LIMIT};
use move_tables::Sides;
use tables_settle::Progress;
use tables_shifts::{ALL_ENTRIES, FEW_MASK_BYTES, MASK_LIMIT};

// The number of pairs set, and whether the start pair is one of them.
#[derive(Clone, Copy)]
pub struct WidestTable {
    pub count: usize,
    pub start: bool,
}

// The time when the removal begins: no row has been looked at since, and no row was cut later.
const BEGINNING: u32 = 1;

// The widest table, made in slices that are long enough: the first cut of all rows, then the removal, in an order that
// helps. `rows` has room for a row a step; runs and met also hold what the order is found with.
fn widest_with(
    raster: &mut [u8],
    rows: &mut [u8],
    seen: &mut [u32],
    stamps: &mut [u32],
    runs: &mut [u16],
    classes: &mut [u16],
    masks: &mut [u8],
    order: &mut [u16],
    first: &mut [u16],
    met: &mut [u16],
    keep: &[u8],
    holds: &[u8],
    lm: &[u16],
    rm: &[u16],
    sides: Sides,
) -> WidestTable
    requires { Slices keep.now holds.now lm.now rm.now sides × Room sides raster.old rows.old seen.old
        stamps.old runs.old classes.old masks.old order.old first.old met.old }
    ensures { WidestAnswers keep.now holds.now lm.now rm.now sides
        raster.old raster.new result.count result.start }
{
    let n = sides.left_states;
    let w = sides.right_states;
    tables_order::targets_first(order, first, runs, met, lm, n, sides.steps);
    tables_cut::find_shape(runs, classes, masks, rm, w, sides.steps);
    let all = tables_first::first_cut(raster, stamps, rows, keep, holds, lm, rm, runs, sides);
    let progress = Progress {
        time: BEGINNING,
        count: all,
    };
    let count = tables_settle::settle(
        raster, seen, stamps, rows, lm, rm, runs, classes, masks, order, first, sides, progress,
    );
    let start = tables_rows::is_set(raster, n, w, sides.left_start, sides.right_start);
    WidestTable { count, start }
}

// A row for each step, for all texts and for those of few states.
const ROWS_LIMIT: usize = STEP_LIMIT * KEEP_LIMIT;

const FEW_ROWS: usize = STEP_LIMIT * FEW_BYTES;

// The widest table of two texts of at most STATES states, in arrays for so many.
fn widest_within<
    const STATES: usize,
    const ROWS: usize,
    const MOVES: usize,
    const ENTRIES: usize,
    const MASKS: usize,
>(raster: &mut [u8], keep: &[u8], holds: &[u8], lm: &[u16], rm: &[u16], sides: Sides) -> WidestTable
    requires given { Slices keep.now holds.now lm.now rm.now sides }
    requires room { sides.left_states * bytes_for sides.right_states ≤ length raster.old }
    requires few { (sides.left_states ≤ STATES) × ((sides.right_states ≤ STATES) × (STATES ≤ state_limit)) }
    requires sizes { (ROWS ≡ step_limit * bytes_for STATES) × ((MOVES ≡ STATES * step_limit)
        × ((ENTRIES ≡ step_limit * class_entries) × (MASKS ≡ step_limit * class_limit * bytes_for STATES))) }
    ensures { WidestAnswers keep.now holds.now lm.now rm.now sides
        raster.old raster.new result.count result.start }
{
    let mut rows = [0; ROWS];
    let mut seen = [0; STATES];
    let mut stamps = [0; STATES];
    let mut runs = [0; MOVES];
    let mut classes = [0; ENTRIES];
    let mut masks = [0; MASKS];
    let mut order = [0; STATES];
    let mut first = [0; STATES];
    let mut met = [0; STATES];
    widest_with(
        raster,
        &mut rows,
        &mut seen,
        &mut stamps,
        &mut runs,
        &mut classes,
        &mut masks,
        &mut order,
        &mut first,
        &mut met,
        keep,
        holds,
        lm,
        rm,
        sides,
    )
}

// The widest table: it is written to the raster; the pairs set and whether the start pair is one are returned. The large
// arrays would take longer to make than the table of few states.
pub fn widest(
    raster: &mut [u8],
    keep: &[u8],
    holds: &[u8],
    lm: &[u16],
    rm: &[u16],
    sides: Sides,
) -> WidestTable
    requires { Slices keep.now holds.now lm.now rm.now sides
        × (sides.left_states * bytes_for sides.right_states ≤ length raster.old) }
    ensures { WidestAnswers keep.now holds.now lm.now rm.now sides
        raster.old raster.new result.count result.start }
{
    if sides.left_states <= FEW_STATES {
        if sides.right_states <= FEW_STATES {
            return widest_within::<FEW_STATES, FEW_ROWS, FEW_MOVES, ALL_ENTRIES, FEW_MASK_BYTES>(
                raster, keep, holds, lm, rm, sides,
            );
        }
    }
    widest_within::<STATE_LIMIT, ROWS_LIMIT, MOVE_LIMIT, ALL_ENTRIES, MASK_LIMIT>(
        raster, keep, holds, lm, rm, sides,
    )
}
