// The removal by rows: rows are looked at until none has a pair that breaks a rule.
#![tactic(auto)]

ghost use Rattle.std.specs.Prelude.{◌≡◌, false, ◌+◌, ◌-◌, ◌*◌, ◌≤◌, ◌<◌, length, set};
ghost use Rattle.limits.specs.Limits.{state_limit};
ghost use Rattle.move_tables.specs.Moves.{Bounded};
ghost use Rattle.tables_settle.specs.State.{Ready, Quiet, Turned, Swept, Moved, Settled};

use move_tables::Sides;

// How far the removal is: the time, which rises by one whenever a row changes, and the number of pairs that are set.
#[derive(Clone, Copy)]
pub struct Progress {
    pub time: u32,
    pub count: usize,
}

// Whether a move of s leads to a row that has changed since `seen`.
fn is_due(lm: &[u16], stamps: &[u32], sides: Sides, s: usize, seen: u32) -> bool
    requires { Bounded sides.left_states sides.steps lm.now × ((s < sides.left_states)
        × (sides.left_states ≤ length stamps.now)) }
    ensures { result ≡ false → Quiet lm.now sides.steps stamps.now s seen }
{
    let a = s * sides.steps;
    for c in 0..sides.steps {
        let u = lm[a + c] as usize;
        if u != move_tables::NO_TARGET {
            if seen < stamps[u] {
                return true;
            }
        }
    }
    false
}

// Looks at row s if it is due. If the row loses pairs, it gets a later time than any row that was looked at.
fn turn(
    raster: &mut [u8],
    seen: &mut [u32],
    stamps: &mut [u32],
    row: &mut [u8],
    lm: &[u16],
    rm: &[u16],
    runs: &[u16],
    classes: &[u16],
    masks: &[u8],
    sides: Sides,
    s: usize,
    progress: Progress,
) -> Progress
    requires { Ready lm.now rm.now runs.now classes.now masks.now sides raster.old seen.old stamps.old row.old progress
        × (s < sides.left_states) }
    ensures { Turned lm.now rm.now sides.left_states sides.right_states
        sides.steps s raster.old raster.new seen.old seen.new
        stamps.old stamps.new progress result }
{
    let old = seen[s];
    if !is_due(lm, stamps, sides, s, old) {
        return progress;
    }
    seen[s] = progress.time;
    let lost = tables_visit::visit(
        raster, row, lm, rm, runs, classes, masks, stamps, sides, s, old,
    );
    if lost == 0 {
        return progress;
    }
    let time = progress.time + 1;
    stamps[s] = time;
    let count = progress.count - lost;
    Progress { time, count }
}

// Looks at every row, from the last to the first.
fn sweep(
    raster: &mut [u8],
    seen: &mut [u32],
    stamps: &mut [u32],
    row: &mut [u8],
    lm: &[u16],
    rm: &[u16],
    runs: &[u16],
    classes: &[u16],
    masks: &[u8],
    sides: Sides,
    progress: Progress,
) -> Progress
    requires { Ready lm.now rm.now runs.now classes.now masks.now sides raster.old seen.old stamps.old row.old progress }
    ensures { Swept lm.now rm.now sides.left_states sides.right_states
        sides.steps 0 raster.old raster.new seen.new stamps.new progress
        result }
{
    let mut late = progress;
    for s in (0..sides.left_states).rev() {
        late = turn(
            raster, seen, stamps, row, lm, rm, runs, classes, masks, sides, s, late,
        );
    }
    late
}

// How far the order is gone back after a change: further back the rows that lead to the changed one can wait for the
// next round.
const NEAR: usize = 32;

// The place to go on from after place i: the next one, or, where the row changed, the first place that moves to it if
// that is near.
fn place_after(i: usize, first: usize, changed: bool) -> usize
    requires { i < state_limit }
{
    if !changed {
        return i + 1;
    }
    if i < first {
        return i;
    }
    if NEAR < i - first {
        return i;
    }
    first
}

// How many rows are looked at in the order before all rows are looked at again. It bounds the loop, whatever the order.
const MOST_TURNS: usize = 1000000;

// Looks at rows in an order that helps, which nothing depends on.
fn hurry(
    raster: &mut [u8],
    seen: &mut [u32],
    stamps: &mut [u32],
    row: &mut [u8],
    lm: &[u16],
    rm: &[u16],
    runs: &[u16],
    classes: &[u16],
    masks: &[u8],
    order: &[u16],
    first: &[u16],
    sides: Sides,
    progress: Progress,
) -> Progress
    requires { Ready lm.now rm.now runs.now classes.now masks.now sides raster.old seen.old stamps.old row.old progress
        × ((sides.left_states ≤ length order.now) × (sides.left_states ≤ length first.now)) }
    ensures { Moved lm.now rm.now sides.left_states sides.right_states
        sides.steps raster.old raster.new seen.new stamps.new progress
        result }
{
    let n = sides.left_states;
    let mut late = progress;
    let mut i: usize = 0;
    for _ in 0..MOST_TURNS {
        if n <= i {
            return late;
        }
        let s = order[i] as usize;
        if n <= s {
            return late;
        }
        let next = turn(
            raster, seen, stamps, row, lm, rm, runs, classes, masks, sides, s, late,
        );
        i = place_after(i, first[s] as usize, late.time < next.time);
        late = next;
    }
    late
}

// Rows in an order that helps and all rows in turn, until the latter change nothing. Returns the number of pairs left.
pub fn settle(
    raster: &mut [u8],
    seen: &mut [u32],
    stamps: &mut [u32],
    row: &mut [u8],
    lm: &[u16],
    rm: &[u16],
    runs: &[u16],
    classes: &[u16],
    masks: &[u8],
    order: &[u16],
    first: &[u16],
    sides: Sides,
    progress: Progress,
) -> usize
    requires { Ready lm.now rm.now runs.now classes.now masks.now sides raster.old seen.old stamps.old row.old progress
        × ((sides.left_states ≤ length order.now) × (sides.left_states ≤ length first.now)) }
    ensures { Settled lm.now rm.now sides.left_states sides.right_states
        sides.steps raster.old raster.new result }
{
    let mut late = progress;
    loop {
        let early = hurry(
            raster, seen, stamps, row, lm, rm, runs, classes, masks, order, first, sides, late,
        );
        late = sweep(
            raster, seen, stamps, row, lm, rm, runs, classes, masks, sides, early,
        );
        if late.time == early.time {
            break;
        }
    }
    late.count
}
