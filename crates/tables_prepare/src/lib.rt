// What the operations on two systems do alike once their slices are judged: the left's safe states, and the left's moves
// without those that leave them.
#![tactic(auto)]

ghost use Rattle.std.specs.Prelude.{◌≤◌, length};
ghost use Rattle.bitmaps.specs.Packed.{bytes_for};
ghost use Rattle.tables_prepare.specs.Prepared.{Ready, Prepared};

use limits::STEP_LIMIT;
use move_tables::Sides;

// Writes the left's safe states into keep, takes the moves that leave them away, and says whether the start is safe.
pub fn prepare(
    sides: Sides,
    inputs: [bool; STEP_LIMIT],
    lm: &mut [u16],
    lh: &[u8],
    keep: &mut [u8],
) -> bool
    requires { Ready sides inputs lm.old lh.now × (bytes_for sides.left_states ≤ length keep.old) }
    ensures { Prepared sides inputs lh.now lm.old lm.new keep.old
        keep.new result }
{
    clocks_safe::safe(keep, lh, lm, &inputs, sides.left_states, sides.steps);
    tables_prune::prune(lm, keep, sides.left_states, sides.steps);
    bitmaps::get(keep, sides.left_start)
}
