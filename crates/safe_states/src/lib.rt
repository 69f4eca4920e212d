// The operation that finds the safe states of a text (SPECIFICATION 12.2).
#![tactic(auto)]

ghost use Rattle.std.specs.Prelude.{◌≡◌, Ok, length};
ghost use Rattle.clocks_table.specs.Room.{Room};
ghost use Rattle.clocks_read.specs.Measured.{Measures, states_of};
ghost use Rattle.safe_states.specs.Outcome.{Outcome, found_outcome, safe_outcome};
ghost use Rattle.safe_states.specs.Ready.{Ready};

use clocks::Ranges;
use clocks_read::Measured;
use reader_record::Text;
use refusals::{File, Refusal};

// How many safe states there are, and whether the start is one (SPECIFICATION 12.2).
#[derive(Clone, Copy, PartialEq, Eq, Debug)]
pub struct SafeStates {
    pub count: usize,
    pub start: bool,
}

// The safe states of an accepted text whose slices are filled, with a keep that is long enough.
fn found(t: Text, r: Ranges, n: usize, moves: &[u16], holds: &[u8], keep: &mut [u8]) -> SafeStates
    requires { Ready t r n moves.now holds.now keep.old }
    ensures { ◌≡◌ {A = Outcome} (record { answer = Ok result; keep = keep.new })
        (found_outcome t keep.old) }
{
    let inputs = clocks_states::inputs_of(t.channels, t.channel_count);
    let steps = t.channel_count + 1;
    let count = clocks_safe::safe(keep, holds, moves, &inputs, n, steps);
    let first = clocks_walk::first_of(r, t.init);
    SafeStates {
        count,
        start: bitmaps::get(keep, first.state),
    }
}

// The operation with slices that have room for the text, which is parsed and measured, or refused (SPECIFICATION 12.2).
pub fn safe_in(
    period: usize,
    text: &[u8],
    measured: Result<Measured, Refusal>,
    moves: &mut [u16],
    holds: &mut [u8],
    keep: &mut [u8],
) -> Result<SafeStates, Refusal>
    requires { Measures period text.now measured
        × Room (states_of measured) (length moves.old) (length holds.old) }
    ensures { ◌≡◌ {A = Outcome} (record { answer = result; keep = keep.new })
        (safe_outcome period text.now keep.old) }
{
    let m = measured?;
    let reading = clocks_read::judge(Ok(m), moves, holds)?;
    let n = reading.states;
    let need = bitmaps::bytes_for(n);
    if keep.len() < need {
        return Err(Refusal::KeepTooShort(File::None, need));
    }
    Ok(found(reading.text, m.ranges, n, moves, holds, keep))
}
