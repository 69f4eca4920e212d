// The operation that reads a text (SPECIFICATION 12.1): it is judged by codes 24 and 1 to 11, and its record and state
// count are returned.
#![tactic(auto)]

ghost use Rattle.std.specs.Prelude.{◌≡◌, OnErr, length};
ghost use Rattle.clocks_table.specs.Room.{Room};
ghost use Rattle.clocks_read.specs.Reading.{flaw_refusal, text_in, states_in, NothingRead};
ghost use Rattle.clocks_read.specs.Loading.{Loading};
ghost use Rattle.clocks_read.specs.Measured.{Measures, WellMeasured, states_of, measured_loading};

use clocks::{Flaw, Ranges};
use reader_record::Text;
use refusals::{File, Refusal};

// What reading gives (SPECIFICATION 12.1).
#[derive(Clone, Copy)]
pub struct Reading {
    pub text: Text,
    pub states: usize,
}

// The record that reading gives; beside a refusal the empty record (SPECIFICATION 12.1).
pub fn text_in(reading: &Result<Reading, Refusal>) -> Text
    ensures { result ≡ text_in reading.now }
{
    match reading {
        Ok(r) => r.text,
        Err(_) => reader_lists::no_text(),
    }
}

// The number of states that reading gives; beside a refusal 0 (SPECIFICATION 12.1).
pub fn states_in(reading: &Result<Reading, Refusal>) -> usize
    ensures { result ≡ states_in reading.now }
{
    match reading {
        Ok(r) => r.states,
        Err(_) => 0,
    }
}

// A text that is parsed, the ranges of its clocks and the number of its states.
#[derive(Clone, Copy)]
pub struct Measured {
    pub text: Text,
    pub ranges: Ranges,
    pub states: usize,
}

// Codes 9 to 11 (SPECIFICATION 13.1), of a text that is taken for the left or only one.
fn refusal_of(f: Flaw) -> Refusal
    ensures { result ≡ flaw_refusal f }
{
    match f {
        Flaw::TooManyStates(states) => Refusal::TooManyStates(File::Left, states),
        Flaw::NoMove(s, c) => Refusal::InputWithoutMove(File::Left, s, c),
        Flaw::TwoEdges(s, c) => Refusal::TwoEdges(File::Left, s, c),
    }
}

// Parses a text at a tick length and counts its states, or refuses it by code 24 or one of the codes 1 to 8.
pub fn measure(period: usize, text: &[u8]) -> Result<Measured, Refusal>
    ensures { Measures period text.now result }
{
    let t = reader::parse(period, text)?;
    let ranges = clocks_states::ranges_of(t);
    let states = clocks_states::state_count_of(t.location_count, ranges);
    Ok(Measured {
        text: t,
        ranges,
        states,
    })
}

// Judges a text that is parsed and measured by codes 9 to 11: the move table and the bits of the states whose invariant
// holds are filled, for an operation that goes on with its states. One that is refused stays so, and leaves both; the
// record beside the refusal is empty and the number of states 0 (SPECIFICATION 12.1).
pub fn judge(
    measured: Result<Measured, Refusal>,
    moves: &mut [u16],
    holds: &mut [u8],
) -> Result<Reading, Refusal>
    requires { WellMeasured measured × Room (states_of measured) (length moves.old) (length holds.old) }
    ensures loading { ◌≡◌ {A = Loading} (record { reading = result; moves = moves.new; holds = holds.new })
        (measured_loading measured moves.old holds.old) }
    ensures refused { OnErr result (NothingRead result) }
{
    let m = measured?;
    let t = m.text;
    clocks_table::judge(t, m.ranges, m.states, moves, holds).map_err(refusal_of)?;
    Ok(Reading {
        text: t,
        states: m.states,
    })
}
