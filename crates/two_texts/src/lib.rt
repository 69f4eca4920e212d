// Reads the two texts of an operation, pairs their channels by name and tabulates both: codes 24
// and 1 to 12.
#![tactic(auto)]

ghost use Rattle.std.specs.Prelude.{◌≡◌, ◌*◌, ◌≤◌, length, leb};
ghost use Rattle.clocks_table.specs.Room.{Room};
ghost use Rattle.clocks_read.specs.Measured.{Measures, states_of};
ghost use Rattle.refusals.specs.declared.File.TheVariants.{Left, Right};
ghost use Rattle.refusals.specs.Refusals.{in_file};
ghost use Rattle.two_texts.specs.Loaded.{Loads};
ghost use Rattle.two_texts.specs.Measured.{MeasuresTwo, Rooms};
ghost use Rattle.two_texts.specs.Answers.{sides_of, accepted, Sized, AcceptedMeasure, Paired, RightLoaded};
ghost use Rattle.limits.specs.Limits.{step_limit, few_states};

use clocks::Ranges;
use clocks_read::Measured;
use limits::{LARGEST_TEXT, STEP_LIMIT};
use move_tables::Sides;
use reader_record::Text;
use refusals::{File, Refusal};

// What reading two texts gives where both are accepted and their channels pair up: their sizes and starts, and which
// steps are inputs.
#[derive(Clone, Copy)]
pub struct TwoTexts {
    pub sides: Sides,
    pub inputs: [bool; STEP_LIMIT],
}

// Two texts, parsed and measured or refused, and whether both have few states.
#[derive(Clone, Copy)]
pub struct MeasuredTexts {
    pub left: Result<Measured, Refusal>,
    pub right: Result<Measured, Refusal>,
    pub few: bool,
}

// The sizes and starts of two accepted texts.
fn sides_of(l: Text, left: Ranges, r: Text, right: Ranges) -> Sides
    requires { Sized l left × Sized r right }
    ensures { result ≡ sides_of l r }
{
    let steps = l.channel_count + 1;
    let left_states = clocks_states::state_count_of(l.location_count, left);
    let right_states = clocks_states::state_count_of(r.location_count, right);
    let left_first = clocks_walk::first_of(left, l.init);
    let right_first = clocks_walk::first_of(right, r.init);
    Sides {
        left_states,
        right_states,
        steps,
        left_start: left_first.state,
        right_start: right_first.state,
    }
}

// The numbers of two accepted texts.
fn accepted(l: Text, left: Ranges, r: Text, right: Ranges) -> TwoTexts
    requires { Sized l left × Sized r right }
    ensures { result ≡ accepted l r }
{
    let sides = sides_of(l, left, r, right);
    let channels = l.channels;
    let inputs = clocks_states::inputs_of(channels, l.channel_count);
    TwoTexts { sides, inputs }
}

// Code 12, else the right's table in `moves` is renumbered by the left's steps: there are equally many.
fn paired(
    period: usize,
    left: &[u8],
    ours: Measured,
    right: &[u8],
    theirs: Measured,
    moves: &mut [u16],
) -> Result<TwoTexts, Refusal>
    requires { AcceptedMeasure period left.now ours × AcceptedMeasure period right.now theirs
        × (theirs.states * step_limit ≤ length moves.old) }
    ensures { Paired period left.now right.now moves.old moves.old
        moves.new result }
{
    let a = ours.text;
    let b = theirs.text;
    let pairing = pairing::pair_channels(left, a, right, b);
    pairing.answer?;
    let width = a.channel_count + 1;
    pairing::renumber(moves, pairing.map, theirs.states, width);
    Ok(accepted(a, ours.ranges, b, theirs.ranges))
}

// A refusal of the left text, with its mark.
fn in_left(f: Refusal) -> Refusal
    ensures { result ≡ in_file Left f }
{
    f.in_file(File::Left)
}

// A refusal of the right text, with its mark.
fn in_right(f: Refusal) -> Refusal
    ensures { result ≡ in_file Right f }
{
    f.in_file(File::Right)
}

// Judges the right text after the left one was accepted.
fn load_right(
    period: usize,
    left: &[u8],
    ours: Measured,
    right: &[u8],
    theirs: Result<Measured, Refusal>,
    moves: &mut [u16],
    holds: &mut [u8],
) -> Result<TwoTexts, Refusal>
    requires { AcceptedMeasure period left.now ours × Measures period right.now theirs
        × Room (states_of theirs) (length moves.old) (length holds.old) }
    ensures { RightLoaded period left.now right.now moves.new
        holds.new result }
{
    let m = theirs.map_err(in_right)?;
    clocks_read::judge(Ok(m), moves, holds).map_err(in_right)?;
    paired(period, left, ours, right, m, moves)
}

// Whether a text has few states; a refused one has none.
fn is_small(m: Result<Measured, Refusal>) -> bool
    ensures { result ≡ leb (states_of m) few_states }
{
    match m {
        Ok(measured) => measured.states <= limits::FEW_STATES,
        Err(_) => true,
    }
}

// Parses both texts and counts their states. Slices for them are made after this, small ones where small ones do.
pub fn measure_two(period: usize, left: &[u8], right: &[u8]) -> MeasuredTexts
    ensures { MeasuresTwo period left.now right.now result }
{
    let left = clocks_read::measure(period, left);
    let right = clocks_read::measure(period, right);
    let few = is_small(left) && is_small(right);
    MeasuredTexts { left, right, few }
}

// Codes 24 and 1 to 12, else the numbers of both texts, the move tables by the left's steps and the bits of the states
// whose invariant is true.
pub fn load_two(
    period: usize,
    left: &[u8],
    right: &[u8],
    both: MeasuredTexts,
    lm: &mut [u16],
    rm: &mut [u16],
    lh: &mut [u8],
    rh: &mut [u8],
) -> Result<TwoTexts, Refusal>
    requires { MeasuresTwo period left.now right.now both
        × Rooms both (length lm.old) (length rm.old) (length lh.old) (length rh.old) }
    ensures { Loads period left.now right.now lm.new rm.new
        lh.new
        rh.new result }
{
    if !limits::is_tick_length(period) {
        return Err(Refusal::TickOutOfRange(File::None, period));
    }
    if LARGEST_TEXT < left.len() {
        return Err(Refusal::TextTooLong(File::Left));
    }
    if LARGEST_TEXT < right.len() {
        return Err(Refusal::TextTooLong(File::Right));
    }
    let ours = both.left.map_err(in_left)?;
    clocks_read::judge(Ok(ours), lm, lh).map_err(in_left)?;
    load_right(period, left, ours, right, both.right, rm, rh)
}
