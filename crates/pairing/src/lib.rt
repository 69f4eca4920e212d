// The channels of two texts, paired by name, and a move table by the other text's steps.
#![tactic(auto)]

ghost use Rattle.std.specs.Prelude.{◌≡◌, false, ◌+◌, ◌-◌, ◌*◌, ◌≤◌, ◌<◌, length, replicate};
ghost use Rattle.reader_record.specs.Formed.{WellFormed};
ghost use Rattle.bitmaps.specs.Bits.{tab_from, written};
ghost use Rattle.pairing.specs.Channels.{partner, matched, first_unmatched, verdict, right_step, pairing};
ghost use Rattle.pairing.specs.Only.{only, channels_of};
ghost use Rattle.pairing.specs.Table.{renumbered, row_entry, Renumbering, RowThere, StepsThere, RowWritten};
ghost use Rattle.limits.specs.Limits.{channel_limit, step_limit};

use limits::{CHANNEL_LIMIT, STEP_LIMIT};
use reader_record::{Channel, Name, Text};
use refusals::{File, Refusal};

// Whether two texts have equal channels, or code 12 (SPECIFICATION 9.1), and the right's number of each step of the left
// (9.2): the tick is the tick, a channel the one of the same name, and 0 stands where there is none. The map stands beside
// a refusal too, with 0 where the right has no such channel.
#[derive(Clone, Copy)]
pub struct Pairing {
    pub answer: Result<(), Refusal>,
    pub map: [usize; STEP_LIMIT],
}

// The channels of a text: the first `count` of the list. What is compared are these alone, since a text is long.
#[derive(Clone, Copy)]
struct Channels {
    list: [Channel; CHANNEL_LIMIT],
    count: usize,
}

fn channels_of(t: Text) -> Channels
    ensures { result ≡ channels_of t }
{
    let list = t.channels;
    Channels {
        list,
        count: t.channel_count,
    }
}

// The channel of those in r that has the name, from 1; 0 if it has none.
fn partner_of(s: &[u8], name: Name, u: &[u8], r: Channels) -> usize
    requires { r.count ≤ channel_limit }
    ensures { result ≡ partner s.now name u.now (only r) }
{
    let place = name.place as usize;
    let len = name.len as usize;
    for d in 1..r.count + 1 {
        let other = r.list[d - 1].name;
        let at = other.place as usize;
        if reader_tokens::is_same(s, place, len, u, at, other.len as usize) {
            return d;
        }
    }
    0
}

// Whether the text r has channel c of the text l, and with the same direction.
fn is_matched(s: &[u8], l: Channels, u: &[u8], r: Channels, c: usize) -> bool
    requires { (l.count ≤ channel_limit) × (r.count ≤ channel_limit) × (0 < c) × (c ≤ l.count) }
    ensures { result ≡ matched s.now (only l) u.now (only r) c }
{
    let d = partner_of(s, l.list[c - 1].name, u, r);
    if d == 0 {
        return false;
    }
    let ours = l.list;
    let theirs = r.list;
    let a = clocks_states::is_input_step(ours, l.count, c);
    let b = clocks_states::is_input_step(theirs, r.count, d);
    a == b
}

// The lowest channel of the text l without a match in the text r; 0 if there is none.
fn unmatched_of(s: &[u8], l: Channels, u: &[u8], r: Channels) -> usize
    requires { (l.count ≤ channel_limit) × (r.count ≤ channel_limit) }
    ensures { result ≡ first_unmatched s.now (only l) u.now (only r) }
{
    for c in 1..l.count + 1 {
        if !is_matched(s, l, u, r, c) {
            return c;
        }
    }
    0
}

// Code 12 for channel c of the left, else for channel d of the right, where they are not 0.
#[tactic(auto, unfolding(crate::specs::Channels::verdict))]
fn verdict_of(c: usize, d: usize) -> Result<(), Refusal>
    ensures { result ≡ verdict c d }
{
    if c != 0 {
        return Err(Refusal::UnmatchedChannel(File::Left, c));
    }
    if d != 0 {
        return Err(Refusal::UnmatchedChannel(File::Right, d));
    }
    Ok(())
}

// The right's number of the left's step c.
fn step_of(s: &[u8], l: Channels, u: &[u8], r: Channels, c: usize) -> usize
    requires { (l.count ≤ channel_limit) × (r.count ≤ channel_limit) }
    ensures { result ≡ right_step s.now (only l) u.now (only r) c }
{
    let tick = steps::TICK;
    if c == tick.number {
        return tick.number;
    }
    if l.count < c {
        return 0;
    }
    let channel = l.list[c - 1];
    partner_of(s, channel.name, u, r)
}

// The right's numbers of the left's steps, from the tick on.
fn steps_of(s: &[u8], l: Channels, u: &[u8], r: Channels) -> [usize; STEP_LIMIT]
    requires { (l.count ≤ channel_limit) × (r.count ≤ channel_limit) }
    ensures { result ≡ tab_from (right_step s.now (only l) u.now (only r)) 0 step_limit }
{
    let mut map = [0; STEP_LIMIT];
    for c in 0..STEP_LIMIT {
        map[c] = step_of(s, l, u, r, c);
    }
    map
}

// Pairs the channels of the left text with those of the right (SPECIFICATION 9.1, 9.2): code 12 for the lowest channel of
// the left that has no match, else of the right, and the map of the steps either way.
pub fn pair_channels(left: &[u8], l: Text, right: &[u8], r: Text) -> Pairing
    requires { WellFormed l × WellFormed r }
    ensures { result ≡ pairing left.now l right.now r }
{
    let ours = channels_of(l);
    let theirs = channels_of(r);
    let c = unmatched_of(left, ours, right, theirs);
    let d = unmatched_of(right, theirs, left, ours);
    let answer = verdict_of(c, d);
    let map = steps_of(left, ours, right, theirs);
    Pairing { answer, map }
}

// The row that starts at `from`, of so many steps, out of the table.
fn row_at(moves: &[u16], from: usize, width: usize) -> [u16; STEP_LIMIT]
    requires { RowThere (length moves.now) from width }
    ensures { result ≡ written (row_entry moves.now from) width (replicate step_limit 0) }
{
    let mut row = [0; STEP_LIMIT];
    row[..width].copy_from_slice(&moves[from..from + width]);
    row
}

// The row that starts at `from`, by the other text's steps.
fn renumber_row(moves: &mut [u16], map: [usize; STEP_LIMIT], from: usize, width: usize)
    requires { RowThere (length moves.old) from width × StepsThere map width }
    ensures { RowWritten moves.old map from width moves.old moves.new }
{
    let row = row_at(moves, from, width);
    for c in 0..width {
        let d = map[c];
        moves[from + c] = row[d];
    }
}

// The right's move table, of n rows, by the left's steps; both have equally many.
pub fn renumber(moves: &mut [u16], map: [usize; STEP_LIMIT], n: usize, width: usize)
    requires { Renumbering (length moves.old) map n width }
    ensures { moves.new ≡ written (renumbered moves.old map width width) (n * width)
        moves.old }
{
    for row in 0..n {
        renumber_row(moves, map, row * width, width);
    }
}
