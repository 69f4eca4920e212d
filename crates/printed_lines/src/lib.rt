// The lines that the programs print, made in a slice. Each function puts bytes at a place and returns the place behind
// them; a byte for which the slice has no place is dropped, so no function asks for a length.
#![tactic(auto)]

ghost use Rattle.std.specs.Prelude.{◌≡◌, [], ◌∷◌, ◌++◌, ◌+◌, ◌-◌, ◌<◌, ◌≤◌, length, get_or};
ghost use Rattle.reader_record.specs.Record.{no_channel};
ghost use Rattle.pairing.specs.Channels.{spelling};
ghost use Rattle.byte_slices.specs.Decimal.{ascii, decimal};
ghost use Rattle.tables_header.specs.Header.{space};
ghost use Rattle.byte_slices.specs.Put.{Puts};
ghost use Rattle.printed_lines.specs.Room.{most_digits, line_limit};
ghost use Rattle.printed_lines.specs.Lines.{line, refusal_line, yes_line, passed_line, accepted_line};
ghost use Rattle.printed_lines.specs.Lines.{direction_mark, channel_line, step_line, step_lines, departure_lines};

use byte_slices::{put_byte, put_bytes, put_number};
use limits::CHANNEL_LIMIT;
use reader_record::{Channel, Direction, Name};
use refusals::Refusal;
use steps::Step;

// What stands between the numbers and behind them.
const SPACE: u8 = b' ';

const LINE_END: u8 = b'\n';

// The most digits of a number, and the bytes of the longest line but those of a channel: REFUSED and four numbers, each
// after a space, LF.
const MOST_DIGITS: usize = 20;

const REFUSED_BYTES: usize = 7;

const REFUSED_NUMBERS: usize = 4;

pub const LINE_LIMIT: usize = REFUSED_BYTES + REFUSED_NUMBERS * (MOST_DIGITS + 1) + 1;

// A space and a number.
fn put_spaced(out: &mut [u8], at: usize, n: usize) -> usize
    ensures puts { Puts out.old at (space ++ decimal n) out.new result }
    ensures short { length (space ++ decimal n) ≤ most_digits + 1 }
{
    let place = put_byte(out, at, SPACE);
    put_number(out, place, n)
}

// A word and a number behind it.
fn put_count(out: &mut [u8], at: usize, word: &[u8], n: usize) -> usize
    ensures puts { Puts out.old at (line word.now (n ∷ [])) out.new result }
    ensures short { length (line word.now (n ∷ [])) ≤ length word.now + most_digits + 2 }
{
    let behind = put_bytes(out, at, word);
    let end = put_spaced(out, behind, n);
    put_byte(out, end, LINE_END)
}

// REFUSED, the code, the file, p and q.
pub fn put_refusal(out: &mut [u8], at: usize, f: Refusal) -> usize
    ensures puts { Puts out.old at (refusal_line f) out.new result }
    ensures short { length (refusal_line f) ≤ line_limit }
{
    let word = put_bytes(out, at, b"REFUSED");
    let code = put_spaced(out, word, f.code());
    let file = put_spaced(out, code, f.file().mark());
    let p = put_spaced(out, file, f.p());
    let q = put_spaced(out, p, f.q());
    put_byte(out, q, LINE_END)
}

// YES and the number of the widest table's pairs.
#[tactic(auto, unfolding(crate::specs::Lines::yes_line))]
pub fn put_yes(out: &mut [u8], at: usize, count: usize) -> usize
    ensures puts { Puts out.old at (yes_line count) out.new result }
    ensures short { length (yes_line count) ≤ line_limit }
{
    put_count(out, at, b"YES", count)
}

// YES alone, for a text that is an implementation.
pub fn put_passed(out: &mut [u8], at: usize) -> usize
    ensures puts { Puts out.old at passed_line out.new result }
    ensures short { length passed_line ≤ line_limit }
{
    let end = put_bytes(out, at, b"YES");
    put_byte(out, end, LINE_END)
}

// ACCEPTED and the number of the checked table's pairs.
#[tactic(auto, unfolding(crate::specs::Lines::accepted_line))]
pub fn put_accepted(out: &mut [u8], at: usize, count: usize) -> usize
    ensures puts { Puts out.old at (accepted_line count) out.new result }
    ensures short { length (accepted_line count) ≤ line_limit }
{
    put_count(out, at, b"ACCEPTED", count)
}

// A name, as the text spells it.
fn put_name(out: &mut [u8], at: usize, text: &[u8], name: Name) -> usize
    ensures { Puts out.old at (spelling text.now name) out.new result }
{
    let start = text.len().min(name.place as usize);
    let end = text.len().min(name.place as usize + name.len as usize);
    put_bytes(out, at, &text[start..end])
}

// The mark of a direction.
#[tactic(auto, unfolding(crate::specs::Lines::direction_mark))]
fn mark_of(d: Direction) -> u8
    ensures { (result ∷ []) ≡ direction_mark d }
{
    match d {
        Direction::Input => b'?',
        Direction::Output | Direction::Unused => b'!',
    }
}

// A channel's name as the text spells it, with its mark.
fn put_channel(out: &mut [u8], at: usize, text: &[u8], k: Channel) -> usize
    ensures { Puts out.old at (channel_line text.now k) out.new result }
{
    let spelled = put_name(out, at, text, k.name);
    let marked = put_byte(out, spelled, mark_of(k.direction));
    put_byte(out, marked, LINE_END)
}

// Channel c, from 1; where there is none, one without a name, which no edge uses.
fn channel_at(channels: [Channel; CHANNEL_LIMIT], c: usize) -> Channel
    requires { 0 < c }
    ensures { result ≡ get_or channels (c - 1) no_channel }
{
    if CHANNEL_LIMIT < c {
        return Channel {
            name: Name { place: 0, len: 0 },
            direction: Direction::Unused,
        };
    }
    channels[c - 1]
}

// A step of the text with these channels.
fn put_step(
    out: &mut [u8],
    at: usize,
    text: &[u8],
    channels: [Channel; CHANNEL_LIMIT],
    step: Step,
) -> usize
    ensures { Puts out.old at (step_line text.now channels step.number)
        out.new result }
{
    if step.is_tick() {
        return put_bytes(out, at, b"tick\n");
    }
    let k = channel_at(channels, step.channel());
    put_channel(out, at, text, k)
}

// A step a line.
fn put_steps(
    out: &mut [u8],
    at: usize,
    text: &[u8],
    channels: [Channel; CHANNEL_LIMIT],
    run: &[u32],
) -> usize
    ensures { Puts out.old at (step_lines text.now channels run.now)
        out.new result }
{
    let mut place = at;
    for entry in run {
        let step = Step::of_written(*entry);
        place = put_step(out, place, text, channels, step);
    }
    place
}

// NO, n, and the first n steps of the run.
pub fn put_departure(
    out: &mut [u8],
    at: usize,
    text: &[u8],
    channels: [Channel; CHANNEL_LIMIT],
    n: usize,
    run: &[u32],
) -> usize
    ensures puts { Puts out.old at (departure_lines text.now channels n run.now)
        out.new result }
    ensures short { length (line (ascii "NO") (n ∷ [])) ≤ line_limit }
{
    let head = put_count(out, at, b"NO", n);
    let end = run.len().min(n);
    put_steps(out, head, text, channels, &run[..end])
}
