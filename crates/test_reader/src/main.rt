// Reads texts from standard input and prints what reading returns. Each text ends at a byte `%`; the byte after it
// says whether the text is read as it is (`0`), with spaces after it up to the largest length (`1`) or to one more (`2`),
// or with spaces before it up to the largest length (`3`). A space, the tick length in decimal and a line feed follow.
// The expected output comes from tests/make_cases.py, by an independent reading of docs/SPECIFICATION.md.
#![tactic(auto)]

ghost use Rattle.std.specs.Prelude.{◌≤◌, ◌<◌, length, IfOk, IfSome};

use limits::LARGEST_TEXT;
use std::io;

// The room of the input.
const INPUT_ROOM: usize = 262144;

// The byte after a text, and that after its tick length.
const TEXT_END: u8 = b'%';

const LINE_END: u8 = b'\n';

// The bytes between a text and its tick length: `%`, how it is read, and a space.
const MIDDLE_BYTES: usize = 3;

// So many texts are told apart by their number.
const LAST_NUMBER: usize = 1000;

// The text t from a place on, with spaces before it and after its end.
fn lay(t: &[u8], from: usize, room: &mut [u8]) {
    room.fill(b' ');
    for (place, byte) in room.iter_mut().skip(from).zip(t.iter()) {
        *place = *byte;
    }
}

fn show(rt: &impl Print, period: usize, t: &[u8]) -> io::Result<()> {
    reader_print::print(rt, reader::parse(period, t))
}

// The text t from a place on, with spaces up to n bytes.
fn show_long(rt: &impl Print, period: usize, t: &[u8], from: usize, n: usize) -> io::Result<()> {
    let mut room = programs::text_room();
    lay(t, from, &mut room);
    match room.get(..n) {
        Some(long) => show(rt, period, long),
        None => Ok(()),
    }
}

// The text t at the end of the largest length.
fn show_last(rt: &impl Print, period: usize, t: &[u8]) -> io::Result<()> {
    match LARGEST_TEXT.checked_sub(t.len()) {
        Some(from) => show_long(rt, period, t, from, LARGEST_TEXT),
        None => Ok(()),
    }
}

fn show_as(rt: &impl Print, period: usize, t: &[u8], how: u8) -> io::Result<()> {
    match how {
        b'1' => show_long(rt, period, t, 0, LARGEST_TEXT),
        b'2' => show_long(rt, period, t, 0, LARGEST_TEXT + 1),
        b'3' => show_last(rt, period, t),
        _ => show(rt, period, t),
    }
}

// The place of the first such byte, or the end.
fn end_of(s: &[u8], byte: u8) -> usize
    ensures { result ≤ length s.now }
{
    s.iter().position(|at| *at == byte).unwrap_or(s.len())
}

// The text that s begins with, under its number; answers what stands behind its line, if the text ends.
fn show_next<'a>(rt: &impl Print, k: usize, s: &'a [u8]) -> io::Result<Option<&'a [u8]>>
    ensures { IfOk result (λ next. IfSome next (λ rest. length rest.now < length s.now)) }
{
    let (text, from_end) = s.split_at(end_of(s, TEXT_END));
    let Some(([_, how, _], line)) = from_end.split_first_chunk::<MIDDLE_BYTES>() else {
        return Ok(None);
    };
    let (number, behind) = line.split_at(end_of(line, LINE_END));
    rt.print(k)?;
    show_as(rt, test_input::decimal(number), text, *how)?;
    Ok(Some(behind.get(1..).unwrap_or(&[])))
}

// All texts; there are no more of them than bytes.
fn texts(rt: &impl Print, s: &[u8]) -> io::Result<()> {
    let mut rest = s;
    for k in 1..=s.len() {
        let Some(behind) = show_next(rt, k.min(LAST_NUMBER), rest)? else {
            return Ok(());
        };
        rest = behind;
    }
    Ok(())
}

fn main(rt: HostRuntime) -> io::Result<()> {
    let mut buf = programs::room::<INPUT_ROOM>();
    let n = programs::read_input(&rt, &mut buf);
    texts(&rt, &buf[..n])
}
