// Reads pairs of texts from standard input and writes for each what joining the two answers and the text itself
// (SPECIFICATION 12.10). A case is a tick length and the length of the slice that is lent, both in decimal, the left
// text and the right one, with a `#` after each. A joined text is read again with tick length 1, and its safe states
// are counted; where it was joined at that tick length and its start is safe, it is then searched against both texts.
// What is expected comes from tests/make_cases.py, by an independent reading of docs/SPECIFICATION.md.
#![tactic(auto)]

ghost use Rattle.std.specs.Prelude.{◌≡◌, length};

use limits::SHORTEST_TICK;
use std::io;
use test_input::{BETWEEN, decimal, put_refusal};

// What a slice is filled with before the operation, so that bytes that it leaves alone are seen.
const FILL: u8 = 165;

// The room of the slice that is lent. A case that does not fit is left out, and the expected output then differs.
const SLICE_ROOM: usize = 40000;

// The room of the input.
const INPUT_ROOM: usize = 524288;

// The room of the slices that a search borrows.
const ENTRY_ROOM: usize = 131072;

const RUN_ROOM: usize = 512;

// The parts of a case.
const PARTS: usize = 4;

// A tick length and two texts to join.
#[derive(Clone, Copy)]
struct Case<'a> {
    period: usize,
    left: &'a [u8],
    right: &'a [u8],
}

fn put_kept(rt: &impl Print, s: &[u8]) -> io::Result<()> {
    let is_kept = s.iter().all(|byte| *byte == FILL);
    rt.println(if is_kept { " kept" } else { " changed" })
}

// Entries to lend. They stand behind a function because antt must not unfold an array of this length.
fn entries() -> [u32; ENTRY_ROOM]
    ensures { length result ≡ 131072 }
{
    [0; ENTRY_ROOM]
}

// How many steps the joined text departs from one of the two by.
fn put_search(rt: &impl Print, joined: &[u8], text: &[u8]) -> io::Result<()> {
    let mut keep = [0; limits::KEEP_LIMIT];
    let mut back = entries();
    let mut line = entries();
    let mut run = [0; RUN_ROOM];
    match operations::search(
        SHORTEST_TICK,
        joined,
        text,
        &mut keep,
        &mut back,
        &mut line,
        &mut run,
    ) {
        Ok(steps) => print!(rt; " {steps}"),
        Err(f) => {
            rt.print(" refused")?;
            put_refusal(rt, &f)
        }
    }
}

// The number of safe states; whether the start is one.
fn put_safe(rt: &impl Print, joined: &[u8]) -> io::Result<bool> {
    let mut keep = [0; limits::KEEP_LIMIT];
    match operations::safe_states(SHORTEST_TICK, joined, &mut keep) {
        Ok(safe) => {
            let count = safe.count;
            print!(rt; " safe {count}")?;
            Ok(safe.start)
        }
        Err(f) => {
            rt.print(" refused")?;
            put_refusal(rt, &f)?;
            Ok(false)
        }
    }
}

// What reading the joined text gives: the refusal, or the number of states.
fn put_read(rt: &impl Print, joined: &[u8]) -> io::Result<()> {
    match operations::read(SHORTEST_TICK, joined) {
        Ok(r) => {
            let states = r.states;
            print!(rt; "again states {states}")
        }
        Err(f) => {
            rt.print("again refused")?;
            put_refusal(rt, &f)
        }
    }
}

// The joined text, and what it is.
fn show_joined(rt: &impl Print, case: &Case, joined: &[u8]) -> io::Result<()> {
    rt.write_all(joined)?;
    put_read(rt, joined)?;
    if !put_safe(rt, joined)? {
        return rt.println(" start not safe");
    }
    rt.print(" start safe")?;
    if case.period == SHORTEST_TICK {
        rt.print(" left")?;
        put_search(rt, joined, case.left)?;
        rt.print(" right")?;
        put_search(rt, joined, case.right)?;
    }
    rt.print("\n")
}

fn show_written(rt: &impl Print, case: &Case, out: &[u8], n: usize) -> io::Result<()> {
    print!(rt; "joined {n}")?;
    match out.split_at_checked(n) {
        Some((joined, behind)) => {
            put_kept(rt, behind)?;
            show_joined(rt, case, joined)
        }
        None => rt.println(" too long"),
    }
}

fn show(rt: &impl Print, case: &Case, out: &mut [u8]) -> io::Result<()> {
    match operations::join(case.period, case.left, case.right, out) {
        Ok(n) => show_written(rt, case, out, n),
        Err(f) => {
            rt.print("refused")?;
            put_refusal(rt, &f)?;
            put_kept(rt, out)
        }
    }
}

// Joins with a slice of n bytes.
fn show_case(rt: &impl Print, case: &Case, n: usize) -> io::Result<()> {
    let mut room = programs::room::<SLICE_ROOM>();
    room.fill(FILL);
    match room.get_mut(..n) {
        Some(out) => show(rt, case, out),
        None => Ok(()),
    }
}

// All cases of the input. A byte between behind the last part begins no other one, and parts that the last case does
// not have are empty.
fn show_all(rt: &impl Print, s: &[u8]) -> io::Result<()> {
    if s.is_empty() {
        return Ok(());
    }
    let whole = s.strip_suffix(&[BETWEEN]).unwrap_or(s);
    let missing: [&[u8]; PARTS - 1] = [&[]; PARTS - 1];
    let mut case = Case {
        period: 0,
        left: &[],
        right: &[],
    };
    let mut bytes = 0;
    let parts = whole.split(|byte| *byte == BETWEEN).chain(missing);
    for (k, part) in parts.enumerate() {
        match k % PARTS {
            0 => case.period = decimal(part),
            1 => bytes = decimal(part),
            2 => case.left = part,
            _ => {
                case.right = part;
                show_case(rt, &case, bytes)?;
            }
        }
    }
    Ok(())
}

fn main(rt: HostRuntime) -> io::Result<()> {
    let mut buf = programs::room::<INPUT_ROOM>();
    let n = programs::read_input(&rt, &mut buf);
    show_all(&rt, &buf[..n])
}
