// Reads texts from standard input, each after its tick length in decimal and a `#`, with a `#` between two cases, and
// writes what reading and the safe-state operation give for each. What is expected comes from tests/make_cases.py, by
// an independent reading of docs/SPECIFICATION.md.
#![tactic(auto)]

use refusals::Refusal;
use std::io;
use test_input::put_refusal;

// The room of the input.
const INPUT_ROOM: usize = 262144;

// What a keep is filled with before the operation, so that bytes that it leaves alone are seen.
const FILL: u8 = 170;

// How many bytes of a keep with room for every text are shown.
const SHOWN: usize = 7;

fn put_refused(rt: &impl Print, f: &Refusal) -> io::Result<()> {
    rt.print(" refused")?;
    put_refusal(rt, f)
}

// What reading gives: the refusal, or the state count.
fn show_read(rt: &impl Print, period: usize, text: &[u8]) -> io::Result<()> {
    match operations::read(period, text) {
        Ok(r) => {
            let states = r.states;
            print!(rt; " states {states}")
        }
        Err(f) => put_refused(rt, &f),
    }
}

// The first bytes of a keep.
fn show_bytes(rt: &impl Print, keep: &[u8]) -> io::Result<()> {
    rt.print(" keep")?;
    for byte in keep.iter().take(SHOWN) {
        print!(rt; " {byte}")?;
    }
    Ok(())
}

// What the safe-state operation gives.
fn show_safe(rt: &impl Print, period: usize, text: &[u8], keep: &mut [u8]) -> io::Result<()> {
    match operations::safe_states(period, text, keep) {
        Ok(safe) => {
            let count = safe.count;
            let start = if safe.start { "yes" } else { "no" };
            print!(rt; " safe {count} {start}")?;
        }
        Err(f) => put_refused(rt, &f)?,
    }
    show_bytes(rt, keep)
}

// One text: reading, the operation with a keep of one byte, and with one with room for every text, whose first bytes are shown.
fn show(rt: &impl Print, period: usize, text: &[u8]) -> io::Result<()> {
    show_read(rt, period, text)?;
    rt.print(" |")?;
    show_safe(rt, period, text, &mut [FILL; 1])?;
    rt.print(" |")?;
    show_safe(rt, period, text, &mut [FILL; limits::KEEP_LIMIT])?;
    rt.print("\n")
}

fn main(rt: HostRuntime) -> io::Result<()> {
    let mut buf = programs::room::<INPUT_ROOM>();
    let n = programs::read_input(&rt, &mut buf);
    test_input::for_each_case(&buf[..n], |period, text| show(&rt, period, text))
}
