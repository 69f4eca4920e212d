// Reads texts from standard input, each after its tick length in decimal and a `#`, with a `#` between two cases, and
// writes for each what the implementation check answers and whether the enumerator says the same (SPECIFICATION 12.9).
// What is expected comes from tests/make_cases.py, by an independent
// reading of docs/SPECIFICATION.md.
#![tactic(auto)]

use refusals::Refusal;
use std::io;

// The room of the input.
const INPUT_ROOM: usize = 262144;

fn put_answer(rt: &impl Print, answer: &Result<(), Refusal>) -> io::Result<()> {
    match answer {
        Ok(()) => rt.print("yes"),
        Err(f) => {
            rt.print("refused")?;
            test_input::put_refusal(rt, f)
        }
    }
}

// What the enumerator answers.
fn expected(period: usize, text: &[u8]) -> Result<(), Refusal> {
    enumerator::reached::implementation(&enumerator::safe::read(period, text)?)
}

fn show(rt: &impl Print, period: usize, text: &[u8]) -> io::Result<()> {
    let got = operations::implementation(period, text);
    put_answer(rt, &got)?;
    let is_same = got == expected(period, text);
    rt.println(if is_same { " same" } else { " differs" })
}

fn main(rt: HostRuntime) -> io::Result<()> {
    let mut buf = programs::room::<INPUT_ROOM>();
    let n = programs::read_input(&rt, &mut buf);
    test_input::for_each_case(&buf[..n], |period, text| show(&rt, period, text))
}
