// What the test programs share: numbers in decimal, cases that a byte parts, and a refusal as four numbers.
#![tactic(auto)]

ghost use Rattle.std.specs.Prelude.{◌≤◌};

use refusals::Refusal;
use std::io;

// The byte between the parts of cases.
pub const BETWEEN: u8 = b'#';

const TEN: usize = 10;

// The value of a digit; any other byte counts as 0.
fn digit(byte: u8) -> usize
    ensures { result ≤ 9 }
{
    match byte {
        b'0'..=b'9' => usize::from(byte - b'0'),
        _ => 0,
    }
}

// A number with one digit more; where no word has room for that, the number stays.
fn with_digit(n: usize, d: usize) -> usize {
    match n.checked_mul(TEN) {
        Some(tens) => tens.checked_add(d).unwrap_or(n),
        None => n,
    }
}

// The number that the digits make.
pub fn decimal(s: &[u8]) -> usize {
    let mut n = 0;
    for byte in s {
        n = with_digit(n, digit(*byte));
    }
    n
}

// Shows each case of the input: a tick length in decimal and a text, with the byte between them and between two cases.
// A tick length at the end that has no text behind it is shown with the empty one.
pub fn for_each_case<F: FnMut(usize, &[u8]) -> io::Result<()>>(
    s: &[u8],
    mut show: F,
) -> io::Result<()>
    requires { F.IsAlwaysCallable show }
{
    let mut period = None;
    for part in s.split(|byte| *byte == BETWEEN) {
        match period {
            None => period = Some(decimal(part)),
            Some(length) => {
                show(length, part)?;
                period = None;
            }
        }
    }
    match (period, s.last()) {
        (Some(length), Some(byte)) if *byte != BETWEEN => show(length, &[]),
        _ => Ok(()),
    }
}

// Code, file mark, p and q, with a space before each.
pub fn put_refusal(rt: &impl Print, f: &Refusal) -> io::Result<()> {
    let code = f.code();
    let file = f.file().mark();
    let p = f.p();
    let q = f.q();
    print!(rt; " {code} {file} {p} {q}")
}
