// Bytes, numerals and names at the start of bytes, and how many underscores stand before the names that are made
// (SPECIFICATION 18.6). What is looked for answers the bytes behind it, if it is there.
use enumerator::numbers::quotient;
use enumerator::pairs::spelled;
use limits::STEP_LIMIT;
use reader_record::{Name, Text};

// What the digits of a numeral of at most four count.
const UNITS: [usize; 4] = [1000, 100, 10, 1];

const TEN: usize = 10;

// The letters of the names that are made.
pub const PROCESS: u8 = b'p';

pub const CLOCK: u8 = b'c';

pub const LOCATION: u8 = b'l';

// The bytes behind what is found.
pub type Rest<'a> = Option<&'a [u8]>;

fn byte(s: &[u8], x: u8) -> Rest<'_> {
    match s.split_first() {
        Some((first, rest)) if *first == x => Some(rest),
        _ => None,
    }
}

// A byte n times.
fn again(s: &[u8], x: u8, n: usize) -> Rest<'_> {
    let mut rest = s;
    for _ in 0..n {
        rest = byte(rest, x)?;
    }
    Some(rest)
}

// A numeral without leading zeros, of a number below ten thousand.
fn digits(s: &[u8], n: usize) -> Rest<'_> {
    let mut rest = s;
    for unit in UNITS {
        if unit <= n || unit == 1 {
            rest = byte(rest, (quotient(n, unit) % TEN) as u8 + b'0')?;
        }
    }
    Some(rest)
}

// A numeral and a space.
pub fn numeral(s: &[u8], n: usize) -> Rest<'_> {
    byte(digits(s, n)?, b' ')
}

// A name that is made: u underscores, a letter and a number.
fn called(s: &[u8], u: usize, letter: u8, n: usize) -> Rest<'_> {
    digits(byte(again(s, b'_', u)?, letter)?, n)
}

// A name that is made, and a space.
pub fn made_name(s: &[u8], u: usize, letter: u8, n: usize) -> Rest<'_> {
    byte(called(s, u, letter, n)?, b' ')
}

// A name of the left text, and a space.
pub fn channel_name<'a>(s: &'a [u8], left: &[u8], name: Name) -> Rest<'a> {
    byte(s.strip_prefix(spelled(left, name))?, b' ')
}

// Whether a name is that of number n.
fn is_called(name: &[u8], u: usize, letter: u8, n: usize) -> bool {
    match called(name, u, letter, n) {
        Some(rest) => rest.is_empty(),
        None => false,
    }
}

// Whether a name is one of the n names that are made with a letter.
fn is_one_of(name: &[u8], u: usize, letter: u8, n: usize) -> bool {
    (0..n).any(|i| is_called(name, u, letter, i))
}

// Whether a channel of the left text has a name that is made with u underscores.
fn clashes(left: &[u8], l: &Text, clocks: usize, locations: usize, u: usize) -> bool {
    l.channels.iter().take(l.channel_count).any(|c| {
        let name = spelled(left, c.name);
        is_one_of(name, u, PROCESS, 1)
            || is_one_of(name, u, CLOCK, clocks)
            || is_one_of(name, u, LOCATION, locations)
    })
}

// The fewest underscores without a clash. A channel clashes with one number of them only, so that there is one among so
// many numbers.
pub fn underscores(left: &[u8], l: &Text, clocks: usize, locations: usize) -> usize {
    (0..STEP_LIMIT)
        .find(|u| !clashes(left, l, clocks, locations, *u))
        .unwrap_or(STEP_LIMIT)
}
