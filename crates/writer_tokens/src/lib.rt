// Tokens put into a slice, each with the space behind it. Each function puts bytes at a place and returns the place
// behind them; a byte for which the slice has no place is dropped, so no function asks for room.
#![tactic(auto)]

ghost use Rattle.std.specs.Prelude.{[], ◌∷◌, ◌+◌, ◌≤◌, length, replicate};
ghost use Rattle.byte_slices.specs.Decimal.{decimal};
ghost use Rattle.byte_slices.specs.Put.{Puts};
ghost use Rattle.written.specs.Spaced.{space_byte};
ghost use Rattle.pairing.specs.Channels.{spelling};
ghost use Rattle.writer_tokens.specs.Tokens.{PutsTokens, underscore, called_by};

use byte_slices::{put_byte, put_bytes, put_number};
use reader_record::Name;

// The letters of the names that are made for the process, the clocks and the locations (SPECIFICATION 18.6), and the
// number of the one process.
pub const PROCESS: u8 = b'p';

pub const CLOCK: u8 = b'c';

pub const LOCATION: u8 = b'l';

pub const ONLY_PROCESS: usize = 0;

// What stands before the letter.
pub const UNDERSCORE: u8 = b'_';

// The space behind a token.
fn put_space(out: &mut [u8], at: usize) -> usize
    ensures { Puts out.old at (space_byte ∷ []) out.new result }
{
    put_bytes(out, at, b" ")
}

// A token and the space behind it.
pub fn put_token(out: &mut [u8], at: usize, token: &[u8]) -> usize
    ensures { PutsTokens out.old at (token.now ∷ []) out.new result }
{
    let end = put_bytes(out, at, token);
    put_space(out, end)
}

// The bytes of a name of the text s.
pub fn put_part(out: &mut [u8], at: usize, s: &[u8], name: Name) -> usize
    requires { name.place + name.len ≤ length s.now }
    ensures { PutsTokens out.old at (spelling s.now name ∷ []) out.new result }
{
    let start = name.place as usize;
    let end = start + name.len as usize;
    put_token(out, at, &s[start..end])
}

// A number in decimal.
pub fn put_decimal(out: &mut [u8], at: usize, n: usize) -> usize
    ensures { PutsTokens out.old at (decimal n ∷ []) out.new result }
{
    let end = put_number(out, at, n);
    put_space(out, end)
}

fn put_underscores(out: &mut [u8], at: usize, u: usize) -> usize
    ensures { Puts out.old at (replicate u underscore) out.new result }
{
    let mut place = at;
    for _ in 0..u {
        place = put_byte(out, place, UNDERSCORE);
    }
    place
}

// The bytes of a name that is made: u underscores, a letter and a number (SPECIFICATION 18.6).
pub fn put_name(out: &mut [u8], at: usize, letter: u8, u: usize, i: usize) -> usize
    ensures { Puts out.old at (called_by letter u i) out.new result }
{
    let start = put_underscores(out, at, u);
    let behind = put_byte(out, start, letter);
    put_number(out, behind, i)
}

// A name that is made, as a token.
pub fn put_named(out: &mut [u8], at: usize, letter: u8, u: usize, i: usize) -> usize
    ensures { PutsTokens out.old at (called_by letter u i ∷ []) out.new result }
{
    let end = put_name(out, at, letter, u, i);
    put_space(out, end)
}
