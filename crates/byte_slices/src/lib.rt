// Bytes and decimals put into a slice. Each function puts bytes at a place and returns the place behind them; a byte for
// which the slice has no place is dropped, so no function asks for a length.
#![tactic(auto)]

ghost use Rattle.std.specs.Prelude.{[], ◌∷◌};
ghost use Rattle.byte_slices.specs.Decimal.{decimal};
ghost use Rattle.byte_slices.specs.Put.{Puts};

// The base of the numbers.
const TEN: usize = 10;

// One byte.
pub fn put_byte(out: &mut [u8], at: usize, b: u8) -> usize
    ensures { Puts out.old at (b ∷ []) out.new result }
{
    if out.len() <= at {
        return at;
    }
    out[at] = b;
    at + 1
}

// Bytes, one after another.
pub fn put_bytes(out: &mut [u8], at: usize, bytes: &[u8]) -> usize
    ensures { Puts out.old at bytes.now out.new result }
{
    let mut place = at;
    for b in bytes {
        place = put_byte(out, place, *b);
    }
    place
}

// A number in decimal: the digits in front of the last one, then the last one.
pub fn put_number(out: &mut [u8], at: usize, n: usize) -> usize
    ensures { Puts out.old at (decimal n) out.new result }
{
    let last = b'0' + (n % TEN) as u8;
    if n < TEN {
        return put_byte(out, at, last);
    }
    let place = put_number(out, at, n / TEN);
    put_byte(out, place, last)
}
