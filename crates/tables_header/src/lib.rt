// The header of a table file, a Netpbm raw PBM, and the length of the file; w is the number of right states, h that of
// left states.
#![tactic(auto)]

ghost use Rattle.std.specs.Prelude.{◌≡◌, ◌+◌, ◌≤◌, ◌<◌, ◌++◌, length, get_or, drop};
ghost use Rattle.byte_slices.specs.Decimal.{decimal};
ghost use Rattle.tables_header.specs.Header.{magic_line, magic_bytes, header, header_bytes, table_bytes, begins, fits};
ghost use Rattle.limits.specs.Limits.{state_limit};

use limits::{KEEP_LIMIT, STATE_LIMIT};

// The first line, `P4` and its end, takes so many bytes.
const MAGIC_BYTES: usize = 3;

const MAGIC: [u8; MAGIC_BYTES] = *b"P4\n";

// The bytes of the longest header and of the largest table: both numbers have four digits, and behind each stands one
// byte.
const MOST_DIGITS: usize = 4;

const HEADER_LIMIT: usize = MAGIC_BYTES + 2 * (MOST_DIGITS + 1);

pub const TABLE_LIMIT: usize = HEADER_LIMIT + STATE_LIMIT * KEEP_LIMIT;

// What stands between the numbers, and at the end of a line.
const SPACE: u8 = b' ';

const LINE_END: u8 = b'\n';

// How many decimal digits n has.
fn digit_count(n: usize) -> usize
    requires { n ≤ state_limit }
    ensures { result ≡ length (decimal n) }
{
    let mut rest = n;
    let mut k: usize = 1;
    while 10 <= rest {
        rest /= 10;
        k += 1;
    }
    k
}

// Digit i of n in decimal, from the left.
fn digit_at(n: usize, i: usize) -> u8
    requires { (n ≤ state_limit) × (i < length (decimal n)) }
    ensures { result ≡ get_or (decimal n) i 0 }
{
    let mut rest = n;
    for _ in i + 1..digit_count(n) {
        rest /= 10;
    }
    b'0' + (rest % 10) as u8
}

// How many bytes the header takes.
pub fn header_length(w: usize, h: usize) -> usize
    requires { (w ≤ state_limit) × (h ≤ state_limit) }
    ensures { result ≡ header_bytes w h }
{
    MAGIC_BYTES + digit_count(w) + 1 + digit_count(h) + 1
}

// Byte i of the first line.
fn magic(i: usize) -> u8
    requires { i < magic_bytes }
    ensures { result ≡ get_or magic_line i 0 }
{
    MAGIC[i]
}

// Byte i of the header.
fn header_byte(w: usize, h: usize, i: usize) -> u8
    requires { (w ≤ state_limit) × ((h ≤ state_limit) × (i < header_bytes w h)) }
    ensures { result ≡ get_or (header w h) i 0 }
{
    if i < MAGIC_BYTES {
        return magic(i);
    }
    let a = MAGIC_BYTES + digit_count(w);
    if i < a {
        return digit_at(w, i - MAGIC_BYTES);
    }
    if i == a {
        return SPACE;
    }
    let b = a + 1;
    if i - b < digit_count(h) {
        return digit_at(h, i - b);
    }
    LINE_END
}

// Writes the header into the front of the table.
pub fn write_header(table: &mut [u8], w: usize, h: usize)
    requires { (w ≤ state_limit) × ((h ≤ state_limit) × (header_bytes w h ≤ length table.old)) }
    ensures { table.new ≡ header w h ++ drop (header_bytes w h) table.old }
{
    for i in 0..header_length(w, h) {
        table[i] = header_byte(w, h, i);
    }
}

// Whether the table begins with exactly the header's bytes.
pub fn has_header(table: &[u8], w: usize, h: usize) -> bool
    requires { (w ≤ state_limit) × (h ≤ state_limit) }
    ensures { result ≡ begins (header w h) table.now }
{
    let size = header_length(w, h);
    if table.len() < size {
        return false;
    }
    for i in 0..size {
        if table[i] != header_byte(w, h, i) {
            return false;
        }
    }
    true
}

// How many bytes a table takes, header and raster.
pub fn table_length(w: usize, h: usize) -> usize
    requires { (w ≤ state_limit) × (h ≤ state_limit) }
    ensures { result ≡ table_bytes w h }
{
    header_length(w, h) + h * bitmaps::bytes_for(w)
}

// Code 16 does not apply (SPECIFICATION 13.1): the header and the total length are those of w right and h left states.
#[tactic(auto, unfolding(crate::specs::Header::fits))]
pub fn is_table(table: &[u8], w: usize, h: usize) -> bool
    requires { (w ≤ state_limit) × (h ≤ state_limit) }
    ensures { result ≡ fits w h table.now }
{
    has_header(table, w, h) && table.len() == table_length(w, h)
}
