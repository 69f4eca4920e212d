// The bytes of keep and of a table, each worked out by itself (SPECIFICATION 8.4, 11).
use super::moves::{Row, is_safe};
use super::numbers::{plus, quotient, remainder, times};
use super::pairs::{Two, has};
use std::io::Write;

const BITS: usize = 8;

const TEN: usize = 10;

// The bytes of a header that are no digits: `P4`, LF, a space and LF.
const HEADER_MARKS: usize = 5;

// The bytes that n bits take.
pub fn bytes_for(n: usize) -> usize {
    plus(n, BITS - 1) / BITS
}

// A byte of eight flags, the first of them highest; those from k × 8 on are wanted.
fn packed<F: Fn(usize) -> bool>(k: usize, is_set: F) -> u8
    requires { F.IsAlwaysCallable is_set }
{
    let mut x = 0;
    for b in 0..BITS {
        x = x << 1 | u8::from(is_set(plus(times(k, BITS), b)));
    }
    x
}

// Byte k of keep.
pub fn keep_byte(rows: &[Row], k: usize) -> u8 {
    packed(k, |s| is_safe(rows, s))
}

// Byte k of the row of s; the bits past the right's states are the padding.
fn row_byte(set: &[bool], w: &Two, padding: bool, s: usize, k: usize) -> u8 {
    packed(k, |t| {
        if t < w.right_states {
            has(set, w.pair_number(s, t))
        } else {
            padding
        }
    })
}

// The digits of a number.
fn digits(n: usize) -> usize {
    if n < TEN {
        return 1;
    }
    let mut rest = n;
    let mut count = 1;
    for _ in 0..usize::BITS {
        rest = rest / TEN;
        if rest == 0 {
            return count;
        }
        count = plus(count, 1);
    }
    count
}

// The length of the header: `P4`, LF, the right's states, one space, the left's states, LF.
fn header_length(w: &Two) -> usize {
    plus(
        HEADER_MARKS,
        plus(digits(w.right_states), digits(w.left_states)),
    )
}

// The length of the whole table.
pub fn table_length(w: &Two) -> usize {
    plus(
        header_length(w),
        times(w.left_states, bytes_for(w.right_states)),
    )
}

// The rows, with the padding of each as given.
fn write_rows(set: &[bool], w: &Two, padding: bool, rows: &mut [u8]) {
    let row = bytes_for(w.right_states);
    let bytes = times(w.left_states, row);
    for (i, byte) in rows.iter_mut().take(bytes).enumerate() {
        *byte = row_byte(set, w, padding, quotient(i, row), remainder(i, row));
    }
}

// Writes the table where there is room for its header; nothing is written past the end.
pub fn write_table(set: &[bool], w: &Two, padding: bool, table: &mut [u8]) {
    let Some((header, rows)) = table.split_at_mut_checked(header_length(w)) else {
        return;
    };
    let mut out = header;
    if write!(out, "P4\n{} {}\n", w.right_states, w.left_states).is_ok() {
        write_rows(set, w, padding, rows);
    }
}
