// Arithmetic with an answer for every argument, so that callers need no proof.

// A sum; the numbers here are far below those at which it wraps.
pub fn plus(a: usize, b: usize) -> usize {
    a.wrapping_add(b)
}

// A product; the same holds of it.
pub fn times(a: usize, b: usize) -> usize {
    a.wrapping_mul(b)
}

// A quotient, 0 for a divisor of 0, which does not come up.
pub fn quotient(a: usize, b: usize) -> usize {
    a.checked_div(b).unwrap_or(0)
}

pub fn remainder(a: usize, b: usize) -> usize {
    a.checked_rem(b).unwrap_or(0)
}
