// Numbers that depend on a seed.

// The shifts of the xorshift generator of 32 bits, how much of a number is mixed in, and the low bits that are left out.
const FIRST_SHIFT: u32 = 13;

const SECOND_SHIFT: u32 = 17;

const THIRD_SHIFT: u32 = 5;

const MIXED_IN: usize = 65536;

const LEFT_OUT: usize = 8;

// What a seed for a part is chosen by.
const PARTS: usize = 80;

// A sum; the numbers here are far below those at which it wraps.
pub fn plus(a: usize, b: usize) -> usize {
    a.wrapping_add(b)
}

pub fn minus(a: usize, b: usize) -> usize {
    a.wrapping_sub(b)
}

fn mix(x: u32) -> u32 {
    let a = x ^ (x << FIRST_SHIFT);
    let b = a ^ (a >> SECOND_SHIFT);
    b ^ (b << THIRD_SHIFT)
}

fn with(x: u32, y: usize) -> u32 {
    mix(mix(x).wrapping_add((y % MIXED_IN) as u32))
}

// A number below n that depends on a seed, on what is chosen and on what for; 0 where n is 0.
pub fn pick(seed: u32, what: usize, a: usize, b: usize, n: usize) -> usize {
    let x = mix(mix(with(with(with(seed, what), a), b)));
    ((x as usize) / LEFT_OUT).checked_rem(n).unwrap_or(0)
}

// A seed for a part of a test.
pub fn part(seed: u32, k: usize) -> u32 {
    with(with(seed, k), PARTS)
}
