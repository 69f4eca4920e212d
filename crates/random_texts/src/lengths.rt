// Tick lengths for calls (SPECIFICATION 4.7).
use super::numbers::{pick, plus};
use limits::LONGEST_TICK;

// What is chosen of a tick length.
const PERIODS: usize = 82;

// How often something comes up: one time in so many, or some times in so many.
const PERIOD_ODDS: usize = 16;

const USUAL_ODDS: usize = 12;

const OUT_OF_RANGE_ODDS: usize = 3;

// At this tick length a numeral is a number of ticks.
pub const ONE_MILLISECOND: usize = 1;

// Tick lengths near the ends of their range, odd and even ones, and often the one at which nothing is rounded.
fn usual_length(k: usize) -> usize {
    match k {
        0 => 2,
        1 => 3,
        2 => 7,
        3 => 10,
        4 => 999,
        5 => 1000,
        6 => LONGEST_TICK,
        _ => ONE_MILLISECOND,
    }
}

// A tick length that is refused.
pub fn length_out_of_range(seed: u32) -> usize {
    match pick(seed, PERIODS, 1, 0, OUT_OF_RANGE_ODDS) {
        0 => 0,
        1 => LONGEST_TICK + 1,
        _ => usize::MAX,
    }
}

// A tick length for a call: some are out of range, half are usual ones, the others any in range.
pub fn tick_length(seed: u32) -> usize {
    match pick(seed, PERIODS, 0, 0, PERIOD_ODDS) {
        0 => length_out_of_range(seed),
        1..=8 => usual_length(pick(seed, PERIODS, 1, 0, USUAL_ODDS)),
        _ => plus(pick(seed, PERIODS, 1, 0, LONGEST_TICK), 1),
    }
}
