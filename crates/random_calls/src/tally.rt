// What the calls answer, and how many of them differ from what is expected.
use enumerator::numbers::plus;
use refusals::Refusal;

// Refusals by code, from 1 to 26.
pub const CODES: usize = 27;

// What an operation answers: a number and a flag, 0 and false where it has none.
#[derive(Clone, Copy, PartialEq, Eq)]
pub struct Done {
    pub number: usize,
    pub flag: bool,
}

pub type Answer = Result<Done, Refusal>;

// An accepted answer with a number.
pub fn answered(number: usize) -> Done {
    Done {
        number,
        flag: false,
    }
}

// Calls that are accepted, and by code those that are refused; then texts, pairs of them and answers of a kind.
#[derive(Clone, Copy)]
pub struct Tally {
    pub accepted: usize,
    pub refused: [usize; CODES],
    pub differences: usize,
    pub departures: usize,
    pub no_departure: usize,
    pub with_start: usize,
    pub implementations: usize,
    pub rounded: usize,
    pub joined: usize,
    pub left_out: usize,
    // accepted texts with parallel edges (SPECIFICATION 7.2), pairs of them that are searched, and joined texts
    pub parallel: usize,
    pub parallel_pairs: usize,
    pub parallel_joined: usize,
    // the same with late clocks (SPECIFICATION 6.3), and accepted texts in which a larger value is overridden
    pub late: usize,
    pub late_pairs: usize,
    pub late_joined: usize,
    pub overridden: usize,
}

// Nothing is counted yet.
pub const NOTHING: Tally = Tally {
    accepted: 0,
    refused: [0; CODES],
    differences: 0,
    departures: 0,
    no_departure: 0,
    with_start: 0,
    implementations: 0,
    rounded: 0,
    joined: 0,
    left_out: 0,
    parallel: 0,
    parallel_pairs: 0,
    parallel_joined: 0,
    late: 0,
    late_pairs: 0,
    late_joined: 0,
    overridden: 0,
};

// Counts one more, if it is due.
pub fn add(count: &mut usize, is_due: bool) {
    *count = plus(*count, usize::from(is_due));
}

impl Tally {
    // Counts a call by its answer, and a difference if the answer or a slice is not as expected.
    pub fn count_call(&mut self, expected: &Answer, is_right: bool) {
        match expected {
            Ok(_) => add(&mut self.accepted, true),
            Err(f) => {
                if let Some(count) = self.refused.get_mut(f.code()) {
                    add(count, true);
                }
            }
        }
        add(&mut self.differences, !is_right);
    }
}
