// Two texts at a tick length, and what the enumerator reads of each.
use enumerator::safe::{Reading, judge_length, read_near};
use refusals::Refusal;

// Two texts; what is read of each is that of another tick length where this one is out of range, so that slices can be
// lent that would do.
#[derive(Drop)]
pub struct Texts<'a> {
    pub period: usize,
    pub left: &'a [u8],
    pub right: &'a [u8],
    pub a: Result<Reading, Refusal>,
    pub b: Result<Reading, Refusal>,
}

pub fn read_both<'a>(period: usize, left: &'a [u8], right: &'a [u8]) -> Texts<'a> {
    Texts {
        period,
        left,
        right,
        a: read_near(period, left),
        b: read_near(period, right),
    }
}

impl Texts<'_> {
    // What is refused of both before the slices are looked at.
    pub fn judge(&self) -> Result<(), Refusal> {
        judge_length(self.period)?;
        enumerator::pairs::judge_two(self.left, self.right, &self.a, &self.b)
    }
}
