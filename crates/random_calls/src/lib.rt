// Calls of six operations, all but join, at a tick length with long, exact and short slices, what the enumerator says of
// each, and a tally of answers and differences: the answer counts, and every byte and entry that is lent. Proved safe
// and ending, no more.
#![tactic(auto)]

pub mod cases;
pub mod given;
pub mod lent;
pub mod reading;
pub mod tally;
pub mod texts;
