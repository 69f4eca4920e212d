// A plain enumerator: what the specification says of one text and of two, worked out by trying everything.
// Configurations are stepped one by one, every edge is tried, states and pairs are removed, or states reached, until
// nothing changes, and runs are found by their length. It shares nothing with the operations but the record of a text, in which
// constants are in ticks already, and the refusals, and is proved safe and ending, no more: a program compares what it
// says with what the operations answer.
#![tactic(auto)]

pub mod late;
pub mod moves;
pub mod numbers;
pub mod packed;
pub mod pairs;
pub mod parallel;
pub mod reached;
pub mod records;
pub mod runs;
pub mod safe;
pub mod states;
