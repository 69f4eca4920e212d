// The joining of two texts by trying everything (SPECIFICATION 12.10, 18), from the records of the two texts: whether
// the joined text passes a limit, by counting; whether given bytes are the joined text, token by token; and whether a
// record means what two records mean together, by making every step in all three. It shares nothing with the operations
// but the record of a text, and is proved safe and ending, no more.
#![tactic(auto)]

pub mod bytes;
pub mod counts;
pub mod meaning;
pub mod names;
