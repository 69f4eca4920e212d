// Small random texts (SPECIFICATION 2 to 4), each a function of a shape: a choice depends on a seed and on what it is about,
// so that a text can be written again with one thing changed. While a text is written, the first refusal that its change
// brings is noted, so that the answer of reading is known without a reader. Bounds are chosen in ticks; what stands in the
// text is a number of milliseconds that comes to them at the shape's tick length, found by adding up lengths: nothing is
// divided by a tick length here, as reading does (SPECIFICATION 4.7). Proved safe and ending, no more.
#![tactic(auto)]

pub mod lengths;
pub mod numbers;
pub mod shape;
pub mod writer;

pub use lengths::{length_out_of_range, tick_length};
pub use numbers::{part, pick};
pub use shape::{Shape, shape_of};
pub use writer::{Pen, damage, text};
