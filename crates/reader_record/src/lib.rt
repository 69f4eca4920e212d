// The record of a contract text (SPECIFICATION 5): what reading returns.
#![tactic(auto)]

ghost use Rattle.std.specs.Prelude.{◌≡◌};
ghost use Rattle.reader_record.specs.Record.{channel, no_assignment};

use limits::{CHANNEL_LIMIT, CLOCK_LIMIT, COMPARISON_LIMIT, EDGE_LIMIT, LOCATION_LIMIT};

// A name, by the bytes of its declaration (SPECIFICATION 5.2). Names are kept in a table that is passed by value: so a
// name is in four bytes, which the limits on the bytes of a text and of a name allow.
#[derive(Clone, Copy, PartialEq, Eq)]
pub struct Name {
    pub place: u16,
    pub len: u8,
}

// How the edges use a channel (SPECIFICATION 5.1). `Unused` counts as an output (SPECIFICATION 3.6).
#[derive(Clone, Copy, PartialEq, Eq)]
pub enum Direction {
    Unused,
    Input,
    Output,
}

#[derive(Clone, Copy, PartialEq, Eq)]
pub struct Channel {
    pub name: Name,
    pub direction: Direction,
}

// The sign of a comparison (SPECIFICATION 3.1): `<=`, `>=`, `==`, `<` or `>`.
#[derive(Clone, Copy, PartialEq, Eq)]
pub enum Sign {
    AtMost,
    AtLeast,
    Equal,
    Less,
    Greater,
}

// A clock, by its number from 0, a sign and a constant in ticks (SPECIFICATION 5.3). A record is passed by value and
// holds hundreds of comparisons, constraints and edges: their numbers are in the narrowest types that the limits allow.
#[derive(Clone, Copy, PartialEq, Eq)]
pub struct Comparison {
    pub clock: u8,
    pub sign: Sign,
    pub bound: u16,
}

// A guard or an invariant: all of the first `count` comparisons (SPECIFICATION 6.2).
#[derive(Clone, Copy, PartialEq, Eq)]
pub struct Constraint {
    pub comparisons: [Comparison; COMPARISON_LIMIT],
    pub count: u8,
}

#[derive(Clone, Copy, PartialEq, Eq)]
pub struct Location {
    pub name: Name,
    pub invariant: Constraint,
}

// The label of an edge: an input or an output, with the channel's number from 1 (SPECIFICATION 5.3).
#[derive(Clone, Copy, PartialEq, Eq)]
pub enum Label {
    Input(u8),
    Output(u8),
}

impl Label {
    // The channel of the label, from 1.
    #[tactic(auto, unfolding(crate::specs::Record::channel))]
    pub fn channel(self) -> usize
        ensures { result ≡ channel self }
    {
        match self {
            Label::Input(c) | Label::Output(c) => usize::from(c),
        }
    }
}

// What an edge does to a clock (SPECIFICATION 5.4): whether it assigns the clock, the value that it assigns, which is
// that of the last assignment, and the largest value that is written, in ticks.
#[derive(Clone, Copy, PartialEq, Eq)]
pub struct Assignment {
    pub made: bool,
    pub value: u16,
    pub largest: u16,
}

// A clock that is not assigned.
pub fn no_assignment() -> Assignment
    ensures { result ≡ no_assignment }
{
    Assignment {
        made: false,
        value: 0,
        largest: 0,
    }
}

// An edge (SPECIFICATION 5.1). Source and target are locations by their number from 0; `assignments` has one for each
// clock.
#[derive(Clone, Copy, PartialEq, Eq)]
pub struct Edge {
    pub source: u8,
    pub target: u8,
    pub guard: Constraint,
    pub label: Label,
    pub assignments: [Assignment; CLOCK_LIMIT],
}

// The whole record (SPECIFICATION 5.1). The first `.._count` items of each list are those of the text, in its order
// (SPECIFICATION 4.4); the rest is filling.
#[derive(Clone, Copy, PartialEq, Eq)]
pub struct Text {
    pub channels: [Channel; CHANNEL_LIMIT],
    pub channel_count: usize,
    pub clocks: [Name; CLOCK_LIMIT],
    pub clock_count: usize,
    pub locations: [Location; LOCATION_LIMIT],
    pub location_count: usize,
    pub init: usize,
    pub edges: [Edge; EDGE_LIMIT],
    pub edge_count: usize,
}
