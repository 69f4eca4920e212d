// The record of a text as numbers in a slice, for callers that have no Rattle types (SPECIFICATION 15.2).
#![tactic(auto)]

ghost use Rattle.std.specs.Prelude.{◌≡◌, cond, [], ◌∷◌, ◌+◌, ◌≤◌};
ghost use Rattle.limits.specs.Limits.{channel_limit, clock_limit, location_limit, edge_limit};
ghost use Rattle.reader_numbers.specs.Layout.{label_size, comparison_size, constraint_size, channel_size};
ghost use Rattle.reader_numbers.specs.Layout.{assignment_size, assignments_size, location_size, edge_size, record_size};
ghost use Rattle.reader_numbers.specs.Layout.{channels_place, clocks_place, locations_place, edges_place};
ghost use Rattle.reader_numbers.specs.Numbers.{put_at, rows, sign_number, direction_number, label_numbers};
ghost use Rattle.reader_numbers.specs.Numbers.{comparison_numbers, constraint_numbers, channel_numbers};
ghost use Rattle.reader_numbers.specs.Numbers.{assignment_numbers, assignments_numbers, location_numbers};
ghost use Rattle.reader_numbers.specs.Numbers.{edge_numbers, numbers};
ghost use Rattle.reader_numbers.specs.Numbers.{channel_row, clock_row, location_row, edge_row};

use limits::{CHANNEL_LIMIT, CLOCK_LIMIT, COMPARISON_LIMIT, EDGE_LIMIT, LOCATION_LIMIT};
use reader_record::{
    Assignment, Channel, Comparison, Constraint, Direction, Edge, Label, Location, Name, Sign, Text,
};

// How many numbers each part takes. A name: place and length.
const NAME_SIZE: usize = 2;

// A label: mark and channel.
const LABEL_SIZE: usize = 2;

// A comparison: clock, sign and bound.
const COMPARISON_SIZE: usize = 3;

// A constraint: the number of comparisons, then all that there is room for.
const CONSTRAINT_SIZE: usize = 1 + COMPARISON_LIMIT * COMPARISON_SIZE;

// An assignment: whether it is made, the value and the largest one written.
const ASSIGNMENT_SIZE: usize = 3;

// An assignment for each clock.
const ASSIGNMENTS_SIZE: usize = CLOCK_LIMIT * ASSIGNMENT_SIZE;

// A channel: the name, then the direction.
const CHANNEL_SIZE: usize = NAME_SIZE + 1;

// A location: the name, then the invariant.
const LOCATION_SIZE: usize = NAME_SIZE + CONSTRAINT_SIZE;

// An edge: source and target, then from here on its label, its guard and its assignments.
const LABEL_PLACE: usize = 2;

const GUARD_PLACE: usize = LABEL_PLACE + LABEL_SIZE;

const ASSIGNMENTS_PLACE: usize = GUARD_PLACE + CONSTRAINT_SIZE;

const EDGE_SIZE: usize = ASSIGNMENTS_PLACE + ASSIGNMENTS_SIZE;

// A record: the numbers of channels, clocks and locations, the init location, the numbers of edges and states, then
// from here on the channels, the clocks, the locations and the edges.
const INIT_PLACE: usize = 3;

const CHANNELS_PLACE: usize = INIT_PLACE + 3;

const CLOCKS_PLACE: usize = CHANNELS_PLACE + CHANNEL_LIMIT * CHANNEL_SIZE;

const LOCATIONS_PLACE: usize = CLOCKS_PLACE + CLOCK_LIMIT * NAME_SIZE;

const EDGES_PLACE: usize = LOCATIONS_PLACE + LOCATION_LIMIT * LOCATION_SIZE;

// Writes x at a place; past the end of the slice it is dropped.
fn put(out: &mut [usize], at: usize, x: usize)
    ensures { out.new ≡ put_at out.old at (x ∷ []) }
{
    if at < out.len() {
        out[at] = x;
    }
}

fn put_two(out: &mut [usize], at: usize, x: usize, y: usize)
    requires { at + 2 ≤ record_size }
    ensures { out.new ≡ put_at out.old at (x ∷ y ∷ []) }
{
    put(out, at, x);
    put(out, at + 1, y);
}

fn put_three(out: &mut [usize], at: usize, x: usize, y: usize, z: usize)
    requires { at + 3 ≤ record_size }
    ensures { out.new ≡ put_at out.old at (x ∷ y ∷ z ∷ []) }
{
    put_two(out, at, x, y);
    put(out, at + 2, z);
}

#[tactic(auto, unfolding(crate::specs::Numbers::sign_number))]
fn sign_number(s: Sign) -> usize
    ensures { result ≡ sign_number s }
{
    match s {
        Sign::AtMost => 0,
        Sign::AtLeast => 1,
        Sign::Equal => 2,
        Sign::Less => 3,
        Sign::Greater => 4,
    }
}

#[tactic(auto, unfolding(crate::specs::Numbers::direction_number))]
fn direction_number(d: Direction) -> usize
    ensures { result ≡ direction_number d }
{
    match d {
        Direction::Unused => 0,
        Direction::Input => 1,
        Direction::Output => 2,
    }
}

fn write_label(out: &mut [usize], at: usize, l: Label)
    requires { at + label_size ≤ record_size }
    ensures { out.new ≡ put_at out.old at (label_numbers l) }
{
    match l {
        Label::Input(c) => put_two(out, at, direction_number(Direction::Input), c as usize),
        Label::Output(c) => put_two(out, at, direction_number(Direction::Output), c as usize),
    }
}

fn write_comparison(out: &mut [usize], at: usize, c: Comparison)
    requires { at + comparison_size ≤ record_size }
    ensures { out.new ≡ put_at out.old at (comparison_numbers c) }
{
    let sign = sign_number(c.sign);
    put_three(out, at, c.clock as usize, sign, c.bound as usize);
}

// The number of comparisons, then all that there is room for.
fn write_constraint(out: &mut [usize], at: usize, g: Constraint)
    requires { at + constraint_size ≤ record_size }
    ensures { out.new ≡ put_at out.old at (constraint_numbers g) }
{
    put(out, at, g.count as usize);
    for (i, c) in g.comparisons.iter().enumerate() {
        write_comparison(out, at + 1 + i * COMPARISON_SIZE, *c);
    }
}

fn write_channel(out: &mut [usize], at: usize, k: Channel)
    requires { at + channel_size ≤ record_size }
    ensures { out.new ≡ put_at out.old at (channel_numbers k) }
{
    let name = k.name;
    let direction = direction_number(k.direction);
    put_three(out, at, name.place as usize, name.len as usize, direction);
}

fn write_location(out: &mut [usize], at: usize, l: Location)
    requires { at + location_size ≤ record_size }
    ensures { out.new ≡ put_at out.old at (location_numbers l) }
{
    let name = l.name;
    put_two(out, at, name.place as usize, name.len as usize);
    write_constraint(out, at + NAME_SIZE, l.invariant);
}

// 1 where it is made, the value and the largest one written.
fn write_assignment(out: &mut [usize], at: usize, a: Assignment)
    requires { at + assignment_size ≤ record_size }
    ensures { out.new ≡ put_at out.old at (assignment_numbers a) }
{
    let made = usize::from(a.made);
    put_three(out, at, made, a.value as usize, a.largest as usize);
}

// The assignments of an edge, one for each clock.
fn write_assignments(out: &mut [usize], at: usize, e: Edge)
    requires { at + assignments_size ≤ record_size }
    ensures { out.new ≡ put_at out.old at (assignments_numbers e) }
{
    for (k, a) in e.assignments.iter().enumerate() {
        write_assignment(out, at + k * ASSIGNMENT_SIZE, *a);
    }
}

// Source, target, label, guard, then the assignments.
fn write_edge(out: &mut [usize], at: usize, e: Edge)
    requires { at + edge_size ≤ record_size }
    ensures { out.new ≡ put_at out.old at (edge_numbers e) }
{
    put_two(out, at, e.source as usize, e.target as usize);
    write_label(out, at + LABEL_PLACE, e.label);
    write_constraint(out, at + GUARD_PLACE, e.guard);
    write_assignments(out, at + ASSIGNMENTS_PLACE, e);
}

fn write_channels(out: &mut [usize], channels: [Channel; CHANNEL_LIMIT])
    ensures { out.new ≡ put_at out.old channels_place (rows channel_limit (channel_row channels)) }
{
    for (i, k) in channels.iter().enumerate() {
        write_channel(out, CHANNELS_PLACE + i * CHANNEL_SIZE, *k);
    }
}

fn write_clocks(out: &mut [usize], clocks: [Name; CLOCK_LIMIT])
    ensures { out.new ≡ put_at out.old clocks_place (rows clock_limit (clock_row clocks)) }
{
    for (i, name) in clocks.iter().enumerate() {
        let place = name.place as usize;
        let len = name.len as usize;
        put_two(out, CLOCKS_PLACE + i * NAME_SIZE, place, len);
    }
}

fn write_locations(out: &mut [usize], locations: [Location; LOCATION_LIMIT])
    ensures { out.new ≡ put_at out.old locations_place (rows location_limit (location_row locations)) }
{
    for (i, l) in locations.iter().enumerate() {
        write_location(out, LOCATIONS_PLACE + i * LOCATION_SIZE, *l);
    }
}

fn write_edges(out: &mut [usize], edges: [Edge; EDGE_LIMIT])
    ensures { out.new ≡ put_at out.old edges_place (rows edge_limit (edge_row edges)) }
{
    for (i, e) in edges.iter().enumerate() {
        write_edge(out, EDGES_PLACE + i * EDGE_SIZE, *e);
    }
}

// Writes the record as far as the slice goes; entries past it keep their values.
pub fn write(out: &mut [usize], t: Text, states: usize)
    ensures { out.new ≡ put_at out.old 0 (numbers t states) }
{
    put_three(out, 0, t.channel_count, t.clock_count, t.location_count);
    put_three(out, INIT_PLACE, t.init, t.edge_count, states);
    write_channels(out, t.channels);
    write_clocks(out, t.clocks);
    write_locations(out, t.locations);
    write_edges(out, t.edges);
}
