// The joined record of two texts: pairs of locations, channels by the edges, and whether the limits hold
// (SPECIFICATION 18.1 to 18.5, 18.8).
#![tactic(auto)]

ghost use Rattle.std.specs.Prelude.{◌≡◌, false, cond, List, ℕ, ◌*◌, ◌≤◌, ◌<◌, length, get_or};
ghost use Rattle.systems.specs.Tests.{all};
ghost use Rattle.limits.specs.Limits.{channel_limit, location_limit, edge_limit};
ghost use Rattle.reader_record.specs.declared.Direction.TheVariants.{Unused};
ghost use Rattle.reader_record.specs.declared.Edge.{Edge};
ghost use Rattle.reader_record.specs.Record.{no_channel};
ghost use Rattle.reader_record.specs.Formed.{WellFormed};
ghost use Rattle.joined.specs.Joined.{both_constraints, has_channel, joined_channel, joined_location, few};
ghost use Rattle.joining_items.specs.Items.{Nearly, Joinable};
ghost use Rattle.joining_edges.specs.Edges.{edge_at, Pairable, Holds};
ghost use Rattle.joining_record.specs.Records.{invariant_at, JoinsRecords};

use joining_edges::Edges;
use limits::{
    CHANNEL_LIMIT, CLOCK_LIMIT, COMPARISON_LIMIT, EDGE_LIMIT, LOCATION_LIMIT, STEP_LIMIT,
};
use reader_record::{Channel, Constraint, Direction, Location, Name, Text};

// A pair of locations, where the left text has n clocks (SPECIFICATION 18.3). It has no name yet.
fn join_location(n: u8, a: Location, b: Location) -> Location
    requires { Joinable n a.invariant b.invariant }
    ensures { Nearly (both_constraints n a.invariant b.invariant) result.invariant }
{
    Location {
        name: Name { place: 0, len: 0 },
        invariant: joining_items::join_constraint(n, a.invariant, b.invariant),
    }
}

// As many locations as there is room for, all of them filling.
fn no_locations(a: Location) -> [Location; LOCATION_LIMIT]
    ensures { length result ≡ location_limit }
{
    [a; LOCATION_LIMIT]
}

// The pairs of locations, in order of left, then right (SPECIFICATION 18.2).
fn join_locations(l: Text, r: Text) -> [Location; LOCATION_LIMIT]
    requires { Pairable l r }
    ensures { (i : ℕ) → i < l.location_count * r.location_count
        → Nearly (joined_location l r i).invariant (invariant_at result i) }
{
    let left = l.locations;
    let right = r.locations;
    let clocks = l.clock_count as u8;
    let width = r.location_count;
    let count = l.location_count * width;
    let mut list = no_locations(left[0]);
    for pair in 0..count {
        let p = left[pair / width];
        let q = right[pair % width];
        list[pair] = join_location(clocks, p, q);
    }
    list
}

// Whether an edge has channel c.
fn has_channel(es: Edges, c: usize) -> bool
    requires { es.count ≤ edge_limit }
    ensures { (xs : List Edge) → Holds xs es → result ≡ has_channel xs c }
{
    for i in 0..es.count {
        if joining_items::channel_of(es.list[i].label) == c {
            return true;
        }
    }
    false
}

// A channel of the left as one of the joined record: it keeps its direction if an edge has it.
fn join_channel(a: Channel, used: bool) -> Channel
    ensures { (result.name ≡ a.name) × (result.direction ≡ cond used a.direction Unused) }
{
    if used {
        return a;
    }
    Channel {
        name: a.name,
        direction: Direction::Unused,
    }
}

// As many channels as there is room for, all of them filling.
fn no_channels(a: Channel) -> [Channel; CHANNEL_LIMIT]
    ensures { length result ≡ channel_limit }
{
    [a; CHANNEL_LIMIT]
}

// The channels of the joined record, whose edges are es: the left's, in its order (SPECIFICATION 18.4).
fn join_channels(l: Text, es: Edges) -> [Channel; CHANNEL_LIMIT]
    requires { (l.channel_count ≤ channel_limit) × (es.count ≤ edge_limit) }
    ensures { (xs : List Edge) → Holds xs es → (i : ℕ) → i < l.channel_count
        → get_or result i no_channel ≡ joined_channel l xs i }
{
    let channels = l.channels;
    let mut list = no_channels(channels[0]);
    for i in 0..l.channel_count {
        let used = has_channel(es, i + 1);
        list[i] = join_channel(channels[i], used);
    }
    list
}

// Whether a guard or an invariant has few enough comparisons.
#[tactic(auto, unfolding(joined::specs::Joined::few))]
fn has_few(g: Constraint) -> bool
    ensures { result ≡ few g }
{
    usize::from(g.count) <= COMPARISON_LIMIT
}

// Whether the invariants of the first n locations have few enough comparisons.
fn has_few_invariants(list: [Location; LOCATION_LIMIT], n: usize) -> bool
    requires { n ≤ location_limit }
    ensures { result ≡ all n (λ i. few (invariant_at list i)) }
{
    for i in 0..n {
        if !has_few(list[i].invariant) {
            return false;
        }
    }
    true
}

// Whether the guards of the edges have few enough comparisons.
fn has_few_guards(es: Edges) -> bool
    requires { es.count ≤ edge_limit }
    ensures { result ≡ all es.count (λ i. few (edge_at es.list i).guard) }
{
    for i in 0..es.count {
        if !has_few(es.list[i].guard) {
            return false;
        }
    }
    true
}

// The record of two texts joined, if it is within the limits, of texts whose clocks and pairs of locations are within the limits.
fn join_within(l: Text, r: Text, map: [usize; STEP_LIMIT]) -> Option<Text>
    requires { Pairable l r }
    ensures { JoinsRecords l r map result }
{
    let es = joining_edges::pair_edges(l, r, map);
    if EDGE_LIMIT < es.count {
        return None;
    }
    let locations = join_locations(l, r);
    let location_count = l.location_count * r.location_count;
    if !has_few_invariants(locations, location_count) {
        return None;
    }
    if !has_few_guards(es) {
        return None;
    }
    let channels = join_channels(l, es);
    let clocks = l.clocks;
    let edges = es.list;
    Some(Text {
        channels,
        channel_count: l.channel_count,
        clocks,
        clock_count: l.clock_count + r.clock_count,
        locations,
        location_count,
        init: l.init * r.location_count + r.init,
        edges,
        edge_count: es.count,
    })
}

// The record of two texts joined, if it is within the limits; `map` has the right's number of each of the left's steps.
pub fn join_records(l: Text, r: Text, map: [usize; STEP_LIMIT]) -> Option<Text>
    requires { WellFormed l × WellFormed r }
    ensures { JoinsRecords l r map result }
{
    if CLOCK_LIMIT < l.clock_count + r.clock_count {
        return None;
    }
    if LOCATION_LIMIT < l.location_count * r.location_count {
        return None;
    }
    join_within(l, r, map)
}
