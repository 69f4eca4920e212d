// Reads the lists of a contract text: channels, clocks, locations and edges (SPECIFICATION 3.1).
#![tactic(auto)]

ghost use Rattle.std.specs.Prelude.{◌≡◌, ◌≤◌, ◌<◌, Ok, length};
ghost use Rattle.reader_parts.specs.Stages.{onward};
ghost use Rattle.reader_lists.specs.State.{blank_edge, no_text, direction_by, marked};
ghost use Rattle.reader_lists.specs.Lists.{Item, limit, one_item, items};
ghost use Rattle.reader_lists.specs.Turns.{item, first_slot, count, unused, after_item};
ghost use Rattle.reader_lists.specs.SoFar.{held_next, held_so_far, item_so_far, items_so_far};
ghost use Rattle.reader_lists.specs.Heads.{whole, no_edges, before_edges, none_so_far, head_at, held, edges_at};
ghost use Rattle.reader_lists.specs.Heads.{added, edge_added, ReadsHead, ReadsEdges, LeadsOn};
ghost use Rattle.reader_lists.specs.Heads.{HeadGoes, EdgesGo, HeadBeside, EdgesBeside};
ghost use Rattle.reader_parts.specs.SoFar.{beside, alone};
ghost use Rattle.limits.specs.Limits.{TickLength, largest_text, channel_limit, edge_limit};

use limits::{CHANNEL_LIMIT, CLOCK_LIMIT, EDGE_LIMIT, LOCATION_LIMIT};
use reader_constraints::ConstraintRead;
use reader_parts::{FIRST_CHANNEL, FIRST_CLOCK, FIRST_LOCATION, Fault, NAME_SLOTS, Stopped};
use reader_record::{Channel, Constraint, Direction, Edge, Label, Location, Name, Text};

// The kinds of item that declare a name.
#[derive(Clone, Copy)]
pub enum Named {
    Channel,
    Clock,
    Location,
}

// Whether another item comes after the one that is read, and the place behind the comma or the `;`.
#[derive(Clone, Copy)]
struct Turn {
    more: bool,
    end: usize,
}

// The record's head: what stands before its starting location and its edges. The head and the edges are read apart, so
// that no call copies both.
#[derive(Clone, Copy)]
pub struct Head {
    pub channels: [Channel; CHANNEL_LIMIT],
    pub channel_count: usize,
    pub clocks: [Name; CLOCK_LIMIT],
    pub clock_count: usize,
    pub locations: [Location; LOCATION_LIMIT],
    pub location_count: usize,
}

// The declared names by their slots, the head so far, and the place behind it.
#[derive(Clone, Copy)]
pub struct HeadRead {
    pub names: [Name; NAME_SLOTS],
    pub head: Head,
    pub end: usize,
}

// The declared names by their slots, and the head so far: what was read of it before a fault.
#[derive(Clone, Copy)]
pub struct HeadSoFar {
    pub names: [Name; NAME_SLOTS],
    pub head: Head,
}

// The channels with the directions that the edges say, the edges so far, and the place behind them.
#[derive(Clone, Copy)]
pub struct EdgesRead {
    pub channels: [Channel; CHANNEL_LIMIT],
    pub edges: [Edge; EDGE_LIMIT],
    pub count: usize,
    pub end: usize,
}

// The channels with the directions that the edges say, and the edges so far: what was read of them before a fault.
#[derive(Clone, Copy)]
pub struct EdgesSoFar {
    pub channels: [Channel; CHANNEL_LIMIT],
    pub edges: [Edge; EDGE_LIMIT],
    pub count: usize,
}

#[tactic(auto, unfolding(crate::specs::State::blank_edge))]
fn blank_edge() -> Edge
    ensures { result ≡ blank_edge }
{
    Edge {
        source: 0,
        target: 0,
        guard: reader_constraints::blank_constraint(),
        label: Label::Input(0),
        assignments: reader_edges::no_assignments(),
    }
}

// The head of a record of which nothing is read.
#[tactic(auto, unfolding(crate::specs::State::no_text, crate::specs::Heads::no_edges))]
pub fn no_head() -> Head
    ensures { whole result 0 no_edges 0 ≡ no_text }
{
    let name = Name { place: 0, len: 0 };
    let location = Location {
        name,
        invariant: reader_constraints::blank_constraint(),
    };
    Head {
        channels: [unused(name); CHANNEL_LIMIT],
        channel_count: 0,
        clocks: [name; CLOCK_LIMIT],
        clock_count: 0,
        locations: [location; LOCATION_LIMIT],
        location_count: 0,
    }
}

// A record of which nothing is read.
#[tactic(auto, unfolding(crate::specs::State::no_text, crate::specs::Heads::no_edges))]
pub fn no_text() -> Text
    ensures { result ≡ no_text }
{
    let h = no_head();
    let channels = h.channels;
    let clocks = h.clocks;
    let locations = h.locations;
    Text {
        channels,
        channel_count: h.channel_count,
        clocks,
        clock_count: h.clock_count,
        locations,
        location_count: h.location_count,
        init: 0,
        edges: [blank_edge(); EDGE_LIMIT],
        edge_count: 0,
    }
}

// No edges, and the channels are given.
#[tactic(auto, unfolding(crate::specs::Heads::no_edges))]
fn none_so_far(channels: [Channel; CHANNEL_LIMIT]) -> EdgesSoFar
    ensures { result ≡ none_so_far channels }
{
    EdgesSoFar {
        channels,
        edges: [blank_edge(); EDGE_LIMIT],
        count: 0,
    }
}

// What is read of the head, with the place behind it.
fn head_at(r: HeadSoFar, p: usize) -> HeadRead
    ensures { result ≡ head_at r p }
{
    let (names, head) = (r.names, r.head);
    HeadRead {
        names,
        head,
        end: p,
    }
}

// What is read of the edges, with the place behind it.
fn edges_at(r: EdgesSoFar, p: usize) -> EdgesRead
    ensures { result ≡ edges_at r p }
{
    let channels = r.channels;
    let edges = r.edges;
    EdgesRead {
        channels,
        edges,
        count: r.count,
        end: p,
    }
}

// No edges, where the reader has come to a place and the channels are given (SPECIFICATION 3.1). A fault of the stage
// before stays; there is no other.
pub fn no_edges(
    at: Result<usize, Fault>,
    channels: [Channel; CHANNEL_LIMIT],
) -> Result<EdgesRead, Fault>
    ensures { result ≡ onward (λ p. Ok (before_edges p channels)) at }
{
    Ok(edges_at(none_so_far(channels), at?))
}

#[tactic(auto, unfolding(crate::specs::State::direction_by))]
fn direction_by(input: bool) -> Direction
    ensures { result ≡ direction_by input }
{
    if input {
        Direction::Input
    } else {
        Direction::Output
    }
}

// The channel k has the direction that its mark says.
#[tactic(auto, unfolding(crate::specs::State::marked))]
fn marked(channels: [Channel; CHANNEL_LIMIT], k: usize, input: bool) -> [Channel; CHANNEL_LIMIT]
    requires { k < channel_limit }
    ensures { result ≡ marked channels k input }
{
    let mut all = channels;
    all[k] = Channel {
        name: all[k].name,
        direction: direction_by(input),
    };
    all
}

// A channel that no edge names yet.
fn unused(name: Name) -> Channel
    ensures { result ≡ unused name }
{
    Channel {
        name,
        direction: Direction::Unused,
    }
}

// The first of the slots where the names of the kind k are.
fn first_slot(k: Named) -> usize
    ensures { result ≡ first_slot k }
{
    match k {
        Named::Channel => FIRST_CHANNEL,
        Named::Clock => FIRST_CLOCK,
        Named::Location => FIRST_LOCATION,
    }
}

// How many items of the kind k a text has at most.
fn limit(k: Named) -> usize
    ensures { result ≡ limit (item k) }
{
    match k {
        Named::Channel => CHANNEL_LIMIT,
        Named::Clock => CLOCK_LIMIT,
        Named::Location => LOCATION_LIMIT,
    }
}

// How many items of the kind k there are, of those numbers of channels, clocks and locations.
fn count(k: Named, channels: usize, clocks: usize, locations: usize) -> usize
    ensures { result ≡ count k channels clocks locations }
{
    match k {
        Named::Channel => channels,
        Named::Clock => clocks,
        Named::Location => locations,
    }
}

// What stands after an item: a comma, or the `;` of the list. A fault of the item stays.
#[tactic(auto, unfolding(crate::specs::Turns::after_item))]
fn after_item(s: &[u8], at: Result<usize, Fault>) -> Result<Turn, Fault>
    ensures { result ≡ onward (after_item s.now) at }
{
    let p = at?;
    let more = reader_parts::ahead(s, Ok(p), reader_tokens::COMMA);
    let sign = if more {
        reader_tokens::COMMA
    } else {
        reader_tokens::SEMICOLON
    };
    let end = reader_parts::take(s, Ok(p), sign)?;
    Ok(Turn { more, end })
}

// What may follow the name of an item of the kind k: the invariant of a location.
#[tactic(auto, unfolding(crate::specs::SoFar::held_next, crate::specs::SoFar::held_so_far))]
fn held_next(
    period: usize,
    s: &[u8],
    p: usize,
    names: &[Name; NAME_SLOTS],
    k: Named,
) -> Result<ConstraintRead, Stopped<Constraint>>
    requires { TickLength period × (length s.now ≤ largest_text) }
    ensures { result ≡ beside (held_so_far period k s.now p names.now) (held_next period k s.now p names.now) }
{
    match k {
        Named::Location => reader_constraints::invariant(period, s, Ok(p), names),
        _ => Ok(ConstraintRead {
            constraint: reader_constraints::blank_constraint(),
            end: p,
        }),
    }
}

// One item of the kind k more, by its name; `invariant` is that of a location.
fn add(h: &mut Head, k: Named, name: Name, invariant: Constraint)
    requires { count k h.old.channel_count h.old.clock_count h.old.location_count < limit (item k) }
    ensures { h.new ≡ added k h.old name invariant }
{
    match k {
        Named::Channel => {
            h.channels[h.channel_count] = unused(name);
            h.channel_count += 1;
        }
        Named::Clock => {
            h.clocks[h.clock_count] = name;
            h.clock_count += 1;
        }
        Named::Location => {
            h.locations[h.location_count] = Location { name, invariant };
            h.location_count += 1;
        }
    }
}

// One item more of the kind k, written in place, with a fault too where there is room for it, and the place behind it.
fn named_item(
    period: usize,
    s: &[u8],
    at: Result<usize, Fault>,
    r: &mut HeadSoFar,
    k: Named,
) -> Result<usize, Fault>
    requires { TickLength period × (length s.now ≤ largest_text) }
    ensures { HeadGoes (one_item period (item k) s.now) (item_so_far period (item k) s.now) at r.old result r.new }
{
    let n = count(
        k,
        r.head.channel_count,
        r.head.clock_count,
        r.head.location_count,
    );
    match reader_parts::declare(s, at, &r.names, first_slot(k), n, limit(k)) {
        Ok(d) => {
            let names = d.names;
            r.names = names;
            match held_next(period, s, d.end, &names, k) {
                Ok(i) => {
                    add(&mut r.head, k, d.name, i.constraint);
                    Ok(i.end)
                }
                Err(e) => {
                    add(&mut r.head, k, d.name, e.read);
                    Err(e.fault)
                }
            }
        }
        Err(e) => {
            if n < limit(k) {
                add(
                    &mut r.head,
                    k,
                    e.read,
                    reader_constraints::blank_constraint(),
                );
            }
            Err(e.fault)
        }
    }
}

// The channels, clocks or locations, joined by commas, and `;`, where the words before them are read and the place in r
// is not used (SPECIFICATION 3.1). One item at most comes after those that there is room for, and that one is refused. A
// fault of the stage before stays. Beside a fault stand the items so far, the one with the fault too where there is room
// for it, and an item of which nothing was read where the fault is that of the stage before.
pub fn named_items(
    period: usize,
    s: &[u8],
    at: Result<usize, Fault>,
    r: HeadRead,
    k: Named,
) -> Result<HeadRead, Stopped<HeadSoFar>>
    requires { TickLength period × (length s.now ≤ largest_text) }
    ensures read { LeadsOn (λ p. ReadsHead (items period (item k) s.now) (head_at (held r) p)) at (alone result) }
    ensures beside { HeadBeside (items_so_far period (item k) s.now at) (held r) result }
{
    let (names, head) = (r.names, r.head);
    let mut q = HeadSoFar { names, head };
    let mut at = at;
    for _ in 0..limit(k) {
        let item = named_item(period, s, at, &mut q, k);
        match after_item(s, item) {
            Ok(t) => {
                if !t.more {
                    return Ok(head_at(q, t.end));
                }
                at = Ok(t.end);
            }
            Err(fault) => return Err(Stopped { fault, read: q }),
        }
    }
    match named_item(period, s, at, &mut q, k) {
        Ok(end) => Ok(head_at(q, end)),
        Err(fault) => Err(Stopped { fault, read: q }),
    }
}

// One edge more, with the direction of its channel.
fn add_edge(r: &mut EdgesSoFar, edge: Edge, channel: usize, input: bool)
    requires { (r.old.count < edge_limit) × (channel < channel_limit) }
    ensures { r.new ≡ edge_added r.old edge channel input }
{
    r.channels = marked(r.channels, channel, input);
    r.edges[r.count] = edge;
    r.count += 1;
}

// One edge more, written in place with the direction of its channel, with a fault too where there is room for it, and
// the place behind it.
fn edge_item(
    period: usize,
    s: &[u8],
    at: Result<usize, Fault>,
    names: &[Name; NAME_SLOTS],
    r: &mut EdgesSoFar,
) -> Result<usize, Fault>
    requires { TickLength period × (length s.now ≤ largest_text) }
    ensures { EdgesGo (one_item period Item.Edge s.now) (item_so_far period Item.Edge s.now) names.now at r.old result
        r.new }
{
    let full = EDGE_LIMIT <= r.count;
    match reader_edges::edge_next(period, s, at, names, &r.channels, full) {
        Ok(e) => {
            add_edge(r, e.edge, e.channel, e.input);
            Ok(e.end)
        }
        Err(e) => {
            if !full {
                add_edge(r, e.read.edge, e.read.channel, e.read.input);
            }
            Err(e.fault)
        }
    }
}

// The edges, joined by commas, and `;`, from a place on (SPECIFICATION 3.1). A fault of the stage before stays. Beside a
// fault stand the edges so far, the one with the fault too where there is room for it, and an edge of which nothing was
// read where the fault is that of the stage before.
pub fn edges(
    period: usize,
    s: &[u8],
    at: Result<usize, Fault>,
    names: &[Name; NAME_SLOTS],
    channels: [Channel; CHANNEL_LIMIT],
) -> Result<EdgesRead, Stopped<EdgesSoFar>>
    requires { TickLength period × (length s.now ≤ largest_text) }
    ensures read { LeadsOn (λ p. ReadsEdges (items period Item.Edge s.now) names.now (before_edges p channels)) at
        (alone result) }
    ensures beside { EdgesBeside (items_so_far period Item.Edge s.now at) names.now (none_so_far channels) result }
{
    let mut q = none_so_far(channels);
    let mut at = at;
    for _ in 0..EDGE_LIMIT {
        let item = edge_item(period, s, at, names, &mut q);
        match after_item(s, item) {
            Ok(t) => {
                if !t.more {
                    return Ok(edges_at(q, t.end));
                }
                at = Ok(t.end);
            }
            Err(fault) => return Err(Stopped { fault, read: q }),
        }
    }
    match edge_item(period, s, at, names, &mut q) {
        Ok(end) => Ok(edges_at(q, end)),
        Err(fault) => Err(Stopped { fault, read: q }),
    }
}
