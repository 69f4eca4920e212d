// Reads an edge of a contract text: its locations, guard, label and assignments (SPECIFICATION 3.1).
#![tactic(auto)]

ghost use Rattle.std.specs.Prelude.{◌≡◌, ◌≤◌, ◌<◌, Ok, length, get_or};
ghost use Rattle.reader_record.specs.Record.{no_channel};
ghost use Rattle.reader_parts.specs.Stages.{onward};
ghost use Rattle.reader_parts.specs.SoFar.{beside};
ghost use Rattle.reader_edges.specs.Labels.{mark_next, fits, mark_judged, label_of, label_next};
ghost use Rattle.reader_edges.specs.Assigns.{no_assignments, then_assigned};
ghost use Rattle.reader_edges.specs.Assigns.{assign_next, assign_items, assigns};
ghost use Rattle.reader_edges.specs.Edges.{edge_next};
ghost use Rattle.reader_edges.specs.SoFar.{label_so_far, assign_so_far, assign_items_so_far};
ghost use Rattle.reader_edges.specs.SoFar.{assigns_so_far, edge_so_far};
ghost use Rattle.reader_edges.specs.Parts.{no_edge, located, opened, guarded, guard_end, labelled, label_end};
ghost use Rattle.reader_edges.specs.Parts.{assigned, assigns_end};
ghost use Rattle.limits.specs.Limits.{TickLength, largest_text, channel_limit};

use limits::{CHANNEL_LIMIT, CLOCK_LIMIT, LOCATION_LIMIT};
use reader_parts::{FIRST_CHANNEL, FIRST_CLOCK, FIRST_LOCATION, Fault, NAME_SLOTS, Stopped};
use reader_record::{Assignment, Channel, Direction, Edge, Label, Name};

// The least constant that may be assigned: any may.
const LEAST_ASSIGNED: usize = 0;

// A mark, whether it is that of an input, and the place behind it.
#[derive(Clone, Copy)]
pub struct MarkRead {
    pub input: bool,
    pub end: usize,
}

// The next token, which has to be `?` or `!`.
#[tactic(auto, unfolding(crate::specs::Labels::mark_next, crate::specs::Labels::mark_of))]
fn mark_next(s: &[u8], p: usize) -> Result<MarkRead, Fault>
    ensures { result ≡ mark_next s.now p }
{
    let t = reader_scanner::scan(s, p);
    match t.kind {
        reader_tokens::INPUT => Ok(MarkRead {
            input: true,
            end: t.end,
        }),
        reader_tokens::OUTPUT => Ok(MarkRead {
            input: false,
            end: t.end,
        }),
        _ => Err(Fault::Misfit(t.place)),
    }
}

fn direction_at(channels: &[Channel; CHANNEL_LIMIT], k: usize) -> Direction
    requires { k < channel_limit }
    ensures { result ≡ (get_or channels.now k no_channel).direction }
{
    channels[k].direction
}

// Whether a channel that the edges before use in the direction d may have the mark.
#[tactic(auto, unfolding(crate::specs::Labels::fits))]
fn fits(d: Direction, input: bool) -> bool
    ensures { result ≡ fits d input }
{
    match d {
        Direction::Unused => true,
        Direction::Input => input,
        Direction::Output => !input,
    }
}

// The place p, past the mark of the channel whose name is at `place`, where the mark is right.
#[tactic(auto, unfolding(crate::specs::Labels::mark_judged))]
fn mark_judged(right: bool, place: usize, p: usize) -> Result<usize, Fault>
    ensures { result ≡ mark_judged right place p }
{
    if right {
        Ok(p)
    } else {
        Err(Fault::OtherMark(place))
    }
}

#[tactic(auto, unfolding(crate::specs::Labels::label_of))]
fn label_of(input: bool, channel: usize) -> Label
    requires { channel < channel_limit }
    ensures { result ≡ label_of input channel }
{
    if input {
        return Label::Input((channel + 1) as u8);
    }
    Label::Output((channel + 1) as u8)
}

// A label, its channel by its number from 0, whether it is an input, and the place behind it.
#[derive(Clone, Copy)]
pub struct LabelRead {
    pub channel: usize,
    pub input: bool,
    pub label: Label,
    pub end: usize,
}

// What was read of a label before a fault: its channel by its number from 0, and whether its mark is that of an input.
// What is missing is 0 and an output.
#[derive(Clone, Copy)]
pub struct LabelSoFar {
    pub channel: usize,
    pub input: bool,
}

// The label: a channel and its mark (SPECIFICATION 3.1, 3.6). Beside a fault stands what was read of it.
#[tactic(auto, unfolding(crate::specs::Labels::label_next, crate::specs::SoFar::label_so_far))]
fn label_next(
    s: &[u8],
    p: usize,
    names: &[Name; NAME_SLOTS],
    channels: &[Channel; CHANNEL_LIMIT],
) -> Result<LabelRead, Stopped<LabelSoFar>>
    requires { length s.now ≤ largest_text }
    ensures { result ≡ beside (label_so_far s.now (Ok p) names.now) (label_next s.now p names.now channels.now) }
{
    let mut x = LabelSoFar {
        channel: 0,
        input: false,
    };
    let synced = reader_parts::beside(x, reader_parts::take(s, Ok(p), reader_tokens::SYNC))?;
    let used = reader_parts::use_name(s, Ok(synced), names, FIRST_CHANNEL, CHANNEL_LIMIT, false);
    let channel = reader_parts::beside(x, used)?;
    x.channel = channel.number;
    let mark = reader_parts::beside(x, mark_next(s, channel.end))?;
    x.input = mark.input;
    let right = fits(direction_at(channels, x.channel), x.input);
    let marked = reader_parts::beside(x, mark_judged(right, channel.place, mark.end))?;
    let closed = reader_parts::take(s, Ok(marked), reader_tokens::SEMICOLON);
    let end = reader_parts::beside(x, closed)?;
    Ok(LabelRead {
        channel: x.channel,
        input: x.input,
        label: label_of(x.input, x.channel),
        end,
    })
}

// An assignment: its clock by its number from 0, its value in ticks, and the place behind it.
#[derive(Clone, Copy)]
pub struct AssignRead {
    pub clock: usize,
    pub value: u16,
    pub end: usize,
}

// What was read of an assignment before a fault: its clock by its number from 0, and its value in ticks. What is
// missing is 0.
#[derive(Clone, Copy)]
pub struct AssignSoFar {
    pub clock: usize,
    pub value: u16,
}

// An assignment (SPECIFICATION 3.1). Beside a fault stands what was read of it.
#[tactic(auto, unfolding(crate::specs::Assigns::assign_next, crate::specs::SoFar::assign_so_far))]
fn assign_next(
    period: usize,
    s: &[u8],
    p: usize,
    names: &[Name; NAME_SLOTS],
) -> Result<AssignRead, Stopped<AssignSoFar>>
    requires { TickLength period × (length s.now ≤ largest_text) }
    ensures { result ≡ beside (assign_so_far period s.now (Ok p) names.now) (assign_next period s.now p names.now) }
{
    let mut x = AssignSoFar { clock: 0, value: 0 };
    let used = reader_parts::use_name(s, Ok(p), names, FIRST_CLOCK, CLOCK_LIMIT, false);
    let clock = reader_parts::beside(x, used)?;
    x.clock = clock.number;
    let taken = reader_parts::take(s, Ok(clock.end), reader_tokens::BECOMES);
    let becomes = reader_parts::beside(x, taken)?;
    let constant = reader_constraints::constant(period, s, Ok(becomes), LEAST_ASSIGNED);
    let given = reader_parts::beside(x, constant)?;
    x.value = given.value as u16;
    Ok(AssignRead {
        clock: x.clock,
        value: x.value,
        end: given.end,
    })
}

#[tactic(auto, unfolding(crate::specs::Assigns::no_assignments))]
pub fn no_assignments() -> [Assignment; CLOCK_LIMIT]
    ensures { result ≡ no_assignments }
{
    [reader_record::no_assignment(); CLOCK_LIMIT]
}

// The assignment of a clock that is assigned v after a: the last value counts, and the largest is kept beside it
// (SPECIFICATION 5.4).
#[tactic(auto, unfolding(crate::specs::Assigns::then_assigned))]
fn then_assigned(a: Assignment, v: u16) -> Assignment
    ensures { result ≡ then_assigned a v }
{
    let most = if a.largest < v { v } else { a.largest };
    Assignment {
        made: true,
        value: v,
        largest: most,
    }
}

// What an edge does to each clock, and the place behind it.
#[derive(Clone, Copy)]
pub struct AssignsRead {
    pub assignments: [Assignment; CLOCK_LIMIT],
    pub end: usize,
}

// The assignments after `assign`. Each comma that is taken leaves fewer bytes. Beside a fault stand the assignments
// that were read, what was read of the one with the fault among them.
fn assign_items(
    period: usize,
    s: &[u8],
    p: usize,
    names: &[Name; NAME_SLOTS],
) -> Result<AssignsRead, Stopped<[Assignment; CLOCK_LIMIT]>>
    requires { TickLength period × (length s.now ≤ largest_text) }
    ensures { result ≡ beside (assign_items_so_far period s.now names.now (Ok p) no_assignments)
        (assign_items period s.now names.now p no_assignments) }
{
    let mut all = no_assignments();
    let mut q = p;
    loop {
        let x = match assign_next(period, s, q, names) {
            Ok(x) => x,
            Err(e) => {
                let clock = e.read.clock;
                all[clock] = then_assigned(all[clock], e.read.value);
                return reader_parts::beside(all, Err(e.fault));
            }
        };
        all[x.clock] = then_assigned(all[x.clock], x.value);
        if !reader_parts::ahead(s, Ok(x.end), reader_tokens::COMMA) {
            let closed = reader_parts::take(s, Ok(x.end), reader_tokens::SEMICOLON);
            let end = reader_parts::beside(all, closed)?;
            return Ok(AssignsRead {
                assignments: all,
                end,
            });
        }
        q = reader_parts::beside(all, reader_parts::take(s, Ok(x.end), reader_tokens::COMMA))?;
    }
}

// The assignments of an edge, where there are any (SPECIFICATION 3.1). Beside a fault stand those that were read.
#[tactic(auto, unfolding(crate::specs::Assigns::assigns, crate::specs::SoFar::assigns_so_far))]
fn assigns(
    period: usize,
    s: &[u8],
    p: usize,
    names: &[Name; NAME_SLOTS],
) -> Result<AssignsRead, Stopped<[Assignment; CLOCK_LIMIT]>>
    requires { TickLength period × (length s.now ≤ largest_text) }
    ensures { result ≡ beside (assigns_so_far period s.now (Ok p) names.now) (assigns period s.now p names.now) }
{
    let none = no_assignments();
    if !reader_parts::ahead(s, Ok(p), reader_tokens::ASSIGN) {
        return Ok(AssignsRead {
            assignments: none,
            end: p,
        });
    }
    let q = reader_parts::beside(none, reader_parts::take(s, Ok(p), reader_tokens::ASSIGN))?;
    assign_items(period, s, q, names)
}

// What was read of an edge before a fault: its channel by its number from 0, whether that is an input, and its parts.
// What is missing is 0 and an output, no comparison and no assignment.
#[derive(Clone, Copy)]
pub struct EdgeSoFar {
    pub channel: usize,
    pub input: bool,
    pub edge: Edge,
}

// An edge of which nothing is read.
#[tactic(auto, unfolding(crate::specs::Parts::no_edge))]
fn no_edge() -> EdgeSoFar
    ensures { result ≡ no_edge }
{
    let edge = Edge {
        source: 0,
        target: 0,
        guard: reader_constraints::blank_constraint(),
        label: label_of(false, 0),
        assignments: no_assignments(),
    };
    EdgeSoFar {
        channel: 0,
        input: false,
        edge,
    }
}

// The locations of an edge, each kept in x as soon as it is read: the place behind `{`, or the first fault.
#[tactic(auto, unfolding(crate::specs::Parts::located, crate::specs::Parts::opened))]
fn locations(
    s: &[u8],
    at: Result<usize, Fault>,
    names: &[Name; NAME_SLOTS],
    over: bool,
    x: &mut EdgeSoFar,
) -> Result<usize, Fault>
    requires { length s.now ≤ largest_text }
    ensures place { result ≡ opened s.now at names.now over }
    ensures kept { x.new ≡ located s.now at names.now over x.old }
{
    let p = at?;
    let source = reader_parts::use_name(s, Ok(p), names, FIRST_LOCATION, LOCATION_LIMIT, over)?;
    x.edge.source = source.number as u8;
    let a = reader_parts::take(s, Ok(source.end), reader_tokens::ARROW)?;
    let target = reader_parts::use_name(s, Ok(a), names, FIRST_LOCATION, LOCATION_LIMIT, false)?;
    x.edge.target = target.number as u8;
    reader_parts::take(s, Ok(target.end), reader_tokens::OPEN)
}

// The guard of an edge, kept in x: the place behind it, or its fault, where the comparisons that were read are kept.
#[tactic(auto, unfolding(crate::specs::Parts::guarded, crate::specs::Parts::guard_end))]
fn guard_kept(
    period: usize,
    s: &[u8],
    at: Result<usize, Fault>,
    names: &[Name; NAME_SLOTS],
    x: &mut EdgeSoFar,
) -> Result<usize, Fault>
    requires { TickLength period × (length s.now ≤ largest_text) }
    ensures place { result ≡ guard_end period s.now at names.now }
    ensures kept { x.new ≡ guarded period s.now at names.now x.old }
{
    match reader_constraints::guard(period, s, at, names) {
        Ok(given) => {
            x.edge.guard = given.constraint;
            Ok(given.end)
        }
        Err(e) => {
            x.edge.guard = e.read;
            Err(e.fault)
        }
    }
}

// The label of an edge, kept in x: the place behind it, or its fault, where what was read of it is kept.
#[tactic(auto, unfolding(crate::specs::Parts::labelled, crate::specs::Parts::label_end))]
fn label_kept(
    s: &[u8],
    at: Result<usize, Fault>,
    names: &[Name; NAME_SLOTS],
    channels: &[Channel; CHANNEL_LIMIT],
    x: &mut EdgeSoFar,
) -> Result<usize, Fault>
    requires { length s.now ≤ largest_text }
    ensures place { result ≡ label_end s.now at names.now channels.now }
    ensures kept { x.new ≡ labelled s.now at names.now channels.now x.old }
{
    match label_next(s, at?, names, channels) {
        Ok(read) => {
            x.channel = read.channel;
            x.input = read.input;
            x.edge.label = read.label;
            Ok(read.end)
        }
        Err(e) => {
            x.channel = e.read.channel;
            x.input = e.read.input;
            x.edge.label = label_of(e.read.input, e.read.channel);
            Err(e.fault)
        }
    }
}

// The assignments of an edge, kept in x: the place behind them, or a fault, where those that were read are kept.
#[tactic(auto, unfolding(crate::specs::Parts::assigned, crate::specs::Parts::assigns_end))]
fn assigns_kept(
    period: usize,
    s: &[u8],
    at: Result<usize, Fault>,
    names: &[Name; NAME_SLOTS],
    x: &mut EdgeSoFar,
) -> Result<usize, Fault>
    requires { TickLength period × (length s.now ≤ largest_text) }
    ensures place { result ≡ assigns_end period s.now at names.now }
    ensures kept { x.new ≡ assigned period s.now at names.now x.old }
{
    match assigns(period, s, at?, names) {
        Ok(read) => {
            x.edge.assignments = read.assignments;
            Ok(read.end)
        }
        Err(e) => {
            x.edge.assignments = e.read;
            Err(e.fault)
        }
    }
}

// An edge, its channel by its number from 0, whether that is an input, and the place behind it.
#[derive(Clone, Copy)]
pub struct EdgeRead {
    pub channel: usize,
    pub input: bool,
    pub edge: Edge,
    pub end: usize,
}

// An edge (SPECIFICATION 3.1). `over`: it is one edge too many, which is code 7 (SPECIFICATION 4.5). A fault of the
// stage before stays. Beside a fault stands what was read of the edge before it, and beside one of the stage before, an
// edge of which nothing is read.
pub fn edge_next(
    period: usize,
    s: &[u8],
    at: Result<usize, Fault>,
    names: &[Name; NAME_SLOTS],
    channels: &[Channel; CHANNEL_LIMIT],
    over: bool,
) -> Result<EdgeRead, Stopped<EdgeSoFar>>
    requires { TickLength period × (length s.now ≤ largest_text) }
    ensures { result ≡ beside (edge_so_far period s.now at names.now channels.now over)
        (onward (λ p. edge_next period s.now p names.now channels.now over) at) }
{
    let mut x = no_edge();
    let opened = locations(s, at, names, over, &mut x);
    let guarded = guard_kept(period, s, opened, names, &mut x);
    let labelled = label_kept(s, guarded, names, channels, &mut x);
    let assigned = assigns_kept(period, s, labelled, names, &mut x);
    let end = reader_parts::beside(x, reader_parts::take(s, assigned, reader_tokens::CLOSE))?;
    Ok(EdgeRead {
        channel: x.channel,
        input: x.input,
        edge: x.edge,
        end,
    })
}
