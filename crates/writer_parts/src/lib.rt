// The parts of a text put into a slice (SPECIFICATION 18.7): comparisons, constraints, locations, labels,
// assignments and edges. Each function puts tokens at a place and returns the place behind them.
#![tactic(auto)]

ghost use Rattle.std.specs.Prelude.{◌≡◌, ◌||◌, [], ◌∷◌, ◌≤◌, ◌<◌, get_or};
ghost use Rattle.limits.specs.Limits.{channel_limit, clock_limit, comparison_limit};
ghost use Rattle.reader_record.specs.Record.{channel};
ghost use Rattle.written.specs.Written.{sign_bytes, comparison_tokens, constraint_tokens, mark_bytes, label_tokens};
ghost use Rattle.written.specs.Written.{assignments_tokens, edge_tokens};
ghost use Rattle.writer_tokens.specs.Tokens.{PutsTokens};
ghost use Rattle.written_names.specs.Inside.{names_in, NamesInside};
ghost use Rattle.writer_parts.specs.Parts.{located, lead, assignment_step, arrow, EdgeWithin};

use limits::{CHANNEL_LIMIT, CLOCK_LIMIT};
use reader_record::{Assignment, Channel, Comparison, Constraint, Edge, Label, Sign};
use writer_tokens::{CLOCK, LOCATION, put_decimal, put_named, put_part, put_token};

fn put_sign(out: &mut [u8], at: usize, sign: Sign) -> usize
    ensures { PutsTokens out.old at (sign_bytes sign ∷ []) out.new result }
{
    match sign {
        Sign::AtMost => put_token(out, at, b"<="),
        Sign::AtLeast => put_token(out, at, b">="),
        Sign::Equal => put_token(out, at, b"=="),
        Sign::Less => put_token(out, at, b"<"),
        Sign::Greater => put_token(out, at, b">"),
    }
}

fn put_comparison(out: &mut [u8], at: usize, u: usize, q: Comparison) -> usize
    ensures { PutsTokens out.old at (comparison_tokens u q) out.new result }
{
    let clock = put_named(out, at, CLOCK, u, q.clock as usize);
    let s = q.sign;
    let sign = put_sign(out, clock, s);
    put_decimal(out, sign, q.bound as usize)
}

// A guard or an invariant between its opening and its closing token; nothing where it has no comparison.
fn put_constraint(
    out: &mut [u8],
    at: usize,
    u: usize,
    g: Constraint,
    opening: &[u8],
    closing: &[u8],
) -> usize
    requires { g.count ≤ comparison_limit }
    ensures { PutsTokens out.old at
        (constraint_tokens opening.now closing.now u g) out.new result }
{
    let count = g.count as usize;
    if count == 0 {
        return at;
    }
    let start = put_token(out, at, opening);
    let first = g.comparisons[0];
    let mut place = put_comparison(out, start, u, first);
    for i in 1..count {
        let joined = put_token(out, place, b"&&");
        place = put_comparison(out, joined, u, g.comparisons[i]);
    }
    put_token(out, place, closing)
}

// Location i with its invariant.
pub fn put_location(out: &mut [u8], at: usize, u: usize, i: usize, invariant: Constraint) -> usize
    requires { invariant.count ≤ comparison_limit }
    ensures { PutsTokens out.old at (located u i invariant) out.new result }
{
    let name = put_named(out, at, LOCATION, u, i);
    put_constraint(out, name, u, invariant, b"{", b"}")
}

fn put_mark(out: &mut [u8], at: usize, label: Label) -> usize
    ensures { PutsTokens out.old at (mark_bytes label ∷ []) out.new result }
{
    match label {
        Label::Input(_) => put_token(out, at, b"?"),
        Label::Output(_) => put_token(out, at, b"!"),
    }
}

// The name of channel i, from 0, of the first `count`, as the text s spells it.
pub fn put_channel(
    out: &mut [u8],
    at: usize,
    s: &[u8],
    channels: [Channel; CHANNEL_LIMIT],
    count: usize,
    i: usize,
) -> usize
    requires { (count ≤ channel_limit) × (i < count) × NamesInside s.now channels count }
    ensures { PutsTokens out.old at (get_or (names_in s.now channels count) i [] ∷ [])
        out.new result }
{
    let k = channels[i];
    let name = k.name;
    put_part(out, at, s, name)
}

// The label of an edge; its channel is one of the first `count`.
fn put_label(
    out: &mut [u8],
    at: usize,
    s: &[u8],
    channels: [Channel; CHANNEL_LIMIT],
    count: usize,
    label: Label,
) -> usize
    requires { (count ≤ channel_limit) × (0 < channel label) × (channel label ≤ count)
        × NamesInside s.now channels count }
    ensures { PutsTokens out.old at (label_tokens (names_in s.now channels count) label)
        out.new result }
{
    let start = put_token(out, at, b"sync");
    let c = label.channel();
    let name = put_channel(out, start, s, channels, count, c - 1);
    let mark = put_mark(out, name, label);
    put_token(out, mark, b";")
}

// What opens the assignments, or what joins one to those before it.
fn put_lead(out: &mut [u8], at: usize, some: bool) -> usize
    ensures { PutsTokens out.old at (lead some ∷ []) out.new result }
{
    if some {
        return put_token(out, at, b",");
    }
    put_token(out, at, b"assign")
}

// The assignment of clock i, if it is made; `some` says that one was put before it.
fn put_assignment(out: &mut [u8], at: usize, u: usize, i: usize, a: Assignment, some: bool) -> usize
    ensures { PutsTokens out.old at (assignment_step a some u i) out.new result }
{
    if !a.made {
        return at;
    }
    let start = put_lead(out, at, some);
    let clock = put_named(out, start, CLOCK, u, i);
    let sign = put_token(out, clock, b"=");
    put_decimal(out, sign, a.value as usize)
}

// The assignments of the first so many clocks; nothing where there is none.
fn put_assignments(
    out: &mut [u8],
    at: usize,
    u: usize,
    clocks: usize,
    all: [Assignment; CLOCK_LIMIT],
) -> usize
    requires { clocks ≤ clock_limit }
    ensures { PutsTokens out.old at (assignments_tokens u clocks all) out.new result }
{
    let mut place = at;
    let mut some = false;
    for i in 0..clocks {
        let a = all[i];
        place = put_assignment(out, place, u, i, a, some);
        some |= a.made;
    }
    if some {
        return put_token(out, place, b";");
    }
    place
}

// The two locations of an edge and what opens the rest of it.
fn put_arrow(out: &mut [u8], at: usize, u: usize, source: usize, target: usize) -> usize
    ensures { PutsTokens out.old at (arrow u source target) out.new result }
{
    let from = put_named(out, at, LOCATION, u, source);
    let sign = put_token(out, from, b"->");
    let to = put_named(out, sign, LOCATION, u, target);
    put_token(out, to, b"{")
}

// An edge of a text with so many channels and clocks.
pub fn put_edge(
    out: &mut [u8],
    at: usize,
    s: &[u8],
    channels: [Channel; CHANNEL_LIMIT],
    count: usize,
    u: usize,
    clocks: usize,
    e: Edge,
) -> usize
    requires { EdgeWithin s.now channels count clocks e }
    ensures { PutsTokens out.old at
        (edge_tokens (names_in s.now channels count) u clocks e) out.new result }
{
    let start = put_arrow(out, at, u, e.source as usize, e.target as usize);
    let g = e.guard;
    let guard = put_constraint(out, start, u, g, b"guard", b";");
    let l = e.label;
    let label = put_label(out, guard, s, channels, count, l);
    let all = e.assignments;
    let end = put_assignments(out, label, u, clocks, all);
    put_token(out, end, b"}")
}
