// Joins the items of two records: comparisons, guards and invariants, assignments, edges (SPECIFICATION 18.2 to 18.5).
#![tactic(auto)]

ghost use Rattle.std.specs.Prelude.{◌≡◌, ℕ, ◌+◌, ◌≤◌, ◌<◌, get_or};
ghost use Rattle.limits.specs.Limits.{clock_limit, comparison_limit, location_limit};
ghost use Rattle.reader_record.specs.Record.{no_assignment, comparison, written_once, channel};
ghost use Rattle.joined.specs.Joined.{pair, shifted, both_constraints, both_assignments};
ghost use Rattle.joining_items.specs.Items.{Nearly, NearEdge, Joinable, EdgesJoinable, joined_by};

use limits::{CLOCK_LIMIT, COMPARISON_LIMIT};
use reader_record::{Assignment, Comparison, Constraint, Edge, Label, Sign};

// The channel of a label, from 1.
pub fn channel_of(l: Label) -> usize
    ensures { result ≡ channel l }
{
    l.channel()
}

// The right's comparison on its new clock, where the left has n clocks (SPECIFICATION 18.3).
#[tactic(auto, unfolding(joined::specs::Joined::shifted))]
fn shifted(n: u8, q: Comparison) -> Comparison
    requires { (n ≤ clock_limit) × (q.clock < clock_limit) }
    ensures { result ≡ shifted n q }
{
    Comparison {
        clock: n + q.clock,
        sign: q.sign,
        bound: q.bound,
    }
}

// Comparison i of two constraints joined, the left's first.
fn comparison_at(n: u8, g: Constraint, h: Constraint, i: usize) -> Comparison
    requires { Joinable n g h × (i < comparison_limit) × (i < g.count + h.count) }
    ensures { result ≡ comparison (both_constraints n g h) i }
{
    let first = usize::from(g.count);
    if i < first {
        return g.comparisons[i];
    }
    shifted(n, h.comparisons[i - first])
}

// Two guards or invariants joined, where the left text has n clocks (SPECIFICATION 18.3). The count is right even where
// it passes the limit; the caller judges it.
pub fn join_constraint(n: u8, g: Constraint, h: Constraint) -> Constraint
    requires { Joinable n g h }
    ensures { Nearly (both_constraints n g h) result }
{
    let none = Comparison {
        clock: 0,
        sign: Sign::AtMost,
        bound: 0,
    };
    let mut list = [none; COMPARISON_LIMIT];
    let count = g.count + h.count;
    let end = usize::from(count).min(COMPARISON_LIMIT);
    for i in 0..end {
        list[i] = comparison_at(n, g, h, i);
    }
    Constraint {
        comparisons: list,
        count,
    }
}

// An assignment as a joined text has it: written once, with the value assigned, which is then the largest one too. A
// value that is overridden is left out (SPECIFICATION 18.5).
#[tactic(auto, unfolding(reader_record::specs::Record::written_once))]
fn written_once(a: Assignment) -> Assignment
    ensures { result ≡ written_once a }
{
    if !a.made {
        return reader_record::no_assignment();
    }
    Assignment {
        made: true,
        value: a.value,
        largest: a.value,
    }
}

// What two edges as one do to clock k, of texts with m and n clocks (SPECIFICATION 18.5).
#[tactic(auto, using(joined::proofs::Assigned::assignment_left, joined::proofs::Assigned::assignment_behind, joined::proofs::Assigned::assignment_missing))]
fn assignment_at(m: usize, n: usize, a: Edge, b: Edge, k: usize) -> Assignment
    requires { (m + n ≤ clock_limit) × (k < clock_limit) }
    ensures { result ≡ get_or (both_assignments m n a b) k no_assignment }
{
    if k < m {
        return written_once(a.assignments[k]);
    }
    if k - m < n {
        return written_once(b.assignments[k - m]);
    }
    reader_record::no_assignment()
}

// The assignments of two edges as one, the left's first.
fn join_assignments(m: usize, n: usize, a: Edge, b: Edge) -> [Assignment; CLOCK_LIMIT]
    requires { m + n ≤ clock_limit }
    ensures { (k : ℕ) → get_or result k no_assignment ≡ get_or (both_assignments m n a b) k no_assignment }
{
    let x = assignment_at(m, n, a, b, 0);
    let y = assignment_at(m, n, a, b, 1);
    let z = assignment_at(m, n, a, b, 2);
    [x, y, z]
}

// The number of a pair of locations, where the right has w (SPECIFICATION 18.2).
#[tactic(auto, unfolding(joined::specs::Joined::pair))]
fn pair(w: usize, p: u8, q: u8) -> u8
    requires { pair w p q < location_limit }
    ensures { result ≡ pair w p q }
{
    (usize::from(p) * w + usize::from(q)) as u8
}

// Two edges as one, of texts with m and n clocks and w locations on the right, with the left's label
// (SPECIFICATION 18.4).
#[tactic(auto, unfolding(crate::specs::Items::joined_by))]
pub fn join_edge(m: u8, n: usize, w: usize, a: Edge, b: Edge) -> Edge
    requires { EdgesJoinable m n w a b }
    ensures { NearEdge (joined_by m n w a b) result }
{
    let source = pair(w, a.source, b.source);
    let target = pair(w, a.target, b.target);
    let guard = join_constraint(m, a.guard, b.guard);
    let assignments = join_assignments(m as usize, n, a, b);
    Edge {
        source,
        target,
        guard,
        label: a.label,
        assignments,
    }
}
