// Whether the records of two texts have the same constants: of a text in milliseconds, and of the same text in ticks
// (SPECIFICATION 4.7, 5.3).
use reader_record::{Constraint, Edge, Location, Text};

fn same_bounds(g: &Constraint, h: &Constraint) -> bool {
    let pairs = g.comparisons.iter().zip(h.comparisons.iter());
    g.count == h.count
        && pairs
            .take(usize::from(g.count))
            .all(|(a, b)| a.bound == b.bound)
}

fn same_invariants(l: &Location, m: &Location) -> bool {
    same_bounds(&l.invariant, &m.invariant)
}

// Whether two edges have the same bounds, and assign the same clocks with the same values and largest ones written.
fn same_edges(e: &Edge, f: &Edge) -> bool {
    same_bounds(&e.guard, &f.guard) && e.assignments == f.assignments
}

pub fn same_constants(t: &Text, u: &Text) -> bool {
    let locations = t.locations.iter().zip(u.locations.iter());
    let edges = t.edges.iter().zip(u.edges.iter());
    t.location_count == u.location_count
        && t.edge_count == u.edge_count
        && locations
            .take(t.location_count)
            .all(|(l, m)| same_invariants(l, m))
        && edges.take(t.edge_count).all(|(e, f)| same_edges(e, f))
}
