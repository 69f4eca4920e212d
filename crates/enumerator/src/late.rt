// Which texts have late clocks (SPECIFICATION 6.3): a caller counts them, so that it is seen that a test has some.
use reader_record::{Edge, Text};

// Whether an edge sets a clock to another value than 0.
pub fn sets_late(e: &Edge) -> bool {
    e.assignments.iter().any(|a| a.made && 0 < a.value)
}

// Whether an edge writes a larger value than the one that counts (SPECIFICATION 5.4).
fn overrides_larger(e: &Edge) -> bool {
    e.assignments.iter().any(|a| a.made && a.value < a.largest)
}

// Whether a text has an edge that sets a clock to another value than 0.
pub fn has_late(t: &Text) -> bool {
    t.edges.iter().take(t.edge_count).any(|e| sets_late(e))
}

// Whether a text has an edge that writes a larger value than the one that counts.
pub fn has_overridden(t: &Text) -> bool {
    t.edges
        .iter()
        .take(t.edge_count)
        .any(|e| overrides_larger(e))
}
