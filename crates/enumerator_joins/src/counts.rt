// Which edges of two texts match, and whether the joined text would pass a limit (SPECIFICATION 18.4, 18.8). Every pair
// is tried.
use enumerator::late::sets_late;
use enumerator::moves::channel_of;
use enumerator::numbers::{plus, times};
use enumerator::pairs::Two;
use enumerator::states::{largest_in, largest_in_invariants};
use limits::{CLOCK_LIMIT, COMPARISON_LIMIT, EDGE_LIMIT, LOCATION_LIMIT, STATE_LIMIT};
use reader_record::{Constraint, Edge, Location, Text};

// A clock has so many values from M on (SPECIFICATION 6.4).
const PAST_LARGEST: usize = 2;

// Two texts with equal channels.
#[derive(Clone, Copy)]
pub struct Both<'a> {
    pub left: &'a Text,
    pub right: &'a Text,
    pub two: &'a Two,
}

// Whether two constraints have too many comparisons together.
fn are_long(g: &Constraint, h: &Constraint) -> bool {
    COMPARISON_LIMIT < plus(usize::from(g.count), usize::from(h.count))
}

// The largest value that an edge sets each clock to, which is the only one that is written (SPECIFICATION 18.5), and that
// its guard compares it with; those given, where they are larger.
fn raise(most: &mut [usize; CLOCK_LIMIT], e: &Edge) {
    for (clock, (m, a)) in most.iter_mut().zip(e.assignments.iter()).enumerate() {
        *m = (*m).max(largest_in(&e.guard, clock));
        if a.made {
            *m = (*m).max(usize::from(a.value));
        }
    }
}

// The product of the numbers of values of a text's clocks by the constants that are written: those of all invariants,
// and those of the guards and assignments of edges that match one.
fn values_of<F: Fn(&Edge) -> bool>(t: &Text, has_match: F) -> usize
    requires { F.IsAlwaysCallable has_match }
{
    let mut most = [0; CLOCK_LIMIT];
    for (clock, m) in most.iter_mut().enumerate() {
        *m = largest_in_invariants(t, clock);
    }
    for e in t.edges.iter().take(t.edge_count) {
        if has_match(e) {
            raise(&mut most, e);
        }
    }
    let mut n = 1;
    for m in most.iter().take(t.clock_count) {
        n = times(n, plus(*m, PAST_LARGEST));
    }
    n
}

impl Both<'_> {
    // Two edges match if their channels have one name.
    pub fn is_match(&self, e: &Edge, f: &Edge) -> bool {
        match self.two.right_step(channel_of(e)) {
            Some(c) => c == channel_of(f),
            None => false,
        }
    }

    // How many edges of the right match an edge of the left.
    fn matches(&self, e: &Edge) -> usize {
        self.right
            .edges
            .iter()
            .take(self.right.edge_count)
            .filter(|f| self.is_match(e, f))
            .count()
    }

    fn has_right_match(&self, e: &Edge) -> bool {
        self.right
            .edges
            .iter()
            .take(self.right.edge_count)
            .any(|f| self.is_match(e, f))
    }

    fn has_left_match(&self, f: &Edge) -> bool {
        self.left
            .edges
            .iter()
            .take(self.left.edge_count)
            .any(|e| self.is_match(e, f))
    }

    // The number of matching pairs.
    fn edges(&self) -> usize {
        let mut n = 0;
        for e in self.left.edges.iter().take(self.left.edge_count) {
            n = plus(n, self.matches(e));
        }
        n
    }

    // Whether an edge of the left and one that matches it have too many comparisons in their guards.
    fn has_long_guard(&self, e: &Edge) -> bool {
        self.right
            .edges
            .iter()
            .take(self.right.edge_count)
            .any(|f| self.is_match(e, f) && are_long(&e.guard, &f.guard))
    }

    // Whether a location of the left and one of the right have too many in their invariants.
    fn has_long_invariant(&self, l: &Location) -> bool {
        self.right
            .locations
            .iter()
            .take(self.right.location_count)
            .any(|m| are_long(&l.invariant, &m.invariant))
    }

    fn has_long_constraint(&self) -> bool {
        let mut locations = self.left.locations.iter().take(self.left.location_count);
        let mut edges = self.left.edges.iter().take(self.left.edge_count);
        locations.any(|l| self.has_long_invariant(l)) || edges.any(|e| self.has_long_guard(e))
    }

    // Whether an edge of the joined text sets a clock to another value than 0: a caller counts such texts.
    pub fn joins_late(&self) -> bool {
        let mut left = self.left.edges.iter().take(self.left.edge_count);
        let mut right = self.right.edges.iter().take(self.right.edge_count);
        left.any(|e| sets_late(e) && self.has_right_match(e))
            || right.any(|f| sets_late(f) && self.has_left_match(f))
    }

    pub fn locations(&self) -> usize {
        times(self.left.location_count, self.right.location_count)
    }

    pub fn clocks(&self) -> usize {
        plus(self.left.clock_count, self.right.clock_count)
    }

    // The number of states of the joined text of two texts that have few enough clocks and locations.
    pub fn states(&self) -> usize {
        let left = values_of(self.left, |e| self.has_right_match(e));
        let right = values_of(self.right, |f| self.has_left_match(f));
        times(self.locations(), times(left, right))
    }

    // Whether the joined text passes a limit, but for that on its bytes: texts of this test are far from that one.
    pub fn passes_limit(&self) -> bool {
        CLOCK_LIMIT < self.clocks()
            || LOCATION_LIMIT < self.locations()
            || EDGE_LIMIT < self.edges()
            || self.has_long_constraint()
            || STATE_LIMIT < self.states()
    }
}
