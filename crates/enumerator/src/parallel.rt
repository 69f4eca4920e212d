// Which texts have parallel edges (SPECIFICATION 7.2): a caller counts them, so that it is seen that a test has some.
use super::moves::edges_giving;
use super::numbers::times;
use super::pairs::Two;
use super::safe::Reading;
use super::states::{configuration_of, invariant_holds};
use limits::STEP_LIMIT;

// The most edges that give a move by the channel in one of the states, of those whose invariant is true.
fn most_by(r: &Reading, channel: usize) -> usize {
    let mut most = 0;
    for s in 0..r.states {
        let c = configuration_of(&r.ranges, s);
        if invariant_holds(&r.text, &c) {
            most = most.max(edges_giving(&r.text, &c, channel));
        }
    }
    most
}

// The same for each step; 0 for the tick, which has no edge.
fn most_edges(r: &Reading) -> [usize; STEP_LIMIT] {
    let mut most = [0; STEP_LIMIT];
    for (step, edges) in most.iter_mut().enumerate() {
        if 0 < step && step <= r.text.channel_count {
            *edges = most_by(r, step);
        }
    }
    most
}

// Whether two edges of a text give moves by one channel in a state whose invariant is true: they are parallel, as they
// lead to one state.
pub fn has_parallel(r: &Reading) -> bool {
    most_edges(r).iter().any(|edges| 1 < *edges)
}

// Whether the joined text of two has parallel edges. Each edge of the one side is joined with each of the other that has
// its channel, and any two states of the two texts are together in a state of the joined text (SPECIFICATION 18.2 to 18.4).
pub fn joins_parallel(a: &Reading, b: &Reading, w: &Two) -> bool {
    let theirs = most_edges(b);
    most_edges(a).iter().enumerate().any(|(step, edges)| {
        match w.right_step(step) {
            Some(other) => match theirs.get(other) {
                Some(others) => 1 < times(*edges, *others),
                None => false,
            },
            None => false,
        }
    })
}
