// Pairs the edges of two texts that match, by left edge, then right (SPECIFICATION 18.4).
#![tactic(auto)]

ghost use Rattle.std.specs.Prelude.{◌≡◌, List, [], ◌++◌, ℕ, ◌≤◌, ◌<◌, length};
ghost use Rattle.limits.specs.Limits.{edge_limit};
ghost use Rattle.bitmaps.specs.Bits.{tab_from};
ghost use Rattle.reader_record.specs.declared.Edge.{Edge};
ghost use Rattle.joined.specs.Joined.{joined_edges};
ghost use Rattle.joining_items.specs.Items.{EdgesJoinable};
ghost use Rattle.joining_edges.specs.Edges.{by_map, with_by, edge_at, Pairable, Holds, Gathered};

use limits::{EDGE_LIMIT, STEP_LIMIT};
use reader_record::{Edge, Text};

// The edges of the joined record: the first `count` of the list. A count above the limit says that there are more than
// the limit, and the list is nothing then.
#[derive(Clone, Copy)]
pub struct Edges {
    pub list: [Edge; EDGE_LIMIT],
    pub count: usize,
}

// No edges; e is filling.
fn no_edges(e: Edge) -> Edges
    ensures { Holds [] result }
{
    Edges {
        list: [e; EDGE_LIMIT],
        count: 0,
    }
}

// Adds a left edge a with each of the first k right edges on channel d, each pair as one edge. The texts have m and n
// clocks, the right has w locations. Ends where there are more edges than the limit.
fn pair_edge(
    es: Edges,
    m: u8,
    n: usize,
    w: usize,
    d: usize,
    a: Edge,
    right: [Edge; EDGE_LIMIT],
    k: usize,
) -> Edges
    requires { (length es.list ≡ edge_limit) × (es.count ≤ edge_limit) × (k ≤ edge_limit)
        × ((i : ℕ) → i < k → EdgesJoinable m n w a (edge_at right i)) }
    ensures { (xs : List Edge) → Holds xs es
        → Gathered (xs ++ with_by m n w d a (tab_from (edge_at right) 0 k)) result }
{
    let mut list = es.list;
    let mut count = es.count;
    for i in 0..k {
        let b = right[i];
        if joining_items::channel_of(b.label) != d {
            continue;
        }
        if EDGE_LIMIT <= count {
            return Edges {
                list,
                count: EDGE_LIMIT + 1,
            };
        }
        list[count] = joining_items::join_edge(m, n, w, a, b);
        count += 1;
    }
    Edges { list, count }
}

// The edges of two texts that match, as one each; `map` has the right's number of each of the left's steps.
pub fn pair_edges(l: Text, r: Text, map: [usize; STEP_LIMIT]) -> Edges
    requires { Pairable l r }
    ensures { Gathered (joined_edges (by_map map) l r) result }
{
    let left = l.edges;
    let right = r.edges;
    let clocks = l.clock_count as u8;
    let mut all = no_edges(left[0]);
    for i in 0..l.edge_count {
        let a = left[i];
        let c = joining_items::channel_of(a.label);
        let d = map[c];
        all = pair_edge(
            all,
            clocks,
            r.clock_count,
            r.location_count,
            d,
            a,
            right,
            r.edge_count,
        );
        if EDGE_LIMIT < all.count {
            return all;
        }
    }
    all
}
