// One row of the table of pairs, cut by the rows that its moves lead to.
#![tactic(auto)]

ghost use Rattle.std.specs.Prelude.{◌≡◌, true, ◌*◌, ◌≤◌, ◌<◌, length, get_or};
ghost use Rattle.limits.specs.Limits.{state_limit};
ghost use Rattle.bitmaps.specs.Packed.{bytes_for};
ghost use Rattle.tables_rows.specs.Raster.{part};
ghost use Rattle.tables_count.specs.Pairs.{Fewer};
ghost use Rattle.tables_runs.specs.Runs.{Within};
ghost use Rattle.tables_cut.specs.Rule.{Tables, Loaded};
ghost use Rattle.tables_visit.specs.Visit.{Visited, LookedAt, PutBack};

use move_tables::Sides;
use tables_cut::Span;

// Whether u is a state whose row has not changed since `seen`.
fn is_old(stamps: &[u32], n: usize, u: usize, seen: u32) -> bool
    requires { n ≤ length stamps.now }
    ensures { result ≡ true → get_or stamps.now u 0 ≤ seen }
{
    if n <= u {
        return false;
    }
    stamps[u] <= seen
}

// The row s, cut by each step that leads to a row which has changed since `seen`. All its bits that are set lie in the
// span.
fn cut_row(
    row: &mut [u8],
    raster: &[u8],
    lm: &[u16],
    rm: &[u16],
    runs: &[u16],
    classes: &[u16],
    masks: &[u8],
    stamps: &[u32],
    sides: Sides,
    s: usize,
    seen: u32,
    span: Span,
)
    requires { Tables lm.now rm.now runs.now classes.now masks.now sides.left_states sides.right_states sides.steps
        × ((s < sides.left_states) × ((sides.left_states ≤ length stamps.now)
        × ((sides.left_states * bytes_for sides.right_states ≤ length raster.now)
        × ((bytes_for sides.right_states ≤ length row.old)
        × (Loaded sides.right_states raster.now s row.old
        × Within sides.right_states row.old span.from span.to))))) }
    ensures { LookedAt lm.now rm.now stamps.now sides.right_states
        sides.steps s seen raster.now sides.steps row.new }
{
    let n = sides.left_states;
    let steps = sides.steps;
    for c in 0..steps {
        let u = lm[s * steps + c] as usize;
        if !is_old(stamps, n, u, seen) {
            tables_cut::cut_by_step(row, raster, lm, rm, runs, classes, masks, sides, s, c, span);
        }
    }
}

// Row s of the raster replaced by `row`, whose bits are among its own, unless they are the same; how many are lost.
fn put_back(raster: &mut [u8], row: &[u8], n: usize, w: usize, s: usize) -> usize
    requires { (n ≤ state_limit) × ((w ≤ state_limit) × ((s < n) × ((n * bytes_for w ≤ length raster.old)
        × ((bytes_for w ≤ length row.now) × Fewer w (part (bytes_for w) s raster.old) row.now)))) }
    ensures { PutBack w s row.now raster.old raster.new result }
{
    let b = bitmaps::bytes_for(w);
    let a = s * b;
    let e = a + b;
    let lost = tables_count::row_lost(&raster[a..e], row, w);
    if lost == 0 {
        return 0;
    }
    bitmaps::copy(&mut raster[a..e], row, b);
    lost
}

// Takes out of row s of the raster the pairs that break a rule by a step that leads to a row which has changed since
// `seen`; how many they are. `row` is room for a row.
pub fn visit(
    raster: &mut [u8],
    row: &mut [u8],
    lm: &[u16],
    rm: &[u16],
    runs: &[u16],
    classes: &[u16],
    masks: &[u8],
    stamps: &[u32],
    sides: Sides,
    s: usize,
    seen: u32,
) -> usize
    requires { Tables lm.now rm.now runs.now classes.now masks.now sides.left_states sides.right_states sides.steps
        × ((s < sides.left_states) × ((sides.left_states ≤ length stamps.now)
        × ((sides.left_states * bytes_for sides.right_states ≤ length raster.old)
        × (bytes_for sides.right_states ≤ length row.old)))) }
    ensures { Visited lm.now rm.now stamps.now sides.left_states
        sides.right_states sides.steps s seen raster.old raster.new result }
{
    let n = sides.left_states;
    let w = sides.right_states;
    tables_cut::load(row, raster, n, w, s);
    let span = tables_cut::span_of(row, w);
    if span.from == span.to {
        return 0;
    }
    cut_row(
        row, raster, lm, rm, runs, classes, masks, stamps, sides, s, seen, span,
    );
    put_back(raster, row, n, w, s)
}
