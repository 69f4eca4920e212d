// The safe states of a system whose moves stand in a move table: from the states whose invariant holds, those that fail
// the test of a safe state are taken out until none does.
#![tactic(auto)]

ghost use Rattle.std.specs.Prelude.{◌≡◌, true, false, ◌+◌, ◌*◌, ◌/◌, ◌≤◌, ◌<◌, length, set};
ghost use Rattle.bitmaps.specs.Bits.{bit_at};
ghost use Rattle.move_tables.specs.Moves.{Bounded, no_move};
ghost use Rattle.bitmaps.specs.Packed.{bytes_for, Counted, Bitmap};
ghost use Rattle.clocks_safe.specs.Test.{input_passes, own_passes, decides, some_decides, passes, Visits};
ghost use Rattle.clocks_safe.specs.Settle.{Visited, Settled, SafeAnswer};

// An input's move, if there is one, stays in the set.
fn input_passes(keep: &[u8], t: usize, input: bool) -> bool
    requires { (t ≡ no_move → ⊥) → t / 8 < length keep.now }
    ensures { result ≡ input_passes (bit_at keep.now) t input }
{
    if !input {
        return true;
    }
    if t == move_tables::NO_TARGET {
        return true;
    }
    bitmaps::get(keep, t)
}

// A step of the system's own is there and stays in the set.
fn own_passes(keep: &[u8], t: usize, input: bool) -> bool
    requires { (t ≡ no_move → ⊥) → t / 8 < length keep.now }
    ensures { result ≡ own_passes (bit_at keep.now) t input }
{
    if input {
        return false;
    }
    if t == move_tables::NO_TARGET {
        return false;
    }
    bitmaps::get(keep, t)
}

// Whether a step decides the test of its state by itself: an input that leaves the set or, with `own`, a step of the
// system's own that stays in it.
fn decides(keep: &[u8], t: usize, input: bool, own: bool) -> bool
    requires { (t ≡ no_move → ⊥) → t / 8 < length keep.now }
    ensures { result ≡ decides own (bit_at keep.now) t input }
{
    if own {
        return own_passes(keep, t, input);
    }
    !input_passes(keep, t, input)
}

// Whether some step of state s decides.
fn some_decides(
    keep: &[u8],
    moves: &[u16],
    inputs: &[bool],
    n: usize,
    steps: usize,
    s: usize,
    own: bool,
) -> bool
    requires { Visits n steps moves.now inputs.now keep.now s }
    ensures { result ≡ some_decides moves.now inputs.now steps (bit_at keep.now) s
        own }
{
    let base = s * steps;
    for c in 0..steps {
        let t = moves[base + c] as usize;
        if decides(keep, t, inputs[c], own) {
            return true;
        }
    }
    false
}

fn passes(keep: &[u8], moves: &[u16], inputs: &[bool], n: usize, steps: usize, s: usize) -> bool
    requires { Visits n steps moves.now inputs.now keep.now s }
    ensures { result ≡ passes moves.now inputs.now steps (bit_at keep.now) s }
{
    if some_decides(keep, moves, inputs, n, steps, s, false) {
        return false;
    }
    some_decides(keep, moves, inputs, n, steps, s, true)
}

// Takes state s out if it is in and fails the test, and says how many that were.
fn visit(keep: &mut [u8], moves: &[u16], inputs: &[bool], n: usize, steps: usize, s: usize) -> usize
    requires { Visits n steps moves.now inputs.now keep.old s }
    ensures { Visited moves.now inputs.now steps keep.old s keep.new result }
{
    if !bitmaps::get(keep, s) {
        return 0;
    }
    if passes(keep, moves, inputs, n, steps, s) {
        return 0;
    }
    bitmaps::clear(keep, s);
    1
}

// From the states whose invariant holds, `count` of them, to the safe states:
// sweeps from the last state to the first until one takes nothing out.
pub fn settle(
    keep: &mut [u8],
    moves: &[u16],
    inputs: &[bool],
    n: usize,
    steps: usize,
    count: usize,
) -> usize
    requires { Bounded n steps moves.now × ((steps ≤ length inputs.now) × Counted n keep.old count) }
    ensures { Settled moves.now inputs.now n steps keep.old keep.new result }
{
    let mut left = count;
    loop {
        let before = left;
        for s in (0..n).rev() {
            left -= visit(keep, moves, inputs, n, steps, s);
        }
        if left == before {
            break;
        }
    }
    left
}

// The safe states of n, from the bitmap of the states whose invariant holds; the count is returned.
pub fn safe(
    keep: &mut [u8],
    holds: &[u8],
    moves: &[u16],
    inputs: &[bool],
    n: usize,
    steps: usize,
) -> usize
    requires { Bounded n steps moves.now × ((steps ≤ length inputs.now)
        × (Bitmap n holds.now × (bytes_for n ≤ length keep.old))) }
    ensures { SafeAnswer holds.now moves.now inputs.now n steps
        keep.old keep.new result }
{
    let m = bitmaps::bytes_for(n);
    bitmaps::copy(keep, holds, m);
    let count = bitmaps::count(keep, n);
    settle(keep, moves, inputs, n, steps, count)
}
