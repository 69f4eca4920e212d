// Pruning: a system's move table without the moves that leave its safe states, and so are taken by no implementation.
#![tactic(auto)]

ghost use Rattle.std.specs.Prelude.{◌≡◌, ◌/◌, ◌≤◌, ◌<◌, length};
ghost use Rattle.bitmaps.specs.Bits.{bit_at};
ghost use Rattle.move_tables.specs.Moves.{Bounded, no_move};
ghost use Rattle.bitmaps.specs.Packed.{bytes_for};
ghost use Rattle.tables_prune.specs.Prune.{kept_of, Pruned};

// The move to t, if t is a state of keep.
#[tactic(auto, unfolding(crate::specs::Prune::kept_of))]
fn kept(keep: &[u8], t: u16) -> u16
    requires { (t ≡ no_move → ⊥) → t / 8 < length keep.now }
    ensures { result ≡ kept_of (bit_at keep.now) t }
{
    if t == move_tables::NO_MOVE {
        return move_tables::NO_MOVE;
    }
    if bitmaps::get(keep, t as usize) {
        return t;
    }
    move_tables::NO_MOVE
}

// Takes away the moves that leave the states of keep: the pruning of the left (SPECIFICATION 9.3).
pub fn prune(moves: &mut [u16], keep: &[u8], n: usize, steps: usize)
    requires { Bounded n steps moves.old × (bytes_for n ≤ length keep.now) }
    ensures { Pruned n steps keep.now moves.old moves.new }
{
    for i in 0..n * steps {
        moves[i] = kept(keep, moves[i]);
    }
}
