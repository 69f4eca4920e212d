// What program join prints, made in a slice that it lends: the program itself only reads its files and writes the slice
// out. Nothing is asked of the slice's length: what does not fit is left out, and the rest keeps its values. The second
// promise says what length is enough for all of it.
#![tactic(auto)]

ghost use Rattle.std.specs.Prelude.{◌≡◌, ◌≤◌, length};
ghost use Rattle.byte_slices.specs.Laid.{Laid, laid};
ghost use Rattle.printed_lines.specs.Room.{line_limit};
ghost use Rattle.printed_join.specs.Prints.{join_prints};

use printed::PROGRAM_TICK;

// The joined text, or the refusal. The slice is lent on as the one for the text.
pub fn join(left: &[u8], right: &[u8], out: &mut [u8]) -> usize
    ensures prints { ◌≡◌ {A = Laid} (record { slice = out.new; count = result })
        (laid out.old
        (join_prints (length out.old) left.now right.now)) }
    ensures fits { line_limit ≤ length out.old → length (join_prints (length out.old)
        left.now right.now) ≤ length out.old }
{
    match operations::join(PROGRAM_TICK, left, right, out) {
        Ok(n) => n,
        Err(f) => printed_lines::put_refusal(out, 0, f),
    }
}
