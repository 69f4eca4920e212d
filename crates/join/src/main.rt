// Writes the joined text of left.xta and right.xta to standard output, or prints the refusal (SPECIFICATION 14.8). Crate
// `printed_join` makes what is printed; this program reads the files and writes it out.
#![tactic(auto)]

ghost use Rattle.std.specs.Prelude.{◌≡◌, length};
ghost use Rattle.printed_join.specs.Prints.{join_room};

use limits::LARGEST_TEXT;
use std::io;

// Room for the longest text.
fn room() -> [u8; LARGEST_TEXT]
    ensures { length result ≡ join_room }
{
    programs::room()
}

fn main(rt: HostRuntime) -> io::Result<()> {
    let mut left = programs::text_room();
    let n = programs::read_file(&rt, b"left.xta", &mut left);
    let mut right = programs::text_room();
    let m = programs::read_file(&rt, b"right.xta", &mut right);
    let mut out = room();
    let size = printed_join::join(&left[..n], &right[..m], &mut out);
    programs::put(&rt, &out[..size])
}
