// Searches for a departure of left.xta from right.xta (SPECIFICATION 14.1): NO with its steps, YES with the widest
// table's count, or a refusal. Crate `printed` makes what is printed; this program reads the files and writes it out.
#![tactic(auto)]

ghost use Rattle.std.specs.Prelude.{◌≡◌, length};
ghost use Rattle.printed.specs.Room.{megzhoi_limit};

use printed::MEGZHOI_LIMIT;
use std::io;

// Room for everything that can be printed.
fn room() -> [u8; MEGZHOI_LIMIT]
    ensures { length result ≡ megzhoi_limit }
{
    programs::room()
}

fn main(rt: HostRuntime) -> io::Result<()> {
    let mut left = programs::text_room();
    let n = programs::read_file(&rt, b"left.xta", &mut left);
    let mut right = programs::text_room();
    let m = programs::read_file(&rt, b"right.xta", &mut right);
    let mut out = room();
    let size = printed::megzhoi(&left[..n], &right[..m], &mut out);
    programs::put(&rt, &out[..size])
}
