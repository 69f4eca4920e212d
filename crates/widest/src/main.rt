// Writes the widest table of left.xta against right.xta to standard output as a PBM file, or prints the refusal
// (SPECIFICATION 14.5). Crate `printed` makes what is printed; this program reads the files and writes it out.
#![tactic(auto)]

ghost use Rattle.std.specs.Prelude.{◌≡◌, length};
ghost use Rattle.tables_header.specs.Header.{table_limit};

use std::io;
use tables_header::TABLE_LIMIT;

// Room for every table that two texts can have.
fn room() -> [u8; TABLE_LIMIT]
    ensures { length result ≡ table_limit }
{
    programs::room()
}

fn main(rt: HostRuntime) -> io::Result<()> {
    let mut left = programs::text_room();
    let n = programs::read_file(&rt, b"left.xta", &mut left);
    let mut right = programs::text_room();
    let m = programs::read_file(&rt, b"right.xta", &mut right);
    let mut out = room();
    let size = printed::widest(&left[..n], &right[..m], &mut out);
    programs::put(&rt, &out[..size])
}
