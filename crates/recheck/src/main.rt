// Checks table.pbm against left.xta and right.xta: prints ACCEPTED and the number of pairs, or the refusal
// (SPECIFICATION 14.5). Crate `printed` makes what is printed; this program reads the files and writes it out.
#![tactic(auto)]

ghost use Rattle.std.specs.Prelude.{◌≡◌, ◌+◌, length};
ghost use Rattle.tables_header.specs.Header.{table_limit};

use printed_lines::LINE_LIMIT;
use std::io;
use tables_header::TABLE_LIMIT;

// Room for every table that two texts can have, and one byte more, so that a longer file is seen to be longer.
const ROOM: usize = TABLE_LIMIT + 1;

fn room() -> [u8; ROOM]
    ensures { length result ≡ table_limit + 1 }
{
    programs::room()
}

fn main(rt: HostRuntime) -> io::Result<()> {
    let mut left = programs::text_room();
    let n = programs::read_file(&rt, b"left.xta", &mut left);
    let mut right = programs::text_room();
    let m = programs::read_file(&rt, b"right.xta", &mut right);
    let mut table = room();
    let k = programs::read_file(&rt, b"table.pbm", &mut table);
    let mut out = [0u8; LINE_LIMIT];
    let size = printed::recheck(&left[..n], &right[..m], &table[..k], &mut out);
    programs::put(&rt, &out[..size])
}
