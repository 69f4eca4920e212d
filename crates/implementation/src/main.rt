// Says whether left.xta is an implementation: prints YES, or the refusal (SPECIFICATION 14.7). Crate `printed` makes what
// is printed; this program reads the file and writes it out.
#![tactic(auto)]

use printed_lines::LINE_LIMIT;
use std::io;

fn main(rt: HostRuntime) -> io::Result<()> {
    let mut left = programs::text_room();
    let n = programs::read_file(&rt, b"left.xta", &mut left);
    let mut out = [0u8; LINE_LIMIT];
    let size = printed::implementation(&left[..n], &mut out);
    programs::put(&rt, &out[..size])
}
