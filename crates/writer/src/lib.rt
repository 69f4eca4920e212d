// The whole text of a record put into a slice (SPECIFICATION 18.7).
#![tactic(auto)]

ghost use Rattle.byte_slices.specs.Put.{Puts};
ghost use Rattle.written.specs.Written.{written_with};
ghost use Rattle.written_names.specs.Spelled.{channel_spellings};
ghost use Rattle.writer_tokens.specs.Tokens.{PutsTokens};
ghost use Rattle.writer_lists.specs.Lists.{TextWithin};
ghost use Rattle.writer.specs.Whole.{process_part, init_part, end_part, text_but_last};

use byte_slices::put_bytes;
use reader_record::Text;
use writer_lists::{put_channels, put_clocks, put_edges, put_locations};
use writer_tokens::{LOCATION, ONLY_PROCESS, PROCESS, put_named, put_token};

// `process`, its name, and what opens its parts.
fn put_process(out: &mut [u8], at: usize, u: usize) -> usize
    ensures { PutsTokens out.old at (process_part u) out.new result }
{
    let word = put_token(out, at, b"process");
    let name = put_named(out, word, PROCESS, u, ONLY_PROCESS);
    let open = put_token(out, name, b"(");
    let close = put_token(out, open, b")");
    put_token(out, close, b"{")
}

// `init` and the start.
fn put_init(out: &mut [u8], at: usize, u: usize, init: usize) -> usize
    ensures { PutsTokens out.old at (init_part u init) out.new result }
{
    let word = put_token(out, at, b"init");
    let name = put_named(out, word, LOCATION, u, init);
    put_token(out, name, b";")
}

// The end of the text but for its last token.
fn put_end(out: &mut [u8], at: usize, u: usize) -> usize
    ensures { PutsTokens out.old at (end_part u) out.new result }
{
    let close = put_token(out, at, b"}");
    let word = put_token(out, close, b"system");
    put_named(out, word, PROCESS, u, ONLY_PROCESS)
}

// All tokens but the last.
fn put_but_last(out: &mut [u8], at: usize, s: &[u8], u: usize, t: Text) -> usize
    requires { TextWithin s.now t }
    ensures { PutsTokens out.old at (text_but_last (channel_spellings s.now t) u t)
        out.new result }
{
    let channels = t.channels;
    let declared = put_channels(out, at, s, channels, t.channel_count);
    let process = put_process(out, declared, u);
    let clocks = put_clocks(out, process, u, t.clock_count);
    let locations = put_locations(out, clocks, u, t);
    let init = put_init(out, locations, u, t.init);
    let edges = put_edges(out, init, s, u, t);
    put_end(out, edges, u)
}

// The text of the record t, whose channels have their names in the text s and whose other names stand behind u
// underscores.
pub fn put_text(out: &mut [u8], at: usize, s: &[u8], u: usize, t: Text) -> usize
    requires { TextWithin s.now t }
    ensures { Puts out.old at (written_with (channel_spellings s.now t) u t)
        out.new result }
{
    let place = put_but_last(out, at, s, u, t);
    put_bytes(out, place, b";\n")
}
