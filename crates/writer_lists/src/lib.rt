// The lists of a text put into a slice (SPECIFICATION 18.7): channels, clocks, locations and edges. A list without
// items is left out. Each function puts tokens at a place and returns the place behind them.
#![tactic(auto)]

ghost use Rattle.std.specs.Prelude.{◌≤◌, ◌<◌};
ghost use Rattle.limits.specs.Limits.{channel_limit};
ghost use Rattle.written.specs.Written.{location_tokens};
ghost use Rattle.written.specs.Written.{channel_list, clock_list, location_list, edge_list};
ghost use Rattle.writer_tokens.specs.Tokens.{PutsTokens};
ghost use Rattle.written_names.specs.Inside.{names_in, NamesInside};
ghost use Rattle.writer_lists.specs.Lists.{LocationsWithin, TextWithin};

use limits::CHANNEL_LIMIT;
use reader_record::{Channel, Text};
use writer_parts::{put_channel, put_edge, put_location};
use writer_tokens::{CLOCK, put_named, put_token};

// The first `count` channels, with their names in the text s.
pub fn put_channels(
    out: &mut [u8],
    at: usize,
    s: &[u8],
    channels: [Channel; CHANNEL_LIMIT],
    count: usize,
) -> usize
    requires { (count ≤ channel_limit) × NamesInside s.now channels count }
    ensures { PutsTokens out.old at (channel_list (names_in s.now channels count) count)
        out.new result }
{
    if count == 0 {
        return at;
    }
    let word = put_token(out, at, b"broadcast");
    let start = put_token(out, word, b"chan");
    let mut place = put_channel(out, start, s, channels, count, 0);
    for i in 1..count {
        let comma = put_token(out, place, b",");
        place = put_channel(out, comma, s, channels, count, i);
    }
    put_token(out, place, b";")
}

// So many clocks.
pub fn put_clocks(out: &mut [u8], at: usize, u: usize, count: usize) -> usize
    ensures { PutsTokens out.old at (clock_list u count) out.new result }
{
    if count == 0 {
        return at;
    }
    let start = put_token(out, at, b"clock");
    let mut place = put_named(out, start, CLOCK, u, 0);
    for i in 1..count {
        let comma = put_token(out, place, b",");
        place = put_named(out, comma, CLOCK, u, i);
    }
    put_token(out, place, b";")
}

// Location i.
fn put_location_at(out: &mut [u8], at: usize, u: usize, t: Text, i: usize) -> usize
    requires { LocationsWithin t × (i < t.location_count) }
    ensures { PutsTokens out.old at (location_tokens u t i) out.new result }
{
    let l = t.locations[i];
    let g = l.invariant;
    put_location(out, at, u, i, g)
}

// The locations, each with its invariant.
pub fn put_locations(out: &mut [u8], at: usize, u: usize, t: Text) -> usize
    requires { LocationsWithin t }
    ensures { PutsTokens out.old at (location_list u t) out.new result }
{
    let count = t.location_count;
    if count == 0 {
        return at;
    }
    let start = put_token(out, at, b"state");
    let mut place = put_location_at(out, start, u, t, 0);
    for i in 1..count {
        let comma = put_token(out, place, b",");
        place = put_location_at(out, comma, u, t, i);
    }
    put_token(out, place, b";")
}

// The edges.
pub fn put_edges(out: &mut [u8], at: usize, s: &[u8], u: usize, t: Text) -> usize
    requires { TextWithin s.now t }
    ensures { PutsTokens out.old at
        (edge_list (names_in s.now t.channels t.channel_count) u t) out.new result }
{
    let count = t.edge_count;
    if count == 0 {
        return at;
    }
    let channels = t.channels;
    let declared = t.channel_count;
    let clocks = t.clock_count;
    let start = put_token(out, at, b"trans");
    let first = t.edges[0];
    let mut place = put_edge(out, start, s, channels, declared, u, clocks, first);
    for i in 1..count {
        let comma = put_token(out, place, b",");
        let e = t.edges[i];
        place = put_edge(out, comma, s, channels, declared, u, clocks, e);
    }
    put_token(out, place, b";")
}
