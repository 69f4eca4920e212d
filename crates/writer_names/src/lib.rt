// How many underscores the names stand behind that are made for a text (SPECIFICATION 18.6). No name is written to find
// that out: the bytes of each channel's name are compared, from the last one on, with those of a name that is made.
#![tactic(auto)]

ghost use Rattle.std.specs.Prelude.{◌≡◌, [], ◌∷◌, ◌++◌, ◌+◌, ◌≤◌, length, replicate};
ghost use Rattle.systems.specs.Tests.{any};
ghost use Rattle.limits.specs.Limits.{channel_limit};
ghost use Rattle.written.specs.Underscores.{clashes, underscores};
ghost use Rattle.writer_tokens.specs.Tokens.{underscore, called_by};
ghost use Rattle.written_names.specs.Inside.{names_in, NamesInside};
ghost use Rattle.writer_names.specs.Names.{part, is_word, is_last, is_taken};

use limits::CHANNEL_LIMIT;
use reader_record::Channel;
use writer_tokens::{CLOCK, LOCATION, ONLY_PROCESS, PROCESS, UNDERSCORE};

// The base of the numbers in names, and the first digit.
const TEN: usize = 10;

const ZERO: u8 = b'0';

// Whether b is the last of len bytes from `place` on. Where len is 0 it is not.
#[tactic(auto, unfolding(crate::specs::Names::is_last))]
fn is_last(s: &[u8], place: usize, len: usize, b: u8) -> bool
    requires { place + len ≤ length s.now }
    ensures { result ≡ is_last s.now place len b }
{
    if len == 0 {
        return false;
    }
    s[place + (len - 1)] == b
}

// Whether the bytes are u underscores.
fn are_underscores(s: &[u8], place: usize, len: usize, u: usize) -> bool
    requires { place + len ≤ length s.now }
    ensures { result ≡ is_word (part s.now place len) (replicate u underscore) }
{
    if len != u {
        return false;
    }
    for left in (0..len).rev() {
        if !is_last(s, place, left + 1, UNDERSCORE) {
            return false;
        }
    }
    true
}

// Whether the bytes are u underscores and the letter.
fn is_lettered(s: &[u8], place: usize, len: usize, letter: u8, u: usize) -> bool
    requires { place + len ≤ length s.now }
    ensures { result ≡ is_word (part s.now place len) (replicate u underscore ++ (letter ∷ [])) }
{
    if !is_last(s, place, len, letter) {
        return false;
    }
    are_underscores(s, place, len - 1, u)
}

// Whether the bytes are name i with that letter, behind u underscores.
fn is_called(s: &[u8], place: usize, len: usize, letter: u8, u: usize, i: usize) -> bool
    requires { place + len ≤ length s.now }
    ensures { result ≡ is_word (part s.now place len) (called_by letter u i) }
{
    let digit = ZERO + (i % TEN) as u8;
    if !is_last(s, place, len, digit) {
        return false;
    }
    if i < TEN {
        return is_lettered(s, place, len - 1, letter, u);
    }
    is_called(s, place, len - 1, letter, u, i / TEN)
}

// Whether name i with that letter, behind u underscores, is a channel's.
fn is_taken(
    s: &[u8],
    channels: [Channel; CHANNEL_LIMIT],
    count: usize,
    letter: u8,
    u: usize,
    i: usize,
) -> bool
    requires { (count ≤ channel_limit) × NamesInside s.now channels count }
    ensures { result ≡ is_taken s.now channels count letter u i }
{
    for k in 0..count {
        let name = channels[k].name;
        if is_called(s, name.place as usize, name.len as usize, letter, u, i) {
            return true;
        }
    }
    false
}

// Whether one of the first n names with that letter is a channel's.
fn is_any_taken(
    s: &[u8],
    channels: [Channel; CHANNEL_LIMIT],
    count: usize,
    letter: u8,
    u: usize,
    n: usize,
) -> bool
    requires { (count ≤ channel_limit) × NamesInside s.now channels count }
    ensures { result ≡ any n (is_taken s.now channels count letter u) }
{
    for i in 0..n {
        if is_taken(s, channels, count, letter, u, i) {
            return true;
        }
    }
    false
}

// Whether with u underscores a name that is written is a channel's.
#[tactic(auto, unfolding(written::specs::Underscores::clashes, written::specs::Written::called))]
fn does_clash(
    s: &[u8],
    channels: [Channel; CHANNEL_LIMIT],
    count: usize,
    clocks: usize,
    locations: usize,
    u: usize,
) -> bool
    requires { (count ≤ channel_limit) × NamesInside s.now channels count }
    ensures { result ≡ clashes (names_in s.now channels count) count clocks locations u }
{
    is_taken(s, channels, count, PROCESS, u, ONLY_PROCESS)
        || is_any_taken(s, channels, count, CLOCK, u, clocks)
        || is_any_taken(s, channels, count, LOCATION, u, locations)
}

// The fewest underscores with which no name that is written is a channel's.
pub fn underscores(
    s: &[u8],
    channels: [Channel; CHANNEL_LIMIT],
    count: usize,
    clocks: usize,
    locations: usize,
) -> usize
    requires { (count ≤ channel_limit) × NamesInside s.now channels count }
    ensures { result ≡ underscores (names_in s.now channels count) count clocks locations }
{
    for u in 0..count + 1 {
        if !does_clash(s, channels, count, clocks, locations, u) {
            return u;
        }
    }
    count + 1
}
