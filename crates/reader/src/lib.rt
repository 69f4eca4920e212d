// Reads a contract text into its record (SPECIFICATION 5.1) at a tick length, `period`, or refuses it with code 24
// (SPECIFICATION 4.7) or one of the codes 1 to 8 (SPECIFICATION 4.5).
#![tactic(auto)]

ghost use Rattle.std.specs.Prelude.{◌≡◌, ◌≤◌, length};
ghost use Rattle.reader_lists.specs.Heads.{no_edges, before_edges, with_rest, ReadsHead, ReadsEdges};
ghost use Rattle.reader.specs.Reading.{start, channel_part, process_read, clock_part, location_part, init_read};
ghost use Rattle.reader.specs.Reading.{edge_part, end_read, read_whole, text_of, record_of, read_text};
ghost use Rattle.reader.specs.Parts.{head_of, read_head};
ghost use Rattle.reader.specs.Faults.{refusal_of};
ghost use Rattle.limits.specs.Limits.{TickLength, largest_text};

use limits::{CHANNEL_LIMIT, LARGEST_TEXT, LOCATION_LIMIT};
use reader_lists::{EdgesRead, HeadRead, Named};
use reader_parts::{
    Declaration, FIRST_LOCATION, Fault, NAME_SLOTS, PROCESS_LIMIT, PROCESS_SLOT, Use,
};
use reader_record::{Channel, Name, Text};
use refusals::{File, Refusal};

// Nothing is read and nothing is declared.
#[tactic(auto, unfolding(crate::specs::Reading::start))]
fn start() -> HeadRead
    ensures { with_rest result 0 no_edges 0 ≡ start }
{
    let name = Name { place: 0, len: 0 };
    HeadRead {
        names: [name; NAME_SLOTS],
        head: reader_lists::no_head(),
        end: 0,
    }
}

// The channels, where there are any (SPECIFICATION 3.1).
fn channel_part(period: usize, s: &[u8], r: HeadRead) -> Result<HeadRead, Fault>
    requires { TickLength period × (length s.now ≤ largest_text) }
    ensures { ReadsHead (channel_part period s.now) r result }
{
    if !reader_parts::ahead(s, Ok(r.end), reader_tokens::BROADCAST) {
        return Ok(r);
    }
    let a = reader_parts::take(s, Ok(r.end), reader_tokens::BROADCAST)?;
    let b = reader_parts::take(s, Ok(a), reader_tokens::CHAN)?;
    Ok(reader_lists::named_items(period, s, Ok(b), r, Named::Channel)?)
}

// The process and its name (SPECIFICATION 3.1).
#[tactic(auto, unfolding(crate::specs::Reading::process_read))]
fn process_part(s: &[u8], p: usize, names: &[Name; NAME_SLOTS]) -> Result<Declaration, Fault>
    requires { length s.now ≤ largest_text }
    ensures { result ≡ process_read s.now p names.now }
{
    let a = reader_parts::take(s, Ok(p), reader_tokens::PROCESS)?;
    let d = reader_parts::declare(s, Ok(a), names, PROCESS_SLOT, 0, PROCESS_LIMIT)?;
    let b = reader_parts::take(s, Ok(d.end), reader_tokens::LEFT)?;
    let c = reader_parts::take(s, Ok(b), reader_tokens::RIGHT)?;
    let end = reader_parts::take(s, Ok(c), reader_tokens::OPEN)?;
    let names = d.names;
    Ok(Declaration {
        names,
        name: d.name,
        end,
    })
}

// The clocks, where there are any (SPECIFICATION 3.1).
fn clock_part(period: usize, s: &[u8], r: HeadRead) -> Result<HeadRead, Fault>
    requires { TickLength period × (length s.now ≤ largest_text) }
    ensures { ReadsHead (clock_part period s.now) r result }
{
    if !reader_parts::ahead(s, Ok(r.end), reader_tokens::CLOCK) {
        return Ok(r);
    }
    let a = reader_parts::take(s, Ok(r.end), reader_tokens::CLOCK)?;
    Ok(reader_lists::named_items(period, s, Ok(a), r, Named::Clock)?)
}

// The locations (SPECIFICATION 3.1).
fn location_part(period: usize, s: &[u8], r: HeadRead) -> Result<HeadRead, Fault>
    requires { TickLength period × (length s.now ≤ largest_text) }
    ensures { ReadsHead (location_part period s.now) r result }
{
    let a = reader_parts::take(s, Ok(r.end), reader_tokens::STATE)?;
    Ok(reader_lists::named_items(period, s, Ok(a), r, Named::Location)?)
}

// The parts before `init`.
fn read_head(period: usize, s: &[u8]) -> Result<HeadRead, Fault>
    requires { TickLength period × (length s.now ≤ largest_text) }
    ensures { read_head period s.now ≡ head_of result }
{
    let a = channel_part(period, s, start())?;
    let d = process_part(s, a.end, &a.names)?;
    let names = d.names;
    let b = HeadRead {
        names,
        head: a.head,
        end: d.end,
    };
    let c = clock_part(period, s, b)?;
    location_part(period, s, c)
}

// The start (SPECIFICATION 3.1).
#[tactic(auto, unfolding(crate::specs::Reading::init_read))]
fn init_part(s: &[u8], p: usize, names: &[Name; NAME_SLOTS]) -> Result<Use, Fault>
    requires { length s.now ≤ largest_text }
    ensures { result ≡ init_read s.now p names.now }
{
    let a = reader_parts::take(s, Ok(p), reader_tokens::INIT)?;
    let u = reader_parts::use_name(s, Ok(a), names, FIRST_LOCATION, LOCATION_LIMIT, false)?;
    let end = reader_parts::take(s, Ok(u.end), reader_tokens::SEMICOLON)?;
    Ok(Use {
        number: u.number,
        place: u.place,
        end,
    })
}

// The edges, where there are any (SPECIFICATION 3.1).
fn edge_part(
    period: usize,
    s: &[u8],
    p: usize,
    names: &[Name; NAME_SLOTS],
    channels: [Channel; CHANNEL_LIMIT],
) -> Result<EdgesRead, Fault>
    requires { TickLength period × (length s.now ≤ largest_text) }
    ensures { ReadsEdges (edge_part period s.now) names.now (before_edges p channels) result }
{
    if !reader_parts::ahead(s, Ok(p), reader_tokens::TRANS) {
        return reader_lists::no_edges(Ok(p), channels);
    }
    let a = reader_parts::take(s, Ok(p), reader_tokens::TRANS)?;
    Ok(reader_lists::edges(period, s, Ok(a), names, channels)?)
}

// The name of the process again, and the end of the text (SPECIFICATION 3.1, 3.3).
#[tactic(auto, unfolding(crate::specs::Reading::end_read))]
fn end_part(s: &[u8], p: usize, names: &[Name; NAME_SLOTS]) -> Result<usize, Fault>
    requires { length s.now ≤ largest_text }
    ensures { result ≡ end_read s.now p names.now }
{
    let a = reader_parts::take(s, Ok(p), reader_tokens::CLOSE)?;
    let b = reader_parts::take(s, Ok(a), reader_tokens::SYSTEM)?;
    let u = reader_parts::use_name(s, Ok(b), names, PROCESS_SLOT, PROCESS_LIMIT, false)?;
    let c = reader_parts::take(s, Ok(u.end), reader_tokens::SEMICOLON)?;
    reader_parts::take(s, Ok(c), reader_tokens::END)
}

// The refusal for each reason to refuse a text (SPECIFICATION 13.1), which is taken for the left or only one.
#[tactic(auto, unfolding(crate::specs::Faults::refusal_of))]
fn refusal_of(f: Fault) -> Refusal
    ensures { result ≡ refusal_of f }
{
    match f {
        Fault::TooLong => Refusal::TextTooLong(File::Left),
        Fault::Misfit(p) => Refusal::Misfit(File::Left, p),
        Fault::NameTooLong(p) => Refusal::NameTooLong(File::Left, p),
        Fault::Declared(p) => Refusal::DeclaredBefore(File::Left, p),
        Fault::Unknown(p) => Refusal::UnknownName(File::Left, p),
        Fault::TooLarge(p) => Refusal::ConstantTooLarge(File::Left, p),
        Fault::TooManyItems(p) => Refusal::TooManyItems(File::Left, p),
        Fault::OtherMark(p) => Refusal::OtherMark(File::Left, p),
    }
}

// The parts in their order, and the record put together where all of them fit.
fn read_whole(period: usize, s: &[u8]) -> Result<Text, Fault>
    requires { TickLength period × (length s.now ≤ largest_text) }
    ensures { result ≡ text_of (read_whole period s.now) }
{
    let r = read_head(period, s)?;
    let h = r.head;
    let i = init_part(s, r.end, &r.names)?;
    let given = h.channels;
    let e = edge_part(period, s, i.end, &r.names, given)?;
    end_part(s, e.end, &r.names)?;
    let channels = e.channels;
    let clocks = h.clocks;
    let locations = h.locations;
    let edges = e.edges;
    Ok(Text {
        channels,
        channel_count: h.channel_count,
        clocks,
        clock_count: h.clock_count,
        locations,
        location_count: h.location_count,
        init: i.number,
        edges,
        edge_count: e.count,
    })
}

// The record of the text at a tick length, or its refusal: the operation read (SPECIFICATION 12.1) as far as code 8.
// Codes 9 to 11 are judged by the crates above, which know states and moves.
#[tactic(auto, unfolding(crate::specs::Reading::read_text), using(limits::specs::Laws::allowed_length))]
pub fn parse(period: usize, text: &[u8]) -> Result<Text, Refusal>
    ensures { result ≡ read_text period text.now }
{
    if !limits::is_tick_length(period) {
        return Err(Refusal::TickOutOfRange(File::None, period));
    }
    if LARGEST_TEXT < text.len() {
        return Err(refusal_of(Fault::TooLong));
    }
    match read_whole(period, text) {
        Ok(t) => Ok(t),
        Err(f) => Err(refusal_of(f)),
    }
}

// The record that parsing gives; beside a refusal it is the empty one (SPECIFICATION 12.1).
pub fn record_of(parsed: &Result<Text, Refusal>) -> Text
    ensures { result ≡ record_of parsed.now }
{
    match parsed {
        Ok(t) => *t,
        Err(_) => reader_lists::no_text(),
    }
}
