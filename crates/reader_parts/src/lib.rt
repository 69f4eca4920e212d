// What each part of a contract text is read with: single tokens, names and their table. A stage takes the byte place
// that it starts at, or the fault that a stage before gave, and answers what it read with the place behind it, or the
// first fault (SPECIFICATION 4.6).
#![tactic(auto)]

ghost use Rattle.std.specs.Prelude.{◌≡◌, not, ◌+◌, ◌≤◌, length};
ghost use Rattle.reader_parts.specs.Slots.{name_slots};
ghost use Rattle.reader_parts.specs.Stages.{onward, take, ahead_of, name_next};
ghost use Rattle.reader_parts.specs.SoFar.{beside, name_so_far};
ghost use Rattle.reader_parts.specs.Names.{differs, slot_of, declare, use_name};
ghost use Rattle.limits.specs.Limits.{largest_text};

use limits::{CHANNEL_LIMIT, CLOCK_LIMIT, LARGEST_NAME, LOCATION_LIMIT};
use reader_record::Name;

// The table of names: each kind has slots of its own.
pub const PROCESS_SLOT: usize = 0;

pub const PROCESS_LIMIT: usize = 1;

pub const FIRST_CHANNEL: usize = PROCESS_SLOT + PROCESS_LIMIT;

pub const FIRST_CLOCK: usize = FIRST_CHANNEL + CHANNEL_LIMIT;

pub const FIRST_LOCATION: usize = FIRST_CLOCK + CLOCK_LIMIT;

pub const NAME_SLOTS: usize = FIRST_LOCATION + LOCATION_LIMIT;

// Why a text is refused, with the byte place (SPECIFICATION 4.5). The crate `reader` gives the code of each.
#[derive(Clone, Copy, PartialEq, Eq, Debug)]
pub enum Fault {
    TooLong,
    Misfit(usize),
    NameTooLong(usize),
    Declared(usize),
    Unknown(usize),
    TooLarge(usize),
    TooManyItems(usize),
    OtherMark(usize),
}

// The first fault, and what was read before it.
#[derive(Clone, Copy, PartialEq, Eq, Debug)]
pub struct Stopped<T> {
    pub fault: Fault,
    pub read: T,
}

// The fault alone, where what was read before it does not matter.
impl<T: Copy> From<Stopped<T>> for Fault {
    ghost from_gives = { λ e f. f ≡ e.fault };

    fn from(e: Stopped<T>) -> Fault {
        e.fault
    }
}

// What a stage answers, with what was read before its fault beside it.
pub fn beside<A, T: Copy>(read: T, answer: Result<A, Fault>) -> Result<A, Stopped<T>>
    ensures { result ≡ beside read answer }
{
    match answer {
        Ok(a) => Ok(a),
        Err(fault) => Err(Stopped { fault, read }),
    }
}

// The place behind the next token, which has to be of the kind k: else code 2 (SPECIFICATION 4.5). A fault of the
// stage before stays.
#[tactic(auto, unfolding(crate::specs::Stages::take))]
pub fn take(s: &[u8], at: Result<usize, Fault>, k: usize) -> Result<usize, Fault>
    ensures { result ≡ onward (λ p. take s.now p k) at }
{
    let t = reader_scanner::scan(s, at?);
    if t.kind == k {
        Ok(t.end)
    } else {
        Err(Fault::Misfit(t.place))
    }
}

// Whether the next token is of the kind k; after a fault of the stage before, none is.
#[tactic(auto, unfolding(crate::specs::Stages::ahead))]
pub fn ahead(s: &[u8], at: Result<usize, Fault>, k: usize) -> bool
    ensures { result ≡ ahead_of s.now at k }
{
    match at {
        Ok(p) => reader_scanner::scan(s, p).kind == k,
        Err(_) => false,
    }
}

// A name that is read, and the place behind it.
#[derive(Clone, Copy, PartialEq, Eq)]
pub struct NameRead {
    pub name: Name,
    pub end: usize,
}

// The next token, which has to be a name: else code 2, and 3 where it is too long (SPECIFICATION 4.5). A
// fault of the stage before stays.
#[tactic(auto, using(reader_tokens::specs::Spans::found_spans), unfolding(crate::specs::Stages::name_next, crate::specs::Stages::name_of))]
pub fn name_next(s: &[u8], at: Result<usize, Fault>) -> Result<NameRead, Fault>
    requires { length s.now ≤ largest_text }
    ensures { result ≡ onward (name_next s.now) at }
{
    let p = at?;
    let t = reader_scanner::scan(s, p);
    if t.kind != reader_tokens::NAME {
        return Err(Fault::Misfit(t.place));
    }
    let len = t.end - t.place;
    if LARGEST_NAME < len {
        return Err(Fault::NameTooLong(t.place));
    }
    let name = Name {
        place: t.place as u16,
        len: len as u8,
    };
    Ok(NameRead { name, end: t.end })
}

// Whether the name n is spelled as w.
#[tactic(auto, unfolding(crate::specs::Names::differs))]
fn is_spelled_as(s: &[u8], n: Name, w: Name) -> bool
    ensures { differs s.now w n ≡ not result }
{
    let (at, place) = (n.place as usize, w.place as usize);
    reader_tokens::is_same(s, at, n.len as usize, s, place, w.len as usize)
}

// The slot of a declared name, NAME_SLOTS where it is not declared.
#[tactic(auto, using(reader_tokens::proofs::Scan::past_yes, reader_tokens::proofs::Scan::past_no, reader_tokens::proofs::Scan::past_end), unfolding(crate::specs::Names::slot_of))]
pub fn find(s: &[u8], names: &[Name; NAME_SLOTS], name: Name) -> usize
    ensures { result ≡ slot_of s.now names.now name }
{
    for (i, n) in names.iter().enumerate() {
        if is_spelled_as(s, *n, name) {
            return i;
        }
    }
    NAME_SLOTS
}

// A name that is declared, the table with it, and the place behind it.
#[derive(Clone, Copy)]
pub struct Declaration {
    pub names: [Name; NAME_SLOTS],
    pub name: Name,
    pub end: usize,
}

// A name that is declared here: number `number` of those in the `limit` slots from `first` on. Code 4 where it is
// declared before, and 7 where it is one too many (SPECIFICATION 4.5). A fault of the stage before stays. Beside a
// fault stands the name that code 4 or 7 is about, and beside any other one the name of no bytes.
#[tactic(auto, unfolding(crate::specs::Names::declare, crate::specs::Names::declare_name, crate::specs::SoFar::name_so_far))]
pub fn declare(
    s: &[u8],
    at: Result<usize, Fault>,
    names: &[Name; NAME_SLOTS],
    first: usize,
    number: usize,
    limit: usize,
) -> Result<Declaration, Stopped<Name>>
    requires { (first + limit ≤ name_slots) × (length s.now ≤ largest_text) }
    ensures { result ≡ beside (name_so_far s.now at) (onward (λ p. declare s.now p names.now first number limit) at) }
{
    let read = beside(Name { place: 0, len: 0 }, name_next(s, at))?;
    let name = read.name;
    let place = name.place as usize;
    if find(s, names, name) < NAME_SLOTS {
        return beside(name, Err(Fault::Declared(place)));
    }
    if limit <= number {
        return beside(name, Err(Fault::TooManyItems(place)));
    }
    let mut all = *names;
    all[first + number] = name;
    Ok(Declaration {
        names: all,
        name,
        end: read.end,
    })
}

// A used name: its number among its kind, its byte place, and the place behind it.
#[derive(Clone, Copy, PartialEq, Eq)]
pub struct Use {
    pub number: usize,
    pub place: usize,
    pub end: usize,
}

// A name that has to be declared, in one of the `limit` slots from `first` on: else code 5. `over`: it is one too many,
// which is code 7 (SPECIFICATION 4.5). A fault of the stage before stays.
#[tactic(auto, unfolding(crate::specs::Names::use_name, crate::specs::Names::use_of))]
pub fn use_name(
    s: &[u8],
    at: Result<usize, Fault>,
    names: &[Name; NAME_SLOTS],
    first: usize,
    limit: usize,
    over: bool,
) -> Result<Use, Fault>
    requires { (first + limit ≤ name_slots) × (length s.now ≤ largest_text) }
    ensures { result ≡ onward (λ p. use_name s.now p names.now first limit over) at }
{
    let read = name_next(s, at)?;
    let place = read.name.place as usize;
    let i = find(s, names, read.name);
    if i < first || first + limit <= i {
        return Err(Fault::Unknown(place));
    }
    if over {
        return Err(Fault::TooManyItems(place));
    }
    Ok(Use {
        number: i - first,
        place,
        end: read.end,
    })
}
