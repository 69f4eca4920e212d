// The tables that are given to the check: sets of pairs like the widest table, and their bytes.
use enumerator::packed::write_table;
use enumerator::pairs::Two;
use random_texts::pick;

// What is chosen of a table.
const FLIPS: usize = 6;

const HEADERS: usize = 7;

// So many pairs are flipped where many are.
const MANY: usize = 400;

// The bytes that every header has.
const LEAST_HEADER: usize = 7;

// Kinds of given tables: the widest one, one of another length, one with another header, and then with pairs flipped.
#[derive(Clone, Copy, PartialEq, Eq)]
pub enum Kind {
    Widest,
    OtherLength,
    OtherHeader,
    OneFlip,
    ManyFlips,
}

// All kinds, in the order in which pairs are flipped.
pub const KINDS: [Kind; 5] = [
    Kind::Widest,
    Kind::OtherLength,
    Kind::OtherHeader,
    Kind::OneFlip,
    Kind::ManyFlips,
];

// Flips n of the pairs of a set.
fn flip(set: &mut [bool], seed: u32, n: usize) {
    for k in 0..n {
        if let Some(is_in) = set.get_mut(pick(seed, FLIPS, k, 0, set.len())) {
            *is_in = !*is_in;
        }
    }
}

// Flips as many pairs as a kind of tables asks for. Where there are many the start pair is set.
pub fn change_pairs(set: &mut [bool], w: &Two, seed: u32, kind: Kind) {
    match kind {
        Kind::OneFlip => flip(set, seed, 1),
        Kind::ManyFlips => {
            flip(set, seed, MANY);
            if let Some(is_in) = set.get_mut(w.start()) {
                *is_in = true;
            }
        }
        _ => {}
    }
}

// Whether the padding of a kind's tables is 1 (SPECIFICATION 11.3).
fn padding_of(kind: Kind) -> bool {
    matches!(kind, Kind::OtherLength | Kind::OneFlip)
}

// A table of a kind.
pub fn make_given(set: &[bool], w: &Two, seed: u32, kind: Kind, table: &mut [u8]) {
    write_table(set, w, padding_of(kind), table);
    if kind == Kind::OtherHeader {
        if let Some(byte) = table.get_mut(pick(seed, HEADERS, 0, 0, LEAST_HEADER)) {
            *byte = byte.wrapping_add(1);
        }
    }
}

// The number of a kind, which its seeds depend on.
pub fn number_of(kind: Kind) -> usize {
    kind as usize
}

// The length of a table that is given for the table of n bytes, of a kind, and so many bytes where it is another one.
pub fn given_length(kind: Kind, n: usize, other: usize) -> usize {
    if kind == Kind::OtherLength { other } else { n }
}
