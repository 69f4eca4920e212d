// The slices that are lent: how long they are, the noise in them, and whether they are as they must be after an answer.
use super::tally::Answer;
use enumerator::moves::Row;
use enumerator::numbers::plus;
use enumerator::packed::{bytes_for, keep_byte, table_length};
use enumerator::pairs::{PAIRS, Two};
use random_texts::{part, pick};
use refusals::{File, Refusal};

// What is lent is the first part of slices of these lengths; back and line have an entry for each pair.
pub const KEEP_BYTES: usize = 80;

pub const TABLE_BYTES: usize = 2304;

pub const RUN_ENTRIES: usize = 16;

const BYTE_VALUES: u32 = 256;

// What is chosen of a call.
const KEEP: usize = 1;

const BACK: usize = 2;

const LINE: usize = 3;

const RUN: usize = 4;

const TABLE: usize = 5;

const LESS: usize = 8;

const MORE: usize = 9;

// Of so many slices two are too short and six exact; the others have fewer than so many entries to spare.
const LENGTH_ODDS: usize = 16;

const MOST_SPARE: usize = 6;

// From this code on in the order of judging keep is written; 24 is the first in that order (SPECIFICATION 13.3, 13.5).
const START_NOT_SAFE: usize = 17;

// The lengths of the slices that are lent.
#[derive(Clone, Copy)]
pub struct Lengths {
    pub keep: usize,
    pub back: usize,
    pub line: usize,
    pub run: usize,
    pub table: usize,
}

// The length of a slice of which `need` entries are needed: too short, exact or longer, and at most `most`.
fn length(seed: u32, what: usize, need: usize, most: usize) -> usize {
    let n = match pick(seed, what, 0, 0, LENGTH_ODDS) {
        0 => need.wrapping_sub(1),
        1 => pick(seed, what, LESS, 0, need),
        2..=7 => need,
        _ => plus(need, pick(seed, what, MORE, 0, MOST_SPARE)),
    };
    n.min(most)
}

// The length of a keep for n states.
pub fn keep_length(n: usize, seed: u32) -> usize {
    length(seed, KEEP, bytes_for(n), KEEP_BYTES)
}

pub fn lengths_of(w: &Two, seed: u32) -> Lengths {
    Lengths {
        keep: keep_length(w.left_states, seed),
        back: length(seed, BACK, w.pairs(), PAIRS),
        line: length(seed, LINE, w.pairs(), PAIRS),
        run: pick(seed, RUN, 0, 0, RUN_ENTRIES),
        table: length(seed, TABLE, table_length(w), TABLE_BYTES),
    }
}

// Noise: bytes, and entries.
pub fn fill_bytes(s: &mut [u8], seed: u32) {
    for (i, byte) in s.iter_mut().enumerate() {
        *byte = (part(seed, i) % BYTE_VALUES) as u8;
    }
}

pub fn fill_entries(s: &mut [u32], seed: u32) {
    for (i, entry) in s.iter_mut().enumerate() {
        *entry = part(seed, i);
    }
}

// Whether an answer leaves every slice as it was lent (SPECIFICATION 13.5).
fn is_untouched(answer: &Answer) -> bool {
    match answer {
        Ok(_) => false,
        Err(Refusal::TickOutOfRange(..)) => true,
        Err(f) => f.code() < START_NOT_SAFE,
    }
}

// Whether keep, lent with noise, is as it must be after an answer: the safe states of a text's rows, or as it was
// (SPECIFICATION 8.4, 12.7, 13.5).
pub fn is_kept(keep: &[u8], rows: &[Row], answer: &Answer, seed: u32) -> bool {
    let mut want = [0; KEEP_BYTES];
    fill_bytes(&mut want, seed);
    if !is_untouched(answer) {
        for (k, byte) in want.iter_mut().take(bytes_for(rows.len())).enumerate() {
            *byte = keep_byte(rows, k);
        }
    }
    keep == &want[..]
}

// Whether entries are as they were lent.
pub fn is_noise(s: &[u32], seed: u32) -> bool {
    s.iter()
        .enumerate()
        .all(|(i, entry)| *entry == part(seed, i))
}

// Back and line are free on success and after 21; else they are as they were lent (SPECIFICATION 13.5).
pub fn queue_is_right(answer: &Answer, back: &[u32], line: &[u32], seed: u32) -> bool {
    match answer {
        Ok(_) | Err(Refusal::RunTooShort(..)) => true,
        Err(_) => is_noise(back, seed) && is_noise(line, seed),
    }
}

// What is refused of a keep of k bytes for n states.
pub fn judge_keep(n: usize, k: usize) -> Result<(), Refusal> {
    let need = bytes_for(n);
    if k < need {
        return Err(Refusal::KeepTooShort(File::None, need));
    }
    Ok(())
}
