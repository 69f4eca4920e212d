// Calls of join at a tick length with long, exact and short slices, and what the enumerator says of each (SPECIFICATION
// 12.10, 18): the answer, every byte of the slice, the joined text byte for byte, and its meaning once it is read again.
// Proved safe and ending, no more.
#![tactic(auto)]

use enumerator::pairs::{Two, judge_two, two_of};
use enumerator::parallel::joins_parallel;
use enumerator::safe::Reading;
use enumerator_joins::bytes::is_joined;
use enumerator_joins::counts::Both;
use limits::{LARGEST_TEXT, SHORTEST_TICK};
use random_calls::tally::{Answer, Tally, add, answered};
use random_calls::texts::Texts;
use random_texts::pick;
use reader_record::Text;
use refusals::{File, Refusal};

// What every slice is lent with: a byte that no joined text has.
const FILLING: u8 = b'#';

// What is chosen of a call: half of the slices that nothing is to be written to are shorter than this, the others have
// any length.
const ROOMS: usize = 1;

const SHORT_ROOMS: usize = 2;

const LONG_ROOMS: usize = 3;

const EITHER: usize = 2;

const SHORT: usize = 64;

// Two accepted texts with equal channels.
#[derive(Clone, Copy)]
struct Accepted<'a, 'b> {
    texts: &'a Texts<'b>,
    a: &'a Reading,
    b: &'a Reading,
    two: &'a Two,
}

// Whether all bytes are as they were lent.
fn is_untouched(s: &[u8]) -> bool {
    s.iter().all(|byte| *byte == FILLING)
}

// The operation, with the first part of a slice.
fn join_call(texts: &Texts, bytes: usize, out: &mut [u8]) -> Answer {
    let k = bytes.min(out.len());
    let n = operations::join(texts.period, texts.left, texts.right, &mut out[..k])?;
    Ok(answered(n))
}

// A call that is refused leaves the slice as it came (SPECIFICATION 13.5).
fn refused_case(texts: &Texts, f: Refusal, bytes: usize, tally: &mut Tally) {
    let mut out = [FILLING; LARGEST_TEXT];
    let expected = Err(f);
    let got = join_call(texts, bytes, &mut out);
    tally.count_call(&expected, is_untouched(&out) && expected == got);
}

// The length of a slice to which nothing is to be written.
fn room(seed: u32) -> usize {
    if pick(seed, ROOMS, 0, 0, EITHER) == 0 {
        return pick(seed, SHORT_ROOMS, 0, 0, SHORT);
    }
    pick(seed, LONG_ROOMS, 0, 0, LARGEST_TEXT)
}

// Whether the first n steps have the same numbers in two texts.
fn is_in_order(w: &Two, n: usize) -> bool {
    (0..=n).all(|step| w.right_step(step) == Some(step))
}

// What the enumerator reads of a record of a text, of which the channels alone are looked at.
fn reading_of(text: Text) -> Result<Reading, Refusal> {
    Ok(Reading {
        text,
        ranges: [1, 1, 1],
        states: 0,
        start: 0,
    })
}

impl Accepted<'_, '_> {
    fn both(&self) -> Both<'_> {
        Both {
            left: &self.a.text,
            right: &self.b.text,
            two: self.two,
        }
    }

    // Whether a record of the text s has the channels of the left text, in the left's order and with its directions
    // (SPECIFICATION 17.10, 18.4).
    fn has_channels(&self, s: &[u8], joined: Text) -> bool {
        let read = reading_of(joined);
        let left = self.texts.left;
        judge_two(left, s, &self.texts.a, &read).is_ok()
            && is_in_order(
                &two_of(left, s, &self.texts.a, &read),
                self.a.text.channel_count,
            )
    }

    // Whether a text is read at tick length 1 and then has the states, the channels and the meaning of the joined text.
    fn is_read_right(&self, s: &[u8]) -> bool {
        match operations::read(SHORTEST_TICK, s) {
            Ok(read) => {
                read.states == self.both().states()
                    && self.has_channels(s, read.text)
                    && enumerator_joins::meaning::is_right(&read.text, self.a, self.b, self.two)
            }
            Err(_) => false,
        }
    }

    // Whether the first n bytes of a slice are the joined text, and those behind are as they were lent.
    fn is_written(&self, out: &[u8], n: usize) -> bool {
        match out.split_at_checked(n) {
            Some((text, rest)) => {
                is_untouched(rest)
                    && is_joined(text, self.texts.left, &self.both())
                    && self.is_read_right(text)
            }
            None => false,
        }
    }

    // A slice of exactly enough bytes: what is written is what was written before.
    fn exact_case(&self, want: &[u8], n: usize, tally: &mut Tally) {
        let mut out = [FILLING; LARGEST_TEXT];
        let expected = Ok(answered(n));
        let got = join_call(self.texts, n, &mut out);
        tally.count_call(&expected, &out[..] == want && expected == got);
    }

    // Counts a joined text, and whether it has parallel edges and late clocks.
    fn count_joined(&self, tally: &mut Tally) {
        add(&mut tally.joined, true);
        add(
            &mut tally.parallel_joined,
            joins_parallel(self.a, self.b, self.two),
        );
        add(&mut tally.late_joined, self.both().joins_late());
    }

    // A joined text that passes no limit: in a slice with room for every text, in one of its length, and in one that is a
    // byte too short (SPECIFICATION 18.9).
    fn written_cases(&self, tally: &mut Tally) {
        let mut out = [FILLING; LARGEST_TEXT];
        let got = join_call(self.texts, LARGEST_TEXT, &mut out);
        let n = match got {
            Ok(answer) => answer.number,
            Err(_) => 0,
        };
        let expected = Ok(answered(n));
        let made = self.is_written(&out, n);
        tally.count_call(&expected, made && expected == got);
        self.count_joined(tally);
        self.exact_case(&out, n, tally);
        let less = n.wrapping_sub(1);
        refused_case(self.texts, Refusal::OutTooShort(File::None, n), less, tally);
    }

    fn all(&self, seed: u32, tally: &mut Tally) {
        if self.both().passes_limit() {
            refused_case(
                self.texts,
                Refusal::LimitExceeded(File::None),
                room(seed),
                tally,
            );
            return;
        }
        self.written_cases(tally);
    }
}

// Join on two accepted texts with equal channels.
fn accepted_cases<'a, 'b>(
    texts: &'a Texts<'b>,
    a: &'a Reading,
    b: &'a Reading,
    two: &'a Two,
    seed: u32,
    tally: &mut Tally,
) {
    let accepted = Accepted { texts, a, b, two };
    accepted.all(seed, tally);
}

// Join on two texts.
pub fn join_cases(texts: &Texts, seed: u32, tally: &mut Tally) {
    match (texts.judge(), &texts.a, &texts.b) {
        (Ok(()), Ok(a), Ok(b)) => {
            let two = two_of(texts.left, texts.right, &texts.a, &texts.b);
            accepted_cases(texts, a, b, &two, seed, tally);
        }
        (Err(f), _, _) => refused_case(texts, f, room(seed), tally),
        // two texts of which one is refused are refused
        (Ok(()), _, _) => {}
    }
}
