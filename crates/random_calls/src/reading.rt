// Reading: what is read of a text, against the enumerator and against what is known of the text since it was written.
use super::tally::{Answer, Tally, add, answered};
use enumerator::late::{has_late, has_overridden};
use enumerator::parallel::has_parallel;
use enumerator::records::same_constants;
use enumerator::safe::{Reading, read};
use random_texts::{Pen, Shape};
use reader_record::Text;
use refusals::Refusal;

// The tick length at which a text is written in ticks.
const IN_TICKS: usize = 1;

// Up to this code all that reading finds in a text that is not damaged is known since it was written, but for this one.
const OTHER_MARK: usize = 8;

// Whether an answer of reading is the one that is known of a text since it was written (SPECIFICATION 4.5). Of a tick length
// out of range, which is judged before, the enumerator knows.
fn is_known(answer: &Answer, p: &Pen) -> bool {
    match (answer, p.known) {
        (Err(Refusal::TickOutOfRange(..)), _) => true,
        (Err(f), None) => OTHER_MARK <= f.code(),
        (Err(f), Some(known)) => *f == known,
        (Ok(_), known) => known.is_none(),
    }
}

// Whether a record has the counts of a text that was written.
fn has_counts(t: &Text, g: &Shape, p: &Pen) -> bool {
    t.channel_count == g.channels()
        && t.clock_count == g.clocks()
        && t.location_count == g.locations()
        && t.edge_count == p.edges
}

// What reading answers.
fn answer_of(r: &Result<Reading, Refusal>) -> Answer {
    match r {
        Ok(r) => Ok(answered(r.states)),
        Err(f) => Err(*f),
    }
}

// Whether nothing is read beside a refusal: the empty record and the number 0 (SPECIFICATION 12.1).
fn is_nothing(answer: &Result<clocks_read::Reading, Refusal>) -> bool {
    let t = clocks_read::text_in(answer);
    t.channel_count == 0
        && t.clock_count == 0
        && t.location_count == 0
        && t.edge_count == 0
        && clocks_read::states_in(answer) == 0
}

// Counts what an accepted text has.
fn count_text(r: &Reading, tally: &mut Tally) {
    add(&mut tally.parallel, has_parallel(r));
    add(&mut tally.late, has_late(&r.text));
    add(&mut tally.overridden, has_overridden(&r.text));
}

// Whether what is read of a text has the constants that the enumerator has, and, if the text is not damaged, the counts of
// the one that was written.
fn is_right(r: &Result<Reading, Refusal>, t: &Text, g: &Shape, p: &Pen, is_damaged: bool) -> bool {
    match r {
        Ok(r) => (is_damaged || has_counts(t, g, p)) && same_constants(t, &r.text),
        Err(_) => false,
    }
}

// Reading: the answer, the number of states, the counts of the record, those of the empty one beside a refusal, and its
// constants, which are those that the enumerator has.
pub fn read_case(
    period: usize,
    text: &[u8],
    g: &Shape,
    p: &Pen,
    is_damaged: bool,
    tally: &mut Tally,
) {
    let r = read(period, text);
    let expected = answer_of(&r);
    if let Ok(r) = &r {
        count_text(r, tally);
    }
    let answer = operations::read(period, text);
    let (got, made) = match &answer {
        Ok(own) => (
            Ok(answered(own.states)),
            is_right(&r, &own.text, g, p, is_damaged),
        ),
        Err(f) => (Err(*f), is_nothing(&answer)),
    };
    let known = is_damaged || is_known(&got, p);
    tally.count_call(&expected, made && known && expected == got);
}

// A text in milliseconds and the same text in ticks, of both of which no refusal is known, have the same constants. What
// rests on what: the numerals of the first were made from ticks by adding, in crate random_texts, and the reader's rounding
// makes ticks of them again; the second is read at tick length 1, where a constant is its numeral's value (SPECIFICATION
// 4.7). So the rounding is held against arithmetic that is not the reader's, and what the enumerator says of a record, whose
// constants come from the reader, is what it would say of the text in ticks.
pub fn rounding_case(g: &Shape, text: &[u8], p: &Pen, ticks: &[u8], q: &Pen, tally: &mut Tally) {
    if g.period == IN_TICKS || p.known.is_some() || q.known.is_some() {
        return;
    }
    let is_right = match (
        reader::parse(g.period, text),
        reader::parse(IN_TICKS, ticks),
    ) {
        (Ok(t), Ok(u)) => same_constants(&t, &u),
        (t, u) => t.is_err() && u.is_err(),
    };
    add(&mut tally.rounded, true);
    add(&mut tally.differences, !is_right);
}
