// The seven operations for callers in C and Rust (SPECIFICATION 15). A slice is a pointer and a length in entries. The
// answer is four numbers: the code, 0 for success, is returned, and the file mark, p and q are written. Three more
// functions say how long the slices are that a caller lends. `period` is the tick length in milliseconds, a whole
// machine word of which every value is answered (SPECIFICATION 4.7, 15.1).
#![tactic(auto)]

ghost use Rattle.std.specs.Prelude.{◌≡◌, length, ◌&&◌};
ghost use Rattle.clocks_read.specs.Reading.{read_outcome, text_in, states_in};
ghost use Rattle.refusals.specs.Answers.{answer_of};
ghost use Rattle.safe_states.specs.Outcome.{safe_outcome};
ghost use Rattle.implementation_check.specs.Outcome.{implementation_outcome};
ghost use Rattle.joining.specs.Outcome.{join_outcome};
ghost use Rattle.search.specs.Outcome.{Scratch};
ghost use Rattle.two_operations.specs.Outcome.{search_outcome, check_outcome, widest_outcome};
ghost use Rattle.megzhoi_c.specs.Returned.{four, success, refused, of_numbers, recorded};
ghost use Rattle.megzhoi_c.specs.Returned.{of_verdict, of_safe, of_search, of_check, of_widest, of_join};
ghost use Rattle.megzhoi_c.specs.Sizes.{possible, keep_needed, table_needed, queue_needed};

use clocks_read::Reading;
use limits::STATE_LIMIT;
use refusals::{File, Refusal};

// What a call returns: a refusal's code, file mark, p and q, or success, which is no refusal.
#[derive(Clone, Copy)]
pub struct Returned {
    pub code: usize,
    pub file: usize,
    pub p: usize,
    pub q: usize,
}

// The code of success, which no refusal has.
const SUCCESS: usize = 0;

// Success, with the two numbers that the call gives; it concerns no file.
fn succeeded(p: usize, q: usize) -> Returned
    ensures { result ≡ success p q }
{
    Returned {
        code: SUCCESS,
        file: File::None.mark(),
        p,
        q,
    }
}

// A refusal's own numbers.
fn refused(f: Refusal) -> Returned
    ensures { result ≡ refused f }
{
    Returned {
        code: f.code(),
        file: f.file().mark(),
        p: f.p(),
        q: f.q(),
    }
}

// What a call returns that gives two numbers, or a refusal.
#[tactic(auto, unfolding(crate::specs::Returned::of_numbers))]
fn numbers_of(a: Result<(usize, usize), Refusal>) -> Returned
    ensures { result ≡ of_numbers a }
{
    match a {
        Ok((p, q)) => succeeded(p, q),
        Err(f) => refused(f),
    }
}

// Hands out the four numbers of an answer.
fn hand_out(f: Returned, file: &mut usize, p: &mut usize, q: &mut usize) -> usize
    ensures { four result file.new p.new q.new ≡ f }
{
    *file = f.file;
    *p = f.p;
    *q = f.q;
    f.code
}

// Writes the record of a text that was read.
#[tactic(auto, unfolding(crate::specs::Returned::recorded))]
fn write_record(a: Result<Reading, Refusal>, out: &mut [usize])
    ensures { out.new ≡ recorded (answer_of a) (text_in a) (states_in a) out.old }
{
    if let Ok(reading) = a {
        reader_numbers::write(out, reading.text, reading.states);
    }
}

// Reads a text: p is the number of its states, and the record is written as far as `out` goes.
#[unsafe(no_mangle)]
pub extern "C" fn megzhoi_read(
    period: usize,
    text: &[u8],
    out: &mut [usize],
    file: &mut usize,
    p: &mut usize,
    q: &mut usize,
) -> usize
    ensures four_numbers { four result file.new p.new q.new ≡
        of_verdict (answer_of (read_outcome period text.now))
        (states_in (read_outcome period text.now)) }
    ensures out_after { out.new ≡ recorded (answer_of (read_outcome period text.now))
        (text_in (read_outcome period text.now)) (states_in (read_outcome period text.now))
        out.old }
{
    let answer = operations::read(period, text);
    write_record(answer, out);
    let f = numbers_of(answer.map(|reading| (reading.states, 0)));
    hand_out(f, file, p, q)
}

// Writes the bits of the safe states into keep: p is their count, q is 1 where the start is safe.
#[unsafe(no_mangle)]
pub extern "C" fn megzhoi_safe_states(
    period: usize,
    text: &[u8],
    keep: &mut [u8],
    file: &mut usize,
    p: &mut usize,
    q: &mut usize,
) -> usize
    ensures four_numbers { four result file.new p.new q.new ≡
        of_safe (safe_outcome period text.now keep.old).answer }
    ensures keep_after { keep.new ≡ (safe_outcome period text.now keep.old).keep }
{
    let answer = operations::safe_states(period, text, keep);
    let f = numbers_of(answer.map(|found| (found.count, found.start as usize)));
    hand_out(f, file, p, q)
}

// Says whether a text is an implementation: p is 0.
#[unsafe(no_mangle)]
pub extern "C" fn megzhoi_implementation(
    period: usize,
    text: &[u8],
    file: &mut usize,
    p: &mut usize,
    q: &mut usize,
) -> usize
    ensures { four result file.new p.new q.new ≡
        of_verdict (implementation_outcome period text.now) 0 }
{
    let answer = operations::implementation(period, text);
    let f = numbers_of(answer.map(|()| (0, 0)));
    hand_out(f, file, p, q)
}

// Searches for a shortest departure: p is n. The steps are in run; back and line are scratch.
#[unsafe(no_mangle)]
pub extern "C" fn megzhoi_search(
    period: usize,
    left: &[u8],
    right: &[u8],
    keep: &mut [u8],
    back: &mut [u32],
    line: &mut [u32],
    run: &mut [u32],
    file: &mut usize,
    p: &mut usize,
    q: &mut usize,
) -> usize
    ensures four_numbers { four result file.new p.new q.new ≡ of_search (search_outcome
        period left.now right.now keep.old (length back.old) (length line.old) run.old).answer }
    ensures keep_after { keep.new ≡
        (search_outcome period left.now right.now keep.old (length back.old)
        (length line.old) run.old).keep }
    ensures run_after { run.new ≡
        (search_outcome period left.now right.now keep.old (length back.old)
        (length line.old) run.old).run }
    ensures scratch { Scratch (search_outcome period left.now right.now keep.old (length back.old)
        (length line.old) run.old).answer
        back.old back.new line.old line.new }
{
    let answer = operations::search(period, left, right, keep, back, line, run);
    let f = numbers_of(answer.map(|n| (n, 0)));
    hand_out(f, file, p, q)
}

// Checks a given table: p is the number of pairs set.
#[unsafe(no_mangle)]
pub extern "C" fn megzhoi_check(
    period: usize,
    left: &[u8],
    right: &[u8],
    keep: &mut [u8],
    table: &[u8],
    file: &mut usize,
    p: &mut usize,
    q: &mut usize,
) -> usize
    ensures four_numbers { four result file.new p.new q.new ≡
        of_check (check_outcome period left.now right.now keep.old table.now).answer }
    ensures keep_after { keep.new ≡
        (check_outcome period left.now right.now keep.old table.now).keep }
{
    let answer = operations::check(period, left, right, keep, table);
    let f = numbers_of(answer.map(|count| (count, 0)));
    hand_out(f, file, p, q)
}

// Makes the widest table: p is the number of its pairs, q is 1 where the start pair is one.
#[unsafe(no_mangle)]
pub extern "C" fn megzhoi_widest(
    period: usize,
    left: &[u8],
    right: &[u8],
    keep: &mut [u8],
    table: &mut [u8],
    file: &mut usize,
    p: &mut usize,
    q: &mut usize,
) -> usize
    ensures four_numbers { four result file.new p.new q.new ≡
        of_widest (widest_outcome period left.now right.now keep.old table.old).answer }
    ensures keep_after { keep.new ≡
        (widest_outcome period left.now right.now keep.old
        table.old).keep }
    ensures table_after { table.new ≡
        (widest_outcome period left.now right.now keep.old
        table.old).table }
{
    let answer = operations::widest(period, left, right, keep, table);
    let f = numbers_of(answer.map(|made| (made.count, made.start as usize)));
    hand_out(f, file, p, q)
}

// Writes the joined text into out: p is its length.
#[unsafe(no_mangle)]
pub extern "C" fn megzhoi_join(
    period: usize,
    left: &[u8],
    right: &[u8],
    out: &mut [u8],
    file: &mut usize,
    p: &mut usize,
    q: &mut usize,
) -> usize
    ensures four_numbers { four result file.new p.new q.new ≡
        of_join (join_outcome period left.now right.now out.old).answer }
    ensures out_after { out.new ≡
        (join_outcome period left.now right.now out.old).out }
{
    let answer = operations::join(period, left, right, out);
    let f = numbers_of(answer.map(|length| (length, 0)));
    hand_out(f, file, p, q)
}

// What a size is for a count of states that no text has.
const NO_SIZE: usize = 0;

// Whether an accepted text can have so many states.
fn possible(states: usize) -> bool
    ensures { result ≡ possible states }
{
    if states == 0 {
        return false;
    }
    states <= STATE_LIMIT
}

// Whether two accepted texts can have so many states.
fn both_possible(left: usize, right: usize) -> bool
    ensures { result ≡ (possible left && possible right) }
{
    if !possible(left) {
        return false;
    }
    possible(right)
}

// The bytes of keep for a text of so many states.
#[unsafe(no_mangle)]
pub extern "C" fn megzhoi_keep_bytes(states: usize) -> usize
    ensures { result ≡ keep_needed states }
{
    if !possible(states) {
        return NO_SIZE;
    }
    bitmaps::bytes_for(states)
}

// The bytes of a table for two texts of so many states.
#[unsafe(no_mangle)]
pub extern "C" fn megzhoi_table_bytes(left: usize, right: usize) -> usize
    ensures { result ≡ table_needed left right }
{
    if !both_possible(left, right) {
        return NO_SIZE;
    }
    tables_header::table_length(right, left)
}

// The entries of back, and those of line, for two texts of so many states.
#[unsafe(no_mangle)]
pub extern "C" fn megzhoi_queue_entries(left: usize, right: usize) -> usize
    ensures { result ≡ queue_needed left right }
{
    if !both_possible(left, right) {
        return NO_SIZE;
    }
    left * right
}
