// The operations that are lent slices, and the implementation check: what they answer and leave, and what they must.
use super::given::{KINDS, Kind, change_pairs, given_length, make_given, number_of};
use super::lent::{
    KEEP_BYTES, Lengths, RUN_ENTRIES, TABLE_BYTES, fill_bytes, fill_entries, is_kept, judge_keep,
    keep_length, lengths_of, queue_is_right,
};
use super::tally::{Answer, Done, Tally, add, answered};
use super::texts::Texts;
use enumerator::late::has_late;
use enumerator::moves::{NO_ROW, Row, is_safe};
use enumerator::numbers::times;
use enumerator::packed::{table_length, write_table};
use enumerator::pairs::{PAIRS, Rows, Two, count, has, two_of};
use enumerator::parallel::has_parallel;
use enumerator::reached::implementation;
use enumerator::runs::{departure, is_departure};
use enumerator::safe::{Reading, count_safe, fill_rows, judge_length, states_of};
use random_texts::part;
use refusals::{File, Refusal};

// Texts of more states are left out.
const STATES: usize = 512;

// Two texts for an operation: a seed for lengths and contents, what is refused of them before 13, and what the enumerator
// says of them.
#[derive(Clone, Copy)]
struct Case<'a, 'b> {
    texts: &'a Texts<'b>,
    seed: u32,
    judged: Result<(), Refusal>,
    rows: Rows<'a>,
}

// The operations, with the first part of each slice.
fn safe_call(period: usize, text: &[u8], keep: &mut [u8], bytes: usize) -> Answer {
    let k = bytes.min(keep.len());
    let safe = operations::safe_states(period, text, &mut keep[..k])?;
    Ok(Done {
        number: safe.count,
        flag: safe.start,
    })
}

fn search_call(
    texts: &Texts,
    z: &Lengths,
    keep: &mut [u8],
    back: &mut [u32],
    line: &mut [u32],
    run: &mut [u32],
) -> Answer {
    let k = z.keep.min(keep.len());
    let b = z.back.min(back.len());
    let e = z.line.min(line.len());
    let m = z.run.min(run.len());
    let steps = operations::search(
        texts.period,
        texts.left,
        texts.right,
        &mut keep[..k],
        &mut back[..b],
        &mut line[..e],
        &mut run[..m],
    )?;
    Ok(answered(steps))
}

fn check_call(texts: &Texts, z: &Lengths, keep: &mut [u8], table: &[u8]) -> Answer {
    let k = z.keep.min(keep.len());
    let b = z.table.min(table.len());
    let pairs = operations::check(
        texts.period,
        texts.left,
        texts.right,
        &mut keep[..k],
        &table[..b],
    )?;
    Ok(answered(pairs))
}

fn widest_call(texts: &Texts, z: &Lengths, keep: &mut [u8], table: &mut [u8]) -> Answer {
    let k = z.keep.min(keep.len());
    let b = z.table.min(table.len());
    let widest = operations::widest(
        texts.period,
        texts.left,
        texts.right,
        &mut keep[..k],
        &mut table[..b],
    )?;
    Ok(Done {
        number: widest.count,
        flag: widest.start,
    })
}

// What is refused of a text at a tick length.
fn judge_text(period: usize, r: &Result<Reading, Refusal>) -> Result<(), Refusal> {
    judge_length(period)?;
    match r {
        Ok(_) => Ok(()),
        Err(f) => Err(*f),
    }
}

// What the safe states' operation answers with k bytes of keep for the rows.
fn safe_answer(period: usize, r: &Result<Reading, Refusal>, rows: &[Row], k: usize) -> Answer {
    judge_text(period, r)?;
    judge_keep(rows.len(), k)?;
    let flag = match r {
        Ok(r) => is_safe(rows, r.start),
        Err(_) => false,
    };
    Ok(Done {
        number: count_safe(rows),
        flag,
    })
}

fn safe_case(texts: &Texts, rows: &[Row], seed: u32, tally: &mut Tally) {
    let mut keep = [0; KEEP_BYTES];
    fill_bytes(&mut keep, seed);
    let k = keep_length(rows.len(), seed);
    let expected = safe_answer(texts.period, &texts.a, rows, k);
    let got = safe_call(texts.period, texts.left, &mut keep, k);
    let kept = is_kept(&keep, rows, &expected, seed);
    tally.count_call(&expected, kept && expected == got);
}

// What the implementation check answers.
fn implementation_answer(period: usize, r: &Result<Reading, Refusal>) -> Answer {
    judge_text(period, r)?;
    if let Ok(r) = r {
        implementation(r)?;
    }
    Ok(answered(0))
}

fn implementation_call(period: usize, text: &[u8]) -> Answer {
    operations::implementation(period, text)?;
    Ok(answered(0))
}

// Nothing is lent: the answer counts alone.
fn implementation_case(
    period: usize,
    text: &[u8],
    r: &Result<Reading, Refusal>,
    tally: &mut Tally,
) {
    let expected = implementation_answer(period, r);
    let got = implementation_call(period, text);
    tally.count_call(&expected, expected == got);
    add(&mut tally.implementations, expected.is_ok());
}

impl Case<'_, '_> {
    fn lengths(&self) -> Lengths {
        lengths_of(self.rows.two, self.seed)
    }

    // What is refused before the pairs of states are looked at: 24, 1 to 13, another slice, 17 (SPECIFICATION 13.3).
    fn judge_early(&self, z: &Lengths, slices: Result<(), Refusal>) -> Result<(), Refusal> {
        self.judged?;
        judge_keep(self.rows.left.len(), z.keep)?;
        slices?;
        let start = self.rows.two.left_start;
        if is_safe(self.rows.left, start) {
            return Ok(());
        }
        Err(Refusal::StartNotSafe(File::Left, start))
    }

    // The search needs an entry of back and one of line for each pair.
    fn judge_queue(&self, z: &Lengths) -> Result<(), Refusal> {
        let pairs = self.rows.two.pairs();
        if z.back < pairs || z.line < pairs {
            return Err(Refusal::QueueTooShort(File::None, pairs));
        }
        Ok(())
    }

    // What the search answers, and what it leaves in the run, which is lent with noise.
    fn search_answer(&self, z: &Lengths, run: &mut [u32]) -> Answer {
        fill_entries(run, self.seed);
        self.judge_early(z, self.judge_queue(z))?;
        let n = departure(&self.rows, run).unwrap_or(0);
        if z.run < n {
            fill_entries(run, self.seed);
            return Err(Refusal::RunTooShort(File::None, n));
        }
        Ok(answered(n))
    }

    // Whether a search answers and leaves what it must.
    fn search_is_right(&self, z: &Lengths, want: &[u32], expected: &Answer) -> bool {
        let mut keep = [0; KEEP_BYTES];
        let mut back = [0; PAIRS];
        let mut line = [0; PAIRS];
        let mut run = [0; RUN_ENTRIES];
        fill_bytes(&mut keep, self.seed);
        fill_entries(&mut back, self.seed);
        fill_entries(&mut line, self.seed);
        fill_entries(&mut run, self.seed);
        let got = search_call(self.texts, z, &mut keep, &mut back, &mut line, &mut run);
        is_kept(&keep, self.rows.left, expected, self.seed)
            && &run[..] == want
            && queue_is_right(expected, &back, &line, self.seed)
            && *expected == got
    }

    fn search_case(&self, tally: &mut Tally) {
        let mut want = [0; RUN_ENTRIES];
        let z = self.lengths();
        let expected = self.search_answer(&z, &mut want);
        let is_right = self.search_is_right(&z, &want, &expected);
        tally.count_call(&expected, is_right);
        if let Ok(answer) = expected {
            add(&mut tally.departures, 0 < answer.number);
            add(&mut tally.no_departure, answer.number == 0);
        }
    }

    fn judge_table(&self, z: &Lengths) -> Result<(), Refusal> {
        let need = table_length(self.rows.two);
        if z.table < need {
            return Err(Refusal::TableTooShort(File::None, need));
        }
        Ok(())
    }

    // What the widest table's operation answers, and what it leaves in the table, which is lent with noise.
    fn widest_answer(&self, z: &Lengths, set: &[bool], table: &mut [u8]) -> Answer {
        fill_bytes(table, self.seed);
        self.judge_early(z, self.judge_table(z))?;
        write_table(set, self.rows.two, false, table);
        Ok(Done {
            number: count(set),
            flag: has(set, self.rows.two.start()),
        })
    }

    fn widest_case(&self, set: &[bool], tally: &mut Tally) {
        let mut keep = [0; KEEP_BYTES];
        let mut table = [0; TABLE_BYTES];
        let mut want = [0; TABLE_BYTES];
        fill_bytes(&mut keep, self.seed);
        fill_bytes(&mut table, self.seed);
        let z = self.lengths();
        let expected = self.widest_answer(&z, set, &mut want);
        let got = widest_call(self.texts, &z, &mut keep, &mut table);
        let kept = is_kept(&keep, self.rows.left, &expected, self.seed);
        let made = table[..] == want[..];
        tally.count_call(&expected, kept && made && expected == got);
        if let Ok(answer) = expected {
            add(&mut tally.with_start, answer.flag);
        }
    }

    // Whether a table of z's length and of a kind is laid out for the two texts.
    fn judge_given(&self, z: &Lengths, kind: Kind) -> Result<(), Refusal> {
        if kind == Kind::OtherHeader || z.table != table_length(self.rows.two) {
            return Err(Refusal::OtherTable(File::None));
        }
        Ok(())
    }

    // What the check answers of a set of pairs.
    fn check_answer(&self, z: &Lengths, set: &[bool], kind: Kind) -> Answer {
        self.judge_early(z, self.judge_given(z, kind))?;
        self.rows.check(set)?;
        Ok(answered(count(set)))
    }

    fn check_case(&self, set: &[bool], kind: Kind, tally: &mut Tally) {
        let mut keep = [0; KEEP_BYTES];
        let mut table = [0; TABLE_BYTES];
        fill_bytes(&mut keep, self.seed);
        make_given(set, self.rows.two, self.seed, kind, &mut table);
        let mut z = self.lengths();
        z.table = given_length(kind, table_length(self.rows.two), z.table);
        let expected = self.check_answer(&z, set, kind);
        let got = check_call(self.texts, &z, &mut keep, &table);
        let kept = is_kept(&keep, self.rows.left, &expected, self.seed);
        tally.count_call(&expected, kept && expected == got);
    }

    // The same two texts, with the seed of a kind of tables.
    fn of_kind(&self, kind: Kind) -> Self {
        Case {
            texts: self.texts,
            seed: part(self.seed, number_of(kind)),
            judged: self.judged,
            rows: self.rows,
        }
    }

    // The widest table, and checks of it and of tables like it.
    fn table_cases(&self, set: &mut [bool], tally: &mut Tally) {
        self.rows.widest(set);
        self.widest_case(set, tally);
        for kind in KINDS {
            let own = self.of_kind(kind);
            change_pairs(set, self.rows.two, own.seed, kind);
            own.check_case(set, kind, tally);
        }
    }

    // Both texts, if they are accepted and have equal channels, and the left's start is safe.
    fn searched(&self) -> Option<(&Reading, &Reading)> {
        if self.judged.is_err() || !is_safe(self.rows.left, self.rows.two.left_start) {
            return None;
        }
        match (&self.texts.a, &self.texts.b) {
            (Ok(a), Ok(b)) => Some((a, b)),
            _ => None,
        }
    }

    // Whether the shortest departure, if the run has room for it, is one with clocks that are not capped (SPECIFICATION
    // 6.6).
    fn is_followed(&self, a: &Reading, b: &Reading) -> bool {
        let mut run = [0; RUN_ENTRIES];
        match departure(&self.rows, &mut run) {
            Some(n) if n <= RUN_ENTRIES => {
                is_departure(&a.text, &b.text, self.rows.two, &run[..n])
            }
            _ => true,
        }
    }

    // Follows the shortest departure, and counts two texts that both have parallel edges, or late clocks.
    fn follow_case(&self, tally: &mut Tally) {
        if let Some((a, b)) = self.searched() {
            add(&mut tally.differences, !self.is_followed(a, b));
            add(
                &mut tally.parallel_pairs,
                has_parallel(a) && has_parallel(b),
            );
            add(
                &mut tally.late_pairs,
                has_late(&a.text) && has_late(&b.text),
            );
        }
    }

    fn all(&self, tally: &mut Tally) {
        self.search_case(tally);
        self.follow_case(tally);
        let mut set = [false; PAIRS];
        let pairs = self.rows.two.pairs();
        if pairs <= set.len() {
            self.table_cases(&mut set[..pairs], tally);
        }
    }
}

// Fills the rows of a text that is accepted.
fn fill(r: &Result<Reading, Refusal>, rows: &mut [Row]) {
    if let Ok(r) = r {
        fill_rows(r, rows);
    }
}

// The operations on two texts, with their rows.
fn rows_cases<'a, 'b>(
    texts: &'a Texts<'b>,
    left: &'a [Row],
    right: &'a [Row],
    two: &'a Two,
    seed: u32,
    tally: &mut Tally,
) {
    let case = Case {
        texts,
        seed,
        judged: texts.judge(),
        rows: Rows { left, right, two },
    };
    case.all(tally);
}

// The same with room for the rows of the right one.
fn two_cases(texts: &Texts, left: &[Row], right: &mut [Row], seed: u32, tally: &mut Tally) {
    fill(&texts.b, right);
    let two = two_of(texts.left, texts.right, &texts.a, &texts.b);
    rows_cases(texts, left, right, &two, seed, tally);
}

// The operations that are lent slices, with room for the rows of the left: its safe states and, where there are few
// enough pairs of states, the operations on two texts.
fn left_cases(texts: &Texts, left: &mut [Row], seed: u32, tally: &mut Tally) {
    fill(&texts.a, left);
    safe_case(texts, left, seed, tally);
    let mut rows = [NO_ROW; STATES];
    let states = states_of(&texts.b);
    if rows.len() < states || PAIRS < times(left.len(), states) {
        add(&mut tally.left_out, true);
        return;
    }
    two_cases(texts, left, &mut rows[..states], seed, tally);
}

fn lent_cases(texts: &Texts, seed: u32, tally: &mut Tally) {
    let mut rows = [NO_ROW; STATES];
    let states = states_of(&texts.a);
    if rows.len() < states {
        add(&mut tally.left_out, true);
        return;
    }
    left_cases(texts, &mut rows[..states], seed, tally);
}

// All operations but reading and join, on two texts; the implementation check on each of them.
pub fn all_cases(texts: &Texts, seed: u32, tally: &mut Tally) {
    implementation_case(texts.period, texts.left, &texts.a, tally);
    implementation_case(texts.period, texts.right, &texts.b, tally);
    lent_cases(texts, seed, tally);
}
