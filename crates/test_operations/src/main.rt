// Runs the calls of data/cases through five of the operations and prints each answer with everything that is lent.
// tests/make_cases.py writes the calls and, from an independent reading of docs/SPECIFICATION.md, the expected output.
// A record of the file is a letter, six numbers, a word and bytes. `T` gives the two texts of the calls that follow:
// the length of the left and its length with spaces after it, the same for the right, and their bytes. The calls are
// `R` reading and `S` safe states (of the left), `D` search, `C` check and `W` widest table, with the lengths of keep,
// of the table to write, of back, line and run, and of the given table, whose bytes follow. A call's word is the tick
// length.
#![tactic(auto)]

ghost use Rattle.std.specs.Prelude.{◌≡◌, ◌≤◌, ◌<◌, length, IfOk, IfSome};

use refusals::Refusal;
use std::io;
use test_input::put_refusal;

// The letters of records.
const TEXTS: u8 = b'T';

const READ: u8 = b'R';

const SAFE: u8 = b'S';

const SEARCH: u8 = b'D';

const CHECK: u8 = b'C';

// The bytes of a record before its own ones: a letter, six numbers and a word; those of a number, lowest first.
const HEAD_BYTES: usize = 27;

const NUMBER_BYTES: usize = 3;

const NUMBERS: usize = 6;

const WORD_PLACE: usize = 1 + NUMBERS * NUMBER_BYTES;

// What lent bytes and entries begin as: an operation that leaves them alone does not change them.
const LENT_BYTE: u8 = 165;

const LENT_ENTRY: u32 = 77;

// The room of the slices that are lent. A call that does not fit is left out, and the expected output then differs.
const KEEP_ROOM: usize = 520;

const TABLE_ROOM: usize = 16384;

const ENTRY_ROOM: usize = 131072;

const RUN_ROOM: usize = 512;

// The room of the file, and that of a text.
const FILE_ROOM: usize = 524288;

const TEXT_ROOM: usize = 65536;

// So many items of a slice are shown whole; of more, the length and a sum.
const WHOLE: usize = 64;

const FACTOR: u64 = 257;

const MODULUS: u64 = 1000000007;

// The head of a record.
#[derive(Clone, Copy)]
struct Head {
    letter: u8,
    numbers: [usize; NUMBERS],
    word: usize,
}

// The texts of the calls that follow, each with spaces after it, and the length at which it is given.
#[derive(Drop)]
struct Texts {
    left: [u8; TEXT_ROOM],
    left_length: usize,
    right: [u8; TEXT_ROOM],
    right_length: usize,
}

// What a call is given: a tick length, two texts, and a table or nothing.
#[derive(Clone, Copy)]
struct Call<'a> {
    period: usize,
    left: &'a [u8],
    right: &'a [u8],
    given: &'a [u8],
}

// The lengths of the slices of a call.
#[derive(Clone, Copy)]
struct Lengths {
    keep: usize,
    table: usize,
    back: usize,
    line: usize,
    run: usize,
}

fn put_refused(rt: &impl Print, f: &Refusal) -> io::Result<()> {
    rt.print(" refused")?;
    put_refusal(rt, f)
}

fn put_done(rt: &impl Print, n: usize) -> io::Result<()> {
    print!(rt; " done {n}")
}

// A number, and a flag as 0 or 1.
fn put_flagged(rt: &impl Print, n: usize, flag: bool) -> io::Result<()> {
    let digit = u8::from(flag);
    print!(rt; " done {n} {digit}")
}

// A sum of the items so far, with one more; the place of an item counts.
fn added(sum: u64, item: u32) -> u64
    ensures { result < 1000000007 }
{
    let product = sum.wrapping_mul(FACTOR);
    product.wrapping_add(u64::from(item)).wrapping_add(1) % MODULUS
}

fn put_hex(rt: &impl Print, s: &[u8]) -> io::Result<()> {
    for byte in s {
        print!(rt; "{byte:02x}")?;
    }
    Ok(())
}

// The bytes of a slice in hexadecimal, `-` if there are none.
fn put_bytes(rt: &impl Print, s: &[u8]) -> io::Result<()> {
    let n = s.len();
    if n == 0 {
        return rt.print("-");
    }
    if n <= WHOLE {
        return put_hex(rt, s);
    }
    let sum = s.iter().fold(0, |sum, byte| added(sum, u32::from(*byte)));
    print!(rt; "{n}:{sum}")
}

fn put_list(rt: &impl Print, s: &[u32]) -> io::Result<()> {
    for (i, entry) in s.iter().enumerate() {
        if 0 < i {
            rt.print(",")?;
        }
        rt.print(entry)?;
    }
    Ok(())
}

// The entries of a slice in decimal, joined by commas, `-` if there are none.
fn put_entries(rt: &impl Print, s: &[u32]) -> io::Result<()> {
    let n = s.len();
    if n == 0 {
        return rt.print("-");
    }
    if n <= WHOLE {
        return put_list(rt, s);
    }
    let sum = s.iter().fold(0, |sum, entry| added(sum, *entry));
    print!(rt; "{n}:{sum}")
}

fn put_keep(rt: &impl Print, keep: &[u8]) -> io::Result<()> {
    rt.print(" keep ")?;
    put_bytes(rt, keep)
}

// What became of back or line after a refusal that must leave it alone.
fn put_scratch(rt: &impl Print, s: &[u32]) -> io::Result<()> {
    let is_kept = s.iter().all(|entry| *entry == LENT_ENTRY);
    rt.print(if is_kept { " kept" } else { " changed" })
}

fn read_call(rt: &impl Print, call: &Call) -> io::Result<()> {
    rt.print("R")?;
    match operations::read(call.period, call.left) {
        Ok(r) => put_done(rt, r.states),
        Err(f) => put_refused(rt, &f),
    }
}

fn safe_call(rt: &impl Print, call: &Call, keep: &mut [u8]) -> io::Result<()> {
    rt.print("S")?;
    match operations::safe_states(call.period, call.left, keep) {
        Ok(safe) => put_flagged(rt, safe.count, safe.start)?,
        Err(f) => put_refused(rt, &f)?,
    }
    put_keep(rt, keep)
}

// Prints the answer, and says whether back and line must be as they came: after every refusal but that of a short run
// (SPECIFICATION 13.5).
fn put_searched(rt: &impl Print, answer: Result<usize, Refusal>) -> io::Result<bool> {
    match answer {
        Ok(steps) => {
            put_done(rt, steps)?;
            Ok(false)
        }
        Err(f) => {
            put_refused(rt, &f)?;
            Ok(!matches!(f, Refusal::RunTooShort(..)))
        }
    }
}

fn search_call(
    rt: &impl Print,
    call: &Call,
    keep: &mut [u8],
    back: &mut [u32],
    line: &mut [u32],
    run: &mut [u32],
) -> io::Result<()> {
    rt.print("D")?;
    let answer = operations::search(call.period, call.left, call.right, keep, back, line, run);
    let kept = put_searched(rt, answer)?;
    put_keep(rt, keep)?;
    rt.print(" run ")?;
    put_entries(rt, run)?;
    if kept {
        put_scratch(rt, back)?;
        put_scratch(rt, line)?;
    }
    Ok(())
}

fn check_call(rt: &impl Print, call: &Call, keep: &mut [u8]) -> io::Result<()> {
    rt.print("C")?;
    match operations::check(call.period, call.left, call.right, keep, call.given) {
        Ok(pairs) => put_done(rt, pairs)?,
        Err(f) => put_refused(rt, &f)?,
    }
    put_keep(rt, keep)
}

fn widest_call(rt: &impl Print, call: &Call, keep: &mut [u8], table: &mut [u8]) -> io::Result<()> {
    rt.print("W")?;
    match operations::widest(call.period, call.left, call.right, keep, table) {
        Ok(widest) => put_flagged(rt, widest.count, widest.start)?,
        Err(f) => put_refused(rt, &f)?,
    }
    put_keep(rt, keep)?;
    rt.print(" table ")?;
    put_bytes(rt, table)
}

// Entries to lend. They stand behind a function because antt must not unfold an array of this length.
fn entries() -> [u32; ENTRY_ROOM]
    ensures { length result ≡ 131072 }
{
    [LENT_ENTRY; ENTRY_ROOM]
}

// The slices of a call are the first entries of those lent here.
fn search_entries(
    rt: &impl Print,
    call: &Call,
    lengths: &Lengths,
    keep: &mut [u8],
) -> io::Result<()> {
    let mut back_room = entries();
    let mut line_room = entries();
    let mut run_room = [LENT_ENTRY; RUN_ROOM];
    let (Some(back), Some(line), Some(run)) = (
        back_room.get_mut(..lengths.back),
        line_room.get_mut(..lengths.line),
        run_room.get_mut(..lengths.run),
    ) else {
        return Ok(());
    };
    search_call(rt, call, keep, back, line, run)
}

fn widest_bytes(
    rt: &impl Print,
    call: &Call,
    lengths: &Lengths,
    keep: &mut [u8],
) -> io::Result<()> {
    let mut room = [LENT_BYTE; TABLE_ROOM];
    match room.get_mut(..lengths.table) {
        Some(table) => widest_call(rt, call, keep, table),
        None => Ok(()),
    }
}

// The call of a letter, with a keep of the first bytes of one that is lent here.
fn make_call(rt: &impl Print, letter: u8, call: &Call, lengths: &Lengths) -> io::Result<()> {
    let mut room = [LENT_BYTE; KEEP_ROOM];
    let Some(keep) = room.get_mut(..lengths.keep) else {
        return Ok(());
    };
    match letter {
        READ => read_call(rt, call)?,
        SAFE => safe_call(rt, call, keep)?,
        SEARCH => search_entries(rt, call, lengths, keep)?,
        CHECK => check_call(rt, call, keep)?,
        _ => widest_bytes(rt, call, lengths, keep)?,
    }
    rt.print("\n")
}

// A number of at most eight bytes, lowest first.
fn whole(bytes: &[u8]) -> usize {
    bytes
        .iter()
        .rev()
        .fold(0, |n: usize, byte| n << 8 | usize::from(*byte))
}

// The head of a record.
fn head_of(bytes: &[u8; HEAD_BYTES]) -> Head {
    let mut numbers = [0; NUMBERS];
    let own = &bytes[1..WORD_PLACE];
    for (number, digits) in numbers.iter_mut().zip(own.chunks(NUMBER_BYTES)) {
        *number = whole(digits);
    }
    Head {
        letter: bytes[0],
        numbers,
        word: whole(&bytes[WORD_PLACE..]),
    }
}

// The text t, and spaces.
fn lay(t: &[u8], room: &mut [u8]) {
    room.fill(b' ');
    for (place, byte) in room.iter_mut().zip(t.iter()) {
        *place = *byte;
    }
}

// The lengths that a record of texts gives.
fn set_lengths(head: &Head, texts: &mut Texts) {
    let [_, left_length, _, right_length, ..] = head.numbers;
    texts.left_length = left_length;
    texts.right_length = right_length;
}

// The two texts of a record; answers the bytes behind them.
fn lay_texts<'a>(head: &Head, bytes: &'a [u8], texts: &mut Texts) -> Option<&'a [u8]>
    ensures { IfSome result (λ rest. length rest.now ≤ length bytes.now) }
{
    let [left_bytes, _, right_bytes, ..] = head.numbers;
    let (left, behind) = bytes.split_at_checked(left_bytes)?;
    let (right, rest) = behind.split_at_checked(right_bytes)?;
    lay(left, &mut texts.left);
    lay(right, &mut texts.right);
    set_lengths(head, texts);
    Some(rest)
}

// The call of a record, left out where a text is longer than its room; answers the bytes behind the given table, and
// those behind the head of one that is left out.
fn run_call<'a>(
    rt: &impl Print,
    head: &Head,
    bytes: &'a [u8],
    texts: &Texts,
) -> io::Result<Option<&'a [u8]>>
    ensures { IfOk result (λ next. IfSome next (λ rest. length rest.now ≤ length bytes.now)) }
{
    let (Some(left), Some(right)) = (
        texts.left.get(..texts.left_length),
        texts.right.get(..texts.right_length),
    ) else {
        return Ok(Some(bytes));
    };
    let [keep, table, back, line, run, given] = head.numbers;
    let Some((given, rest)) = bytes.split_at_checked(given) else {
        return Ok(None);
    };
    let call = Call {
        period: head.word,
        left,
        right,
        given,
    };
    let lengths = Lengths {
        keep,
        table,
        back,
        line,
        run,
    };
    make_call(rt, head.letter, &call, &lengths)?;
    Ok(Some(rest))
}

// The record at the start of bytes; answers the bytes behind it, if it is whole.
fn run_record<'a>(rt: &impl Print, s: &'a [u8], texts: &mut Texts) -> io::Result<Option<&'a [u8]>>
    ensures { IfOk result (λ next. IfSome next (λ rest. length rest.now < length s.now)) }
{
    let Some((bytes, own)) = s.split_first_chunk::<HEAD_BYTES>() else {
        return Ok(None);
    };
    let head = head_of(bytes);
    if head.letter == TEXTS {
        return Ok(lay_texts(&head, own, texts));
    }
    run_call(rt, &head, own, texts)
}

// All records; there are no more of them than bytes. Before one that gives texts they are as they come, at the lengths
// that the first record would give.
fn run_all(rt: &impl Print, s: &[u8], texts: &mut Texts) -> io::Result<()> {
    if let Some((bytes, _)) = s.split_first_chunk::<HEAD_BYTES>() {
        set_lengths(&head_of(bytes), texts);
    }
    let mut rest = s;
    for _ in 0..s.len() {
        let Some(behind) = run_record(rt, rest, texts)? else {
            return Ok(());
        };
        rest = behind;
    }
    Ok(())
}

fn main(rt: HostRuntime) -> io::Result<()> {
    let mut buf = programs::room::<FILE_ROOM>();
    let n = programs::read_file(&rt, b"cases", &mut buf);
    let mut texts = Texts {
        left: programs::text_room(),
        left_length: 0,
        right: programs::text_room(),
        right_length: 0,
    };
    run_all(&rt, &buf[..n], &mut texts)
}
