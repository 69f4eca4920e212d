// What each program prints, made in a slice that it lends: the program itself only reads its files and writes the slice
// out. Nothing is asked of the slice's length: what does not fit is left out, and the rest keeps its values. The second
// promise of each function says what length is enough for all of it.
#![tactic(auto)]

ghost use Rattle.std.specs.Prelude.{◌≡◌, [], ◌∷◌, ◌≤◌, length};
ghost use Rattle.limits.specs.Limits.{keep_limit};
ghost use Rattle.clocks_read.specs.Reading.{read_outcome, text_in, states_in};
ghost use Rattle.byte_slices.specs.Decimal.{ascii};
ghost use Rattle.tables_header.specs.Header.{table_bytes};
ghost use Rattle.two_operations.specs.Outcome.{widest_outcome};
ghost use Rattle.byte_slices.specs.Laid.{Laid, laid};
ghost use Rattle.byte_slices.specs.Put.{Puts};
ghost use Rattle.printed_lines.specs.Lines.{line, departure_lines};
ghost use Rattle.printed_lines.specs.Room.{line_limit};
ghost use Rattle.printed.specs.Room.{megzhoi_limit};
ghost use Rattle.printed.specs.Prints.{program_tick, zeros, entries, counted_bytes, widest_line};
ghost use Rattle.printed.specs.Prints.{megzhoi_prints, widest_prints, recheck_prints, implementation_prints};

use limits::{CHANNEL_LIMIT, KEEP_LIMIT, LARGEST_NAME};
use printed_lines::LINE_LIMIT;
use reader_record::Channel;

// The tick length of the programs (SPECIFICATION 14.1).
pub const PROGRAM_TICK: usize = 1;

// The entries of back, of line and of run, and the bytes of the table that is counted.
const ENTRIES: usize = 16384;

const COUNTED_BYTES: usize = 8192;

// Room for all that program megzhoi can print: a line, and a step for each entry of run, a name, its mark and LF.
const STEP_BYTES: usize = LARGEST_NAME + 2;

pub const MEGZHOI_LIMIT: usize = LINE_LIMIT + ENTRIES * STEP_BYTES;

// Zeros stand behind functions because antt must not unfold arrays of these lengths.
#[tactic(auto, unfolding(crate::specs::Prints::zeros))]
fn no_bytes<const BYTES: usize>() -> [u8; BYTES]
    ensures { (result ≡ zeros BYTES) × (length result ≡ BYTES) }
{
    [0; BYTES]
}

fn no_entries() -> [u32; ENTRIES]
    ensures { (result ≡ zeros entries) × (length result ≡ entries) }
{
    [0; ENTRIES]
}

// How many states a text has; one that is refused has none.
fn states_of(text: &[u8]) -> usize
    ensures { result ≡ states_in (read_outcome program_tick text.now) }
{
    clocks_read::states_in(&operations::read(PROGRAM_TICK, text))
}

// The channels of a text; one that is refused has none.
fn channels_of(text: &[u8]) -> [Channel; CHANNEL_LIMIT]
    ensures { result ≡ (text_in (read_outcome program_tick text.now)).channels }
{
    clocks_read::text_in(&operations::read(PROGRAM_TICK, text)).channels
}

// How many bytes the table of two texts takes.
fn table_bytes(left: &[u8], right: &[u8]) -> usize
    ensures { result ≡ table_bytes (states_in (read_outcome program_tick right.now))
        (states_in (read_outcome program_tick left.now)) }
{
    tables_header::table_length(states_of(right), states_of(left))
}

// No departure: YES and the number of the widest table's pairs, or the refusal.
fn put_yes(left: &[u8], right: &[u8], out: &mut [u8]) -> usize
    ensures puts { Puts out.old 0
        (widest_line (widest_outcome program_tick left.now right.now
        (zeros keep_limit) (zeros counted_bytes)).answer) out.new result }
    ensures short { length (widest_line (widest_outcome program_tick left.now right.now
        (zeros keep_limit) (zeros counted_bytes)).answer) ≤ line_limit }
{
    let mut keep = no_bytes::<KEEP_LIMIT>();
    let mut table = no_bytes::<COUNTED_BYTES>();
    let answer = operations::widest(PROGRAM_TICK, left, right, &mut keep, &mut table);
    match answer {
        Ok(made) => printed_lines::put_yes(out, 0, made.count),
        Err(f) => printed_lines::put_refusal(out, 0, f),
    }
}

// A departure: NO, n and the steps, as the left spells its channels.
fn put_no(left: &[u8], n: usize, run: &[u32], out: &mut [u8]) -> usize
    ensures puts { Puts out.old 0 (departure_lines left.now
        (text_in (read_outcome program_tick left.now)).channels n run.now) out.new result }
    ensures short { length (line (ascii "NO") (n ∷ [])) ≤ line_limit }
{
    printed_lines::put_departure(out, 0, left, channels_of(left), n, run)
}

// Program megzhoi: NO and the steps of a shortest departure, YES and the number of the widest table's pairs, or the
// refusal.
pub fn megzhoi(left: &[u8], right: &[u8], out: &mut [u8]) -> usize
    ensures prints { ◌≡◌ {A = Laid} (record { slice = out.new; count = result })
        (laid out.old (megzhoi_prints left.now right.now)) }
    ensures short { length (megzhoi_prints left.now right.now) ≤ megzhoi_limit }
{
    let mut keep = no_bytes::<KEEP_LIMIT>();
    let mut back = no_entries();
    let mut line = no_entries();
    let mut run = no_entries();
    let answer = operations::search(
        PROGRAM_TICK,
        left,
        right,
        &mut keep,
        &mut back,
        &mut line,
        &mut run,
    );
    match answer {
        Ok(n) => {
            if n == 0 {
                return put_yes(left, right, out);
            }
            put_no(left, n, &run, out)
        }
        Err(f) => printed_lines::put_refusal(out, 0, f),
    }
}

// Program widest: the widest table as a file, or the refusal. The slice is lent on as the table.
pub fn widest(left: &[u8], right: &[u8], out: &mut [u8]) -> usize
    ensures prints { ◌≡◌ {A = Laid} (record { slice = out.new; count = result })
        (laid out.old
        (widest_prints (length out.old) left.now right.now)) }
    ensures fits { line_limit ≤ length out.old → length (widest_prints (length out.old)
        left.now right.now) ≤ length out.old }
{
    let mut keep = no_bytes::<KEEP_LIMIT>();
    let answer = operations::widest(PROGRAM_TICK, left, right, &mut keep, out);
    match answer {
        Ok(_) => table_bytes(left, right),
        Err(f) => printed_lines::put_refusal(out, 0, f),
    }
}

// Program recheck: ACCEPTED and the number of pairs, or the refusal.
pub fn recheck(left: &[u8], right: &[u8], table: &[u8], out: &mut [u8]) -> usize
    ensures prints { ◌≡◌ {A = Laid} (record { slice = out.new; count = result })
        (laid out.old (recheck_prints left.now right.now table.now)) }
    ensures short { length (recheck_prints left.now right.now table.now)
        ≤ line_limit }
{
    let mut keep = no_bytes::<KEEP_LIMIT>();
    let answer = operations::check(PROGRAM_TICK, left, right, &mut keep, table);
    match answer {
        Ok(count) => printed_lines::put_accepted(out, 0, count),
        Err(f) => printed_lines::put_refusal(out, 0, f),
    }
}

// Program implementation: YES, or the refusal.
pub fn implementation(left: &[u8], out: &mut [u8]) -> usize
    ensures prints { ◌≡◌ {A = Laid} (record { slice = out.new; count = result })
        (laid out.old (implementation_prints left.now)) }
    ensures short { length (implementation_prints left.now) ≤ line_limit }
{
    let answer = operations::implementation(PROGRAM_TICK, left);
    match answer {
        Ok(()) => printed_lines::put_passed(out, 0),
        Err(f) => printed_lines::put_refusal(out, 0, f),
    }
}
