// The seven operations (SPECIFICATION 12.1 to 12.6, 12.9, 12.10), for all tick lengths, bytes, contents and lengths:
// code and promise of the whole tool on one page. `period` is the tick length in milliseconds, one for all texts of a
// call; one that is not allowed is refused with code 24 before all else (SPECIFICATION 4.7, 13.3). Each parses and
// measures what it is given and chooses the size of its slices, small where small ones do; the function below it makes
// them and hands them to the layers below. Nothing is on the heap, so no call can run out of memory.
#![tactic(auto)]

ghost use Rattle.std.specs.Prelude.{◌≡◌, ◌≤◌, Ok, OnErr, length};
ghost use Rattle.limits.specs.Limits.{state_limit, move_limit, keep_limit};
ghost use Rattle.clocks_table.specs.Room.{Room};
ghost use Rattle.clocks_read.specs.Reading.{read_outcome, NothingRead};
ghost use Rattle.clocks_read.specs.Measured.{Measures};
ghost use Rattle.implementation_check.specs.Outcome.{implementation_outcome};
ghost use Rattle.implementation_check.specs.Ready.{Entries};
ghost use Rattle.joining.specs.Outcome as joining;
ghost use Rattle.safe_states.specs.Outcome as safe;
ghost use Rattle.search.specs.Outcome.{Outcome, Scratch};
ghost use Rattle.tables.specs.Outcome.{Checked, Widened};
ghost use Rattle.two_operations.specs.Outcome.{search_outcome, check_outcome, widest_outcome};
ghost use Rattle.two_texts.specs.Measured.{MeasuresTwo, Rooms};

use clocks_read::{Measured, Reading};
use limits::{FEW_BYTES, FEW_MOVES, FEW_STATES, KEEP_LIMIT, MOVE_LIMIT, STATE_LIMIT};
use refusals::Refusal;
use safe_states::SafeStates;
use tables_widest::WidestTable;
use two_texts::MeasuredTexts;

// The operation with slices of these sizes.
fn read_within<const MOVES: usize, const BYTES: usize>(
    period: usize,
    text: &[u8],
    m: Measured,
) -> Result<Reading, Refusal>
    requires given { Measures period text.now (Ok m) × Room m.states MOVES BYTES }
    requires sizes { (MOVES ≤ move_limit) × (BYTES ≤ keep_limit) }
    ensures { result ≡ read_outcome period text.now }
{
    clocks_read::judge(Ok(m), &mut [0; MOVES], &mut [0; BYTES])
}

// Reads a text: its record and state count, or codes 24 and 1 to 11; beside a refusal the record is empty and the number
// of states 0 (SPECIFICATION 12.1).
pub fn read(period: usize, text: &[u8]) -> Result<Reading, Refusal>
    ensures outcome { result ≡ read_outcome period text.now }
    ensures refused { OnErr result (NothingRead result) }
{
    let parsed = clocks_read::measure(period, text)?;
    if parsed.states <= FEW_STATES {
        read_within::<FEW_MOVES, FEW_BYTES>(period, text, parsed)
    } else {
        read_within::<MOVE_LIMIT, KEEP_LIMIT>(period, text, parsed)
    }
}

// The operation with slices of these sizes.
fn safe_within<const MOVES: usize, const BYTES: usize>(
    period: usize,
    text: &[u8],
    m: Measured,
    keep: &mut [u8],
) -> Result<SafeStates, Refusal>
    requires given { Measures period text.now (Ok m) × Room m.states MOVES BYTES }
    requires sizes { (MOVES ≤ move_limit) × (BYTES ≤ keep_limit) }
    ensures { ◌≡◌ {A = safe.Outcome}
        (record { answer = result; keep = keep.new }) (safe.safe_outcome period text.now keep.old) }
{
    safe_states::safe_in(period, text, Ok(m), &mut [0; MOVES], &mut [0; BYTES], keep)
}

// Writes the bits of the safe states into keep (SPECIFICATION 8.4); how many there are and whether the start is one, or
// codes 24, 1 to 11 and 13 (SPECIFICATION 12.2).
pub fn safe_states(period: usize, text: &[u8], keep: &mut [u8]) -> Result<SafeStates, Refusal>
    ensures { ◌≡◌ {A = safe.Outcome} (record { answer = result; keep = keep.new })
        (safe.safe_outcome period text.now keep.old) }
{
    let m = clocks_read::measure(period, text)?;
    if m.states <= FEW_STATES {
        safe_within::<FEW_MOVES, FEW_BYTES>(period, text, m, keep)
    } else {
        safe_within::<MOVE_LIMIT, KEEP_LIMIT>(period, text, m, keep)
    }
}

// The operation with slices of these sizes.
fn implementation_within<const MOVES: usize, const BYTES: usize, const STATES: usize>(
    period: usize,
    text: &[u8],
    m: Measured,
) -> Result<(), Refusal>
    requires given { Measures period text.now (Ok m) × (Room m.states MOVES BYTES × Entries m.states STATES) }
    requires sizes { (MOVES ≤ move_limit) × (BYTES ≤ keep_limit) × (STATES ≤ state_limit) }
    ensures { result ≡ implementation_outcome period text.now }
{
    let mut seen = [false; STATES];
    let mut queue = [0; STATES];
    implementation_check::implementation_in(
        period,
        text,
        Ok(m),
        &mut [0; MOVES],
        &mut [0; BYTES],
        &mut seen,
        &mut queue,
    )
}

// Says whether a text is an implementation: codes 24, 1 to 11, 22 and 23 (SPECIFICATION 12.9).
pub fn implementation(period: usize, text: &[u8]) -> Result<(), Refusal>
    ensures { result ≡ implementation_outcome period text.now }
{
    let m = clocks_read::measure(period, text)?;
    if m.states <= FEW_STATES {
        implementation_within::<FEW_MOVES, FEW_BYTES, FEW_STATES>(period, text, m)
    } else {
        implementation_within::<MOVE_LIMIT, KEEP_LIMIT, STATE_LIMIT>(period, text, m)
    }
}

// The operation with slices of these sizes.
fn search_within<const MOVES: usize, const BYTES: usize>(
    period: usize,
    left: &[u8],
    right: &[u8],
    texts: MeasuredTexts,
    keep: &mut [u8],
    back: &mut [u32],
    line: &mut [u32],
    run: &mut [u32],
) -> Result<usize, Refusal>
    requires given { MeasuresTwo period left.now right.now texts × Rooms texts MOVES MOVES BYTES BYTES }
    requires sizes { (MOVES ≤ move_limit) × (BYTES ≤ keep_limit) }
    ensures { (◌≡◌ {A = Outcome}
        (record { answer = result; keep = keep.new; run = run.new })
        (search_outcome period left.now right.now keep.old (length back.old)
        (length line.old) run.old))
        × Scratch result back.old back.new line.old line.new }
{
    let (mut lm, mut rm) = ([0; MOVES], [0; MOVES]);
    let (mut lh, mut rh) = ([0; BYTES], [0; BYTES]);
    two_operations::search(
        period, left, right, texts, &mut lm, &mut rm, &mut lh, &mut rh, keep, back, line, run,
    )
}

// Looks for a shortest departure of the left text from the right; keep gets the left's safe states, back and line are
// scratch, run gets the steps. Codes 24, 1 to 13, 15, 17 and 21 (SPECIFICATION 12.4).
pub fn search(
    period: usize,
    left: &[u8],
    right: &[u8],
    keep: &mut [u8],
    back: &mut [u32],
    line: &mut [u32],
    run: &mut [u32],
) -> Result<usize, Refusal>
    ensures { (◌≡◌ {A = Outcome} (record { answer = result; keep = keep.new; run = run.new })
        (search_outcome period left.now right.now keep.old (length back.old)
        (length line.old) run.old))
        × Scratch result back.old back.new line.old line.new }
{
    let texts = two_texts::measure_two(period, left, right);
    if texts.few {
        search_within::<FEW_MOVES, FEW_BYTES>(period, left, right, texts, keep, back, line, run)
    } else {
        search_within::<MOVE_LIMIT, KEEP_LIMIT>(period, left, right, texts, keep, back, line, run)
    }
}

// The operation with slices of these sizes.
fn check_within<const MOVES: usize, const BYTES: usize>(
    period: usize,
    left: &[u8],
    right: &[u8],
    texts: MeasuredTexts,
    keep: &mut [u8],
    table: &[u8],
) -> Result<usize, Refusal>
    requires given { MeasuresTwo period left.now right.now texts × Rooms texts MOVES MOVES BYTES BYTES }
    requires sizes { (MOVES ≤ move_limit) × (BYTES ≤ keep_limit) }
    ensures { ◌≡◌ {A = Checked}
        (record { answer = result; keep = keep.new }) (check_outcome period left.now right.now keep.old table.now) }
{
    let (mut lm, mut rm) = ([0; MOVES], [0; MOVES]);
    let (mut lh, mut rh) = ([0; BYTES], [0; BYTES]);
    two_operations::check(
        period, left, right, texts, &mut lm, &mut rm, &mut lh, &mut rh, keep, table,
    )
}

// Checks a given table of two texts; keep gets the left's safe states. Codes 24, 1 to 13 and 16 to 20 (SPECIFICATION
// 12.5).
pub fn check(
    period: usize,
    left: &[u8],
    right: &[u8],
    keep: &mut [u8],
    table: &[u8],
) -> Result<usize, Refusal>
    ensures { ◌≡◌ {A = Checked} (record { answer = result; keep = keep.new })
        (check_outcome period left.now right.now keep.old table.now) }
{
    let texts = two_texts::measure_two(period, left, right);
    if texts.few {
        check_within::<FEW_MOVES, FEW_BYTES>(period, left, right, texts, keep, table)
    } else {
        check_within::<MOVE_LIMIT, KEEP_LIMIT>(period, left, right, texts, keep, table)
    }
}

// The operation with slices of these sizes.
fn widest_within<const MOVES: usize, const BYTES: usize>(
    period: usize,
    left: &[u8],
    right: &[u8],
    texts: MeasuredTexts,
    keep: &mut [u8],
    table: &mut [u8],
) -> Result<WidestTable, Refusal>
    requires given { MeasuresTwo period left.now right.now texts × Rooms texts MOVES MOVES BYTES BYTES }
    requires sizes { (MOVES ≤ move_limit) × (BYTES ≤ keep_limit) }
    ensures { ◌≡◌ {A = Widened}
        (record { answer = result; keep = keep.new; table = table.new })
        (widest_outcome period left.now right.now keep.old table.old) }
{
    let (mut lm, mut rm) = ([0; MOVES], [0; MOVES]);
    let (mut lh, mut rh) = ([0; BYTES], [0; BYTES]);
    two_operations::widest(
        period, left, right, texts, &mut lm, &mut rm, &mut lh, &mut rh, keep, table,
    )
}

// Makes the widest table of two texts; keep gets the left's safe states. Codes 24, 1 to 14 and 17 (SPECIFICATION 12.6).
pub fn widest(
    period: usize,
    left: &[u8],
    right: &[u8],
    keep: &mut [u8],
    table: &mut [u8],
) -> Result<WidestTable, Refusal>
    ensures { ◌≡◌ {A = Widened} (record { answer = result; keep = keep.new; table = table.new })
        (widest_outcome period left.now right.now keep.old table.old) }
{
    let texts = two_texts::measure_two(period, left, right);
    if texts.few {
        widest_within::<FEW_MOVES, FEW_BYTES>(period, left, right, texts, keep, table)
    } else {
        widest_within::<MOVE_LIMIT, KEEP_LIMIT>(period, left, right, texts, keep, table)
    }
}

// The operation with slices of these sizes.
fn join_within<const MOVES: usize, const BYTES: usize>(
    period: usize,
    left: &[u8],
    right: &[u8],
    texts: MeasuredTexts,
    out: &mut [u8],
) -> Result<usize, Refusal>
    requires given { MeasuresTwo period left.now right.now texts × Rooms texts MOVES MOVES BYTES BYTES }
    requires sizes { (MOVES ≤ move_limit) × (BYTES ≤ keep_limit) }
    ensures { ◌≡◌ {A = joining.Outcome}
        (record { answer = result; out = out.new }) (joining.join_outcome period left.now right.now out.old) }
{
    let (mut lm, mut rm) = ([0; MOVES], [0; MOVES]);
    let (mut lh, mut rh) = ([0; BYTES], [0; BYTES]);
    joining::join(
        period, left, right, texts, &mut lm, &mut rm, &mut lh, &mut rh, out,
    )
}

// Writes the joined text of two texts into out; its length, or codes 24, 1 to 12, 25 and 26 (SPECIFICATION 12.10).
pub fn join(period: usize, left: &[u8], right: &[u8], out: &mut [u8]) -> Result<usize, Refusal>
    ensures { ◌≡◌ {A = joining.Outcome} (record { answer = result; out = out.new })
        (joining.join_outcome period left.now right.now out.old) }
{
    let texts = two_texts::measure_two(period, left, right);
    if texts.few {
        join_within::<FEW_MOVES, FEW_BYTES>(period, left, right, texts, out)
    } else {
        join_within::<MOVE_LIMIT, KEEP_LIMIT>(period, left, right, texts, out)
    }
}
