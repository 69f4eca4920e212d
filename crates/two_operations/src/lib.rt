// The search, the check and the widest table of two texts, in slices that have room for both: the texts are judged by
// codes 24 and 1 to 12 and become two systems, and the operation on systems does the rest.
#![tactic(auto)]

ghost use Rattle.std.specs.Prelude.{◌≡◌, length};
ghost use Rattle.two_texts.specs.Measured.{MeasuresTwo, Rooms};
ghost use Rattle.search.specs.Outcome.{Outcome, Scratch};
ghost use Rattle.tables.specs.Outcome.{Checked, Widened};
ghost use Rattle.two_operations.specs.Outcome.{search_outcome, check_outcome, widest_outcome};

use refusals::Refusal;
use tables_widest::WidestTable;
use two_texts::MeasuredTexts;

// A shortest departure; keep gets the left's safe states, back and line are scratch, run gets the steps
// (SPECIFICATION 12.4).
pub fn search(
    period: usize,
    left: &[u8],
    right: &[u8],
    texts: MeasuredTexts,
    lm: &mut [u16],
    rm: &mut [u16],
    lh: &mut [u8],
    rh: &mut [u8],
    keep: &mut [u8],
    back: &mut [u32],
    line: &mut [u32],
    run: &mut [u32],
) -> Result<usize, Refusal>
    requires { MeasuresTwo period left.now right.now texts
        × Rooms texts (length lm.old) (length rm.old) (length lh.old) (length rh.old) }
    ensures { (◌≡◌ {A = Outcome} (record { answer = result; keep = keep.new; run = run.new })
        (search_outcome period left.now right.now keep.old (length back.old)
        (length line.old) run.old))
        × Scratch result back.old back.new line.old line.new }
{
    let t = two_texts::load_two(period, left, right, texts, lm, rm, lh, rh)?;
    search::search(t.sides, t.inputs, lm, rm, lh, rh, keep, back, line, run)
}

// The check of a given table; keep gets the left's safe states (SPECIFICATION 12.5).
pub fn check(
    period: usize,
    left: &[u8],
    right: &[u8],
    texts: MeasuredTexts,
    lm: &mut [u16],
    rm: &mut [u16],
    lh: &mut [u8],
    rh: &mut [u8],
    keep: &mut [u8],
    table: &[u8],
) -> Result<usize, Refusal>
    requires { MeasuresTwo period left.now right.now texts
        × Rooms texts (length lm.old) (length rm.old) (length lh.old) (length rh.old) }
    ensures { ◌≡◌ {A = Checked} (record { answer = result; keep = keep.new })
        (check_outcome period left.now right.now keep.old table.now) }
{
    let t = two_texts::load_two(period, left, right, texts, lm, rm, lh, rh)?;
    tables::check(t.sides, t.inputs, lm, rm, lh, rh, keep, table)
}

// The widest table; keep gets the left's safe states (SPECIFICATION 12.6).
pub fn widest(
    period: usize,
    left: &[u8],
    right: &[u8],
    texts: MeasuredTexts,
    lm: &mut [u16],
    rm: &mut [u16],
    lh: &mut [u8],
    rh: &mut [u8],
    keep: &mut [u8],
    table: &mut [u8],
) -> Result<WidestTable, Refusal>
    requires { MeasuresTwo period left.now right.now texts
        × Rooms texts (length lm.old) (length rm.old) (length lh.old) (length rh.old) }
    ensures { ◌≡◌ {A = Widened} (record { answer = result; keep = keep.new; table = table.new })
        (widest_outcome period left.now right.now keep.old table.old) }
{
    let t = two_texts::load_two(period, left, right, texts, lm, rm, lh, rh)?;
    tables::widest(t.sides, t.inputs, lm, rm, lh, rh, keep, table)
}
