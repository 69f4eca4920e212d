// The joined text of two texts, in slices that have room for both: the texts are judged by codes 24 and 1 to 12, their
// records are joined, and the joined record is written (SPECIFICATION 12.10, 18). The text is written into an array
// first, because a refusal leaves the slice as it came, and one byte more than the longest text tells that it is too
// long.
#![tactic(auto)]

ghost use Rattle.std.specs.Prelude.{◌≡◌, length};
ghost use Rattle.clocks.specs.States.{state_count};
ghost use Rattle.clocks_states.specs.Parts.{Countable};
ghost use Rattle.two_texts.specs.Measured.{MeasuresTwo, Rooms};
ghost use Rattle.pairing.specs.Channels.{right_step};
ghost use Rattle.joined.specs.Joined.{joined_text};
ghost use Rattle.written.specs.Underscores.{written_text};
ghost use Rattle.written_names.specs.Spelled.{channel_spellings};
ghost use Rattle.writer_lists.specs.Lists.{TextWithin};
ghost use Rattle.joining.specs.Outcome.{Outcome, record_outcome, join_outcome};
ghost use Rattle.joining.specs.Ready.{room, Ready, bytes_outcome};

use limits::{LARGEST_TEXT, STATE_LIMIT};
use reader_record::Text;
use refusals::{File, Refusal};
use two_texts::MeasuredTexts;

// Room for the longest text and one byte more.
const ROOM: usize = LARGEST_TEXT + 1;

// It stands behind a function because antt must not unfold an array of this length.
fn no_bytes() -> [u8; ROOM]
    ensures { length result ≡ room }
{
    [0u8; ROOM]
}

// How many states a record has.
fn states_of(t: Text) -> usize
    requires { Countable t }
    ensures { result ≡ state_count t }
{
    let ranges = clocks_states::ranges_of(t);
    clocks_states::state_count_of(t.location_count, ranges)
}

// Writes the text of a record whose channels are named in the text s: code 25 where it is too long, then 26.
fn write_text(s: &[u8], t: Text, out: &mut [u8]) -> Result<usize, Refusal>
    requires { TextWithin s.now t }
    ensures { ◌≡◌ {A = Outcome} (record { answer = result; out = out.new })
        (bytes_outcome (written_text (channel_spellings s.now t) t) out.old) }
{
    let channels = t.channels;
    let u = writer_names::underscores(
        s,
        channels,
        t.channel_count,
        t.clock_count,
        t.location_count,
    );
    let mut text = no_bytes();
    let n = writer::put_text(&mut text, 0, s, u, t);
    if LARGEST_TEXT < n {
        return Err(Refusal::LimitExceeded(File::None));
    }
    if out.len() < n {
        return Err(Refusal::OutTooShort(File::None, n));
    }
    byte_slices::put_bytes(out, 0, &text[..n]);
    Ok(n)
}

// Joins the records of two accepted texts with equal channels and writes the joined record.
fn join_accepted(
    left: &[u8],
    l: Text,
    right: &[u8],
    r: Text,
    out: &mut [u8],
) -> Result<usize, Refusal>
    requires { Ready left.now l r }
    ensures { ◌≡◌ {A = Outcome} (record { answer = result; out = out.new })
        (record_outcome (joined_text (right_step left.now l right.now r) l r)
        (written_text (channel_spellings left.now l)
        (joined_text (right_step left.now l right.now r) l r)) out.old) }
{
    let pairing = pairing::pair_channels(left, l, right, r);
    let t = joining_record::join_records(l, r, pairing.map).ok_or(Refusal::LimitExceeded(
        File::None,
    ))?;
    if STATE_LIMIT < states_of(t) {
        return Err(Refusal::LimitExceeded(File::None));
    }
    write_text(left, t, out)
}

// Judges two texts by codes 24 and 1 to 12 and joins them: the length of the joined text, which stands at the front of
// the slice, or the refusal (SPECIFICATION 12.10).
pub fn join(
    period: usize,
    left: &[u8],
    right: &[u8],
    texts: MeasuredTexts,
    lm: &mut [u16],
    rm: &mut [u16],
    lh: &mut [u8],
    rh: &mut [u8],
    out: &mut [u8],
) -> Result<usize, Refusal>
    requires { MeasuresTwo period left.now right.now texts
        × Rooms texts (length lm.old) (length rm.old) (length lh.old) (length rh.old) }
    ensures { ◌≡◌ {A = Outcome} (record { answer = result; out = out.new })
        (join_outcome period left.now right.now out.old) }
{
    two_texts::load_two(period, left, right, texts, lm, rm, lh, rh)?;
    let ours = texts.left.unwrap();
    let theirs = texts.right.unwrap();
    join_accepted(left, ours.text, right, theirs.text, out)
}
