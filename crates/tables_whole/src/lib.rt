// The check of a table and the making of the widest table, over slices that stand for the two systems.
#![tactic(auto)]

ghost use Rattle.std.specs.Prelude.{◌≡◌, ◌*◌, ◌≤◌, length};
ghost use Rattle.bitmaps.specs.Packed.{bytes_for};
ghost use Rattle.tables_header.specs.Header.{table_bytes};
ghost use Rattle.tables_rows.specs.Given.{Slices};
ghost use Rattle.tables_whole.specs.Answer.{fault_of, raster_answer, Makes};

use move_tables::Sides;
use steps::Step;
use tables_check::FailedPair;
use tables_widest::WidestTable;

// What a table is refused for: 18, 19 with (s, t), 20 with the step and (s, t) (SPECIFICATION 13.1).
#[derive(Clone, Copy)]
pub enum TableFault {
    StartNotSet,
    NotAllowed(usize, usize),
    Broken(Step, usize, usize),
}

impl From<FailedPair> for TableFault {
    ghost from_gives = { λ found fault. fault ≡ fault_of found };

    fn from(found: FailedPair) -> TableFault {
        match found {
            FailedPair::NotAllowedAt(s, t) => TableFault::NotAllowed(s, t),
            FailedPair::BrokenAt(step, s, t) => TableFault::Broken(step, s, t),
        }
    }
}

// The check of a raster, 18, then 19 and 20 by pair: the number of pairs set, or what is refused.
#[tactic(auto, unfolding(crate::specs::Answer::raster_answer, crate::specs::Answer::answer_of))]
pub fn check_raster(
    raster: &[u8],
    keep: &[u8],
    holds: &[u8],
    lm: &[u16],
    rm: &[u16],
    sides: Sides,
) -> Result<usize, TableFault>
    requires { Slices keep.now holds.now lm.now rm.now sides
        × (sides.left_states * bytes_for sides.right_states ≤ length raster.now) }
    ensures { result ≡ raster_answer keep.now holds.now lm.now rm.now
        sides raster.now }
{
    let n = sides.left_states;
    let w = sides.right_states;
    if !tables_rows::is_set(raster, n, w, sides.left_start, sides.right_start) {
        return Err(TableFault::StartNotSet);
    }
    tables_check::scan(raster, keep, holds, lm, rm, sides)?;
    Ok(tables_count::pairs(raster, n, w))
}

// The widest table, header and raster, written into the front of the table.
pub fn make_widest(
    table: &mut [u8],
    keep: &[u8],
    holds: &[u8],
    lm: &[u16],
    rm: &[u16],
    sides: Sides,
) -> WidestTable
    requires { Slices keep.now holds.now lm.now rm.now sides
        × (table_bytes sides.right_states sides.left_states ≤ length table.old) }
    ensures { Makes keep.now holds.now lm.now rm.now sides
        table.old table.new result.count result.start }
{
    let n = sides.left_states;
    let w = sides.right_states;
    tables_header::write_header(table, w, n);
    let a = tables_header::header_length(w, n);
    tables_widest::widest(&mut table[a..], keep, holds, lm, rm, sides)
}
