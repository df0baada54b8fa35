// Carrying over a foil that was begun under document 01's rules: its state, which is only read, is checked by those
// rules and written as a state by today's, without the nets that a patch blocks. It has no `requires`, and what it
// writes stays on 128 places.
#![tactic(auto)]

mod nets;

ghost use Rattle.std.specs.Prelude.{◌≤◌, map, length};
ghost use Rattle.foil_spec.specs.Lists.{range};
ghost use Rattle.foil_spec.specs.Limits.{table_size, strips_size, report_places};
ghost use Rattle.foil_spec.specs.Carrying.{old as old_state, blocked_nets};
ghost use Rattle.foil_spec.specs.Lent.{lent, entry_at};
ghost use Rattle.carrying.specs.Carried.{CarryDone, OldRows, carried_layout, CarriedAs};

use foil::{Accepted, Answer, lists_short};
use foil_spec::{Board, OldBoard, REPORT_PLACES, Reason, TABLE_SIZE};
use nets::{MARK_PLACES, keep_unmarked, mark_nets, report_nets};
use state::old_sound;
use tables::take_over;

// Carries the old foil over: writes it by today's rules to the record, the table and the strips, and the nets that are
// lifted, rising, to the front of the report. Where it is refused, nothing is changed.
pub fn carry(
    table: &mut [u16],
    strips: &mut [u16],
    report: &mut [u16],
    board: &mut Board,
    old_table: &[u16],
    old_strips: &[u16],
    old: OldBoard,
) -> Answer
    ensures { CarryDone (old_state old old_table.now old_strips.now)
        (lent board.old table.old strips.old) report.old
        result board.new table.new strips.new report.new }
{
    if lists_short(table, strips)
        || lists_short(old_table, old_strips)
        || report.len() < REPORT_PLACES
    {
        return Err(Reason::LentTooLittle.into());
    }
    if !old_sound(old_table, old_strips, old) {
        return Err(Reason::BrokenState.into());
    }
    carry_rows(table, strips, report, board, old_table, old)
}

// Carries the entries of an old foil over that keeps document 01's rules.
fn carry_rows(
    table: &mut [u16],
    strips: &mut [u16],
    report: &mut [u16],
    board: &mut Board,
    old_table: &[u16],
    old: OldBoard,
) -> Answer
    requires old_rows { OldRows old_table.now old }
    requires table_size_in_bounds { (table_size ≤ length table.old) × (strips_size ≤ length strips.old)
        × (report_places ≤ length report.old) }
    ensures { CarriedAs
        (carried_layout old (map (entry_at old_table.now) (range 0 old.entries)))
        (blocked_nets old.reach (map (entry_at old_table.now) (range 0 old.entries)))
        (lent board.old table.old strips.old) report.old
        result board.new table.new strips.new report.new }
{
    let mut marks = [0u16; MARK_PLACES];
    mark_nets(&mut marks, old_table, old.entries, old.reach);
    let mut rows = [0u16; TABLE_SIZE];
    let left = keep_unmarked(&mut rows, old_table, old.entries, &marks);
    let today = Board {
        width: old.width,
        height: old.height,
        half: 0,
        gap: old.reach,
        entries: left,
        strips: 0,
    };
    *board = take_over(table, strips, &rows, left, today).ok_or(Reason::TooManyStrips)?;
    Ok(Accepted::Wrote(report_nets(report, &marks)))
}
