// What a call on a foil of a sheet begins with: 23, 12, 13 for the counts; the foil's rows are taken out; and the
// foil's own 13.
ghost use Rattle.std.specs.Prelude.{◌≡◌, []};
ghost use Rattle.tables.specs.Rows.{rows_of};
ghost use Rattle.foil.specs.Contract.{FirstChecked};
ghost use Rattle.sheet_rows.specs.Rows.{sheet_lent};
ghost use Rattle.sheet.specs.Parts.{sheet_opening, Lending, ListOpening, RecordLending, RecordChecked, Opening};

use foil::lent_refusal;
use foil_spec::{Board, MAX_BYTES, Reason, Refusal, STRIPS_SIZE, TABLE_SIZE};
use listing::too_many;
use sheet_rows::{FOILS, SHEET_SIZE, Sheet, board_at, counts_ok, take_out};

// The refusals before foil k is looked at: 23, 12, and 13 for the counts.
fn sheet_checks(sheet: Sheet, k: usize, table: &[u16], strips: &[u16]) -> Result<(), Refusal>
    ensures { FirstChecked (sheet_opening k
        (sheet_lent sheet.boards table.now strips.now)) result }
{
    if FOILS <= k {
        return Err(Reason::NoSuchFoil.into());
    }
    if table.len() < SHEET_SIZE {
        return Err(Reason::LentTooLittle.into());
    }
    if strips.len() < STRIPS_SIZE {
        return Err(Reason::LentTooLittle.into());
    }
    if !counts_ok(sheet) {
        return Err(Reason::BrokenState.into());
    }
    Ok(())
}

// These checks; where they are passed, foil k's entries are put into the rows, which are empty, and its record is
// answered.
pub(crate) fn lend_foil(
    rows: &mut [u16],
    table: &[u16],
    strips: &[u16],
    sheet: Sheet,
    k: usize,
) -> Result<Board, Refusal>
    requires { rows.old ≡ rows_of [] }
    ensures { Lending k (sheet_lent sheet.boards table.now strips.now)
        rows.new result }
{
    sheet_checks(sheet, k, table, strips)?;
    take_out(rows, table, sheet, k);
    Ok(board_at(sheet, k))
}

// The same, and the foil's own 13.
pub(crate) fn open_foil(
    rows: &mut [u16],
    table: &[u16],
    strips: &[u16],
    sheet: Sheet,
    k: usize,
) -> Result<Board, Refusal>
    requires { rows.old ≡ rows_of [] }
    ensures { Opening k (sheet_lent sheet.boards table.now strips.now)
        rows.new result }
{
    let board = lend_foil(rows, table, strips, sheet, k)?;
    lent_refusal(rows, strips, board)?;
    Ok(board)
}

// The checks of a list of nets: its own 12 comes after 23.
pub(crate) fn open_for_list(
    rows: &mut [u16],
    table: &[u16],
    strips: &[u16],
    sheet: Sheet,
    k: usize,
    wishes: &[u16],
    places: usize,
) -> Result<Board, Refusal>
    requires { rows.old ≡ rows_of [] }
    ensures { ListOpening k (sheet_lent sheet.boards table.now strips.now)
        wishes.now places rows.new result }
{
    if FOILS <= k {
        return Err(Reason::NoSuchFoil.into());
    }
    if too_many(wishes, places) {
        return Err(Reason::LentTooLittle.into());
    }
    open_foil(rows, table, strips, sheet, k)
}

// The checks before a record of the bytes is looked at: 18 comes after 23. Where they are passed, foil k's entries are
// put into the rows, which are empty.
pub(crate) fn lend_for_record(
    rows: &mut [u16],
    table: &[u16],
    strips: &[u16],
    sheet: Sheet,
    k: usize,
    bytes: &[u8],
) -> Result<Board, Refusal>
    requires { rows.old ≡ rows_of [] }
    ensures { RecordLending k (sheet_lent sheet.boards table.now strips.now)
        bytes.now rows.new result }
{
    if FOILS <= k {
        return Err(Reason::NoSuchFoil.into());
    }
    if MAX_BYTES < bytes.len() {
        return Err(Reason::FileTooLong.into());
    }
    lend_foil(rows, table, strips, sheet, k)
}

// The checks of a record at place `at`. At place 0, where a foil is begun, the foil is not looked at; later these are
// the checks before it and the foil's own 13.
pub(crate) fn check_for_record(
    table: &[u16],
    strips: &[u16],
    sheet: Sheet,
    k: usize,
    bytes: &[u8],
    at: usize,
) -> Result<(), Refusal>
    ensures { RecordChecked k (sheet_lent sheet.boards table.now strips.now)
        bytes.now at result }
{
    if at == 0 {
        return Ok(());
    }
    let mut rows = [0u16; TABLE_SIZE];
    let board = lend_for_record(&mut rows, table, strips, sheet, k, bytes)?;
    lent_refusal(&rows, strips, board)
}
