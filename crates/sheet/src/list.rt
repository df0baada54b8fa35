// Laying a list of nets on a foil of a sheet.
ghost use Rattle.sheet_rows.specs.Rows.{sheet_lent};
ghost use Rattle.sheet.specs.Contract.{SheetListDone};

use crate::checks::open_for_list;
use crate::finishing::close;
use foil::{Accepted, Answer};
use foil_spec::TABLE_SIZE;
use listing::lay_list_in;
use sheet_rows::{Sheet, limit};

// Lays the nets of a list on foil k, five numbers each: their corners one after the other at the front of the corner
// list, and three numbers for each answer at the front of theirs.
pub fn lay_list(
    table: &mut [u16],
    strips: &mut [u16],
    corners: &mut [u16],
    answers: &mut [u16],
    sheet: &mut Sheet,
    k: usize,
    wishes: &[u16],
) -> Answer
    ensures { SheetListDone k wishes.now
        (sheet_lent sheet.old.boards table.old strips.old) corners.old
        answers.old result sheet.new table.new strips.new corners.new
        answers.new }
{
    let mut rows = [0u16; TABLE_SIZE];
    let places = answers.len() / 3;
    let mut board = open_for_list(&mut rows, table, strips, *sheet, k, wishes, places)?;
    let most = limit(*sheet, k);
    let laid = lay_list_in(
        &mut rows, strips, corners, answers, &mut board, most, wishes,
    );
    close(table, &rows, sheet, k, board, laid);
    Ok(Accepted::Done)
}
