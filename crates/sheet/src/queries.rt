// The calls that only read a foil of a sheet.
ghost use Rattle.std.specs.Prelude.{[]};
ghost use Rattle.foil_spec.specs.Ledger.{look_up, find as finds, save as saves, slip as slips};
ghost use Rattle.sheet_rows.specs.Rows.{sheet_lent};
ghost use Rattle.sheet.specs.Contract.{SheetReadDone, SheetOhmsDone};

use crate::checks::open_foil;
use finding::find_in;
use foil::{Answer, look_up_in};
use foil_spec::{Ink, Point, TABLE_SIZE};
use ohms::{Resistance, net_ohms};
use saving::save_in;
use sheet_rows::Sheet;
use slips::slip_in;

// Looks a point of foil k up: the place of the one strip that holds it.
pub fn look_up(table: &[u16], strips: &[u16], sheet: Sheet, k: usize, point: Point) -> Answer
    ensures { SheetReadDone k (look_up point)
        (sheet_lent sheet.boards table.now strips.now) [] result [] }
{
    let mut rows = [0u16; TABLE_SIZE];
    let board = open_foil(&mut rows, table, strips, sheet, k)?;
    look_up_in(&rows, strips, board, point)
}

// Finds the track between two points on foil k: writes its corners to the front of the corner list.
pub fn find(
    corners: &mut [u16],
    table: &[u16],
    strips: &[u16],
    sheet: Sheet,
    k: usize,
    from: Point,
    to: Point,
) -> Answer
    ensures { SheetReadDone k (finds from to)
        (sheet_lent sheet.boards table.now strips.now) corners.old
        result corners.new }
{
    let mut rows = [0u16; TABLE_SIZE];
    let board = open_foil(&mut rows, table, strips, sheet, k)?;
    find_in(corners, &rows, strips, board, from, to)
}

// Writes foil k as a job file to the front of `out`, and answers the number of its bytes.
pub fn save(out: &mut [u8], table: &[u16], strips: &[u16], sheet: Sheet, k: usize) -> Answer
    ensures { SheetReadDone k saves
        (sheet_lent sheet.boards table.now strips.now) out.old
        result out.new }
{
    let mut rows = [0u16; TABLE_SIZE];
    let board = open_foil(&mut rows, table, strips, sheet, k)?;
    save_in(out, &rows, strips, board)
}

// Writes the slip of foil k to the front of `out`, and answers the number of its bytes.
pub fn slip(out: &mut [u8], table: &[u16], strips: &[u16], sheet: Sheet, k: usize) -> Answer
    ensures { SheetReadDone k slips
        (sheet_lent sheet.boards table.now strips.now) out.old
        result out.new }
{
    let mut rows = [0u16; TABLE_SIZE];
    let board = open_foil(&mut rows, table, strips, sheet, k)?;
    slip_in(out, &rows, strips, board)
}

// The resistance of a net of foil k.
pub fn ohms(table: &[u16], strips: &[u16], sheet: Sheet, k: usize, net: u16, ink: Ink) -> Resistance
    ensures { SheetOhmsDone k net ink
        (sheet_lent sheet.boards table.now strips.now) result }
{
    let mut rows = [0u16; TABLE_SIZE];
    match open_foil(&mut rows, table, strips, sheet, k) {
        Ok(board) => net_ohms(&rows, board.entries, net, ink),
        Err(refusal) => refusal.into(),
    }
}
