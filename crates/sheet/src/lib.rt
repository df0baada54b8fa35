// The calls on a foil of a sheet, over slices of numbers: the table of the eight foils has 512 places of five numbers,
// and the strip list is that of the foil called. None has a `requires`: whatever is lent, each answers, and changes
// only what documents 01 and 02 say. Each is its checks, taking the foil's rows out of the table, the body that there
// is for a foil of its own, with as many entries as the other foils leave to it, and putting the rows back where it
// wrote entries. Those that only read stand in `queries`, a record in `record`, and a list of nets in `list`.
#![tactic(auto)]

mod checks;
mod finishing;
mod list;
mod queries;
mod record;

ghost use Rattle.foil_spec.specs.Foil.{pen};
ghost use Rattle.foil_spec.specs.Ledger.{by_pen, new_foil, draw as draws, put_leg, lift as lifts, book as books};
ghost use Rattle.foil_spec.specs.Ledger.{lay as lays, join as joins};
ghost use Rattle.sheet_rows.specs.Rows.{sheet_lent};
ghost use Rattle.sheet.specs.Contract.{SheetStepDone, SheetOutputDone};

use booking::book_in;
use checks::{lend_foil, open_foil};
use finishing::close;
use foil::{Answer, Clearance, draw_in, lift_in, new_foil_in, put_leg_in};
use foil_spec::{Entry, Point, TABLE_SIZE};
use joining::join_in;
use laying::lay_in;
pub use list::lay_list;
pub use queries::{find, look_up, ohms, save, slip};
pub use record::{continue_job, run_record};
pub use sheet_rows::Sheet;
use sheet_rows::limit;

// Begins foil k: w by h, with a pen of this half width and gap.
pub fn new_foil(
    table: &mut [u16],
    strips: &mut [u16],
    sheet: &mut Sheet,
    k: usize,
    w: u16,
    h: u16,
    half: u16,
    gap: u16,
) -> Answer
    ensures { SheetStepDone k (new_foil w h (by_pen (pen half gap)))
        (sheet_lent sheet.old.boards table.old strips.old)
        result sheet.new table.new strips.new }
{
    let mut rows = [0u16; TABLE_SIZE];
    let mut board = lend_foil(&mut rows, table, strips, *sheet, k)?;
    let answer = new_foil_in(
        &mut rows,
        strips,
        &mut board,
        w,
        h,
        Clearance::Pen(half, gap),
    );
    close(table, &rows, sheet, k, board, answer.is_ok());
    answer
}

// Draws a patch on foil k.
pub fn draw(
    table: &mut [u16],
    strips: &mut [u16],
    sheet: &mut Sheet,
    k: usize,
    x0: u16,
    y0: u16,
    x1: u16,
    y1: u16,
) -> Answer
    ensures { SheetStepDone k (draws x0 y0 x1 y1)
        (sheet_lent sheet.old.boards table.old strips.old)
        result sheet.new table.new strips.new }
{
    let mut rows = [0u16; TABLE_SIZE];
    let mut board = open_foil(&mut rows, table, strips, *sheet, k)?;
    let most = limit(*sheet, k);
    let answer = draw_in(&mut rows, strips, &mut board, most, x0, y0, x1, y1);
    close(table, &rows, sheet, k, board, answer.is_ok());
    answer
}

// Puts a leg on foil k as booked.
pub fn put_leg(
    table: &mut [u16],
    strips: &mut [u16],
    sheet: &mut Sheet,
    k: usize,
    leg: Entry,
) -> Answer
    ensures { SheetStepDone k (put_leg leg)
        (sheet_lent sheet.old.boards table.old strips.old)
        result sheet.new table.new strips.new }
{
    let mut rows = [0u16; TABLE_SIZE];
    let mut board = open_foil(&mut rows, table, strips, *sheet, k)?;
    let most = limit(*sheet, k);
    let answer = put_leg_in(&mut rows, strips, &mut board, most, leg);
    close(table, &rows, sheet, k, board, answer.is_ok());
    answer
}

// Lifts a net of foil k.
pub fn lift(table: &mut [u16], strips: &mut [u16], sheet: &mut Sheet, k: usize, net: u16) -> Answer
    ensures { SheetStepDone k (lifts net)
        (sheet_lent sheet.old.boards table.old strips.old)
        result sheet.new table.new strips.new }
{
    let mut rows = [0u16; TABLE_SIZE];
    let mut board = open_foil(&mut rows, table, strips, *sheet, k)?;
    let answer = lift_in(&mut rows, strips, &mut board, net);
    close(table, &rows, sheet, k, board, answer.is_ok());
    answer
}

// Books the way that the lent list draws on foil k. The list is only read.
pub fn book(
    table: &mut [u16],
    strips: &mut [u16],
    sheet: &mut Sheet,
    k: usize,
    net: u16,
    corners: &[u16],
) -> Answer
    ensures { SheetStepDone k (books net corners.now)
        (sheet_lent sheet.old.boards table.old strips.old)
        result sheet.new table.new strips.new }
{
    let mut rows = [0u16; TABLE_SIZE];
    let mut board = open_foil(&mut rows, table, strips, *sheet, k)?;
    let most = limit(*sheet, k);
    let answer = book_in(&mut rows, strips, &mut board, most, net, corners);
    close(table, &rows, sheet, k, board, answer.is_ok());
    answer
}

// Lays a track of the net between two points on foil k, its corners at the front of the corner list.
pub fn lay(
    table: &mut [u16],
    strips: &mut [u16],
    corners: &mut [u16],
    sheet: &mut Sheet,
    k: usize,
    net: u16,
    from: Point,
    to: Point,
) -> Answer
    ensures { SheetOutputDone k (lays net from to)
        (sheet_lent sheet.old.boards table.old strips.old) corners.old
        result sheet.new table.new strips.new corners.new }
{
    let mut rows = [0u16; TABLE_SIZE];
    let mut board = open_foil(&mut rows, table, strips, *sheet, k)?;
    let most = limit(*sheet, k);
    let answer = lay_in(&mut rows, strips, corners, &mut board, most, net, from, to);
    close(table, &rows, sheet, k, board, answer.is_ok());
    answer
}

// Joins a point to a net of foil k, the corners of the way at the front of the corner list.
pub fn join(
    table: &mut [u16],
    strips: &mut [u16],
    corners: &mut [u16],
    sheet: &mut Sheet,
    k: usize,
    net: u16,
    from: Point,
) -> Answer
    ensures { SheetOutputDone k (joins net from)
        (sheet_lent sheet.old.boards table.old strips.old) corners.old
        result sheet.new table.new strips.new corners.new }
{
    let mut rows = [0u16; TABLE_SIZE];
    let mut board = open_foil(&mut rows, table, strips, *sheet, k)?;
    let most = limit(*sheet, k);
    let answer = join_in(&mut rows, strips, corners, &mut board, most, net, from);
    close(table, &rows, sheet, k, board, answer.is_ok());
    answer
}
