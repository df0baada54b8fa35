// The calls on a foil of a sheet as a host program uses them: the records of the eight foils are lent by
// `&mut`, the table that they share as a slice of entry structs, the strip list of the foil called, and
// the foil's number. Each has the contract of the call of `sheet` on numbers. The crate `host_c` has the
// same calls for programs in C.
#![tactic(auto)]

mod records;
mod said;
mod table;

ghost use Rattle.std.specs.Prelude.{◌≡◌, [], length};
ghost use Rattle.foil_spec.specs.Limits.{sheet_foils};
ghost use Rattle.foil_spec.specs.Foil.{point, pen};
ghost use Rattle.foil_spec.specs.Ledger.{by_pen, new_foil, draw as draws, lay as lays, lift as lifts, put_leg};
ghost use Rattle.foil_spec.specs.Ledger.{join as joins, save as saves, find as finds, book as books, slip as slips};
ghost use Rattle.foil_spec.specs.Ledger.{look_up};
ghost use Rattle.host.specs.Calls.{HostDone, HostWrote, HostListed, HostRead, HostOhms};
ghost use Rattle.host.specs.Records.{HostRan};
ghost use Rattle.host.specs.Carried.{old_of, HostCarried};

use foil::Answer;
use foil_spec::{Board, Entry, Ink, OldBoard, Point};
use job::Reply;
use ohms::Resistance;
pub use records::{RecordSaid, StepSaid, record_said_of};
pub use said::{OhmsSaid, Said, ohms_said, said_of};
use sheet_rows::{FOILS, Sheet};
use table::{load, numbers_lent, store};

// A lent array is known to have its length: the records of a sheet are eight.
fn eight(boards: &[Board; FOILS])
    ensures { length boards.now ≡ sheet_foils }
{}

// Begins foil k, w by h with a pen of this half width and gap: no entries, and one strip, what the edge
// leaves, or none.
pub fn new_foil(
    sheet: &mut Sheet,
    table: &mut [Entry],
    strips: &mut [u16],
    k: usize,
    w: u16,
    h: u16,
    half: u16,
    gap: u16,
) -> Answer
    ensures { HostDone k (new_foil w h (by_pen (pen half gap)))
        sheet.old table.old strips.old
        result sheet.new table.new strips.new }
{
    eight(&sheet.boards);
    let mut numbers = load(table);
    let n = numbers_lent(table.len());
    let answer = sheet::new_foil(&mut numbers[..n], strips, sheet, k, w, h, half, gap);
    store(table, &numbers);
    answer
}

// Draws a patch: appends an entry of net 0.
pub fn draw(
    sheet: &mut Sheet,
    table: &mut [Entry],
    strips: &mut [u16],
    k: usize,
    x0: u16,
    y0: u16,
    x1: u16,
    y1: u16,
) -> Answer
    ensures { HostDone k (draws x0 y0 x1 y1)
        sheet.old table.old strips.old
        result sheet.new table.new strips.new }
{
    eight(&sheet.boards);
    let mut numbers = load(table);
    let n = numbers_lent(table.len());
    let answer = sheet::draw(&mut numbers[..n], strips, sheet, k, x0, y0, x1, y1);
    store(table, &numbers);
    answer
}

// Lays a track of the net from (sx, sy) to (tx, ty): writes its corners to the front of the corner
// list, and appends an entry for each leg.
pub fn lay(
    sheet: &mut Sheet,
    table: &mut [Entry],
    strips: &mut [u16],
    corners: &mut [u16],
    k: usize,
    net: u16,
    sx: u16,
    sy: u16,
    tx: u16,
    ty: u16,
) -> Answer
    ensures { HostWrote k (lays net (point sx sy) (point tx ty))
        sheet.old table.old strips.old corners.old
        result sheet.new table.new strips.new corners.new }
{
    eight(&sheet.boards);
    let mut numbers = load(table);
    let n = numbers_lent(table.len());
    let from = Point { x: sx, y: sy };
    let to = Point { x: tx, y: ty };
    let answer = sheet::lay(&mut numbers[..n], strips, corners, sheet, k, net, from, to);
    store(table, &numbers);
    answer
}

// Lays the nets of a list, five numbers each, one after the other: writes their corners one after the
// other to the front of the corner list, and three numbers for each answer to the front of theirs: that
// of a refusal, 0 for none, and those of corners and bends.
pub fn lay_list(
    sheet: &mut Sheet,
    table: &mut [Entry],
    strips: &mut [u16],
    corners: &mut [u16],
    answers: &mut [u16],
    wishes: &[u16],
    k: usize,
) -> Answer
    ensures { HostListed k wishes.now
        sheet.old table.old strips.old corners.old answers.old
        result sheet.new table.new strips.new corners.new answers.new }
{
    eight(&sheet.boards);
    let mut numbers = load(table);
    let n = numbers_lent(table.len());
    let answer = sheet::lay_list(
        &mut numbers[..n],
        strips,
        corners,
        answers,
        sheet,
        k,
        wishes,
    );
    store(table, &numbers);
    answer
}

// Joins the point (sx, sy) to the net, which has legs: writes the corners of the way to them to the
// front of the corner list, and appends an entry of the same net for each leg of the way.
pub fn join(
    sheet: &mut Sheet,
    table: &mut [Entry],
    strips: &mut [u16],
    corners: &mut [u16],
    k: usize,
    net: u16,
    sx: u16,
    sy: u16,
) -> Answer
    ensures { HostWrote k (joins net (point sx sy))
        sheet.old table.old strips.old corners.old
        result sheet.new table.new strips.new corners.new }
{
    eight(&sheet.boards);
    let mut numbers = load(table);
    let n = numbers_lent(table.len());
    let from = Point { x: sx, y: sy };
    let answer = sheet::join(&mut numbers[..n], strips, corners, sheet, k, net, from);
    store(table, &numbers);
    answer
}

// Finds the track from (sx, sy) to (tx, ty): writes its corners to the front of the corner list. The
// foil is not changed.
pub fn find(
    sheet: &Sheet,
    table: &[Entry],
    strips: &[u16],
    corners: &mut [u16],
    k: usize,
    sx: u16,
    sy: u16,
    tx: u16,
    ty: u16,
) -> Answer
    ensures { HostRead k (finds (point sx sy) (point tx ty))
        sheet.now table.now strips.now corners.old
        result corners.new }
{
    eight(&sheet.boards);
    let numbers = load(table);
    let n = numbers_lent(table.len());
    let from = Point { x: sx, y: sy };
    let to = Point { x: tx, y: ty };
    sheet::find(corners, &numbers[..n], strips, *sheet, k, from, to)
}

// Books the way that the corner list draws, all of it, as a track of the net: appends an entry for each
// leg. The list is only read.
pub fn book(
    sheet: &mut Sheet,
    table: &mut [Entry],
    strips: &mut [u16],
    corners: &[u16],
    k: usize,
    net: u16,
) -> Answer
    ensures { HostDone k (books net corners.now)
        sheet.old table.old strips.old
        result sheet.new table.new strips.new }
{
    eight(&sheet.boards);
    let mut numbers = load(table);
    let n = numbers_lent(table.len());
    let answer = sheet::book(&mut numbers[..n], strips, sheet, k, net, corners);
    store(table, &numbers);
    answer
}

// Lifts a net: takes out all its entries, the rest keeping their order.
pub fn lift(
    sheet: &mut Sheet,
    table: &mut [Entry],
    strips: &mut [u16],
    k: usize,
    net: u16,
) -> Answer
    ensures { HostDone k (lifts net)
        sheet.old table.old strips.old
        result sheet.new table.new strips.new }
{
    eight(&sheet.boards);
    let mut numbers = load(table);
    let n = numbers_lent(table.len());
    let answer = sheet::lift(&mut numbers[..n], strips, sheet, k, net);
    store(table, &numbers);
    answer
}

// Puts a leg as booked: appends its entry, without any search.
pub fn put_leg(
    sheet: &mut Sheet,
    table: &mut [Entry],
    strips: &mut [u16],
    k: usize,
    leg: Entry,
) -> Answer
    ensures { HostDone k (put_leg leg)
        sheet.old table.old strips.old
        result sheet.new table.new strips.new }
{
    eight(&sheet.boards);
    let mut numbers = load(table);
    let n = numbers_lent(table.len());
    let answer = sheet::put_leg(&mut numbers[..n], strips, sheet, k, leg);
    store(table, &numbers);
    answer
}

// Looks a point up: the place of the one strip that holds it. Nothing is changed.
pub fn look_up(sheet: &Sheet, table: &[Entry], strips: &[u16], k: usize, x: u16, y: u16) -> Answer
    ensures { HostRead k (look_up (point x y))
        sheet.now table.now strips.now [] result [] }
{
    eight(&sheet.boards);
    let numbers = load(table);
    let n = numbers_lent(table.len());
    sheet::look_up(&numbers[..n], strips, *sheet, k, Point { x, y })
}

// Saves the foil: writes it as a job file to the front of `out`. The foil is not changed.
pub fn save(sheet: &Sheet, table: &[Entry], strips: &[u16], out: &mut [u8], k: usize) -> Answer
    ensures { HostRead k saves sheet.now table.now strips.now out.old
        result out.new }
{
    eight(&sheet.boards);
    let numbers = load(table);
    let n = numbers_lent(table.len());
    sheet::save(out, &numbers[..n], strips, *sheet, k)
}

// Writes the slip of the foil's tracks to the front of `out`. The foil is not changed.
pub fn slip(sheet: &Sheet, table: &[Entry], strips: &[u16], out: &mut [u8], k: usize) -> Answer
    ensures { HostRead k slips sheet.now table.now strips.now out.old
        result out.new }
{
    eight(&sheet.boards);
    let numbers = load(table);
    let n = numbers_lent(table.len());
    sheet::slip(out, &numbers[..n], strips, *sheet, k)
}

// The ohms of a net. Nothing is changed.
pub fn ohms(
    sheet: &Sheet,
    table: &[Entry],
    strips: &[u16],
    k: usize,
    net: u16,
    ink: Ink,
) -> Resistance
    ensures { HostOhms k net ink sheet.now table.now strips.now result }
{
    eight(&sheet.boards);
    let numbers = load(table);
    let n = numbers_lent(table.len());
    sheet::ohms(&numbers[..n], strips, *sheet, k, net, ink)
}

// Runs the record that begins at place `at` of a job file's bytes.
pub fn run_record(
    sheet: &mut Sheet,
    table: &mut [Entry],
    strips: &mut [u16],
    corners: &mut [u16],
    bytes: &[u8],
    k: usize,
    at: usize,
) -> Reply
    ensures { HostRan k bytes.now at
        sheet.old table.old strips.old corners.old
        result sheet.new table.new strips.new corners.new }
{
    eight(&sheet.boards);
    let mut numbers = load(table);
    let n = numbers_lent(table.len());
    let reply = sheet::run_record(&mut numbers[..n], strips, corners, sheet, k, bytes, at);
    store(table, &numbers);
    reply
}

// Carries a foil over that was begun under document 01's rules: its record, table and strips are only read. It is
// written by today's rules to the record, to the first 128 places of the table and to the strips, as a foil of its own,
// and the nets that are lifted, rising, to the front of the report.
pub fn carry(
    board: &mut Board,
    table: &mut [Entry],
    entries: &[Entry],
    strips: &mut [u16],
    report: &mut [u16],
    listed: &[u16],
    old: OldBoard,
) -> Answer
    ensures { HostCarried (old_of old entries.now listed.now)
        board.old table.old strips.old report.old
        result board.new table.new strips.new report.new }
{
    let old_numbers = load(entries);
    let m = numbers_lent(entries.len());
    let mut numbers = load(table);
    let n = numbers_lent(table.len());
    let answer = carrying::carry(
        &mut numbers[..n],
        strips,
        report,
        board,
        &old_numbers[..m],
        listed,
        old,
    );
    store(table, &numbers);
    answer
}
