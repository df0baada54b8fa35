// The calls for programs in C, under plain names: each is the call in Rattle, its answer told by its
// numbers.
#![tactic(auto)]

ghost use Rattle.std.specs.Prelude.{[]};
ghost use Rattle.foil_spec.specs.Foil.{point, pen};
ghost use Rattle.foil_spec.specs.Ledger.{by_pen, new_foil, draw as draws, lay as lays, lift as lifts, put_leg};
ghost use Rattle.foil_spec.specs.Ledger.{join as joins, save as saves, find as finds, book as books, slip as slips};
ghost use Rattle.foil_spec.specs.Ledger.{look_up};
ghost use Rattle.host.specs.Calls.{ToldBy, said_of, ohms_said, HostDone, HostWrote, HostListed, HostRead};
ghost use Rattle.host.specs.Calls.{HostOhms};
ghost use Rattle.host.specs.Records.{record_said_of, HostRan};
ghost use Rattle.host.specs.Carried.{old_of, HostCarried};

use foil_spec::{Board, Entry, Ink, OldBoard};
use host::{
    OhmsSaid, RecordSaid, Said, book, carry, draw, find, join, lay, lay_list, lift, look_up,
    new_foil, ohms, ohms_said, put_leg, record_said_of, run_record, said_of, save, slip,
};
use sheet_rows::Sheet;

// Begins foil k, w by h with a pen of this half width and gap: no entries, and one strip, what the edge
// leaves, or none.
#[unsafe(no_mangle)]
pub extern "C" fn foil_new_foil(
    sheet: &mut Sheet,
    table: &mut [Entry],
    strips: &mut [u16],
    k: usize,
    w: u16,
    h: u16,
    half: u16,
    gap: u16,
) -> Said
    ensures { ToldBy said_of (λ a. HostDone k (new_foil w h (by_pen (pen half gap)))
        sheet.old table.old strips.old
        a sheet.new table.new strips.new) result }
{
    said_of(new_foil(sheet, table, strips, k, w, h, half, gap))
}

// Draws a patch: appends an entry of net 0.
#[unsafe(no_mangle)]
pub extern "C" fn foil_draw(
    sheet: &mut Sheet,
    table: &mut [Entry],
    strips: &mut [u16],
    k: usize,
    x0: u16,
    y0: u16,
    x1: u16,
    y1: u16,
) -> Said
    ensures { ToldBy said_of (λ a. HostDone k (draws x0 y0 x1 y1)
        sheet.old table.old strips.old
        a sheet.new table.new strips.new) result }
{
    said_of(draw(sheet, table, strips, k, x0, y0, x1, y1))
}

// Lays a track of the net from (sx, sy) to (tx, ty): writes its corners to the front of the corner
// list, and appends an entry for each leg.
#[unsafe(no_mangle)]
pub extern "C" fn foil_lay(
    sheet: &mut Sheet,
    table: &mut [Entry],
    strips: &mut [u16],
    corners: &mut [u16],
    k: usize,
    net: u16,
    sx: u16,
    sy: u16,
    tx: u16,
    ty: u16,
) -> Said
    ensures { ToldBy said_of (λ a. HostWrote k (lays net (point sx sy) (point tx ty))
        sheet.old table.old strips.old corners.old
        a sheet.new table.new strips.new corners.new) result }
{
    said_of(lay(sheet, table, strips, corners, k, net, sx, sy, tx, ty))
}

// Lays the nets of a list, five numbers each, one after the other: writes their corners one after the
// other to the front of the corner list, and three numbers for each answer to the front of theirs.
#[unsafe(no_mangle)]
pub extern "C" fn foil_lay_list(
    sheet: &mut Sheet,
    table: &mut [Entry],
    strips: &mut [u16],
    corners: &mut [u16],
    answers: &mut [u16],
    wishes: &[u16],
    k: usize,
) -> Said
    ensures { ToldBy said_of (λ a. HostListed k wishes.now
        sheet.old table.old strips.old corners.old
        answers.old a sheet.new table.new strips.new
        corners.new answers.new) result }
{
    said_of(lay_list(sheet, table, strips, corners, answers, wishes, k))
}

// Joins the point (sx, sy) to the net, which has legs: writes the corners of the way to them to the
// front of the corner list, and appends an entry of the same net for each leg of the way.
#[unsafe(no_mangle)]
pub extern "C" fn foil_join(
    sheet: &mut Sheet,
    table: &mut [Entry],
    strips: &mut [u16],
    corners: &mut [u16],
    k: usize,
    net: u16,
    sx: u16,
    sy: u16,
) -> Said
    ensures { ToldBy said_of (λ a. HostWrote k (joins net (point sx sy))
        sheet.old table.old strips.old corners.old
        a sheet.new table.new strips.new corners.new) result }
{
    said_of(join(sheet, table, strips, corners, k, net, sx, sy))
}

// Finds the track from (sx, sy) to (tx, ty): writes its corners to the front of the corner list. The
// foil is not changed.
#[unsafe(no_mangle)]
pub extern "C" fn foil_find(
    sheet: &Sheet,
    table: &[Entry],
    strips: &[u16],
    corners: &mut [u16],
    k: usize,
    sx: u16,
    sy: u16,
    tx: u16,
    ty: u16,
) -> Said
    ensures { ToldBy said_of (λ a. HostRead k (finds (point sx sy) (point tx ty))
        sheet.now table.now strips.now corners.old
        a corners.new) result }
{
    said_of(find(sheet, table, strips, corners, k, sx, sy, tx, ty))
}

// Books the way that the corner list draws, all of it, as a track of the net: appends an entry for each
// leg. The list is only read.
#[unsafe(no_mangle)]
pub extern "C" fn foil_book(
    sheet: &mut Sheet,
    table: &mut [Entry],
    strips: &mut [u16],
    corners: &[u16],
    k: usize,
    net: u16,
) -> Said
    ensures { ToldBy said_of (λ a. HostDone k (books net corners.now)
        sheet.old table.old strips.old
        a sheet.new table.new strips.new) result }
{
    said_of(book(sheet, table, strips, corners, k, net))
}

// Lifts a net: takes out all its entries, the rest keeping their order.
#[unsafe(no_mangle)]
pub extern "C" fn foil_lift(
    sheet: &mut Sheet,
    table: &mut [Entry],
    strips: &mut [u16],
    k: usize,
    net: u16,
) -> Said
    ensures { ToldBy said_of (λ a. HostDone k (lifts net)
        sheet.old table.old strips.old
        a sheet.new table.new strips.new) result }
{
    said_of(lift(sheet, table, strips, k, net))
}

// Puts a leg as booked: appends its entry, without any search.
#[unsafe(no_mangle)]
pub extern "C" fn foil_put_leg(
    sheet: &mut Sheet,
    table: &mut [Entry],
    strips: &mut [u16],
    k: usize,
    leg: Entry,
) -> Said
    ensures { ToldBy said_of (λ a. HostDone k (put_leg leg)
        sheet.old table.old strips.old
        a sheet.new table.new strips.new) result }
{
    said_of(put_leg(sheet, table, strips, k, leg))
}

// Looks a point up: the place of the one strip that holds it. Nothing is changed.
#[unsafe(no_mangle)]
pub extern "C" fn foil_look_up(
    sheet: &Sheet,
    table: &[Entry],
    strips: &[u16],
    k: usize,
    x: u16,
    y: u16,
) -> Said
    ensures { ToldBy said_of (λ a. HostRead k (look_up (point x y))
        sheet.now table.now strips.now [] a []) result }
{
    said_of(look_up(sheet, table, strips, k, x, y))
}

// Saves the foil: writes it as a job file to the front of `out`. The foil is not changed.
#[unsafe(no_mangle)]
pub extern "C" fn foil_save(
    sheet: &Sheet,
    table: &[Entry],
    strips: &[u16],
    out: &mut [u8],
    k: usize,
) -> Said
    ensures { ToldBy said_of (λ a. HostRead k saves
        sheet.now table.now strips.now out.old
        a out.new) result }
{
    said_of(save(sheet, table, strips, out, k))
}

// Writes the slip of the foil's tracks to the front of `out`. The foil is not changed.
#[unsafe(no_mangle)]
pub extern "C" fn foil_slip(
    sheet: &Sheet,
    table: &[Entry],
    strips: &[u16],
    out: &mut [u8],
    k: usize,
) -> Said
    ensures { ToldBy said_of (λ a. HostRead k slips
        sheet.now table.now strips.now out.old
        a out.new) result }
{
    said_of(slip(sheet, table, strips, out, k))
}

// The ohms of a net. Nothing is changed.
#[unsafe(no_mangle)]
pub extern "C" fn foil_ohms(
    sheet: &Sheet,
    table: &[Entry],
    strips: &[u16],
    k: usize,
    net: u16,
    ink: Ink,
) -> OhmsSaid
    ensures { ToldBy ohms_said (λ a. HostOhms k net ink
        sheet.now table.now strips.now a) result }
{
    ohms_said(ohms(sheet, table, strips, k, net, ink))
}

// Runs the record that begins at place `at` of a job file's bytes.
#[unsafe(no_mangle)]
pub extern "C" fn foil_run_record(
    sheet: &mut Sheet,
    table: &mut [Entry],
    strips: &mut [u16],
    corners: &mut [u16],
    bytes: &[u8],
    k: usize,
    at: usize,
) -> RecordSaid
    ensures { ToldBy record_said_of (λ a. HostRan k bytes.now at
        sheet.old table.old strips.old corners.old
        a sheet.new table.new strips.new corners.new) result }
{
    record_said_of(run_record(sheet, table, strips, corners, bytes, k, at))
}

// Carries a foil over that was begun under document 01's rules: its record, table and strips are only read. It is
// written by today's rules to the record, to the first 128 places of the table and to the strips, as a foil of its own,
// and the nets that are lifted, rising, to the front of the report.
#[unsafe(no_mangle)]
pub extern "C" fn foil_carry(
    board: &mut Board,
    table: &mut [Entry],
    entries: &[Entry],
    strips: &mut [u16],
    report: &mut [u16],
    listed: &[u16],
    old: OldBoard,
) -> Said
    ensures { ToldBy said_of (λ a. HostCarried (old_of old entries.now listed.now)
        board.old table.old strips.old report.old
        a board.new table.new strips.new report.new) result }
{
    said_of(carry(board, table, entries, strips, report, listed, old))
}
