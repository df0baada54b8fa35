// What is written.
ghost use Rattle.std.specs.Prelude.{◌≤◌, length};

use foil::{Accepted, Answer};
use foil_spec::Point;
use sheet::{Sheet, look_up};
use sheet_rows::board_at;

// Ends a line.
pub(crate) fn end() {
    io::write_all(1, b"\n");
}

// Words, then a number.
pub(crate) fn count(words: &[u8], n: u64) {
    io::write_all(1, words);
    io::print_decimal(1, n);
}

// Words, then an answer: the number of a refusal, the place of a strip, or 0.
pub(crate) fn answer(words: &[u8], answer: Answer) {
    io::write_all(1, words);
    match answer {
        Err(refusal) => count(b"", u64::from(refusal.number())),
        Ok(Accepted::Found(place)) => count(b"strip ", place as u64),
        Ok(_) => count(b"", 0),
    }
}

// The size of a foil.
pub(crate) fn size(w: u16, h: u16) {
    count(b"", u64::from(w));
    count(b" by ", u64::from(h));
}

// Words, then a pen.
pub(crate) fn pen(words: &[u8], half: u16, gap: u16) {
    io::write_all(1, words);
    count(b"half width ", u64::from(half));
    count(b", gap ", u64::from(gap));
}

// Foil 0 by its record.
pub(crate) fn record(sheet: Sheet) {
    let board = board_at(sheet, 0);
    size(board.width, board.height);
    count(b": entries ", board.entries as u64);
    count(b", strips ", board.strips as u64);
}

// A line on foil 0 by its record.
pub(crate) fn foil(sheet: Sheet) {
    record(sheet);
    end();
}

// A line on a point that is looked up.
pub(crate) fn point(table: &[u16], strips: &[u16], sheet: Sheet, x: u16, y: u16) {
    count(b"point ", u64::from(x));
    count(b",", u64::from(y));
    answer(b": ", look_up(table, strips, sheet, 0, Point { x, y }));
    end();
}

// A line on foil 0 by its record, and one on each of the first three strips of the list.
pub(crate) fn three_strips(list: &[u16], sheet: Sheet)
    requires { 12 ≤ length list.now }
{
    foil(sheet);
    strip(list[0], list[1], list[2], list[3]);
    strip(list[4], list[5], list[6], list[7]);
    strip(list[8], list[9], list[10], list[11]);
}

// A line on a strip.
fn strip(x0: u16, y0: u16, x1: u16, y1: u16) {
    count(b"strip ", u64::from(x0));
    count(b" ", u64::from(y0));
    count(b" ", u64::from(x1));
    count(b" ", u64::from(y1));
    end();
}

// Ends a line on a refusal: whether the lists and foil 0's record are as they were before it.
pub(crate) fn kept(
    table: &[u16],
    old_table: &[u16],
    strips: &[u16],
    old_strips: &[u16],
    sheet: Sheet,
    old_sheet: Sheet,
) {
    if table == old_table && strips == old_strips && board_at(sheet, 0) == board_at(old_sheet, 0) {
        io::write_all(1, b", nothing changed\n");
    } else {
        io::write_all(1, b", changed\n");
    }
}

// A line on the places past 512 of the table and past 4,096 of the strip list.
pub(crate) fn tails(table: &[u16], strips: &[u16]) {
    io::write_all(1, b"past 512 and 4096 places: ");
    if sevens(table, 2560) && sevens(strips, 16384) {
        io::write_all(1, b"untouched\n");
    } else {
        io::write_all(1, b"changed\n");
    }
}

// Whether the list still holds sevens from place `from` on.
fn sevens(list: &[u16], from: usize) -> bool {
    list.iter().skip(from).all(|n| *n == 7)
}
