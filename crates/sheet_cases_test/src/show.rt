// What is written.
ghost use Rattle.std.specs.Prelude.{◌≤◌};

use crate::lists::{TABLE, sum, used};
use foil::{Accepted, Answer};
use foil_spec::Board;
use job::{Progress, Reply};
use ohms::Resistance;
use sheet::Sheet;

// Words, then a number.
pub(crate) fn count(words: &[u8], n: u64) {
    io::write_all(1, words);
    io::print_decimal(1, n);
}

// An answer: its number, 0 if the call is accepted, and what it carries.
pub(crate) fn answer(answer: Answer) {
    match answer {
        Err(refusal) => count(b"", u64::from(refusal.number())),
        Ok(Accepted::Done) => count(b"", 0),
        Ok(Accepted::Laid(corners, bends)) => laid(corners as u64, bends as u64),
        Ok(Accepted::Found(place)) => count(b"0 strip ", place as u64),
        Ok(Accepted::Wrote(bytes)) => count(b"0 bytes ", bytes as u64),
    }
}

// A track that was laid.
fn laid(corners: u64, bends: u64) {
    count(b"0 corners ", corners);
    count(b" bends ", bends);
}

// The reply to a record.
pub(crate) fn reply(reply: Reply) {
    match reply {
        Err(refusal) => count(b"", u64::from(refusal.number())),
        Ok(Progress::AtEnd) => count(b"end mark ", 0),
        Ok(Progress::Ran(_, Some(at))) => count(b"0 next ", at as u64),
        Ok(Progress::Ran(_, None)) => count(b"over ", 0),
    }
}

// A resistance as bits, or its refusal's number.
pub(crate) fn ohms(r: Resistance) {
    match r {
        Resistance::Refused(number) => count(b"", u64::from(number)),
        Resistance::Ohms(x) => bits(x),
    }
}

// The bits of a resistance.
fn bits(x: f64) {
    if !(x == x) {
        io::write_all(1, b"no number");
        return;
    }
    let pattern = f64::to_bits(x);
    io::write_all(1, b"0 bits ");
    io::print_hex(1, pattern, 16);
}

// A foil's record and strips.
pub(crate) fn foil(list: &[u16], sheet: Sheet, k: usize) {
    let boards = sheet.boards;
    let board = boards[k % 8];
    record(board);
    numbers(list, board.strips, 4);
}

// A record.
fn record(board: Board) {
    count(b"", u64::from(board.width));
    count(b" ", u64::from(board.height));
    count(b" ", u64::from(board.half));
    count(b" ", u64::from(board.gap));
    count(b" ", board.entries as u64);
    count(b" ", board.strips as u64);
}

// The first n places of a list, so many numbers each.
fn numbers(list: &[u16], n: usize, size: usize)
    requires { 1 ≤ size }
{
    for place in list.chunks(size).take(n) {
        io::write_all(1, b" ;");
        for number in place {
            count(b" ", u64::from(*number));
        }
    }
}

// The entries of the table, in so many numbers.
pub(crate) fn rows(table: &[u16], used: usize) {
    io::write_all(1, b"table");
    numbers(table, used / 5, 5);
}

// What a call leaves: how many entries each foil has by the records, where the table has those of `after`, and the sums
// of the numbers in its unused places and past them.
pub(crate) fn left(table: &[u16; TABLE], sheet: Sheet, after: Sheet) {
    io::write_all(1, b"; entries");
    entries(sheet);
    count(b"; unused ", sum(table, used(after), 2560));
    count(b"; past ", sum(table, 2560, TABLE));
    io::write_all(1, b"\n");
}

// How many entries each foil has.
fn entries(sheet: Sheet) {
    let boards = sheet.boards;
    for board in &boards {
        count(b" ", board.entries as u64);
    }
}
