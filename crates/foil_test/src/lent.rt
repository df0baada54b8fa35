// Calls on foil 0 of a sheet else empty that are lent too little, or a state that is broken, and records at any place.
// All lists are lent full of sevens.
use crate::show;
use foil::Answer;
use foil_spec::{INPUT_SIZE, Point};
use job::{Progress, Reply};
use job_report::number_of;
use sheet::{Sheet, lay, new_foil, run_record};
use sheet_rows::{board_at, no_foils};

pub(crate) fn all() {
    short_table();
    short_strips();
    short_corners();
    record_places();
    record_spoilt();
}

// A line on an answer: the number of a refusal, 0 if it is accepted.
fn answer(words: &[u8], said: Answer) {
    show::line(words, usize::from(number_of(said)));
}

// A line on how many entries foil 0 has after a call.
fn entries_line(sheet: Sheet) {
    show::line(b"entries after that: ", board_at(sheet, 0).entries);
}

// A line on a number of a list.
fn number_line(words: &[u8], n: u16) {
    show::count(words, u64::from(n));
    show::end();
}

// A line on the reply to a record: 0 and the next place, 0 at the end mark, or the number that refuses it.
fn reply(words: &[u8], said: Reply) {
    io::write_all(1, words);
    match said {
        Err(refusal) => show::line(b"", usize::from(refusal.number())),
        Ok(Progress::AtEnd) => show::line(b"end mark ", 0),
        Ok(Progress::Ran(_, Some(place))) => show::line(b"0, next place ", place),
        Ok(Progress::Ran(_, None)) => show::line(b"ended by its board ", 0),
    }
}

// Lays net 1 from (0, 0) to (2, 2).
fn lay_across(
    table: &mut [u16],
    strips: &mut [u16],
    corners: &mut [u16],
    sheet: &mut Sheet,
) -> Answer {
    let from = Point { x: 0, y: 0 };
    let to = Point { x: 2, y: 2 };
    lay(table, strips, corners, sheet, 0, 1, from, to)
}

// A table that is a number short: lay and run a record answer 12, and 18 comes before it.
fn short_table() {
    let mut table = [7u16; 2559];
    let mut strips = [7u16; 16384];
    let mut corners = [7u16; 4];
    let mut sheet = no_foils();
    let long = [0u8; INPUT_SIZE];
    let laid = lay_across(&mut table, &mut strips, &mut corners, &mut sheet);
    answer(b"lay, 2559 numbers of a table: ", laid);
    sheet = no_foils();
    let none = run_record(&mut table, &mut strips, &mut corners, &mut sheet, 0, b"", 0);
    reply(b"no bytes, 2559 numbers of a table: ", none);
    sheet = no_foils();
    let many = run_record(
        &mut table,
        &mut strips,
        &mut corners,
        &mut sheet,
        0,
        &long,
        0,
    );
    reply(b"60001 bytes, 2559 numbers of a table: ", many);
}

// A strip list that is a number short.
fn short_strips() {
    let mut table = [7u16; 2560];
    let mut strips = [7u16; 16383];
    let mut corners = [7u16; 4];
    let mut sheet = no_foils();
    let laid = lay_across(&mut table, &mut strips, &mut corners, &mut sheet);
    answer(b"lay, 16383 numbers of a strip list: ", laid);
    sheet = no_foils();
    let none = run_record(&mut table, &mut strips, &mut corners, &mut sheet, 0, b"", 0);
    reply(b"no bytes, 16383 numbers of a strip list: ", none);
}

// A path of three corners on a 3 by 3 foil, lent 5 numbers, which are two places, and then 6.
fn short_corners() {
    let mut table = [7u16; 2560];
    let mut strips = [7u16; 16384];
    let mut few = [7u16; 5];
    let mut enough = [7u16; 6];
    let mut sheet = no_foils();
    let _ = new_foil(&mut table, &mut strips, &mut sheet, 0, 3, 3, 0, 0);
    let first = lay_across(&mut table, &mut strips, &mut few, &mut sheet);
    answer(b"lay, 5 numbers of a corner list: ", first);
    number_line(b"its first number after that: ", few[0]);
    entries_line(sheet);
    let second = lay_across(&mut table, &mut strips, &mut enough, &mut sheet);
    answer(b"lay, 6 numbers of a corner list: ", second);
    number_line(b"its last x after that: ", enough[4]);
    entries_line(sheet);
}

// The bytes of a board, a lift and the end mark, run at place 0, at the lift, at place 0 again, and at other places.
fn record_places() {
    let mut table = [7u16; 2560];
    let mut strips = [7u16; 16384];
    let mut corners = [7u16; 4];
    let bytes = b"\x01\x03\x00\x03\x00\x00\x00\x08\x01\x00\x00";
    let mut sheet = no_foils();
    for at in [0usize, 7, 0, 10, 11, 12, 1, 2] {
        record_at(&mut table, &mut strips, &mut corners, &mut sheet, bytes, at);
    }
}

// Runs the record at a place and writes the reply.
fn record_at(
    table: &mut [u16; 2560],
    strips: &mut [u16; 16384],
    corners: &mut [u16; 4],
    sheet: &mut Sheet,
    bytes: &[u8],
    at: usize,
) {
    let said = run_record(table, strips, corners, sheet, 0, bytes, at);
    show::count(b"record at ", at as u64);
    reply(b": ", said);
}

// A foil that is not begun: 13 at each place but 0, and before 14; at place 0 it is begun.
fn record_spoilt() {
    let mut table = [7u16; 2560];
    let mut strips = [7u16; 16384];
    let mut corners = [7u16; 4];
    let bytes = b"\x01\x03\x00\x03\x00\x00\x00\x00";
    let mut sheet = no_foils();
    for at in [7usize, 9, 0] {
        io::write_all(1, b"broken, ");
        record_at(&mut table, &mut strips, &mut corners, &mut sheet, bytes, at);
    }
    io::write_all(1, b"begun, ");
    record_at(&mut table, &mut strips, &mut corners, &mut sheet, bytes, 7);
}
