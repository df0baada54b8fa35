// Writes slips, and how many bytes each has or the number that it is refused by: of document 01's foil
// without a track and with two, of a foil with the widest line, and of one with 128 nets.
#![tactic(auto)]

mod foils;

use foil::{Accepted, Answer};
use foil_spec::STRIPS_SIZE;
use sheet::{Sheet, slip};
use sheet_rows::{SHEET_SIZE, no_foils};

fn main() {
    two_tracks();
    widest();
    most_nets();
}

// Document 01's foil, without a track and with two.
fn two_tracks() {
    let mut table = [0u16; SHEET_SIZE];
    let mut strips = [0u16; STRIPS_SIZE];
    let mut sheet = foils::patched(&mut table, &mut strips);
    bare_pages(&table, &strips, sheet);
    foils::lay_two(&mut table, &mut strips, &mut sheet);
    track_pages(&table, &strips, sheet);
    refusals(&table, &strips, sheet);
}

// One line, as wide as its columns.
fn widest() {
    let mut table = [0u16; SHEET_SIZE];
    let mut strips = [0u16; STRIPS_SIZE];
    let sheet = foils::widest(&mut table, &mut strips);
    wide_page(&table, &strips, sheet);
}

// As many nets as a table has places.
fn most_nets() {
    let mut table = [0u16; SHEET_SIZE];
    let mut strips = [0u16; STRIPS_SIZE];
    let sheet = foils::full(&mut table, &mut strips);
    full_pages(&table, &strips, sheet);
}

// A slip without lines, and nothing or more lent for it.
fn bare_pages(table: &[u16; SHEET_SIZE], strips: &[u16; STRIPS_SIZE], sheet: Sheet) {
    let mut none = [b'.'; 0];
    page(&mut none, table, strips, sheet);
    let mut more = [b'.'; 3];
    page(&mut more, table, strips, sheet);
}

// The slip of two tracks, with a byte too few, with just enough, and with more.
fn track_pages(table: &[u16; SHEET_SIZE], strips: &[u16; STRIPS_SIZE], sheet: Sheet) {
    let mut short = [b'.'; 65];
    page(&mut short, table, strips, sheet);
    let mut enough = [b'.'; 66];
    page(&mut enough, table, strips, sheet);
    let mut more = [b'.'; 70];
    page(&mut more, table, strips, sheet);
}

// A table that is too short, and a foil that is not begun.
fn refusals(table: &[u16; SHEET_SIZE], strips: &[u16; STRIPS_SIZE], sheet: Sheet) {
    let part = [0u16; 2559];
    let mut out = [b'.'; 66];
    page(&mut out, &part, strips, sheet);
    page(&mut out, table, strips, no_foils());
}

// The slip of one line, with just enough lent.
fn wide_page(table: &[u16; SHEET_SIZE], strips: &[u16; STRIPS_SIZE], sheet: Sheet) {
    let mut out = [b'.'; 33];
    page(&mut out, table, strips, sheet);
}

// The slip of 128 nets, with a byte too few and with just enough.
fn full_pages(table: &[u16; SHEET_SIZE], strips: &[u16; STRIPS_SIZE], sheet: Sheet) {
    let mut short = [b'.'; 4223];
    said(slip(&mut short, table, strips, sheet, 0));
    let mut enough = [b'.'; 4224];
    page(&mut enough, table, strips, sheet);
}

// Asks for a slip, and writes what is answered and the whole output list.
fn page(out: &mut [u8], table: &[u16], strips: &[u16], sheet: Sheet) {
    said(slip(out, table, strips, sheet, 0));
    io::write_all(1, out);
    io::write_all(1, b"|\n");
}

// A line for an answer.
fn said(answer: Answer) {
    match answer {
        Err(refusal) => line(b"refused by ", u64::from(refusal.number())),
        Ok(Accepted::Wrote(bytes)) => line(b"bytes ", bytes as u64),
        Ok(_) => {}
    }
}

// A line of words and a number.
fn line(words: &[u8], n: u64) {
    io::write_all(1, words);
    io::print_decimal(1, n);
    io::write_all(1, b"\n");
}
