// Fixed cases of calls on the eight foils of a sheet. A case is a text of calls, nine bytes each: the foil, a letter
// for the kind, five digits, how the sheet is lent, and a blank. Each call is written with its answer, how many entries
// the foils have by the records that it leaves, and the sums of the numbers in unused places of the table and past
// them. The kinds: n begins a foil, N one of 64 by 64; d draws, l lays, u lifts, r runs a record, f draws many patches;
// p looks a point up, s asks for the slip, o for ohms; b writes a foil's record and strips, t the table. A sheet is
// lent whole (_), with other numbers than zeros in unused places (g), with a table (t) or a strip list (s) that is too
// short, or with counts that break the limit of a foil (c) or of the sheet (e).
#![tactic(auto)]

mod calls;
mod lists;
mod reads;
mod show;
mod writes;

ghost use Rattle.std.specs.Prelude.{◌≤◌, length};

use calls::{Call, call_of};
use lists::{LIST, LISTS, TABLE, keep_strips, take_strips};
use sheet::Sheet;
use sheet_rows::no_foils;

fn main() {
    // Two foils, one before the other; a foil not begun; records.
    run(
        b"8n06400_ 1d00011_ 1n06400_ 0n03300_ 1d02033_ 0l90022_ 1l50040_ 0t00000_ 1b00000_ 0u90000_ 0t00000_ \
        7p00000_ 0b00000_ 2b00000_ 0n05510_ 0t00000_ 3r00000_ 3b00000_ 3r07000_ 4r07000_ 9r00000_ 1b00000_ ",
    );
    // A sheet that becomes full, and a foil that gives up what it has above its 32.
    run(
        b"0N00000_ 1N00000_ 2N00000_ 3N00000_ 4N00000_ 5N00000_ 6N00000_ 7N00000_ \
        0f00128_ 1f00128_ 2f00128_ 3f00033_ 3b00000_ 4f00001_ 0f99001_ \
        0N00000_ 3f32097_ 0f00033_ 4f01032_ ",
    );
    // A slip, ohms, 60,001 bytes, and other numbers than zeros in unused places.
    run(
        b"1n06400_ 1d02033_ 1l50040_ 1s00000_ 1o52000_ 1o50000_ 1o62000_ 1o02000_ 2s00000_ 2o52000_ \
        1r20000_ 1r20000t 1r20000c 8r20000_ 1r10000_ 1r10000t 1r10000c 1r08000_ 1r02000_ \
        1d00000g 1p01000_ 1u90000_ 1s00000_ 1r08000_ 1r07000_ 1d05061_ \
        1u60000g 2n00300_ 2n03300_ 2r00000g 1u50000g 0t00000_ 1b00000_ 2b00000_ ",
    );
    // Every call with foil 8, too short a table or strip list, and counts that break a limit.
    run(
        b"1n06400_ 1l50040_ \
        8n06400t 8d05061t 8l60111t 8u50000t 8p01000t 8r00000t 8r07000t 8s00000t 8o52000t \
        1n06400t 1d05061t 1l60111t 1u50000t 1p01000t 1r00000t 1r07000t 1s00000t 1o52000t \
        1n06400s 1d05061s 1l60111s 1u50000s 1p01000s 1r00000s 1r07000s 1s00000s 1o52000s \
        1n06400c 1d05061c 1l60111c 1u50000c 1p01000c 1r00000c 1r07000c 1s00000c 1o52000c \
        1n06400e 1d05061e 1l60111e 1u50000e 1p01000e 1r00000e 1r07000e 1s00000e 1o52000e \
        0t00000_ 1b00000_ ",
    );
}

// Makes the calls of a case on a sheet of which no foil is begun. All lists are longer than need be; the strip lists
// and the table past its 512 places hold sevens.
fn run(script: &[u8]) {
    let mut table = [0u16; TABLE];
    let mut strips = [7u16; LISTS];
    lists::put_sevens(&mut table);
    let mut sheet = no_foils();
    for text in script.chunks_exact(9) {
        turn(&mut table, &mut strips, &mut sheet, text);
    }
}

// Makes the call of a text, and writes what comes of it. Where it is lent wrong records, the next call finds those
// before it.
fn turn(table: &mut [u16; TABLE], strips: &mut [u16; LISTS], sheet: &mut Sheet, text: &[u8])
    requires { 9 ≤ length text.now }
{
    let call = call_of(text);
    io::write_all(1, text);
    if call.lent == b'g' {
        lists::put_nines(table, lists::used(*sheet));
    }
    let mut lent = lent_records(*sheet, call.lent);
    make(table, strips, &mut lent, call);
    if call.lent != b'c' && call.lent != b'e' {
        *sheet = lent;
    }
    show::left(table, lent, *sheet);
}

// Makes a call: the foil's strips are taken out of the eight lists for it, and put back.
fn make(table: &mut [u16; TABLE], strips: &mut [u16; LISTS], sheet: &mut Sheet, call: Call) {
    let k = call.foil % 8;
    let mut list = [0u16; LIST];
    take_strips(&mut list, strips, k);
    calls::lend(table, &mut list, sheet, call);
    keep_strips(strips, k, &list);
}

// The records as they are lent: those of the sheet, or with 129 entries of foil 7 (c), or with 65 of each foil (e).
fn lent_records(sheet: Sheet, lent: u8) -> Sheet {
    let mut boards = sheet.boards;
    if lent == b'c' {
        boards[7].entries = 129;
    }
    if lent == b'e' {
        boards[0].entries = 65;
        boards = [boards[0]; 8];
    }
    Sheet { boards }
}
