// A foil of 3 by 3 with the patch 1,0,2,3, and one number of its state set anew: 13, unless the number
// is the one that it was. Unused numbers of the table are not its state. Then one with legs.
ghost use Rattle.std.specs.Prelude.{◌<◌};

use crate::{drawing, show};
use foil::Answer;
use foil_spec::Board;
use sheet::{Sheet, draw, new_foil};
use sheet_rows::{no_foils, only_foil_0};

// Numbers of the strip list, of the table and of the record.
pub(crate) fn states() {
    strips_number(2, 1);
    strips_number(2, 2);
    strips_number(16383, 1);
    table_number(3, 2);
    table_number(3, 1);
    table_number(5, 1);
    unused_number();
    crossing();
    record(3, 0, 0, 1, 2);
    record(4, 0, 0, 1, 2);
    record(3, 8, 0, 1, 2);
    record(3, 0, 16, 1, 2);
    record(3, 0, 0, 2, 2);
    record(3, 0, 0, 1, 3);
}

// The foil, with the record as it is after the draw.
fn drawn(table: &mut [u16], strips: &mut [u16]) -> Sheet {
    let mut sheet = no_foils();
    let _ = new_foil(table, strips, &mut sheet, 0, 3, 3, 0, 0);
    let _ = draw(table, strips, &mut sheet, 0, 1, 0, 2, 3);
    sheet
}

// Looks a point up after a number of the strip list is set.
fn strips_number(at: usize, n: u16)
    requires { at < 16384 }
{
    let mut table = [7u16; 2560];
    let mut strips = [7u16; 16384];
    let sheet = drawn(&mut table, &mut strips);
    strips[at] = n;
    show::count(b"strip list at ", at as u64);
    show::count(b" set to ", u64::from(n));
    io::write_all(1, b", ");
    show::point(&table, &strips, sheet, 2, 2);
}

// Draws an empty patch after a number of the table is set; 13 comes before 3.
fn table_number(at: usize, n: u16)
    requires { at < 2560 }
{
    let mut table = [7u16; 2560];
    let mut strips = [7u16; 16384];
    let mut sheet = drawn(&mut table, &mut strips);
    table[at] = n;
    show::count(b"table at ", at as u64);
    show::count(b" set to ", u64::from(n));
    show::answer(
        b", empty patch: ",
        draw(&mut table, &mut strips, &mut sheet, 0, 1, 1, 1, 1),
    );
    show::end();
}

// Sets the last number of the table, which no foil uses: a refused draw leaves it, and an accepted one makes it zero.
fn unused_number() {
    let mut table = [7u16; 2560];
    let mut strips = [7u16; 16384];
    let mut sheet = drawn(&mut table, &mut strips);
    table[2559] = 1;
    let refused = draw(&mut table, &mut strips, &mut sheet, 0, 1, 1, 1, 1);
    drew(
        b"table at 2559 set to 1, empty patch: ",
        refused,
        table[2559],
    );
    let accepted = draw(&mut table, &mut strips, &mut sheet, 0, 0, 0, 1, 1);
    drew(b"; a patch: ", accepted, table[2559]);
    show::end();
}

// Words, then the answer of a draw, and a number of the table after it.
fn drew(words: &[u8], answer: Answer, n: u16) {
    show::answer(words, answer);
    show::count(b", then it is ", u64::from(n));
}

// Of two equal legs the second is made a patch: the strips are still those of the table, and the patch is over a leg.
fn crossing() {
    let mut table = [7u16; 2560];
    let mut strips = [7u16; 16384];
    let mut sheet = no_foils();
    let _ = new_foil(&mut table, &mut strips, &mut sheet, 0, 3, 3, 0, 0);
    drawing::leg(&mut table, &mut strips, &mut sheet, 1, 0, 2, 3);
    drawing::leg(&mut table, &mut strips, &mut sheet, 1, 0, 2, 3);
    table[5] = 0;
    io::write_all(1, b"a leg made a patch over another, ");
    show::point(&table, &strips, sheet, 2, 2);
}

// Looks a point up by a record of these numbers.
fn record(side: u16, half: u16, gap: u16, entries: usize, count: usize) {
    let mut table = [7u16; 2560];
    let mut strips = [7u16; 16384];
    drawn(&mut table, &mut strips);
    let sheet = only_foil_0(Board {
        width: side,
        height: side,
        half,
        gap,
        entries,
        strips: count,
    });
    show::pen(b"record with ", half, gap);
    io::write_all(1, b", ");
    show::record(sheet);
    io::write_all(1, b", ");
    show::point(&table, &strips, sheet, 2, 2);
}
