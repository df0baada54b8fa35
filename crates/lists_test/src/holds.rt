// What a list answered and left, compared with what it should.
use crate::single::Laid;
use foil::{Accepted, Answer};
use foil_spec::Board;
use plain_foil::Foil;
use sheet::Sheet;

// Whether the table has the entries of foil 0's row, the 384 of the others, all of nines, then zeros with this number
// last of 512 places, then nines.
fn same_table(table: &[u16; 2565], row: &[u16; 640], foil: Foil, last: u16) -> bool {
    let used = foil.entries * 5;
    let mut due = [0u16; 2565];
    due[..640].copy_from_slice(row);
    due[used..used + 1920].fill(9);
    due[2559] = last;
    due[2560..].fill(9);
    *table == due
}

// Whether the strip list is this one, then sevens.
fn same_strips(strips: &[u16; 16388], list: &[u16; 16384]) -> bool {
    let mut due = [7u16; 16388];
    due[..16384].copy_from_slice(list);
    *strips == due
}

// Whether the answer is that of a list that is laid, or refused as a whole by 12.
fn same_answer(given: Answer, refused: bool) -> bool {
    match given {
        Err(refusal) => refused && refusal.number() == 12,
        Ok(Accepted::Done) => !refused,
        Ok(_) => false,
    }
}

// Whether the answer, the records, the table and the strips are as they should be. A list that lays a net clears the
// unused places of the table.
pub(crate) fn right(
    table: &[u16; 2565],
    strips: &[u16; 16388],
    given: Answer,
    sheet: Sheet,
    before: Sheet,
    row: &[u16; 640],
    want: Laid,
    last: u16,
) -> bool {
    let mut list = [0u16; 16384];
    let count = plain_foil::strips(&mut list, row, want.foil);
    let mut boards = before.boards;
    boards[0] = Board {
        width: want.foil.width,
        height: want.foil.height,
        half: want.foil.half,
        gap: want.foil.gap,
        entries: want.foil.entries,
        strips: count,
    };
    let unused = if want.any { 0 } else { last };
    same_answer(given, want.refused)
        && sheet.boards == boards
        && same_table(table, row, want.foil, unused)
        && same_strips(strips, &list)
}
