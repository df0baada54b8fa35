// Foil 0's record and the lists after a record, and the strip of a point, compared with the plain foil.
use crate::compare::is_for;
use boards::{below, next};
use foil::Accepted;
use foil_spec::{Board, Point, Reason};
use plain_foil::Foil;
use sheet::{Sheet, look_up};
use sheet_rows::board_at;

// Whether the first n numbers of two lists are the same.
fn same_front(a: &[u16], b: &[u16], n: usize) -> bool {
    n <= a.len() && n <= b.len() && a[..n] == b[..n]
}

// Whether the numbers of the list from place `from` up to `end` are all n.
fn filled(list: &[u16], from: usize, end: usize, n: u16) -> bool {
    from <= end && end <= list.len() && list[from..end].iter().all(|x| *x == n)
}

// The record of the foil, with so many strips.
fn board_of(foil: Foil, strips: usize) -> Board {
    Board {
        width: foil.width,
        height: foil.height,
        half: foil.half,
        gap: foil.gap,
        entries: foil.entries,
        strips,
    }
}

// Whether the strip list is that of the foil, then zeros up to 4,096 places, then sevens, and the record fits to it.
fn same_strips(strips: &[u16; 16388], sheet: Sheet, row: &[u16; 640], foil: Foil) -> bool {
    let mut list = [0u16; 16384];
    let count = plain_foil::strips(&mut list, row, foil);
    board_at(sheet, 0) == board_of(foil, count)
        && same_front(strips, &list, 16384)
        && filled(strips, 16384, 16388, 7)
}

// Whether the table is the foil's row, then zeros up to 512 places, then sevens.
fn same_table(table: &[u16; 2565], row: &[u16; 640]) -> bool {
    same_front(table, row, 640) && filled(table, 640, 2560, 0) && filled(table, 2560, 2565, 7)
}

// Whether the record and all lists are as they should be; the table and the strips hold sevens before the foil is
// begun.
pub(crate) fn same(
    table: &[u16; 2565],
    strips: &[u16; 16388],
    corners: &[u16; 300],
    sheet: Sheet,
    row: &[u16; 640],
    path: &[u16; 8192],
    foil: Foil,
) -> bool {
    if !same_front(corners, path, 300) {
        return false;
    }
    if foil.width == 0 {
        filled(strips, 0, 16388, 7) && filled(table, 0, 2565, 7)
    } else {
        same_strips(strips, sheet, row, foil) && same_table(table, row)
    }
}

// Whether a point at random, on the foil or just off it, is looked up as it should be.
pub(crate) fn same_point(
    table: &[u16; 2565],
    strips: &[u16; 16388],
    sheet: Sheet,
    row: &[u16; 640],
    foil: Foil,
    seed: u32,
) -> bool {
    let x = below(seed, 42);
    let y = below(next(seed), 42);
    let want = if foil.width == 0 {
        Err(Reason::BrokenState)
    } else {
        plain_foil::look_up(row, foil, x, y)
    };
    match look_up(table, strips, sheet, 0, Point { x, y }) {
        Err(refusal) => want.is_err_and(|reason| is_for(refusal, reason)),
        Ok(Accepted::Found(place)) => want == Ok(place),
        Ok(_) => false,
    }
}
