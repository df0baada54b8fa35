// The lists that calls are lent: a sheet's records, its table and the strips of its foils, as flat lists of numbers.
ghost use Rattle.std.specs.Prelude.{◌<◌, ◌≤◌};

use crate::reading::{Line, NUMBERS};
use foil_spec::Board;
use sheet::Sheet;
use sheet_rows::no_foils;

// How many numbers the eight records have, the table and each strip list, a place more than need be, the eight strip
// lists together, and the corners; and how many bytes a file and a page.
pub(crate) const RECORDS: usize = 48;

pub(crate) const TABLE: usize = 2565;

pub(crate) const LIST: usize = 16388;

pub(crate) const STRIPS: usize = 131104;

pub(crate) const CORNERS: usize = 16384;

pub(crate) const FILE: usize = 60001;

pub(crate) const PAGE: usize = 8192;

// How many numbers of the table, the strips, the corners and the answers, and bytes of the page, a call is lent.
pub(crate) const ALL_LENT: [usize; 5] = [2565, 16388, 16384, 256, 8192];

// A number as a size or a place.
pub(crate) fn size(n: u16) -> usize
    ensures { result < 65536 }
{
    usize::from(n)
}

// Fills a list from a place on.
pub(crate) fn fill(list: &mut [u16], from: usize, n: u16) {
    let begin = from.min(list.len());
    list[begin..].fill(n);
}

// Puts the numbers of a line from the one at `from` up to the one at `to` into a list, as far as there is room.
pub(crate) fn put(list: &mut [u16], at: usize, line: Line, from: usize, to: usize) {
    let numbers = line.numbers;
    let end = to.min(line.count.min(NUMBERS));
    let begin = from.min(end);
    let first = at.min(list.len());
    let n = (end - begin).min(list.len() - first);
    list[first..first + n].copy_from_slice(&numbers[begin..begin + n]);
}

// The records of a sheet, from their list.
pub(crate) fn sheet_of(records: &[u16; RECORDS]) -> Sheet {
    let none = no_foils();
    let mut boards = none.boards;
    for k in 0..8 {
        let at = k * 6;
        boards[k] = Board {
            width: records[at],
            height: records[at + 1],
            half: records[at + 2],
            gap: records[at + 3],
            entries: size(records[at + 4]),
            strips: size(records[at + 5]),
        };
    }
    Sheet { boards }
}

// Puts the records of a sheet into their list.
pub(crate) fn keep(records: &mut [u16; RECORDS], sheet: Sheet) {
    let boards = sheet.boards;
    for k in 0..8 {
        let board = boards[k];
        let at = k * 6;
        records[at] = board.width;
        records[at + 1] = board.height;
        records[at + 2] = board.half;
        records[at + 3] = board.gap;
        records[at + 4] = (board.entries % 65536) as u16;
        records[at + 5] = (board.strips % 65536) as u16;
    }
}

// Writes the name of a list if it differs from what it was, and keeps it for the next time. Whether it differs.
fn settle(name: &[u8], old: &mut [u16], new: &[u16]) -> bool {
    let end = old.len().min(new.len());
    let differs = old[..end] != new[..end];
    old[..end].copy_from_slice(&new[..end]);
    if differs {
        io::write_all(1, name);
    }
    differs
}

// The same of a list whose numbers from one place to another are the foil's own, and of all others.
pub(crate) fn settle_parts(
    name: &[u8],
    others: &[u8],
    old: &mut [u16],
    new: &[u16],
    from: usize,
    to: usize,
) -> bool {
    let end = to.min(old.len().min(new.len()));
    let begin = from.min(end);
    let own = settle(name, &mut old[begin..end], &new[begin..end]);
    settle(others, old, new) || own
}
