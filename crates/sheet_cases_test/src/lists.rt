// The lists of a case.
ghost use Rattle.std.specs.Prelude.{◌<◌};

use sheet::Sheet;

// How many numbers the table has: a place more than a sheet needs.
pub(crate) const TABLE: usize = 2565;

// How many numbers a strip list has, a place more than a foil needs; and those of the eight foils together.
pub(crate) const LIST: usize = 16388;

pub(crate) const LISTS: usize = 131104;

// Puts the strips of foil k into a list.
pub(crate) fn take_strips(list: &mut [u16; LIST], strips: &[u16; LISTS], k: usize)
    requires { k < 8 }
{
    list.copy_from_slice(&strips[k * LIST..k * LIST + LIST]);
}

// Keeps the strips of foil k.
pub(crate) fn keep_strips(strips: &mut [u16; LISTS], k: usize, list: &[u16; LIST])
    requires { k < 8 }
{
    strips[k * LIST..k * LIST + LIST].copy_from_slice(list);
}

// Puts sevens past the 512 places of the table.
pub(crate) fn put_sevens(table: &mut [u16; TABLE]) {
    table[2560..].fill(7);
}

// How many numbers of the table are in use.
pub(crate) fn used(sheet: Sheet) -> usize {
    let boards = sheet.boards;
    boards.iter().fold(
        0,
        |sum: usize, board| sum.wrapping_add(board.entries % 1024 * 5),
    )
}

// Puts nines into the places that are not in use, up to the 512.
pub(crate) fn put_nines(table: &mut [u16; TABLE], used: usize) {
    let from = used.min(2560);
    table[from..2560].fill(9);
}

// The sum of the numbers in places from `from` on and before `to`.
pub(crate) fn sum(table: &[u16; TABLE], from: usize, to: usize) -> u64 {
    table
        .iter()
        .take(to)
        .skip(from)
        .fold(0, |sum: u64, n| sum.wrapping_add(u64::from(*n)))
}
