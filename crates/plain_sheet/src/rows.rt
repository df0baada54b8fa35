// The plain foils of a sheet, kept apart, each with its row of entries; and the table that the rows make.
ghost use Rattle.std.specs.Prelude.{◌*◌, ◌≤◌};

use plain_foil::{Foil, strips};

// A foil's size, the half width and the gap of its pen, and how many entries it has, whatever the number is; and the
// row of its entries.
#[derive(Clone, Copy)]
pub struct Kept {
    pub width: u16,
    pub height: u16,
    pub half: u16,
    pub gap: u16,
    pub entries: usize,
    pub row: [u16; 640],
}

// Eight foils that are not begun.
pub fn none_begun() -> [Kept; 8] {
    [with_row(no_foil(), [0; 640]); 8]
}

// A foil with its row.
pub(crate) fn with_row(foil: Foil, row: [u16; 640]) -> Kept {
    Kept {
        width: foil.width,
        height: foil.height,
        half: foil.half,
        gap: foil.gap,
        entries: foil.entries,
        row,
    }
}

// A foil that is not begun.
pub fn no_foil() -> Foil
    ensures { result.entries ≤ 128 }
{
    Foil {
        width: 0,
        height: 0,
        half: 0,
        gap: 0,
        entries: 0,
    }
}

// Foil k, which has at most 128 entries; where the sheet has none, one that is not begun.
pub fn foil_at(all: &[Kept; 8], k: usize) -> Foil
    ensures { result.entries ≤ 128 }
{
    if 7 < k || 128 < all[k].entries {
        return no_foil();
    }
    Foil {
        width: all[k].width,
        height: all[k].height,
        half: all[k].half,
        gap: all[k].gap,
        entries: all[k].entries,
    }
}

// The sum over the foils of the larger of `least` and a foil's entries.
pub fn sum(all: &[Kept; 8], least: usize) -> usize
    requires { least ≤ 128 }
    ensures { result ≤ 1024 }
{
    let mut sum: usize = 0;
    for k in 0..8 {
        sum += foil_at(all, k).entries.max(least);
    }
    sum
}

// Writes the table that the rows make, foil after foil by number, zeros after them up to 512 places.
pub fn write_table(table: &mut [u16; 2565], all: &[Kept; 8]) {
    table[..2560].fill(0);
    let mut at: usize = 0;
    for k in 0..8 {
        at = put_row(table, at, &all[k].row, foil_at(all, k));
    }
}

// Puts the entries of a foil into a table from a place on, if they end in it, and answers the place after them.
fn put_row(table: &mut [u16; 2565], at: usize, row: &[u16; 640], foil: Foil) -> usize
    requires { at ≤ 2560 }
    ensures { result ≤ 2560 }
{
    let n = foil.entries * 5;
    let end = at + n;
    if 2560 < end {
        return at;
    }
    table[at..end].copy_from_slice(&row[..n]);
    end
}

// Writes the strips of foil k, zeros after them up to 4,096 places, and answers how many they are. The list stays as it
// is where the foil is not begun.
pub fn write_strips(list: &mut [u16; 16388], all: &[Kept; 8], k: usize) -> usize {
    let foil = foil_at(all, k);
    if foil.width == 0 {
        return 0;
    }
    let mut anew = [0u16; 16384];
    let count = strips(&mut anew, &all[k % 8].row, foil);
    list[..16384].copy_from_slice(&anew);
    count
}
