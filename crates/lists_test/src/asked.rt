// Foils, patches and lists at random, and the call on the sheet.
ghost use Rattle.std.specs.Prelude.{◌≤◌};

use crate::{MOST, Stood};
use boards::{below, next};
use foil::Answer;
use foil_spec::Board;
use plain_foil::Foil;
use sheet::{Sheet, draw, lay_list, new_foil};
use sheet_rows::no_foils;

// A list: how many nets it has, how many numbers of the corner list and of the answers' list are lent, the number at
// the last place of the table, which no foil uses, and the number for its nets.
#[derive(Clone, Copy)]
pub(crate) struct Asked {
    pub(crate) nets: usize,
    pub(crate) corners: usize,
    pub(crate) answers: usize,
    pub(crate) last: u16,
    pub(crate) seed: u32,
    ghost few_nets: { nets ≤ 42 },
    ghost few_corners: { corners ≤ 63 },
    ghost few_answers: { answers ≤ 125 },
}

// A list at random, of up to 42 nets: there are as many answer places, or now and then one too few, and up to 2 numbers
// to spare.
pub(crate) fn choose(seed: u32) -> Asked {
    let a = next(seed);
    let b = next(a);
    let c = next(b);
    let places = usize::from(below(a, 42));
    Asked {
        nets: places + usize::from(below(c, 12)) / 11,
        corners: usize::from(below(b, 64)),
        answers: places * 3 + usize::from(below(c / 16, 3)),
        last: below(b / 64, 3),
        seed: c,
    }
}

// Wishes 42 nets, with numbers up to 39 and 0 among them, or now and then 1000, between two points on the foil or just
// off it that are now and then the same; the number for what comes next.
pub(crate) fn wish_all(wishes: &mut [u16; 210], foil: Foil, seed: u32) -> u32 {
    let w = foil.width % 64 + 1;
    let h = foil.height % 64 + 1;
    let mut b = seed;
    for k in 0..42 {
        let a = next(b);
        let s = next(a);
        b = next(s);
        let t = if b % 5 == 0 { s } else { b };
        wishes[k * 5] = if a % 32 == 0 { 1000 } else { below(a / 32, 40) };
        wishes[k * 5 + 1] = below(s, w);
        wishes[k * 5 + 2] = below(s / 64, h);
        wishes[k * 5 + 3] = below(t, w);
        wishes[k * 5 + 4] = below(t / 64, h);
    }
    b
}

// Makes the call, with as many numbers of each list as are asked.
pub(crate) fn lend(
    table: &mut [u16; 2565],
    strips: &mut [u16; 16388],
    corners: &mut [u16; 130],
    answers: &mut [u16; 130],
    sheet: &mut Sheet,
    wishes: &[u16; 210],
    asked: Asked,
) -> Answer {
    let c = asked.corners;
    let a = asked.answers;
    let w = asked.nets * 5;
    lay_list(
        table,
        strips,
        &mut corners[..c],
        &mut answers[..a],
        sheet,
        0,
        &wishes[..w],
    )
}

// Begins a foil at random on a sheet where four others have all but the 32 places that each foil is sure of.
pub(crate) fn begin(table: &mut [u16; 2565], strips: &mut [u16; 16388], seed: u32) -> Stood {
    let a = next(seed);
    let b = next(a);
    let foil = Foil {
        width: 24 + below(a, 16),
        height: 24 + below(a / 64, 16),
        half: below(b, 4) / 3,
        gap: below(b / 64, 6) / 3,
        entries: 0,
    };
    let empty = no_foils();
    let mut boards = empty.boards;
    let other = Board {
        entries: 96,
        ..boards[0]
    };
    boards[1] = other;
    boards[2] = other;
    boards[5] = other;
    boards[7] = other;
    let mut sheet = Sheet { boards };
    let _ = new_foil(
        table,
        strips,
        &mut sheet,
        0,
        foil.width,
        foil.height,
        foil.half,
        foil.gap,
    );
    Stood {
        sheet,
        foil,
        seed: b,
    }
}

// Draws a patch at random on both foils, if there is a place left for it.
pub(crate) fn draw_both(
    table: &mut [u16; 2565],
    strips: &mut [u16; 16388],
    row: &mut [u16; 640],
    stood: &mut Stood,
) {
    if MOST <= stood.foil.entries {
        return;
    }
    let a = next(stood.seed);
    let b = next(a);
    let x0 = below(a, 20);
    let y0 = below(a / 64, 20);
    let x1 = x0 + 1 + below(b, 4);
    let y1 = y0 + 1 + below(b / 64, 4);
    let _ = draw(table, strips, &mut stood.sheet, 0, x0, y0, x1, y1);
    let _ = plain_foil::draw(row, &mut stood.foil, x0, y0, x1, y1);
    stood.seed = b;
}
