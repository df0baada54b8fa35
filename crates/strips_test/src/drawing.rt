// Foils with patches drawn on them, each as foil 0 of a sheet else empty.
ghost use Rattle.std.specs.Prelude.{◌≤◌};

use foil::Answer;
use foil_spec::Entry;
use sheet::{Sheet, draw, new_foil, put_leg};
use sheet_rows::{board_at, no_foils};

// Draws a line up to the foil's end, one point wide: the level one at y = at from x = begin on, or the upright one at
// x = at from y = begin on.
pub(crate) fn line(
    table: &mut [u16],
    strips: &mut [u16],
    sheet: &mut Sheet,
    level: bool,
    begin: u16,
    at: u16,
) -> Answer
    requires { at ≤ 4096 }
{
    let board = board_at(*sheet, 0);
    if level {
        return draw(table, strips, sheet, 0, begin, at, board.width, at + 1);
    }
    draw(table, strips, sheet, 0, at, begin, at + 1, board.height)
}

// Draws such lines at first, first + 2, .. below `end`.
fn lines(
    table: &mut [u16],
    strips: &mut [u16],
    sheet: &mut Sheet,
    level: bool,
    begin: u16,
    first: u16,
    end: u16,
)
    requires { end ≤ 4096 }
{
    for at in (first..end).step_by(2) {
        let _ = line(table, strips, sheet, level, begin, at);
    }
}

// A foil of w by h with a pen that draws nothing around its points.
fn begun(table: &mut [u16], strips: &mut [u16], w: u16, h: u16) -> Sheet {
    let mut sheet = no_foils();
    let _ = new_foil(table, strips, &mut sheet, 0, w, h, 0, 0);
    sheet
}

// A foil of w by h with upright lines at 1, 3, .. below x, then level ones at 1, 3, .. below y.
pub(crate) fn lined(table: &mut [u16], strips: &mut [u16], w: u16, h: u16, x: u16, y: u16) -> Sheet
    requires { (x ≤ 4096) × (y ≤ 4096) }
{
    let mut sheet = begun(table, strips, w, h);
    lines(table, strips, &mut sheet, false, 0, 1, x);
    lines(table, strips, &mut sheet, true, 0, 1, y);
    sheet
}

// A foil of 129 by 129 with a leg of net 5 at x = 0, and beside it upright lines at 3, 5, .. 127 and level ones, from
// x = 1 on, at 1, 3, .. 125.
pub(crate) fn beside_track(table: &mut [u16], strips: &mut [u16]) -> Sheet {
    let mut sheet = begun(table, strips, 129, 129);
    leg(table, strips, &mut sheet, 0, 0, 1, 129);
    lines(table, strips, &mut sheet, false, 0, 3, 129);
    lines(table, strips, &mut sheet, true, 1, 1, 127);
    sheet
}

// A foil of 4 by 4 with the patch 1,1,2,2 drawn 128 times.
pub(crate) fn equal_patches(table: &mut [u16], strips: &mut [u16]) -> Sheet {
    let mut sheet = begun(table, strips, 4, 4);
    for _ in 0..128 {
        let _ = draw(table, strips, &mut sheet, 0, 1, 1, 2, 2);
    }
    sheet
}

// Puts a leg of net 5.
pub(crate) fn leg(
    table: &mut [u16],
    strips: &mut [u16],
    sheet: &mut Sheet,
    x0: u16,
    y0: u16,
    x1: u16,
    y1: u16,
) {
    let five = Entry {
        net: 5,
        x0,
        y0,
        x1,
        y1,
    };
    let _ = put_leg(table, strips, sheet, 0, five);
}

// The foil of document 01's job with its patch and the legs of its track.
pub(crate) fn job_track(table: &mut [u16], strips: &mut [u16]) -> Sheet {
    let mut sheet = begun(table, strips, 6, 4);
    let _ = draw(table, strips, &mut sheet, 0, 2, 0, 3, 3);
    leg(table, strips, &mut sheet, 0, 0, 1, 4);
    leg(table, strips, &mut sheet, 0, 3, 5, 4);
    leg(table, strips, &mut sheet, 4, 0, 5, 4);
    sheet
}
