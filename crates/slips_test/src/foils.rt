// The foils whose slips are asked for, each as foil 0 of a sheet else empty.
ghost use Rattle.std.specs.Prelude.{◌≤◌};

use foil_spec::{Entry, MAX_ENTRIES, Point, STRIPS_SIZE};
use sheet::{Sheet, draw, lay, new_foil, put_leg};
use sheet_rows::{SHEET_SIZE, board_at, no_foils};

// A foil of w by h without entries.
fn begun(table: &mut [u16; SHEET_SIZE], strips: &mut [u16; STRIPS_SIZE], w: u16, h: u16) -> Sheet {
    let mut sheet = no_foils();
    let _ = new_foil(table, strips, &mut sheet, 0, w, h, 0, 0);
    sheet
}

// Document 01's foil of 6 by 4, with its patch.
pub(crate) fn patched(table: &mut [u16; SHEET_SIZE], strips: &mut [u16; STRIPS_SIZE]) -> Sheet {
    let mut sheet = begun(table, strips, 6, 4);
    let _ = draw(table, strips, &mut sheet, 0, 2, 0, 3, 3);
    sheet
}

// Lays its track on it, net 5, and then net 3 from (1,2) to (1,0).
pub(crate) fn lay_two(
    table: &mut [u16; SHEET_SIZE],
    strips: &mut [u16; STRIPS_SIZE],
    sheet: &mut Sheet,
) {
    let mut corners = [0u16; 16];
    let _ = lay(table, strips, &mut corners, sheet, 0, 5, at(0, 0), at(4, 0));
    let _ = lay(table, strips, &mut corners, sheet, 0, 3, at(1, 2), at(1, 0));
}

// A foil of 4,096 by 4,096 whose last column is 128 legs of net 999, the first of them a point.
pub(crate) fn widest(table: &mut [u16; SHEET_SIZE], strips: &mut [u16; STRIPS_SIZE]) -> Sheet {
    let mut sheet = begun(table, strips, 4096, 4096);
    put_down(table, strips, &mut sheet, 999, 4095, 4095);
    for _ in 1..MAX_ENTRIES {
        put_down(table, strips, &mut sheet, 999, 4095, 0);
    }
    sheet
}

// A foil of 256 by 256 with a leg of each of the nets 999 down to 872, scattered.
pub(crate) fn full(table: &mut [u16; SHEET_SIZE], strips: &mut [u16; STRIPS_SIZE]) -> Sheet {
    let mut sheet = begun(table, strips, 256, 256);
    for k in 0..128 {
        put_down(table, strips, &mut sheet, 999 - k, k * 2, k * 37 % 256);
    }
    sheet
}

// Puts an upright leg on the foil, from (x, y) to the lower edge.
fn put_down(
    table: &mut [u16; SHEET_SIZE],
    strips: &mut [u16; STRIPS_SIZE],
    sheet: &mut Sheet,
    net: u16,
    x: u16,
    y: u16,
)
    requires { x ≤ 4095 }
{
    let board = board_at(*sheet, 0);
    let leg = Entry {
        net,
        x0: x,
        y0: y,
        x1: x + 1,
        y1: board.height,
    };
    let _ = put_leg(table, strips, sheet, 0, leg);
}

// The point (x, y).
fn at(x: u16, y: u16) -> Point {
    Point { x, y }
}
