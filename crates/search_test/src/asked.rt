// The search, asked for a path on a board.
ghost use Rattle.std.specs.Prelude.{◌≡◌, ◌<◌, ◌≤◌, true};
ghost use Rattle.foil_spec.specs.Lent.{entry_at};
ghost use Rattle.boards.specs.Board.{OnBoard};
ghost use Rattle.search_test.specs.Box.{Box, AllBoxes};

use boards::Made;
use foil_spec::{Board, Pen, Point};
use places::entry_at;
use zones::{BOXES_SIZE, pen_zones};

// Why the search can't be asked: a point is not free, or an entry is empty or off the board.
#[derive(Clone, Copy, PartialEq, Eq)]
pub(crate) struct Unasked;

// Whether entry i of the table is not empty and on a board of w by h.
fn box_ok(table: &[u16; 640], i: usize, w: u16, h: u16) -> bool
    requires { i < 128 }
    ensures { result ≡ true → Box w h (entry_at table.now i) }
{
    let e = entry_at(table, i);
    e.x0 < e.x1 && e.y0 < e.y1 && e.x1 <= w && e.y1 <= h
}

// Whether each of the first n entries is.
fn boxes_ok(table: &[u16; 640], n: usize, w: u16, h: u16) -> bool
    requires { n ≤ 128 }
    ensures { result ≡ true → AllBoxes w h n table.now }
{
    (0..n).all(|i| box_ok(table, i, w, h))
}

// Writes the corners of the path that the search finds between two points of a board to the front of `out`, and answers
// how many they are, or that there is no path.
pub(crate) fn first_path(
    out: &mut [u16; 8192],
    table: &[u16; 640],
    made: Made,
    sx: u16,
    sy: u16,
    tx: u16,
    ty: u16,
) -> Result<Option<usize>, Unasked>
    requires { OnBoard made }
{
    let n = made.entries;
    let gap = made.clearance;
    let pen = Pen { half: 0, gap };
    let w = made.width;
    let h = made.height;
    if !boxes_ok(table, n, w, h)
        || !plain::is_free(table, n, pen, w, h, sx, sy)
        || !plain::is_free(table, n, pen, w, h, tx, ty)
    {
        return Err(Unasked);
    }
    let mut boxes = [0u16; BOXES_SIZE];
    let board = Board {
        width: w,
        height: h,
        half: 0,
        gap,
        entries: n,
        strips: 0,
    };
    let count = pen_zones(&mut boxes, table, n, board);
    let from = Point { x: sx, y: sy };
    let to = Point { x: tx, y: ty };
    Ok(search::first_path(out, &boxes, count, w, h, from, to))
}
