// The strips of a foil, row by row: the runs of a row go on with the strips of the row before, or
// begin new ones.
ghost use Rattle.std.specs.Prelude.{◌≡◌, ◌+◌, ◌*◌, ◌≤◌, ◌<◌, length};
ghost use Rattle.foil_spec.specs.Limits.{max_strips, max_side, strips_size};
ghost use Rattle.foil_spec.specs.Strips.{strips};
ghost use Rattle.zones.specs.Boxes.{box_free, Boxes};
ghost use Rattle.strips.specs.Rows.{Change, Marked};
ghost use Rattle.strips.specs.RowBoxes.{OnRow, Chained};
ghost use Rattle.strips.specs.Joining.{JoinsRow, Opened};
ghost use Rattle.strips.specs.Decided.{Decided};
ghost use Rattle.strips.specs.Built.{Listed};

use crate::row_boxes::{Row, move_to};
use crate::rows::{Rows, next_change};
use crate::sweep::sweep;
use foil_spec::{MAX_SIDE, MAX_STRIPS, Strip};
use places::{put_strip, strip_at};
use zones::MAX_BOXES;

// Whether place k of the list is below count and has a strip from a up to b that goes as far as y.
fn is_open(out: &[u16], k: usize, count: usize, a: u16, b: u16, y: u16) -> bool
    requires { count * 4 ≤ length out.now }
    ensures { Decided (Opened out.now k count a b y) result }
{
    if count <= k {
        return false;
    }
    let strip = strip_at(out, k);
    (strip.x0, strip.x1, strip.y1) == (a, b, y)
}

// Joins the runs of row y, which all rows from there up to z are equal to, to the c strips of out. last has for each
// column the place of the last strip that began there; where none began, it may hold anything. Answers how many strips
// there are then, none for more than 4,096.
fn join_row(
    out: &mut [u16],
    last: &mut [u16],
    boxes: &[u16],
    row: &Row,
    n: usize,
    w: u16,
    h: u16,
    y: u16,
    z: u16,
    c: usize,
) -> Option<usize>
    requires boxes { Boxes boxes.now n w h }
    requires on_row { OnRow boxes.now row.now.places n row.now.count y }
    requires y_lt_h { (y < h) × (c ≤ max_strips) × (strips_size ≤ length out.old) × (max_side ≤ length last.old) }
    requires change { Change (box_free w h n boxes.now) h y z }
    ensures { JoinsRow (box_free w h n boxes.now) w h
        out.old last.old c y z out.new last.new result }
{
    let mut x = 0;
    let mut left = row.count;
    let mut count = c;
    while let Some(next) = sweep(boxes, row, n, w, h, y, x, left) {
        let from = usize::from(next.from);
        let k = usize::from(last[from]);
        if is_open(out, k, count, next.from, next.to, y) {
            out[k * 4 + 3] = z;
        } else {
            if count == MAX_STRIPS {
                return None;
            }
            let strip = Strip {
                x0: next.from,
                y0: y,
                x1: next.to,
                y1: z,
            };
            put_strip(out, count, strip);
            last[from] = count as u16;
            count += 1;
        }
        x = next.behind;
        left = next.left;
    }
    Some(count)
}

// Writes the strips of a foil to out. Answers how many there are, none for more than 4,096.
pub(crate) fn join_rows(
    out: &mut [u16],
    boxes: &[u16],
    rows: &Rows,
    n: usize,
    w: u16,
    h: u16,
) -> Option<usize>
    requires boxes { Boxes boxes.now n w h }
    requires marked { Marked boxes.now n rows.now.marks × Chained boxes.now rows.now.heads rows.now.nexts n }
    requires strips_size_in_bounds { strips_size ≤ length out.old }
    ensures { Listed out.old out.new result (strips (box_free w h n boxes.now) w h) }
{
    let mut last = [0u16; MAX_SIDE];
    let mut row = Row {
        places: [0; MAX_BOXES],
        count: 0,
    };
    let mut y = 0;
    let mut count = 0;
    while y < h {
        let z = next_change(&rows.marks, h, y);
        move_to(&mut row, boxes, rows, n, y);
        count = join_row(out, &mut last, boxes, &row, n, w, h, y, z, count)?;
        y = z;
    }
    Some(count)
}
