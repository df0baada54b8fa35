// The strips of a foil: built from the boxes that are blocked, and looked up.
#![tactic(auto)]

mod row_boxes;
mod row_joining;
mod rows;
mod sweep;

ghost use Rattle.std.specs.Prelude.{◌≡◌, ◌*◌, ◌+◌, ◌≤◌, length};
ghost use Rattle.foil_spec.specs.Limits.{strips_size};
ghost use Rattle.foil_spec.specs.Strips.{strips, holds};
ghost use Rattle.foil_spec.specs.Lent.{listed_strips};
ghost use Rattle.zones.specs.Boxes.{box_free, Boxes};
ghost use Rattle.strips.specs.Built.{Listed, Rebuilt};
ghost use Rattle.strips.specs.Places.{place_in, ByRow};

use foil_spec::{MAX_SIDE, Point, STRIPS_SIZE, Strip};
use places::strip_at;
use rows::{Mark, Rows};
use zones::MAX_BOXES;

// Writes the strips that the first n boxes leave of a foil of w by h to out, and zeros after them up to
// 4,096 places. Answers how many there are, none for more than 4,096; then what out holds is undecided.
pub fn rebuild(out: &mut [u16], boxes: &[u16], n: usize, w: u16, h: u16) -> Option<usize>
    requires boxes { Boxes boxes.now n w h }
    requires strips_size_in_bounds { strips_size ≤ length out.old }
    ensures { Rebuilt out.old out.new
        (strips (box_free w h n boxes.now) w h) result }
{
    let count = list_strips(out, boxes, n, w, h)?;
    out[count * 4..STRIPS_SIZE].fill(0);
    Some(count)
}

// Writes the strips that the first n boxes leave of a foil of w by h to the front of out. Answers how many there are,
// none for more than 4,096; then what out holds is undecided.
pub fn list_strips(out: &mut [u16], boxes: &[u16], n: usize, w: u16, h: u16) -> Option<usize>
    requires boxes { Boxes boxes.now n w h }
    requires strips_size_in_bounds { strips_size ≤ length out.old }
    ensures { Listed out.old out.new result (strips (box_free w h n boxes.now) w h) }
{
    let mut rows = Rows {
        marks: [Mark::Plain; MAX_SIDE + 1],
        heads: [None; MAX_SIDE],
        nexts: [None; MAX_BOXES],
    };
    rows::mark_rows(&mut rows.marks, boxes, n);
    row_boxes::chain_boxes(&mut rows.heads, &mut rows.nexts, boxes, n);
    row_joining::join_rows(out, boxes, &rows, n, w, h)
}

// Whether the strip holds the point.
#[tactic(auto, unfolding(foil_spec::specs::Strips::holds))]
fn holds(strip: Strip, point: Point) -> bool
    ensures { result ≡ holds point strip }
{
    strip.x0 <= point.x && point.x < strip.x1 && strip.y0 <= point.y && point.y < strip.y1
}

// The place of the first of the `count` strips of the list, which stand by y0, that holds the point.
pub fn locate(list: &[u16], count: usize, point: Point) -> Option<usize>
    requires count_in_bounds { count * 4 ≤ length list.now }
    requires by_row { ByRow list.now count }
    ensures { result ≡ place_in point (listed_strips list.now count) }
{
    let mut k = 0;
    let place = loop {
        if k == count {
            break None;
        }
        let strip = strip_at(list, k);
        if point.y < strip.y0 {
            break None;
        }
        if holds(strip, point) {
            break Some(k);
        }
        k += 1;
    };
    place
}
