// Whether a list of numbers draws a way over free points: the box of each segment against each box that is blocked, so
// that no point is walked over, and any number may stand in the list.
ghost use Rattle.std.specs.Prelude.{◌≡◌, ◌*◌, ◌≤◌, length};
ghost use Rattle.foil_spec.specs.Paths.{anywhere, segment as joins, leads, is_way};
ghost use Rattle.foil_spec.specs.Corners.{corner_at, drawn};
ghost use Rattle.zones.specs.Boxes.{box_free, Boxes};
ghost use Rattle.booking.specs.Clear.{low_of, high_of, meets, Cleared};
ghost use Rattle.booking.specs.Segments.{headed, heads, corners_from};

use foil_spec::{Entry, Point};
use places::{corner_at, entry_at};

// Whether the numbers of the list, all of them, are the corners of a way over free points: on a foil of w by h, and in
// none of the n boxes.
pub fn is_way(boxes: &[u16], n: usize, w: u16, h: u16, list: &[u16]) -> bool
    requires { Boxes boxes.now n w h }
    ensures { result ≡ is_way (box_free w h n boxes.now) (drawn list.now) }
{
    let k = list.len() / 2;
    if list.len() % 2 != 0 || k == 0 {
        return false;
    }
    let first = corner_at(list, 0);
    if !clear(boxes, n, w, h, first, first) {
        return false;
    }
    if k == 1 {
        return true;
    }
    let second = corner_at(list, 1);
    goes_on(boxes, n, w, h, list, k, first.x == second.x)
}

// Whether segments lead from the first of the k corners to the last, upright and level by turns; `first` says whether
// the first one is upright.
fn goes_on(boxes: &[u16], n: usize, w: u16, h: u16, list: &[u16], k: usize, first: bool) -> bool
    requires boxes { Boxes boxes.now n w h }
    requires le_k { (1 ≤ k) × (k * 2 ≤ length list.now) }
    ensures { result ≡ leads (box_free w h n boxes.now) anywhere (headed first)
        (corner_at list.now 0) (corners_from list.now k 1) }
{
    let mut upright = first;
    for j in 0..k - 1 {
        let p = corner_at(list, j);
        let q = corner_at(list, j + 1);
        if !segment(boxes, n, w, h, upright, p, q) {
            return false;
        }
        upright = !upright;
    }
    true
}

// Whether a segment of free points joins p and q, an upright one or a level one.
fn segment(boxes: &[u16], n: usize, w: u16, h: u16, upright: bool, p: Point, q: Point) -> bool
    requires { Boxes boxes.now n w h }
    ensures { result ≡ joins (box_free w h n boxes.now) (headed upright) p q }
{
    heads(upright, p, q) && clear(boxes, n, w, h, low_of(p, q), high_of(p, q))
}

// Whether q lies straight above or below p, or else straight beside it.
#[tactic(auto, unfolding(crate::specs::Segments::heads))]
fn heads(upright: bool, p: Point, q: Point) -> bool
    ensures { result ≡ heads upright p q }
{
    if upright {
        p.x == q.x && p.y != q.y
    } else {
        p.y == q.y && p.x != q.x
    }
}

// The low corner of the box that two points span.
fn low_of(p: Point, q: Point) -> Point
    ensures { result ≡ low_of p q }
{
    Point {
        x: p.x.min(q.x),
        y: p.y.min(q.y),
    }
}

// The high corner of the box that two points span.
fn high_of(p: Point, q: Point) -> Point
    ensures { result ≡ high_of p q }
{
    Point {
        x: p.x.max(q.x),
        y: p.y.max(q.y),
    }
}

// Whether all points of the box from a, its low corner, to b, its high one, are free.
fn clear(boxes: &[u16], n: usize, w: u16, h: u16, a: Point, b: Point) -> bool
    requires boxes { Boxes boxes.now n w h }
    requires x_le_x { (a.x ≤ b.x) × (a.y ≤ b.y) }
    ensures { Cleared (box_free w h n boxes.now) a b result }
{
    if w <= b.x || h <= b.y {
        return false;
    }
    !(0..n).any(|k| meets(entry_at(boxes, k), a, b))
}

// Whether the box e has a point of the box from a to b.
#[tactic(auto, unfolding(crate::specs::Clear::meets))]
fn meets(e: Entry, a: Point, b: Point) -> bool
    ensures { result ≡ meets e a b }
{
    (e.x0 <= b.x && a.x < e.x1) && (e.y0 <= b.y && a.y < e.y1)
}
