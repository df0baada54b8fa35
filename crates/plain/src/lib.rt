// The first path of fewest bends on a small board, by a plain breadth-first search over all its points.
// It follows document 01's words point by point, and is there for another search to be compared with.
//
// What a path costs is one number: 65,536 for each segment and 1 for each step. So fewer segments come
// first, then fewer steps; a board has too few points for the steps to weigh as much as a segment.
//
// A board is at most 64 by 64. A list of points has 4,096 places, and the point (x, y) stands at
// y * 64 + x: the order of the places is the order of corners, smaller y first, then smaller x.
#![tactic(auto)]

mod rounds;
mod walk;

ghost use Rattle.std.specs.Prelude.{◌≡◌, true, false, ◌≤◌, ◌<◌, IfSome};
ghost use Rattle.foil_spec.specs.Foil.{pen_rule, margin, near_edge, within, blocks};
ghost use Rattle.foil_spec.specs.Lent.{entry_at};
ghost use Rattle.plain.specs.Free.{Unblocked};

use foil_spec::Pen;
pub use walk::is_way;

// How many points are in a row of the lists, and how many in all.
const SIDE: usize = 64;

const POINTS: usize = 4096;

// What a segment costs, beside its steps.
const SEGMENT: u32 = 65536;

// What it costs to come to a target from each point by paths that begin with a level segment, and by those that begin
// with an upright one, where there are any.
#[derive(Clone, Copy)]
struct Costs {
    level: [Option<u32>; 4096],
    upright: [Option<u32>; 4096],
}

// Says of each place whether its point is on the board of w by h, and neither its edge nor one of the
// first n entries of the table blocks it by the pen.
pub fn free_points(map: &mut [bool; 4096], table: &[u16; 640], n: usize, pen: Pen, w: u16, h: u16)
    requires { n ≤ 128 }
{
    for p in 0..POINTS {
        let x = (p % SIDE) as u16;
        let y = (p / SIDE) as u16;
        map[p] = is_free(table, n, pen, w, h, x, y);
    }
}

// Whether the point (x, y) is on the board, and neither its edge nor an entry blocks it.
pub fn is_free(table: &[u16; 640], n: usize, pen: Pen, w: u16, h: u16, x: u16, y: u16) -> bool
    requires { n ≤ 128 }
    ensures { (result ≡ true → Unblocked table.now n pen w h x y)
        × (result ≡ false → Unblocked table.now n pen w h x y → ⊥) }
{
    let m = u32::from(pen.half) + u32::from(pen.gap);
    if near_edge(m, w, x) || near_edge(m, h, y) {
        return false;
    }
    for i in 0..n {
        if blocks_at(table, i, away(table, i, pen), x, y) {
            return false;
        }
    }
    true
}

// Whether v is nearer than m to an end of a side of so many points, or not on it.
#[tactic(auto, unfolding(foil_spec::specs::Foil::near_edge))]
fn near_edge(m: u32, size: u16, v: u16) -> bool
    requires { m ≤ 131070 }
    ensures { result ≡ near_edge m size v }
{
    u32::from(v) < m || u32::from(size) <= u32::from(v) + m
}

// How far away entry i of the table blocks: a patch half the pen's width and its gap, a leg half the
// width more.
fn away(table: &[u16; 640], i: usize, pen: Pen) -> u32
    requires { i < 128 }
    ensures { (result ≤ 196605) × (result ≡ margin (pen_rule pen) (entry_at table.now i)) }
{
    let half = u32::from(pen.half);
    let gap = u32::from(pen.gap);
    if table[i * 5] == 0 {
        half + gap
    } else {
        half + (half + gap)
    }
}

// Whether entry i of the table, widened by d, has the point (x, y).
#[tactic(auto, unfolding(foil_spec::specs::Foil::blocks, foil_spec::specs::Lent::entry_at))]
fn blocks_at(table: &[u16; 640], i: usize, d: u32, x: u16, y: u16) -> bool
    requires { (i < 128) × (d ≤ 196605) }
    ensures { result ≡ blocks d (entry_at table.now i) x y }
{
    within(table[i * 5 + 1], table[i * 5 + 3], d, x)
        && within(table[i * 5 + 2], table[i * 5 + 4], d, y)
}

// Whether lo - d <= v < hi + d.
#[tactic(auto, unfolding(foil_spec::specs::Foil::within))]
pub fn within(lo: u16, hi: u16, d: u32, v: u16) -> bool
    requires { d ≤ 196605 }
    ensures { result ≡ within lo hi d v }
{
    u32::from(lo) <= u32::from(v) + d && u32::from(v) < u32::from(hi) + d
}

// Writes the corners of the first path of fewest bends from (sx, sy) to a target, and of those of least
// length, to the front of `out`, x before y, and answers how many they are, if there is a path. A
// target is a free point whose place in `targets` says so.
pub fn first_path_to(
    out: &mut [u16; 8192],
    map: &[bool; 4096],
    targets: &[bool; 4096],
    sx: u16,
    sy: u16,
) -> Option<usize> {
    let s = place(map, sx, sy)?;
    if targets[s] {
        walk::put(out, 0, s);
        return Some(1);
    }
    let mut costs = Costs {
        level: [None; 4096],
        upright: [None; 4096],
    };
    rounds::label(&mut costs, map, targets);
    let cost = least(costs.level[s], costs.upright[s])?;
    walk::walk(out, &costs, map, targets, s, cost)
}

// The same to the point (tx, ty).
pub fn first_path(
    out: &mut [u16; 8192],
    map: &[bool; 4096],
    sx: u16,
    sy: u16,
    tx: u16,
    ty: u16,
) -> Option<usize> {
    let t = place(map, tx, ty)?;
    let mut targets = [false; 4096];
    targets[t] = true;
    first_path_to(out, map, &targets, sx, sy)
}

// The place of the point (x, y), if it is free.
fn place(map: &[bool; 4096], x: u16, y: u16) -> Option<usize>
    ensures { IfSome result (λ p. p < 4096) }
{
    let column = usize::from(x);
    let row = usize::from(y);
    if SIDE <= column || SIDE <= row {
        return None;
    }
    let p = row * SIDE + column;
    if map[p] { Some(p) } else { None }
}

// The smaller of two costs, of those that there are.
fn least(a: Option<u32>, b: Option<u32>) -> Option<u32> {
    let Some(one) = a else {
        return b;
    };
    let Some(other) = b else {
        return a;
    };
    Some(one.min(other))
}
