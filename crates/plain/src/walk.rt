// The walk over the costs: at each corner the first point in order from which the rest of the path costs
// as much less as the segment there.
ghost use Rattle.std.specs.Prelude.{◌<◌, ◌≤◌, IfSome};

use crate::{Costs, POINTS, SEGMENT, SIDE, place};

// Which way the next segment may go.
#[derive(Clone, Copy)]
enum Heading {
    Either,
    Level,
    Upright,
}

// Whether all points from the place a to the place b are free, at every step-th place.
fn all_free(map: &[bool; 4096], a: usize, b: usize, step: usize) -> bool
    requires { (b < 4096) × (0 < step) × (step ≤ 64) }
{
    let mut p = a;
    while p <= b {
        if !map[p] {
            return false;
        }
        p += step;
    }
    true
}

// Whether a level free segment has the ends p and q.
fn level_free(map: &[bool; 4096], p: usize, q: usize) -> bool
    requires { (p < 4096) × (q < 4096) }
{
    p / SIDE == q / SIDE && p != q && all_free(map, p.min(q), p.max(q), 1)
}

// Whether an upright free segment has the ends p and q.
fn upright_free(map: &[bool; 4096], p: usize, q: usize) -> bool
    requires { (p < 4096) × (q < 4096) }
{
    p % SIDE == q % SIDE && p != q && all_free(map, p.min(q), p.max(q), SIDE)
}

// Whether a free segment with the ends p and q goes as the heading says.
fn segment(map: &[bool; 4096], heading: Heading, p: usize, q: usize) -> bool
    requires { (p < 4096) × (q < 4096) }
{
    match heading {
        Heading::Either => level_free(map, p, q) || upright_free(map, p, q),
        Heading::Level => level_free(map, p, q),
        Heading::Upright => upright_free(map, p, q),
    }
}

// After the segment from p to q the next one goes the other way.
fn after(p: usize, q: usize) -> Heading {
    if p / SIDE == q / SIDE {
        Heading::Upright
    } else {
        Heading::Level
    }
}

// Whether the first k corners of a list are a way over free points.
pub fn is_way(map: &[bool; 4096], list: &[u16; 8192], k: usize) -> bool
    requires { (0 < k) × (k ≤ 4096) }
{
    let mut heading = Heading::Either;
    let Some(first) = place(map, list[0], list[1]) else {
        return false;
    };
    let mut p = first;
    for i in 1..k {
        let Some(q) = place(map, list[i * 2], list[i * 2 + 1]) else {
            return false;
        };
        if !segment(map, heading, p, q) {
            return false;
        }
        heading = after(p, q);
        p = q;
    }
    true
}

// How many steps the segment from p to q has.
fn steps(p: usize, q: usize) -> u32
    requires { (p < 4096) × (q < 4096) }
    ensures { result < 64 }
{
    let n = p.abs_diff(q);
    if n < SIDE {
        n as u32
    } else {
        (n / SIDE) as u32
    }
}

// What is left of a cost after the segment from p to q, unless that costs more.
fn rest(cost: u32, p: usize, q: usize) -> Option<u32>
    requires { (p < 4096) × (q < 4096) }
{
    cost.checked_sub(SEGMENT + steps(p, q))
}

// Whether the path from q to a target costs `left`, the first segment as the heading says.
fn leads(costs: &Costs, targets: &[bool; 4096], heading: Heading, q: usize, left: u32) -> bool
    requires { q < 4096 }
{
    if left == 0 {
        return targets[q];
    }
    let level = costs.level[q] == Some(left);
    let upright = costs.upright[q] == Some(left);
    match heading {
        Heading::Either => level || upright,
        Heading::Level => level,
        Heading::Upright => upright,
    }
}

// The first point in order that can follow the corner p, where the path from there costs `cost`, with what is left of
// the cost.
fn next_corner(
    costs: &Costs,
    map: &[bool; 4096],
    targets: &[bool; 4096],
    heading: Heading,
    p: usize,
    cost: u32,
) -> Option<(usize, u32)>
    requires { p < 4096 }
    ensures { IfSome result (λ s. s.0 < 4096) }
{
    for q in 0..POINTS {
        if segment(map, heading, p, q) {
            if let Some(left) = rest(cost, p, q) {
                if leads(costs, targets, after(p, q), q, left) {
                    return Some((q, left));
                }
            }
        }
    }
    None
}

// Writes the point p as corner i, if `out` has room for it.
pub(crate) fn put(out: &mut [u16; 8192], i: usize, p: usize)
    requires { p < 4096 }
{
    if i < POINTS {
        out[i * 2] = (p % SIDE) as u16;
        out[i * 2 + 1] = (p / SIDE) as u16;
    }
}

// Writes the corners of the path from s to a target that costs as much, and answers how many they are.
pub(crate) fn walk(
    out: &mut [u16; 8192],
    costs: &Costs,
    map: &[bool; 4096],
    targets: &[bool; 4096],
    s: usize,
    cost: u32,
) -> Option<usize>
    requires { s < 4096 }
{
    put(out, 0, s);
    let segments = (cost / SEGMENT) as usize;
    let mut heading = Heading::Either;
    let mut p = s;
    let mut left = cost;
    for i in 0..segments {
        let (q, less) = next_corner(costs, map, targets, heading, p, left)?;
        put(out, i + 1, q);
        heading = after(p, q);
        left = less;
        p = q;
    }
    Some(segments + 1)
}
