// What the paths from all points to a target cost, by rounds: round k sees to the points from which a
// target is k segments away.
ghost use Rattle.std.specs.Prelude.{◌<◌, ◌≤◌, IfSome};

use crate::{Costs, POINTS, SEGMENT, SIDE};

// Where a point's four neighbours are; up is towards smaller y.
#[derive(Clone, Copy)]
enum Direction {
    Left,
    Right,
    Up,
    Down,
}

// The neighbour of the point p, unless p is the last point in that direction.
fn beside(p: usize, toward: Direction) -> Option<usize>
    requires { p < 4096 }
    ensures { IfSome result (λ q. q < 4096) }
{
    match toward {
        Direction::Left => if p % SIDE == 0 { None } else { Some(p - 1) },
        Direction::Right => if p % SIDE == SIDE - 1 {
            None
        } else {
            Some(p + 1)
        },
        Direction::Up => if p < SIDE { None } else { Some(p - SIDE) },
        Direction::Down => if POINTS <= p + SIDE {
            None
        } else {
            Some(p + SIDE)
        },
    }
}

// Notes a cost at the point p, unless it has one that is no more.
fn mark(costs: &mut [Option<u32>; 4096], p: usize, cost: u32)
    requires { p < 4096 }
{
    let Some(noted) = costs[p] else {
        costs[p] = Some(cost);
        return;
    };
    costs[p] = Some(cost.min(noted));
}

// Notes what it costs at the points that a free segment in one direction joins to the point `from`,
// where it is `cost` there: a step more at each.
fn spread(
    costs: &mut [Option<u32>; 4096],
    map: &[bool; 4096],
    from: usize,
    toward: Direction,
    cost: u32,
)
    requires { (from < 4096) × (cost ≤ 600000000) }
{
    let mut p = from;
    for i in 1..64 {
        let Some(q) = beside(p, toward) else {
            return;
        };
        if !map[q] {
            return;
        }
        mark(costs, q, cost + i);
        p = q;
    }
}

// Notes what paths of one segment cost: from each target a segment in two directions.
fn first_round(
    costs: &mut [Option<u32>; 4096],
    map: &[bool; 4096],
    targets: &[bool; 4096],
    back: Direction,
    on: Direction,
) {
    for p in 0..POINTS {
        if map[p] && targets[p] {
            spread(costs, map, p, back, SEGMENT);
            spread(costs, map, p, on, SEGMENT);
        }
    }
}

// Notes what paths of k + 1 segments cost: from each point whose cost in `rest` is that of k segments, a
// segment more in two directions.
fn round(
    costs: &mut [Option<u32>; 4096],
    rest: &[Option<u32>; 4096],
    map: &[bool; 4096],
    back: Direction,
    on: Direction,
    k: u32,
)
    requires { k < 8192 }
{
    for p in 0..POINTS {
        let Some(cost) = rest[p] else {
            continue;
        };
        if cost / SEGMENT == k {
            spread(costs, map, p, back, cost + SEGMENT);
            spread(costs, map, p, on, cost + SEGMENT);
        }
    }
}

// Whether some point has the cost of k segments.
fn has(costs: &[Option<u32>; 4096], k: u32) -> bool {
    costs
        .iter()
        .any(|c| c.is_some_and(|cost| cost / SEGMENT == k))
}

// Notes the costs of all points, of which none has one before: the least of the paths to a target that begin with a
// level segment, and of those that begin with an upright one.
pub(crate) fn label(costs: &mut Costs, map: &[bool; 4096], targets: &[bool; 4096]) {
    let level = &mut costs.level;
    let upright = &mut costs.upright;
    first_round(level, map, targets, Direction::Left, Direction::Right);
    first_round(upright, map, targets, Direction::Up, Direction::Down);
    for k in 1..8191 {
        round(level, upright, map, Direction::Left, Direction::Right, k);
        round(upright, level, map, Direction::Up, Direction::Down, k);
        if !has(level, k + 1) && !has(upright, k + 1) {
            return;
        }
    }
}
