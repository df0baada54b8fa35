// The strips of a foil, by their definition, from its free points.
ghost use Rattle.std.specs.Prelude.{◌<◌, ◌≤◌, IfSome};

use crate::{Foil, free_points};
use foil_spec::Strip;
use places::put_strip;

// How many points are in a row of the map, and how many in all.
const SIDE: usize = 64;

const POINTS: usize = 4096;

// Puts the foil's strips at the front of the list, by y0, then x0, and answers how many they are.
pub fn strips(list: &mut [u16; 16384], row: &[u16; 640], foil: Foil) -> usize
    ensures { result ≤ 4096 }
{
    let mut map = [false; 4096];
    free_points(&mut map, row, foil);
    let mut count: usize = 0;
    for p in 0..POINTS {
        if let Some(strip) = strip_from(&map, p % SIDE, p / SIDE) {
            put_strip(list, count, strip);
            count += 1;
        }
    }
    count
}

// The strip whose first point is (x, y), if there is one.
fn strip_from(map: &[bool; 4096], x: usize, y: usize) -> Option<Strip>
    requires { (x < 64) × (y < 64) }
{
    let e = run_end(map, x, y)?;
    if 0 < y && run_end(map, x, y - 1) == Some(e) {
        return None;
    }
    Some(Strip {
        x0: x as u16,
        y0: y as u16,
        x1: e as u16,
        y1: bottom(map, x, y, e) as u16,
    })
}

// The end of the run of free points whose first one is (x, y), if a run begins there.
fn run_end(map: &[bool; 4096], x: usize, y: usize) -> Option<usize>
    requires { (x < 64) × (y < 64) }
    ensures { IfSome result (λ e. e ≤ 64) }
{
    let row = y * SIDE;
    if !map[row + x] || (0 < x && map[row + x - 1]) {
        return None;
    }
    for e in x..SIDE {
        if !map[row + e] {
            return Some(e);
        }
    }
    Some(SIDE)
}

// The end of the rows from y on in which the run from x to e goes on unchanged.
fn bottom(map: &[bool; 4096], x: usize, y: usize, e: usize) -> usize
    requires { (x < 64) × (y < 64) }
    ensures { result ≤ 64 }
{
    for v in y..SIDE {
        if run_end(map, x, v) != Some(e) {
            return v;
        }
    }
    SIDE
}
