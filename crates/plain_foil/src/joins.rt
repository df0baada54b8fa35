// A join: found by the plain search over the points that are free on the foil without the net, from a point to any
// of them that is on one of the net's legs.
ghost use Rattle.std.specs.Prelude.{◌≤◌};

use crate::laying::{append_found, blocked, off, searched};
use crate::{Foil, check_net, free_points, in_use, strike};
use foil_spec::{Entry, Reason};
use places::entry_at;

// Joins a point to a net, with room for so many corners; they are put at the front of the list. How many there are.
pub fn join(
    row: &mut [u16; 640],
    corners: &mut [u16; 8192],
    foil: &mut Foil,
    room: usize,
    net: u16,
    sx: u16,
    sy: u16,
) -> Result<usize, Reason> {
    check_net(net)?;
    if !in_use(row, foil.entries, net) {
        return Err(Reason::NetNotOnFoil);
    }
    if off(*foil, sx, sy) {
        return Err(Reason::OffFoil);
    }
    let mut path = [0u16; 8192];
    let k = find_net(&mut path, row, *foil, room, net, sx, sy)?;
    append_found(row, corners, foil, net, &path, k)
}

// Finds the path from a point to a net, with room for so many corners; they are put at the front of the list.
fn find_net(
    path: &mut [u16; 8192],
    row: &[u16; 640],
    foil: Foil,
    room: usize,
    net: u16,
    sx: u16,
    sy: u16,
) -> Result<usize, Reason> {
    let mut others = [0u16; 640];
    let mut without = foil;
    without.entries = strike(&mut others, row, foil.entries, net);
    if blocked(&others, without, sx, sy) {
        return Err(Reason::NotFree);
    }
    let mut map = [false; 4096];
    free_points(&mut map, &others, without);
    let mut targets = [false; 4096];
    leg_points(&mut targets, row, foil.entries, net);
    searched(plain::first_path_to(path, &map, &targets, sx, sy), room)
}

// Says of each place of a map whether its point is on one of the net's legs, of the first n entries.
fn leg_points(map: &mut [bool; 4096], row: &[u16; 640], n: usize, net: u16)
    requires { n ≤ 128 }
{
    for p in 0..4096 {
        let x = (p % 64) as u16;
        let y = (p / 64) as u16;
        map[p] = (0..n).any(|i| is_on(entry_at(row, i), net, x, y));
    }
}

// Whether a point is on an entry of the net.
fn is_on(e: Entry, net: u16, x: u16, y: u16) -> bool {
    e.net == net && e.x0 <= x && x < e.x1 && e.y0 <= y && y < e.y1
}
