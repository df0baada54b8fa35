// A track: found by the plain search over all points, booked as it was drawn, or both.
ghost use Rattle.std.specs.Prelude.{◌+◌, ◌*◌, ◌<◌, ◌≤◌, IfOk};

use crate::{Foil, append_entry, check_net, free_points, in_use, pen};
use foil_spec::{Entry, Reason};
use places::put_entry;

// Lays a track, with room for so many corners; they are put at the front of the list. How many corners it has.
pub fn lay(
    row: &mut [u16; 640],
    corners: &mut [u16; 8192],
    foil: &mut Foil,
    room: usize,
    net: u16,
    sx: u16,
    sy: u16,
    tx: u16,
    ty: u16,
) -> Result<usize, Reason> {
    check_net(net)?;
    if in_use(row, foil.entries, net) {
        return Err(Reason::NetOnFoil);
    }
    let mut path = [0u16; 8192];
    let k = find(&mut path, row, *foil, room, sx, sy, tx, ty)?;
    append_found(row, corners, foil, net, &path, k)
}

// Appends the legs of a path of k corners, and puts the corners at the front of the list.
pub(crate) fn append_found(
    row: &mut [u16; 640],
    corners: &mut [u16; 8192],
    foil: &mut Foil,
    net: u16,
    path: &[u16; 8192],
    k: usize,
) -> Result<usize, Reason> {
    append(row, foil, net, path, k)?;
    copy(corners, path, k);
    Ok(k)
}

// Books the first n numbers of a list, the corners that someone drew, as a track. How many corners it has.
pub fn book(
    row: &mut [u16; 640],
    foil: &mut Foil,
    net: u16,
    list: &[u16; 8192],
    n: usize,
) -> Result<usize, Reason>
    requires { n ≤ 8192 }
{
    check_net(net)?;
    if in_use(row, foil.entries, net) {
        return Err(Reason::NetOnFoil);
    }
    let k = n / 2;
    if k == 0 || n % 2 == 1 || !draws_way(row, *foil, list, k) {
        return Err(Reason::NotAWay);
    }
    append(row, foil, net, list, k)?;
    Ok(k)
}

// Whether a point is off the foil.
pub(crate) fn off(foil: Foil, x: u16, y: u16) -> bool {
    foil.width <= x || foil.height <= y
}

// Whether a point is not free.
pub(crate) fn blocked(row: &[u16; 640], foil: Foil, x: u16, y: u16) -> bool {
    !plain::is_free(row, foil.entries, pen(foil), foil.width, foil.height, x, y)
}

// Finds the path between two points, with room for so many corners; they are put at the front of the list. How many
// there are.
pub fn find(
    corners: &mut [u16; 8192],
    row: &[u16; 640],
    foil: Foil,
    room: usize,
    sx: u16,
    sy: u16,
    tx: u16,
    ty: u16,
) -> Result<usize, Reason>
    ensures { IfOk result (λ k. k ≤ room) }
{
    if off(foil, sx, sy) || off(foil, tx, ty) {
        return Err(Reason::OffFoil);
    }
    if blocked(row, foil, sx, sy) || blocked(row, foil, tx, ty) {
        return Err(Reason::NotFree);
    }
    let mut map = [false; 4096];
    let mut path = [0u16; 8192];
    free_points(&mut map, row, foil);
    let found = plain::first_path(&mut path, &map, sx, sy, tx, ty);
    let k = searched(found, room)?;
    copy(corners, &path, k);
    Ok(k)
}

// How many corners were found by a search, with room for so many.
pub(crate) fn searched(found: Option<usize>, room: usize) -> Result<usize, Reason>
    ensures { IfOk result (λ k. k ≤ room) }
{
    let Some(k) = found else {
        return Err(Reason::NoPath);
    };
    if room < k {
        return Err(Reason::LentTooLittle);
    }
    Ok(k)
}

// Whether the first k corners of a list are a way over the foil's free points.
fn draws_way(row: &[u16; 640], foil: Foil, list: &[u16; 8192], k: usize) -> bool
    requires { (0 < k) × (k ≤ 4096) }
{
    let mut map = [false; 4096];
    free_points(&mut map, row, foil);
    plain::is_way(&map, list, k)
}

// Appends the legs of a path of k corners to the row; of a single corner a leg of one point.
fn append(
    row: &mut [u16; 640],
    foil: &mut Foil,
    net: u16,
    path: &[u16; 8192],
    k: usize,
) -> Result<(), Reason> {
    let n = foil.entries;
    if k < 2 {
        let x = path[0];
        let y = path[1];
        return append_entry(row, foil, leg(net, x, y, x, y));
    }
    if 129 - n < k {
        return Err(Reason::TableFull);
    }
    legs(row, n, net, path, k);
    foil.entries = n + k - 1;
    Ok(())
}

// Puts the legs of a path of k corners at the places of the row from n on.
fn legs(row: &mut [u16; 640], n: usize, net: u16, path: &[u16; 8192], k: usize)
    requires { (1 ≤ k) × (n + k ≤ 129) }
{
    for i in 1..k {
        let ax = path[i * 2 - 2];
        let ay = path[i * 2 - 1];
        put_entry(
            row,
            n + i - 1,
            leg(net, ax, ay, path[i * 2], path[i * 2 + 1]),
        );
    }
}

// Copies the first k corners of a path to the front of the list.
fn copy(corners: &mut [u16; 8192], path: &[u16; 8192], k: usize) {
    let n = k.min(4096) * 2;
    corners[..n].copy_from_slice(&path[..n]);
}

// The leg between two corners.
fn leg(net: u16, ax: u16, ay: u16, bx: u16, by: u16) -> Entry {
    Entry {
        net,
        x0: ax.min(bx),
        y0: ay.min(by),
        x1: ax.max(bx).wrapping_add(1),
        y1: ay.max(by).wrapping_add(1),
    }
}
