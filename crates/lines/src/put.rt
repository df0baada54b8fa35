// Numbers and corners written at a place of a lent list. Each function answers the place after them.
ghost use Rattle.std.specs.Prelude.{◌+◌, ◌*◌, ◌≤◌, length};
ghost use Rattle.foil_spec.specs.Lists.{each};
ghost use Rattle.foil_spec.specs.Corners.{corners_in};
ghost use Rattle.putting.specs.Put.{Put};
ghost use Rattle.lines.specs.Lines.{item, corner_item};

use foil_spec::Point;
use places::corner_at;
use putting::{put_bytes, put_number};

// Puts a blank and a number of 16 bits, which are 6 bytes at most.
pub fn put_item(out: &mut [u8], at: usize, n: u16) -> usize
    requires { at + 21 ≤ length out.old }
    ensures put { Put out.old at (item n) out.new result }
    ensures upper_bound { result ≤ at + 6 }
{
    let a = put_bytes(out, at, b" ");
    put_number(out, a, u64::from(n))
}

// Puts a blank and a corner as x,y, which are 12 bytes at most.
pub fn put_corner(out: &mut [u8], at: usize, corner: Point) -> usize
    requires { at + 27 ≤ length out.old }
    ensures put { Put out.old at (corner_item corner) out.new result }
    ensures upper_bound { result ≤ at + 12 }
{
    let a = put_item(out, at, corner.x);
    let b = put_bytes(out, a, b",");
    put_number(out, b, u64::from(corner.y))
}

// Puts the first `count` corners of the list.
pub fn put_corners(out: &mut [u8], at: usize, corners: &[u16], count: usize) -> usize
    requires count_in_bounds { at + 15 + 12 * count ≤ length out.old }
    requires count_in_bounds_2 { 2 * count ≤ length corners.now }
    ensures put { Put out.old at
        (each corner_item (corners_in corners.now count)) out.new result }
    ensures upper_bound { result ≤ at + 12 * count }
{
    let mut a = at;
    for k in 0..count {
        a = put_corner(out, a, corner_at(corners, k));
    }
    a
}
