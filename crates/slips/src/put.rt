// A line of the slip, put at a place of a lent list. Each function answers the place after it.
ghost use Rattle.std.specs.Prelude.{◌+◌, ◌≤◌, ◌<◌, ◌^◌, length};
ghost use Rattle.foil_spec.specs.Slip.{set_right, column, slip_line};
ghost use Rattle.slip_laws.specs.Page.{Narrow};
ghost use Rattle.putting.specs.Put.{Put};

use foil_spec::Point;
use nets::Track;
use putting::put_bytes;

// Puts the line of a net with this first point.
pub(crate) fn put_line(out: &mut [u8], at: usize, net: u16, track: Track, first: Point) -> usize
    requires { Narrow net track.legs track.steps first × (at + 33 ≤ length out.old) }
    ensures { Put out.old at (slip_line net track.legs track.steps first)
        out.new result }
{
    let a = put_right(out, at, 3, u64::from(net));
    let b = put_column(out, a, 3, track.legs as u64);
    let c = put_column(out, b, 6, track.steps as u64);
    let d = put_column(out, c, 4, u64::from(first.x));
    let e = put_column(out, d, 4, u64::from(first.y));
    put_bytes(out, e, b"    \n")
}

// Puts two blanks and a number, set right in so many columns.
fn put_column(out: &mut [u8], at: usize, width: usize, n: u64) -> usize
    requires { (1 ≤ width) × (width ≤ 6) × (n < 10 ^ width) × (at + 2 + width ≤ length out.old) }
    ensures put { Put out.old at (column width n) out.new result }
    ensures upper_bound { result ≤ at + 2 + width }
{
    let a = put_bytes(out, at, b"  ");
    put_right(out, a, width, n)
}

// Puts a number, set right in so many columns.
fn put_right(out: &mut [u8], at: usize, width: usize, n: u64) -> usize
    requires { (1 ≤ width) × (width ≤ 6) × (n < 10 ^ width) × (at + width ≤ length out.old) }
    ensures put { Put out.old at (set_right width n) out.new result }
    ensures upper_bound { result ≤ at + width }
{
    let mut digits = [0u8; 20];
    let k = io::decimal(n, &mut digits);
    let blanks = [b' '; 6];
    let before = width - k;
    let a = put_bytes(out, at, &blanks[..before]);
    put_bytes(out, a, &digits[..k])
}
