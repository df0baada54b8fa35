// Patches across legs, point by point.
ghost use Rattle.std.specs.Prelude.{◌≤◌};

use crate::Foil;
use foil_spec::Entry;
use places::entry_at;
use plain::within;

// Whether an entry is a patch that blocks a point of a leg of the row, or a leg of which a patch of the row blocks a
// point.
pub(crate) fn crosses(row: &[u16; 640], foil: Foil, entry: Entry) -> bool {
    let m = (foil.half as u32) + (foil.gap as u32);
    (0..foil.entries).any(|i| {
        let other = entry_at(row, i);
        across(entry, other, m) || across(other, entry, m)
    })
}

// Whether p is a patch, which blocks up to m away, and blocks a point of e, a leg.
fn across(p: Entry, e: Entry, m: u32) -> bool
    requires { m ≤ 131070 }
{
    p.net == 0 && e.net != 0 && (e.y0..e.y1).any(|y| level(p, m, e.x0, e.x1, y))
}

// Whether the patch blocks a point of row y from x0 on, before x1.
fn level(p: Entry, m: u32, x0: u16, x1: u16, y: u16) -> bool
    requires { m ≤ 131070 }
{
    within(p.y0, p.y1, m, y) && (x0..x1).any(|x| within(p.x0, p.x1, m, x))
}
