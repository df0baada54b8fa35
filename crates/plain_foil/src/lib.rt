// Document 01's foil, kept plainly, for the calls to be compared with: a row of entries, from which free points, paths
// and strips are worked out anew each time. A foil is at most 64 by 64, so that 4,096 strips are never passed.
#![tactic(auto)]

mod crossing;
mod joins;
mod laying;
mod looks;
mod records;
mod runs;

ghost use Rattle.std.specs.Prelude.{◌≤◌};

use foil_spec::{Entry, Pen, Reason};
pub use joins::join;
pub use laying::{book, find, lay};
pub use looks::look_up;
use places::{entry_at, put_entry};
pub use records::{Ran, Steps, record};
pub use runs::strips;

// A foil's size, the half width and the gap of its pen, and how many entries its row has.
#[derive(Clone, Copy)]
pub struct Foil {
    pub width: u16,
    pub height: u16,
    pub half: u16,
    pub gap: u16,
    pub entries: usize,
    ghost few: { entries ≤ 128 },
}

// The foil's pen.
fn pen(foil: Foil) -> Pen {
    Pen {
        half: foil.half,
        gap: foil.gap,
    }
}

// Says of each place of a map whether its point is free.
fn free_points(map: &mut [bool; 4096], row: &[u16; 640], foil: Foil) {
    plain::free_points(map, row, foil.entries, pen(foil), foil.width, foil.height);
}

// Puts an entry after the others of the row.
fn append_entry(row: &mut [u16; 640], foil: &mut Foil, entry: Entry) -> Result<(), Reason> {
    let n = foil.entries;
    if 128 <= n {
        return Err(Reason::TableFull);
    }
    put_entry(row, n, entry);
    foil.entries = n + 1;
    Ok(())
}

// Puts an entry after the others, unless a patch and a leg cross by it.
fn draw_entry(row: &mut [u16; 640], foil: &mut Foil, entry: Entry) -> Result<(), Reason> {
    if crossing::crosses(row, *foil, entry) {
        return Err(Reason::Crossed);
    }
    append_entry(row, foil, entry)
}

// Whether a box is not empty and lies on the foil.
fn is_box(foil: Foil, e: Entry) -> bool {
    e.x0 < e.x1 && e.x1 <= foil.width && e.y0 < e.y1 && e.y1 <= foil.height
}

// Draws a patch.
pub fn draw(
    row: &mut [u16; 640],
    foil: &mut Foil,
    x0: u16,
    y0: u16,
    x1: u16,
    y1: u16,
) -> Result<(), Reason> {
    let patch = Entry {
        net: 0,
        x0,
        y0,
        x1,
        y1,
    };
    if !is_box(*foil, patch) {
        return Err(Reason::BadShape);
    }
    draw_entry(row, foil, patch)
}

// Refuses a number that is no net's.
fn check_net(net: u16) -> Result<(), Reason> {
    if net < 1 || 999 < net {
        return Err(Reason::BadNet);
    }
    Ok(())
}

// Whether an entry's points make a leg: one point wide in one direction.
fn thin(e: Entry) -> bool {
    (e.x0 < e.x1 && e.x1 - e.x0 == 1) || (e.y0 < e.y1 && e.y1 - e.y0 == 1)
}

// Appends a leg as booked.
pub fn put_leg(row: &mut [u16; 640], foil: &mut Foil, leg: Entry) -> Result<(), Reason> {
    check_net(leg.net)?;
    if !is_box(*foil, leg) || !thin(leg) {
        return Err(Reason::BadShape);
    }
    draw_entry(row, foil, leg)
}

// Whether one of the first n entries is of the net.
fn in_use(row: &[u16; 640], n: usize, net: u16) -> bool
    requires { n ≤ 128 }
{
    (0..n).any(|i| row[i * 5] == net)
}

// Lifts a net.
pub fn lift(row: &mut [u16; 640], foil: &mut Foil, net: u16) -> Result<(), Reason> {
    let n = foil.entries;
    check_net(net)?;
    if !in_use(row, n, net) {
        return Err(Reason::NetNotOnFoil);
    }
    let old = *row;
    *row = [0; 640];
    foil.entries = strike(row, &old, n, net);
    Ok(())
}

// Puts the first n entries of the old row at the front of the row, but for those of the net, and answers how many they
// are.
fn strike(row: &mut [u16; 640], old: &[u16; 640], n: usize, net: u16) -> usize
    requires { n ≤ 128 }
    ensures { result ≤ 128 }
{
    let mut left: usize = 0;
    for i in 0..n {
        let entry = entry_at(old, i);
        if entry.net != net {
            put_entry(row, left, entry);
            left += 1;
        }
    }
    left
}
