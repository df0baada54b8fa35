// Patches across legs (document 02, P8).
ghost use Rattle.std.specs.Prelude.{◌≡◌, ◌+◌, ◌*◌, ◌≤◌, map, ltb, length};
ghost use Rattle.foil_spec.specs.Lists.{range};
ghost use Rattle.foil_spec.specs.Limits.{max_entries};
ghost use Rattle.foil_spec.specs.Foil.{meets, crosses, over_leg, under_patch, no_crossing, pen_rule, patch_margin};
ghost use Rattle.foil_spec.specs.Lent.{entry_at, pen_in};
ghost use Rattle.zones.specs.Table.{Small};

use foil_spec::{Board, Entry, TABLE_SIZE};
use places::entry_at;
use tables::without;

// How far away a patch blocks by the record's pen.
#[tactic(auto, unfolding(foil_spec::specs::Foil::pen_rule, foil_spec::specs::Foil::patch_margin))]
pub fn patch_margin(board: Board) -> u16
    requires { Small (pen_rule (pen_in board)) }
    ensures { result ≡ patch_margin (pen_in board) }
{
    board.half + board.gap
}

// Whether no patch of the table's first n entries, which block up to m away, blocks a point of one of
// their legs. These are taken out first, so that each patch is tried with each leg, and with nothing else.
pub fn no_crossing(table: &[u16], n: usize, m: u16) -> bool
    requires { (n ≤ max_entries) × (n * 5 ≤ length table.now) }
    ensures { result ≡ no_crossing m (map (entry_at table.now) (range 0 n)) }
{
    let mut legs = [0u16; TABLE_SIZE];
    let count = without(&mut legs, table, n, 0);
    (0..n).all(|i| !over_leg(&legs, count, m, entry_at(table, i)))
}

// Whether one of the patches of the table's first n entries blocks a point of e, a leg.
pub fn under_patch(table: &[u16], n: usize, m: u16, e: Entry) -> bool
    requires { n * 5 ≤ length table.now }
    ensures { result ≡ under_patch m (map (entry_at table.now) (range 0 n)) e }
{
    (0..n).any(|k| crosses_leg(m, entry_at(table, k), e))
}

// Whether p is a patch that blocks a point of one of the legs of the table's first n entries.
pub fn over_leg(table: &[u16], n: usize, m: u16, p: Entry) -> bool
    requires { n * 5 ≤ length table.now }
    ensures { result ≡ over_leg m (map (entry_at table.now) (range 0 n)) p }
{
    p.net == 0 && (0..n).any(|k| crosses_leg(m, p, entry_at(table, k)))
}

// Whether p is a patch that blocks a point of e, a leg.
#[tactic(auto, unfolding(foil_spec::specs::Foil::crosses))]
fn crosses_leg(m: u16, p: Entry, e: Entry) -> bool
    ensures { result ≡ crosses m p e }
{
    p.net == 0 && e.net != 0 && boxes_meet(m, p, e)
}

// Whether the box of p, widened by m, has a point of the box of e.
#[tactic(auto, unfolding(foil_spec::specs::Foil::meets))]
fn boxes_meet(m: u16, p: Entry, e: Entry) -> bool
    ensures { result ≡ meets m p e }
{
    comes_before(e.x0, p.x1, m)
        && comes_before(p.x0, e.x1, m)
        && comes_before(e.y0, p.y1, m)
        && comes_before(p.y0, e.y1, m)
}

// Whether v comes before the place m after end.
fn comes_before(v: u16, end: u16, m: u16) -> bool
    ensures { result ≡ ltb v (end + m) }
{
    u32::from(v) < u32::from(end) + u32::from(m)
}
