// The legs of a path as entries.
ghost use Rattle.std.specs.Prelude.{◌≡◌, suc, ◌+◌, ◌-◌, ◌*◌, ◌≤◌, ◌<◌, max, length};
ghost use Rattle.foil_spec.specs.Limits.{max_entries, max_side, table_size};
ghost use Rattle.foil_spec.specs.Ledger.{leg};
ghost use Rattle.foil_spec.specs.Corners.{corner_at};
ghost use Rattle.tables.specs.Rows.{Appended};
ghost use Rattle.tables.specs.Legs.{Corners, Legs};

use foil_spec::Entry;
use places::{corner_at, put_entry};

// How many entries a path of k corners makes: one for each leg, and one for a single corner.
pub fn leg_count(k: usize) -> usize
    ensures { result ≡ max 1 (k - 1) }
{
    k.saturating_sub(1).max(1)
}

// How many bends a path of k corners has.
pub fn bend_count(k: usize) -> usize
    ensures { result ≡ k - 2 }
{
    k.saturating_sub(2)
}

// Puts the leg between corners i and j of the path at place n, the first unused one of the rows.
fn append_leg(rows: &mut [u16], n: usize, net: u16, path: &[u16], i: usize, j: usize)
    requires n_lt_max_entries { (n < max_entries) × (table_size ≡ length rows.old) }
    requires i_in_bounds { (i * 2 + 2 ≤ length path.now) × (j * 2 + 2 ≤ length path.now) }
    requires i_bound { ((corner_at path.now i).x < max_side) × ((corner_at path.now i).y < max_side) }
    requires j_bound { ((corner_at path.now j).x < max_side) × ((corner_at path.now j).y < max_side) }
    ensures { Appended rows.old rows.new n
        (leg net (corner_at path.now i) (corner_at path.now j)) }
{
    let a = corner_at(path, i);
    let b = corner_at(path, j);
    let leg = Entry {
        net,
        x0: a.x.min(b.x),
        y0: a.y.min(b.y),
        x1: a.x.max(b.x) + 1,
        y1: a.y.max(b.y) + 1,
    };
    put_entry(rows, n, leg);
}

// Puts an entry for each leg of the path of k corners after the n entries of the rows, or one entry of
// a single point for one corner, and answers how many entries there are then.
pub fn append_legs(rows: &mut [u16], n: usize, net: u16, path: &[u16], k: usize) -> usize
    requires le_k { (1 ≤ k) × (n + k ≤ suc max_entries) × (n < max_entries) × (table_size ≡ length rows.old) }
    requires corners { Corners path.now k }
    ensures { Legs rows.old rows.new n net path.now k result }
{
    if k == 1 {
        append_leg(rows, n, net, path, 0, 0);
        return n + 1;
    }
    for j in 0..k - 1 {
        append_leg(rows, n + j, net, path, j, j + 1);
    }
    n + k - 1
}
