// The rows of a table in the making: 128 places of five numbers, unused ones zero.
ghost use Rattle.std.specs.Prelude.{◌≡◌, ◌+◌, ◌*◌, ◌<◌, ◌≤◌, [], map, length};
ghost use Rattle.foil_spec.specs.Lists.{range};
ghost use Rattle.foil_spec.specs.Limits.{max_entries, table_size};
ghost use Rattle.foil_spec.specs.Nets.{in_use};
ghost use Rattle.foil_spec.specs.Lent.{entry_at};
ghost use Rattle.tables.specs.Rows.{rows_of, Kept};

use places::{entry_at, put_entry};

// Copies a list to one that is as long. The two do not overlap, and the compiler sees it here: this becomes `memcpy`,
// where std's copy becomes `memmove`, which the library for C does not ask of its hosts.
pub fn copy(to: &mut [u16], from: &[u16])
    requires { length to.old ≡ length from.now }
    ensures { to.new ≡ from.now }
{
    for i in 0..from.len() {
        to[i] = from[i];
    }
}

// Whether one of the first n entries of the table is of the net.
pub fn in_use(table: &[u16], n: usize, net: u16) -> bool
    requires { n * 5 ≤ length table.now }
    ensures { result ≡ in_use net (map (entry_at table.now) (range 0 n)) }
{
    (0..n).any(|k| entry_at(table, k).net == net)
}

// Puts the entries of all other nets, of the first n of the table, into rows that are empty, in their
// order, and answers how many they are.
pub fn without(rows: &mut [u16], table: &[u16], n: usize, net: u16) -> usize
    requires { (n ≤ max_entries) × (n * 5 ≤ length table.now) × (rows.old ≡ rows_of []) }
    ensures { Kept rows.new table.now net n result }
{
    let mut j = 0;
    for k in 0..n {
        let e = entry_at(table, k);
        if e.net != net {
            put_entry(rows, j, e);
            j += 1;
        }
    }
    j
}
