// The patch table as a lent slice of entry structs. A call takes its first 512 places out as numbers, does its work on
// these, and puts them back.
ghost use Rattle.std.specs.Prelude.{◌≡◌};
ghost use Rattle.host.specs.Flats.{numbers_lent, front_of, with_front};

use foil_spec::Entry;
use places::{entry_at, put_entry};
use sheet_rows::{SHEET_SIZE, places_lent};

// How many numbers are lent on of a table of n places: five for each of its first 512.
pub(crate) fn numbers_lent(n: usize) -> usize
    ensures { result ≡ numbers_lent n }
{
    places_lent(n) * 5
}

// The numbers of a table's first 512 places, zeros after them; the places after these are not even read.
pub(crate) fn load(table: &[Entry]) -> [u16; SHEET_SIZE]
    ensures { result ≡ front_of table.now }
{
    let mut numbers = [0; SHEET_SIZE];
    for i in 0..places_lent(table.len()) {
        put_entry(&mut numbers, i, table[i]);
    }
    numbers
}

// Puts the numbers of the first 512 places back. A place is written only where its numbers change, so
// that a refused call writes to none; the places after the first 512 are not even read.
pub(crate) fn store(table: &mut [Entry], numbers: &[u16; SHEET_SIZE])
    ensures { table.new ≡ with_front numbers.now table.old }
{
    for i in 0..places_lent(table.len()) {
        let entry = entry_at(numbers, i);
        if table[i] != entry {
            table[i] = entry;
        }
    }
}
