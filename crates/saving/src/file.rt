// The bytes of the file, put at a place of a list. Each function answers the place after them.
ghost use Rattle.std.specs.Prelude.{◌+◌, ◌*◌, ◌≤◌, ◌∷◌, map, length};
ghost use Rattle.foil_spec.specs.Lists.{range, each};
ghost use Rattle.foil_spec.specs.Limits.{max_entries};
ghost use Rattle.foil_spec.specs.Lent.{entry_at, layout_of, pen_in};
ghost use Rattle.foil_spec.specs.Saving.{two_bytes, entry_bytes, job_of};
ghost use Rattle.putting.specs.Put.{Put};
ghost use Rattle.saving.specs.File.{file_size};

use foil_spec::{Board, Entry};
use places::entry_at;
use putting::put_bytes;

// The most bytes that the file of a foil can have.
pub const FILE_SIZE: usize = 1420;

// Puts the whole file of a foil at the front.
pub fn write_file(out: &mut [u8], table: &[u16], board: Board) -> usize
    requires file_size_in_bounds { file_size ≤ length out.old }
    requires entries_le_max_entries { (board.entries ≤ max_entries) × (board.entries * 5 ≤ length table.now) }
    ensures { Put out.old 0 (job_of (layout_of board.width board.height
        (pen_in board) board.entries table.now)) out.new result }
{
    let numbers = [board.width, board.height, 0, board.half, board.gap];
    let first = put_record(out, 0, 33, &numbers);
    let end = put_entries(out, first, table, board.entries);
    put_bytes(out, end, b"\0")
}

// Puts the records of the first n entries of the table, one after the other.
fn put_entries(out: &mut [u8], at: usize, table: &[u16], n: usize) -> usize
    requires n_in_bounds { at + 11 * n ≤ length out.old }
    requires n_in_bounds_2 { n * 5 ≤ length table.now }
    ensures { Put out.old at (each entry_bytes (map (entry_at table.now) (range 0 n)))
        out.new result }
{
    let mut a = at;
    for k in 0..n {
        a = put_entry(out, a, entry_at(table, k));
    }
    a
}

// Puts the record of an entry, of 11 bytes at most: a patch by bit 1, a leg by bit 4.
fn put_entry(out: &mut [u8], at: usize, e: Entry) -> usize
    requires { at + 11 ≤ length out.old }
    ensures { Put out.old at (entry_bytes e) out.new result }
{
    if e.net == 0 {
        let patch = [e.x0, e.y0, e.x1, e.y1];
        return put_record(out, at, 2, &patch);
    }
    let leg = [e.net, e.x0, e.y0, e.x1, e.y1];
    put_record(out, at, 16, &leg)
}

// Puts a map byte and the numbers.
fn put_record(out: &mut [u8], at: usize, bits: u8, numbers: &[u16]) -> usize
    requires { at + 1 + 2 * length numbers.now ≤ length out.old }
    ensures { Put out.old at (bits ∷ each two_bytes numbers.now)
        out.new result }
{
    let a = put_bytes(out, at, &[bits]);
    put_numbers(out, a, numbers)
}

// Puts the numbers.
fn put_numbers(out: &mut [u8], at: usize, numbers: &[u16]) -> usize
    requires { at + 2 * length numbers.now ≤ length out.old }
    ensures { Put out.old at (each two_bytes numbers.now) out.new result }
{
    let mut a = at;
    for n in numbers {
        a = put_two_bytes(out, a, *n);
    }
    a
}

// Puts a number as two bytes, low byte first.
#[tactic(auto, unfolding(foil_spec::specs::Saving::two_bytes))]
fn put_two_bytes(out: &mut [u8], at: usize, n: u16) -> usize
    requires { at + 2 ≤ length out.old }
    ensures { Put out.old at (two_bytes n) out.new result }
{
    put_bytes(out, at, &n.to_le_bytes())
}
