// The table that the foils of a sheet share: a foil's entries taken out, and put back.
ghost use Rattle.std.specs.Prelude.{◌≡◌, true, [], ◌++◌, ◌+◌, ◌-◌, ◌*◌, ◌<◌, ◌≤◌, min, length, take, drop};
ghost use Rattle.std.proofs.Math.Seq.{paste};
ghost use Rattle.foil_spec.specs.Limits.{table_size, sheet_foils, sheet_entries, sheet_size};
ghost use Rattle.foil_spec.specs.Lent.{written};
ghost use Rattle.foil_spec.specs.Sheet.{counts as counts_in, counts_ok, limit_of, table_at};
ghost use Rattle.tables.specs.Rows.{rows_of};
ghost use Rattle.sheet_laws.specs.Places.{before, behind};
ghost use Rattle.sheet_laws.specs.Alone.{EightFoils};
ghost use Rattle.sheet_rows.specs.Rows.{PutBack};

use crate::limits::start_of;
use crate::{FOILS, SHEET_ENTRIES, SHEET_SIZE, Sheet, counts_of, with_board};
use foil_spec::Board;
use tables::copy;

// How many places of a lent table of n a call goes over: the first 512.
pub fn places_lent(n: usize) -> usize
    ensures { result ≡ min n sheet_entries }
{
    n.min(SHEET_ENTRIES)
}

// Puts foil k's entries into rows that are empty.
pub fn take_out(rows: &mut [u16], table: &[u16], sheet: Sheet, k: usize)
    requires eight_foils { EightFoils sheet.boards table.now }
    requires k_lt_sheet_foils { (k < sheet_foils) × (rows.old ≡ rows_of []) }
    ensures { rows.new ≡ table_at k sheet.boards table.now }
{
    let counts = counts_of(sheet);
    let start = start_of(counts, k);
    let size = counts[k] * 5;
    copy(&mut rows[..size], &table[start..][..size]);
}

// Gives foil k this record and the first entries of the rows, as many as the record says: those of the foils behind it
// are moved, and the unused places are zero.
pub fn put_back(table: &mut [u16], rows: &[u16], sheet: Sheet, k: usize, board: Board) -> Sheet
    requires eight_foils { EightFoils sheet.boards table.old }
    requires k_lt_sheet_foils { (k < sheet_foils) × (board.entries ≤ limit_of (counts_in sheet.boards) k) }
    requires table_size_in_bounds { table_size ≤ length rows.now }
    ensures { PutBack k sheet.boards table.old board rows.now
        result.boards table.new }
{
    put_rows(table, rows, counts_of(sheet), k, board.entries);
    with_board(sheet, k, board)
}

// Gives foil k the first n entries of the rows, where the foils have so many.
fn put_rows(table: &mut [u16], rows: &[u16], counts: [usize; FOILS], k: usize, n: usize)
    requires k_lt_sheet_foils { (k < sheet_foils) × (counts_ok counts ≡ true) × (n ≤ limit_of counts k) }
    requires sheet_size_in_bounds { (sheet_size ≤ length table.old) × (n * 5 ≤ length rows.now) }
    ensures { table.new ≡ written sheet_size (before counts k table.old
        ++ (take (5 * n) rows.now ++ behind counts k table.old)) table.old }
{
    let start = start_of(counts, k);
    let rest = start_of(counts, k + 1);
    let end = start_of(counts, FOILS);
    replace(table, &rows[..n * 5], start, rest, end);
}

// Puts the rows for the numbers of the table from `start` to `rest`. Those from `rest` to `end` are moved, and zeros
// follow.
fn replace(table: &mut [u16], rows: &[u16], start: usize, rest: usize, end: usize)
    requires rest_bound { (start + length rows.now + (end - rest) ≤ sheet_size) × (rest ≤ end) × (end ≤ sheet_size) }
    requires sheet_size_in_bounds { sheet_size ≤ length table.old }
    ensures { table.new ≡ written sheet_size (take start table.old
        ++ (rows.now ++ take (end - rest) (drop rest table.old))) table.old }
{
    let behind = start + rows.len();
    table.copy_within(rest..end, behind);
    copy(&mut table[start..behind], rows);
    table[behind + (end - rest)..SHEET_SIZE].fill(0);
}
