// A table in the making: its rows, the legs of a path in them, and taking it over with its strips.
#![tactic(auto)]

mod legs;
mod rows;
mod strip_list;

ghost use Rattle.std.specs.Prelude.{◌≡◌, ◌≤◌, map, length};
ghost use Rattle.foil_spec.specs.Lists.{range};
ghost use Rattle.foil_spec.specs.Limits.{table_size, strips_size};
ghost use Rattle.foil_spec.specs.Foil.{pen_rule};
ghost use Rattle.foil_spec.specs.Lent.{entry_at, layout_of, pen_in};
ghost use Rattle.zones.specs.Table.{Table};
ghost use Rattle.tables.specs.Rows.{rows_of};
ghost use Rattle.tables.specs.Booked.{Booking};

use foil_spec::{Board, TABLE_SIZE};
pub use legs::{append_legs, bend_count, leg_count};
pub use rows::{copy, in_use, without};
use strip_list::put_strips;
use zones::{BOXES_SIZE, pen_zones};

// Takes the rows' n entries over as the table, with their strips, on a board of the record's size and
// pen, and answers the record then. Where there would be too many strips nothing is changed.
pub fn take_over(
    table: &mut [u16],
    strips: &mut [u16],
    rows: &[u16],
    n: usize,
    board: Board,
) -> Option<Board>
    requires table { Table rows.now n (pen_rule (pen_in board)) board.width board.height }
    requires rows_value { rows.now ≡ rows_of (map (entry_at rows.now) (range 0 n)) }
    requires table_size_in_bounds { (table_size ≤ length table.old) × (strips_size ≤ length strips.old) }
    ensures { Booking (layout_of board.width board.height (pen_in board) n rows.now)
        table.old strips.old table.new strips.new result }
{
    let mut boxes = [0u16; BOXES_SIZE];
    let m = pen_zones(&mut boxes, rows, n, board);
    let count = put_strips(strips, &boxes, m, board.width, board.height)?;
    copy(&mut table[..TABLE_SIZE], rows);
    Some(Board {
        entries: n,
        strips: count,
        ..board
    })
}
