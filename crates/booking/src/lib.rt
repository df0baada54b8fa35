// The body of the call book (`book_in`): takes a way over as a track, whoever drew it. What it books by is open to
// calls that search a path first.
#![tactic(auto)]

mod tracks;
mod way;

ghost use Rattle.std.specs.Prelude.{◌≡◌, ◌≤◌, true};
ghost use Rattle.foil_spec.specs.Limits.{max_entries};
ghost use Rattle.foil_spec.specs.Foil.{pen_rule, free};
ghost use Rattle.foil_spec.specs.Paths.{is_way};
ghost use Rattle.foil_spec.specs.Corners.{corners_in, drawn as drawn_by};
ghost use Rattle.foil_spec.specs.Ledger.{book as books};
ghost use Rattle.foil_spec.specs.Lent.{lent, layout_of, pen_in, held, sound};
ghost use Rattle.zones.specs.Table.{Table};
ghost use Rattle.tables.specs.Booked.{Booking};
ghost use Rattle.foil.specs.Contract.{StepIn};
ghost use Rattle.booking.specs.Booking.{with_legs, MayBook};

use foil::{Accepted, Answer};
use foil_spec::{Board, Reason, TABLE_SIZE};
use state::net_ok;
use tables::{append_legs, bend_count, in_use, leg_count, take_over};
pub use tracks::{PATH_SIZE, book_found};
pub use way::is_way;
use zones::{BOXES_SIZE, pen_zones};

// Books the way that the lent list draws, all of it, as a track of the net, on a foil that keeps the rules and may have
// so many entries: appends an entry for each leg. The list is only read.
pub fn book_in(
    table: &mut [u16],
    strips: &mut [u16],
    board: &mut Board,
    limit: usize,
    net: u16,
    corners: &[u16],
) -> Answer
    requires strips_value { sound (lent board.old table.old strips.old) ≡ true }
    requires limit_le_max_entries { limit ≤ max_entries }
    ensures { StepIn (books net corners.now) limit
        (lent board.old table.old strips.old) result board.new table.new strips.new }
{
    if !net_ok(net) {
        return Err(Reason::BadNet.into());
    }
    if in_use(table, board.entries, net) {
        return Err(Reason::NetOnFoil.into());
    }
    if !draws_way(table, *board, corners) {
        return Err(Reason::NotAWay.into());
    }
    let k = corners.len() / 2;
    if limit < board.entries + leg_count(k) {
        return Err(Reason::TableFull.into());
    }
    *board = book_path(table, strips, *board, net, corners, k).ok_or(Reason::TooManyStrips)?;
    Ok(Accepted::Laid(k, bend_count(k)))
}

// Whether the list, all of it, draws a way over the free points of a table.
fn draws_way(table: &[u16], board: Board, list: &[u16]) -> bool
    requires { Table table.now board.entries (pen_rule (pen_in board)) board.width board.height }
    ensures { result ≡ is_way (free (layout_of board.width board.height (pen_in board) board.entries
        table.now)) (drawn_by list.now) }
{
    let mut boxes = [0u16; BOXES_SIZE];
    let n = pen_zones(&mut boxes, table, board.entries, board);
    is_way(&boxes, n, board.width, board.height, list)
}

// Appends the legs of the way of k corners at the front of a list, for which there is room, and takes the table over
// with its strips; or changes nothing where there would be too many.
pub fn book_path(
    table: &mut [u16],
    strips: &mut [u16],
    board: Board,
    net: u16,
    path: &[u16],
    k: usize,
) -> Option<Board>
    requires { MayBook (lent board table.old strips.old) net path.now k }
    ensures { Booking (with_legs (held (lent board table.old strips.old)) net
        (corners_in path.now k))
        table.old strips.old table.new strips.new result }
{
    let mut rows = [0u16; TABLE_SIZE];
    rows.copy_from_slice(&table[..TABLE_SIZE]);
    let all = append_legs(&mut rows, board.entries, net, path, k);
    take_over(table, strips, &rows, all, board)
}
