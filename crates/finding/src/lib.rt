// The body of the call find (`find_in`): writes the corners of the first path of fewest bends, and changes nothing
// else. What it seeks by is open to lay.
#![tactic(auto)]

ghost use Rattle.std.specs.Prelude.{◌≡◌, ◌<◌, true};
ghost use Rattle.foil_spec.specs.Ledger.{find as finds, blocked};
ghost use Rattle.foil_spec.specs.Lent.{lent, layout_of, pen_in, held, sound};
ghost use Rattle.foil.specs.Contract.{ReadIn};
ghost use Rattle.finding.specs.Points.{OffFoil, PointsChecked};
ghost use Rattle.finding.specs.Found.{Posed, Found};

use foil::{Accepted, Answer};
use foil_spec::{Board, Point, Reason, Refusal};
use search::first_path;
use strips::locate;
use tables::bend_count;
use zones::{BOXES_SIZE, pen_zones};

// Finds the track between two points on a foil that keeps the rules: writes its corners to the front of the corner
// list.
pub fn find_in(
    corners: &mut [u16],
    table: &[u16],
    strips: &[u16],
    board: Board,
    from: Point,
    to: Point,
) -> Answer
    requires { sound (lent board table.now strips.now) ≡ true }
    ensures { ReadIn (finds from to)
        (lent board table.now strips.now) corners.old result corners.new }
{
    points_refusal(table, strips, board, from, to)?;
    let k = path_between(corners, table, board, from, to).ok_or(Reason::NoPath)?;
    if corners.len() / 2 < k {
        return Err(Reason::LentTooLittle.into());
    }
    Ok(Accepted::Laid(k, bend_count(k)))
}

// The refusals for the ends of a path, on a foil that keeps the rules: 7 for both, then 8.
pub fn points_refusal(
    table: &[u16],
    strips: &[u16],
    board: Board,
    from: Point,
    to: Point,
) -> Result<(), Refusal>
    requires { sound (lent board table.now strips.now) ≡ true }
    ensures { PointsChecked (held (lent board table.now strips.now))
        from to result }
{
    if off_foil(board, from) || off_foil(board, to) {
        return Err(Reason::OffFoil.into());
    }
    if is_blocked(table, strips, board, from) || is_blocked(table, strips, board, to) {
        return Err(Reason::NotFree.into());
    }
    Ok(())
}

// Whether the point is off the foil (7).
fn off_foil(board: Board, point: Point) -> bool
    ensures { OffFoil board point result }
{
    board.width <= point.x || board.height <= point.y
}

// Whether the point, which is on the foil, is not free (8): no strip holds it. The table is lent for
// the contract only.
fn is_blocked(table: &[u16], strips: &[u16], board: Board, point: Point) -> bool
    requires strips_value { sound (lent board table.now strips.now) ≡ true }
    requires x_lt_width { (point.x < board.width) × (point.y < board.height) }
    ensures { result ≡ blocked (held (lent board table.now strips.now)) point }
{
    locate(strips, board.strips, point).is_none()
}

// Searches the first path of fewest bends and least length between two free points. Answers how many
// corners it has, if there is a path. Where they fit, they are written to the front of out.
pub fn path_between(
    out: &mut [u16],
    table: &[u16],
    board: Board,
    from: Point,
    to: Point,
) -> Option<usize>
    requires { Posed table.now board.entries (pen_in board) board.width board.height
        from to }
    ensures { Found (layout_of board.width board.height (pen_in board) board.entries
        table.now) from to out.old out.new result }
{
    let mut boxes = [0u16; BOXES_SIZE];
    let n = pen_zones(&mut boxes, table, board.entries, board);
    first_path(out, &boxes, n, board.width, board.height, from, to)
}
