// The body of the call join (`join_in`): finds the first path of fewest bends from a point to a net, over points that
// are free for the net, and books it under the same net.
#![tactic(auto)]

ghost use Rattle.std.specs.Prelude.{◌≡◌, ◌+◌, ◌*◌, ◌≤◌, ◌<◌, true, [], length};
ghost use Rattle.foil_spec.specs.Limits.{max_entries};
ghost use Rattle.foil_spec.specs.Ledger.{join as joins, free_for, join_of};
ghost use Rattle.foil_spec.specs.Lent.{lent, layout_of, pen_in, sound};
ghost use Rattle.foil.specs.Contract.{OutputIn};
ghost use Rattle.tables.specs.Rows.{rows_of};
ghost use Rattle.search.specs.Search.{PathFound};
ghost use Rattle.joining.specs.Sought.{Own, Known, Asked};
ghost use Rattle.joining.specs.Ready.{ReadyToJoin};

use booking::{PATH_SIZE, book_found, is_way};
use foil::Answer;
use foil_spec::{Board, Point, Reason, TABLE_SIZE};
use places::{entry_at, put_entry};
use search::{Aim, first_path_to};
use state::net_ok;
use tables::{in_use, without};
use zones::{BOXES_SIZE, pen_rule, pen_zones, zones};

// Joins the point to the net on a foil that keeps the rules and may have so many entries: writes the corners
// of the way to the front of the corner list, and appends an entry of the same net for each leg.
pub fn join_in(
    table: &mut [u16],
    strips: &mut [u16],
    corners: &mut [u16],
    board: &mut Board,
    limit: usize,
    net: u16,
    from: Point,
) -> Answer
    requires strips_value { sound (lent board.old table.old strips.old) ≡ true }
    requires limit_le_max_entries { limit ≤ max_entries }
    ensures { OutputIn (joins net from) limit
        (lent board.old table.old strips.old) corners.old
        result board.new table.new strips.new corners.new }
{
    if !net_ok(net) {
        return Err(Reason::BadNet.into());
    }
    if !in_use(table, board.entries, net) {
        return Err(Reason::NetNotOnFoil.into());
    }
    if board.width <= from.x || board.height <= from.y {
        return Err(Reason::OffFoil.into());
    }
    if !clear_for(table, *board, net, from) {
        return Err(Reason::NotFree.into());
    }
    join_from(table, strips, corners, board, limit, net, from)
}

// Puts entry k of the table at place j if it is of the net, and answers the next unused place.
fn keep_own(rows: &mut [u16], j: usize, table: &[u16], k: usize, net: u16) -> usize
    requires { (k < max_entries) × (k * 5 + 5 ≤ length table.now) × Own rows.old table.now net k j }
    ensures { Own rows.new table.now net (k + 1) result }
{
    let e = entry_at(table, k);
    if e.net != net {
        return j;
    }
    put_entry(rows, j, e);
    j + 1
}

// Puts the net's legs, of the first n entries of the table, into rows that are empty, in their order, and answers how
// many they are.
fn own_legs(rows: &mut [u16], table: &[u16], n: usize, net: u16) -> usize
    requires { (n ≤ max_entries) × (n * 5 ≤ length table.now) × (rows.old ≡ rows_of []) }
    ensures { Own rows.new table.now net n result }
{
    let mut j = 0;
    for k in 0..n {
        j = keep_own(rows, j, table, k, net);
    }
    j
}

// Searches the first path of fewest bends and least length from the point, which is free for the net, to one of the
// net's legs. Answers how many corners it has, if there is a path. Where they fit, they are written to the front of
// out.
pub fn path_to_net(
    out: &mut [u16],
    table: &[u16],
    board: Board,
    net: u16,
    from: Point,
) -> Option<usize>
    requires { Asked table.now board.entries (pen_in board) board.width board.height net from }
    ensures { PathFound (join_of net (layout_of board.width board.height (pen_in board) board.entries
        table.now) from) out.old out.new result }
{
    let mut others = [0u16; TABLE_SIZE];
    let j = without(&mut others, table, board.entries, net);
    let mut legs = [0u16; TABLE_SIZE];
    let k = own_legs(&mut legs, table, board.entries, net);
    let mut boxes = [0u16; BOXES_SIZE];
    let rule = pen_rule(board.half, board.gap);
    let n = zones(&mut boxes, &others, j, rule, board.width, board.height);
    let aim = Aim {
        n,
        k,
        w: board.width,
        h: board.height,
        from,
    };
    first_path_to(out, &boxes, &legs, aim)
}

// Whether the point is free for the net: neither the edge nor an entry of another net blocks it.
fn clear_for(table: &[u16], board: Board, net: u16, point: Point) -> bool
    requires { Known table.now board.entries (pen_in board) board.width board.height }
    ensures { result ≡ free_for net (layout_of board.width board.height (pen_in board) board.entries
        table.now) point.x point.y }
{
    let mut others = [0u16; TABLE_SIZE];
    let j = without(&mut others, table, board.entries, net);
    let mut boxes = [0u16; BOXES_SIZE];
    let n = pen_zones(&mut boxes, &others, j, board);
    let spot = [point.x, point.y];
    is_way(&boxes, n, board.width, board.height, &spot)
}

// Joins a point that is free for the net, which is allowed and in use, to it: writes the corners of the way to the
// front of the corner list, and appends an entry for each leg.
fn join_from(
    table: &mut [u16],
    strips: &mut [u16],
    corners: &mut [u16],
    board: &mut Board,
    limit: usize,
    net: u16,
    from: Point,
) -> Answer
    requires ready_to_join { ReadyToJoin (lent board.old table.old strips.old) net from }
    requires limit_le_max_entries { limit ≤ max_entries }
    ensures { OutputIn (joins net from) limit
        (lent board.old table.old strips.old) corners.old
        result board.new table.new strips.new corners.new }
{
    let mut path = [0u16; PATH_SIZE];
    let found = path_to_net(&mut path, table, *board, net, from);
    book_found(table, strips, corners, board, limit, net, &path, found)
}
