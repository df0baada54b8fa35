// The body of the call lay (`lay_in`): finds the first path of fewest bends as `finding` does, and books it as
// `booking` does.
#![tactic(auto)]

ghost use Rattle.std.specs.Prelude.{◌≡◌, ◌≤◌, true};
ghost use Rattle.foil_spec.specs.Limits.{max_entries};
ghost use Rattle.foil_spec.specs.Ledger.{lay as lays};
ghost use Rattle.foil_spec.specs.Lent.{lent, sound};
ghost use Rattle.foil.specs.Contract.{OutputIn};
ghost use Rattle.laying.specs.Ready.{ReadyToLay};

use booking::{PATH_SIZE, book_found};
use finding::{path_between, points_refusal};
use foil::Answer;
use foil_spec::{Board, Point, Reason};
use state::net_ok;
use tables::in_use;

// Lays a track of the net between two points on a foil that keeps the rules and may have so many entries: writes its
// corners to the front of the corner list, and appends an entry for each leg.
pub fn lay_in(
    table: &mut [u16],
    strips: &mut [u16],
    corners: &mut [u16],
    board: &mut Board,
    limit: usize,
    net: u16,
    from: Point,
    to: Point,
) -> Answer
    requires strips_value { sound (lent board.old table.old strips.old) ≡ true }
    requires limit_le_max_entries { limit ≤ max_entries }
    ensures { OutputIn (lays net from to) limit
        (lent board.old table.old strips.old) corners.old
        result board.new table.new strips.new corners.new }
{
    if !net_ok(net) {
        return Err(Reason::BadNet.into());
    }
    if in_use(table, board.entries, net) {
        return Err(Reason::NetOnFoil.into());
    }
    points_refusal(table, strips, *board, from, to)?;
    lay_between(table, strips, corners, board, limit, net, from, to)
}

// Lays the track between two free points, for a net that is allowed and not in use.
fn lay_between(
    table: &mut [u16],
    strips: &mut [u16],
    corners: &mut [u16],
    board: &mut Board,
    limit: usize,
    net: u16,
    from: Point,
    to: Point,
) -> Answer
    requires ready_to_lay { ReadyToLay (lent board.old table.old strips.old) net from to }
    requires limit_le_max_entries { limit ≤ max_entries }
    ensures { OutputIn (lays net from to) limit
        (lent board.old table.old strips.old) corners.old
        result board.new table.new strips.new corners.new }
{
    let mut path = [0u16; PATH_SIZE];
    let found = path_between(&mut path, table, *board, from, to);
    book_found(table, strips, corners, board, limit, net, &path, found)
}
