// Booking a path that a search has found, for every call that searches one first.
ghost use Rattle.std.specs.Prelude.{◌≤◌, List};
ghost use Rattle.std.proofs.Math.Option.{Option};
ghost use Rattle.foil_spec.specs.Limits.{max_entries};
ghost use Rattle.foil_spec.specs.Foil.{Point};
ghost use Rattle.foil_spec.specs.Lent.{lent};
ghost use Rattle.booking.specs.Tracks.{MayTrack, Searched, Tracked};

use crate::book_path;
use foil::{Accepted, Answer};
use foil_spec::{Board, Reason};
use tables::{bend_count, copy, leg_count};

// The numbers of the corners of a path whose legs fit an empty table: what a search writes a path to before it is
// booked.
pub const PATH_SIZE: usize = 258;

// Books the path that a search has put at the front of a list, whose corners it has counted, or refuses it: by 9 where
// none was found, by 12 where the corner list is too short for it, by 10 and 11. Where it is booked its corners stand
// at the front of the corner list.
pub fn book_found(
    table: &mut [u16],
    strips: &mut [u16],
    corners: &mut [u16],
    board: &mut Board,
    limit: usize,
    net: u16,
    path: &[u16],
    found: Option<usize>,
) -> Answer
    requires may_track { MayTrack (lent board.old table.old strips.old) net path.now found }
    requires limit_le_max_entries { limit ≤ max_entries }
    ensures { (o : Option (List Point)) → Searched o path.now found
        → Tracked net limit o (lent board.old table.old strips.old) corners.old
        result board.new table.new strips.new corners.new }
{
    let k = found.ok_or(Reason::NoPath)?;
    if corners.len() / 2 < k {
        return Err(Reason::LentTooLittle.into());
    }
    let n = board.entries;
    if limit < n + leg_count(k) {
        return Err(Reason::TableFull.into());
    }
    *board = book_path(table, strips, *board, net, path, k).ok_or(Reason::TooManyStrips)?;
    copy(&mut corners[..k * 2], &path[..k * 2]);
    Ok(Accepted::Laid(k, bend_count(k)))
}
