// The checks that are a record's own, in their order.
ghost use Rattle.std.specs.Prelude.{◌≡◌, not, ◌&&◌, ◌||◌, ◌≤◌, ◌<◌, eqb, length};
ghost use Rattle.std.specs.Bool.{xor};
ghost use Rattle.foil_spec.specs.Limits.{max_bytes};
ghost use Rattle.foil_spec.specs.Ledger.{first};
ghost use Rattle.foil_spec.specs.Job.{has as has_bit, record_checks};
ghost use Rattle.job.specs.Parts.{checked_of};

use crate::fields::{MAP_BITS, fields_at, has};
use foil_spec::{Reason, Refusal};

// The checks of the record at a place.
pub(crate) fn record_refusal(bytes: &[u8], at: usize) -> Result<(), Refusal>
    requires { length bytes.now ≤ max_bytes }
    ensures { result ≡ checked_of (first (record_checks bytes.now at)) }
{
    if bytes.len() <= at {
        return Err(Reason::FileCutShort.into());
    }
    if 1 << MAP_BITS <= bytes[at] {
        return Err(Reason::UnknownBit.into());
    }
    if board_misplaced(bytes, at) {
        return Err(Reason::BoardMisplaced.into());
    }
    if bytes[at] == 0 {
        if at + 1 < bytes.len() {
            return Err(Reason::BytesAfterEnd.into());
        }
        return Ok(());
    }
    if bytes.len() < fields_at(bytes, at, MAP_BITS) {
        return Err(Reason::FileCutShort.into());
    }
    Ok(())
}

// Whether the board is absent from the first record or present in a later one, or a pen stands beside
// none.
fn board_misplaced(bytes: &[u8], at: usize) -> bool
    requires { at < length bytes.now }
    ensures { result ≡ (xor (eqb at 0) (has_bit bytes.now at 0)
        || has_bit bytes.now at 5 && not (has_bit bytes.now at 0)) }
{
    let board = has(bytes, at, 0);
    if at == 0 {
        return !board;
    }
    board || has(bytes, at, 5)
}
