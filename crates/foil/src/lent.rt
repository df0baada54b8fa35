// The refusals that every call begins with: lists that are too short (12), and a state that breaks a
// rule (13).
ghost use Rattle.foil_spec.specs.Lent.{lent};
ghost use Rattle.foil.specs.Contract.{TooShort, LentChecked};

use foil_spec::{Board, Reason, Refusal, STRIPS_SIZE, TABLE_SIZE};
use state::is_sound;

// Whether the lent table or strip list is too short (12).
pub fn lists_short(table: &[u16], strips: &[u16]) -> bool
    ensures { TooShort table.now strips.now result }
{
    table.len() < TABLE_SIZE || strips.len() < STRIPS_SIZE
}

// The refusals for what is lent of a foil: 12, then 13.
pub fn lent_refusal(table: &[u16], strips: &[u16], board: Board) -> Result<(), Refusal>
    ensures { LentChecked (lent board table.now strips.now) result }
{
    if lists_short(table, strips) {
        return Err(Reason::LentTooLittle.into());
    }
    if !is_sound(table, strips, board) {
        return Err(Reason::BrokenState.into());
    }
    Ok(())
}
