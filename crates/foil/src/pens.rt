// The pen of a new foil: what it is asked to keep clear, and whether that is within its limits.
ghost use Rattle.std.specs.Prelude.{◌≡◌, [], ◌∷◌};
ghost use Rattle.foil_spec.specs.Ledger.{pen_of, clearance_refusal};
ghost use Rattle.foil.specs.Contract.{clearance_of, FirstChecked};

use foil_spec::{Pen, Reason, Refusal};
use state::{pen_ok, reach_ok};

// What a new foil keeps clear: by the half width and the gap of its pen; or by document 01's reach,
// which a record without bit 5 gives.
#[derive(Clone, Copy)]
pub enum Clearance {
    Pen(u16, u16),
    Reach(u16),
}

// The pen that it has then; a reach is the gap of a pen of half width 0.
#[tactic(auto, unfolding(crate::specs::Contract::clearance_of, foil_spec::specs::Ledger::pen_of))]
pub(crate) fn pen_of(clearance: Clearance) -> Pen
    ensures { result ≡ pen_of (clearance_of clearance) }
{
    match clearance {
        Clearance::Pen(half, gap) => Pen { half, gap },
        Clearance::Reach(d) => Pen { half: 0, gap: d },
    }
}

// The refusal of a clearance out of its limits: 20 for a pen, 2 for a reach.
#[tactic(auto, unfolding(crate::specs::Contract::clearance_of, foil_spec::specs::Ledger::clearance_refusal, foil_spec::specs::Ledger::first))]
pub(crate) fn clearance_refusal(clearance: Clearance) -> Result<(), Refusal>
    ensures { FirstChecked (clearance_refusal (clearance_of clearance) ∷ []) result }
{
    match clearance {
        Clearance::Pen(half, gap) if !pen_ok(half, gap) => Err(Reason::BadPen.into()),
        Clearance::Reach(d) if !reach_ok(d) => Err(Reason::BadReach.into()),
        _ => Ok(()),
    }
}
