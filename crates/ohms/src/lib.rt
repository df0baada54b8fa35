// The resistance of a laid net, from the ink's three figures: `net_ohms` is the body of the call. Nothing is
// changed.
#![tactic(auto)]

ghost use Rattle.std.specs.Prelude.{◌≡◌};
ghost use Rattle.foil_spec.specs.Ohms.{ink_ok, formula as formula_of};
ghost use Rattle.nets.specs.Measured.{Boxes};
ghost use Rattle.ohms.specs.declared.Resistance.TheVariants.{Refused};
ghost use Rattle.ohms.specs.Contract.{NetAnswered};

use foil_spec::{Ink, Reason, Refusal};
use nets::measure;
use state::net_ok;
use tables::in_use;

// What the call answers: the number of a refusal, or the ohms.
#[derive(Clone, Copy)]
pub enum Resistance {
    Refused(u8),
    Ohms(f64),
}

impl From<Refusal> for Resistance {
    ghost from_gives = { λ refusal resistance. resistance ≡ Refused refusal };

    // The answer of a call that is refused.
    fn from(refusal: Refusal) -> Self {
        Resistance::Refused(refusal.number())
    }
}

// The resistance of a net of the first n entries of a table, (L / w + c * B) * R for L steps and B bends, once 12 and
// 13 do not apply.
pub fn net_ohms(table: &[u16], n: usize, net: u16, ink: Ink) -> Resistance
    requires { Boxes table.now n }
    ensures { NetAnswered net ink table.now n result }
{
    if !net_ok(net) {
        return Refusal::from(Reason::BadNet).into();
    }
    if !in_use(table, n, net) {
        return Refusal::from(Reason::NetNotOnFoil).into();
    }
    if !ink_ok(ink) {
        return Refusal::from(Reason::BadInk).into();
    }
    let track = measure(table, n, net);
    Resistance::Ohms(formula(ink, track.steps, track.legs - 1))
}

// Whether the three figures are in their ranges. Each test is false of a NaN.
fn ink_ok(ink: Ink) -> bool
    ensures { result ≡ ink_ok ink }
{
    0.0 < ink.sheet
        && ink.sheet <= 1000.0
        && 1.0 <= ink.width
        && ink.width <= 64.0
        && 0.0 <= ink.bend
        && ink.bend <= 4.0
}

// (L / w + c * B) * R: four operations, each rounded once.
fn formula(ink: Ink, steps: u32, bends: u32) -> f64
    ensures { result ≡ formula_of steps bends ink }
{
    (steps as f64 / ink.width + ink.bend * bends as f64) * ink.sheet
}
