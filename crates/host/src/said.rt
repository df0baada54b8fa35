// The answers of calls as numbers, for programs in C.
ghost use Rattle.std.specs.Prelude.{◌≡◌};
ghost use Rattle.host.specs.Calls.{said_of, ohms_said};

use foil::{Accepted, Answer};
use ohms::Resistance;

// An answer as numbers: the number of a refusal, 0 for none; the numbers of corners and bends after a
// lay, a join, a find or a booking; the strip's place after a look up; the number of bytes after a save
// or a slip, and of nets after a carry.
#[repr(C)]
#[derive(Clone, Copy)]
pub struct Said {
    pub number: u8,
    pub corners: usize,
    pub bends: usize,
    pub place: usize,
    pub bytes: usize,
}

// Ohms as numbers: the number of a refusal, 0 for none, and the ohms, 0 where they are refused.
#[repr(C)]
#[derive(Clone, Copy)]
pub struct OhmsSaid {
    pub number: u8,
    pub ohms: f64,
}

// No numbers.
pub(crate) const NOTHING_SAID: Said = Said {
    number: 0,
    corners: 0,
    bends: 0,
    place: 0,
    bytes: 0,
};

// The numbers of an answer.
#[tactic(auto, unfolding(crate::specs::Calls::said_of))]
pub fn said_of(answer: Answer) -> Said
    ensures { result ≡ said_of answer }
{
    match answer {
        Err(refusal) => Said {
            number: refusal.number(),
            ..NOTHING_SAID
        },
        Ok(Accepted::Done) => NOTHING_SAID,
        Ok(Accepted::Laid(corners, bends)) => Said {
            corners,
            bends,
            ..NOTHING_SAID
        },
        Ok(Accepted::Found(place)) => Said {
            place,
            ..NOTHING_SAID
        },
        Ok(Accepted::Wrote(bytes)) => Said {
            bytes,
            ..NOTHING_SAID
        },
    }
}

// The numbers of an answer for ohms.
#[tactic(auto, unfolding(crate::specs::Calls::ohms_said))]
pub fn ohms_said(answer: Resistance) -> OhmsSaid
    ensures { result ≡ ohms_said answer }
{
    match answer {
        Resistance::Refused(number) => OhmsSaid { number, ohms: 0.0 },
        Resistance::Ohms(ohms) => OhmsSaid { number: 0, ohms },
    }
}
