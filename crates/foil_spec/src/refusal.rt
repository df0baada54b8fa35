// Why a call is refused, and the number that documents 01 and 02 give to it.
ghost use Rattle.std.specs.Prelude.{◌≡◌, ℕ};
ghost use Rattle.foil_spec.specs.Refusals.{number_of, reason_of};

use std::marker::Model;

// Why a call is refused.
#[derive(Clone, Copy, PartialEq, Eq)]
pub enum Reason {
    BadSize,
    BadReach,
    BadShape,
    BadNet,
    NetOnFoil,
    NetNotOnFoil,
    OffFoil,
    NotFree,
    NoPath,
    TableFull,
    TooManyStrips,
    LentTooLittle,
    BrokenState,
    FileCutShort,
    UnknownBit,
    BoardMisplaced,
    BytesAfterEnd,
    FileTooLong,
    NotAWay,
    BadPen,
    Crossed,
    BadInk,
    NoSuchFoil,
}

// A refusal. What contracts see of it is its number.
#[derive(Clone, Copy, PartialEq, Eq)]
pub struct Refusal {
    reason: Reason,
}

impl Model for Refusal {
    ghost Value = { ℕ };

    ghost view = { λ r. number_of r.reason };

    ghost inverse = { λ n. record { reason = reason_of n } };
}

impl Refusal {
    // The number of the refusal.
    pub fn number(self) -> u8
        ensures { result ≡ self }
    {
        match self.reason {
            Reason::BadSize => 1,
            Reason::BadReach => 2,
            Reason::BadShape => 3,
            Reason::BadNet => 4,
            Reason::NetOnFoil => 5,
            Reason::NetNotOnFoil => 6,
            Reason::OffFoil => 7,
            Reason::NotFree => 8,
            Reason::NoPath => 9,
            Reason::TableFull => 10,
            Reason::TooManyStrips => 11,
            Reason::LentTooLittle => 12,
            Reason::BrokenState => 13,
            Reason::FileCutShort => 14,
            Reason::UnknownBit => 15,
            Reason::BoardMisplaced => 16,
            Reason::BytesAfterEnd => 17,
            Reason::FileTooLong => 18,
            Reason::NotAWay => 19,
            Reason::BadPen => 20,
            Reason::Crossed => 21,
            Reason::BadInk => 22,
            Reason::NoSuchFoil => 23,
        }
    }
}

impl From<Reason> for Refusal {
    ghost from_gives = { λ reason refusal. refusal ≡ number_of reason };

    // The refusal for a reason.
    fn from(reason: Reason) -> Self {
        Refusal { reason }
    }
}
