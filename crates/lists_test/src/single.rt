// The nets of a list, laid one after the other on the plain foil.
ghost use Rattle.std.specs.Prelude.{◌<◌};

use crate::asked::Asked;
use crate::{COUNTS, EMPTY, LATER, MOST, NUMBERS, WHOLE, count};
use foil_spec::{Reason, Refusal};
use plain_foil::Foil;

// What the nets so far have left: whether the list was refused as a whole, the foil, how many corner places they use,
// and whether one was laid, and one met 12.
#[derive(Clone, Copy)]
pub(crate) struct Laid {
    pub(crate) refused: bool,
    pub(crate) foil: Foil,
    pub(crate) used: usize,
    pub(crate) any: bool,
    pub(crate) short: bool,
    ghost few_used: { used < 32 },
}

// Lays net k with room for so many corners, unless its entries are more than foil 0 may have: answers how many corners
// it has.
fn lay_fitting(
    row: &mut [u16; 640],
    path: &mut [u16; 8192],
    wishes: &[u16; 210],
    foil: &mut Foil,
    room: usize,
    k: usize,
) -> Result<usize, Reason>
    requires { k < 42 }
{
    let old_row = *row;
    let old_foil = *foil;
    let laid = plain_foil::lay(
        row,
        path,
        foil,
        room,
        wishes[k * 5],
        wishes[k * 5 + 1],
        wishes[k * 5 + 2],
        wishes[k * 5 + 3],
        wishes[k * 5 + 4],
    );
    if MOST < foil.entries {
        *row = old_row;
        *foil = old_foil;
        return Err(Reason::TableFull);
    }
    laid
}

// Lays net k with the corner places that are left, at most 31, and puts its corners and its answer where they should
// be.
fn lay_one(
    counts: &mut [u64; COUNTS],
    row: &mut [u16; 640],
    corners: &mut [u16; 130],
    answers: &mut [u16; 130],
    wishes: &[u16; 210],
    laid: &mut Laid,
    places: usize,
    k: usize,
)
    requires { k < 42 }
{
    let mut path = [7u16; 8192];
    let mut foil = laid.foil;
    let room = places.wrapping_sub(laid.used);
    let (number, n) = match lay_fitting(row, &mut path, wishes, &mut foil, room, k) {
        Ok(n) => (0, n % 32),
        Err(reason) => (Refusal::from(reason).number(), 0),
    };
    let at = laid.used * 2;
    corners[at..at + n * 2].copy_from_slice(&path[..n * 2]);
    let bends = n.saturating_sub(2);
    answers[k * 3..k * 3 + 3].copy_from_slice(&[u16::from(number), n as u16, bends as u16]);
    count(counts, usize::from(number) % NUMBERS, true);
    count(counts, LATER, laid.short && number == 0);
    laid.foil = foil;
    laid.used = (laid.used + n) % 32;
    laid.any = laid.any || number == 0;
    laid.short = laid.short || number == 12;
}

// Lays the nets of a list, unless it meets 12 as a whole.
pub(crate) fn lay_all(
    counts: &mut [u64; COUNTS],
    row: &mut [u16; 640],
    corners: &mut [u16; 130],
    answers: &mut [u16; 130],
    wishes: &[u16; 210],
    foil: Foil,
    asked: Asked,
) -> Laid {
    let refused = 40 < asked.nets || asked.answers / 3 < asked.nets;
    count(counts, WHOLE, refused);
    count(counts, EMPTY, asked.nets == 0);
    let mut laid = Laid {
        refused,
        foil,
        used: 0,
        any: false,
        short: false,
    };
    if refused {
        return laid;
    }
    for k in 0..asked.nets {
        lay_one(
            counts,
            row,
            corners,
            answers,
            wishes,
            &mut laid,
            asked.corners / 2,
            k,
        );
    }
    laid
}
