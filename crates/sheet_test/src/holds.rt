// What a call answered and left, compared with what it should.
ghost use Rattle.std.specs.Prelude.{◌<◌};

use foil::{Accepted, Answer};
use foil_spec::{Board, Refusal};
use plain_foil::Foil;
use plain_sheet::{Kind, Terms, Want, Wrong};
use sheet::Sheet;

// Whether an accepted call of this kind answers so, where the number that it should answer is n.
fn same_accepted(given: Accepted, kind: Kind, n: usize) -> bool {
    match given {
        Accepted::Done => matches!(kind, Kind::New | Kind::Draw | Kind::Leg | Kind::Lift),
        Accepted::Laid(corners, bends) => {
            matches!(kind, Kind::Lay | Kind::Join | Kind::Book | Kind::Find)
                && corners == n
                && bends == n.saturating_sub(2)
        }
        Accepted::Found(place) => kind == Kind::LookUp && place == n,
        Accepted::Wrote(bytes) => kind == Kind::Save && bytes == n,
    }
}

// Whether the answer is as it should be.
pub(crate) fn same_answer(answer: Answer, kind: Kind, want: Want) -> bool {
    match answer {
        Err(refusal) => want
            .answer
            .is_err_and(|reason| refusal == Refusal::from(reason)),
        Ok(given) => want.answer.is_ok_and(|n| same_accepted(given, kind, n)),
    }
}

// The sheet with another record of foil k.
pub(crate) fn with_board(sheet: Sheet, k: usize, board: Board) -> Sheet
    requires { k < 8 }
{
    let mut boards = sheet.boards;
    boards[k] = board;
    Sheet { boards }
}

// The record of a foil with so many strips.
pub(crate) fn board_of(foil: Foil, strips: usize) -> Board {
    Board {
        width: foil.width,
        height: foil.height,
        half: foil.half,
        gap: foil.gap,
        entries: foil.entries,
        strips,
    }
}

// A record with something wrong in it.
fn spoilt(board: Board, wrong: Wrong) -> Board {
    let mut b = board;
    match wrong {
        Wrong::Nothing => {}
        Wrong::Entries => b.entries = 129,
        Wrong::AllEntries => b.entries = 65,
        Wrong::MostEntries => b.entries = usize::MAX,
        Wrong::Width => b.width = b.width.wrapping_add(1),
        Wrong::Strips => b.strips = b.strips.wrapping_add(1),
    }
    b
}

// The records as a call on foil k is lent them: right, or with something wrong in one of them, or in all.
pub(crate) fn lent_records(sheet: Sheet, k: usize, terms: Terms) -> Sheet {
    let at = if terms.wrong == Wrong::Strips {
        k
    } else {
        terms.at
    } % 8;
    let boards = sheet.boards;
    let board = spoilt(boards[at], terms.wrong);
    if terms.wrong == Wrong::AllEntries {
        let all = [board; 8];
        return Sheet { boards: all };
    }
    with_board(sheet, at, board)
}
