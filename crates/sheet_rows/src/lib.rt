// The rows of a sheet: how many entries its eight foils have and may have, and the table that they share, from which a
// foil's entries are taken out for a call and to which they are put back.
#![tactic(auto)]

mod limits;
mod table;

ghost use Rattle.std.specs.Prelude.{◌≡◌, ◌∷◌, ◌<◌, get_or, set, replicate};
ghost use Rattle.foil_spec.specs.Limits.{sheet_foils};
ghost use Rattle.foil_spec.specs.Sheet.{no_board, counts};

use foil_spec::Board;
pub use limits::{counts_ok, limit};
use places::no_board;
pub use table::{places_lent, put_back, take_out};

// How many foils a sheet has.
pub const FOILS: usize = 8;

// How many entries the table of a sheet holds, and how many numbers they are in a flat list.
pub const SHEET_ENTRIES: usize = 512;

pub const SHEET_SIZE: usize = 2560;

// The records of the eight foils.
#[repr(C)]
#[derive(Clone, Copy)]
pub struct Sheet {
    pub boards: [Board; FOILS],
}

// The records of a sheet on which no foil is begun.
pub fn no_foils() -> Sheet
    ensures { result.boards ≡ replicate sheet_foils no_board }
{
    Sheet {
        boards: [no_board(); FOILS],
    }
}

// The same but for foil 0, whose record is given.
pub fn only_foil_0(board: Board) -> Sheet
    ensures { result.boards ≡ board ∷ replicate 7 no_board }
{
    let mut sheet = no_foils();
    sheet.boards[0] = board;
    sheet
}

// The record of foil k.
pub fn board_at(sheet: Sheet, k: usize) -> Board
    requires { k < sheet_foils }
    ensures { result ≡ get_or sheet.boards k no_board }
{
    sheet.boards[k]
}

// The sheet with another record of foil k.
pub(crate) fn with_board(mut sheet: Sheet, k: usize, board: Board) -> Sheet
    requires { k < sheet_foils }
    ensures { result.boards ≡ set sheet.boards k board }
{
    sheet.boards[k] = board;
    sheet
}

// How many entries each foil has by its record.
pub(crate) fn counts_of(sheet: Sheet) -> [usize; FOILS]
    ensures { result ≡ counts sheet.boards }
{
    sheet.boards.map(|board| board.entries)
}
