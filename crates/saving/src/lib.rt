// Saving a foil as a job file: `save_in` is the body of the call.
#![tactic(auto)]

mod file;

ghost use Rattle.std.specs.Prelude.{◌≡◌, true};
ghost use Rattle.foil_spec.specs.Foil.{pen_rule};
ghost use Rattle.foil_spec.specs.Ledger.{is_too_fine, beginning_too_fine, save as saves};
ghost use Rattle.foil_spec.specs.Lent.{lent, layout_of, pen_in, sound};
ghost use Rattle.zones.specs.Table.{Table};
ghost use Rattle.foil.specs.Contract.{ReadIn};

use file::{FILE_SIZE, write_file};
use foil::{Accepted, Answer};
use foil_spec::{Board, Reason, STRIPS_SIZE};
use putting::put_bytes;
use state::strips_of;
use zones::pen_rule;

// Writes a foil that keeps the rules as a job file to the front of `out`: the board, the entries in table
// order, the end mark. Answers the number of bytes. Where it is refused, `out` stays as it is: the file is
// made apart, so that its size is known before any byte of it is written to `out`.
pub fn save_in(out: &mut [u8], table: &[u16], strips: &[u16], board: Board) -> Answer
    requires { sound (lent board table.now strips.now) ≡ true }
    ensures { ReadIn saves (lent board table.now strips.now)
        out.old result out.new }
{
    if beginning_too_fine(table, board) {
        return Err(Reason::TooManyStrips.into());
    }
    let mut file = [0u8; FILE_SIZE];
    let size = write_file(&mut file, table, board);
    if out.len() < size {
        return Err(Reason::LentTooLittle.into());
    }
    put_bytes(out, 0, &file[..size]);
    Ok(Accepted::Wrote(size))
}

// Whether some beginning of the table alone has too many strips.
fn beginning_too_fine(table: &[u16], board: Board) -> bool
    requires { Table table.now board.entries (pen_rule (pen_in board)) board.width board.height }
    ensures { result ≡ beginning_too_fine (layout_of board.width board.height (pen_in board)
        board.entries table.now) }
{
    for k in 0..=board.entries {
        if too_fine(table, k, board) {
            return true;
        }
    }
    false
}

// Whether the table's first n entries leave too many strips.
fn too_fine(table: &[u16], n: usize, board: Board) -> bool
    requires { Table table.now n (pen_rule (pen_in board)) board.width board.height }
    ensures { result ≡ is_too_fine (layout_of board.width board.height (pen_in board) n
        table.now) }
{
    let mut out = [0u16; STRIPS_SIZE];
    let rule = pen_rule(board.half, board.gap);
    strips_of(&mut out, table, n, rule, board.width, board.height).is_none()
}
