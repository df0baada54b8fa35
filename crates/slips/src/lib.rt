// The slip for the carton: a line for each net, into a lent list of bytes. `slip_in` is the body of the call.
#![tactic(auto)]

mod firsts;
mod page;
mod put;

ghost use Rattle.std.specs.Prelude.{◌≡◌, true};
ghost use Rattle.foil_spec.specs.Ledger.{slip as slips};
ghost use Rattle.foil_spec.specs.Lent.{lent, sound};
ghost use Rattle.foil.specs.Contract.{ReadIn};

use foil::{Accepted, Answer};
use foil_spec::{Board, Reason};
pub use page::PAGE_SIZE;
use page::put_page;
use putting::put_bytes;

// Writes the slip of a foil that keeps the rules to the front of `out`, and answers the number of its bytes.
// Where it is refused, `out` stays as it is: the page is made apart, so that its size is known before any byte
// of it is written to `out`.
pub fn slip_in(out: &mut [u8], table: &[u16], strips: &[u16], board: Board) -> Answer
    requires { sound (lent board table.now strips.now) ≡ true }
    ensures { ReadIn slips (lent board table.now strips.now)
        out.old result out.new }
{
    let mut page = [0u8; PAGE_SIZE];
    let size = put_page(&mut page, table, board.entries);
    if out.len() < size {
        return Err(Reason::LentTooLittle.into());
    }
    put_bytes(out, 0, &page[..size]);
    Ok(Accepted::Wrote(size))
}
