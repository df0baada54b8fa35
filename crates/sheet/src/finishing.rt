// What a call on a foil of a sheet ends with: the foil is put back where the call wrote entries.
ghost use Rattle.sheet.specs.Parts.{Closable, Closed};

use foil_spec::Board;
use sheet_rows::{Sheet, put_back};

// Puts foil k back with this record and these rows, if the call wrote entries.
pub(crate) fn close(
    table: &mut [u16],
    rows: &[u16],
    sheet: &mut Sheet,
    k: usize,
    left: Board,
    wrote: bool,
)
    requires { Closable k sheet.old.boards table.old rows.now left wrote }
    ensures { Closed k sheet.old.boards table.old rows.now left wrote
        sheet.new.boards table.new }
{
    if wrote {
        *sheet = put_back(table, rows, *sheet, k, left);
    }
}
