// One call on the sheet and on the plain foils.
use crate::calls::lend;
use crate::holds::{board_of, lent_records, same_answer, with_board};
use crate::{COUNTS, count_call};
use plain_sheet::{Asked, Kept, foil_at, want_of, write_strips, write_table};
use sheet::Sheet;

// Where a sheet stands: its records, and whether unused places of its table hold other numbers than zeros.
#[derive(Clone, Copy)]
pub(crate) struct Stood {
    pub(crate) sheet: Sheet,
    pub(crate) littered: bool,
}

// Makes a call on the sheet and on the plain foils, and compares what it answers and leaves. The strips of its foil are
// written anew for it, as the last call on the foil left them.
pub(crate) fn step(
    counts: &mut [u64; COUNTS],
    table: &mut [u16; 2565],
    due: &mut [u16; 2565],
    all: &mut [Kept; 8],
    stood: Stood,
    asked: Asked,
) -> Stood {
    let k = asked.foil;
    let mut strips = [7u16; 16388];
    let mut corners = [7u16; 8192];
    let mut path = [7u16; 8192];
    write_strips(&mut strips, all, k);
    let lent = lent_records(stood.sheet, k, asked.terms);
    let mut given = lent;
    let answer = lend(table, &mut strips, &mut corners, &mut given, asked);
    let want = want_of(all, &mut path, asked);
    let wrote = want.answer.is_ok() && asked.kind.writes();
    let told = answer.is_some_and(|a| same_answer(a, asked.kind, want));
    let left = left_by(due, all, stood, k, wrote);
    let sheet = if wrote {
        with_board(lent, k % 8, left.sheet.boards[k % 8])
    } else {
        lent
    };
    let right = told
        && given.boards == sheet.boards
        && *table == *due
        && corners == path
        && same_strips(&strips, all, k);
    count_call(counts, asked, want, stood.littered, right);
    left
}

// Where the sheet stands after a call on foil k; the table as it should be is written, if the call wrote entries.
fn left_by(due: &mut [u16; 2565], all: &[Kept; 8], stood: Stood, k: usize, wrote: bool) -> Stood {
    if !wrote {
        return stood;
    }
    write_table(due, all);
    let mut own = [7u16; 16388];
    let count = write_strips(&mut own, all, k);
    let board = board_of(foil_at(all, k), count);
    Stood {
        sheet: with_board(stood.sheet, k % 8, board),
        littered: false,
    }
}

// Whether the strips of foil k are as they should be.
fn same_strips(strips: &[u16; 16388], all: &[Kept; 8], k: usize) -> bool {
    let mut own = [7u16; 16388];
    write_strips(&mut own, all, k);
    *strips == own
}
