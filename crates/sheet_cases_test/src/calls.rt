// A call of a case, and the lists that it is lent.
ghost use Rattle.std.specs.Prelude.{◌≤◌, length};

use crate::lists::{LIST, TABLE};
use crate::{reads, writes};
use sheet::Sheet;

// A call: its foil, the letter of its kind, its net, four numbers, and the letter of how the sheet is lent.
#[derive(Clone, Copy)]
pub(crate) struct Call {
    pub(crate) foil: usize,
    pub(crate) kind: u8,
    pub(crate) net: u16,
    pub(crate) x0: u16,
    pub(crate) y0: u16,
    pub(crate) x1: u16,
    pub(crate) y1: u16,
    pub(crate) lent: u8,
}

// The number that a digit stands for.
fn digit(letter: u8) -> u16 {
    u16::from(letter % 16)
}

// The call that a text of nine bytes is.
pub(crate) fn call_of(text: &[u8]) -> Call
    requires { 9 ≤ length text.now }
{
    Call {
        foil: usize::from(digit(text[0])),
        kind: text[1],
        net: digit(text[2]),
        x0: digit(text[3]),
        y0: digit(text[4]),
        x1: digit(text[5]),
        y1: digit(text[6]),
        lent: text[7],
    }
}

// How many numbers of the table are lent: all, or those of 511 places (t).
fn table_front(lent: u8) -> usize
    ensures { result ≤ 2565 }
{
    if lent == b't' { 2555 } else { TABLE }
}

// How many numbers of the strip list are lent: all, or one fewer than 4,096 places have (s).
fn list_front(lent: u8) -> usize
    ensures { result ≤ 16388 }
{
    if lent == b's' { 16383 } else { LIST }
}

// Makes the call, and writes its answer.
pub(crate) fn lend(
    table: &mut [u16; TABLE],
    list: &mut [u16; LIST],
    sheet: &mut Sheet,
    call: Call,
) {
    if call.kind == b'f' {
        writes::fill(table, list, sheet, call);
        return;
    }
    let t = table_front(call.lent);
    let s = list_front(call.lent);
    make(&mut table[..t], &mut list[..s], sheet, call);
}

// Makes it with these lists lent.
fn make(table: &mut [u16], list: &mut [u16], sheet: &mut Sheet, call: Call) {
    match call.kind {
        b'n' => writes::begin(table, list, sheet, call),
        b'N' => writes::begin_large(table, list, sheet, call),
        b'd' => writes::patch(table, list, sheet, call),
        b'l' => writes::track(table, list, sheet, call),
        b'u' => writes::lifted(table, list, sheet, call),
        b'r' => writes::record(table, list, sheet, call),
        _ => reads::read(table, list, *sheet, call),
    }
}
