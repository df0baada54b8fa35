// The calls that only read, and what is written of a foil and of the table.
use crate::calls::Call;
use crate::lists::used;
use crate::show;
use foil_spec::{Ink, Point};
use sheet::{Sheet, look_up, ohms, slip};

// Makes the call, or writes the foil's record and strips (b) or the table (t). The records stay as they are.
pub(crate) fn read(table: &[u16], list: &[u16], sheet: Sheet, call: Call) {
    let point = Point {
        x: call.x0,
        y: call.y0,
    };
    match call.kind {
        b'p' => show::answer(look_up(table, list, sheet, call.foil, point)),
        b's' => page(table, list, sheet, call.foil),
        b'o' => resistance(table, list, sheet, call),
        b'b' => show::foil(list, sheet, call.foil),
        _ => show::rows(table, used(sheet)),
    }
}

// Asks for the slip, and writes all 40 bytes that are lent for it.
fn page(table: &[u16], list: &[u16], sheet: Sheet, k: usize) {
    let mut out = [b'.'; 40];
    show::answer(slip(&mut out, table, list, sheet, k));
    io::write_all(1, b"\n");
    io::write_all(1, &out);
}

// Asks for the ohms: half an ohm a square, half a square a bend, and a width of the first number.
fn resistance(table: &[u16], list: &[u16], sheet: Sheet, call: Call) {
    let ink = Ink {
        sheet: 0.5,
        width: f64::from(call.x0),
        bend: 0.5,
    };
    show::ohms(ohms(table, list, sheet, call.foil, call.net, ink));
}
