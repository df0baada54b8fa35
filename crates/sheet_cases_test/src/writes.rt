// The calls that write entries.
use crate::calls::Call;
use crate::lists::{LIST, TABLE};
use crate::show;
use foil::Answer;
use foil_spec::{INPUT_SIZE, MAX_BYTES, Point};
use sheet::{Sheet, draw, lay, lift, new_foil, run_record};

// Begins a foil.
pub(crate) fn begin(table: &mut [u16], list: &mut [u16], sheet: &mut Sheet, call: Call) {
    show::answer(new_foil(
        table, list, sheet, call.foil, call.x0, call.y0, call.x1, call.y1,
    ))
}

// Begins a foil of 64 by 64.
pub(crate) fn begin_large(table: &mut [u16], list: &mut [u16], sheet: &mut Sheet, call: Call) {
    show::answer(new_foil(table, list, sheet, call.foil, 64, 64, 0, 0))
}

// Draws a patch.
pub(crate) fn patch(table: &mut [u16], list: &mut [u16], sheet: &mut Sheet, call: Call) {
    show::answer(draw(
        table, list, sheet, call.foil, call.x0, call.y0, call.x1, call.y1,
    ))
}

// Lays a track.
pub(crate) fn track(table: &mut [u16], list: &mut [u16], sheet: &mut Sheet, call: Call) {
    let mut corners = [0u16; 16];
    let from = Point {
        x: call.x0,
        y: call.y0,
    };
    let to = Point {
        x: call.x1,
        y: call.y1,
    };
    show::answer(lay(
        table,
        list,
        &mut corners,
        sheet,
        call.foil,
        call.net,
        from,
        to,
    ))
}

// Lifts a net.
pub(crate) fn lifted(table: &mut [u16], list: &mut [u16], sheet: &mut Sheet, call: Call) {
    show::answer(lift(table, list, sheet, call.foil, call.net))
}

// Draws the patch of this number, a point of a foil of 64 by 64.
fn point(
    table: &mut [u16; TABLE],
    list: &mut [u16; LIST],
    sheet: &mut Sheet,
    k: usize,
    i: u16,
) -> Answer {
    let x = i % 64;
    let y = i / 64;
    draw(table, list, sheet, k, x, y, x + 1, y + 1)
}

// Draws patches of a point each, from the one with the number of the first two digits on, as many as the other three
// say; and writes how many of them 10 refused.
pub(crate) fn fill(
    table: &mut [u16; TABLE],
    list: &mut [u16; LIST],
    sheet: &mut Sheet,
    call: Call,
) {
    let first = call.net % 16 * 10 + call.x0 % 16;
    let n = call.y0 % 16 * 100 + call.x1 % 16 * 10 + call.y1 % 16;
    let mut tens: u64 = 0;
    for i in first..first + n {
        let answer = point(table, list, sheet, call.foil, i);
        if matches!(answer, Err(refusal) if refusal.number() == 10) {
            tens = tens.wrapping_add(1);
        }
    }
    show::count(b"refused by 10: ", tens);
}

// Runs the record at the place of the first number: of the bytes of a small file, of 60,000 zeros, or of one more.
pub(crate) fn record(table: &mut [u16], list: &mut [u16], sheet: &mut Sheet, call: Call) {
    match call.net {
        0 => record_of(
            table,
            list,
            sheet,
            call,
            b"\x01\x06\x00\x04\x00\x00\x00\x00",
        ),
        1 => most_bytes(table, list, sheet, call),
        _ => many_bytes(table, list, sheet, call),
    }
}

// The same of 60,000 zeros.
fn most_bytes(table: &mut [u16], list: &mut [u16], sheet: &mut Sheet, call: Call) {
    let bytes = [0u8; MAX_BYTES];
    record_of(table, list, sheet, call, &bytes)
}

// The same of one more.
fn many_bytes(table: &mut [u16], list: &mut [u16], sheet: &mut Sheet, call: Call) {
    let bytes = [0u8; INPUT_SIZE];
    record_of(table, list, sheet, call, &bytes)
}

// The same of these bytes.
fn record_of(table: &mut [u16], list: &mut [u16], sheet: &mut Sheet, call: Call, bytes: &[u8]) {
    let mut corners = [0u16; 16];
    let at = usize::from(call.x0);
    show::reply(run_record(table, list, &mut corners, sheet, call.foil, bytes, at));
}
