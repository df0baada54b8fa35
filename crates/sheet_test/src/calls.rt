// A call on a foil of the sheet, lent fronts of the lists.
ghost use Rattle.std.specs.Prelude.{◌≤◌};

use crate::records::run;
use foil::Answer;
use foil_spec::{Entry, Point};
use plain_sheet::{Asked, Kind, Short, elbow, list_size};
use sheet::{Sheet, book, draw, find, join, lay, lift, look_up, new_foil, put_leg, save};

// How many numbers of the table are lent: all, just 512 places, or one number fewer.
fn table_front(short: Short) -> usize
    ensures { result ≤ 2565 }
{
    match short {
        Short::NoneSpare => 2560,
        Short::Table => 2559,
        _ => 2565,
    }
}

// How many numbers of the strip list are lent: all, just 4,096 places, or one number fewer.
fn strip_front(short: Short) -> usize
    ensures { result ≤ 16388 }
{
    match short {
        Short::NoneSpare => 16384,
        Short::Strips => 16383,
        _ => 16388,
    }
}

// Makes the call, by a record or by itself; what it answers, or none where a record answers what none does.
pub(crate) fn lend(
    table: &mut [u16; 2565],
    strips: &mut [u16; 16388],
    corners: &mut [u16; 8192],
    sheet: &mut Sheet,
    asked: Asked,
) -> Option<Answer> {
    let t = table_front(asked.terms.short);
    let s = strip_front(asked.terms.short);
    let c = asked.room.min(4096) * 2;
    if asked.recorded {
        run(
            &mut table[..t],
            &mut strips[..s],
            &mut corners[..c],
            sheet,
            asked,
        )
    } else {
        Some(call(
            &mut table[..t],
            &mut strips[..s],
            &mut corners[..c],
            sheet,
            asked,
        ))
    }
}

// Makes it with these lists lent, by itself.
fn call(
    table: &mut [u16],
    strips: &mut [u16],
    corners: &mut [u16],
    sheet: &mut Sheet,
    asked: Asked,
) -> Answer {
    let k = asked.foil;
    let net = asked.net;
    let f = asked.four;
    let from = Point { x: f.x0, y: f.y0 };
    let to = Point { x: f.x1, y: f.y1 };
    match asked.kind {
        Kind::New => new_foil(table, strips, sheet, k, f.x0, f.y0, f.x1, f.y1),
        Kind::Draw => draw(table, strips, sheet, k, f.x0, f.y0, f.x1, f.y1),
        Kind::Leg => put_leg(table, strips, sheet, k, entry(asked)),
        Kind::Lift => lift(table, strips, sheet, k, net),
        Kind::Lay => lay(table, strips, corners, sheet, k, net, from, to),
        Kind::Join => join(table, strips, corners, sheet, k, net, from),
        Kind::Book => book_elbow(table, strips, sheet, asked),
        Kind::Find => find(corners, table, strips, *sheet, k, from, to),
        Kind::LookUp => look_up(table, strips, *sheet, k, from),
        Kind::Save => save_numbers(corners, table, strips, *sheet, k),
    }
}

// Saves the foil, and puts the bytes into the corner list, if it has room for any file.
fn save_numbers(
    corners: &mut [u16],
    table: &[u16],
    strips: &[u16],
    sheet: Sheet,
    k: usize,
) -> Answer {
    let mut out = [7u8; 1420];
    let answer = save(&mut out, table, strips, sheet, k);
    if 1420 <= corners.len() {
        for i in 0..1420 {
            corners[i] = out[i] as u16;
        }
    }
    answer
}

// The entry of a call's net and box.
fn entry(asked: Asked) -> Entry {
    let f = asked.four;
    Entry {
        net: asked.net,
        x0: f.x0,
        y0: f.y0,
        x1: f.x1,
        y1: f.y1,
    }
}

// Books as much of the call's list as it has.
fn book_elbow(table: &mut [u16], strips: &mut [u16], sheet: &mut Sheet, asked: Asked) -> Answer {
    let mut list = [0u16; 8192];
    elbow(&mut list, asked);
    let n = list_size(asked.room);
    book(table, strips, sheet, asked.foil, asked.net, &list[..n])
}
