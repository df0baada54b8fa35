// What a call should come to, by the words of the documents and the plain foils.
ghost use Rattle.std.specs.Prelude.{◌≡◌, ◌+◌, ◌<◌, ◌≤◌};

use crate::asks::{Asked, Kind, Short, Wrong, elbow, list_size};
use crate::records::{record_of, spell};
use crate::rows::{Kept, foil_at, sum, with_row};
use foil_spec::{Entry, Reason};
use places::entry_at;
use plain_foil::{Foil, Ran};

// What a call should answer, with the corners of its track, the place of its strip or the bytes that it wrote; and
// whether the sheet alone had no room for it.
#[derive(Clone, Copy)]
pub struct Want {
    pub answer: Result<usize, Reason>,
    pub crowded: bool,
}

// Turns a call down before its own numbers are looked at: lists that are short; counts that break a limit; a foil that
// is not begun, or whose record is wrong.
fn check_lent(foil: Foil, asked: Asked) -> Result<(), Reason> {
    let short = asked.terms.short;
    let wrong = asked.terms.wrong;
    if short == Short::Table || short == Short::Strips {
        return Err(Reason::LentTooLittle);
    }
    if matches!(
        wrong,
        Wrong::Entries | Wrong::AllEntries | Wrong::MostEntries
    ) {
        return Err(Reason::BrokenState);
    }
    if asked.kind != Kind::New && (foil.width == 0 || wrong == Wrong::Strips) {
        return Err(Reason::BrokenState);
    }
    Ok(())
}

// What the call should come to, which the foils come to, too; its corners are put at the front of the path.
pub fn want_of(all: &mut [Kept; 8], path: &mut [u16; 8192], asked: Asked) -> Want {
    let mut after = *all;
    let mut way = *path;
    let answer = called(&mut after, &mut way, asked);
    if answer.is_err() {
        return Want {
            answer,
            crowded: false,
        };
    }
    if 512 < sum(&after, 32) {
        return Want {
            answer: Err(Reason::TableFull),
            crowded: true,
        };
    }
    *all = after;
    *path = way;
    Want {
        answer,
        crowded: false,
    }
}

// What the call would come to on a sheet that has room for all.
fn called(all: &mut [Kept; 8], path: &mut [u16; 8192], asked: Asked) -> Result<usize, Reason> {
    let k = asked.foil;
    if 7 < k {
        return Err(Reason::NoSuchFoil);
    }
    let mut foil = foil_at(all, k);
    check_lent(foil, asked)?;
    let mut row = all[k].row;
    let answer = alone(&mut row, &mut foil, path, asked)?;
    all[k] = with_row(foil, row);
    Ok(answer)
}

// What the call would come to on a foil of its own.
fn alone(
    row: &mut [u16; 640],
    foil: &mut Foil,
    path: &mut [u16; 8192],
    asked: Asked,
) -> Result<usize, Reason> {
    let net = asked.net;
    let room = asked.room;
    let f = asked.four;
    match asked.kind {
        Kind::Lay => plain_foil::lay(row, path, foil, room, net, f.x0, f.y0, f.x1, f.y1),
        Kind::Join => plain_foil::join(row, path, foil, room, net, f.x0, f.y0),
        Kind::Find => plain_foil::find(path, row, *foil, room, f.x0, f.y0, f.x1, f.y1),
        Kind::LookUp => plain_foil::look_up(row, *foil, f.x0, f.y0),
        Kind::Save => Ok(save(path, row, *foil)),
        Kind::Book => book(row, foil, asked),
        _ => {
            alone_entries(row, foil, asked)?;
            Ok(0)
        }
    }
}

// The same for a call that answers no number.
fn alone_entries(row: &mut [u16; 640], foil: &mut Foil, asked: Asked) -> Result<(), Reason> {
    let net = asked.net;
    let f = asked.four;
    match asked.kind {
        Kind::New => begin(row, foil, asked),
        Kind::Draw => plain_foil::draw(row, foil, f.x0, f.y0, f.x1, f.y1),
        Kind::Lift => plain_foil::lift(row, foil, net),
        _ => plain_foil::put_leg(
            row,
            foil,
            Entry {
                net,
                x0: f.x0,
                y0: f.y0,
                x1: f.x1,
                y1: f.y1,
            },
        ),
    }
}

// Books the list of the call.
fn book(row: &mut [u16; 640], foil: &mut Foil, asked: Asked) -> Result<usize, Reason> {
    let mut list = [0u16; 8192];
    elbow(&mut list, asked);
    plain_foil::book(row, foil, asked.net, &list, list_size(asked.room))
}

// Begins the foil by its record.
fn begin(row: &mut [u16; 640], foil: &mut Foil, asked: Asked) -> Result<(), Reason> {
    let mut corners = [0u16; 8192];
    match plain_foil::record(row, &mut corners, foil, 0, &record_of(asked), 0)? {
        Ran::Over(reason) => Err(reason),
        _ => Ok(()),
    }
}

// Saves the foil as a job file, whose bytes are put at the front of the path: the board, the entries in their order and
// the end mark. How many bytes there are.
fn save(path: &mut [u16; 8192], row: &[u16; 640], foil: Foil) -> usize {
    let board = spell(33, foil.width, foil.height, 0, foil.half, foil.gap);
    let first = put_record(path, 0, board, 11);
    let end = put_entries(path, first, row, foil.entries);
    path[end] = 0;
    end + 1
}

// Puts the records of the first n entries of the row at a place of the path, and answers the place after them.
fn put_entries(path: &mut [u16; 8192], at: usize, row: &[u16; 640], n: usize) -> usize
    requires { (at ≤ 11) × (n ≤ 128) }
    ensures { result ≤ 1419 }
{
    let mut end = at;
    for i in 0..n {
        end = put_entry(path, end, row, i);
    }
    end
}

// Puts the record of entry i, a patch or a leg.
fn put_entry(path: &mut [u16; 8192], at: usize, row: &[u16; 640], i: usize) -> usize
    requires { (at ≤ 1408) × (i < 128) }
    ensures { result ≤ at + 11 }
{
    let e = entry_at(row, i);
    if e.net == 0 {
        put_record(path, at, spell(2, e.x0, e.y0, e.x1, e.y1, 0), 9)
    } else {
        put_record(path, at, spell(16, e.net, e.x0, e.y0, e.x1, e.y1), 11)
    }
}

// Puts the first n bytes of a record.
fn put_record(path: &mut [u16; 8192], at: usize, record: [u8; 11], n: usize) -> usize
    requires { (at ≤ 1408) × (n ≤ 11) }
    ensures { result ≡ at + n }
{
    for j in 0..n {
        path[at + j] = record[j] as u16;
    }
    at + n
}
