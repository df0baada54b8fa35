// Calls at random: the same number always gives the same call on the same foils.
ghost use Rattle.std.specs.Prelude.{◌<◌, ◌≤◌};

use crate::rows::{Kept, foil_at};
use boards::{below, next};
use plain_foil::Foil;

// The kinds of calls.
#[derive(Clone, Copy, PartialEq, Eq)]
pub enum Kind {
    New,
    Draw,
    Leg,
    Lift,
    Lay,
    Join,
    Book,
    Find,
    LookUp,
    Save,
}

impl Kind {
    // Whether an accepted call of this kind writes entries.
    pub fn writes(self) -> bool {
        !matches!(self, Kind::Find | Kind::LookUp | Kind::Save)
    }

    // Whether a record of a job file can make a call of this kind.
    fn has_record(self) -> bool {
        matches!(
            self,
            Kind::New | Kind::Draw | Kind::Leg | Kind::Lift | Kind::Lay
        )
    }
}

// The four numbers of a call: a size and a pen, a box, or two points.
#[derive(Clone, Copy)]
pub struct Four {
    pub x0: u16,
    pub y0: u16,
    pub x1: u16,
    pub y1: u16,
}

// How long the lists are that a call is lent: longer than they have to be, just as long, or one of them one number
// shorter.
#[derive(Clone, Copy, PartialEq, Eq)]
pub enum Short {
    Nothing,
    NoneSpare,
    Table,
    Strips,
}

// What is wrong with the records that a call is lent: more entries than any foil has in one of them, than all can have
// in each of them, or than any sum can take in one; a width; or a number of strips, the foil's own.
#[derive(Clone, Copy, PartialEq, Eq)]
pub enum Wrong {
    Nothing,
    Entries,
    AllEntries,
    MostEntries,
    Width,
    Strips,
}

// How a call is lent the sheet: which list is short, what is wrong with the records, and in which one of them.
#[derive(Clone, Copy)]
pub struct Terms {
    pub short: Short,
    pub wrong: Wrong,
    pub at: usize,
}

// A call: its foil, its kind, whether it is made by a record of a job file, its net and numbers, how many corner places
// it is lent or how many numbers its list has, and how it is lent the sheet.
#[derive(Clone, Copy)]
pub struct Asked {
    pub foil: usize,
    pub kind: Kind,
    pub recorded: bool,
    pub net: u16,
    pub four: Four,
    pub room: usize,
    pub terms: Terms,
}

// The foil that is called: mostly one of the first five, and of these 0 and 1 most; now and then none of the sheet.
fn which_foil(seed: u32) -> usize {
    let n = (seed / 512) as usize;
    match seed % 128 {
        0 => 8,
        1 => 8 + n,
        2..=31 => n % 8,
        32..=63 => n % 2,
        _ => n % 5,
    }
}

// The kind of a call. A foil that is begun is seldom begun anew.
fn which_kind(begun: bool, seed: u32) -> Kind {
    let anew = if begun { seed % 900 } else { seed % 4 };
    if anew == 0 {
        return Kind::New;
    }
    match seed / 512 % 16 {
        0..=5 => Kind::Draw,
        6 | 7 => Kind::Leg,
        8..=10 => Kind::Lay,
        11 | 12 => Kind::Join,
        13 => Kind::Book,
        14 => Kind::Lift,
        _ => reading(seed / 8192),
    }
}

// The kind of a call that only reads.
fn reading(seed: u32) -> Kind {
    match seed % 3 {
        0 => Kind::Find,
        1 => Kind::LookUp,
        _ => Kind::Save,
    }
}

// The size of a foil of 6 to 12 points a side, and its pen, mostly the finest; now and then such as no foil has.
fn size(seed: u32) -> Four {
    let a = next(seed);
    let wrong = seed % 24;
    Four {
        x0: if wrong == 0 { 0 } else { 6 + below(a, 7) },
        y0: if wrong == 1 {
            4097
        } else {
            6 + below(a / 16, 7)
        },
        x1: if wrong == 2 { 8 } else { below(a / 256, 8) / 7 },
        y1: if wrong == 3 {
            16
        } else {
            below(a / 2048, 4) / 3
        },
    }
}

// The row in which an entry begins: mostly one of the first two, so that the foil stays free below them.
fn top(height: u16, seed: u32) -> u16
    ensures { result ≤ 64 }
{
    if seed / 64 % 16 == 0 {
        return below(seed, height % 64 + 1);
    }
    below(seed, 2)
}

// A box for a patch: one or two points, now and then none or past the foil.
fn patch(foil: Foil, seed: u32) -> Four {
    let a = next(seed);
    let x0 = below(a, foil.width % 64 + 1);
    let y0 = top(foil.height, next(a));
    Four {
        x0,
        y0,
        x1: x0 + (below(a / 64, 16) + 7) / 8,
        y1: y0 + 1,
    }
}

// A box for a leg: at most 3 points long, now and then too wide or past the foil.
fn leg(foil: Foil, seed: u32) -> Four {
    let a = next(seed);
    let b = next(a);
    let x0 = below(a, foil.width % 64 + 1);
    let y0 = top(foil.height, b);
    let length = 1 + below(a / 64, 3);
    match b / 1024 % 16 {
        0 => Four {
            x0,
            y0,
            x1: x0 + 2,
            y1: y0 + 2,
        },
        1..=10 => Four {
            x0,
            y0,
            x1: x0 + length,
            y1: y0 + 1,
        },
        _ => Four {
            x0,
            y0,
            x1: x0 + 1,
            y1: y0 + length,
        },
    }
}

// Two points, on the foil or just off it.
fn points(foil: Foil, seed: u32) -> Four {
    let a = next(seed);
    let b = next(a);
    let w = foil.width % 64 + 1;
    let h = foil.height % 64 + 1;
    Four {
        x0: below(a, w),
        y0: below(a / 64, h),
        x1: below(b, w),
        y1: below(b / 64, h),
    }
}

// The four numbers of a call of this kind.
fn numbers(kind: Kind, foil: Foil, seed: u32) -> Four {
    match kind {
        Kind::New => size(seed),
        Kind::Draw => patch(foil, seed),
        Kind::Leg => leg(foil, seed),
        _ => points(foil, seed),
    }
}

// A net from 1 to 30, now and then a number that is none.
fn any_net(seed: u32) -> u16 {
    match seed % 50 {
        0 => 0,
        1 => 1000,
        _ => 1 + below(seed / 64, 30),
    }
}

// The net of an entry at random; now and then, and where that is a patch, any net.
fn net_in(row: &[u16; 640], foil: Foil, seed: u32) -> u16 {
    let i = below(seed, foil.entries as u16 + 1) as usize % 128;
    let net = row[i * 5];
    if net == 0 || seed / 256 % 4 == 0 {
        return any_net(next(seed));
    }
    net
}

// The net of a call of this kind: a track and a list mostly want a new one.
fn net(row: &[u16; 640], foil: Foil, kind: Kind, seed: u32) -> u16 {
    match kind {
        Kind::Lay | Kind::Book => any_net(seed),
        _ => net_in(row, foil, seed),
    }
}

// How many corner places are lent, mostly enough; for a list how many numbers it has, mostly six.
fn room(kind: Kind, seed: u32) -> usize {
    let few = seed % 8 == 0;
    let n = below(seed / 64, 6) as usize;
    match kind {
        Kind::Save => 4096,
        Kind::Book => if few { n } else { 6 },
        _ => if few { n } else { 150 },
    }
}

// Which list is short, mostly none.
fn which_short(n: u32) -> Short {
    match n {
        1 => Short::NoneSpare,
        2 => Short::Table,
        3 => Short::Strips,
        _ => Short::Nothing,
    }
}

// What is wrong with the records, mostly nothing.
fn which_wrong(n: u32) -> Wrong {
    match n {
        1 => Wrong::Entries,
        2 => Wrong::AllEntries,
        3 => Wrong::MostEntries,
        4 => Wrong::Width,
        5 => Wrong::Strips,
        _ => Wrong::Nothing,
    }
}

// How a call on a foil is lent the sheet: mostly whole and right.
fn which_terms(foil: usize, kind: Kind, seed: u32) -> Terms {
    let most = if kind == Kind::New { 8 } else { 64 };
    let wrong = which_wrong(seed / 64 % most);
    let n = (seed / 4096) as usize;
    Terms {
        short: which_short(seed % 64),
        wrong,
        at: if wrong == Wrong::Width {
            (foil % 8 + 1 + n % 7) % 8
        } else {
            n % 8
        },
    }
}

// Chooses a call by a number.
pub fn choose(all: &[Kept; 8], seed: u32) -> Asked {
    let a = next(seed);
    let b = next(a);
    let c = next(b);
    let e = next(c);
    let f = next(e);
    let number = which_foil(a);
    let foil = foil_at(all, number);
    let kind = which_kind(foil.width != 0, b);
    Asked {
        foil: number,
        kind,
        recorded: b % 3 == 0 && kind.has_record(),
        net: net(&all[number % 8].row, foil, kind, c),
        four: numbers(kind, foil, e),
        room: room(kind, f),
        terms: which_terms(number, kind, next(f)),
    }
}

// How many numbers the list of a call has.
pub fn list_size(room: usize) -> usize
    ensures { result ≤ 6 }
{
    room.min(6)
}

// Draws three corners: from the first point of the call level, then upright to the second.
pub fn elbow(list: &mut [u16; 8192], asked: Asked) {
    let four = asked.four;
    list[0] = four.x0;
    list[1] = four.y0;
    list[2] = four.x1;
    list[3] = four.y0;
    list[4] = four.x1;
    list[5] = four.y1;
}
