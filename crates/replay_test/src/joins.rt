// Joins beside the plain foil, between the records: from points anywhere on the foil, first points of strips, and
// points on a leg and beside one.
ghost use Rattle.std.specs.Prelude.{◌<◌, ◌≤◌};

use crate::compare::same_laid;
use crate::drawings::strip;
use crate::holds::same;
use crate::jobs::{coordinate, net, room};
use crate::{COUNTS, DIFFERENT, JOINS, RUN, Stood, count, count_answer, number_of};
use boards::{below, next};
use foil_spec::{Point, Reason};
use places::entry_at;
use sheet::join;

// What is asked for: a point to be joined to a net, with room for so many corners.
#[derive(Clone, Copy)]
struct Asked {
    net: u16,
    from: Point,
    room: usize,
}

// The place of a leg in a row with so many entries: the first from a place at random on, or that place where none
// follows.
fn leg(row: &[u16; 640], entries: usize, seed: u32) -> usize
    requires { entries ≤ 128 }
    ensures { result < 128 }
{
    let from = below(seed, entries as u16 + 1) as usize % 128;
    for k in from..128 {
        if row[k * 5] != 0 {
            return k;
        }
    }
    from
}

// The net of the leg at place k; now and then, and where there is no leg, another, which may be one that no track can
// have.
fn net_of(row: &[u16; 640], k: usize, seed: u32) -> u16
    requires { k < 128 }
{
    if row[k * 5] == 0 || seed / 64 % 8 == 0 {
        return net(seed / 512);
    }
    row[k * 5]
}

// A point at random, now and then just off the foil; the first point of a strip; or the first or the last point of the
// leg at place k, or one just past it.
fn choose_spot(strips: &[u16; 16388], row: &[u16; 640], stood: Stood, k: usize) -> Point
    requires { k < 128 }
{
    let a = next(stood.point);
    let leg = entry_at(row, k);
    match stood.point % 8 {
        0 | 1 => Point {
            x: coordinate(stood.foil.width % 64 + 1, a),
            y: coordinate(stood.foil.height % 64 + 1, next(a)),
        },
        2 | 3 | 4 => first_of(strips, strip(stood.sheet, a)),
        5 => Point {
            x: leg.x0,
            y: leg.y0,
        },
        6 => Point {
            x: leg.x1.wrapping_sub(1),
            y: leg.y1.wrapping_sub(1),
        },
        _ => Point {
            x: leg.x1,
            y: leg.y1,
        },
    }
}

// The first point of the strip that begins at a place of the list.
fn first_of(strips: &[u16; 16388], at: usize) -> Point
    requires { at < 16384 }
{
    Point {
        x: strips[at],
        y: strips[at + 1],
    }
}

// Chooses what is asked for where a job stands.
fn choose(strips: &[u16; 16388], row: &[u16; 640], stood: Stood) -> Asked
    ensures { result.room ≤ 150 }
{
    let seed = stood.point / 8;
    let k = leg(row, stood.foil.entries, seed);
    let from = choose_spot(strips, row, stood, k);
    Asked {
        net: net_of(row, k, next(seed)),
        from,
        room: room(next(next(seed)) / 8),
    }
}

// Joins a point by the call and on the plain foil, and compares the answers, the records and the lists.
pub(crate) fn join_point(
    counts: &mut [u64; COUNTS],
    table: &mut [u16; 2565],
    strips: &mut [u16; 16388],
    corners: &mut [u16; 300],
    row: &mut [u16; 640],
    path: &mut [u16; 8192],
    stood: &mut Stood,
) {
    let asked = choose(strips, row, *stood);
    let n = asked.room * 2;
    let given = join(
        table,
        strips,
        &mut corners[..n],
        &mut stood.sheet,
        0,
        asked.net,
        asked.from,
    );
    let want = plain_foil::join(
        row,
        path,
        &mut stood.foil,
        asked.room,
        asked.net,
        asked.from.x,
        asked.from.y,
    );
    count_join(counts, want);
    if !same_laid(given, want)
        || !same(table, strips, corners, stood.sheet, row, path, stood.foil)
    {
        count(counts, DIFFERENT);
    }
}

// Counts the answer to a join, with the others and apart.
fn count_join(counts: &mut [u64; COUNTS], want: Result<usize, Reason>) {
    count_answer(counts, want);
    let k = number_of(want) as usize;
    if k < RUN {
        count(counts, JOINS + k);
    }
}
