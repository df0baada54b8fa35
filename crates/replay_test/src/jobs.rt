// Job files made from a number: the same number always gives the same file.
ghost use Rattle.std.specs.Prelude.{◌≡◌, ◌+◌, ◌<◌, ◌≤◌};

use boards::{below, next};

// A file: how many bytes it has, how many corner places are lent to it, and the number for the next one.
#[derive(Clone, Copy)]
pub(crate) struct Made {
    pub(crate) length: usize,
    pub(crate) room: usize,
    pub(crate) seed: u32,
}

// The size of a foil, or of a part of it.
#[derive(Clone, Copy)]
struct Size {
    width: u16,
    height: u16,
    ghost wide: { (0 < width) × (width ≤ 64) },
    ghost high: { (0 < height) × (height ≤ 64) },
}

// Where the next byte goes, and the number that is left.
#[derive(Clone, Copy)]
struct Cursor {
    at: usize,
    seed: u32,
}

// Puts a number, low byte first.
fn put(bytes: &mut [u8; 12000], at: usize, n: u16)
    requires { at < 11999 }
{
    bytes[at] = (n % 256) as u8;
    bytes[at + 1] = (n / 256) as u8;
}

// A coordinate, mostly below `size`, now and then just off the foil.
pub(crate) fn coordinate(size: u16, seed: u32) -> u16
    requires { 0 < size }
{
    if seed / 64 % 24 == 0 {
        return size;
    }
    below(seed, size)
}

// A net, mostly from 1 to 9, now and then one that no track can have.
pub(crate) fn net(seed: u32) -> u16 {
    if seed / 64 % 40 == 0 {
        return 1000;
    }
    if seed / 64 % 40 == 1 {
        return 0;
    }
    1 + below(seed, 9)
}

// Puts the board of a file after its map byte, now and then one that ends the job, unless a pen takes the place of the
// reach.
fn board(bytes: &mut [u8; 12000], size: Size, seed: u32) -> Cursor
    ensures { result.at ≡ 7 }
{
    let kind = seed / 64 % 60;
    put(bytes, 1, if kind == 0 { 0 } else { size.width });
    put(bytes, 3, if kind == 1 { 4097 } else { size.height });
    put(bytes, 5, if kind == 2 { 16 } else { below(seed, 3) });
    Cursor {
        at: 7,
        seed: next(seed),
    }
}

// The end of a side of a patch that begins at `start`: mostly up to 4 points further and on the foil, now and then
// nothing further, or past the foil.
fn end_of(start: u16, size: u16, seed: u32) -> u16
    requires { (start < size) × (size ≤ 64) }
{
    if seed / 64 % 32 == 0 {
        return start;
    }
    if seed / 64 % 32 == 1 {
        return size + 1;
    }
    start + 1 + below(seed / 8, 1 + below(seed, size - start)) % 4
}

// Puts the fields of a patch, if the map byte asks for it.
fn patch(bytes: &mut [u8; 12000], map: u16, cursor: Cursor, size: Size) -> Cursor
    requires { cursor.at < 11900 }
    ensures { result.at ≤ cursor.at + 8 }
{
    if map / 2 % 2 == 0 {
        return cursor;
    }
    let at = cursor.at;
    let a = next(cursor.seed);
    let b = next(a);
    let x0 = below(a, size.width);
    let y0 = below(b, size.height);
    put(bytes, at, x0);
    put(bytes, at + 2, y0);
    put(bytes, at + 4, end_of(x0, size.width, a / 8));
    put(bytes, at + 6, end_of(y0, size.height, b / 8));
    Cursor {
        at: at + 8,
        seed: b,
    }
}

// Puts the fields of a track, if the map byte asks for it.
fn track(bytes: &mut [u8; 12000], map: u16, cursor: Cursor, size: Size) -> Cursor
    requires { cursor.at < 11900 }
    ensures { result.at ≤ cursor.at + 10 }
{
    if map / 4 % 2 == 0 {
        return cursor;
    }
    let at = cursor.at;
    let a = next(cursor.seed);
    let b = next(a);
    let c = next(b);
    let e = next(c);
    put(bytes, at, net(e / 8));
    put(bytes, at + 2, coordinate(size.width, a));
    put(bytes, at + 4, coordinate(size.height, b));
    put(bytes, at + 6, coordinate(size.width, c));
    put(bytes, at + 8, coordinate(size.height, e));
    Cursor {
        at: at + 10,
        seed: e,
    }
}

// Puts the net of a lift, if the map byte asks for it.
fn lift(bytes: &mut [u8; 12000], map: u16, cursor: Cursor) -> Cursor
    requires { cursor.at < 11900 }
    ensures { result.at ≤ cursor.at + 2 }
{
    if map / 8 % 2 == 0 {
        return cursor;
    }
    let at = cursor.at;
    let a = next(cursor.seed);
    put(bytes, at, net(a));
    Cursor {
        at: at + 2,
        seed: a,
    }
}

// Puts the fields of a leg, if the map byte asks for it: a level one or an upright one, now and then of another shape.
fn leg(bytes: &mut [u8; 12000], map: u16, cursor: Cursor, size: Size) -> Cursor
    requires { cursor.at < 11900 }
    ensures { result.at ≤ cursor.at + 10 }
{
    if map / 16 % 2 == 0 {
        return cursor;
    }
    let at = cursor.at;
    let a = next(cursor.seed);
    let b = next(a);
    let c = next(b);
    let x0 = below(a, size.width);
    let y0 = below(b, size.height);
    let kind = c / 64 % 8;
    put(bytes, at, net(c / 8));
    put(bytes, at + 2, x0);
    put(bytes, at + 4, y0);
    put(
        bytes,
        at + 6,
        if kind < 4 {
            x0 + 1
        } else {
            end_of(x0, size.width, a / 8)
        },
    );
    put(
        bytes,
        at + 8,
        if 4 <= kind && kind < 7 {
            y0 + 1
        } else {
            end_of(y0, size.height, b / 8)
        },
    );
    Cursor {
        at: at + 10,
        seed: c,
    }
}

// Puts the fields of a record but for a board's. In a crowded file the patches keep to the left half.
fn fields(bytes: &mut [u8; 12000], map: u16, cursor: Cursor, size: Size, crowded: bool) -> Cursor
    requires { cursor.at < 11700 }
    ensures { result.at ≤ cursor.at + 30 }
{
    let a = patch(bytes, map, cursor, part(size, crowded));
    let b = track(bytes, map, a, size);
    let c = lift(bytes, map, b);
    leg(bytes, map, c, size)
}

// The part of a foil that patches keep to.
fn part(size: Size, crowded: bool) -> Size
    ensures { result.width ≤ size.width }
{
    let w = size.width;
    Size {
        width: if crowded { w - w / 2 } else { w },
        height: size.height,
    }
}

// The map byte of a record without a board; in a crowded file it mostly draws.
fn map_of(seed: u32, crowded: bool) -> u16
    ensures { result ≤ 30 }
{
    if crowded && seed / 64 % 8 != 0 {
        return 2;
    }
    2 + 2 * below(seed, 15)
}

// Puts a record without a board.
fn record(bytes: &mut [u8; 12000], cursor: Cursor, size: Size, crowded: bool) -> Cursor
    requires { cursor.at < 11600 }
    ensures { result.at ≤ cursor.at + 31 }
{
    let at = cursor.at;
    let a = next(cursor.seed);
    let map = map_of(a, crowded);
    bytes[at] = map as u8;
    let after = Cursor {
        at: at + 1,
        seed: a,
    };
    fields(bytes, map, after, size, crowded)
}

// Puts the first record of a file, now and then with a pen.
fn first_record(bytes: &mut [u8; 12000], size: Size, seed: u32) -> Cursor
    ensures { result.at ≤ 41 }
{
    let map = map_of(seed, seed / 4 % 2 == 0);
    bytes[0] = (map + 1) as u8;
    let cursor = board(bytes, size, next(seed));
    let last = fields(bytes, map, cursor, size, false);
    if seed / 16 % 4 != 0 {
        return last;
    }
    bytes[0] = (map + 33) as u8;
    pen(bytes, last)
}

// Puts the fields of a pen, now and then of one that ends the job.
fn pen(bytes: &mut [u8; 12000], cursor: Cursor) -> Cursor
    requires { cursor.at < 11900 }
    ensures { result.at ≤ cursor.at + 4 }
{
    let at = cursor.at;
    let a = next(cursor.seed);
    let b = next(a);
    let kind = a / 64 % 24;
    put(bytes, at, if kind == 0 { 8 } else { below(a, 3) });
    put(bytes, at + 2, if kind == 1 { 16 } else { below(b, 3) });
    Cursor {
        at: at + 4,
        seed: b,
    }
}

// Puts n records, and the end mark.
fn records(bytes: &mut [u8; 12000], first: Cursor, n: usize, size: Size, crowded: bool) -> Cursor
    requires { (first.at ≤ 41) × (n ≤ 300) }
    ensures { (0 < result.at) × (result.at ≤ 11000) }
{
    let mut cursor = first;
    for _ in 0..n {
        cursor = record(bytes, cursor, size, crowded);
    }
    let end = cursor.at;
    bytes[end] = 0;
    Cursor {
        at: end + 1,
        seed: cursor.seed,
    }
}

// Damages a file now and then: it is cut, a byte after the board is changed, its end mark becomes another map byte, it
// goes on after the end mark, or its first record has no board, or a pen instead. The length that it has then.
fn damage(bytes: &mut [u8; 12000], length: usize, seed: u32) -> usize
    requires { (0 < length) × (length ≤ 11000) }
    ensures { result ≤ 12000 }
{
    let place = below(next(seed), length as u16) as usize;
    match below(seed, 40) {
        0 | 1 | 2 => place,
        3 | 4 | 5 => change(bytes, place, length, seed),
        6 => last(bytes, length, 1),
        7 => last(bytes, length, 32),
        8 => last(bytes, length, 64),
        9 => last(bytes, length, 128),
        10 => length + 1,
        11 => first(bytes, length, 2),
        12 => first(bytes, length, 34),
        _ => length,
    }
}

// Changes a byte at a place after the board; the file keeps its length.
fn change(bytes: &mut [u8; 12000], place: usize, length: usize, seed: u32) -> usize
    requires { (place < 12000) × (length ≤ 11000) }
    ensures { result ≤ 11000 }
{
    if 7 <= place {
        bytes[place] = below(seed / 64, 256) as u8;
    }
    length
}

// Sets the first byte; the file keeps its length.
fn first(bytes: &mut [u8; 12000], length: usize, b: u8) -> usize
    requires { length ≤ 11000 }
    ensures { result ≤ 11000 }
{
    bytes[0] = b;
    length
}

// Sets the last byte; the file keeps its length.
fn last(bytes: &mut [u8; 12000], length: usize, b: u8) -> usize
    requires { (0 < length) × (length ≤ 11000) }
    ensures { result ≤ 11000 }
{
    bytes[length - 1] = b;
    length
}

// How many corner places are lent.
pub(crate) fn room(seed: u32) -> usize
    ensures { result ≤ 150 }
{
    match below(seed, 4) {
        0 => 2,
        1 => 4,
        _ => 150,
    }
}

// How many records a file has after its first.
fn record_count(seed: u32, crowded: bool) -> usize
    ensures { result ≤ 300 }
{
    if crowded {
        return 300;
    }
    below(seed, 60) as usize
}

// Makes a file for a foil of up to 40 by 40.
pub(crate) fn make(bytes: &mut [u8; 12000], seed: u32) -> Made
    ensures { (result.length ≤ 12000) × (result.room ≤ 150) }
{
    let a = next(seed);
    let b = next(a);
    let c = next(b);
    let size = Size {
        width: 1 + below(a, 40),
        height: 1 + below(b, 40),
    };
    let crowded = below(c, 12) == 0;
    let first = first_record(bytes, size, c);
    let cursor = records(bytes, first, record_count(c / 16, crowded), size, crowded);
    let e = next(cursor.seed);
    Made {
        length: damage(bytes, cursor.at, e / 8),
        room: room(e),
        seed: e,
    }
}
