// A record of a job file, read by a place that moves on over its fields.
ghost use Rattle.std.specs.Prelude.{◌+◌, ◌≤◌};

use crate::laying::lay;
use crate::{Foil, draw, lift, put_leg};
use foil_spec::{Entry, Reason};

// What came of a record: it is the end mark, its board was refused and ended the job, or its steps were run.
#[derive(Clone, Copy)]
pub enum Ran {
    AtEnd,
    Over(Reason),
    Went(Steps),
}

// The steps of a record that went on: whether it has a board, what came of the other steps that it has, with how many
// corners the track has, and the place after the record.
#[derive(Clone, Copy)]
pub struct Steps {
    pub board: bool,
    pub patch: Option<Result<(), Reason>>,
    pub track: Option<Result<usize, Reason>>,
    pub lift: Option<Result<(), Reason>>,
    pub leg: Option<Result<(), Reason>>,
    pub next: usize,
}

// A byte of the file as a number, 0 past its end.
fn byte(bytes: &[u8], at: usize) -> u16
    ensures { result ≤ 255 }
{
    if at < bytes.len() {
        bytes[at] as u16
    } else {
        0
    }
}

// The number of two bytes.
fn number(bytes: &[u8], at: usize) -> u16
    requires { at ≤ 70000 }
{
    byte(bytes, at + 1) * 256 + byte(bytes, at)
}

// Whether the record at a place has a step, by the value of its bit.
fn has(bytes: &[u8], at: usize, bit: u16) -> bool
    requires { 1 ≤ bit }
{
    byte(bytes, at) / bit % 2 == 1
}

// How many bytes a step takes in the record.
fn size(bytes: &[u8], at: usize, bit: u16, full: usize) -> usize
    requires { 1 ≤ bit }
    ensures { result ≤ full }
{
    if has(bytes, at, bit) { full } else { 0 }
}

// Refuses a record as a whole, or not.
fn check_record(bytes: &[u8], at: usize) -> Result<(), Reason>
    requires { at ≤ 60000 }
{
    let map = byte(bytes, at);
    let board = map % 2 == 1;
    if bytes.len() <= at {
        return Err(Reason::FileCutShort);
    }
    if 64 <= map {
        return Err(Reason::UnknownBit);
    }
    if (at == 0) != board || (32 <= map && !board) {
        return Err(Reason::BoardMisplaced);
    }
    if map == 0 && at + 1 < bytes.len() {
        return Err(Reason::BytesAfterEnd);
    }
    if bytes.len() < after(bytes, at) {
        return Err(Reason::FileCutShort);
    }
    Ok(())
}

// Where the fields of the patch begin, or would begin.
fn patch_at(bytes: &[u8], at: usize) -> usize
    requires { at ≤ 60000 }
    ensures { result ≤ at + 7 }
{
    at + 1 + size(bytes, at, 1, 6)
}

// Where the fields of the track begin, or would begin.
fn track_at(bytes: &[u8], at: usize) -> usize
    requires { at ≤ 60000 }
    ensures { result ≤ at + 15 }
{
    patch_at(bytes, at) + size(bytes, at, 2, 8)
}

// Where the field of the lift begins, or would begin.
fn lift_at(bytes: &[u8], at: usize) -> usize
    requires { at ≤ 60000 }
    ensures { result ≤ at + 25 }
{
    track_at(bytes, at) + size(bytes, at, 4, 10)
}

// Where the fields of the leg begin, or would begin.
fn leg_at(bytes: &[u8], at: usize) -> usize
    requires { at ≤ 60000 }
    ensures { result ≤ at + 27 }
{
    lift_at(bytes, at) + size(bytes, at, 8, 2)
}

// Where the fields of the pen begin, or would begin.
fn pen_at(bytes: &[u8], at: usize) -> usize
    requires { at ≤ 60000 }
    ensures { result ≤ at + 37 }
{
    leg_at(bytes, at) + size(bytes, at, 16, 10)
}

// The place after the record.
fn after(bytes: &[u8], at: usize) -> usize
    requires { at ≤ 60000 }
    ensures { result ≤ at + 41 }
{
    pen_at(bytes, at) + size(bytes, at, 32, 4)
}

// Runs the record at a place, with room for so many corners.
pub fn record(
    row: &mut [u16; 640],
    corners: &mut [u16; 8192],
    foil: &mut Foil,
    room: usize,
    bytes: &[u8],
    at: usize,
) -> Result<Ran, Reason>
    requires { at ≤ 60000 }
{
    check_record(bytes, at)?;
    if byte(bytes, at) == 0 {
        return Ok(Ran::AtEnd);
    }
    let board = has(bytes, at, 1);
    if board {
        if let Err(reason) = board_step(row, foil, bytes, at) {
            return Ok(Ran::Over(reason));
        }
    }
    Ok(Ran::Went(Steps {
        board,
        patch: patch_step(row, foil, bytes, at),
        track: track_step(row, corners, foil, room, bytes, at),
        lift: lift_step(row, foil, bytes, at),
        leg: leg_step(row, foil, bytes, at),
        next: after(bytes, at),
    }))
}

// Begins the foil by the board of the record: its row becomes empty.
fn board_step(row: &mut [u16; 640], foil: &mut Foil, bytes: &[u8], at: usize) -> Result<(), Reason>
    requires { at ≤ 60000 }
{
    let width = number(bytes, at + 1);
    let height = number(bytes, at + 3);
    if width < 1 || 4096 < width || height < 1 || 4096 < height {
        return Err(Reason::BadSize);
    }
    if has(bytes, at, 32) {
        return pen_board(row, foil, bytes, at, width, height);
    }
    let reach = number(bytes, at + 5);
    if 15 < reach {
        return Err(Reason::BadReach);
    }
    begin(row, foil, width, height, 0, reach);
    Ok(())
}

// Begins the foil by the pen of its record, whatever its reach is.
fn pen_board(
    row: &mut [u16; 640],
    foil: &mut Foil,
    bytes: &[u8],
    at: usize,
    width: u16,
    height: u16,
) -> Result<(), Reason>
    requires { at ≤ 60000 }
{
    let f = pen_at(bytes, at);
    let half = number(bytes, f);
    let gap = number(bytes, f + 2);
    if 7 < half || 15 < gap {
        return Err(Reason::BadPen);
    }
    begin(row, foil, width, height, half, gap);
    Ok(())
}

// Begins a foil with an empty row.
fn begin(row: &mut [u16; 640], foil: &mut Foil, width: u16, height: u16, half: u16, gap: u16) {
    *row = [0; 640];
    *foil = Foil {
        width,
        height,
        half,
        gap,
        entries: 0,
    };
}

// Draws the patch, if the record has one.
fn patch_step(
    row: &mut [u16; 640],
    foil: &mut Foil,
    bytes: &[u8],
    at: usize,
) -> Option<Result<(), Reason>>
    requires { at ≤ 60000 }
{
    if !has(bytes, at, 2) {
        return None;
    }
    let f = patch_at(bytes, at);
    Some(draw(
        row,
        foil,
        number(bytes, f),
        number(bytes, f + 2),
        number(bytes, f + 4),
        number(bytes, f + 6),
    ))
}

// Lays the track, if the record has one.
fn track_step(
    row: &mut [u16; 640],
    corners: &mut [u16; 8192],
    foil: &mut Foil,
    room: usize,
    bytes: &[u8],
    at: usize,
) -> Option<Result<usize, Reason>>
    requires { at ≤ 60000 }
{
    if !has(bytes, at, 4) {
        return None;
    }
    let f = track_at(bytes, at);
    Some(lay(
        row,
        corners,
        foil,
        room,
        number(bytes, f),
        number(bytes, f + 2),
        number(bytes, f + 4),
        number(bytes, f + 6),
        number(bytes, f + 8),
    ))
}

// Lifts the net, if the record has one.
fn lift_step(
    row: &mut [u16; 640],
    foil: &mut Foil,
    bytes: &[u8],
    at: usize,
) -> Option<Result<(), Reason>>
    requires { at ≤ 60000 }
{
    if !has(bytes, at, 8) {
        return None;
    }
    Some(lift(row, foil, number(bytes, lift_at(bytes, at))))
}

// Appends the leg, if the record has one.
fn leg_step(
    row: &mut [u16; 640],
    foil: &mut Foil,
    bytes: &[u8],
    at: usize,
) -> Option<Result<(), Reason>>
    requires { at ≤ 60000 }
{
    if !has(bytes, at, 16) {
        return None;
    }
    let f = leg_at(bytes, at);
    let leg = Entry {
        net: number(bytes, f),
        x0: number(bytes, f + 2),
        y0: number(bytes, f + 4),
        x1: number(bytes, f + 6),
        y1: number(bytes, f + 8),
    };
    Some(put_leg(row, foil, leg))
}
