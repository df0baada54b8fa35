// The definitions of document 01, in specs/, and what they and the calls share: the limits, the refusals, and the structs
// (the board's record and that of document 01, an entry of the patch table, a strip, a point, the figures of an ink).
#![tactic(auto)]

mod refusal;

pub use refusal::{Reason, Refusal};

// How many entries a table holds, and how many numbers they are in a flat list.
pub const MAX_ENTRIES: usize = 128;

pub const TABLE_SIZE: usize = 640;

// How many places a report of nets has at least.
pub const REPORT_PLACES: usize = 128;

// How many strips a strip list holds, and how many numbers they are in a flat list.
pub const MAX_STRIPS: usize = 4096;

pub const STRIPS_SIZE: usize = 16384;

// How long a side of a foil is at most.
pub const MAX_SIDE: usize = 4096;

// How far document 01's reach, and the gap of a pen, go at most.
pub const MAX_REACH: u16 = 15;

// How many bytes a job file has at most; a list of one more tells a longer file.
pub const MAX_BYTES: usize = 60000;

pub const INPUT_SIZE: usize = 60001;

// How many corner places the job program lends, and how many numbers they are.
pub const CORNER_PLACES: usize = 8192;

pub const CORNERS_SIZE: usize = 16384;

// The board's record: its width and height, the pen's half width and gap, and how many entries and
// strips the lent lists hold.
#[repr(C)]
#[derive(Clone, Copy, PartialEq, Eq)]
pub struct Board {
    pub width: u16,
    pub height: u16,
    pub half: u16,
    pub gap: u16,
    pub entries: usize,
    pub strips: usize,
}

// The board's record of document 01: its width and height, its reach, and the two counts.
#[repr(C)]
#[derive(Clone, Copy)]
pub struct OldBoard {
    pub width: u16,
    pub height: u16,
    pub reach: u16,
    pub entries: usize,
    pub strips: usize,
}

// A pen: its half width, and the gap that its ink keeps.
#[derive(Clone, Copy)]
pub struct Pen {
    pub half: u16,
    pub gap: u16,
}

// A rule of blocking: how far away a patch, a leg and the foil's edge block.
#[derive(Clone, Copy)]
pub struct Rule {
    pub patch: u16,
    pub leg: u16,
    pub edge: u16,
}

// An entry of the patch table: its net, and the points with x0 <= x < x1 and y0 <= y < y1.
#[repr(C)]
#[derive(Clone, Copy, PartialEq, Eq)]
pub struct Entry {
    pub net: u16,
    pub x0: u16,
    pub y0: u16,
    pub x1: u16,
    pub y1: u16,
}

// The ink: ohms a square (R), the width of a track in points (w), squares counted for a bend (c).
#[repr(C)]
#[derive(Clone, Copy)]
pub struct Ink {
    pub sheet: f64,
    pub width: f64,
    pub bend: f64,
}

// A strip of free points: those with x0 <= x < x1 and y0 <= y < y1.
#[derive(Clone, Copy, PartialEq, Eq)]
pub struct Strip {
    pub x0: u16,
    pub y0: u16,
    pub x1: u16,
    pub y1: u16,
}

// A point of the foil.
#[derive(Clone, Copy, PartialEq, Eq)]
pub struct Point {
    pub x: u16,
    pub y: u16,
}
