// Files that are damaged: cut, with unknown bits, with the board missing or repeated, going on after the end mark, or
// too long.
ghost use Rattle.std.specs.Prelude.{◌+◌, ◌<◌, ◌≤◌};
ghost use Rattle.foil_spec.specs.Limits.{max_bytes};

use crate::run::{Ended, run_front};
use crate::{file, show};
use foil_spec::{INPUT_SIZE, Refusal};

pub(crate) fn all() {
    cuts();
    maps(b"first map byte: ", 0);
    maps(b"second map byte: ", 15);
    maps(b"third map byte: ", 26);
    maps(b"end mark: ", 29);
    marks();
    lengths();
}

// The foil of document 01's job with its patch, its track in the next record, and a lift of its net: 30 bytes. The
// patch goes first, and the board's last byte takes the place of its map byte.
fn small_job(bytes: &mut [u8; INPUT_SIZE]) {
    file::patch(bytes, 6, 2, 0, 3, 3);
    file::board(bytes, 0, 6, 4, 0);
    bytes[0] = 3;
    file::track(bytes, 15, 5, 0, 0, 4, 0);
    file::lift(bytes, 26, 5);
    file::end(bytes, 29);
}

// Where the way that a job ended is counted: under its number, or 20 for the end mark and 21 for a board that ended it.
fn place_of(how: Result<Ended, Refusal>) -> usize {
    match how {
        Err(refusal) => usize::from(refusal.number()),
        Ok(Ended::AtMark(_)) => 20,
        Ok(Ended::ByBoard) => 21,
    }
}

// Runs the first n bytes and counts how the job ended.
fn tally(ends: &mut [u64; 32], bytes: &[u8; INPUT_SIZE], n: usize)
    requires { n ≤ max_bytes + 1 }
{
    let mut counts = [0u64; 32];
    let k = place_of(run_front(&mut counts, bytes, n));
    if k < 32 {
        ends[k] = ends[k].wrapping_add(1);
    }
}

// A line on how so many jobs ended.
fn show_ends(words: &[u8], ends: &[u64; 32]) {
    io::write_all(1, words);
    show::count(b"end mark: ", ends[20]);
    show::count(b", ended by the board: ", ends[21]);
    for k in 1..20 {
        if ends[k] != 0 {
            show::count(b", file ", k as u64);
            show::count(b": ", ends[k]);
        }
    }
    show::end();
}

// Every cut of the small job, from none of its bytes to all of them.
fn cuts() {
    let mut bytes = [0u8; INPUT_SIZE];
    let mut ends = [0u64; 32];
    small_job(&mut bytes);
    for n in 0..31 {
        tally(&mut ends, &bytes, n);
    }
    show_ends(b"cuts of 30 bytes: ", &ends);
}

// Every byte in the place of a map byte.
fn maps(words: &[u8], place: usize)
    requires { place < 30 }
{
    let mut bytes = [0u8; INPUT_SIZE];
    let mut ends = [0u64; 32];
    small_job(&mut bytes);
    for b in 0u16..256 {
        bytes[place] = b as u8;
        tally(&mut ends, &bytes, 30);
    }
    show_ends(words, &ends);
}

// Short files: nothing, the end mark alone and with a byte after it, a board cut short, one that is repeated and cut
// short, no end mark, a byte after it, a pen cut short, and one without a board.
fn marks() {
    let mut bytes = [0u8; INPUT_SIZE];
    show::job(b"empty file: ", &bytes, 0);
    show::job(b"end mark alone: ", &bytes, 1);
    show::job(b"end mark and a byte: ", &bytes, 2);
    file::board(&mut bytes, 0, 0, 1, 0);
    show::job(b"board W 0 cut short: ", &bytes, 6);
    file::board(&mut bytes, 0, 6, 4, 0);
    show::job(b"no end mark: ", &bytes, 7);
    show::job(b"board and end mark: ", &bytes, 8);
    show::job(b"a byte after the end mark: ", &bytes, 9);
    file::board(&mut bytes, 7, 6, 4, 0);
    show::job(b"second board cut short: ", &bytes, 8);
    show::job(b"second board: ", &bytes, 14);
    file::pen_board(&mut bytes, 0, 6, 4, 1, 0);
    show::job(b"pen cut short: ", &bytes, 9);
    file::end(&mut bytes, 11);
    show::job(b"pen and end mark: ", &bytes, 12);
    bytes[0] = 32;
    show::job(b"pen without a board: ", &bytes, 12);
}

// 60,000 bytes, mostly lifts of a net that is not there; and one byte more.
fn lengths() {
    let mut bytes = [0u8; INPUT_SIZE];
    let a = file::board(&mut bytes, 0, 4, 4, 0);
    let b = file::track(&mut bytes, a, 1, 0, 0, 3, 3);
    let c = file::track(&mut bytes, b, 1, 0, 0, 3, 3);
    let d = file::lifts(&mut bytes, c, 19990, 2);
    let n = file::end(&mut bytes, d);
    show::job(b"60000 bytes: ", &bytes, n);
    show::job(b"60001 bytes: ", &bytes, INPUT_SIZE);
}
