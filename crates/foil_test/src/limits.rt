// Job files at the limits: foils that cannot be begun, a full table, and too many strips.
ghost use Rattle.std.specs.Prelude.{◌≤◌};

use crate::{file, show};
use foil_spec::INPUT_SIZE;

pub(crate) fn all() {
    boards();
    full_table();
    no_room();
    too_fine();
    hidden();
}

// Boards of sizes at and past the limits, each with a patch after it that is not drawn where the board ends the job.
fn boards() {
    board(b"W 0: ", 0, 1, 0);
    board(b"W 4097: ", 4097, 1, 0);
    board(b"H 0: ", 1, 0, 0);
    board(b"H 4097: ", 1, 4097, 0);
    board(b"reach 16: ", 1, 1, 16);
    board(b"W 0 and reach 16: ", 0, 1, 16);
    board(b"the largest foil: ", 4096, 4096, 15);
    board(b"the smallest foil: ", 1, 1, 0);
    pen_board(b"half width 8: ", 1, 1, 8, 0);
    pen_board(b"gap 16: ", 1, 1, 0, 16);
    pen_board(b"W 0 and half width 8: ", 0, 1, 8, 0);
    pen_board(b"the widest pen: ", 4096, 4096, 7, 15);
}

fn board(words: &[u8], w: u16, h: u16, d: u16) {
    let mut bytes = [0u8; INPUT_SIZE];
    let a = file::board(&mut bytes, 0, w, h, d);
    show_patch(words, &mut bytes, a);
}

fn pen_board(words: &[u8], w: u16, h: u16, half: u16, gap: u16) {
    let mut bytes = [0u8; INPUT_SIZE];
    let a = file::pen_board(&mut bytes, 0, w, h, half, gap);
    show_patch(words, &mut bytes, a);
}

// The job whose first bytes are the board's, with a patch behind them.
fn show_patch(words: &[u8], bytes: &mut [u8; INPUT_SIZE], at: usize)
    requires { at ≤ 11 }
{
    let place = file::patch(bytes, at, 0, 0, 1, 1);
    let n = file::end(bytes, place);
    show::job(words, bytes, n);
}

// Puts 128 entries, of which the last is a track of one point.
fn fill(bytes: &mut [u8; INPUT_SIZE]) -> usize
    ensures { result ≤ 1500 }
{
    let a = file::board(bytes, 0, 4, 4, 0);
    let b = file::dots(bytes, a, 127, 1, 1);
    file::track(bytes, b, 7, 3, 3, 3, 3)
}

// On a full table 3 and, for a patch on the track, 21 come before 10, a patch and a track are refused by 10, and once
// the track is lifted a patch can be drawn again.
fn full_table() {
    let mut bytes = [0u8; INPUT_SIZE];
    let c = fill(&mut bytes);
    let d = file::patch(&mut bytes, c, 1, 1, 1, 1);
    let e = file::patch(&mut bytes, d, 3, 3, 4, 4);
    let f = file::patch(&mut bytes, e, 1, 1, 2, 2);
    let g = file::track(&mut bytes, f, 8, 0, 0, 0, 0);
    let h = file::track(&mut bytes, g, 8, 0, 0, 2, 0);
    let i = file::lift(&mut bytes, h, 7);
    let j = file::patch(&mut bytes, i, 1, 1, 2, 2);
    let n = file::end(&mut bytes, j);
    show::job(b"full table: ", &bytes, n);
}

// 126 entries, of which one parts the foil. A track of three legs has no room (10); where there is no way it is 9 all
// the same; one of two legs has room.
fn no_room() {
    let mut bytes = [0u8; INPUT_SIZE];
    let a = file::board(&mut bytes, 0, 8, 4, 0);
    let b = file::dots(&mut bytes, a, 124, 1, 1);
    let c = file::patch(&mut bytes, b, 5, 0, 6, 4);
    let d = file::patch(&mut bytes, c, 1, 0, 2, 1);
    let e = file::track(&mut bytes, d, 1, 0, 0, 2, 0);
    let f = file::track(&mut bytes, e, 1, 0, 0, 7, 0);
    let g = file::track(&mut bytes, f, 1, 0, 0, 2, 2);
    let n = file::end(&mut bytes, g);
    show::job(b"room for two legs: ", &bytes, n);
}

// 129 by 127 with lines at x = 1, 3, .. 127 and y = 1, 3, .. 123: 4,095 strips. The line at y = 125 would make too many
// (11); a track of one point makes one more, and another one too many.
fn too_fine() {
    let mut bytes = [0u8; INPUT_SIZE];
    let a = file::board(&mut bytes, 0, 129, 127, 0);
    let b = file::upright_lines(&mut bytes, a, 64, 1, 127);
    let c = file::level_lines(&mut bytes, b, 62, 0, 129);
    let d = file::patch(&mut bytes, c, 0, 125, 129, 126);
    let e = file::track(&mut bytes, d, 1, 0, 125, 0, 125);
    let f = file::track(&mut bytes, e, 2, 2, 125, 2, 125);
    let n = file::end(&mut bytes, f);
    show::job(b"4095 strips: ", &bytes, n);
}

// 129 by 129 with a track at x = 0, and lines beside it at x = 3, 5, .. 127 and y = 1, 3, .. 125: 4,096 strips. Lifting
// the track would make one more (11).
fn hidden() {
    let mut bytes = [0u8; INPUT_SIZE];
    let a = file::board(&mut bytes, 0, 129, 129, 0);
    let b = file::track(&mut bytes, a, 1, 0, 0, 0, 128);
    let c = file::upright_lines(&mut bytes, b, 63, 3, 129);
    let d = file::level_lines(&mut bytes, c, 63, 1, 129);
    let e = file::lift(&mut bytes, d, 1);
    let n = file::end(&mut bytes, e);
    show::job(b"a pattern beside a track: ", &bytes, n);
}
