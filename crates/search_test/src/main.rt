// Compares the search with the plain search over all points, corner for corner, on boards made from a number, and
// writes how many boards there were, how many of them without a free point and without a path, how many paths of each
// number of bends, and on how many boards the two searches differ.
#![tactic(auto)]

mod asked;

ghost use Rattle.std.specs.Prelude.{◌<◌, ◌≤◌};
ghost use Rattle.boards.specs.Board.{OnBoard};

use boards::Made;
use foil_spec::Pen;

// How many boards are made.
const BOARDS: u64 = 5000;

// What came of a board: no point is free, there is no path, the path has so many bends, or the searches differ.
#[derive(Clone, Copy)]
enum Outcome {
    Blocked,
    NoPath,
    Bends(usize),
    Different,
}

// What came of the first path between the points at the places s and t of the map.
fn compare(table: &[u16; 640], map: &[bool; 4096], made: Made, s: usize, t: usize) -> Outcome
    requires { OnBoard made × (s < 4096) × (t < 4096) }
{
    let sx = (s % 64) as u16;
    let sy = (s / 64) as u16;
    let tx = (t % 64) as u16;
    let ty = (t / 64) as u16;
    let mut right = [0u16; 8192];
    let mut found = [0u16; 8192];
    let corners = plain::first_path(&mut right, map, sx, sy, tx, ty);
    if asked::first_path(&mut found, table, made, sx, sy, tx, ty) != Ok(corners) {
        return Outcome::Different;
    }
    match corners {
        None => Outcome::NoPath,
        Some(n) if n <= 4096 && right[..n * 2] == found[..n * 2] => Outcome::Bends(n.saturating_sub(
            2,
        )),
        Some(_) => Outcome::Different,
    }
}

// What came of a board.
fn try_board(table: &[u16; 640], made: Made) -> Outcome
    requires { OnBoard made }
{
    let mut map = [false; 4096];
    let gap = made.clearance;
    let pen = Pen { half: 0, gap };
    plain::free_points(&mut map, table, made.entries, pen, made.width, made.height);
    let s = boards::choose(&map, made.sx, made.sy);
    let t = boards::choose(&map, made.tx, made.ty);
    if s == 4096 || t == 4096 {
        return Outcome::Blocked;
    }
    compare(table, &map, made, s, t)
}

// Where an outcome is counted: boards without a free point, without a path and with a difference at the first three
// places, then paths by their bends, 60 or more at the last.
fn place_of(outcome: Outcome) -> usize
    ensures { result < 64 }
{
    match outcome {
        Outcome::Blocked => 0,
        Outcome::NoPath => 1,
        Outcome::Different => 2,
        Outcome::Bends(n) => if n < 60 { 3 + n } else { 63 },
    }
}

// Makes the boards one after the other, and counts their outcomes.
fn run(counts: &mut [u64; 64]) {
    let mut table = [0u16; 640];
    let mut seed: u32 = 1;
    for _ in 0..BOARDS {
        let made = boards::make(&mut table, seed);
        let k = place_of(try_board(&table, made));
        counts[k] = counts[k].wrapping_add(1);
        seed = made.seed;
    }
}

// Writes a line: words, and a count.
fn print_line(words: &[u8], n: u64) {
    io::write_all(1, words);
    io::print_decimal(1, n);
    io::write_all(1, b"\n");
}

// Writes a line for each number of bends that some path has.
fn print_bends(counts: &[u64; 64]) {
    for k in 3..64 {
        if counts[k] != 0 {
            io::print_decimal(1, (k - 3) as u64);
            print_line(b" bends: ", counts[k]);
        }
    }
}

fn main() {
    let mut counts = [0u64; 64];
    run(&mut counts);
    print_line(b"boards: ", BOARDS);
    print_line(b"no free point: ", counts[0]);
    print_line(b"no path: ", counts[1]);
    print_bends(&counts);
    print_line(b"different: ", counts[2]);
}
