// Lists of nets at random on foil 0 of a sheet that is else full, beside a plain foil that lays the same nets one after
// the other, each with the corner places that those before it have left. After every list the answer to it, the numbers
// for each net, the corners, the eight records, the table and the strips are compared with what they should be. Writes
// how many nets were laid and refused by each number, and how many lists differed.
#![tactic(auto)]

mod asked;
mod holds;
mod single;

ghost use Rattle.std.specs.Prelude.{◌<◌};

use asked::{begin, choose, draw_both, wish_all};
use plain_foil::Foil;
use sheet::Sheet;
use single::lay_all;

// How many foils there are at random, and how many lists on each.
const FOILS: usize = 80;

const LISTS: usize = 3;

// How many entries foil 0 may have: the 32 it is sure of, since the others have all that is left of 512.
const MOST: usize = 32;

// Where the counts are: of the nets by their numbers first, then of the nets laid after one that met 12 in the same
// list, of the lists without nets, of those that met 12 as a whole, and of differences.
const NUMBERS: usize = 24;

const LATER: usize = 24;

const EMPTY: usize = 25;

const WHOLE: usize = 26;

const DIFFERENT: usize = 27;

const COUNTS: usize = 28;

// Adds one to a count, if it is to be.
fn count(counts: &mut [u64; COUNTS], k: usize, yes: bool)
    requires { k < 28 }
{
    if yes {
        counts[k] = counts[k].wrapping_add(1);
    }
}

// Where the two foils stand: the sheet's records, the plain foil, and the number for what comes next.
#[derive(Clone, Copy)]
struct Stood {
    sheet: Sheet,
    foil: Foil,
    seed: u32,
}

// Lays a list at random on both foils, with some number at the last place of the table, and compares what came of it.
fn lay_both(
    counts: &mut [u64; COUNTS],
    table: &mut [u16; 2565],
    strips: &mut [u16; 16388],
    row: &mut [u16; 640],
    stood: &mut Stood,
) {
    let asked = choose(stood.seed);
    let mut wishes = [0u16; 210];
    let mut corners = [7u16; 130];
    let mut answers = [7u16; 130];
    let mut path = [7u16; 130];
    let mut said = [7u16; 130];
    let before = stood.sheet;
    stood.seed = wish_all(&mut wishes, stood.foil, asked.seed);
    table[2559] = asked.last;
    let given = asked::lend(
        table,
        strips,
        &mut corners,
        &mut answers,
        &mut stood.sheet,
        &wishes,
        asked,
    );
    let want = lay_all(
        counts, row, &mut path, &mut said, &wishes, stood.foil, asked,
    );
    stood.foil = want.foil;
    let told = corners == path && answers == said;
    let right = holds::right(
        table,
        strips,
        given,
        stood.sheet,
        before,
        row,
        want,
        asked.last,
    );
    count(counts, DIFFERENT, !told || !right);
}

// Draws two patches and lays a list at random on both foils.
fn turn(
    counts: &mut [u64; COUNTS],
    table: &mut [u16; 2565],
    strips: &mut [u16; 16388],
    row: &mut [u16; 640],
    stood: &mut Stood,
) {
    draw_both(table, strips, row, stood);
    draw_both(table, strips, row, stood);
    lay_both(counts, table, strips, row, stood);
}

// Begins both foils at random, draws and lays so many times, and answers the number for the next foils.
fn run_foil(counts: &mut [u64; COUNTS], seed: u32) -> u32 {
    let mut table = [9u16; 2565];
    let mut strips = [7u16; 16388];
    let mut row = [0u16; 640];
    let mut stood = begin(&mut table, &mut strips, seed);
    for _ in 0..LISTS {
        turn(counts, &mut table, &mut strips, &mut row, &mut stood);
    }
    stood.seed
}

// Lays the lists on all foils.
fn run(counts: &mut [u64; COUNTS]) {
    let mut seed: u32 = 1;
    for _ in 0..FOILS {
        seed = run_foil(counts, seed);
    }
}

// Writes a line: words, and a count.
fn print_line(words: &[u8], n: u64) {
    io::write_all(1, words);
    io::print_decimal(1, n);
    io::write_all(1, b"\n");
}

// Writes a line for each number that refused a net.
fn print_numbers(counts: &[u64; COUNTS]) {
    for k in 1..NUMBERS {
        if counts[k] != 0 {
            io::write_all(1, b"nets refused by ");
            io::print_decimal(1, k as u64);
            print_line(b": ", counts[k]);
        }
    }
}

fn main() {
    let mut counts = [0u64; COUNTS];
    run(&mut counts);
    print_line(b"random lists: ", (FOILS * LISTS) as u64);
    print_line(b"without nets: ", counts[EMPTY]);
    print_line(b"refused as a whole by 12: ", counts[WHOLE]);
    print_line(b"nets laid: ", counts[0]);
    print_line(b"laid after one refused by 12: ", counts[LATER]);
    print_numbers(&counts);
    print_line(b"different: ", counts[DIFFERENT]);
}
