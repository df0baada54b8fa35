// Random calls on all eight foils of a sheet beside eight plain foils that are kept apart. After every call the answer,
// the eight records, the whole table, the strips of the foil called and the corners are compared with what they should
// be. Writes how many calls were accepted and refused by each number, and how often one differed.
#![tactic(auto)]

mod calls;
mod holds;
mod records;
mod steps;

ghost use Rattle.std.specs.Prelude.{◌<◌, ◌≤◌};

use boards::{below, next};
use foil_spec::{Reason, Refusal};
use plain_sheet::{Asked, Kept, Kind, Want, choose, none_begun, sum, write_table};
use sheet_rows::no_foils;
use steps::{Stood, step};

// How many sheets there are at random, and how many calls on each.
const SHEETS: usize = 5;

const CALLS: usize = 2400;

// Where the counts are: of all numbers first, then of the accepted calls by kind, of those by a record, of the calls
// that the sheet alone had no room for, of those that found other numbers in unused places and cleared or left them,
// and of differences.
const NUMBERS: usize = 24;

const RECORDED: usize = 34;

const CROWDED: usize = 35;

const CLEARED: usize = 36;

const LEFT: usize = 37;

const DIFFERENT: usize = 38;

const COUNTS: usize = 39;

// Adds one to a count, if it is to be.
fn count(counts: &mut [u64; COUNTS], k: usize, yes: bool)
    requires { k < 39 }
{
    if yes {
        counts[k] = counts[k].wrapping_add(1);
    }
}

// Where the count of accepted calls of a kind is.
fn place(kind: Kind) -> usize
    ensures { result < 39 }
{
    match kind {
        Kind::New => 24,
        Kind::Draw => 25,
        Kind::Leg => 26,
        Kind::Lift => 27,
        Kind::Lay => 28,
        Kind::Join => 29,
        Kind::Book => 30,
        Kind::Find => 31,
        Kind::LookUp => 32,
        Kind::Save => 33,
    }
}

// The number of an answer, 0 if it accepts.
fn number_of(answer: Result<usize, Reason>) -> u8 {
    match answer {
        Ok(_) => 0,
        Err(reason) => Refusal::from(reason).number(),
    }
}

// Counts a call by what it should come to, on a table with other numbers in unused places or not.
fn count_call(counts: &mut [u64; COUNTS], asked: Asked, want: Want, littered: bool, right: bool) {
    let accepted = want.answer.is_ok();
    let wrote = accepted && asked.kind.writes();
    count(counts, number_of(want.answer) as usize % NUMBERS, true);
    count(counts, place(asked.kind), accepted);
    count(counts, RECORDED, accepted && asked.recorded);
    count(counts, CROWDED, want.crowded);
    count(counts, CLEARED, littered && wrote);
    count(counts, LEFT, littered && !wrote);
    count(counts, DIFFERENT, !right);
}

// Now and then puts other numbers than zeros into the unused places, from one of them on to the last, of the table and
// of what it should be, and answers whether it did.
fn litter(table: &mut [u16; 2565], due: &mut [u16; 2565], all: &[Kept; 8], seed: u32) -> bool {
    let from = sum(all, 0) * 5;
    if seed % 4 != 0 || 2560 <= from {
        return false;
    }
    let at = from + below(seed / 4, (2560 - from) as u16) as usize;
    let other = 1 + below(seed / 64, 9);
    table[at..2560].fill(other);
    due[at..2560].fill(other);
    true
}

// Makes a call at random.
fn turn(
    counts: &mut [u64; COUNTS],
    table: &mut [u16; 2565],
    due: &mut [u16; 2565],
    all: &mut [Kept; 8],
    stood: Stood,
    seed: u32,
) -> Stood {
    let anew = litter(table, due, all, seed);
    let lent = Stood {
        sheet: stood.sheet,
        littered: anew || stood.littered,
    };
    let asked = choose(all, seed);
    step(counts, table, due, all, lent, asked)
}

// The number for the call after.
fn later(seed: u32) -> u32 {
    next(next(next(next(next(next(next(next(seed))))))))
}

// Makes the calls on a sheet at random, and answers the number for the next sheet.
fn run_sheet(counts: &mut [u64; COUNTS], seed: u32) -> u32 {
    let mut table = [7u16; 2565];
    let mut due = [7u16; 2565];
    let mut all = none_begun();
    let mut stood = Stood {
        sheet: no_foils(),
        littered: false,
    };
    write_table(&mut table, &all);
    write_table(&mut due, &all);
    let mut s = seed;
    for _ in 0..CALLS {
        stood = turn(counts, &mut table, &mut due, &mut all, stood, s);
        s = later(s);
    }
    s
}

// Makes the calls on all sheets at random.
fn run(counts: &mut [u64; COUNTS]) {
    let mut seed: u32 = 1;
    for _ in 0..SHEETS {
        seed = run_sheet(counts, seed);
    }
}

// Writes a line: words, and a count.
fn print_line(words: &[u8], n: u64) {
    io::write_all(1, words);
    io::print_decimal(1, n);
    io::write_all(1, b"\n");
}

// Writes a line for each number that refused a call.
fn print_numbers(counts: &[u64; COUNTS]) {
    for k in 1..NUMBERS {
        if counts[k] != 0 {
            io::write_all(1, b"refused by ");
            io::print_decimal(1, k as u64);
            print_line(b": ", counts[k]);
        }
    }
}

// Writes a line of words, and the counts from one to the one before another.
fn print_counts(words: &[u8], counts: &[u64; COUNTS], from: usize, to: usize)
    requires { (from ≤ to) × (to ≤ 39) }
{
    io::write_all(1, words);
    for k in from..to {
        io::write_all(1, b" ");
        io::print_decimal(1, counts[k]);
    }
    io::write_all(1, b"\n");
}

// Writes the counts.
fn print(counts: &[u64; COUNTS]) {
    print_line(b"accepted: ", counts[0]);
    print_counts(
        b"new, patch, leg, lift, track, join, book, find, look up, save, any by a record:",
        counts,
        NUMBERS,
        CROWDED,
    );
    print_numbers(counts);
    print_counts(
        b"10 for the sheet alone, unused places cleared, left:",
        counts,
        CROWDED,
        DIFFERENT,
    );
    print_line(b"different: ", counts[DIFFERENT]);
}

fn main() {
    let mut counts = [0u64; COUNTS];
    run(&mut counts);
    print_line(b"random sheets: ", SHEETS as u64);
    print_line(b"calls on each: ", CALLS as u64);
    print(&counts);
}
