// Replays random job files on foil 0 of a sheet else empty beside a plain foil, with a find and a book or a join now
// and then, and writes how many records there were, how many steps were accepted and refused by each number, and how
// often the two differ: in an answer, in the record, in the table, the strips or the corner list, or in the strip of a
// point that is looked up.
#![tactic(auto)]

mod compare;
mod drawings;
mod holds;
mod jobs;
mod joins;

ghost use Rattle.std.specs.Prelude.{◌<◌, ◌≤◌, IfSome};

use boards::next;
use foil_spec::{Reason, Refusal};
use job::{Reply, next_of};
use plain_foil::{Foil, Ran, Steps};
use sheet::{Sheet, run_record};
use sheet_rows::no_foils;

// How many job files are replayed.
const JOBS: usize = 300;

// More records than any of these files has.
const RECORDS: usize = 3000;

// Where the counts of records, end marks, tracks, paths found, lists booked, joins by their numbers and differences
// are; those of all numbers come first.
const RUN: usize = 23;

const ENDS: usize = 24;

const LAID: usize = 25;

const FOUND: usize = 26;

const BOOKED: usize = 27;

const JOINS: usize = 28;

const DIFFERENT: usize = 51;

const COUNTS: usize = 52;

// Adds one to a count.
fn count(counts: &mut [u64; COUNTS], k: usize)
    requires { k < 52 }
{
    counts[k] = counts[k].wrapping_add(1);
}

// The number of an answer, 0 if it accepts.
fn number_of<T: Copy>(answer: Result<T, Reason>) -> u8 {
    match answer {
        Ok(_) => 0,
        Err(reason) => Refusal::from(reason).number(),
    }
}

// Counts the number of an answer.
fn count_answer<T: Copy>(counts: &mut [u64; COUNTS], answer: Result<T, Reason>) {
    let k = number_of(answer) as usize;
    if k < RUN {
        count(counts, k);
    }
}

// Counts the number of a step, if the record has it.
fn count_step<T: Copy>(counts: &mut [u64; COUNTS], answer: Option<Result<T, Reason>>) {
    if let Some(given) = answer {
        count_answer(counts, given);
    }
}

// Where a job stands: the sheet's records by the calls, the plain foil, and the number for a point.
#[derive(Clone, Copy)]
struct Stood {
    sheet: Sheet,
    foil: Foil,
    point: u32,
}

// A job before its first record.
fn unbegun(seed: u32) -> Stood {
    Stood {
        sheet: no_foils(),
        foil: Foil {
            width: 0,
            height: 0,
            half: 0,
            gap: 0,
            entries: 0,
        },
        point: seed,
    }
}

// Counts what came of a record by the plain foil.
fn count_record(counts: &mut [u64; COUNTS], want: Result<Ran, Reason>) {
    count(counts, RUN);
    match want {
        Ok(Ran::AtEnd) => count(counts, ENDS),
        Ok(Ran::Went(steps)) => count_steps(counts, steps),
        Ok(Ran::Over(reason)) => count_answer::<()>(counts, Err(reason)),
        Err(reason) => count_answer::<()>(counts, Err(reason)),
    }
}

// Counts the steps of a record that went on.
fn count_steps(counts: &mut [u64; COUNTS], steps: Steps) {
    if let Some(Ok(_)) = steps.track {
        count(counts, LAID);
    }
    if steps.board {
        count(counts, 0);
    }
    count_step(counts, steps.patch);
    count_step(counts, steps.track);
    count_step(counts, steps.lift);
    count_step(counts, steps.leg);
}

// Whether the foil by the calls and the plain one agree, also in the strip of a point at random.
fn agree(
    table: &[u16; 2565],
    strips: &[u16; 16388],
    corners: &[u16; 300],
    reply: &Reply,
    row: &[u16; 640],
    path: &[u16; 8192],
    want: Result<Ran, Reason>,
    stood: &Stood,
) -> bool {
    compare::same_reply(*reply, want)
        && holds::same(table, strips, corners, stood.sheet, row, path, stood.foil)
        && holds::same_point(table, strips, stood.sheet, row, stood.foil, stood.point)
}

// Runs a record on both foils, with so many corner places lent, and counts what came of it; the place of the next
// record, if the job goes on.
fn replay_one(
    counts: &mut [u64; COUNTS],
    table: &mut [u16; 2565],
    strips: &mut [u16; 16388],
    corners: &mut [u16; 300],
    row: &mut [u16; 640],
    path: &mut [u16; 8192],
    stood: &mut Stood,
    room: usize,
    bytes: &[u8],
    at: usize,
) -> Option<usize>
    requires { (at ≤ 60000) × (room ≤ 150) }
    ensures { IfSome result (λ place. place ≤ 60000) }
{
    let n = room * 2;
    let reply = run_record(
        table,
        strips,
        &mut corners[..n],
        &mut stood.sheet,
        0,
        bytes,
        at,
    );
    let want = plain_foil::record(row, path, &mut stood.foil, room, bytes, at);
    stood.point = next(stood.point);
    count_record(counts, want);
    if !agree(table, strips, corners, &reply, row, path, want, stood) {
        count(counts, DIFFERENT);
        return None;
    }
    let place = next_of(reply)?;
    if 60000 < place {
        return None;
    }
    between(counts, table, strips, corners, row, path, stood);
    Some(place)
}

// What comes between the records of a job that goes on: after every 16th a find and a book, and four times as often a
// join.
fn between(
    counts: &mut [u64; COUNTS],
    table: &mut [u16; 2565],
    strips: &mut [u16; 16388],
    corners: &mut [u16; 300],
    row: &mut [u16; 640],
    path: &mut [u16; 8192],
    stood: &mut Stood,
) {
    match counts[RUN] % 16 {
        0 => drawings::draw(counts, table, strips, corners, row, path, stood),
        2 | 6 | 10 | 14 => joins::join_point(counts, table, strips, corners, row, path, stood),
        _ => {}
    }
}

// Replays a job file, with so many corner places lent, up to its end or a difference.
fn replay(counts: &mut [u64; COUNTS], bytes: &[u8], room: usize, seed: u32)
    requires { room ≤ 150 }
{
    let mut table = [7u16; 2565];
    let mut strips = [7u16; 16388];
    let mut corners = [7u16; 300];
    let mut row = [0u16; 640];
    let mut path = [7u16; 8192];
    let mut stood = unbegun(seed);
    let mut at = 0;
    for _ in 0..RECORDS {
        let Some(place) = replay_one(
            counts,
            &mut table,
            &mut strips,
            &mut corners,
            &mut row,
            &mut path,
            &mut stood,
            room,
            bytes,
            at,
        ) else {
            return;
        };
        at = place;
    }
}

// Makes and replays the job files.
fn run(counts: &mut [u64; COUNTS]) {
    let mut seed: u32 = 1;
    for _ in 0..JOBS {
        let mut bytes = [0u8; 12000];
        let made = jobs::make(&mut bytes, seed);
        replay(counts, &bytes[..made.length], made.room, made.seed);
        seed = made.seed;
    }
}

// Writes a line: words, and a count.
fn print_line(words: &[u8], n: u64) {
    io::write_all(1, words);
    io::print_decimal(1, n);
    io::write_all(1, b"\n");
}

// Writes a line for each number that refused something: words, the number, and its count from a place on.
fn print_numbers(words: &[u8], counts: &[u64; COUNTS], from: usize)
    requires { from ≤ 28 }
{
    for k in 1..RUN {
        if counts[from + k] != 0 {
            io::write_all(1, words);
            io::print_decimal(1, k as u64);
            print_line(b": ", counts[from + k]);
        }
    }
}

fn main() {
    let mut counts = [0u64; COUNTS];
    run(&mut counts);
    print_line(b"random jobs: ", JOBS as u64);
    print_line(b"records: ", counts[RUN]);
    print_line(b"end marks: ", counts[ENDS]);
    print_line(b"steps accepted: ", counts[0]);
    print_line(b"tracks among them: ", counts[LAID]);
    print_line(b"paths found among them: ", counts[FOUND]);
    print_line(b"lists booked among them: ", counts[BOOKED]);
    print_line(b"joins among them: ", counts[JOINS]);
    print_numbers(b"refused by ", &counts, 0);
    print_numbers(b"joins refused by ", &counts, JOINS);
    print_line(b"different: ", counts[DIFFERENT]);
}
