// Runs the sample jobs (the folder `samples`) as the job program does, and holds what each one gives to its `.out`.
#![tactic(auto)]

ghost use Rattle.std.specs.Prelude.{◌+◌, ◌≤◌, length};
ghost use Rattle.io.specs.Counts.{IsPrefixLen};

use foil_spec::{CORNERS_SIZE, INPUT_SIZE, STRIPS_SIZE};
use job_report::{OUT_SIZE, report_record};
use places::no_board;
use putting::put_bytes;
use reading::read_full;
use sheet_rows::SHEET_SIZE;
use std::fs;
use std::rt::Files;

// How many bytes of what a job gives are as stored, before one is not; and whether that is all of both.
#[derive(Clone, Copy)]
struct Agreed {
    bytes: usize,
    all: bool,
}

fn main(rt: HostRuntime) {
    sample(&rt, b"board-clearance");
    sample(&rt, b"board-size");
    sample(&rt, b"bytes-after-end");
    sample(&rt, b"cut-short");
    sample(&rt, b"document-01");
    sample(&rt, b"full-table");
    sample(&rt, b"less-ink");
    sample(&rt, b"reader-keys");
    sample(&rt, b"reader-more");
    sample(&rt, b"reader-relaid");
    sample(&rt, b"refusals");
    sample(&rt, b"second-board");
    sample(&rt, b"too-fine");
    sample(&rt, b"too-long");
    sample(&rt, b"unknown-bit");
    sample(&rt, b"wide-pen");
    sample(&rt, b"window");
}

// Runs the job of a sample, and writes whether it gives just the bytes of the sample's `.out`.
fn sample(rt: &impl Files, name: &[u8])
    requires { length name.now ≤ 60 }
{
    let mut job = [0u8; INPUT_SIZE];
    let mut stored = [0u8; OUT_SIZE];
    let n = read(rt, &mut job, name, b".job");
    let m = read(rt, &mut stored, name, b".out");
    show(name, compare(&job[..n], &stored[..m]));
}

// Reads the file of a name and an ending to the front of a list; how many bytes are read.
fn read(rt: &impl Files, list: &mut [u8], name: &[u8], ending: &[u8]) -> usize
    requires { length name.now + length ending.now ≤ 64 }
    ensures { IsPrefixLen result list.new }
{
    let mut path = [0u8; 64];
    let a = put_bytes(&mut path, 0, name);
    let n = put_bytes(&mut path, a, ending);
    read_file(rt, list, &path[..n])
}

// Reads a file to the front of a list, and writes a line if it is not there; how many bytes are read.
fn read_file(rt: &impl Files, list: &mut [u8], path: &[u8]) -> usize
    ensures { IsPrefixLen result list.new }
{
    let Some(mut file) = open(rt, path) else {
        io::write_all(1, b"no ");
        io::write_all(1, path);
        io::write_all(1, b"\n");
        return 0;
    };
    read_full(&mut file, list)
}

// The file of that name, if it is there.
fn open<R: Files>(rt: &R, path: &[u8]) -> Option<R::File> {
    let text = std::str::from_utf8(path).ok()?;
    fs::open(rt, text).ok()
}

// Writes a line on a sample.
fn show(name: &[u8], agreed: Agreed) {
    io::write_all(1, name);
    io::write_all(1, b": ");
    io::print_decimal(1, agreed.bytes as u64);
    io::write_all(1, b" bytes as in ");
    io::write_all(1, name);
    io::write_all(1, b".out");
    if !agreed.all {
        io::write_all(1, b", and then others");
    }
    io::write_all(1, b"\n");
}

// Runs the records of a job file in turn, on foil 0 of a sheet else empty, and holds the lines of each to what is
// stored.
fn compare(bytes: &[u8], stored: &[u8]) -> Agreed {
    let mut out = [0u8; OUT_SIZE];
    let mut table = [0u16; SHEET_SIZE];
    let mut strips = [0u16; STRIPS_SIZE];
    let mut corners = [0u16; CORNERS_SIZE];
    let mut board = no_board();
    let mut at: usize = 0;
    let mut seen: usize = 0;
    // More records than a file has that is not too long, and one call for its end.
    for _ in 0..INPUT_SIZE {
        let done = report_record(
            &mut out,
            &mut table,
            &mut strips,
            &mut corners,
            &mut board,
            bytes,
            at,
        );
        let n = done.size;
        let k = alike(stored, seen, &out, n);
        seen += k;
        if k < n {
            return Agreed {
                bytes: seen,
                all: false,
            };
        }
        let Some(place) = done.next else {
            return Agreed {
                bytes: seen,
                all: seen == stored.len(),
            };
        };
        at = place;
    }
    Agreed {
        bytes: seen,
        all: false,
    }
}

// How many of the first n bytes of `out` are those of `stored` from place `at` on, before one is not.
fn alike(stored: &[u8], at: usize, out: &[u8; OUT_SIZE], n: usize) -> usize
    requires { (at ≤ length stored.now) × (n ≤ 131072) }
    ensures { at + result ≤ length stored.now }
{
    stored[at..]
        .iter()
        .zip(&out[..n])
        .take_while(|(a, b)| a == b)
        .count()
}
