// The ohms of a job's tracks. Reads the ink's three figures from standard input (the bits of an f64 each,
// 8 bytes, low byte first), then a job file; runs the job, and writes a line for each net on the foil
// that it leaves, nets rising.
#![tactic(auto)]

mod figures;
mod show;

ghost use Rattle.std.specs.Prelude.{◌+◌, ◌≤◌, ◌<◌, ◌≡◌, length};
ghost use Rattle.foil_spec.specs.Limits.{max_bytes};
ghost use Rattle.putting.specs.Put.{Put};
ghost use Rattle.sheet_laws.specs.Jobs.{only_foil0};
ghost use Rattle.job_report.specs.Writing.{NextOf};
ghost use Rattle.job_end.specs.Asked.{Reached};
ghost use Rattle.ohms_main.specs.Printed.{line_on, ohms_output};

use figures::ink_of;
use foil_spec::{Board, INPUT_SIZE, Ink, MAX_ENTRIES, STRIPS_SIZE};
use job_end::{Ended, put_line, run_job};
use sheet::ohms;
use sheet_rows::{SHEET_SIZE, only_foil_0};
use show::put_net;
use tables::in_use;

fn main() {
    let mut given = [0u8; 24];
    io::read_full(0, &mut given);
    let mut bytes = [0u8; INPUT_SIZE];
    write_input(&given, &mut bytes);
}

// Reads a job file into `bytes`, and writes its ohms.
fn write_input(given: &[u8; 24], bytes: &mut [u8])
    requires { max_bytes < length bytes.old }
{
    let n = io::read_full(0, bytes);
    write_job(&bytes[..n], given);
}

// Runs a job file, and writes the ohms of each net on the foil at its end mark, or the line of a job that ended before
// it; how many bytes that are.
fn write_job(bytes: &[u8], given: &[u8; 24]) -> usize
    ensures { result ≡ length (ohms_output given.now bytes.now) }
{
    let mut table = [0u16; SHEET_SIZE];
    let mut strips = [0u16; STRIPS_SIZE];
    let mut line = [0u8; 32];
    let mut written = 0;
    let n = match run_job(&mut table, &mut strips, bytes) {
        Ended::AtMark(board) => {
            write_nets(&mut written, &table, &strips, board, bytes, given);
            return written;
        }
        Ended::ByBoard(number) => put_line(&mut line, b"board", number),
        Ended::ByFile(number) => put_line(&mut line, b"file", number),
    };
    write_front(&mut written, &line, n, bytes, given);
    written
}

// Writes the ohms of each net on foil 0 of a sheet else empty, and counts their bytes.
fn write_nets(
    written: &mut usize,
    table: &[u16; SHEET_SIZE],
    strips: &[u16; STRIPS_SIZE],
    board: Board,
    bytes: &[u8],
    given: &[u8; 24],
)
    requires written_value { written.old ≡ 0 }
    requires reached { Reached bytes.now board table.now strips.now }
    ensures { written.new ≡ length (ohms_output given.now bytes.now) }
{
    for k in 0..999 {
        let mut line = [0u8; 64];
        let n = put_ohms_of(&mut line, table, strips, board, k + 1, ink_of(given));
        write_front(written, &line, n, bytes, given);
    }
}

// Puts the line of a net at the front of a list, if it is on the foil, whose entries come first. The places after the
// last one are of net 0.
fn put_ohms_of(
    out: &mut [u8; 64],
    table: &[u16; SHEET_SIZE],
    strips: &[u16; STRIPS_SIZE],
    board: Board,
    net: u16,
    ink: Ink,
) -> usize
    ensures put { Put out.old 0 (line_on ink (only_foil0 board table.now strips.now) net) out.new result }
    ensures upper_bound { result ≤ 64 }
{
    if !in_use(table, MAX_ENTRIES, net) {
        return 0;
    }
    let answer = ohms(table, strips, only_foil_0(board), 0, net, ink);
    put_net(out, net, answer)
}

// Writes the first n bytes of a list, which are the next of those that are to be written, and counts them.
fn write_front(written: &mut usize, list: &[u8], n: usize, bytes: &[u8], given: &[u8; 24])
    requires { NextOf (ohms_output given.now bytes.now) written.old list.now n }
    ensures { written.new ≡ written.old + n }
{
    io::write_all(1, &list[..n]);
    *written += n;
}
