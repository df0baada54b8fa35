// The job program: reads a job file from standard input, and writes the lines of its records in turn.
#![tactic(auto)]

ghost use Rattle.std.specs.Prelude.{◌+◌, ◌<◌, ◌≡◌, length};
ghost use Rattle.foil_spec.specs.Limits.{max_bytes};
ghost use Rattle.lines.specs.Output.{output};
ghost use Rattle.job_report.specs.Writing.{NextOf};

use foil_spec::{CORNERS_SIZE, INPUT_SIZE, STRIPS_SIZE};
use job_report::{OUT_SIZE, report_record};
use places::no_board;
use sheet_rows::SHEET_SIZE;

fn main() {
    let mut bytes = [0u8; INPUT_SIZE];
    write_input(&mut bytes);
}

// Reads a job file from standard input into `bytes`, and writes its output.
fn write_input(bytes: &mut [u8])
    requires { max_bytes < length bytes.old }
{
    let n = io::read_full(0, bytes);
    write_job(&bytes[..n]);
}

// Runs the records of a job file in turn, on foil 0 of a sheet else empty, and writes the lines of each; how many bytes
// they are in all.
fn write_job(bytes: &[u8]) -> usize
    ensures { result ≡ length (output bytes.now) }
{
    let mut out = [0u8; OUT_SIZE];
    let mut table = [0u16; SHEET_SIZE];
    let mut strips = [0u16; STRIPS_SIZE];
    let mut corners = [0u16; CORNERS_SIZE];
    let mut board = no_board();
    let mut at: usize = 0;
    let mut written: usize = 0;
    // More records than a file has that is not too long, and one call for its end.
    for _ in 0..INPUT_SIZE {
        let done = report_record(
            &mut out,
            &mut table,
            &mut strips,
            &mut corners,
            &mut board,
            bytes,
            at,
        );
        write_front(&mut written, &out, done.size, bytes);
        let Some(place) = done.next else {
            return written;
        };
        at = place;
    }
    written
}

// Writes the first n bytes of a list, which are the next of the job's output, and counts them.
fn write_front(written: &mut usize, list: &[u8], n: usize, bytes: &[u8])
    requires { NextOf (output bytes.now) written.old list.now n }
    ensures { written.new ≡ written.old + n }
{
    io::write_all(1, &list[..n]);
    *written += n;
}
