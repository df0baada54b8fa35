// A job file, record by record: the record at a place is run on foil 0 of a sheet else empty, and its lines are written
// to the front of a lent list of bytes. Whoever writes out what each call gave, from place 0 on, writes the job's
// output. A record is run at place 0, or on a foil that keeps the rules, as the record before it has left it; so none
// checks the foil again.
#![tactic(auto)]

mod answers;
mod strip_lines;

ghost use Rattle.std.specs.Prelude.{◌≡◌, ◌≤◌};
ghost use Rattle.sheet_laws.specs.Jobs.{only_foil0};
ghost use Rattle.job_report.specs.Report.{MayCome, RecordRan, RecordReported};

pub use answers::number_of;
use answers::put_answers;
use foil_spec::{Board, CORNERS_SIZE, STRIPS_SIZE};
use job::{Progress, Reply};
use lines::file_line;
use sheet::continue_job;
use sheet_rows::{SHEET_SIZE, board_at, only_foil_0};
use strip_lines::put_strips;

// How many bytes the lines of a record may take.
pub const OUT_SIZE: usize = 131072;

// How many bytes a record's lines take, and the place of the next record, if there is one.
#[derive(Clone, Copy)]
pub struct Reported {
    pub size: usize,
    pub next: Option<usize>,
}

// Runs the record that begins at place `at` of the job file's bytes on foil 0 of a sheet else empty, on lists as long
// as documents 01 and 02 ask and with 8,192 corner places, and writes its lines to the front of `out`.
pub fn report_record(
    out: &mut [u8; OUT_SIZE],
    table: &mut [u16; SHEET_SIZE],
    strips: &mut [u16; STRIPS_SIZE],
    corners: &mut [u16; CORNERS_SIZE],
    board: &mut Board,
    bytes: &[u8],
    at: usize,
) -> Reported
    requires { MayCome at board.old table.old strips.old }
    ensures record_reported { RecordReported bytes.now at
        (only_foil0 board.old table.old strips.old) corners.old
        out.old out.new result
        board.new table.new strips.new corners.new }
    ensures size_bound { result.size ≤ 131072 }
{
    match run_one(table, strips, corners, board, bytes, at) {
        Err(refusal) => ended(file_line(out, 0, refusal.number())),
        Ok(Progress::Ran(answers, next)) => Reported {
            size: put_answers(out, answers, corners, bytes, at),
            next,
        },
        Ok(Progress::AtEnd) => ended(put_strips(out, strips, board.strips)),
    }
}

// Runs the record that begins at place `at` so, without its lines.
pub fn run_one(
    table: &mut [u16; SHEET_SIZE],
    strips: &mut [u16; STRIPS_SIZE],
    corners: &mut [u16; CORNERS_SIZE],
    board: &mut Board,
    bytes: &[u8],
    at: usize,
) -> Reply
    requires { MayCome at board.old table.old strips.old }
    ensures { RecordRan bytes.now at
        (only_foil0 board.old table.old strips.old) corners.old
        result board.new table.new strips.new corners.new }
{
    let mut sheet = only_foil_0(*board);
    let reply = continue_job(table, strips, corners, &mut sheet, 0, bytes, at);
    *board = board_at(sheet, 0);
    reply
}

// A record after which the job has ended.
fn ended(size: usize) -> Reported
    ensures { result ≡ record { size = size; next = None } }
{
    Reported { size, next: None }
}
