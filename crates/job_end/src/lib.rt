// The foil that a job leaves: the records of a job file are run in turn on foil 0 of a sheet else empty, without their
// lines, for programs that ask something of the foil at its end. `asking` asks for what is one step of a sheet, and
// writes its answer.
#![tactic(auto)]

mod asking;

ghost use Rattle.std.specs.Prelude.{◌≡◌};
ghost use Rattle.foil_spec.specs.Sheet.{no_board};
ghost use Rattle.sheet_laws.specs.Jobs.{only_foil0};
ghost use Rattle.job_end.specs.Left.{JobLeft};
ghost use Rattle.job_end.specs.Parts.{number_told};

pub use asking::{Question, answer_input, put_line};
use foil_spec::{Board, CORNERS_SIZE, INPUT_SIZE, STRIPS_SIZE};
use job::{Answers, Progress};
use job_report::{number_of, run_one};
use places::no_board;
use sheet_rows::SHEET_SIZE;

// How a job ended: at its end mark, with foil 0's record; or by the number of its board, or of the file as a whole.
#[derive(Clone, Copy)]
pub enum Ended {
    AtMark(Board),
    ByBoard(u8),
    ByFile(u8),
}

// Runs a job file on foil 0 of a sheet on which no foil is begun, and leaves the sheet's table and the foil's strips in
// the lists.
pub fn run_job(
    table: &mut [u16; SHEET_SIZE],
    strips: &mut [u16; STRIPS_SIZE],
    bytes: &[u8],
) -> Ended
    ensures { JobLeft bytes.now (only_foil0 no_board table.old strips.old)
        result table.new strips.new }
{
    let mut corners = [0u16; CORNERS_SIZE];
    let mut board = no_board();
    let mut at: usize = 0;
    // More records than a file has that is not too long, and one call for its end.
    for _ in 0..INPUT_SIZE {
        match run_one(table, strips, &mut corners, &mut board, bytes, at) {
            Err(refusal) => return Ended::ByFile(refusal.number()),
            Ok(Progress::AtEnd) => return Ended::AtMark(board),
            Ok(Progress::Ran(answers, None)) => return Ended::ByBoard(board_number(answers)),
            Ok(Progress::Ran(_, Some(place))) => at = place,
        }
    }
    // No job comes here: each record takes a byte, and a file that is too long is refused by the first call.
    Ended::ByFile(18)
}

// The number of a record's board, 0 if it is accepted.
#[tactic(auto, unfolding(crate::specs::Parts::number_told))]
fn board_number(answers: Answers) -> u8
    ensures { result ≡ number_told answers.board }
{
    match answers.board {
        Some(answer) => number_of(answer),
        None => 0,
    }
}
