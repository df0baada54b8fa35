// A job file run to its end without its lines: how many steps were accepted and refused by each number, and how it
// ended.
ghost use Rattle.std.specs.Prelude.{◌<◌, ◌≤◌, length};

use foil::Answer;
use foil_spec::{Board, CORNERS_SIZE, INPUT_SIZE, Refusal, STRIPS_SIZE};
use job::{Answers, Progress};
use job_report::{number_of, run_one};
use places::no_board;
use sheet_rows::SHEET_SIZE;

// How a job ended that no record as a whole was refused in: by its board, or by the end mark, with the board's record.
#[derive(Clone, Copy)]
pub(crate) enum Ended {
    ByBoard,
    AtMark(Board),
}

// Adds one to the count of a step's number, if the step was run.
fn count(counts: &mut [u64; 32], told: Option<Answer>) {
    let Some(answer) = told else {
        return;
    };
    let k = usize::from(number_of(answer));
    if k < 32 {
        counts[k] = counts[k].wrapping_add(1);
    }
}

// Counts the steps of a record.
fn count_steps(counts: &mut [u64; 32], answers: Answers) {
    count(counts, answers.board);
    count(counts, answers.patch);
    count(counts, answers.track);
    count(counts, answers.lift);
    count(counts, answers.leg);
}

// Runs a job file and counts its steps by their numbers.
pub(crate) fn run(counts: &mut [u64; 32], bytes: &[u8]) -> Result<Ended, Refusal> {
    let mut table = [0u16; SHEET_SIZE];
    let mut strips = [0u16; STRIPS_SIZE];
    let mut corners = [0u16; CORNERS_SIZE];
    let mut board = no_board();
    let mut at: usize = 0;
    // More records than a file has that is not too long, and one call for its end.
    for _ in 0..INPUT_SIZE {
        match run_one(&mut table, &mut strips, &mut corners, &mut board, bytes, at) {
            Err(refusal) => return Err(refusal),
            Ok(Progress::AtEnd) => return Ok(Ended::AtMark(board)),
            Ok(Progress::Ran(answers, None)) => {
                count_steps(counts, answers);
                return Ok(Ended::ByBoard);
            }
            Ok(Progress::Ran(answers, Some(place))) => {
                count_steps(counts, answers);
                at = place;
            }
        }
    }
    Ok(Ended::ByBoard)
}

// Runs the first n bytes of a list as a job file.
pub(crate) fn run_front(counts: &mut [u64; 32], bytes: &[u8], n: usize) -> Result<Ended, Refusal>
    requires { n ≤ length bytes.now }
{
    run(counts, &bytes[..n])
}
