// The job file: the record that begins at a place of its bytes is checked, and its steps are run.
#![tactic(auto)]

mod checks;
mod fields;
mod running;

ghost use Rattle.std.specs.Prelude.{◌≡◌, ◌≤◌, ◌<◌};
ghost use Rattle.foil_spec.specs.Limits.{max_entries};
ghost use Rattle.foil_spec.specs.Lent.{lent};
ghost use Rattle.foil_spec.specs.Job.{step_bits, field as field_of};
ghost use Rattle.job.specs.Contract.{told_by_bits, next_in, RecordIn};
ghost use Rattle.job.specs.Parts.{Lends, Given};

use checks::record_refusal;
pub use fields::STEP_BITS;
use fields::field;
use foil::Answer;
use foil_spec::{Board, Refusal};
use running::run_steps;

// The answers of a record's steps, in bit order: none of a step that the record has not, or that was not run.
#[derive(Clone, Copy)]
pub struct Answers {
    pub board: Option<Answer>,
    pub patch: Option<Answer>,
    pub track: Option<Answer>,
    pub lift: Option<Answer>,
    pub leg: Option<Answer>,
}

// What the step of bit k told.
#[tactic(auto, unfolding(crate::specs::Contract::told_by_bits))]
pub fn told_by(answers: Answers, k: usize) -> Option<Answer>
    requires { k < step_bits }
    ensures { result ≡ told_by_bits answers k }
{
    match k {
        0 => answers.board,
        1 => answers.patch,
        2 => answers.track,
        3 => answers.lift,
        _ => answers.leg,
    }
}

// What a record comes to: each step's answer, and the place of the next record, none where the job has ended; or that
// the end mark was met.
#[derive(Clone, Copy)]
pub enum Progress {
    Ran(Answers, Option<usize>),
    AtEnd,
}

// What run a record answers: what the record came to, or why it is refused as a whole.
pub type Reply = Result<Progress, Refusal>;

// Where a job goes on after a record.
#[tactic(auto, unfolding(crate::specs::Contract::next_in))]
pub fn next_of(reply: Reply) -> Option<usize>
    ensures { result ≡ next_in reply }
{
    match reply {
        Ok(Progress::Ran(_, next)) => next,
        _ => None,
    }
}

// Runs the record that begins at place `at` of the job file's bytes, on a foil that may have so many
// entries. That 18, 12 and 13 do not refuse it is known.
pub fn run_record_in(
    table: &mut [u16],
    strips: &mut [u16],
    corners: &mut [u16],
    board: &mut Board,
    limit: usize,
    bytes: &[u8],
    at: usize,
) -> Reply
    requires lends { Lends bytes.now at (lent board.old table.old strips.old) }
    requires limit_le_max_entries { limit ≤ max_entries }
    ensures { RecordIn limit bytes.now at
        (lent board.old table.old strips.old) corners.old
        result board.new table.new strips.new corners.new }
{
    record_refusal(bytes, at)?;
    if bytes[at] == 0 {
        return Ok(Progress::AtEnd);
    }
    Ok(run_steps(table, strips, corners, board, limit, bytes, at))
}

// The net that the step of bit k of a record names, as its line repeats it: 2 lays a track of the net, 3
// lifts it, 4 puts a leg of it.
pub fn net_of(bytes: &[u8], at: usize, k: usize) -> u16
    requires { Given bytes.now at k 0 }
    ensures { result ≡ field_of bytes.now at k 0 }
{
    field(bytes, at, k, 0)
}
