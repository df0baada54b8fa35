// Steps made by records of a job file, and what such a record is answered.
ghost use Rattle.std.specs.Prelude.{◌≤◌};

use foil::Answer;
use job::{Answers, Progress, Reply};
use plain_sheet::{Asked, Kind, record_of};
use sheet::{Sheet, run_record};

// How many bytes the record of such a call has.
fn record_size(kind: Kind) -> usize
    ensures { result ≤ 11 }
{
    match kind {
        Kind::Draw => 9,
        Kind::Lift => 3,
        _ => 11,
    }
}

// The record at a place, and zeros.
fn placed(record: [u8; 11], at: usize) -> [u8; 12]
    requires { at ≤ 1 }
{
    let mut bytes = [0u8; 12];
    bytes[at..at + 11].copy_from_slice(&record);
    bytes
}

// Makes the call by its record, at the place 0 of its bytes for a new foil, else 1.
pub(crate) fn run(
    table: &mut [u16],
    strips: &mut [u16],
    corners: &mut [u16],
    sheet: &mut Sheet,
    asked: Asked,
) -> Option<Answer> {
    let kind = asked.kind;
    let at = if kind == Kind::New { 0 } else { 1 };
    let bytes = placed(record_of(asked), at);
    let reply = run_record(table, strips, corners, sheet, asked.foil, &bytes, at);
    answer_of(reply, kind, at + record_size(kind))
}

// What the one step of the record was answered, where the next place is this one; none where the reply is none to such
// a record.
fn answer_of(reply: Reply, kind: Kind, place: usize) -> Option<Answer> {
    match reply {
        Err(refusal) => Some(Err(refusal)),
        Ok(Progress::AtEnd) => None,
        Ok(Progress::Ran(answers, next)) => ran(answers, next, kind, place),
    }
}

// The answer of the one step that was run; a board that is refused ends the job.
fn ran(answers: Answers, next: Option<usize>, kind: Kind, place: usize) -> Option<Answer> {
    let answer = told_of(answers, kind)?;
    let over = kind == Kind::New && answer.is_err();
    if steps(answers) == 1 && next == (if over { None } else { Some(place) }) {
        Some(answer)
    } else {
        None
    }
}

// What a step of this kind was told.
fn told_of(answers: Answers, kind: Kind) -> Option<Answer> {
    match kind {
        Kind::New => answers.board,
        Kind::Draw => answers.patch,
        Kind::Lay => answers.track,
        Kind::Lift => answers.lift,
        _ => answers.leg,
    }
}

// How many steps were run.
fn steps(answers: Answers) -> usize {
    usize::from(answers.board.is_some())
        + usize::from(answers.patch.is_some())
        + usize::from(answers.track.is_some())
        + usize::from(answers.lift.is_some())
        + usize::from(answers.leg.is_some())
}
