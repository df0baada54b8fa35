// The reply to a record of a job file as numbers, for programs in C.
ghost use Rattle.std.specs.Prelude.{◌≡◌};
ghost use Rattle.host.specs.Records.{step_said_of, ran_said, record_said_of};

use crate::said::{NOTHING_SAID, Said, said_of};
use foil::Answer;
use job::{Answers, Progress, Reply};

// A step of a record: whether it was run, and its answer as numbers, zeros if it was not.
#[repr(C)]
#[derive(Clone, Copy)]
pub struct StepSaid {
    pub ran: bool,
    pub said: Said,
}

// A reply as numbers: the number that refuses the record as a whole, 0 for none; whether it was the end
// mark; each step; whether the job goes on, and the next record's place.
#[repr(C)]
#[derive(Clone, Copy)]
pub struct RecordSaid {
    pub number: u8,
    pub end: bool,
    pub board: StepSaid,
    pub patch: StepSaid,
    pub track: StepSaid,
    pub lift: StepSaid,
    pub leg: StepSaid,
    pub more: bool,
    pub next: usize,
}

// No step was run.
const NO_ANSWERS: Answers = Answers {
    board: None,
    patch: None,
    track: None,
    lift: None,
    leg: None,
};

// The numbers of a reply.
#[tactic(auto, unfolding(crate::specs::Records::record_said_of))]
pub fn record_said_of(reply: Reply) -> RecordSaid
    ensures { result ≡ record_said_of reply }
{
    match reply {
        Err(refusal) => ran_said(refusal.number(), false, NO_ANSWERS, None),
        Ok(Progress::Ran(answers, next)) => ran_said(0, false, answers, next),
        Ok(Progress::AtEnd) => ran_said(0, true, NO_ANSWERS, None),
    }
}

// The numbers of a reply with these answers.
#[tactic(auto, unfolding(crate::specs::Records::ran_said, crate::specs::Records::goes_on, crate::specs::Records::place_next))]
fn ran_said(number: u8, end: bool, answers: Answers, next: Option<usize>) -> RecordSaid
    ensures { result ≡ ran_said number end answers next }
{
    RecordSaid {
        number,
        end,
        board: step_said_of(answers.board),
        patch: step_said_of(answers.patch),
        track: step_said_of(answers.track),
        lift: step_said_of(answers.lift),
        leg: step_said_of(answers.leg),
        more: next.is_some(),
        next: next.unwrap_or(0),
    }
}

// The numbers of a step.
#[tactic(auto, unfolding(crate::specs::Records::step_said_of))]
fn step_said_of(told: Option<Answer>) -> StepSaid
    ensures { result ≡ step_said_of told }
{
    match told {
        None => StepSaid {
            ran: false,
            said: NOTHING_SAID,
        },
        Some(answer) => StepSaid {
            ran: true,
            said: said_of(answer),
        },
    }
}
