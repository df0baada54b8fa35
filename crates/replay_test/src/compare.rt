// The reply of run a record, compared with what the plain foil says.
use foil::{Accepted, Answer};
use foil_spec::{Reason, Refusal};
use job::{Answers, Progress, Reply};
use plain_foil::{Ran, Steps};

// Whether the refusal is for this reason.
pub(crate) fn is_for(refusal: Refusal, reason: Reason) -> bool {
    refusal == Refusal::from(reason)
}

// Whether a step that has no track was answered as it should be.
fn same_done(answer: Answer, want: Result<(), Reason>) -> bool {
    match answer {
        Err(refusal) => want.is_err_and(|reason| is_for(refusal, reason)),
        Ok(Accepted::Done) => want.is_ok(),
        Ok(_) => false,
    }
}

// Whether the answer is a refusal or a track with so many corners, as it should be.
pub(crate) fn same_laid(answer: Answer, want: Result<usize, Reason>) -> bool {
    match answer {
        Err(refusal) => want.is_err_and(|reason| is_for(refusal, reason)),
        Ok(Accepted::Laid(corners, bends)) => {
            bends == corners.saturating_sub(2) && want == Ok(corners)
        }
        Ok(_) => false,
    }
}

// Whether a step that a record may have was answered as it should be, and only if it should have been.
fn same_told<W: Drop, F: FnOnce(Answer, Result<W, Reason>) -> bool>(
    told: Option<Answer>,
    want: Option<Result<W, Reason>>,
    same: F,
) -> bool
    requires { F.IsAlwaysCallable same }
{
    match told {
        None => want.is_none(),
        Some(answer) => want.is_some_and(|due| same(answer, due)),
    }
}

// Whether the steps of a record that went on were answered as they should be.
fn same_steps(answers: Answers, want: Steps) -> bool {
    let board = if want.board { Some(Ok(())) } else { None };
    same_told(answers.board, board, same_done)
        && same_told(answers.patch, want.patch, same_done)
        && same_told(answers.track, want.track, same_laid)
        && same_told(answers.lift, want.lift, same_done)
        && same_told(answers.leg, want.leg, same_done)
}

// Whether a board was refused for this reason, and no other step was run.
fn is_over(answers: Answers, reason: Reason) -> bool {
    same_told(answers.board, Some(Err(reason)), same_done)
        && answers.patch.is_none()
        && answers.track.is_none()
        && answers.lift.is_none()
        && answers.leg.is_none()
}

// Whether a record was answered as it should be.
pub(crate) fn same_reply(reply: Reply, want: Result<Ran, Reason>) -> bool {
    match (reply, want) {
        (Err(refusal), Err(reason)) => is_for(refusal, reason),
        (Ok(Progress::AtEnd), Ok(Ran::AtEnd)) => true,
        (Ok(Progress::Ran(answers, next)), Ok(Ran::Over(reason))) => {
            next.is_none() && is_over(answers, reason)
        }
        (Ok(Progress::Ran(answers, next)), Ok(Ran::Went(steps))) => {
            next == Some(steps.next) && same_steps(answers, steps)
        }
        _ => false,
    }
}
