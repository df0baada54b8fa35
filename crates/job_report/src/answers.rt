// The lines of the steps of a record, bit by bit.
ghost use Rattle.std.specs.Prelude.{◌≡◌, ◌+◌, ◌≤◌, ◌<◌, length};
ghost use Rattle.foil_spec.specs.Job.{step_bits, step_at};
ghost use Rattle.putting.specs.Put.{Put};
ghost use Rattle.job_report.specs.Told.{number_in, lay_line, told_line, answer_lines, bytes_below};
ghost use Rattle.job_report.specs.Told.{InList, FromBit, FromBits};

use foil::{Accepted, Answer};
use job::{Answers, net_of};
use lines::{board_line, leg_line, lift_line, patch_line, track_laid, track_refused};

// The number of a step's line: that of its refusal, 0 if it is accepted.
#[tactic(auto, unfolding(crate::specs::Told::number_in))]
pub fn number_of(answer: Answer) -> u8
    ensures { result ≡ number_in answer }
{
    match answer {
        Ok(_) => 0,
        Err(refusal) => refusal.number(),
    }
}

// The lines of all steps that were run, of the record at a place.
pub(crate) fn put_answers(
    out: &mut [u8],
    answers: Answers,
    corners: &[u16],
    bytes: &[u8],
    place: usize,
) -> usize
    requires in_bounds { 98624 ≤ length out.old }
    requires from_bits { FromBits bytes.now place corners.now answers }
    ensures { Put out.old 0
        (answer_lines bytes.now place corners.now answers) out.new result }
{
    let a = put_bit(out, 0, answers.board, corners, bytes, place, 0);
    let b = put_bit(out, a, answers.patch, corners, bytes, place, 1);
    let c = put_bit(out, b, answers.track, corners, bytes, place, 2);
    let d = put_bit(out, c, answers.lift, corners, bytes, place, 3);
    put_bit(out, d, answers.leg, corners, bytes, place, 4)
}

// The line of the step of bit k at place `at`, if the step was run, and the place after it: one arm a
// bit.
fn put_bit(
    out: &mut [u8],
    at: usize,
    told: Option<Answer>,
    corners: &[u16],
    bytes: &[u8],
    place: usize,
    k: usize,
) -> usize
    requires k_lt_step_bits { (k < step_bits) × (at ≤ bytes_below k) × (98624 ≤ length out.old) }
    requires from_bit { FromBit bytes.now place corners.now k told }
    ensures put { Put out.old at
        (told_line (step_at bytes.now place k) corners.now told) out.new result }
    ensures upper_bound { result ≤ bytes_below (k + 1) }
{
    let Some(answer) = told else {
        return at;
    };
    if k == 0 {
        return board_line(out, at, number_of(answer));
    }
    if k == 1 {
        return patch_line(out, at, number_of(answer));
    }
    if k == 2 {
        return put_track(out, at, answer, net_of(bytes, place, 2), corners);
    }
    if k == 3 {
        return lift_line(out, at, net_of(bytes, place, 3), number_of(answer));
    }
    leg_line(out, at, net_of(bytes, place, 4), number_of(answer))
}

// The line of a track, laid or refused.
fn put_track(out: &mut [u8], at: usize, answer: Answer, net: u16, corners: &[u16]) -> usize
    requires at_in_bounds { at + 98368 ≤ length out.old }
    requires in_list { InList corners.now answer }
    ensures put { Put out.old at (lay_line net corners.now answer) out.new result }
    ensures upper_bound { result ≤ at + 98368 }
{
    let Ok(accepted) = answer else {
        return track_refused(out, at, net, number_of(answer));
    };
    let Accepted::Laid(count, bends) = accepted else {
        return track_refused(out, at, net, 0);
    };
    track_laid(out, at, net, bends, corners, count)
}
