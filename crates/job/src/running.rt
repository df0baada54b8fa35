// The steps of a record that has passed its checks, bit by bit. A step that is refused by 1, 2 or 20
// ends the job, and none is run after it. The foil keeps the rules before every step but the board's, so
// that no step checks it again.
ghost use Rattle.std.specs.Prelude.{◌<◌, ◌≤◌, Some};
ghost use Rattle.foil_spec.specs.Limits.{max_entries};
ghost use Rattle.foil_spec.specs.Lent.{lent};
ghost use Rattle.foil_spec.specs.Job.{step_bits, as_step, step_at};
ghost use Rattle.foil.specs.Contract.{OutputIn};
ghost use Rattle.job.specs.Parts.{Ready, MayRun, BitReady, StepsDone, GoesOn, ToldMore, Ends};

use crate::fields::{MAP_BITS, STEP_BITS, clearance_of, field, fields_at, has, leg_of, point_of};
use crate::{Answers, Progress};
use foil::{Answer, draw_in, lift_in, new_foil_in, put_leg_in};
use foil_spec::Board;
use laying::lay_in;

// What the steps told so far, and whether the job has ended.
#[derive(Clone, Copy)]
struct Stepped {
    answers: Answers,
    ended: bool,
}

// Runs the steps of the record.
pub(crate) fn run_steps(
    table: &mut [u16],
    strips: &mut [u16],
    corners: &mut [u16],
    board: &mut Board,
    limit: usize,
    bytes: &[u8],
    at: usize,
) -> Progress
    requires ready { Ready bytes.now at (lent board.old table.old strips.old) }
    requires limit_le_max_entries { limit ≤ max_entries }
    ensures { StepsDone limit bytes.now at
        (lent board.old table.old strips.old) corners.old
        result board.new table.new strips.new corners.new }
{
    let mut so_far = Stepped {
        answers: Answers {
            board: None,
            patch: None,
            track: None,
            lift: None,
            leg: None,
        },
        ended: false,
    };
    for k in 0..STEP_BITS {
        so_far = run_bit(table, strips, corners, board, so_far, limit, bytes, at, k);
    }
    if so_far.ended {
        return Progress::Ran(so_far.answers, None);
    }
    Progress::Ran(so_far.answers, Some(fields_at(bytes, at, MAP_BITS)))
}

// Runs the step of bit k after those of the bits below it, if the record has it and the job has not
// ended.
fn run_bit(
    table: &mut [u16],
    strips: &mut [u16],
    corners: &mut [u16],
    board: &mut Board,
    before: Stepped,
    limit: usize,
    bytes: &[u8],
    at: usize,
    k: usize,
) -> Stepped
    requires may_run { MayRun bytes.now at k before.ended (lent board.old table.old strips.old) }
    requires limit_le_max_entries { limit ≤ max_entries }
    ensures { GoesOn limit bytes.now at k
        before board.old table.old strips.old corners.old
        result board.new table.new strips.new corners.new }
{
    if before.ended {
        return before;
    }
    if !has(bytes, at, k) {
        return before;
    }
    let answer = step_of(table, strips, corners, board, limit, bytes, at, k);
    let ended = ends_job(&answer);
    let answers = tell(before.answers, k, answer);
    Stepped { answers, ended }
}

// Does the step of bit k, which is set: one arm a bit.
fn step_of(
    table: &mut [u16],
    strips: &mut [u16],
    corners: &mut [u16],
    board: &mut Board,
    limit: usize,
    bytes: &[u8],
    at: usize,
    k: usize,
) -> Answer
    requires bit_ready { BitReady bytes.now at k (lent board.old table.old strips.old) }
    requires limit_le_max_entries { limit ≤ max_entries }
    ensures { OutputIn (as_step (step_at bytes.now at k)) limit
        (lent board.old table.old strips.old) corners.old
        result board.new table.new strips.new corners.new }
{
    match k {
        0 => {
            let w = field(bytes, at, 0, 0);
            let h = field(bytes, at, 0, 1);
            new_foil_in(table, strips, board, w, h, clearance_of(bytes, at))
        }
        1 => {
            let x0 = field(bytes, at, 1, 0);
            let y0 = field(bytes, at, 1, 1);
            let x1 = field(bytes, at, 1, 2);
            let y1 = field(bytes, at, 1, 3);
            draw_in(table, strips, board, limit, x0, y0, x1, y1)
        }
        2 => {
            let net = field(bytes, at, 2, 0);
            let from = point_of(bytes, at, 2, 1);
            let to = point_of(bytes, at, 2, 3);
            lay_in(table, strips, corners, board, limit, net, from, to)
        }
        3 => lift_in(table, strips, board, field(bytes, at, 3, 0)),
        _ => put_leg_in(table, strips, board, limit, leg_of(bytes, at)),
    }
}

// The answers, where bit k told this.
#[tactic(auto, unfolding(crate::specs::Contract::by_bit, crate::specs::Parts::told_with_more))]
fn tell(answers: Answers, k: usize, answer: Answer) -> Answers
    requires { k < step_bits }
    ensures { ToldMore answers k (Some answer) result }
{
    let told = Some(answer);
    match k {
        0 => Answers {
            board: told,
            ..answers
        },
        1 => Answers {
            patch: told,
            ..answers
        },
        2 => Answers {
            track: told,
            ..answers
        },
        3 => Answers {
            lift: told,
            ..answers
        },
        _ => Answers {
            leg: told,
            ..answers
        },
    }
}

// Whether an answer is a refusal by 1, 2 or 20.
fn ends_job(answer: &Answer) -> bool
    ensures { Ends answer.now result }
{
    match answer {
        Ok(_) => false,
        Err(refusal) => {
            let number = refusal.number();
            number == 1 || number == 2 || number == 20
        }
    }
}
