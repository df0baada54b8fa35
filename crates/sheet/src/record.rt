// Running a record of a job file on a foil of a sheet.
ghost use Rattle.std.specs.Prelude.{◌≡◌};
ghost use Rattle.sheet_rows.specs.Rows.{sheet_lent};
ghost use Rattle.sheet.specs.Contract.{Continues, SheetRecordDone};
ghost use Rattle.sheet.specs.Parts.{took as is_taken, some_took, took_any};

use crate::checks::{check_for_record, lend_for_record};
use crate::finishing::close;
use foil::Answer;
use foil_spec::TABLE_SIZE;
use job::{Answers, Progress, Reply, run_record_in};
use sheet_rows::{Sheet, limit};

// Runs the record that begins at place `at` of the job file's bytes on foil k.
pub fn run_record(
    table: &mut [u16],
    strips: &mut [u16],
    corners: &mut [u16],
    sheet: &mut Sheet,
    k: usize,
    bytes: &[u8],
    at: usize,
) -> Reply
    ensures { SheetRecordDone k bytes.now at
        (sheet_lent sheet.old.boards table.old strips.old) corners.old
        result sheet.new table.new strips.new corners.new }
{
    check_for_record(table, strips, *sheet, k, bytes, at)?;
    continue_job(table, strips, corners, sheet, k, bytes, at)
}

// The same where the record begins the job, or the foil is known to keep the rules, as each record of a job leaves it
// for the next: the foil is not checked again.
pub fn continue_job(
    table: &mut [u16],
    strips: &mut [u16],
    corners: &mut [u16],
    sheet: &mut Sheet,
    k: usize,
    bytes: &[u8],
    at: usize,
) -> Reply
    requires { Continues k at (sheet_lent sheet.old.boards table.old strips.old) }
    ensures { SheetRecordDone k bytes.now at
        (sheet_lent sheet.old.boards table.old strips.old) corners.old
        result sheet.new table.new strips.new corners.new }
{
    let mut rows = [0u16; TABLE_SIZE];
    let mut board = lend_for_record(&mut rows, table, strips, *sheet, k, bytes)?;
    let most = limit(*sheet, k);
    let reply = run_record_in(&mut rows, strips, corners, &mut board, most, bytes, at);
    close(table, &rows, sheet, k, board, took_any(&reply));
    reply
}

// Whether a step of the record was accepted.
#[tactic(auto, unfolding(crate::specs::Parts::took_any))]
fn took_any(reply: &Reply) -> bool
    ensures { result ≡ took_any reply.now }
{
    match reply {
        Ok(Progress::Ran(answers, _)) => some_took(answers),
        _ => false,
    }
}

// The same by the steps' answers.
#[tactic(auto, unfolding(crate::specs::Parts::some_took))]
fn some_took(answers: &Answers) -> bool
    ensures { result ≡ some_took answers.now }
{
    took(&answers.board)
        || took(&answers.patch)
        || took(&answers.track)
        || took(&answers.lift)
        || took(&answers.leg)
}

// Whether a step was run and accepted.
#[tactic(auto, unfolding(crate::specs::Parts::took))]
fn took(told: &Option<Answer>) -> bool
    ensures { result ≡ is_taken told.now }
{
    matches!(told, Some(Ok(_)))
}
