// Job files: a file is put together by its lines, and run as the job program runs it, on foil 0 of a sheet with no
// other foil, or many times over.
use crate::reading::{Line, NUMBERS};
use crate::show;
use foil::Answer;
use foil_spec::{Board, CORNERS_SIZE, INPUT_SIZE, Refusal, STRIPS_SIZE};
use job::{Answers, Progress};
use job_report::{number_of, run_one};
use places::no_board;
use sheet_rows::SHEET_SIZE;

// Begins a file (26), or adds to it: a map byte and numbers of two bytes (27), or bytes (28). Where it ends then.
pub(crate) fn add(file: &mut [u8], end: usize, line: Line) -> usize {
    let numbers = line.numbers;
    let row = line.row;
    if row == 26 {
        return 0;
    }
    let mut at = end;
    for i in 0..line.count.min(NUMBERS) {
        let wide = row == 27 && 0 < i;
        at = with_number(file, at, numbers[i], wide);
    }
    at
}

// Puts a number, as one byte or as two, the low one first.
fn with_number(file: &mut [u8], at: usize, n: u16, wide: bool) -> usize {
    let low = (n % 256) as u8;
    let high = (n / 256) as u8;
    if wide {
        let next = with_byte(file, at, low);
        return with_byte(file, next, high);
    }
    with_byte(file, at, low)
}

// Puts a byte, if there is room.
fn with_byte(file: &mut [u8], at: usize, byte: u8) -> usize {
    if at < file.len() {
        file[at] = byte;
        return at + 1;
    }
    at
}

// How a job ended that no record as a whole was refused in: by its board, or by the end mark, with foil 0's record.
#[derive(Clone, Copy)]
enum Ended {
    ByBoard,
    AtMark(Board),
}

// The number of an end: 0 by the end mark, 1 by its board, or the number of a record as a whole.
fn end_number(how: Result<Ended, Refusal>) -> usize {
    match how {
        Err(refusal) => usize::from(refusal.number()),
        Ok(Ended::AtMark(_)) => 0,
        Ok(Ended::ByBoard) => 1,
    }
}

// Counts one more of this number.
fn count(counts: &mut [u64; 32], k: usize) {
    if k < 32 {
        counts[k] = counts[k].wrapping_add(1);
    }
}

// Counts the number of a step, if it was run.
fn count_step(counts: &mut [u64; 32], told: Option<Answer>) {
    if let Some(answer) = told {
        count(counts, usize::from(number_of(answer)));
    }
}

// Counts the numbers of a record's steps.
fn count_steps(counts: &mut [u64; 32], answers: Answers) {
    count_step(counts, answers.board);
    count_step(counts, answers.patch);
    count_step(counts, answers.track);
    count_step(counts, answers.lift);
    count_step(counts, answers.leg);
}

// Runs a job file and counts its steps by their numbers.
fn run(counts: &mut [u64; 32], bytes: &[u8]) -> Result<Ended, Refusal> {
    let mut table = [0u16; SHEET_SIZE];
    let mut strips = [0u16; STRIPS_SIZE];
    let mut corners = [0u16; CORNERS_SIZE];
    let mut board = no_board();
    let mut at: usize = 0;
    // More records than a file has that is not too long, and one call for its end.
    for _ in 0..INPUT_SIZE {
        match run_one(&mut table, &mut strips, &mut corners, &mut board, bytes, at) {
            Err(refusal) => return Err(refusal),
            Ok(Progress::AtEnd) => return Ok(Ended::AtMark(board)),
            Ok(Progress::Ran(answers, None)) => {
                count_steps(counts, answers);
                return Ok(Ended::ByBoard);
            }
            Ok(Progress::Ran(answers, Some(place))) => {
                count_steps(counts, answers);
                at = place;
            }
        }
    }
    Ok(Ended::ByBoard)
}

// Runs the first n bytes of a file, and counts how the job ended.
fn tally(ends: &mut [u64; 32], file: &[u8], n: usize) {
    let mut counts = [0u64; 32];
    let end = n.min(file.len());
    let how = run(&mut counts, &file[..end]);
    count(ends, end_number(how));
}

// Runs a file and writes its steps by their numbers, how it ended, and after the end mark what the foil holds.
pub(crate) fn job(bytes: &[u8]) {
    let mut counts = [0u64; 32];
    let how = run(&mut counts, bytes);
    show_end(how);
    show::counts(&counts);
}

// Writes how a job ended, and after the end mark what the foil holds.
fn show_end(how: Result<Ended, Refusal>) {
    match how {
        Err(refusal) => show::number(b" ended by ", u64::from(refusal.number())),
        Ok(Ended::ByBoard) => show::number(b" ended by ", 1),
        Ok(Ended::AtMark(board)) => {
            show::number(b" ended by ", 0);
            show::number(b", entries ", board.entries as u64);
            show::number(b" strips ", board.strips as u64);
        }
    }
}

// Runs each beginning of a file, and writes how many ended how.
pub(crate) fn cuts(file: &[u8]) {
    let mut ends = [0u64; 32];
    for n in 0..file.len() {
        tally(&mut ends, file, n);
    }
    tally(&mut ends, file, file.len());
    show::counts(&ends);
}

// Runs a file with each byte at a place, and writes how many ended how.
pub(crate) fn sweep(file: &mut [u8], at: usize) {
    let mut ends = [0u64; 32];
    if file.len() <= at {
        return;
    }
    let kept = file[at];
    for b in 0u16..256 {
        file[at] = b as u8;
        tally(&mut ends, file, file.len());
    }
    with_byte(file, at, kept);
    show::counts(&ends);
}
