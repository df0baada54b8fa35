// What is written.
ghost use Rattle.std.specs.Prelude.{◌+◌, ◌≤◌};
ghost use Rattle.foil_spec.specs.Limits.{max_bytes};

use crate::run::{Ended, run_front};
use foil_spec::{Board, INPUT_SIZE, Refusal};

// Words, then a number.
pub(crate) fn count(words: &[u8], n: u64) {
    io::write_all(1, words);
    io::print_decimal(1, n);
}

// Ends a line.
pub(crate) fn end() {
    io::write_all(1, b"\n");
}

// A line of words and a number.
pub(crate) fn line(words: &[u8], n: usize) {
    count(words, n as u64);
    end();
}

// How many steps were accepted, and how many were refused by each number.
pub(crate) fn numbers(counts: &[u64; 32]) {
    count(b"accepted ", counts[0]);
    for k in 1..32 {
        if counts[k] != 0 {
            count(b", ", counts[k]);
            count(b" refused by ", k as u64);
        }
    }
}

// How a job ended.
pub(crate) fn ended(how: Result<Ended, Refusal>) {
    match how {
        Err(refusal) => count(b"; file ", u64::from(refusal.number())),
        Ok(Ended::ByBoard) => end_of_board(),
        Ok(Ended::AtMark(board)) => foil(board),
    }
}

// A job that its board has ended.
fn end_of_board() {
    io::write_all(1, b"; ended by its board");
}

// The foil after a job.
fn foil(board: Board) {
    count(b"; entries ", board.entries as u64);
    count(b", strips ", board.strips as u64);
}

// A line on the job file that the first n bytes are: what came of its steps, and how it ended.
pub(crate) fn job(words: &[u8], bytes: &[u8; INPUT_SIZE], n: usize)
    requires { n ≤ max_bytes + 1 }
{
    let mut counts = [0u64; 32];
    let how = run_front(&mut counts, bytes, n);
    io::write_all(1, words);
    numbers(&counts);
    ended(how);
    end();
}
