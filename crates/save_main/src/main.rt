// The foil that a job leaves, saved: reads a job file from standard input, runs it, and writes the foil's
// own job file to standard output. Where the file is at fault, its board is refused or the save is, a
// line on standard error has the number, and nothing else is written.
#![tactic(auto)]

use foil_spec::INPUT_SIZE;
use job_end::{Question, answer_input};

fn main() {
    let mut bytes = [0u8; INPUT_SIZE];
    answer_input(&mut bytes, Question::Save);
}
