// A question to the foil that a job leaves: the job file is read from standard input and run, and the answer's bytes
// are written.
ghost use Rattle.std.specs.Prelude.{◌+◌, ◌≤◌, ◌<◌, ◌≡◌, ◌++◌, length};
ghost use Rattle.foil_spec.specs.Limits.{max_bytes};
ghost use Rattle.foil_spec.specs.Text.{ascii};
ghost use Rattle.lines.specs.Lines.{item};
ghost use Rattle.putting.specs.Put.{Put};
ghost use Rattle.sheet_laws.specs.Jobs.{only_foil0};
ghost use Rattle.job_report.specs.Writing.{NextOf};
ghost use Rattle.job_end.specs.Asked.{foil_said, said_of, Holds};

use crate::{Ended, run_job};
use foil::Accepted;
use foil_spec::{Board, STRIPS_SIZE};
use io::{read_full, write_all};
use putting::{put_bytes, put_number};
use sheet::{save, slip};
use sheet_rows::{SHEET_SIZE, only_foil_0};
use slips::PAGE_SIZE;

// What is asked for: the foil's own job file, or its slip.
#[derive(Clone, Copy)]
pub enum Question {
    Save,
    Slip,
}

// As many bytes as the file of a foil with 128 legs has; a slip has more.
const FILE_SIZE: usize = 1420;

// Reads a job file from standard input into `bytes`, runs it, and writes the answer to standard output. Where the file
// is at fault, its board is refused or the question is, a line on standard error has the number, and nothing else is
// written.
pub fn answer_input(bytes: &mut [u8], question: Question)
    requires { max_bytes < length bytes.old }
{
    let n = read_full(0, bytes);
    answer_job(&bytes[..n], question);
}

// Runs a job file, and writes the answer; how many bytes that are.
fn answer_job(bytes: &[u8], question: Question) -> usize
    ensures { result ≡ length (said_of question bytes.now).bytes }
{
    let mut out = [0u8; PAGE_SIZE];
    let (fd, n) = put_said(&mut out, bytes, question);
    let mut written = 0;
    write_front(&mut written, fd, &out, n, bytes, question);
    written
}

// Runs a job file, and puts what is to be written at the front of a list: the answer at its end mark, or the line of a
// job that ended before it, `file N` or `board N`. The descriptor that it is for, and how many bytes it has.
fn put_said(out: &mut [u8; PAGE_SIZE], bytes: &[u8], question: Question) -> (i32, usize)
    ensures { Holds out.new result.0 result.1 (said_of question bytes.now) }
{
    let mut table = [0u16; SHEET_SIZE];
    let mut strips = [0u16; STRIPS_SIZE];
    match run_job(&mut table, &mut strips, bytes) {
        Ended::AtMark(board) => put_answer(out, &table, &strips, board, question),
        Ended::ByBoard(number) => (2, put_line(out, b"board", number)),
        Ended::ByFile(number) => (2, put_line(out, b"file", number)),
    }
}

// Asks foil 0 of a sheet else empty, and puts what is to be written at the front of a list: the answer's bytes, or the
// line of a refusal. The descriptor that it is for, and how many bytes it has.
fn put_answer(
    out: &mut [u8; PAGE_SIZE],
    table: &[u16; SHEET_SIZE],
    strips: &[u16; STRIPS_SIZE],
    board: Board,
    question: Question,
) -> (i32, usize)
    ensures { Holds out.new result.0 result.1 (foil_said question (only_foil0 board table.now strips.now)) }
{
    let sheet = only_foil_0(board);
    let (answer, word) = match question {
        Question::Save => (
            save(&mut out[..FILE_SIZE], table, strips, sheet, 0),
            b"save",
        ),
        Question::Slip => (slip(out, table, strips, sheet, 0), b"slip"),
    };
    match answer {
        Ok(accepted) => match accepted {
            Accepted::Wrote(n) => (1, n),
            // no save and no slip is accepted otherwise
            _ => (1, 0),
        },
        Err(refusal) => (2, put_line(out, word, refusal.number())),
    }
}

// Puts the line of a word and a number at the front of a list.
pub fn put_line(out: &mut [u8], word: &[u8], number: u8) -> usize
    requires { length word.now + 22 ≤ length out.old }
    ensures { Put out.old 0 (word.now ++ item number ++ ascii "\n")
        out.new result }
{
    let a = put_bytes(out, 0, word);
    let b = put_bytes(out, a, b" ");
    let c = put_number(out, b, u64::from(number));
    put_bytes(out, c, b"\n")
}

// Writes the first n bytes of a list, which are the next of those that are to be written there, and counts them.
fn write_front(
    written: &mut usize,
    fd: i32,
    list: &[u8],
    n: usize,
    bytes: &[u8],
    question: Question,
)
    requires fd_value { fd ≡ (said_of question bytes.now).fd }
    requires next_of { NextOf (said_of question bytes.now).bytes written.old list.now n }
    ensures { written.new ≡ written.old + n }
{
    write_all(fd, &list[..n]);
    *written += n;
}
