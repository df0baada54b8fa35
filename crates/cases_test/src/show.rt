// What is written.
ghost use Rattle.std.specs.Prelude.{◌≤◌};

use crate::reading::{BAD, FEW, UNKNOWN};
use foil::{Accepted, Answer};
use job::{Answers, Progress, Reply};
use ohms::Resistance;

// Words, and a number behind them.
pub(crate) fn number(words: &[u8], n: u64) {
    io::write_all(1, words);
    io::print_decimal(1, n);
}

// An answer: 0 or the number of a refusal, and what it carries.
pub(crate) fn answer(answer: Answer) {
    match answer {
        Err(refusal) => number(b" ", u64::from(refusal.number())),
        Ok(Accepted::Done) => number(b" ", 0),
        Ok(Accepted::Found(place)) => number(b" 0 strip ", place as u64),
        Ok(Accepted::Wrote(n)) => number(b" 0 wrote ", n as u64),
        Ok(Accepted::Laid(corners, bends)) => {
            number(b" 0 with ", bends as u64);
            number(b" bends ", corners as u64);
            io::write_all(1, b" corners");
        }
    }
}

// The reply to a record: where the next begins, and the answers of its steps.
pub(crate) fn reply(reply: Reply) {
    match reply {
        Err(refusal) => number(b" ", u64::from(refusal.number())),
        Ok(Progress::AtEnd) => number(b" end mark ", 0),
        Ok(Progress::Ran(answers, next)) => {
            place(next);
            steps(answers);
        }
    }
}

// Where the next record begins.
fn place(next: Option<usize>) {
    match next {
        Some(at) => number(b" 0 next ", at as u64),
        None => number(b" over ", 0),
    }
}

// The answers of a record's steps.
fn steps(answers: Answers) {
    step(b"; board", answers.board);
    step(b"; patch", answers.patch);
    step(b"; track", answers.track);
    step(b"; lift", answers.lift);
    step(b"; leg", answers.leg);
}

// The answer of a step, if the record has it.
fn step(name: &[u8], told: Option<Answer>) {
    if let Some(said) = told {
        io::write_all(1, name);
        answer(said);
    }
}

// A resistance as the bits of its f64, or the number of its refusal.
pub(crate) fn ohms(r: Resistance) {
    match r {
        Resistance::Refused(n) => number(b" ", u64::from(n)),
        Resistance::Ohms(x) => bits(x),
    }
}

// The bits of an f64.
fn bits(x: f64) {
    if !(x == x) {
        io::write_all(1, b" no number");
        return;
    }
    let pattern = f64::to_bits(x);
    io::write_all(1, b" 0 bits ");
    io::print_hex(1, pattern, 16);
}

// The numbers of a list from one place to another, so many to an item; a point is an item of two.
pub(crate) fn items(list: &[u16], from: usize, to: usize, of: usize)
    requires { 1 ≤ of }
{
    for i in from..to.min(list.len()) {
        between(of, (i - from) % of == 0);
        io::print_decimal(1, u64::from(list[i]));
    }
}

// What stands before a number of an item.
fn between(of: usize, first: bool) {
    if of == 2 && !first {
        io::write_all(1, b",");
        return;
    }
    if of != 2 && first {
        io::write_all(1, b" |");
    }
    io::write_all(1, b" ");
}

// How many items of a list there are up to the last that is not the one with which it was lent.
fn used<T: PartialEq + Copy>(list: &[T], unused: T) -> usize {
    for i in (0..list.len()).rev() {
        if list[i] != unused {
            return i + 1;
        }
    }
    0
}

// How many numbers of a list there are up to the last that is not 65535, with which it was lent.
pub(crate) fn written(list: &[u16]) -> usize {
    used(list, 65535)
}

// The points of a corner list that were written.
pub(crate) fn points(corners: &[u16]) {
    let n = written(corners);
    if n != 0 {
        io::write_all(1, b":");
        items(corners, 0, n, 2);
    }
}

// Whether the numbers of a list from one place to another are all the same as n.
pub(crate) fn all_are(list: &[u16], from: usize, to: usize, n: u16) -> bool {
    for i in from..to.min(list.len()) {
        if list[i] != n {
            return false;
        }
    }
    true
}

// Counts by number.
pub(crate) fn counts(counts: &[u64; 32]) {
    for k in 0..32 {
        if counts[k] != 0 {
            number(b" | ", counts[k]);
            number(b" by ", k as u64);
        }
    }
}

// The bytes of a page up to the last that is not the stop with which it was lent: as text, or in two digits each.
pub(crate) fn page(out: &[u8], text: bool) {
    let n = used(out, b'.').min(out.len());
    if n == 0 {
        return;
    }
    if text {
        io::write_all(1, b"\n");
        io::write_all(1, &out[..n]);
        return;
    }
    io::write_all(1, b" ");
    for i in 0..n {
        io::print_hex(1, u64::from(out[i]), 2);
    }
}

// The entries of a table in so many numbers, and whether those behind them are as they are to be.
pub(crate) fn table(list: &[u16], n: usize) {
    number(b" ", n as u64 / 5);
    items(list, 0, n, 5);
    if !all_are(list, n, 2560, 0) {
        io::write_all(1, b"; unused not zero");
    }
    if !all_are(list, 2560, 2565, 7) {
        io::write_all(1, b"; past not seven");
    }
}

// What is wrong with a line.
pub(crate) fn fault(row: usize) {
    match row {
        UNKNOWN => io::write_all(1, b": unknown word\n"),
        BAD => io::write_all(1, b": not understood\n"),
        FEW => io::write_all(1, b": a number is missing\n"),
        _ => io::write_all(1, b": a number too many\n"),
    };
}
