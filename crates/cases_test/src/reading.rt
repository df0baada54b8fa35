// Reading a line: a word, or two, and then its numbers, parted by blanks, commas or slashes. A # ends it.
ghost use Rattle.std.specs.Prelude.{◌≤◌, length};

use crate::lists::size;

// How many numbers a line has at most.
pub(crate) const NUMBERS: usize = 256;

// How many words there are, and how many bytes a row of their table has.
const WORDS: usize = 35;

const ROW: usize = 16;

// A line as far as it is read: its letters as digits in base 32, its numbers, and whether the last byte was a digit,
// whether a minus stood before it, whether a # was met, and whether something was not understood.
#[derive(Clone, Copy)]
struct Reading {
    letters: u64,
    count: usize,
    numbers: [u16; NUMBERS],
    digit: bool,
    minus: bool,
    over: bool,
    bad: bool,
}

// A line: the row of its word, its numbers, and how many they are.
#[derive(Clone, Copy)]
pub(crate) struct Line {
    pub(crate) row: usize,
    pub(crate) count: usize,
    pub(crate) numbers: [u16; NUMBERS],
}

// Rows behind the table's: a line without a word, an unknown word, a byte that is not understood or a number past
// 65535, and too few numbers or too many.
pub(crate) const EMPTY: usize = 100;

pub(crate) const UNKNOWN: usize = 101;

pub(crate) const BAD: usize = 102;

pub(crate) const FEW: usize = 103;

pub(crate) const MANY: usize = 104;

// Reads the line from one place of a text to another.
pub(crate) fn read_line(text: &[u8], from: usize, to: usize) -> Line
    requires { to ≤ length text.now }
{
    let read = scan(text, from, to);
    let count = read.count;
    let numbers = read.numbers;
    Line {
        row: row_of(read.letters, count, read.bad),
        count,
        numbers,
    }
}

// The row of a line's word in the table of words: behind each stands how many numbers it has, at least and at most,
// where 9 is any number.
fn row_of(letters: u64, count: usize, bad: bool) -> usize {
    let words = b"\
        new           55\
        draw          55\
        leg           66\
        lift          22\
        book          29\
        lay           66\
        join          44\
        find          55\
        list          19\
        record        22\
        lookup        33\
        ohms          88\
        save          11\
        slip          11\
        carry         69\
        sheet         00\
        spoil table   29\
        spoil strips  39\
        spoil record  39\
        fill table    22\
        state         11\
        strips        11\
        table         00\
        job           00\
        cuts          00\
        sweep         11\
        file          00\
        map           19\
        bytes         19\
        lend table    11\
        lend strips   11\
        lend corners  11\
        lend answers  11\
        lend out      11\
        times         19";
    if bad {
        return BAD;
    }
    if letters == 0 && count == 0 {
        return EMPTY;
    }
    for i in 0..WORDS {
        let row = scan(words, i * ROW, i * ROW + ROW);
        if row.letters == letters {
            return counted(i, count, row.numbers[0]);
        }
    }
    UNKNOWN
}

// The row, if the line has as many numbers as its word asks for.
fn counted(row: usize, count: usize, asked: u16) -> usize {
    if count < (asked / 10) as usize {
        return FEW;
    }
    if asked % 10 != 9 && ((asked % 10) as usize) < count {
        return MANY;
    }
    row
}

// Reads bytes.
fn scan(text: &[u8], from: usize, to: usize) -> Reading
    requires { to ≤ length text.now }
{
    let mut read = Reading {
        letters: 0,
        count: 0,
        numbers: [0u16; NUMBERS],
        digit: false,
        minus: false,
        over: false,
        bad: false,
    };
    for i in from..to {
        read = with_byte(read, text[i]);
    }
    read
}

// With one byte more.
fn with_byte(read: Reading, byte: u8) -> Reading {
    let mut more = read;
    more.digit = false;
    more.minus = false;
    if read.over {
        return more;
    }
    match byte {
        b'0'..=b'9' => with_digit(read, (byte % 16) as u16),
        b'a'..=b'z' => with_letter(more, (byte % 32) as u64),
        b' ' | b',' | b'/' => more,
        b'-' => {
            more.minus = true;
            more
        }
        b'#' => {
            more.over = true;
            more
        }
        _ => {
            more.bad = true;
            more
        }
    }
}

// With a letter more: twelve have room, and none comes after a number.
fn with_letter(read: Reading, letter: u64) -> Reading {
    let mut more = read;
    more.letters = (read.letters % 36028797018963968 * 32).wrapping_add(letter);
    more.bad = read.bad || 0 < read.count;
    more
}

// With a digit more, of the last number or of one more.
fn with_digit(read: Reading, digit: u16) -> Reading {
    let mut more = read;
    let mut at = read.count;
    if read.digit {
        at = at.wrapping_sub(1);
    }
    if NUMBERS <= at {
        more.bad = true;
        return more;
    }
    let n = longer(read.numbers[at], digit, read.minus);
    more.numbers[at] = (n % 65536) as u16;
    more.bad = read.bad || 65535 < n;
    more.count = at + 1;
    more.digit = true;
    more
}

// A number with a digit more. Behind a minus it counts down from 65536.
fn longer(n: u16, digit: u16, minus: bool) -> usize {
    if minus {
        return (size(n) * 10 + 65536 - size(digit)) % 65536;
    }
    size(n) * 10 + size(digit)
}
