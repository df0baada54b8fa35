// Plays cases: each line of standard input is a call in words, and is written again with what came of it below: the
// answer, 0 or the number of a refusal, what it carries, and which of the record, the table and the strips are new.
//   sheet                                      a sheet of which no foil is begun; its strip lists hold sevens
//   new k w h half gap    draw k x0 y0 x1 y1   leg k net x0 y0 x1 y1    lift k net    book k net x,y x,y ..
//   lay k net sx,sy tx,ty    join k net sx,sy    find k sx,sy tx,ty    lookup k x,y    list k net sx,sy tx,ty net ..
//   save k    slip k    ohms k net R w c       each figure is a fraction, as 1/2; 0/0 is no number, 1/0 infinite
//   record k at                                runs the record at a place of the file
//   carry 0 w h reach entries strips ..        carries a foil of document 01 over: its numbers stand behind its counts
//   state k    strips k    table               write a foil's record and strips, and the entries of all foils
// A number too few, too many or not understood, or an unknown word, is a fault, and nothing is done. Before a call,
//   lend table n                               lends it so many numbers of a list: table, strips, corners, answers, out
//   times n a b ..                             plays the line n times, its numbers growing by a, b, .. each time
// From outside, numbers are put into a list from a place on:
//   spoil table at n ..    spoil strips k at n ..    spoil record k at n ..    fill table at n
// A job file begins by `file`, and goes on by `map m n ..`, a map byte and numbers of two bytes, and by `bytes b ..`.
//   job           runs it as the job program does: how it ended (0 by the end mark, 1 by its board), and how many steps
//                 had which number
//   cuts          runs each beginning of it, and sweep at   runs it with each byte at a place: how many ended how
// Corner lists and answers are lent full of 65535, pages full of stops; what is written to them is shown up to the last
// number or byte that is another. Behind a # is a remark.
#![tactic(auto)]

mod calls;
mod jobs;
mod lists;
mod reading;
mod show;

ghost use Rattle.std.specs.Prelude.{◌≤◌, length};

use lists::{ALL_LENT, CORNERS, FILE, LIST, RECORDS, STRIPS, TABLE, size};
use reading::{Line, NUMBERS};

// What is kept from line to line: the line's number, how many bytes the file has, how much of each list the next call
// is lent, how often the next line is played, and by how much its numbers grow from one time to the next.
#[derive(Clone, Copy)]
struct Player {
    line: usize,
    file: usize,
    lent: [usize; 5],
    times: usize,
    growth: [u16; NUMBERS],
}

fn main() {
    let mut text = [0u8; 131072];
    read_text(&mut text);
}

// Reads the text, and plays it.
fn read_text(text: &mut [u8]) {
    let n = io::read_full(0, text);
    play(&text[..n]);
}

// Plays the lines of the text in turn.
fn play(text: &[u8]) {
    let mut records = [0u16; RECORDS];
    let mut table = [0u16; TABLE];
    let mut strips = [0u16; STRIPS];
    let mut file = [0u8; FILE];
    let mut old_records = [0u16; RECORDS];
    let mut old_table = [0u16; TABLE];
    let mut old_strips = [0u16; STRIPS];
    let lent = ALL_LENT;
    let growth = [0u16; NUMBERS];
    let mut player = Player {
        line: 0,
        file: 0,
        lent,
        times: 1,
        growth,
    };
    let mut from: usize = 0;
    for at in 0..text.len() {
        let ends = text[at] == b'\n';
        if ends {
            let line = show_line(text, from, at);
            player = rounds(
                &mut records,
                &mut table,
                &mut strips,
                &mut file,
                player,
                line,
            );
            if line.row <= 19 {
                news(
                    &records,
                    &mut old_records,
                    &table,
                    &mut old_table,
                    &strips,
                    &mut old_strips,
                    line,
                );
            }
            if line.row <= 25 {
                io::write_all(1, b"\n");
            }
        }
        from = start_after(ends, from, at + 1);
    }
}

// Where the line begins that the next byte is in.
fn start_after(ends: bool, from: usize, next: usize) -> usize
    requires { from ≤ next }
    ensures { result ≤ next }
{
    if ends {
        return next;
    }
    from
}

// Writes a line of the text, and reads it.
fn show_line(text: &[u8], from: usize, to: usize) -> Line
    requires { (from ≤ to) × (to ≤ length text.now) }
{
    io::write_all(1, &text[from..to]);
    io::write_all(1, b"\n");
    reading::read_line(text, from, to)
}

// Plays a line as often as it is to be.
fn rounds(
    records: &mut [u16; RECORDS],
    table: &mut [u16; TABLE],
    strips: &mut [u16; STRIPS],
    file: &mut [u8; FILE],
    player: Player,
    line: Line,
) -> Player {
    let growth = player.growth;
    let mut next = player;
    let mut grown = line;
    next.times = 1;
    next.line = player.line.wrapping_add(1);
    for _ in 0..player.times.min(65535) {
        next = turn(records, table, strips, file, next, grown);
        grown = grow(grown, growth);
    }
    next
}

// The line with its numbers grown: the first by the second number of a line `times`, and so on.
fn grow(line: Line, growth: [u16; NUMBERS]) -> Line {
    let mut grown = line;
    for i in 0..8 {
        grown.numbers[i] = line.numbers[i].wrapping_add(growth[i + 1]);
    }
    grown
}

// Does what a line says.
fn turn(
    records: &mut [u16; RECORDS],
    table: &mut [u16; TABLE],
    strips: &mut [u16; STRIPS],
    file: &mut [u8; FILE],
    player: Player,
    line: Line,
) -> Player {
    let mut next = player;
    let row = line.row;
    if row <= 14 {
        call(records, table, strips, file, player, line);
        let all = ALL_LENT;
        next.lent = all;
        return next;
    }
    if row <= 19 {
        spoil(records, table, strips, line);
        return next;
    }
    if row <= 22 {
        state(records, table, strips, line);
        return next;
    }
    if row <= 25 {
        run_file(file, player.file, line);
        return next;
    }
    if row <= 28 {
        next.file = jobs::add(file, player.file, line);
        return next;
    }
    told(player, line)
}

// Makes the call of a line, with a corner list of its own.
fn call(
    records: &mut [u16; RECORDS],
    table: &mut [u16; TABLE],
    strips: &mut [u16; STRIPS],
    file: &[u8],
    player: Player,
    line: Line,
) {
    let mut corners = [65535u16; CORNERS];
    let lent = player.lent;
    let n = player.file.min(file.len());
    calls::lend(records, table, strips, &mut corners, &file[..n], lent, line);
}

// Writes a foil's record or strips, or the table.
fn state(records: &[u16; RECORDS], table: &[u16; TABLE], strips: &[u16; STRIPS], line: Line) {
    let row = line.row;
    let k = size(line.numbers[0]) % 8;
    match row {
        20 => show::items(records, k * 6, k * 6 + 6, 6),
        21 => {
            let n = size(records[k * 6 + 5]);
            show::number(b" ", n as u64);
            show::items(strips, k * LIST, k * LIST + n * 4, 4);
        }
        _ => show::table(table, entries(records) * 5),
    }
}

// How many entries the foils have.
fn entries(records: &[u16; RECORDS]) -> usize
    ensures { result ≤ 65535 }
{
    let mut n: u16 = 0;
    for i in 0..8 {
        n = n.wrapping_add(records[i * 6 + 4]);
    }
    size(n)
}

// Runs the file once or many times.
fn run_file(file: &mut [u8], end: usize, line: Line) {
    let n = end.min(file.len());
    let row = line.row;
    match row {
        23 => jobs::job(&file[..n]),
        24 => jobs::cuts(&file[..n]),
        _ => jobs::sweep(&mut file[..n], size(line.numbers[0])),
    }
}

// Changes a list from outside.
fn spoil(
    records: &mut [u16; RECORDS],
    table: &mut [u16; TABLE],
    strips: &mut [u16; STRIPS],
    line: Line,
) {
    let row = line.row;
    let n = line.numbers;
    let k = size(n[0]);
    let at = size(n[1]);
    match row {
        15 => {
            lists::fill(records, 0, 0);
            lists::fill(table, 0, 0);
            lists::fill(table, 2560, 7);
            lists::fill(strips, 0, 7);
        }
        16 => lists::put(table, k, line, 1, NUMBERS),
        17 => lists::put(strips, k * LIST + at, line, 2, NUMBERS),
        18 => lists::put(records, k * 6 + at, line, 2, NUMBERS),
        _ => lists::fill(table, k, n[1]),
    }
    io::write_all(1, b" done");
}

// Keeps what a line says on the next one, or writes what is wrong with it.
fn told(player: Player, line: Line) -> Player {
    let mut next = player;
    let row = line.row;
    let n = line.numbers;
    if row < 34 {
        next.lent[(row + 1) % 5] = size(n[0]);
        return next;
    }
    if row == 34 {
        next.times = size(n[0]);
        next.growth = n;
        return next;
    }
    if reading::EMPTY < row {
        show::number(b"fault in line ", player.line as u64);
        show::fault(row);
    }
    next
}

// Writes which lists have changed.
fn news(
    records: &[u16; RECORDS],
    old_records: &mut [u16; RECORDS],
    table: &[u16; TABLE],
    old_table: &mut [u16; TABLE],
    strips: &[u16; STRIPS],
    old_strips: &mut [u16; STRIPS],
    line: Line,
) {
    let k = size(line.numbers[0]) % 8;
    let a = lists::settle_parts(
        b"; new record",
        b"; other records",
        old_records,
        records,
        k * 6,
        k * 6 + 6,
    );
    let b = lists::settle_parts(
        b"; new table",
        b"; past the table",
        old_table,
        table,
        0,
        2560,
    );
    let c = lists::settle_parts(
        b"; new strips",
        b"; other strips",
        old_strips,
        strips,
        k * LIST,
        k * LIST + 16384,
    );
    if !(a || b || c) {
        io::write_all(1, b"; nothing new");
    }
}
