// The calls, with the lists that they are lent.
use crate::lists::{LIST, PAGE, RECORDS, size};
use crate::reading::{Line, NUMBERS};
use crate::{lists, show};
use foil::Answer;
use foil_spec::{Entry, Ink, OldBoard, Point};
use sheet::Sheet;
use sheet_rows::{board_at, only_foil_0};

// Makes the call of a line with as much of each list as is lent, writes its answer, and keeps the records.
pub(crate) fn lend(
    records: &mut [u16; RECORDS],
    table: &mut [u16],
    strips: &mut [u16],
    corners: &mut [u16],
    file: &[u8],
    lent: [usize; 5],
    line: Line,
) {
    let k = size(line.numbers[0]) % 8;
    let t = lent[0].min(table.len());
    let from = (k * LIST).min(strips.len());
    let to = from + lent[1].min(strips.len() - from);
    let c = lent[2].min(corners.len());
    let mut sheet = lists::sheet_of(records);
    call(
        &mut table[..t],
        &mut strips[from..to],
        &mut corners[..c],
        file,
        &mut sheet,
        lent,
        line,
    );
    lists::keep(records, sheet);
    show::points(corners);
}

// Makes it with these lists.
fn call(
    table: &mut [u16],
    strips: &mut [u16],
    corners: &mut [u16],
    file: &[u8],
    sheet: &mut Sheet,
    lent: [usize; 5],
    line: Line,
) {
    match line.row {
        // new, draw, leg, lift, book, lay, join
        0..=6 => show::answer(change(table, strips, corners, sheet, line)),
        // list, record, carry
        8 => nets(table, strips, corners, sheet, lent[3], line),
        9 => record(table, strips, corners, sheet, file, line),
        14 => old_foil(table, strips, sheet, line),
        _ => read(table, strips, corners, *sheet, lent[4], line),
    }
}

// Makes a call that may change entries.
fn change(
    table: &mut [u16],
    strips: &mut [u16],
    corners: &mut [u16],
    sheet: &mut Sheet,
    line: Line,
) -> Answer {
    let n = line.numbers;
    let k = size(n[0]);
    match line.row {
        // new, draw, leg, lift, book, lay, join
        0 => sheet::new_foil(table, strips, sheet, k, n[1], n[2], n[3], n[4]),
        1 => sheet::draw(table, strips, sheet, k, n[1], n[2], n[3], n[4]),
        2 => sheet::put_leg(table, strips, sheet, k, leg(n)),
        3 => sheet::lift(table, strips, sheet, k, n[1]),
        4 => sheet::book(table, strips, sheet, k, n[1], part(&n, 2, line.count)),
        5 => {
            let from = Point { x: n[2], y: n[3] };
            let to = Point { x: n[4], y: n[5] };
            sheet::lay(table, strips, corners, sheet, k, n[1], from, to)
        }
        _ => {
            let from = Point { x: n[2], y: n[3] };
            sheet::join(table, strips, corners, sheet, k, n[1], from)
        }
    }
}

// The leg of a line.
fn leg(n: [u16; NUMBERS]) -> Entry {
    Entry {
        net: n[1],
        x0: n[2],
        y0: n[3],
        x1: n[4],
        y1: n[5],
    }
}

// The numbers of a line from one on.
fn part(n: &[u16], from: usize, to: usize) -> &[u16] {
    let end = to.min(n.len());
    let begin = from.min(end);
    &n[begin..end]
}

// Lays a list of nets, with so many numbers lent for the answers, and writes three for each net.
fn nets(
    table: &mut [u16],
    strips: &mut [u16],
    corners: &mut [u16],
    sheet: &mut Sheet,
    room: usize,
    line: Line,
) {
    let mut answers = [65535u16; NUMBERS];
    let n = line.numbers;
    let a = room.min(NUMBERS);
    show::answer(sheet::lay_list(
        table,
        strips,
        corners,
        &mut answers[..a],
        sheet,
        size(n[0]),
        part(&n, 1, line.count),
    ));
    show::items(&answers, 0, show::written(&answers), 3);
}

// Runs the record at a place of the file.
fn record(
    table: &mut [u16],
    strips: &mut [u16],
    corners: &mut [u16],
    sheet: &mut Sheet,
    file: &[u8],
    line: Line,
) {
    let n = line.numbers;
    show::reply(sheet::run_record(table, strips, corners, sheet, size(n[0]), file, size(n[1])));
}

// Makes a call that only reads.
fn read(table: &[u16], strips: &[u16], corners: &mut [u16], sheet: Sheet, room: usize, line: Line) {
    let n = line.numbers;
    let k = size(n[0]);
    match line.row {
        // find, lookup, ohms, save, slip
        7 => {
            let from = Point { x: n[1], y: n[2] };
            let to = Point { x: n[3], y: n[4] };
            show::answer(sheet::find(corners, table, strips, sheet, k, from, to))
        }
        10 => {
            let point = Point { x: n[1], y: n[2] };
            show::answer(sheet::look_up(table, strips, sheet, k, point))
        }
        11 => show::ohms(sheet::ohms(table, strips, sheet, k, n[1], ink(n))),
        _ => page(table, strips, sheet, room, k, line.row == 13),
    }
}

// The ink of a line: three figures, each a number over a number.
fn ink(n: [u16; NUMBERS]) -> Ink {
    Ink {
        sheet: signed(n[2]) / signed(n[3]),
        width: signed(n[4]) / signed(n[5]),
        bend: signed(n[6]) / signed(n[7]),
    }
}

// A number as a figure: one from 32768 on stood behind a minus.
fn signed(n: u16) -> f64 {
    if n < 32768 {
        return n as f64;
    }
    n as f64 - 65536.0
}

// Saves a foil or asks for its slip, with so many bytes lent, and writes what was written to them.
fn page(table: &[u16], strips: &[u16], sheet: Sheet, room: usize, k: usize, slip: bool) {
    let mut out = [b'.'; PAGE];
    let n = room.min(PAGE);
    if slip {
        show::answer(sheet::slip(&mut out[..n], table, strips, sheet, k));
    } else {
        show::answer(sheet::save(&mut out[..n], table, strips, sheet, k));
    }
    show::page(&out, slip);
}

// Carries an old foil over to foil 0 of a sheet with no other foil, and writes the nets that are lifted. The line has
// the old record, then the entries and the strips.
fn old_foil(table: &mut [u16], strips: &mut [u16], sheet: &mut Sheet, line: Line) {
    let mut old_table = [0u16; 640];
    let mut old_strips = [0u16; 16384];
    let mut report = [65535u16; 128];
    let n = line.numbers;
    let entries = size(n[4]);
    let end = 6 + entries * 5;
    lists::put(&mut old_table, 0, line, 6, end);
    lists::put(&mut old_strips, 0, line, end, NUMBERS);
    let old = OldBoard {
        width: n[1],
        height: n[2],
        reach: n[3],
        entries,
        strips: size(n[5]),
    };
    let mut board = board_at(*sheet, 0);
    let answer = carrying::carry(
        table,
        strips,
        &mut report,
        &mut board,
        &old_table,
        &old_strips,
        old,
    );
    show::answer(answer);
    show::items(&report, 0, show::written(&report), 1);
    *sheet = only_foil_0(board);
}
