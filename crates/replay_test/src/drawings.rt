// Find and book beside the plain foil, between the records: a path, and its corners as a list that may be no way.
ghost use Rattle.std.specs.Prelude.{◌<◌, ◌≤◌, IfSome};

use crate::compare::same_laid;
use crate::{BOOKED, COUNTS, DIFFERENT, FOUND, Stood, count, count_answer};
use boards::{below, next};
use foil_spec::Point;
use sheet::{Sheet, book, find};
use sheet_rows::board_at;

// Where a strip of foil 0 at random begins in the list; or the place after the last one, which holds zeros.
pub(crate) fn strip(sheet: Sheet, seed: u32) -> usize
    ensures { result < 16384 }
{
    let board = board_at(sheet, 0);
    let last = (board.strips % 4095) as u16;
    below(seed, last * 3 + 1) as usize / 3 * 4
}

// Finds a path from a strip's first point to another's last, and books its corners, spoilt or not. The answers are
// compared here, the lists with the next record.
pub(crate) fn draw(
    counts: &mut [u64; COUNTS],
    table: &mut [u16; 2565],
    strips: &mut [u16; 16388],
    corners: &mut [u16; 300],
    row: &mut [u16; 640],
    path: &mut [u16; 8192],
    stood: &mut Stood,
) {
    let Some(k) = find_both(counts, table, strips, corners, row, path, *stood) else {
        return;
    };
    let mut list = *path;
    book_both(counts, table, strips, row, &mut list, stood, k);
}

// Finds a path by the call and on the plain foil; how many corners it has, if there is one.
fn find_both(
    counts: &mut [u64; COUNTS],
    table: &[u16; 2565],
    strips: &[u16; 16388],
    corners: &mut [u16; 300],
    row: &[u16; 640],
    path: &mut [u16; 8192],
    stood: Stood,
) -> Option<usize>
    ensures { IfSome result (λ k. (0 < k) × (k ≤ 150)) }
{
    let a = strip(stood.sheet, next(stood.point));
    let b = strip(stood.sheet, next(next(stood.point)));
    let sx = strips[a];
    let sy = strips[a + 1];
    let tx = strips[b + 2].wrapping_sub(1);
    let ty = strips[b + 3].wrapping_sub(1);
    let from = Point { x: sx, y: sy };
    let to = Point { x: tx, y: ty };
    let given = find(corners, table, strips, stood.sheet, 0, from, to);
    let want = plain_foil::find(path, row, stood.foil, 150, sx, sy, tx, ty);
    if !same_laid(given, want) {
        count(counts, DIFFERENT);
    }
    count_answer(counts, want);
    match want {
        Ok(k) => if 0 < k { Some(k) } else { None },
        Err(_) => None,
    }
}

// Books a list of k corners by the call and on the plain foil, spoilt or not.
fn book_both(
    counts: &mut [u64; COUNTS],
    table: &mut [u16; 2565],
    strips: &mut [u16; 16388],
    row: &mut [u16; 640],
    list: &mut [u16; 8192],
    stood: &mut Stood,
    k: usize,
)
    requires { (0 < k) × (k ≤ 150) }
{
    let n = spoil(list, k * 2, stood.point);
    let net = below(stood.point / 8, 24);
    let given = book(table, strips, &mut stood.sheet, 0, net, &list[..n]);
    let want = plain_foil::book(row, &mut stood.foil, net, list, n);
    if !same_laid(given, want) {
        count(counts, DIFFERENT);
    }
    count(counts, FOUND);
    count_answer(counts, want);
    if want.is_ok() {
        count(counts, BOOKED);
    }
}

// Leaves a list of n numbers as it is, or without its last one or two, or changes one; how many it has then.
fn spoil(list: &mut [u16; 8192], n: usize, seed: u32) -> usize
    requires { (2 ≤ n) × (n ≤ 300) }
    ensures { result ≤ 300 }
{
    let kind = seed % 8;
    if kind < 4 {
        return n;
    }
    if kind < 6 {
        return n - (kind as usize - 3);
    }
    list[below(seed / 8, n as u16) as usize] = below(seed / 4096, 40);
    n
}
