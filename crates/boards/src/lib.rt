// Boards for tests, up to 40 by 40, made from a number: the same number always gives the same board.
#![tactic(auto)]

ghost use Rattle.std.specs.Prelude.{◌≡◌, ◌<◌, ◌≤◌, IfSome};
ghost use Rattle.boards.specs.Board.{OnBoard};

// A board: its width, height and clearance, how many entries it has, two points on it that may be blocked, and the
// number for the next board.
#[derive(Clone, Copy)]
pub struct Made {
    pub width: u16,
    pub height: u16,
    pub clearance: u16,
    pub entries: usize,
    pub sx: u16,
    pub sy: u16,
    pub tx: u16,
    pub ty: u16,
    pub seed: u32,
}

// A size: how wide and how high.
#[derive(Clone, Copy)]
struct Size {
    width: u16,
    height: u16,
}

impl Size {
    // A size of this width and height.
    fn of(width: u16, height: u16) -> Size
        ensures { (result.width ≡ width) × (result.height ≡ height) }
    {
        Size { width, height }
    }

    // The same, with its sides exchanged.
    fn turned(self) -> Size
        ensures { (result.width ≡ self.height) × (result.height ≡ self.width) }
    {
        Size {
            width: self.height,
            height: self.width,
        }
    }
}

// How many entries were drawn, and the number that is left.
#[derive(Clone, Copy)]
struct Drawn {
    entries: usize,
    seed: u32,
}

// The number after `seed` in a fixed row of numbers: D. H. Lehmer's, modulo the prime 2^31 - 1.
pub fn next(seed: u32) -> u32 {
    (u64::from(seed) * 48271 % 2147483647) as u32
}

// A number below n.
pub fn below(seed: u32, n: u16) -> u16
    requires { 0 < n }
    ensures { result < n }
{
    (seed % u32::from(n)) as u16
}

// Where a side ends that begins at `start`: at most `most` further, and not past `size`.
fn end_of(start: u16, size: u16, most: u16, seed: u32) -> u16
    requires { (start < size) × (0 < most) }
    ensures { (start < result) × (result ≤ size) }
{
    start + (1 + below(seed, most)).min(size - start)
}

// Puts a patch at place i of the table.
fn put(table: &mut [u16; 640], i: usize, x0: u16, y0: u16, x1: u16, y1: u16)
    requires { i < 128 }
{
    table[i * 5] = 0;
    table[i * 5 + 1] = x0;
    table[i * 5 + 2] = y0;
    table[i * 5 + 3] = x1;
    table[i * 5 + 4] = y1;
}

// Puts a patch somewhere on the board, at most as large as `most`, and gives the number that is left.
fn patch(table: &mut [u16; 640], i: usize, board: Size, most: Size, seed: u32) -> u32
    requires { (i < 128) × (0 < board.width) × (0 < board.height) × (0 < most.width) × (0 < most.height) }
{
    let a = next(seed);
    let b = next(a);
    let c = next(b);
    let e = next(c);
    let x0 = below(a, board.width);
    let y0 = below(b, board.height);
    put(
        table,
        i,
        x0,
        y0,
        end_of(x0, board.width, most.width, c),
        end_of(y0, board.height, most.height, e),
    );
    e
}

// Draws n patches anywhere, alternately at most as large as `most` and as that turned.
fn scatter(table: &mut [u16; 640], board: Size, n: u16, most: Size, seed: u32) -> Drawn
    requires { (0 < board.width) × (0 < board.height) × (n ≤ 128) × (0 < most.width) × (0 < most.height) }
    ensures { result.entries ≤ 128 }
{
    let entries = usize::from(n);
    let mut s = seed;
    for i in 0..entries {
        let largest = if i % 2 == 0 { most } else { most.turned() };
        s = patch(table, i, board, largest, s);
    }
    Drawn { entries, seed: s }
}

// Draws a tooth of a comb at column x: a line that leaves a gap at the board's upper end or, if `lower`, at its lower
// one.
fn tooth(table: &mut [u16; 640], i: usize, x: u16, height: u16, gap: u16, lower: bool)
    requires { (i < 128) × (x < 65535) × (gap < height) }
{
    if lower {
        put(table, i, x, 0, x + 1, height - gap);
    } else {
        put(table, i, x, gap, x + 1, height);
    }
}

// Draws two combs, one in the other, so that a path winds between their teeth, off the board's edge by d.
fn combs(table: &mut [u16; 640], board: Size, d: u16, seed: u32) -> Drawn
    requires { (board.width ≤ 64) × (0 < board.height) × (board.height ≤ 64) × (d ≤ 15) }
    ensures { result.entries ≤ 128 }
{
    let mut s = seed;
    let mut i: usize = 0;
    let off = d + d + 1;
    let mut x = off;
    while x < board.width {
        s = next(s);
        let gap = (off + below(s, 3)).min(board.height - 1);
        tooth(table, i, x, board.height, gap, i % 2 == 0);
        i += 1;
        x += off + 1;
    }
    Drawn {
        entries: i,
        seed: s,
    }
}

// Draws the board's patches, of one of five kinds: boxes of any size, few of them; dots; lines; small boxes; combs.
fn patches(table: &mut [u16; 640], board: Size, d: u16, seed: u32) -> Drawn
    requires { (0 < board.width) × (0 < board.height) × (board.width ≤ 64) × (board.height ≤ 64) × (d ≤ 15) }
    ensures { result.entries ≤ 128 }
{
    let a = next(seed);
    let b = next(a);
    match below(a, 5) {
        0 => scatter(table, board, below(b, 7), Size::of(40, 40), b),
        1 => scatter(table, board, below(b, 101), Size::of(2, 2), b),
        2 => scatter(table, board, below(b, 31), Size::of(40, 1), b),
        3 => scatter(table, board, below(b, 21), Size::of(12, 4), b),
        _ => combs(table, board, d, b),
    }
}

// Makes a board, and puts its entries at the front of the table.
pub fn make(table: &mut [u16; 640], seed: u32) -> Made
    ensures { OnBoard result }
{
    let a = next(seed);
    let b = next(a);
    let c = next(b);
    let e = next(c);
    let width = 1 + below(a, 40);
    let height = 1 + below(b, 40);
    let clearance = below(c, 1 + below(e, 4));
    let drawn = patches(table, Size::of(width, height), clearance, e);
    let p = next(drawn.seed);
    let q = next(p);
    let r = next(q);
    let s = next(r);
    Made {
        width,
        height,
        clearance,
        entries: drawn.entries,
        sx: below(p, width),
        sy: below(q, height),
        tx: below(r, width),
        ty: below(s, height),
        seed: s,
    }
}

// The first free place of a map from the place `from` on.
fn first_free(map: &[bool; 4096], from: usize) -> Option<usize>
    requires { from ≤ 4096 }
    ensures { IfSome result (λ p. p < 4096) }
{
    (from..4096).find(|p| map[*p])
}

// A free place of the map, where the point (x, y) stands at y * 64 + x: the first from that point on, or else of all;
// 4,096 where no point is free.
pub fn choose(map: &[bool; 4096], x: u16, y: u16) -> usize
    requires { (x < 64) × (y < 64) }
    ensures { result ≤ 4096 }
{
    let later = first_free(map, usize::from(y) * 64 + usize::from(x));
    later.or_else(|| first_free(map, 0)).unwrap_or(4096)
}
