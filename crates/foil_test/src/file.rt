// Job files, record by record. Each function puts a record at a place of the file and answers the place after it.
ghost use Rattle.std.specs.Prelude.{◌≡◌, ◌+◌, ◌*◌, ◌<◌, ◌≤◌};
ghost use Rattle.foil_spec.specs.Limits.{max_bytes};

use foil_spec::INPUT_SIZE;

// Puts a number, low byte first.
fn put(bytes: &mut [u8; INPUT_SIZE], at: usize, n: u16)
    requires { at < max_bytes }
{
    bytes[at..at + 2].copy_from_slice(&n.to_le_bytes());
}

// A record with a board.
pub(crate) fn board(bytes: &mut [u8; INPUT_SIZE], at: usize, w: u16, h: u16, d: u16) -> usize
    requires { at < 59900 }
    ensures { result ≡ at + 7 }
{
    bytes[at] = 1;
    put(bytes, at + 1, w);
    put(bytes, at + 3, h);
    put(bytes, at + 5, d);
    at + 7
}

// A record with a board and its pen; the reach, which does not count then, is the largest number there is.
pub(crate) fn pen_board(
    bytes: &mut [u8; INPUT_SIZE],
    at: usize,
    w: u16,
    h: u16,
    half: u16,
    gap: u16,
) -> usize
    requires { at < 59900 }
    ensures { result ≡ at + 11 }
{
    board(bytes, at, w, h, 65535);
    bytes[at] = 33;
    put(bytes, at + 7, half);
    put(bytes, at + 9, gap);
    at + 11
}

// A record with a patch.
pub(crate) fn patch(
    bytes: &mut [u8; INPUT_SIZE],
    at: usize,
    x0: u16,
    y0: u16,
    x1: u16,
    y1: u16,
) -> usize
    requires { at < 59900 }
    ensures { result ≡ at + 9 }
{
    bytes[at] = 2;
    put(bytes, at + 1, x0);
    put(bytes, at + 3, y0);
    put(bytes, at + 5, x1);
    put(bytes, at + 7, y1);
    at + 9
}

// A record with a track.
pub(crate) fn track(
    bytes: &mut [u8; INPUT_SIZE],
    at: usize,
    net: u16,
    sx: u16,
    sy: u16,
    tx: u16,
    ty: u16,
) -> usize
    requires { at < 59900 }
    ensures { result ≡ at + 11 }
{
    bytes[at] = 4;
    put(bytes, at + 1, net);
    put(bytes, at + 3, sx);
    put(bytes, at + 5, sy);
    put(bytes, at + 7, tx);
    put(bytes, at + 9, ty);
    at + 11
}

// A record with a lift.
pub(crate) fn lift(bytes: &mut [u8; INPUT_SIZE], at: usize, net: u16) -> usize
    requires { at < 59998 }
    ensures { result ≡ at + 3 }
{
    bytes[at] = 8;
    put(bytes, at + 1, net);
    at + 3
}

// The end mark.
pub(crate) fn end(bytes: &mut [u8; INPUT_SIZE], at: usize) -> usize
    requires { at ≤ max_bytes }
    ensures { result ≡ at + 1 }
{
    bytes[at] = 0;
    at + 1
}

// n records that draw the same patch of one point.
pub(crate) fn dots(bytes: &mut [u8; INPUT_SIZE], at: usize, n: usize, x: u16, y: u16) -> usize
    requires { (at < 2000) × (n ≤ 128) × (x < 4096) × (y < 4096) }
    ensures { result ≡ at + 9 * n }
{
    let mut place = at;
    for _ in 0..n {
        place = patch(bytes, place, x, y, x + 1, y + 1);
    }
    place
}

// Records that draw n upright lines of a foil h high, one point wide, at x = first, first + 2, ..
pub(crate) fn upright_lines(
    bytes: &mut [u8; INPUT_SIZE],
    at: usize,
    n: u16,
    first: u16,
    h: u16,
) -> usize
    requires { (at < 2000) × (n ≤ 64) × (first < 4) }
    ensures { result ≡ at + 9 * n }
{
    let mut place = at;
    for i in 0..n {
        place = patch(bytes, place, 2 * i + first, 0, 2 * i + first + 1, h);
    }
    place
}

// Records that draw n level lines from x = begin on, of a foil w wide, one point wide, at y = 1, 3, ..
pub(crate) fn level_lines(
    bytes: &mut [u8; INPUT_SIZE],
    at: usize,
    n: u16,
    begin: u16,
    w: u16,
) -> usize
    requires { (at < 2000) × (n ≤ 64) }
    ensures { result ≡ at + 9 * n }
{
    let mut place = at;
    for i in 0..n {
        place = patch(bytes, place, begin, 2 * i + 1, w, 2 * i + 2);
    }
    place
}

// n records that lift a net.
pub(crate) fn lifts(bytes: &mut [u8; INPUT_SIZE], at: usize, n: usize, net: u16) -> usize
    requires { at + 3 * n ≤ max_bytes }
    ensures { result ≡ at + 3 * n }
{
    let mut place = at;
    for _ in 0..n {
        place = lift(bytes, place, net);
    }
    place
}
