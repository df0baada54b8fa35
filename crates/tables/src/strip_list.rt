// The strips of a table in the making, put into the list that has those of the table before.
ghost use Rattle.std.specs.Prelude.{◌≤◌, length};
ghost use Rattle.foil_spec.specs.Limits.{strips_size};
ghost use Rattle.foil_spec.specs.Strips.{strips as strips_in};
ghost use Rattle.zones.specs.Boxes.{box_free, Boxes};
ghost use Rattle.strips.specs.Decided.{Decided};
ghost use Rattle.tables.specs.StripList.{PutStrips};

use foil_spec::STRIPS_SIZE;
use strips::{list_strips, rebuild};

// Writes the strips that the first n boxes leave of a foil of w by h to the list, and zeros after them up to 4,096
// places. Answers how many there are, none for more than 4,096: then nothing is changed.
pub(crate) fn put_strips(list: &mut [u16], boxes: &[u16], n: usize, w: u16, h: u16) -> Option<usize>
    requires boxes { Boxes boxes.now n w h }
    requires strips_size_in_bounds { strips_size ≤ length list.old }
    ensures { PutStrips list.old list.new result
        (strips_in (box_free w h n boxes.now) w h) }
{
    if are_few(w, h) {
        // Another list of 4,096 places would have to be filled.
        return rebuild(list, boxes, n, w, h);
    }
    put_many(list, boxes, n, w, h)
}

// Whether a foil of w by h has no more than 64 runs in a row and 64 rows, so that it cannot have too many strips.
fn are_few(w: u16, h: u16) -> bool
    ensures { Decided ((w ≤ 127) × (h ≤ 64)) result }
{
    w <= 127 && h <= 64
}

// Builds them in a list apart, and takes them over from there unless they are too many.
fn put_many(list: &mut [u16], boxes: &[u16], n: usize, w: u16, h: u16) -> Option<usize>
    requires boxes { Boxes boxes.now n w h }
    requires strips_size_in_bounds { strips_size ≤ length list.old }
    ensures { PutStrips list.old list.new result
        (strips_in (box_free w h n boxes.now) w h) }
{
    let mut out = [0u16; STRIPS_SIZE];
    let count = list_strips(&mut out, boxes, n, w, h)?;
    list[..count * 4].copy_from_slice(&out[..count * 4]);
    list[count * 4..STRIPS_SIZE].fill(0);
    Some(count)
}
