// The fields of a record: which it has, where they begin, and their numbers. The caller names a record
// whose map byte is among the bytes.
ghost use Rattle.std.specs.Prelude.{◌≡◌, true, cond, ◌*◌, ◌+◌, ◌≤◌, ◌<◌, length};
ghost use Rattle.foil_spec.specs.Foil.{point};
ghost use Rattle.foil_spec.specs.Job.{map_bits, board_step, leg_step, field_count, has as has_bit, fields_at};
ghost use Rattle.foil_spec.specs.Job.{field as field_of, step_at};
ghost use Rattle.foil.specs.Contract.{clearance_of};
ghost use Rattle.job.specs.Parts.{Begun, Whole, Given};

use foil::Clearance;
use foil_spec::{Entry, Point};

// How many bits a map byte may use; the last is no step of its own, but the pen of the board.
pub(crate) const MAP_BITS: usize = 6;

pub const STEP_BITS: usize = 5;

// Whether bit k of the map byte is set.
pub(crate) fn has(bytes: &[u8], at: usize, k: usize) -> bool
    requires { (at < length bytes.now) × (k < map_bits) }
    ensures { result ≡ has_bit bytes.now at k }
{
    (bytes[at] >> k) % 2 == 1
}

// How many bytes the fields of bit k take: two for each number.
fn field_bytes(bytes: &[u8], at: usize, k: usize) -> usize
    requires { (at < length bytes.now) × (k < map_bits) }
    ensures { result ≡ cond (has_bit bytes.now at k) (2 * field_count k) 0 }
{
    if !has(bytes, at, k) {
        return 0;
    }
    let counts = [3usize, 4, 5, 1, 5, 2];
    2 * counts[k]
}

// Where the fields of bit k begin, or would begin; the place after the record where k is MAP_BITS.
pub(crate) fn fields_at(bytes: &[u8], at: usize, k: usize) -> usize
    requires begun { Begun bytes.now at }
    requires k_le_map_bits { k ≤ map_bits }
    ensures { result ≡ fields_at bytes.now at k }
{
    let mut place = at + 1;
    for i in 0..k {
        place += field_bytes(bytes, at, i);
    }
    place
}

// Number i of the fields of bit k, low byte first.
pub(crate) fn field(bytes: &[u8], at: usize, k: usize, i: usize) -> u16
    requires { Given bytes.now at k i }
    ensures { result ≡ field_of bytes.now at k i }
{
    let place = fields_at(bytes, at, k) + 2 * i;
    u16::from(bytes[place]) + 256 * u16::from(bytes[place + 1])
}

// The point that number i of the fields of bit k and the next one give.
pub(crate) fn point_of(bytes: &[u8], at: usize, k: usize, i: usize) -> Point
    requires { Given bytes.now at k (i + 1) }
    ensures { result ≡ point (field_of bytes.now at k i) (field_of bytes.now at k (i + 1)) }
{
    Point {
        x: field(bytes, at, k, i),
        y: field(bytes, at, k, i + 1),
    }
}

// What the board of the record keeps clear: its pen by the fields of bit 5, or else its reach.
pub(crate) fn clearance_of(bytes: &[u8], at: usize) -> Clearance
    requires { Whole bytes.now at × (has_bit bytes.now at 0 ≡ true) }
    ensures { board_step (field_of bytes.now at 0 0) (field_of bytes.now at 0 1)
        (clearance_of result)
        ≡ step_at bytes.now at 0 }
{
    if has(bytes, at, 5) {
        return Clearance::Pen(field(bytes, at, 5, 0), field(bytes, at, 5, 1));
    }
    Clearance::Reach(field(bytes, at, 0, 2))
}

// The leg that the step of bit 4 puts, by its fields.
pub(crate) fn leg_of(bytes: &[u8], at: usize) -> Entry
    requires { Given bytes.now at 4 4 }
    ensures { leg_step result ≡ step_at bytes.now at 4 }
{
    Entry {
        net: field(bytes, at, 4, 0),
        x0: field(bytes, at, 4, 1),
        y0: field(bytes, at, 4, 2),
        x1: field(bytes, at, 4, 3),
        y1: field(bytes, at, 4, 4),
    }
}
