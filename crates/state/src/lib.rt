// The state check: whether the record, the table and the strips keep the rules (13), today's or those of
// document 01.
#![tactic(auto)]

mod arguments;
mod crossing;

ghost use Rattle.std.specs.Prelude.{◌≡◌, ◌*◌, ◌≤◌, map, length, take};
ghost use Rattle.foil_spec.specs.Lists.{range, all};
ghost use Rattle.foil_spec.specs.Limits.{strips_size};
ghost use Rattle.foil_spec.specs.Foil.{entry_ok};
ghost use Rattle.foil_spec.specs.Sound.{strips_by, sound_by};
ghost use Rattle.foil_spec.specs.Carrying.{old, old_sound};
ghost use Rattle.foil_spec.specs.Lent.{lent, entry_at, sound};
ghost use Rattle.zones.specs.Table.{Small, Table};
ghost use Rattle.strips.specs.Built.{Rebuilt};
ghost use Rattle.strips.specs.Decided.{Decided};
ghost use Rattle.state.specs.Tests.{Zeros, sizes_ok, ruled, StripsRight};

pub use arguments::{box_ok, net_ok, pen_ok, reach_ok, size_ok};
pub use crossing::{no_crossing, over_leg, patch_margin, under_patch};
use foil_spec::{Board, Entry, MAX_ENTRIES, OldBoard, Rule, STRIPS_SIZE, TABLE_SIZE};
use places::entry_at;
use strips::rebuild;
use zones::{BOXES_SIZE, pen_rule, zones};

// Whether the record, the table and the strips keep today's rules, whatever they hold.
pub fn is_sound(table: &[u16], strips: &[u16], board: Board) -> bool
    ensures { result ≡ sound (lent board table.now strips.now) }
{
    if !arguments::pen_ok(board.half, board.gap) {
        return false;
    }
    let rule = pen_rule(board.half, board.gap);
    keeps_rule(
        table,
        strips,
        rule,
        board.width,
        board.height,
        board.entries,
        board.strips,
    ) && no_crossing(table, board.entries, rule.patch)
}

// Whether a record, a table and strips of document 01 keep its rules, whatever they hold.
pub fn old_sound(table: &[u16], strips: &[u16], board: OldBoard) -> bool
    ensures { result ≡ old_sound (old board table.now strips.now) }
{
    let d = board.reach;
    let rule = Rule {
        patch: d,
        leg: d,
        edge: 0,
    };
    arguments::reach_ok(d)
        && keeps_rule(
            table,
            strips,
            rule,
            board.width,
            board.height,
            board.entries,
            board.strips,
        )
}

// Whether a record of w by h, n entries and so many strips, the table and the strips keep the rules of
// the foil and the strips, where points are blocked by this rule.
#[tactic(auto, using(crate::proofs::Checking::few_of_sizes))]
fn keeps_rule(
    table: &[u16],
    strips: &[u16],
    rule: Rule,
    w: u16,
    h: u16,
    n: usize,
    count: usize,
) -> bool
    requires { Small rule }
    ensures { result ≡ sound_by (ruled rule) w h n count table.now strips.now }
{
    table.len() >= TABLE_SIZE
        && strips.len() >= STRIPS_SIZE
        && sizes_ok(w, h, n)
        && entries_ok(table, n, w, h)
        && zeros(table, n * 5, TABLE_SIZE)
        && strips_ok(table, strips, rule, w, h, n, count)
}

// Whether width, height and number of entries are in their limits.
#[tactic(auto, unfolding(crate::specs::Tests::sizes_ok))]
fn sizes_ok(w: u16, h: u16, n: usize) -> bool
    ensures { result ≡ sizes_ok w h n }
{
    arguments::size_ok(w) && arguments::size_ok(h) && n <= MAX_ENTRIES
}

// Whether the strips are those of the table's first n entries, by the rule, and so many.
fn strips_ok(
    table: &[u16],
    strips: &[u16],
    rule: Rule,
    w: u16,
    h: u16,
    n: usize,
    count: usize,
) -> bool
    requires table { Table table.now n rule w h }
    requires strips_size_in_bounds { strips_size ≤ length strips.now }
    ensures { Decided (StripsRight (strips_by rule w h (map (entry_at table.now) (range 0 n)))
        count strips.now) result }
{
    let mut out = [0u16; STRIPS_SIZE];
    strips_of(&mut out, table, n, rule, w, h) == Some(count)
        && same_front(&out, strips, STRIPS_SIZE)
}

// Writes the strips that the table's first n entries leave of a foil of w by h, by the rule, to out, and
// zeros after them up to 4,096 places. Answers how many there are, none for more than 4,096; then what out holds is
// undecided.
pub fn strips_of(
    out: &mut [u16],
    table: &[u16],
    n: usize,
    rule: Rule,
    w: u16,
    h: u16,
) -> Option<usize>
    requires table { Table table.now n rule w h }
    requires strips_size_in_bounds { strips_size ≤ length out.old }
    ensures { Rebuilt out.old out.new
        (strips_by rule w h (map (entry_at table.now) (range 0 n))) result }
{
    let mut boxes = [0u16; BOXES_SIZE];
    let count = zones(&mut boxes, table, n, rule, w, h);
    rebuild(out, &boxes, count, w, h)
}

// Whether the entry is one that a table of a foil of w by h may hold.
#[tactic(auto, unfolding(foil_spec::specs::Foil::entry_ok, foil_spec::specs::Foil::box_ok))]
pub fn entry_ok(e: Entry, w: u16, h: u16) -> bool
    ensures { result ≡ entry_ok w h e }
{
    arguments::box_ok(w, h, e) && arguments::shape_ok(e)
}

// Whether the first n entries of the table are such.
fn entries_ok(table: &[u16], n: usize, w: u16, h: u16) -> bool
    requires { n * 5 ≤ length table.now }
    ensures { result ≡ all (entry_ok w h) (map (entry_at table.now) (range 0 n)) }
{
    (0..n).all(|k| entry_ok(entry_at(table, k), w, h))
}

// Whether the numbers from place a up to place b are zero.
fn zeros(list: &[u16], a: usize, b: usize) -> bool
    requires { (a ≤ b) × (b ≤ length list.now) }
    ensures { Decided (Zeros list.now a b) result }
{
    list[a..b].iter().all(|x| *x == 0)
}

// Whether the first n numbers of the lists are the same.
fn same_front(a: &[u16], b: &[u16], n: usize) -> bool
    requires { (n ≤ length a.now) × (n ≤ length b.now) }
    ensures { Decided (take n a.now ≡ take n b.now) result }
{
    a[..n] == b[..n]
}
