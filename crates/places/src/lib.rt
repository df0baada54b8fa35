// The places of flat lists, read and written as structs: entries of a table, strips, corners; and the record of a foil
// before it is begun.
#![tactic(auto)]

ghost use Rattle.std.specs.Prelude.{◌≡◌, ◌+◌, ◌*◌, ◌≤◌, length};
ghost use Rattle.std.proofs.lemmas.List.Edits.{sets};
ghost use Rattle.foil_spec.specs.Foil.{entry_numbers};
ghost use Rattle.foil_spec.specs.Corners.{point_numbers, corner_at};
ghost use Rattle.foil_spec.specs.Lent.{entry_at, strip_numbers, listed_strip};
ghost use Rattle.foil_spec.specs.Sheet.{no_board};

use foil_spec::{Board, Entry, Point, Strip};

// The entry at place k of a table.
#[tactic(auto, unfolding(foil_spec::specs::Lent::entry_at))]
pub fn entry_at(table: &[u16], k: usize) -> Entry
    requires { k * 5 + 5 ≤ length table.now }
    ensures { result ≡ entry_at table.now k }
{
    Entry {
        net: table[k * 5],
        x0: table[k * 5 + 1],
        y0: table[k * 5 + 2],
        x1: table[k * 5 + 3],
        y1: table[k * 5 + 4],
    }
}

// Puts an entry at place k of a table.
#[tactic(auto, unfolding(foil_spec::specs::Foil::entry_numbers))]
pub fn put_entry(table: &mut [u16], k: usize, e: Entry)
    requires { k * 5 + 5 ≤ length table.old }
    ensures { table.new ≡ sets table.old (k * 5) (entry_numbers e) }
{
    table[k * 5] = e.net;
    table[k * 5 + 1] = e.x0;
    table[k * 5 + 2] = e.y0;
    table[k * 5 + 3] = e.x1;
    table[k * 5 + 4] = e.y1;
}

// The strip at place k of a strip list.
#[tactic(auto, unfolding(foil_spec::specs::Lent::listed_strip))]
pub fn strip_at(list: &[u16], k: usize) -> Strip
    requires { k * 4 + 4 ≤ length list.now }
    ensures { result ≡ listed_strip list.now k }
{
    Strip {
        x0: list[k * 4],
        y0: list[k * 4 + 1],
        x1: list[k * 4 + 2],
        y1: list[k * 4 + 3],
    }
}

// Puts a strip at place k of a strip list.
#[tactic(auto, unfolding(foil_spec::specs::Lent::strip_numbers))]
pub fn put_strip(list: &mut [u16], k: usize, s: Strip)
    requires { k * 4 + 4 ≤ length list.old }
    ensures { list.new ≡ sets list.old (k * 4) (strip_numbers s) }
{
    list[k * 4] = s.x0;
    list[k * 4 + 1] = s.y0;
    list[k * 4 + 2] = s.x1;
    list[k * 4 + 3] = s.y1;
}

// The corner at place k of a corner list.
#[tactic(auto, unfolding(foil_spec::specs::Corners::corner_at))]
pub fn corner_at(list: &[u16], k: usize) -> Point
    requires { k * 2 + 2 ≤ length list.now }
    ensures { result ≡ corner_at list.now k }
{
    Point {
        x: list[k * 2],
        y: list[k * 2 + 1],
    }
}

// Puts a corner at place k of a corner list.
#[tactic(auto, unfolding(foil_spec::specs::Corners::point_numbers))]
pub fn put_corner(list: &mut [u16], k: usize, p: Point)
    requires { k * 2 + 2 ≤ length list.old }
    ensures { list.new ≡ sets list.old (k * 2) (point_numbers p) }
{
    list[k * 2] = p.x;
    list[k * 2 + 1] = p.y;
}

// The record of a foil before it is begun.
pub fn no_board() -> Board
    ensures { result ≡ no_board }
{
    Board {
        width: 0,
        height: 0,
        half: 0,
        gap: 0,
        entries: 0,
        strips: 0,
    }
}
