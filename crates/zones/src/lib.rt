// What is blocked of a foil, as boxes clipped to it.
#![tactic(auto)]

ghost use Rattle.std.specs.Prelude.{◌≡◌, ℕ, ◌+◌, ◌*◌, ◌-◌, ◌≤◌, ◌<◌, map, length};
ghost use Rattle.foil_spec.specs.Lists.{range};
ghost use Rattle.foil_spec.specs.Limits.{max_entries};
ghost use Rattle.foil_spec.specs.Foil.{entry, pen, pen_rule, margin, free_by, free};
ghost use Rattle.foil_spec.specs.Lent.{entry_at, layout_of, pen_in};
ghost use Rattle.zones.specs.Boxes.{max_boxes, Zoned, zone_of, PutTwo, Edged};
ghost use Rattle.zones.specs.Table.{Small, Table};

use foil_spec::{Board, Entry, Rule};
use places::{entry_at, put_entry};

// How many boxes a table of boxes has room for, and how many numbers they are in a flat list.
pub const MAX_BOXES: usize = 132;

pub const BOXES_SIZE: usize = 660;

// Writes what the first n entries of the table and the foil's edge block by the board's pen to the
// front of `out`, and answers how many boxes there are.
pub fn pen_zones(out: &mut [u16], table: &[u16], n: usize, board: Board) -> usize
    requires table { Table table.now n (pen_rule (pen_in board)) board.width board.height }
    requires max_boxes_in_bounds { max_boxes * 5 ≤ length out.old }
    ensures { Zoned (free (layout_of board.width board.height (pen_in board) n table.now))
        board.width board.height out.new result }
{
    let rule = pen_rule(board.half, board.gap);
    zones(out, table, n, rule, board.width, board.height)
}

// Writes what they block by any rule, and answers how many boxes there are: four more than entries at most.
pub fn zones(out: &mut [u16], table: &[u16], n: usize, rule: Rule, w: u16, h: u16) -> usize
    requires table { Table table.now n rule w h }
    requires max_boxes_in_bounds { max_boxes * 5 ≤ length out.old }
    ensures { Zoned (free_by rule w h (map (entry_at table.now) (range 0 n)))
        w h out.new result × (result ≤ n + 4) }
{
    put_zones(out, table, n, rule, w, h);
    let m = rule.edge;
    if m == 0 {
        return n;
    }
    put_edge(out, n, m, w, h);
    n + 4
}

// Writes what each of the first n entries of the table blocks to the front of `out`.
fn put_zones(out: &mut [u16], table: &[u16], n: usize, rule: Rule, w: u16, h: u16)
    requires table { Table table.now n rule w h }
    requires max_boxes_in_bounds { max_boxes * 5 ≤ length out.old }
    ensures { (k : ℕ) → k < n → entry_at out.new k
        ≡ zone_of (margin rule (entry_at table.now k)) w h (entry_at table.now k) }
{
    for k in 0..n {
        let zone = zone_of(entry_at(table, k), rule, w, h);
        put_entry(out, k, zone);
    }
}

// Writes what is nearer than m to the foil's edge as four boxes from place n on.
fn put_edge(out: &mut [u16], n: usize, m: u16, w: u16, h: u16)
    requires { (n ≤ max_entries) × (n * 5 + 20 ≤ length out.old) }
    ensures { Edged out.old out.new n m w h }
{
    let left = box_of(0, 0, m.min(w), h);
    let right = box_of(w.saturating_sub(m), 0, w, h);
    let above = box_of(0, 0, w, m.min(h));
    let below = box_of(0, h.saturating_sub(m), w, h);
    put_two(out, n, left, right);
    put_two(out, n + 2, above, below);
}

// Writes two boxes from place n on.
fn put_two(out: &mut [u16], n: usize, a: Entry, b: Entry)
    requires { n * 5 + 10 ≤ length out.old }
    ensures { PutTwo out.old out.new n a b }
{
    put_entry(out, n, a);
    put_entry(out, n + 1, b);
}

// A box by its ends.
fn box_of(x0: u16, y0: u16, x1: u16, y1: u16) -> Entry
    ensures { result ≡ entry 0 x0 y0 x1 y1 }
{
    Entry {
        net: 0,
        x0,
        y0,
        x1,
        y1,
    }
}

// What an entry blocks by the rule, clipped to a foil of w by h.
#[tactic(auto, unfolding(crate::specs::Boxes::zone_of))]
fn zone_of(e: Entry, rule: Rule, w: u16, h: u16) -> Entry
    requires { (e.x1 + margin rule e ≤ 8192) × (e.y1 + margin rule e ≤ 8192) }
    ensures { result ≡ zone_of (margin rule e) w h e }
{
    let d = margin_of(rule, e);
    box_of(
        e.x0.saturating_sub(d),
        e.y0.saturating_sub(d),
        (e.x1 + d).min(w),
        (e.y1 + d).min(h),
    )
}

// How far away an entry blocks by the rule.
#[tactic(auto, unfolding(foil_spec::specs::Foil::margin))]
fn margin_of(rule: Rule, e: Entry) -> u16
    ensures { result ≡ margin rule e }
{
    if e.net == 0 { rule.patch } else { rule.leg }
}

// The rule of a pen of half width `half` with a gap.
#[tactic(auto, unfolding(foil_spec::specs::Foil::pen_rule))]
pub fn pen_rule(half: u16, gap: u16) -> Rule
    requires { Small (pen_rule (pen half gap)) }
    ensures { result ≡ pen_rule (pen half gap) }
{
    let near = half + gap;
    Rule {
        patch: near,
        leg: half + near,
        edge: near,
    }
}
