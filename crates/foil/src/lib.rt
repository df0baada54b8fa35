// The steps on a foil that need no search, over slices of numbers: the table has five numbers a place,
// the strip list four. Each is the body of a call (`.._in`): the crate `sheet` has taken the foil out of
// its sheet and has tried 12 and 13 by `lent_refusal`, and the body is told how many entries the foil may
// have. Lay is in the crate `laying`.
#![tactic(auto)]

mod lent;
mod pens;

ghost use Rattle.std.specs.Prelude.{◌≡◌, ◌≤◌, true, false, [], map, length};
ghost use Rattle.foil_spec.specs.Lists.{range};
ghost use Rattle.foil_spec.specs.Limits.{max_entries, table_size, strips_size};
ghost use Rattle.foil_spec.specs.Foil.{entry_ok, pen_rule};
ghost use Rattle.foil_spec.specs.Ledger.{new_foil, draw as draws, lift as lifts, look_up, put_leg, Room, short};
ghost use Rattle.foil_spec.specs.Lent.{lent, entry_at, layout_of, pen_in, sound, step_on};
ghost use Rattle.zones.specs.Table.{Table};
ghost use Rattle.tables.specs.Rows.{rows_of};
ghost use Rattle.foil.specs.Contract.{clearance_of, Gave, StepIn, ReadIn, taken_over};
ghost use Rattle.foil.specs.Contract.{entry_added};

use foil_spec::{Board, Entry, Point, Reason, Refusal, TABLE_SIZE};
pub use lent::{lent_refusal, lists_short};
pub use pens::Clearance;
use pens::{clearance_refusal, pen_of};
use places::put_entry;
use state::{box_ok, entry_ok, net_ok, over_leg, patch_margin, size_ok, under_patch};
use strips::locate;
use tables::{in_use, take_over, without};

// What an accepted call answers: the numbers of corners and bends after a lay, a join, a find or a booking, the strip's
// place after a look up, the number of bytes after a save or a slip, and of nets after a carry.
#[derive(Clone, Copy)]
pub enum Accepted {
    Done,
    Laid(usize, usize),
    Found(usize),
    Wrote(usize),
}

// What a call answers.
pub type Answer = Result<Accepted, Refusal>;

// Begins a foil of w by h on lists that are long enough, whatever they hold: an empty table, and one
// strip, what the edge leaves, or none.
pub fn new_foil_in(
    table: &mut [u16],
    strips: &mut [u16],
    board: &mut Board,
    w: u16,
    h: u16,
    clearance: Clearance,
) -> Answer
    requires { (table_size ≤ length table.old) × (strips_size ≤ length strips.old) }
    ensures { (room : Room) → short room ≡ false
        → Gave (step_on room (new_foil w h (clearance_of clearance))
        (lent board.old table.old strips.old)) result board.new table.new strips.new }
{
    if !size_ok(w) || !size_ok(h) {
        return Err(Reason::BadSize.into());
    }
    clearance_refusal(clearance)?;
    let pen = pen_of(clearance);
    let rows = [0u16; TABLE_SIZE];
    let bare = Board {
        width: w,
        height: h,
        half: pen.half,
        gap: pen.gap,
        entries: 0,
        strips: 0,
    };
    settle(table, strips, board, &rows, 0, bare)
}

// Draws a patch on a foil that keeps the rules and may have so many entries: appends an entry of net 0.
pub fn draw_in(
    table: &mut [u16],
    strips: &mut [u16],
    board: &mut Board,
    limit: usize,
    x0: u16,
    y0: u16,
    x1: u16,
    y1: u16,
) -> Answer
    requires strips_value { sound (lent board.old table.old strips.old) ≡ true }
    requires limit_le_max_entries { limit ≤ max_entries }
    ensures { StepIn (draws x0 y0 x1 y1) limit (lent board.old table.old strips.old)
        result board.new table.new strips.new }
{
    let patch = Entry {
        net: 0,
        x0,
        y0,
        x1,
        y1,
    };
    if !box_ok(board.width, board.height, patch) {
        return Err(Reason::BadShape.into());
    }
    if over_leg(table, board.entries, patch_margin(*board), patch) {
        return Err(Reason::Crossed.into());
    }
    add_entry(table, strips, board, limit, patch)
}

// Puts a leg as booked on a foil that keeps the rules and may have so many entries: appends an entry
// of its net, without a search.
pub fn put_leg_in(
    table: &mut [u16],
    strips: &mut [u16],
    board: &mut Board,
    limit: usize,
    leg: Entry,
) -> Answer
    requires strips_value { sound (lent board.old table.old strips.old) ≡ true }
    requires limit_le_max_entries { limit ≤ max_entries }
    ensures { StepIn (put_leg leg) limit (lent board.old table.old strips.old)
        result board.new table.new strips.new }
{
    if !net_ok(leg.net) {
        return Err(Reason::BadNet.into());
    }
    if !entry_ok(leg, board.width, board.height) {
        return Err(Reason::BadShape.into());
    }
    if under_patch(table, board.entries, patch_margin(*board), leg) {
        return Err(Reason::Crossed.into());
    }
    add_entry(table, strips, board, limit, leg)
}

// Appends an entry that a table may hold, to a foil that keeps the rules and may have so many entries;
// or refuses it by 10 or 11.
fn add_entry(
    table: &mut [u16],
    strips: &mut [u16],
    board: &mut Board,
    limit: usize,
    entry: Entry,
) -> Answer
    requires strips_value { sound (lent board.old table.old strips.old) ≡ true }
    requires limit_le_max_entries { (limit ≤ max_entries) × (entry_ok board.old.width board.old.height entry ≡ true) }
    ensures { (room : Room) → room.limit ≡ limit
        → Gave (entry_added room entry (lent board.old table.old strips.old))
        result board.new table.new strips.new }
{
    let n = board.entries;
    if limit <= n {
        return Err(Reason::TableFull.into());
    }
    let mut rows = [0u16; TABLE_SIZE];
    rows.copy_from_slice(&table[..TABLE_SIZE]);
    put_entry(&mut rows, n, entry);
    settle(table, strips, board, &rows, n + 1, *board)
}

// Lifts a net from a foil that keeps the rules, however many entries it may have: takes out all its
// entries, the rest keeping their order.
pub fn lift_in(table: &mut [u16], strips: &mut [u16], board: &mut Board, net: u16) -> Answer
    requires { sound (lent board.old table.old strips.old) ≡ true }
    ensures { (room : Room) → short room ≡ false
        → Gave (step_on room (lifts net) (lent board.old table.old strips.old))
        result board.new table.new strips.new }
{
    if !net_ok(net) {
        return Err(Reason::BadNet.into());
    }
    let n = board.entries;
    if !in_use(table, n, net) {
        return Err(Reason::NetNotOnFoil.into());
    }
    let mut rows = [0u16; TABLE_SIZE];
    let left = without(&mut rows, table, n, net);
    settle(table, strips, board, &rows, left, *board)
}

// Looks a point up on a foil that keeps the rules: the place of the one strip that holds it. Nothing
// is changed.
pub fn look_up_in(table: &[u16], strips: &[u16], board: Board, point: Point) -> Answer
    requires { sound (lent board table.now strips.now) ≡ true }
    ensures { ReadIn (look_up point) (lent board table.now strips.now) [] result [] }
{
    if board.width <= point.x || board.height <= point.y {
        return Err(Reason::OffFoil.into());
    }
    let place = locate(strips, board.strips, point).ok_or(Reason::NotFree)?;
    Ok(Accepted::Found(place))
}

// Takes the rows' n entries over on a board of the size and the pen that are asked for, or refuses by 11.
fn settle(
    table: &mut [u16],
    strips: &mut [u16],
    board: &mut Board,
    rows: &[u16],
    n: usize,
    asked: Board,
) -> Answer
    requires table { Table rows.now n (pen_rule (pen_in asked)) asked.width asked.height }
    requires rows_value { rows.now ≡ rows_of (map (entry_at rows.now) (range 0 n)) }
    requires table_size_in_bounds { (table_size ≤ length table.old) × (strips_size ≤ length strips.old) }
    ensures { Gave (taken_over
        (layout_of asked.width asked.height (pen_in asked) n rows.now)
        (lent board.old table.old strips.old)) result board.new table.new strips.new }
{
    *board = take_over(table, strips, rows, n, asked).ok_or(Reason::TooManyStrips)?;
    Ok(Accepted::Done)
}
