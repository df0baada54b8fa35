// The labels before the first round: each crossing of the grid that is a target gets the label 1 and the ink 0. A
// target is a point in one of the first k target boxes that the first n boxes leave free. Each function serves both
// directions, as in `grid` and `labels`.
#![tactic(auto)]

ghost use Rattle.std.specs.Prelude.{◌≡◌, true, ◌+◌, ◌*◌, ◌≤◌, length};
ghost use Rattle.foil_spec.specs.Lent.{entry_at};
ghost use Rattle.zones.specs.Boxes.{inside, covers};
ghost use Rattle.grid.specs.Extent.{turned};
ghost use Rattle.sowing.specs.Seeds.{boxed, overlap, Enough, BlockSown, Sowable, Sown, Sows};
ghost use Rattle.sowing.specs.Seeds.{BlockAsked, BoxAsked, TargetsAsked, clear_at, aimed_at, aimed_one};

use foil_spec::Entry;
use grid::{Extent, STRIDE, extent_of, first_from};
use places::entry_at;

// Whether what a box covers on an axis has the number x.
#[tactic(auto, unfolding(zones::specs::Boxes::inside))]
fn within(e: Extent, x: u16) -> bool
    ensures { result ≡ inside e.from e.to x }
{
    e.from <= x && x < e.to
}

// Whether box k of a table has the point (x, y), or (y, x) if upright.
fn box_has(boxes: &[u16], k: usize, upright: bool, x: u16, y: u16) -> bool
    requires { k * 5 + 5 ≤ length boxes.now }
    ensures { result ≡ turned upright (covers (entry_at boxes.now k)) x y }
{
    within(extent_of(boxes, k, upright), x) && within(extent_of(boxes, k, !upright), y)
}

// Whether one of the first n boxes of a table has it.
pub fn is_boxed(boxes: &[u16], n: usize, upright: bool, x: u16, y: u16) -> bool
    requires { n * 5 ≤ length boxes.now }
    ensures { result ≡ boxed n boxes.now upright x y }
{
    (0..n).any(|k| box_has(boxes, k, upright, x, y))
}

// Whether two boxes that are not empty have a point in common.
fn overlap(a: Entry, b: Entry) -> bool
    ensures { result ≡ overlap a b }
{
    a.x0 < b.x1 && b.x0 < a.x1 && a.y0 < b.y1 && b.y0 < a.y1
}

// How many of the first n boxes are to be tried for the points of a target box: those behind the last that has one of
// them need not be. For a leg that no box meets that is none.
fn boxes_near(boxes: &[u16], n: usize, target: Entry) -> usize
    requires { n * 5 ≤ length boxes.now }
    ensures { Enough n boxes.now target result }
{
    for k in (0..n).rev() {
        if overlap(entry_at(boxes, k), target) {
            return k + 1;
        }
    }
    0
}

// Sows crossing k of a line.
fn sow(labels: &mut [u16], inks: &mut [u32], line: usize, k: usize)
    requires { Sowable (line + 1) (k + 1) labels.old inks.old }
    ensures { BlockSown line (line + 1) k (k + 1) (λ i c. true) labels.old inks.old
        labels.new inks.new }
{
    inks[line * STRIDE + k] = 0;
    labels[line * STRIDE + k] = 1;
}

// The same, if the first n boxes leave it free.
fn sow_clear(
    labels: &mut [u16],
    inks: &mut [u32],
    boxes: &[u16],
    n: usize,
    upright: bool,
    lines: &[u16],
    cross: &[u16],
    line: usize,
    k: usize,
)
    requires { BlockAsked boxes.now n lines.now cross.now line (line + 1) k (k + 1) labels.old inks.old }
    ensures { BlockSown line (line + 1) k (k + 1)
        (clear_at n boxes.now upright lines.now cross.now)
        labels.old inks.old labels.new inks.new }
{
    if !is_boxed(boxes, n, upright, cross[k], lines[line]) {
        sow(labels, inks, line, k);
    }
}

// The same for the crossings lo to hi, hi excluded.
fn sow_run(
    labels: &mut [u16],
    inks: &mut [u32],
    boxes: &[u16],
    n: usize,
    upright: bool,
    lines: &[u16],
    cross: &[u16],
    line: usize,
    lo: usize,
    hi: usize,
)
    requires { BlockAsked boxes.now n lines.now cross.now line (line + 1) lo hi labels.old inks.old }
    ensures { BlockSown line (line + 1) lo hi
        (clear_at n boxes.now upright lines.now cross.now)
        labels.old inks.old labels.new inks.new }
{
    for k in lo..hi {
        sow_clear(labels, inks, boxes, n, upright, lines, cross, line, k);
    }
}

// The same for the lines a to b, b excluded.
fn sow_block(
    labels: &mut [u16],
    inks: &mut [u32],
    boxes: &[u16],
    n: usize,
    upright: bool,
    lines: &[u16],
    cross: &[u16],
    a: usize,
    b: usize,
    lo: usize,
    hi: usize,
)
    requires { BlockAsked boxes.now n lines.now cross.now a b lo hi labels.old inks.old }
    ensures { BlockSown a b lo hi
        (clear_at n boxes.now upright lines.now cross.now)
        labels.old inks.old labels.new inks.new }
{
    for line in a..b {
        sow_run(labels, inks, boxes, n, upright, lines, cross, line, lo, hi);
    }
}

// The same for the crossings in target box e, of m lines with c crossings each.
fn sow_box(
    labels: &mut [u16],
    inks: &mut [u32],
    boxes: &[u16],
    n: usize,
    targets: &[u16],
    e: usize,
    upright: bool,
    lines: &[u16],
    m: usize,
    cross: &[u16],
    c: usize,
)
    requires { BoxAsked boxes.now n targets.now e lines.now m cross.now c labels.old inks.old }
    ensures { Sows (aimed_one n boxes.now (entry_at targets.now e) upright
        lines.now cross.now) m c labels.old inks.old
        labels.new inks.new }
{
    let near = boxes_near(boxes, n, entry_at(targets, e));
    let beside = extent_of(targets, e, !upright);
    let a = first_from(lines, m, beside.from);
    let b = first_from(lines, m, beside.to);
    let along = extent_of(targets, e, upright);
    let lo = first_from(cross, c, along.from);
    let hi = first_from(cross, c, along.to);
    sow_block(
        labels, inks, boxes, near, upright, lines, cross, a, b, lo, hi,
    );
}

// The same for all targets, where there is no label yet.
pub fn sow_targets(
    labels: &mut [u16],
    inks: &mut [u32],
    boxes: &[u16],
    n: usize,
    targets: &[u16],
    k: usize,
    upright: bool,
    lines: &[u16],
    m: usize,
    cross: &[u16],
    c: usize,
)
    requires { TargetsAsked boxes.now n targets.now k lines.now m cross.now c labels.old inks.old }
    ensures { Sown (aimed_at n boxes.now k targets.now upright
        lines.now cross.now) m c labels.new inks.new }
{
    for e in 0..k {
        sow_box(
            labels, inks, boxes, n, targets, e, upright, lines, m, cross, c,
        );
    }
}
