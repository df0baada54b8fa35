// The labels of the escape grid's crossings, breadth first from the target, and the walk back along them.
//
// A label says how many segments, the first along the line, lead to the target, and one more; the ink beside it says
// how many steps these take at least. Level labels, inks and links stand row after row, upright ones column after
// column, so that one function serves both directions: a line is a row or a column, `cross` has the numbers of its
// crossings, `labels` and `own` have the labels and inks of its own direction, and `other` and `inks` those of the
// other one. Where both directions meet, `il` and `iu` are the level and the upright inks, `kl` and `ku` the links, and
// `ml` and `mu` the marks: where, on each line, the labels of the round before are.
#![tactic(auto)]

ghost use Rattle.std.specs.Prelude.{◌≡◌, true, false, ℕ, ◌+◌, ◌*◌, ◌≤◌, ◌<◌, length};
ghost use Rattle.grid.specs.Size.{stride};
ghost use Rattle.runs.specs.Line.{along, HasLine, label_top};
ghost use Rattle.runs.specs.Ink.{OnLine, Blank};
ghost use Rattle.labels.specs.Pass.{Below, Marks, Marked, Widened, NextNew, Summed};
ghost use Rattle.labels.specs.Pass.{OneWay, LineLists, Visiting, Seeking, PassRoom};
ghost use Rattle.labels.specs.Pass.{CellFilled, RunFilled, Visit, PassTo, Alone};
ghost use Rattle.labels.specs.Rounds.{Sized, Begun, Shallow, Trying, Tried, Ended};
ghost use Rattle.labels.specs.Walk.{Walkable, Standing, Walk, Part};

use foil_spec::Point;
use grid::STRIDE;
use places::put_corner;
use runs::{
    ahead_of, behind_of, first_stop, has_label, ink_at, ink_run, is_left, next_stop, run_end,
    run_start,
};

// The marks of the lines of a direction have two numbers for each.
const MARKS: usize = 538;

// The run of a visit: its crossings lo to hi, hi excluded, and how many of them got labels.
#[derive(Clone, Copy)]
struct Run {
    lo: usize,
    hi: usize,
    new: usize,
}

// Makes the marks of a line span a run, unless the run has no new label.
fn widen(marks: &mut [u16], line: usize, run: Run)
    requires { (line < stride) × (2 * stride ≤ length marks.old) × (run.lo ≤ stride) × (run.hi ≤ stride) }
    ensures { Widened line run.lo run.hi run.new marks.old marks.new }
{
    if run.new == 0 {
        return;
    }
    marks[2 * line] = marks[2 * line].max((STRIDE - run.lo) as u16);
    marks[2 * line + 1] = marks[2 * line + 1].max(run.hi as u16);
}

// The first crossing of a line with the label v from the crossing `at` on, or `end`.
fn scan_new(labels: &[u16], line: usize, at: usize, end: usize, v: u16) -> usize
    requires { (line < stride) × (end ≤ stride) × HasLine labels.now line }
    ensures { NextNew labels.now line at end v result }
{
    for k in at..end {
        if labels[line * STRIDE + k] == v {
            return k;
        }
    }
    end
}

// The same. It is no more than `end`, as `run_start` is no more than its crossing.
fn next_new(labels: &[u16], line: usize, at: usize, end: usize, v: u16) -> usize
    requires { (line < stride) × (end ≤ stride) × HasLine labels.now line }
    ensures { NextNew labels.now line at end v result }
{
    scan_new(labels, line, at, end, v).min(end)
}

// The sum of the labels of a line with n crossings, each of which is 1 at most.
fn sum_of(labels: &[u16], line: usize, n: usize) -> u16
    requires { (line < stride) × (n ≤ stride) × HasLine labels.now line
        × ((k : ℕ) → k < n → along labels.now line k ≤ 1) }
    ensures { Summed labels.now line n result }
{
    labels[line * STRIDE..line * STRIDE + n].iter().sum()
}

// Marks the lines, m with n crossings each, that have a target's label, from end to end.
fn mark_targets(marks: &mut [u16], labels: &[u16], m: usize, n: usize)
    requires m_le_stride { (m ≤ stride) × (n ≤ stride) × (m * stride ≤ length labels.now)
        × (2 * stride ≤ length marks.old) }
    requires below { Below m n labels.now 1 × Marks marks.old n }
    ensures { Marked marks.new m n labels.now 1 }
{
    for line in 0..m {
        let new = sum_of(labels, line, n) as usize;
        widen(marks, line, Run { lo: 0, hi: n, new });
    }
}

// Gives crossing k of a line the label v + 1, if it has none. Returns how many labels are new.
fn fill_cell(labels: &mut [u16], line: usize, k: usize, v: u16, blank: bool) -> usize
    requires line_lt_stride { (line < stride) × (k < stride) × (v < label_top) × HasLine labels.old line }
    requires k_value { blank ≡ true → along labels.old line k ≡ 0 }
    ensures { CellFilled line k v labels.old labels.new result }
{
    if has_label(labels, line, k, blank) {
        return 0;
    }
    labels[line * STRIDE + k] = v + 1;
    1
}

// The same for the crossings lo to hi, hi excluded. Where they are known to be blank, they are not looked at.
fn fill_run(labels: &mut [u16], line: usize, lo: usize, hi: usize, v: u16, blank: bool) -> usize
    requires line_lt_stride { (line < stride) × (hi ≤ stride) × (lo ≤ hi) × (v < label_top) × HasLine labels.old line }
    requires blank { blank ≡ true → Blank labels.old line lo hi }
    ensures { RunFilled line lo hi v labels.old labels.new result }
{
    let mut new = 0;
    for k in lo..hi {
        new += fill_cell(labels, line, k, v, blank);
    }
    new
}

// Gives the run of crossing k inks and labels, unless a label above `low` says that this is done, or it is left to the
// visit of a crossing before k. Answers the run, if it was given them.
fn visit(
    labels: &mut [u16],
    own: &mut [u32],
    ahead: &mut [u32],
    behind: &mut [u32],
    other: &[u16],
    inks: &[u32],
    link: &[u8],
    cross: &[u16],
    line: usize,
    n: usize,
    k: usize,
    v: u16,
    low: u16,
) -> Option<Run>
    requires { OnLine other.now inks.now cross.now line n v × LineLists labels.old own.old link.now line
        × Visiting labels.old other.now link.now ahead.old behind.old line n k v low }
    ensures { Visit other.now inks.now link.now cross.now line n k v
        labels.old labels.new own.old own.new result }
{
    if low < labels[line * STRIDE + k] || is_left(other, link, line, k, v) {
        return None;
    }
    let lo = run_start(link, line, k);
    let hi = run_end(link, line, n, k);
    ahead_of(ahead, other, inks, cross, line, n, lo, hi, k, v);
    behind_of(behind, other, inks, cross, line, n, lo, hi, k, v);
    let blank = low == 0;
    ink_run(
        own, ahead, behind, labels, other, inks, cross, line, n, lo, hi, v, blank,
    );
    let new = fill_run(labels, line, lo, hi, v, blank);
    Some(Run { lo, hi, new })
}

// A pass over m lines with n crossings each: labels v + 1 what is joined with a label v of the other direction, whose
// marks are `from`, and marks the lines where labels are new. Returns how many are.
fn label_pass(
    labels: &mut [u16],
    own: &mut [u32],
    marks: &mut [u16],
    ahead: &mut [u32],
    behind: &mut [u32],
    other: &[u16],
    inks: &[u32],
    link: &[u8],
    cross: &[u16],
    from: &[u16],
    m: usize,
    n: usize,
    v: u16,
) -> usize
    requires { OneWay labels.old own.old other.now inks.now link.now cross.now m n
        × Seeking labels.old other.now inks.now link.now from.now m n v
        × PassRoom from.now marks.old ahead.old behind.old n }
    ensures { PassTo other.now inks.now link.now cross.now
        m n v (n * stride) labels.old labels.new own.old own.new
        marks.new result }
{
    // Up to which label a crossing may have no run yet: 1, the target's, in the first round.
    let low = 2u16.saturating_sub(v);
    let mut new = 0;
    for k in 0..n {
        let first = STRIDE - from[2 * k] as usize;
        let end = from[2 * k + 1] as usize;
        let mut line = next_new(other, k, first, end, v);
        while line < end {
            if let Some(run) = visit(
                labels, own, ahead, behind, other, inks, link, cross, line, n, k, v, low,
            ) {
                new += run.new;
                widen(marks, line, run);
            }
            line = next_new(other, k, line + 1, end, v);
        }
    }
    new
}

// Gives crossing k of a line alone what a pass gives it: if it has no label and is joined with a label v of the other
// direction, the label v + 1 and its ink. Returns whether it has a label then.
fn label_alone(
    labels: &mut [u16],
    own: &mut [u32],
    other: &[u16],
    inks: &[u32],
    link: &[u8],
    cross: &[u16],
    line: usize,
    n: usize,
    k: usize,
    v: u16,
) -> bool
    requires { OnLine other.now inks.now cross.now line n v × LineLists labels.old own.old link.now line
        × (k < n) }
    ensures { Alone other.now inks.now link.now cross.now line n k v
        labels.old labels.new own.old own.new result }
{
    if labels[line * STRIDE + k] != 0 {
        return true;
    }
    let lo = run_start(link, line, k);
    let hi = run_end(link, line, n, k);
    let h = first_stop(other, line, lo, hi, v);
    if h == hi {
        return false;
    }
    labels[line * STRIDE + k] = v + 1;
    own[line * STRIDE + k] = ink_at(other, inks, cross, line, n, h, hi, k, v);
    true
}

// Gives the crossing of column i and row j alone what a round gives it that looks for the label v. Returns whether it
// has a label then: the round would be the last one.
fn last_round(
    level: &mut [u16],
    upright: &mut [u16],
    il: &mut [u32],
    iu: &mut [u32],
    kl: &[u8],
    ku: &[u8],
    cols: &[u16],
    rows: &[u16],
    nc: usize,
    nr: usize,
    i: usize,
    j: usize,
    v: u16,
) -> bool
    requires { Sized level.old upright.old il.old iu.old kl.now ku.now cols.now rows.now nc nr
        × Trying level.old upright.old il.old iu.old nc nr i j v }
    ensures { Tried kl.now ku.now cols.now rows.now nc nr i j v
        level.old upright.old il.old iu.old
        level.new upright.new il.new iu.new result }
{
    let along = label_alone(level, il, upright, iu, kl, cols, j, nc, i, v);
    let up = label_alone(upright, iu, level, il, ku, rows, i, nr, j, v);
    along || up
}

// Rounds of a level and an upright pass until the crossing of column i and row j gets a label, or a round labels
// nothing. Returns whether it has one. The last round labels that crossing alone: a walk from it comes over smaller
// labels only. The targets have labels.
pub fn rounds(
    level: &mut [u16],
    upright: &mut [u16],
    il: &mut [u32],
    iu: &mut [u32],
    kl: &[u8],
    ku: &[u8],
    cols: &[u16],
    rows: &[u16],
    nc: usize,
    nr: usize,
    i: usize,
    j: usize,
) -> bool
    requires sized { Sized level.old upright.old il.old iu.old kl.now ku.now cols.now rows.now nc nr
        × (i < nc) × (j < nr) }
    requires begun { Begun level.old upright.old il.old iu.old nc nr }
    requires shallow { Shallow kl.now ku.now cols.now rows.now nc nr level.old upright.old il.old iu.old }
    ensures { Ended kl.now ku.now cols.now rows.now nc nr i j
        level.old upright.old il.old iu.old
        level.new upright.new il.new iu.new result }
{
    let mut ahead = [0u32; STRIDE];
    let mut behind = [0u32; STRIDE];
    let mut ml = [0u16; MARKS];
    let mut mu = [0u16; MARKS];
    mark_targets(&mut ml, level, nr, nc);
    mark_targets(&mut mu, upright, nc, nr);
    let mut v = 1u16;
    loop {
        if last_round(level, upright, il, iu, kl, ku, cols, rows, nc, nr, i, j, v) {
            return true;
        }
        let mut nl = [0u16; MARKS];
        let mut nu = [0u16; MARKS];
        let le = label_pass(
            level,
            il,
            &mut nl,
            &mut ahead,
            &mut behind,
            upright,
            iu,
            kl,
            cols,
            &mu,
            nr,
            nc,
            v,
        );
        let ue = label_pass(
            upright,
            iu,
            &mut nu,
            &mut ahead,
            &mut behind,
            level,
            il,
            ku,
            rows,
            &ml,
            nc,
            nr,
            v,
        );
        if le + ue == 0 {
            return false;
        }
        ml = nl;
        mu = nu;
        v += 1;
    }
}

// A walk under way: it stands at the crossing of column i and row j, whose label in the direction of its next segment
// is `label`, and has written so many corners.
#[derive(Clone, Copy)]
pub struct Walker {
    pub i: usize,
    pub j: usize,
    pub upright: bool,
    pub label: u16,
    pub corners: usize,
}

// A walk's parts have so many legs at most, so that the calls of the two steps go no deeper.
const PART: usize = 32;

// Puts the next corners of a walk whose next segment is level, at most as many as there are legs left: a level segment
// to the first stop for one less over which the ink leads, and on from there. Returns where the walk stands then.
#[cycle(level_step_upright_step)]
fn level_step(
    out: &mut [u16],
    legs: usize,
    level: &[u16],
    upright: &[u16],
    il: &[u32],
    iu: &[u32],
    kl: &[u8],
    ku: &[u8],
    cols: &[u16],
    rows: &[u16],
    nc: usize,
    nr: usize,
    w: Walker,
) -> Walker
    requires walkable { Walkable level.now upright.now il.now iu.now kl.now ku.now cols.now rows.now nc nr }
    requires standing { Standing level.now upright.now nc nr w out.old }
    requires upright_value { w.upright ≡ false }
    ensures { Part level.now upright.now il.now iu.now
        kl.now ku.now cols.now rows.now nc nr legs w out.old
        result out.new }
{
    let v = w.label;
    if v == 1 || legs == 0 {
        return w;
    }
    let i = w.i;
    let j = w.j;
    let at = w.corners;
    let k = next_stop(upright, iu, kl, cols, j, nc, i, v - 1, il[j * STRIDE + i]);
    let x = cols[k];
    let y = rows[j];
    put_corner(out, at, Point { x, y });
    let next = Walker {
        i: k,
        j,
        upright: true,
        label: v - 1,
        corners: at + 1,
    };
    upright_step(
        out,
        legs - 1,
        level,
        upright,
        il,
        iu,
        kl,
        ku,
        cols,
        rows,
        nc,
        nr,
        next,
    )
}

// The same for a walk whose next segment is upright.
#[cycle(level_step_upright_step)]
fn upright_step(
    out: &mut [u16],
    legs: usize,
    level: &[u16],
    upright: &[u16],
    il: &[u32],
    iu: &[u32],
    kl: &[u8],
    ku: &[u8],
    cols: &[u16],
    rows: &[u16],
    nc: usize,
    nr: usize,
    w: Walker,
) -> Walker
    requires walkable { Walkable level.now upright.now il.now iu.now kl.now ku.now cols.now rows.now nc nr }
    requires standing { Standing level.now upright.now nc nr w out.old }
    requires upright_value { w.upright ≡ true }
    ensures { Part level.now upright.now il.now iu.now
        kl.now ku.now cols.now rows.now nc nr legs w out.old
        result out.new }
{
    let v = w.label;
    if v == 1 || legs == 0 {
        return w;
    }
    let i = w.i;
    let j = w.j;
    let at = w.corners;
    let k = next_stop(level, il, ku, rows, i, nr, j, v - 1, iu[i * STRIDE + j]);
    let x = cols[i];
    let y = rows[k];
    put_corner(out, at, Point { x, y });
    let next = Walker {
        i,
        j: k,
        upright: false,
        label: v - 1,
        corners: at + 1,
    };
    level_step(
        out,
        legs - 1,
        level,
        upright,
        il,
        iu,
        kl,
        ku,
        cols,
        rows,
        nc,
        nr,
        next,
    )
}

// A part of a walk: its next segments, level and upright by turns.
fn walk_part(
    out: &mut [u16],
    level: &[u16],
    upright: &[u16],
    il: &[u32],
    iu: &[u32],
    kl: &[u8],
    ku: &[u8],
    cols: &[u16],
    rows: &[u16],
    nc: usize,
    nr: usize,
    w: Walker,
) -> Walker
    requires walkable { Walkable level.now upright.now il.now iu.now kl.now ku.now cols.now rows.now nc nr }
    requires standing { Standing level.now upright.now nc nr w out.old }
    ensures { Part level.now upright.now il.now iu.now
        kl.now ku.now cols.now rows.now nc nr 32 w out.old
        result out.new }
{
    if w.upright {
        return upright_step(
            out, PART, level, upright, il, iu, kl, ku, cols, rows, nc, nr, w,
        );
    }
    level_step(
        out, PART, level, upright, il, iu, kl, ku, cols, rows, nc, nr, w,
    )
}

// Puts all corners of a walk that are still to come, part by part.
#[tactic(auto, using(crate::proofs::Walk::walking_done))]
pub fn walk_on(
    out: &mut [u16],
    level: &[u16],
    upright: &[u16],
    il: &[u32],
    iu: &[u32],
    kl: &[u8],
    ku: &[u8],
    cols: &[u16],
    rows: &[u16],
    nc: usize,
    nr: usize,
    from: Walker,
)
    requires walkable { Walkable level.now upright.now il.now iu.now kl.now ku.now cols.now rows.now nc nr }
    requires standing { Standing level.now upright.now nc nr from out.old }
    ensures { Walk level.now upright.now il.now iu.now
        kl.now ku.now cols.now rows.now nc nr from
        out.old out.new }
{
    let mut w = from;
    while 1 < w.label {
        w = walk_part(out, level, upright, il, iu, kl, ku, cols, rows, nc, nr, w);
    }
}
