// The search for the first path of fewest bends and least length: the escape grid, its labels, and the walk put
// together.
//
// The work lists of `labels` and `walk` are `level` and `upright` for the labels of the grid's crossings in the two
// directions, `il` and `iu` for their inks, `kl` and `ku` for the level and the upright links between crossings (STRIDE
// places for each line that there may be), and `cols` and `rows` for the lines of the grid (STRIDE places).
#![tactic(auto)]

ghost use Rattle.std.specs.Prelude.{◌≡◌, [], ◌∷◌, ◌+◌, ◌*◌, ◌≤◌, ◌<◌, length};
ghost use Rattle.std.proofs.Math.Option.{some};
ghost use Rattle.foil_spec.specs.Paths.{first_path};
ghost use Rattle.zones.specs.Boxes.{box_free};
ghost use Rattle.grid.specs.Size.{stride};
ghost use Rattle.runs.specs.Line.{along};
ghost use Rattle.search.specs.Grid.{Posed, path_to, Aimed, RoomAsked, BuildAsked, Has, Placed, Grid};
ghost use Rattle.search.specs.Choice.{ChoiceAsked, Choice};
ghost use Rattle.search.specs.Search.{SearchAsked, LabelAsked, Labelled, Starts, Searched, WalkAsked, Walked};
ghost use Rattle.search.specs.Search.{PathFound, WriteAsked, PathWritten};

use foil_spec::Point;
use grid::{AREA, STRIDE, axis, links};
use labels::{Walker, rounds, walk_on};
use places::put_corner;
use runs::next_stop;
use sowing::{is_boxed, sow_targets};

// Up to so many boxes and target boxes make few lines: 69 an axis. What is kept of their crossings is a quarter of
// AREA, which takes a quarter of the time to fill.
const FEW: usize = 33;

const FEW_AREA: usize = 18561;

// What a search is asked: how many boxes and target boxes there are, the foil's width and height, and the start.
#[derive(Clone, Copy)]
pub struct Aim {
    pub n: usize,
    pub k: usize,
    pub w: u16,
    pub h: u16,
    pub from: Point,
}

// How many columns and rows the grid has.
#[derive(Clone, Copy)]
struct Size {
    columns: usize,
    rows: usize,
}

// Where the start is on the grid: its column and row, where its crossing has a label.
#[derive(Clone, Copy)]
struct Arrived {
    i: usize,
    j: usize,
}

// Where the first path begins: the start's column and row, whether the first segment is upright, and how many corners
// the path has.
#[derive(Clone, Copy)]
struct Start {
    columns: usize,
    rows: usize,
    i: usize,
    j: usize,
    upright: bool,
    corners: usize,
}

// Makes the escape grid of a foil, with lines through the start and at the ends of the target boxes: its columns, its
// rows, and the links of both.
fn build(
    cols: &mut [u16],
    rows: &mut [u16],
    kl: &mut [u8],
    ku: &mut [u8],
    boxes: &[u16],
    targets: &[u16],
    aim: Aim,
) -> Size
    requires { BuildAsked boxes.now targets.now aim cols.old rows.old kl.old ku.old }
    ensures { Grid boxes.now targets.now aim cols.new rows.new
        kl.new ku.new result.columns result.rows }
{
    let n = aim.n;
    let k = aim.k;
    let nc = axis(
        cols,
        boxes,
        n,
        targets,
        k,
        false,
        usize::from(aim.w),
        usize::from(aim.from.x),
    );
    let nr = axis(
        rows,
        boxes,
        n,
        targets,
        k,
        true,
        usize::from(aim.h),
        usize::from(aim.from.y),
    );
    links(kl, boxes, n, false, rows, nr, cols, nc);
    links(ku, boxes, n, true, cols, nc, rows, nr);
    Size {
        columns: nc,
        rows: nr,
    }
}

// The place of x among the first n lines, one of which is x.
fn index_of(lines: &[u16], n: usize, x: u16) -> usize
    requires { (n ≤ length lines.now) × Has lines.now n x }
    ensures { Placed lines.now n x result }
{
    lines[..n].iter().position(|l| *l == x).unwrap()
}

// Labels the crossings of the grid from the targets on until the start has a label or there is nothing more to label.
// Answers where the start is, if it has a label.
fn label(
    level: &mut [u16],
    upright: &mut [u16],
    il: &mut [u32],
    iu: &mut [u32],
    kl: &[u8],
    ku: &[u8],
    cols: &[u16],
    rows: &[u16],
    boxes: &[u16],
    targets: &[u16],
    aim: Aim,
    size: Size,
) -> Option<Arrived>
    requires { LabelAsked boxes.now targets.now aim cols.now rows.now kl.now ku.now
        size.columns size.rows level.old upright.old il.old iu.old }
    ensures { Labelled boxes.now targets.now aim cols.now rows.now
        kl.now ku.now size.columns size.rows
        level.new upright.new il.new iu.new result }
{
    let n = aim.n;
    let k = aim.k;
    let nc = size.columns;
    let nr = size.rows;
    let i = index_of(cols, nc, aim.from.x);
    let j = index_of(rows, nr, aim.from.y);
    sow_targets(level, il, boxes, n, targets, k, false, rows, nr, cols, nc);
    sow_targets(upright, iu, boxes, n, targets, k, true, cols, nc, rows, nr);
    let found = rounds(level, upright, il, iu, kl, ku, cols, rows, nc, nr, i, j);
    found.then_some(Arrived { i, j })
}

// The label of crossing k of a line.
fn label_at(labels: &[u16], line: usize, k: usize) -> u16
    requires { line * stride + k < length labels.now }
    ensures { result ≡ along labels.now line k }
{
    labels[line * STRIDE + k]
}

// Whether the first path goes upright from the crossing of column i and row j, which has a label. Where both ways
// need as many segments and steps, it does so if that leads to a smaller y.
fn starts_upright(
    level: &[u16],
    upright: &[u16],
    il: &[u32],
    iu: &[u32],
    ku: &[u8],
    rows: &[u16],
    nr: usize,
    i: usize,
    j: usize,
) -> bool
    requires { ChoiceAsked level.now upright.now il.now iu.now ku.now rows.now nr i j }
    ensures { Choice level.now upright.now il.now iu.now
        ku.now rows.now nr i j result }
{
    let a = level[j * STRIDE + i];
    let b = upright[i * STRIDE + j];
    let s = il[j * STRIDE + i];
    let t = iu[i * STRIDE + j];
    if a == 0 || b == 0 {
        return a == 0;
    }
    if a != b {
        return b < a;
    }
    if s != t {
        return t < s;
    }
    a != 1 && next_stop(level, il, ku, rows, i, nr, j, a - 1, t) < j
}

// Where the walk starts: at the start's crossing, which has a label.
fn start_at(
    level: &[u16],
    upright: &[u16],
    il: &[u32],
    iu: &[u32],
    ku: &[u8],
    rows: &[u16],
    size: Size,
    at: Arrived,
) -> Start
    requires { ChoiceAsked level.now upright.now il.now iu.now ku.now rows.now size.rows at.i at.j }
    ensures { Starts level.now upright.now il.now iu.now
        ku.now rows.now size.columns size.rows at.i at.j result }
{
    let Arrived { i, j } = at;
    let up = starts_upright(level, upright, il, iu, ku, rows, size.rows, i, j);
    let corners = if up {
        label_at(upright, i, j)
    } else {
        label_at(level, j, i)
    };
    Start {
        columns: size.columns,
        rows: size.rows,
        i,
        j,
        upright: up,
        corners: usize::from(corners),
    }
}

// Searches the first path of fewest bends from a free point of a foil to a target, and says where it begins, if there
// is a path. What it leaves in the lists is for `walk`; before, the lists of labels hold zeros.
fn labels(
    level: &mut [u16],
    upright: &mut [u16],
    il: &mut [u32],
    iu: &mut [u32],
    cols: &mut [u16],
    rows: &mut [u16],
    kl: &mut [u8],
    ku: &mut [u8],
    boxes: &[u16],
    targets: &[u16],
    aim: Aim,
) -> Option<Start>
    requires { SearchAsked boxes.now targets.now aim cols.old rows.old kl.old ku.old
        level.old upright.old il.old iu.old }
    ensures { Searched (path_to boxes.now targets.now aim) cols.new
        rows.new kl.new ku.new level.new upright.new
        il.new iu.new result }
{
    let size = build(cols, rows, kl, ku, boxes, targets, aim);
    let at = label(
        level, upright, il, iu, kl, ku, cols, rows, boxes, targets, aim, size,
    )?;
    Some(start_at(level, upright, il, iu, ku, rows, size, at))
}

// Writes the corners of the first path to the front of `out` and nothing else, from what `labels` left.
fn walk(
    out: &mut [u16],
    level: &[u16],
    upright: &[u16],
    il: &[u32],
    iu: &[u32],
    kl: &[u8],
    ku: &[u8],
    cols: &[u16],
    rows: &[u16],
    s: Start,
)
    requires { WalkAsked cols.now rows.now kl.now ku.now level.now upright.now il.now iu.now s
        out.old }
    ensures { Walked cols.now rows.now kl.now ku.now
        level.now upright.now il.now iu.now s
        out.old out.new }
{
    let x = cols[s.i];
    let y = rows[s.j];
    put_corner(out, 0, Point { x, y });
    let first = Walker {
        i: s.i,
        j: s.j,
        upright: s.upright,
        label: s.corners as u16,
        corners: 1,
    };
    walk_on(
        out, level, upright, il, iu, kl, ku, cols, rows, s.columns, s.rows, first,
    );
}

// Writes the corners of the path that `labels` found where they fit, and answers how many there are.
fn write_path(
    out: &mut [u16],
    level: &[u16],
    upright: &[u16],
    il: &[u32],
    iu: &[u32],
    kl: &[u8],
    ku: &[u8],
    cols: &[u16],
    rows: &[u16],
    s: Start,
) -> usize
    requires { WriteAsked cols.now rows.now kl.now ku.now level.now upright.now il.now iu.now s }
    ensures { PathWritten cols.now rows.now kl.now ku.now
        level.now upright.now il.now iu.now s
        out.old out.new result }
{
    if out.len() / 2 < s.corners {
        return s.corners;
    }
    walk(out, level, upright, il, iu, kl, ku, cols, rows, s);
    s.corners
}

// Searches the first path, and writes its corners where they fit.
fn path_in(
    out: &mut [u16],
    level: &mut [u16],
    upright: &mut [u16],
    il: &mut [u32],
    iu: &mut [u32],
    cols: &mut [u16],
    rows: &mut [u16],
    kl: &mut [u8],
    ku: &mut [u8],
    boxes: &[u16],
    targets: &[u16],
    aim: Aim,
) -> Option<usize>
    requires { SearchAsked boxes.now targets.now aim cols.old rows.old kl.old ku.old
        level.old upright.old il.old iu.old }
    ensures { PathFound (path_to boxes.now targets.now aim)
        out.old out.new result }
{
    let start = labels(
        level, upright, il, iu, cols, rows, kl, ku, boxes, targets, aim,
    )?;
    Some(write_path(out, level, upright, il, iu, kl, ku, cols, rows, start))
}

// The same, with lists that hold so many crossings.
fn path_among<const CROSSINGS: usize>(
    out: &mut [u16],
    boxes: &[u16],
    targets: &[u16],
    aim: Aim,
) -> Option<usize>
    requires { RoomAsked boxes.now targets.now aim CROSSINGS }
    ensures { PathFound (path_to boxes.now targets.now aim)
        out.old out.new result }
{
    let mut level = [0u16; CROSSINGS];
    let mut upright = [0u16; CROSSINGS];
    let mut il = [0u32; CROSSINGS];
    let mut iu = [0u32; CROSSINGS];
    let mut cols = [0u16; STRIDE];
    let mut rows = [0u16; STRIDE];
    let mut kl = [0u8; CROSSINGS];
    let mut ku = [0u8; CROSSINGS];
    path_in(
        out,
        &mut level,
        &mut upright,
        &mut il,
        &mut iu,
        &mut cols,
        &mut rows,
        &mut kl,
        &mut ku,
        boxes,
        targets,
        aim,
    )
}

// The path from a target to itself: one corner, put at the front of `out` where it fits. Answers how many there are.
fn stay(out: &mut [u16], target: Point) -> Option<usize>
    ensures { PathFound (some (target ∷ [])) out.old out.new result }
{
    if 2 <= out.len() {
        put_corner(out, 0, target);
    }
    Some(1)
}

// Searches the first path of fewest bends and least length from a point that the first n boxes leave free to a target,
// which is a point in one of the first k target boxes that they leave free. Answers how many corners it has, if there
// is a path. Where they fit, they are written to the front of `out`, and else nothing is.
pub fn first_path_to(out: &mut [u16], boxes: &[u16], targets: &[u16], aim: Aim) -> Option<usize>
    requires { Aimed boxes.now targets.now aim }
    ensures { PathFound (path_to boxes.now targets.now aim)
        out.old out.new result }
{
    if is_boxed(targets, aim.k, false, aim.from.x, aim.from.y) {
        return stay(out, aim.from);
    }
    if aim.n + aim.k <= FEW {
        return path_among::<FEW_AREA>(out, boxes, targets, aim);
    }
    path_among::<AREA>(out, boxes, targets, aim)
}

// The same to one point, which they leave free.
pub fn first_path(
    out: &mut [u16],
    boxes: &[u16],
    n: usize,
    w: u16,
    h: u16,
    from: Point,
    to: Point,
) -> Option<usize>
    requires { Posed boxes.now n w h from to }
    ensures { PathFound (first_path (box_free w h n boxes.now) w h from to)
        out.old out.new result }
{
    let point = [0u16, to.x, to.y, to.x + 1, to.y + 1];
    let aim = Aim {
        n,
        k: 1,
        w,
        h,
        from,
    };
    first_path_to(out, boxes, &point, aim)
}
