// Runs the plain search on the starred boards of document 01 that have a track, round a patch and a leg by a wide pen,
// and to two columns of targets, and writes what it finds: a line for each search, with the corners of the path.
#![tactic(auto)]

ghost use Rattle.std.specs.Prelude.{◌≤◌, ◌<◌};

use foil_spec::Pen;

// Writes a point, as x,y.
fn print_point(rt: &impl Print, x: u16, y: u16) {
    let _ = rt.print(x);
    let _ = rt.write_all(b",");
    let _ = rt.print(y);
}

// Writes the first n corners of the list, a blank before each, and ends the line.
fn print_corners(rt: &impl Print, corners: &[u16; 8192], n: usize)
    requires { n ≤ 4096 }
{
    for i in 0..n {
        let _ = rt.write_all(b" ");
        print_point(rt, corners[i * 2], corners[i * 2 + 1]);
    }
    let _ = rt.write_all(b"\n");
}

// Writes the corners of the path that was found, if there is one, and ends the line.
fn print_found(rt: &impl Print, corners: &[u16; 8192], found: Option<usize>) {
    let n = found.unwrap_or(0);
    if n <= 4096 {
        print_corners(rt, corners, n);
    }
}

// Writes the path between two points of a board by a pen of half width 0 with a gap.
fn show(
    rt: &impl Print,
    table: &[u16; 640],
    n: usize,
    gap: u16,
    w: u16,
    h: u16,
    sx: u16,
    sy: u16,
    tx: u16,
    ty: u16,
)
    requires { n ≤ 128 }
{
    let pen = Pen { half: 0, gap };
    show_by(rt, table, n, pen, w, h, sx, sy, tx, ty);
}

// Writes the path between two points of a board by a pen.
fn show_by(
    rt: &impl Print,
    table: &[u16; 640],
    n: usize,
    pen: Pen,
    w: u16,
    h: u16,
    sx: u16,
    sy: u16,
    tx: u16,
    ty: u16,
)
    requires { n ≤ 128 }
{
    let mut map = [false; 4096];
    let mut corners = [0u16; 8192];
    plain::free_points(&mut map, table, n, pen, w, h);
    let found = plain::first_path(&mut corners, &map, sx, sy, tx, ty);
    print_point(rt, sx, sy);
    let _ = rt.write_all(b" to ");
    print_point(rt, tx, ty);
    let _ = rt.write_all(b":");
    print_found(rt, &corners, found);
}

// Puts a patch at place i of the table.
fn patch(table: &mut [u16; 640], i: usize, x0: u16, y0: u16, x1: u16, y1: u16)
    requires { i < 128 }
{
    table[i * 5 + 1] = x0;
    table[i * 5 + 2] = y0;
    table[i * 5 + 3] = x1;
    table[i * 5 + 4] = y1;
}

// Makes the points of a column of three targets.
fn column(targets: &mut [bool; 4096], x: usize)
    requires { x < 64 }
{
    targets[x] = true;
    targets[64 + x] = true;
    targets[128 + x] = true;
}

// Writes the path from a point of a board of 9 by 3 to its first or its last column.
fn show_to_columns(rt: &impl Print, table: &[u16; 640], n: usize, sx: u16, sy: u16)
    requires { n ≤ 128 }
{
    let mut map = [false; 4096];
    let mut targets = [false; 4096];
    let mut corners = [0u16; 8192];
    plain::free_points(&mut map, table, n, Pen { half: 0, gap: 0 }, 9, 3);
    column(&mut targets, 0);
    column(&mut targets, 8);
    let found = plain::first_path_to(&mut corners, &map, &targets, sx, sy);
    print_point(rt, sx, sy);
    let _ = rt.write_all(b" to a column:");
    print_found(rt, &corners, found);
}

// Searches to two columns: as far from both, nearer to one, which a patch blocks there, and on one.
fn show_targets(rt: &impl Print) {
    let mut table = [0u16; 640];
    patch(&mut table, 0, 8, 0, 9, 1);
    show_to_columns(rt, &table, 0, 4, 1);
    show_to_columns(rt, &table, 0, 5, 0);
    show_to_columns(rt, &table, 1, 5, 0);
    show_to_columns(rt, &table, 1, 8, 2);
}

fn main(rt: HostRuntime) {
    let mut table = [0u16; 640];
    // Boards without a patch.
    show(&rt, &table, 0, 0, 3, 3, 0, 0, 2, 2);
    show(&rt, &table, 0, 0, 3, 3, 0, 2, 2, 0);
    show(&rt, &table, 0, 0, 4, 1, 0, 0, 3, 0);
    show(&rt, &table, 0, 0, 4, 1, 1, 0, 1, 0);
    show(&rt, &table, 0, 0, 1, 1, 0, 0, 0, 0);
    // Two free points that touch at a corner.
    patch(&mut table, 0, 0, 0, 1, 1);
    patch(&mut table, 1, 1, 1, 2, 2);
    show(&rt, &table, 2, 0, 2, 2, 1, 0, 0, 1);
    // A patch from edge to edge.
    patch(&mut table, 0, 1, 0, 2, 3);
    show(&rt, &table, 1, 0, 3, 3, 0, 0, 2, 0);
    // A patch and an edge that block up to 1 away.
    patch(&mut table, 0, 4, 4, 6, 6);
    show(&rt, &table, 1, 1, 10, 10, 3, 3, 1, 1);
    show(&rt, &table, 1, 1, 10, 10, 2, 3, 7, 6);
    show(&rt, &table, 1, 1, 10, 10, 1, 1, 9, 8);
    show(&rt, &table, 1, 1, 10, 10, 1, 1, 8, 8);
    // The board of the job file.
    patch(&mut table, 0, 2, 0, 3, 3);
    show(&rt, &table, 1, 0, 6, 4, 0, 0, 4, 0);
    // The same points as a patch and as a leg, by a pen of half width 1: a leg blocks further away.
    let wide = Pen { half: 1, gap: 0 };
    patch(&mut table, 0, 5, 0, 6, 2);
    show_by(&rt, &table, 1, wide, 12, 6, 1, 1, 10, 1);
    table[0] = 9;
    show_by(&rt, &table, 1, wide, 12, 6, 1, 1, 10, 1);
    show_targets(&rt);
}
