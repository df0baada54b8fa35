// Runs document 01's foils about strips, and those about lists and limits, through the calls on foil 0
// of a sheet else empty, and writes what they answer: 0 where a step is accepted, else the number of its
// refusal. All lists are lent full of sevens, so that a place that no call touches still holds one.
#![tactic(auto)]

mod drawing;
mod show;
mod spoilt;

use foil_spec::Entry;
use sheet::{Sheet, draw, lift, new_foil, put_leg};
use sheet_rows::no_foils;

fn main() {
    sizes();
    edges();
    pens();
    short_table();
    short_strips();
    finest_foil();
    too_fine_foil();
    hidden_pattern();
    full_table();
    spoilt::states();
    lifted_track();
}

// Foils that cannot be begun, and the largest one that can.
fn sizes() {
    begin(0, 1, 0, 0);
    begin(1, 0, 0, 0);
    begin(4097, 1, 0, 0);
    begin(1, 4097, 0, 0);
    begin(1, 1, 8, 0);
    begin(1, 1, 0, 16);
    begin(0, 1, 8, 16);
    begin(4096, 4096, 7, 15);
}

// Begins a foil on the shortest lists that will do.
fn begin(w: u16, h: u16, half: u16, gap: u16) {
    let mut table = [7u16; 2560];
    let mut strips = [7u16; 16384];
    let mut sheet = no_foils();
    let answer = new_foil(&mut table, &mut strips, &mut sheet, 0, w, h, half, gap);
    show::size(w, h);
    show::pen(b", ", half, gap);
    show::answer(b": ", answer);
    show::end();
}

// What the edge leaves of a foil without entries: one point, none, and the largest foil but for 22
// points along each side.
fn edges() {
    bare(5, 5, 0, 2, 2, 2);
    bare(5, 5, 0, 2, 2, 3);
    bare(4, 5, 0, 2, 2, 2);
    bare(4096, 4096, 7, 15, 22, 4073);
    bare(4096, 4096, 7, 15, 22, 4074);
}

// Begins a foil, and looks a point up.
fn bare(w: u16, h: u16, half: u16, gap: u16, x: u16, y: u16) {
    let mut table = [7u16; 2560];
    let mut strips = [7u16; 16384];
    let mut sheet = no_foils();
    let _ = new_foil(&mut table, &mut strips, &mut sheet, 0, w, h, half, gap);
    show::pen(b"", half, gap);
    io::write_all(1, b", ");
    show::record(sheet);
    io::write_all(1, b", ");
    show::point(&table, &strips, sheet, x, y);
}

// 20 by 20 with a pen of half width 2 and gap 1: a patch and the edge block 3 points away, and a leg 5.
fn pens() {
    let mut table = [7u16; 2560];
    let mut strips = [7u16; 16384];
    let mut sheet = no_foils();
    let _ = new_foil(&mut table, &mut strips, &mut sheet, 0, 20, 20, 2, 1);
    let _ = draw(&mut table, &mut strips, &mut sheet, 0, 8, 8, 10, 10);
    show::three_strips(&strips, sheet);
    show::point(&table, &strips, sheet, 5, 5);
    show::point(&table, &strips, sheet, 4, 8);
    let leg = Entry {
        net: 3,
        x0: 1,
        y0: 1,
        x1: 19,
        y1: 2,
    };
    let _ = put_leg(&mut table, &mut strips, &mut sheet, 0, leg);
    show::three_strips(&strips, sheet);
}

// A table that is one number short; 12 comes before 1.
fn short_table() {
    let mut table = [7u16; 2559];
    let mut strips = [7u16; 16384];
    let mut sheet = no_foils();
    let answer = new_foil(&mut table, &mut strips, &mut sheet, 0, 0, 1, 0, 0);
    show::answer(b"2559 numbers of a table: ", answer);
    show::end();
}

// A strip list that is one number short.
fn short_strips() {
    let mut table = [7u16; 2560];
    let mut strips = [7u16; 16383];
    let mut sheet = no_foils();
    let answer = new_foil(&mut table, &mut strips, &mut sheet, 0, 0, 1, 0, 0);
    show::answer(b"16383 numbers of a strip list: ", answer);
    show::end();
}

// 127 by 127 with lines at each odd x and each odd y: as many strips as the list holds.
fn finest_foil() {
    let mut table = [7u16; 2565];
    let mut strips = [7u16; 16388];
    let sheet = drawing::lined(&mut table, &mut strips, 127, 127, 127, 127);
    show::foil(sheet);
    looked_up(&table, &strips, sheet);
    show::tails(&table, &strips);
}

// Points of the finest foil: free ones, blocked ones, and ones off the foil.
fn looked_up(table: &[u16], strips: &[u16], sheet: Sheet) {
    show::point(table, strips, sheet, 0, 0);
    show::point(table, strips, sheet, 126, 0);
    show::point(table, strips, sheet, 4, 2);
    show::point(table, strips, sheet, 126, 126);
    show::point(table, strips, sheet, 1, 0);
    show::point(table, strips, sheet, 0, 125);
    show::point(table, strips, sheet, 127, 0);
    show::point(table, strips, sheet, 0, 127);
}

// 129 by 127 with lines at x = 1, 3, .. 127 and y = 1, 3, .. 123: the line at y = 125 would make too
// many strips.
fn too_fine_foil() {
    let mut table = [7u16; 2565];
    let mut strips = [7u16; 16388];
    let mut sheet = drawing::lined(&mut table, &mut strips, 129, 127, 129, 125);
    show::foil(sheet);
    let old_table = table;
    let old_strips = strips;
    let old_sheet = sheet;
    let answer = drawing::line(&mut table, &mut strips, &mut sheet, true, 0, 125);
    show::answer(b"line at y = 125: ", answer);
    show::kept(&table, &old_table, &strips, &old_strips, sheet, old_sheet);
    show::tails(&table, &strips);
}

// A track at x = 0 beside 4,096 strips: lifting it would make one more.
fn hidden_pattern() {
    let mut table = [7u16; 2565];
    let mut strips = [7u16; 16388];
    let mut sheet = drawing::beside_track(&mut table, &mut strips);
    show::foil(sheet);
    let old_table = table;
    let old_strips = strips;
    let old_sheet = sheet;
    let answer = lift(&mut table, &mut strips, &mut sheet, 0, 5);
    show::answer(b"lift of the track at x = 0: ", answer);
    show::kept(&table, &old_table, &strips, &old_strips, sheet, old_sheet);
}

// 128 equal patches, and one more.
fn full_table() {
    let mut table = [7u16; 2565];
    let mut strips = [7u16; 16388];
    let mut sheet = drawing::equal_patches(&mut table, &mut strips);
    show::foil(sheet);
    let old_table = table;
    let old_strips = strips;
    let old_sheet = sheet;
    let answer = draw(&mut table, &mut strips, &mut sheet, 0, 1, 1, 2, 2);
    show::answer(b"one more: ", answer);
    show::kept(&table, &old_table, &strips, &old_strips, sheet, old_sheet);
    show::tails(&table, &strips);
}

// The track of document 01's job, lifted; and nets that cannot be.
fn lifted_track() {
    let mut table = [7u16; 2565];
    let mut strips = [7u16; 16388];
    let mut sheet = drawing::job_track(&mut table, &mut strips);
    show::three_strips(&strips, sheet);
    lift_of(&mut table, &mut strips, &mut sheet, 0);
    lift_of(&mut table, &mut strips, &mut sheet, 1000);
    lift_of(&mut table, &mut strips, &mut sheet, 4);
    lift_of(&mut table, &mut strips, &mut sheet, 5);
    show::three_strips(&strips, sheet);
    lift_of(&mut table, &mut strips, &mut sheet, 5);
}

// Lifts a net and writes the answer.
fn lift_of(table: &mut [u16], strips: &mut [u16], sheet: &mut Sheet, net: u16) {
    let answer = lift(table, strips, sheet, 0, net);
    show::count(b"lift ", u64::from(net));
    show::answer(b": ", answer);
    show::end();
}
