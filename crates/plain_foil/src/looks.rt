// A look up: the place of the strip that holds a point, among the plain strips.
use crate::Foil;
use crate::laying::off;
use crate::runs::strips;
use foil_spec::{Reason, Strip};
use places::strip_at;

// The place of the strip that holds a point.
pub fn look_up(row: &[u16; 640], foil: Foil, x: u16, y: u16) -> Result<usize, Reason> {
    if off(foil, x, y) {
        return Err(Reason::OffFoil);
    }
    let mut list = [0u16; 16384];
    let count = strips(&mut list, row, foil);
    let Some(place) = (0..count).find(|k| holds(strip_at(&list, *k), x, y)) else {
        return Err(Reason::NotFree);
    };
    Ok(place)
}

// Whether a strip holds a point.
fn holds(s: Strip, x: u16, y: u16) -> bool {
    s.x0 <= x && x < s.x1 && s.y0 <= y && y < s.y1
}
