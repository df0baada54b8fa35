// The runs of a row, by one sweep of its boxes from the last place of their list on: there stands the one that begins
// first.
ghost use Rattle.std.specs.Prelude.{◌≤◌, ◌<◌};
ghost use Rattle.zones.specs.Boxes.{Boxes};
ghost use Rattle.strips.specs.RowBoxes.{OnRow};
ghost use Rattle.strips.specs.Sweep.{Sweeps, Behind};

use crate::row_boxes::Row;
use places::entry_at;

// A run of a row, from column `from` up to `to`, the column behind the box that ends it, and how many boxes the sweep
// goes on with from there.
#[derive(Clone, Copy)]
pub(crate) struct Swept {
    pub(crate) from: u16,
    pub(crate) to: u16,
    pub(crate) behind: u16,
    pub(crate) left: usize,
}

// The next run of row y from column x on, where only the first i of its boxes have points from x on.
// None where no run is left.
pub(crate) fn sweep(
    boxes: &[u16],
    row: &Row,
    n: usize,
    w: u16,
    h: u16,
    y: u16,
    x: u16,
    i: usize,
) -> Option<Swept>
    requires boxes { Boxes boxes.now n w h }
    requires on_row { OnRow boxes.now row.now.places n row.now.count y }
    requires x_le_w { (x ≤ w) × (y < h) × (i ≤ row.now.count) }
    requires behind { Behind boxes.now row.now.places row.now.count x i }
    ensures { Sweeps boxes.now row.now.places n row.now.count w h y x result }
{
    let mut at = x;
    let mut j = i;
    'scan: while at < w {
        loop {
            if j == 0 {
                break 'scan;
            }
            j -= 1;
            let zone = entry_at(boxes, row.places[j]);
            if at < zone.x0 {
                return Some(Swept {
                    from: at,
                    to: zone.x0,
                    behind: zone.x1,
                    left: j,
                });
            }
            if at < zone.x1 {
                at = zone.x1;
                continue 'scan;
            }
        }
    }
    if at < w {
        return Some(Swept {
            from: at,
            to: w,
            behind: w,
            left: 0,
        });
    }
    None
}
