// A net's legs in a table: how many there are, and how long they are together.
#![tactic(auto)]

ghost use Rattle.std.specs.Prelude.{◌≡◌, ◌+◌, ◌*◌, ◌<◌, ◌≤◌, length};
ghost use Rattle.foil_spec.specs.Limits.{max_entries};
ghost use Rattle.foil_spec.specs.Lent.{entry_at};
ghost use Rattle.foil_spec.specs.Nets.{leg_steps};
ghost use Rattle.nets.specs.Measured.{Box, Boxes, Measured};

use foil_spec::Entry;
use places::entry_at;

// How many legs a net has, and the steps of all of them together.
#[derive(Clone, Copy)]
pub struct Track {
    pub legs: u32,
    pub steps: u32,
}

// Counts the legs of the net, of the first n entries of the table, and their steps.
pub fn measure(table: &[u16], n: usize, net: u16) -> Track
    requires { Boxes table.now n }
    ensures { Measured table.now n net result }
{
    let mut track = Track { legs: 0, steps: 0 };
    for k in 0..n {
        track = with_entry(track, table, k, net);
    }
    track
}

// Counts entry k of the table too, if it is of the net.
fn with_entry(track: Track, table: &[u16], k: usize, net: u16) -> Track
    requires k_lt_max_entries { (k < max_entries) × (k * 5 + 5 ≤ length table.now) }
    requires fact { Box (entry_at table.now k) }
    requires measured { Measured table.now k net track }
    ensures { Measured table.now (k + 1) net result }
{
    let leg = entry_at(table, k);
    if leg.net != net {
        return track;
    }
    Track {
        legs: track.legs + 1,
        steps: track.steps + leg_steps(leg),
    }
}

// The steps from one end of a leg to the other.
#[tactic(auto, unfolding(foil_spec::specs::Nets::leg_steps))]
fn leg_steps(leg: Entry) -> u32
    requires { Box leg }
    ensures { result ≡ leg_steps leg }
{
    let across = leg.x1 - leg.x0 - 1;
    let down = leg.y1 - leg.y0 - 1;
    u32::from(across) + u32::from(down)
}
