// One line of the escape grid: the run of a crossing, the stops on it, which are the crossings with a given label in
// the other direction, and the inks of the run over these stops, by two sweeps.
#![tactic(auto)]

ghost use Rattle.std.specs.Prelude.{◌+◌, ◌-◌, ◌*◌, ◌≤◌, ◌<◌, min, ◌≡◌, true, false, ◌≢◌, get_or, length};
ghost use Rattle.foil_spec.specs.Limits.{max_side};
ghost use Rattle.foil_spec.specs.Paths.{gap};
ghost use Rattle.grid.specs.Size.{stride};
ghost use Rattle.runs.specs.Line.{along, HasLine, RunStart, RunEnd, Left, is_stop, Scanned, Stop, FirstStop};
ghost use Rattle.runs.specs.Ink.{OnLine, AtCrossing, StopIn, Swept, Carried, Least, Ahead, Behind, InkPut};
ghost use Rattle.runs.specs.Ink.{Blank, RunInked};

use foil_spec::MAX_SIDE;
use grid::STRIDE;

// No number on an axis is above the longest side.
const SIDE: u32 = MAX_SIDE as u32;

// How many steps two numbers are apart.
pub fn steps(a: u16, b: u16) -> u32
    ensures { (result ≡ gap a b) × (result ≤ 65535) }
{
    u32::from(a.abs_diff(b))
}

// The first crossing of a line that is joined with the crossing `at`.
fn back_from(link: &[u8], line: usize, at: usize) -> usize
    requires { (line < stride) × (at ≤ stride) × HasLine link.now line }
    ensures { RunStart link.now line at result }
{
    for k in (0..at).rev() {
        if link[line * STRIDE + k] != 1 {
            return k + 1;
        }
    }
    0
}

// The same. It is no more than `at`: with that said once more, the compiler does not carry a place of every list along
// the scan.
pub fn run_start(link: &[u8], line: usize, at: usize) -> usize
    requires { (line < stride) × (at ≤ stride) × HasLine link.now line }
    ensures { RunStart link.now line at result }
{
    back_from(link, line, at).min(at)
}

// The first crossing after the crossing `at`, of n on a line, that is not joined with it.
pub fn run_end(link: &[u8], line: usize, n: usize, at: usize) -> usize
    requires { (line < stride) × (n ≤ stride) × (at < n) × HasLine link.now line }
    ensures { RunEnd link.now line n at result }
{
    for hi in at + 1..n {
        if link[line * STRIDE + (hi - 1)] != 1 {
            return hi;
        }
    }
    n
}

// Whether the visit of crossing `at` can be left to one before it: in the first round, where a crossing before it that
// is joined with it has the label v in the other direction as well. So the run of many targets is visited once.
pub fn is_left(other: &[u16], link: &[u8], line: usize, at: usize, v: u16) -> bool
    requires { (line < stride) × (at ≤ stride) × (at * stride ≤ length other.now) × HasLine link.now line }
    ensures { result ≡ true → Left other.now link.now line at v }
{
    if v != 1 {
        return false;
    }
    for j in (0..at).rev() {
        if link[line * STRIDE + j] != 1 {
            return false;
        }
        if other[j * STRIDE + line] == v {
            return true;
        }
    }
    false
}

// Whether crossing k of a line is a stop for the label v, over which s steps lead from x.
fn is_stop(
    other: &[u16],
    inks: &[u32],
    cross: &[u16],
    line: usize,
    k: usize,
    x: u16,
    v: u16,
    s: u32,
) -> bool
    requires { AtCrossing other.now inks.now line v k × (k < length cross.now) }
    ensures { result ≡ is_stop other.now inks.now cross.now line x v s k }
{
    other[k * STRIDE + line] == v && inks[k * STRIDE + line] + steps(x, cross[k]) == s
}

// The first such stop from the crossing lo on, and joined with it, or n.
fn scan(
    other: &[u16],
    inks: &[u32],
    link: &[u8],
    cross: &[u16],
    line: usize,
    n: usize,
    lo: usize,
    x: u16,
    v: u16,
    s: u32,
) -> usize
    requires { OnLine other.now inks.now cross.now line n v × HasLine link.now line × (lo ≤ n) }
    ensures { Scanned other.now inks.now link.now cross.now
        line n lo x v s result }
{
    for k in lo..n {
        if is_stop(other, inks, cross, line, k, x, v, s) {
            return k;
        }
        if link[line * STRIDE + k] != 1 {
            return n;
        }
    }
    n
}

// The first stop for the label v joined with the crossing `at`, over which s steps lead from there, or n.
pub fn next_stop(
    other: &[u16],
    inks: &[u32],
    link: &[u8],
    cross: &[u16],
    line: usize,
    n: usize,
    at: usize,
    v: u16,
    s: u32,
) -> usize
    requires { OnLine other.now inks.now cross.now line n v × HasLine link.now line × (at < n) }
    ensures { Stop other.now inks.now link.now cross.now
        line n at v s result }
{
    scan(
        other,
        inks,
        link,
        cross,
        line,
        n,
        run_start(link, line, at),
        cross[at],
        v,
        s,
    )
}

// The least of `best` and, where crossing k of a line is a stop for the label v, its ink and x more.
fn carry(other: &[u16], inks: &[u32], line: usize, k: usize, v: u16, x: u32, best: u32) -> u32
    requires { AtCrossing other.now inks.now line v k × (x ≤ max_side) }
    ensures { Carried other.now inks.now line v k x best result }
{
    if other[k * STRIDE + line] == v {
        best.min(inks[k * STRIDE + line] + x)
    } else {
        best
    }
}

// The first of the crossings lo to hi, hi excluded, of a line that has the label v in the other direction, or hi.
pub fn first_stop(other: &[u16], line: usize, lo: usize, hi: usize, v: u16) -> usize
    requires { (line < stride) × (lo ≤ hi) × (hi ≤ stride) × (hi * stride ≤ length other.now) }
    ensures { FirstStop other.now line v lo hi result }
{
    for k in lo..hi {
        if other[k * STRIDE + line] == v {
            return k;
        }
    }
    hi
}

// The least ink at crossing `at` over the stops for the label v from crossing h, which is one, to hi, hi excluded.
pub fn ink_at(
    other: &[u16],
    inks: &[u32],
    cross: &[u16],
    line: usize,
    n: usize,
    h: usize,
    hi: usize,
    at: usize,
    v: u16,
) -> u32
    requires { OnLine other.now inks.now cross.now line n v × StopIn other.now line n v h hi h × (at < n) }
    ensures { Least other.now inks.now cross.now line v h hi h hi
        (get_or cross.now at 0) result }
{
    let x = cross[at];
    let mut best = inks[h * STRIDE + line] + steps(x, cross[h]);
    for k in h + 1..hi {
        best = carry(other, inks, line, k, v, steps(x, cross[k]), best);
    }
    best
}

// The sweep down the crossings lo to hi, hi excluded, of a run: the least ink at each over the stops for the label v
// from it on, and its number more. Crossing h of the run is a stop.
pub fn ahead_of(
    ahead: &mut [u32],
    other: &[u16],
    inks: &[u32],
    cross: &[u16],
    line: usize,
    n: usize,
    lo: usize,
    hi: usize,
    h: usize,
    v: u16,
)
    requires { OnLine other.now inks.now cross.now line n v × StopIn other.now line n v lo hi h
        × (stride ≤ length ahead.old) }
    ensures { Ahead other.now inks.now cross.now line v lo hi lo
        ahead.new }
{
    let top = u32::from(cross[hi - 1]);
    let mut best = inks[h * STRIDE + line] + (top - u32::from(cross[h])) + top;
    for k in (lo..hi).rev() {
        best = carry(other, inks, line, k, v, u32::from(cross[k]), best);
        ahead[k] = best;
    }
}

// The sweep up: the least ink at each over the stops up to it, and as much more as its number is below 4,096.
pub fn behind_of(
    behind: &mut [u32],
    other: &[u16],
    inks: &[u32],
    cross: &[u16],
    line: usize,
    n: usize,
    lo: usize,
    hi: usize,
    h: usize,
    v: u16,
)
    requires { OnLine other.now inks.now cross.now line n v × StopIn other.now line n v lo hi h
        × (stride ≤ length behind.old) }
    ensures { Behind other.now inks.now cross.now line v lo hi hi
        behind.new }
{
    let top = SIDE - u32::from(cross[lo]);
    let mut best = inks[h * STRIDE + line] + (top - (SIDE - u32::from(cross[h]))) + top;
    for k in lo..hi {
        best = carry(other, inks, line, k, v, SIDE - u32::from(cross[k]), best);
        behind[k] = best;
    }
}

// The ink of a crossing with the number x, from what the two sweeps say of it.
fn ink_of(ahead: u32, behind: u32, x: u16) -> u32
    requires { (x ≤ max_side) × (x ≤ ahead) × (max_side - x ≤ behind) }
    ensures { result ≡ min (behind - (max_side - x)) (ahead - x) }
{
    let up = behind - (SIDE - u32::from(x));
    let down = ahead - u32::from(x);
    up.min(down)
}

// Whether crossing k of a line has a label. Where it is known to be blank, it is not looked at.
pub fn has_label(labels: &[u16], line: usize, k: usize, blank: bool) -> bool
    requires line_lt_stride { (line < stride) × (k < stride) × HasLine labels.now line }
    requires k_value { blank ≡ true → along labels.now line k ≡ 0 }
    ensures { (result ≡ true → along labels.now line k ≢ 0)
        × (result ≡ false → along labels.now line k ≡ 0) }
{
    !blank && labels[line * STRIDE + k] != 0
}

// Gives crossing k of a line the ink s, if it has no label.
fn put_ink(own: &mut [u32], labels: &[u16], line: usize, k: usize, s: u32, blank: bool)
    requires line_lt_stride { (line < stride) × (k < stride) × HasLine own.old line × HasLine labels.now line }
    requires k_value { blank ≡ true → along labels.now line k ≡ 0 }
    ensures { InkPut line k s labels.now own.old own.new }
{
    if !has_label(labels, line, k, blank) {
        own[line * STRIDE + k] = s;
    }
}

// Gives each of the crossings lo to hi of a run that has no label its ink, the least over all stops of the run. A
// run that is known to be blank is not looked at.
pub fn ink_run(
    own: &mut [u32],
    ahead: &[u32],
    behind: &[u32],
    labels: &[u16],
    other: &[u16],
    inks: &[u32],
    cross: &[u16],
    line: usize,
    n: usize,
    lo: usize,
    hi: usize,
    v: u16,
    blank: bool,
)
    requires swept { Swept other.now inks.now cross.now line n v lo hi ahead.now behind.now }
    requires has_line { HasLine own.old line × HasLine labels.now line × (blank ≡ true → Blank labels.now line lo hi) }
    ensures { RunInked other.now inks.now cross.now line v lo hi hi
        labels.now own.old own.new }
{
    for k in lo..hi {
        put_ink(
            own,
            labels,
            line,
            k,
            ink_of(ahead[k], behind[k], cross[k]),
            blank,
        );
    }
}
