// Document 01's limits on single values, as tests.
ghost use Rattle.std.specs.Prelude.{◌≡◌, ◌<◌};
ghost use Rattle.foil_spec.specs.Foil.{pen, size_ok, reach_ok, pen_ok, net_ok, box_ok, shape_ok};

use foil_spec::{Entry, MAX_REACH, MAX_SIDE};

// Whether n is a width or a height that a foil may have.
#[tactic(auto, unfolding(foil_spec::specs::Foil::size_ok))]
pub fn size_ok(n: u16) -> bool
    ensures { result ≡ size_ok n }
{
    1 <= n && usize::from(n) <= MAX_SIDE
}

// Whether d is a reach that document 01 allows.
#[tactic(auto, unfolding(foil_spec::specs::Foil::reach_ok))]
pub fn reach_ok(d: u16) -> bool
    ensures { result ≡ reach_ok d }
{
    d <= MAX_REACH
}

// Whether a pen may have this half width and this gap.
#[tactic(auto, unfolding(foil_spec::specs::Foil::pen_ok))]
pub fn pen_ok(half: u16, gap: u16) -> bool
    ensures { result ≡ pen_ok (pen half gap) }
{
    half <= 7 && gap <= MAX_REACH
}

// Whether net is the number of a track.
#[tactic(auto, unfolding(foil_spec::specs::Foil::net_ok))]
pub fn net_ok(net: u16) -> bool
    ensures { result ≡ net_ok net }
{
    1 <= net && net <= 999
}

// Whether the box of e is neither empty nor reversed, and not past w or h.
#[tactic(auto, unfolding(foil_spec::specs::Foil::box_ok))]
pub fn box_ok(w: u16, h: u16, e: Entry) -> bool
    ensures { result ≡ box_ok w h e }
{
    e.x0 < e.x1 && e.x1 <= w && e.y0 < e.y1 && e.y1 <= h
}

// Whether an entry that is not empty has the shape that its net asks for: any for a patch, one point
// wide in one direction for a leg.
#[tactic(auto, unfolding(foil_spec::specs::Foil::shape_ok))]
pub fn shape_ok(e: Entry) -> bool
    requires { (e.x0 < e.x1) × (e.y0 < e.y1) }
    ensures { result ≡ shape_ok e }
{
    e.net == 0 || net_ok(e.net) && (e.x1 == e.x0 + 1 || e.y1 == e.y0 + 1)
}
