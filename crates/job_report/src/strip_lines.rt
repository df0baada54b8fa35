// The lines of the strips that are left at the end of a job.
ghost use Rattle.std.specs.Prelude.{◌*◌, ◌≤◌, length};
ghost use Rattle.foil_spec.specs.Lists.{each};
ghost use Rattle.foil_spec.specs.Limits.{max_strips};
ghost use Rattle.foil_spec.specs.Lent.{listed_strips};
ghost use Rattle.lines.specs.Lines.{strip_line};
ghost use Rattle.putting.specs.Put.{Put};

use lines::strip_line;
use places::strip_at;

// The lines of the first `count` strips of the list, from the front of `out` on.
pub(crate) fn put_strips(out: &mut [u8], list: &[u16], count: usize) -> usize
    requires { (count ≤ max_strips) × (122944 ≤ length out.old) × (count * 4 ≤ length list.now) }
    ensures put { Put out.old 0
        (each strip_line (listed_strips list.now count)) out.new result }
    ensures upper_bound { result ≤ 122880 }
{
    let mut a = 0;
    for k in 0..count {
        a = strip_line(out, a, strip_at(list, k));
    }
    a
}
