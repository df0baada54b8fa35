// How many entries the foils of a sheet have and may have.
ghost use Rattle.std.specs.Prelude.{◌≡◌, true, ◌<◌, ◌≤◌};
ghost use Rattle.foil_spec.specs.Limits.{sheet_foils};
ghost use Rattle.foil_spec.specs.Sheet.{counts, reserved, each_few, counts_ok, limit_of};
ghost use Rattle.sheet_laws.specs.Places.{start_of};

use crate::{FOILS, SHEET_ENTRIES, Sheet, counts_of};
use foil_spec::MAX_ENTRIES;

// How many entries each foil is sure of.
const SURE_ENTRIES: usize = 32;

// Whether the foils' numbers of entries keep both limits (13).
#[tactic(auto, unfolding(foil_spec::specs::Sheet::counts_ok))]
pub fn counts_ok(sheet: Sheet) -> bool
    ensures { result ≡ counts_ok (counts sheet.boards) }
{
    let counts = counts_of(sheet);
    each_few(counts) && reserved(counts) <= SHEET_ENTRIES
}

// How many entries foil k may have beside the others.
pub fn limit(sheet: Sheet, k: usize) -> usize
    requires { (k < sheet_foils) × (counts_ok (counts sheet.boards) ≡ true) }
    ensures { result ≡ limit_of (counts sheet.boards) k }
{
    let counts = counts_of(sheet);
    MAX_ENTRIES.min(SHEET_ENTRIES - (reserved(counts) - SURE_ENTRIES.max(counts[k])))
}

// The place in the table where foil k's numbers begin; for k = 8, where the unused places do.
pub(crate) fn start_of(counts: [usize; FOILS], k: usize) -> usize
    requires { (k ≤ sheet_foils) × (counts_ok counts ≡ true) }
    ensures { result ≡ start_of counts k }
{
    counts[..k].iter().sum::<usize>() * 5
}

// Whether no foil has more than 128 entries.
fn each_few(counts: [usize; FOILS]) -> bool
    ensures { result ≡ each_few counts }
{
    counts.iter().all(|n| *n <= MAX_ENTRIES)
}

// The places that are kept for the foils, 32 at least for each.
fn reserved(counts: [usize; FOILS]) -> usize
    requires { each_few counts ≡ true }
    ensures { result ≡ reserved counts }
{
    counts.iter().map(|n| SURE_ENTRIES.max(*n)).sum()
}
