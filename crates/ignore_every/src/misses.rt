//! Whether a rule decides at no place, or at none that is nearer than some depth.
ghost use Rattle.std.specs.Prelude.{◌≡◌, IsTrue, Bool, true};
ghost use Rattle.ignore_every.specs.Findings.{Misses, MissesAt, MissesBefore, is_before};
ghost use Rattle.ignore_every.specs.Names.{is_named};
ghost use Rattle.ignore_every.specs.Rows.{table_of};

use crate::place::Place;
use crate::places::place_at;
use crate::row::{Row, decider_of};

/// Whether the table knows a decider there, and it is another; so it is where there is no state.
fn misses(rows: &[Row], state: Option<usize>, is_dir: bool, index: usize) -> bool
    ensures { IsTrue result → Misses (table_of rows.now) state is_dir index }
{
    let Some(state) = state else {
        return true;
    };
    let Some(decider) = decider_of(rows, state, is_dir) else {
        return false;
    };
    match decider {
        Some(found) => found != index,
        None => true,
    }
}

/// Whether a depth is below the bound, where there is one.
pub(crate) fn is_before(depth: usize, bound: Option<usize>) -> bool
    ensures { result ≡ is_before depth bound }
{
    match bound {
        Some(bound) => depth < bound,
        None => true,
    }
}

/// Whether another rule decides at a place for both kinds, or none does, unless the place isn't a
/// name's or isn't before the bound.
fn place_misses(rows: &[Row], place: &Place, index: usize, bound: Option<usize>) -> bool
    ensures { IsTrue result → is_named place.now.name ≡ true → is_before place.now.depth bound ≡ true
        → (is_dir : Bool) → Misses (table_of rows.now) place.now.left is_dir index }
{
    if !place.name.is_named() || !is_before(place.depth, bound) {
        return true;
    }
    if !misses(rows, place.left, false, index) {
        return false;
    }
    misses(rows, place.left, true, index)
}

/// Whether so it is at the place with this number, if there is one.
fn number_misses(
    places: &[Place],
    number: usize,
    rows: &[Row],
    index: usize,
    bound: Option<usize>,
) -> bool
    ensures { IsTrue result → MissesAt (table_of rows.now) places.now index bound number }
{
    match place_at(places, number) {
        Some(place) => place_misses(rows, &place, index, bound),
        None => true,
    }
}

/// Whether so it is at each place.
pub(crate) fn all_miss(places: &[Place], rows: &[Row], index: usize, bound: Option<usize>) -> bool
    ensures { IsTrue result → MissesBefore (table_of rows.now) places.now index bound }
{
    for number in 0..places.len() {
        if !number_misses(places, number, rows, index, bound) {
            return false;
        }
    }
    true
}
