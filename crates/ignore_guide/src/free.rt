//! The levels that go when a directory is left.
ghost use Rattle.std.specs.Prelude.{◌≡◌, ◌≢◌, false, List, Option};
ghost use Rattle.ignore_dir.specs.Lists.{Placed};
ghost use Rattle.ignore_guide.specs.Forest.{Owns};
ghost use Rattle.ignore_guide.specs.Guide.{parent_at};
ghost use Rattle.ignore_levels.specs.Levels.{IsChain, Keeps, Passes, slots_of};
ghost use Rattle.ignore_levels.specs.declared.list.Place.{Place};

use ignore_levels::{Levels, Place};

/// The level above the one at a place.
fn parent_of(levels: &Levels, place: Place) -> Option<Place>
    ensures { result ≡ parent_at (slots_of levels.now) place }
{
    match levels.level(place) {
        Some(level) => level.parent,
        None => None,
    }
}

fn is_same(one: Option<Place>, other: Option<Place>) -> bool
    ensures apart { result ≡ false → one ≢ other }
{
    one == other
}

/// Frees the levels from a place up to another, which stays.
pub(crate) fn free_down(levels: &mut Levels, from: Option<Place>, floor: Option<Place>)
    ensures levels { Keeps (slots_of levels.new) (slots_of levels.old) }
    ensures kept { (other : Option Place) (chain : List Placed) → IsChain (slots_of levels.old) other chain
        → ((owned : Place) → Owns (slots_of levels.old) floor from owned → Passes (slots_of levels.old) other owned → ⊥)
        → IsChain (slots_of levels.new) other chain }
{
    let mut next = from;
    for step in 0..levels.len() {
        if is_same(next, floor) {
            return;
        }
        let Some(place) = next else {
            return;
        };
        next = parent_of(levels, place);
        levels.free(place);
    }
}
