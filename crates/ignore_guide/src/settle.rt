//! The place of a directory that was loaded, and what stands for it in the list of directories.
ghost use Rattle.std.specs.Prelude.{◌≡◌, ◌∷◌, All, IfOk, IsSome, None, OnErr, Some, length, reverse};
ghost use Rattle.ignore_dir.specs.Lists.{IsAfterSlash};
ghost use Rattle.ignore_dir.specs.Steps.{Reached};
ghost use Rattle.ignore_guide.specs.Forest.{StandsIn};
ghost use Rattle.ignore_guide.specs.Places.{IsGone, IsSamePlaces, KeepsOthers, entered_at};
ghost use Rattle.ignore_guide.specs.Settle.{AreFresh, IsSettled, kept_of};
ghost use Rattle.ignore_levels.specs.Levels.{IsBelow, IsChain, IsRising, Keeps, counting, slots_of};

use crate::guide::Arrived;
use crate::open::Opened;
use crate::places::{Entered, Place, Places};
use ignore_dir::Placed;
use ignore_levels::Levels;
use std::alloc::AllocError;

/// What is below which directories: what stands for those around it, and the place of the one that
/// it is in, unless it is a root.
#[derive(Clone, Copy)]
pub(crate) struct Around {
    pub(crate) level: Option<ignore_levels::Place>,
    pub(crate) parent: Option<Place>,
}

/// What stays when a directory is left: nothing of what is above a root.
fn kept_of(around: Around) -> Option<ignore_levels::Place>
    ensures { result ≡ kept_of around }
{
    match around.parent {
        Some(_) => around.level,
        None => None,
    }
}

/// Adds the directories above a root, each below the one before it, and returns what stands for the
/// last.
pub(crate) fn above(
    levels: &mut Levels,
    dirs: Vec<Placed>,
) -> Result<Option<ignore_levels::Place>, AllocError>
    ensures chain { IsRising 0 dirs.items → IfOk result (λ place. IsChain (slots_of levels.new) place (counting (reverse dirs.items))) }
    ensures fresh { IsRising 0 dirs.items → IfOk result (λ place. AreFresh (slots_of levels.old) (slots_of levels.new) place) }
    ensures levels { Keeps (slots_of levels.old) (slots_of levels.new) }
{
    let mut place = None;
    for placed in dirs {
        place = levels.add(placed.dir, place, placed.offset)?;
    }
    Ok(place)
}

/// Gives a directory that was loaded a place.
pub(crate) fn settle(
    levels: &mut Levels,
    places: &mut Places,
    around: Around,
    opened: Opened,
) -> Result<Arrived, AllocError>
    requires inside { (parent : Place) → around.parent ≡ Some parent → IsSome (entered_at places.old parent) }
    ensures settled { IfOk result (λ r. IsSettled (slots_of levels.old) (slots_of levels.new) places.new r.place around opened) }
    ensures stands { (at : Reached) → IsChain (slots_of levels.old) around.level (counting at.chain)
        → IsBelow (length opened.text) (counting at.chain)
        → All (λ p. IsAfterSlash opened.text p.1) (counting at.chain) → IsAfterSlash opened.text (length opened.text)
        → IfOk result (λ r. StandsIn (slots_of levels.new) places.new r.place opened.depth
        (record { chain = (opened.dir, length opened.text) ∷ at.chain; text = opened.text; path = opened.path })) }
    ensures new { IfOk result (λ r. entered_at places.old r.place ≡ None) }
    ensures error { IfOk result (λ r. r.error ≡ opened.error) }
    ensures levels { Keeps (slots_of levels.old) (slots_of levels.new) }
    ensures others { IfOk result (λ r. KeepsOthers r.place places.old places.new) }
    ensures unchanged { OnErr result (IsSamePlaces places.old places.new) }
    ensures gone { (place : Place) → IsGone places.old place → IsGone places.new place }
{
    let offset = opened.text.as_str().len();
    let level = levels.add(opened.dir, around.level, offset)?;
    let entered = Entered {
        path: opened.path,
        text: opened.text,
        depth: opened.depth,
        level,
        around: kept_of(around),
        parent: around.parent,
    };
    let place = places.add(entered)?;
    Ok(Arrived {
        place,
        error: opened.error,
    })
}
