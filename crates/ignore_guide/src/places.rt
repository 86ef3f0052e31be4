//! The directories that were entered and not left.
//!
//! A place is a number in a list, and a serial: how many places were handed out when it was. The
//! number is free for another directory once the place is left; the serial isn't handed out again.
ghost use Rattle.std.specs.Prelude.{◌≡◌, ◌<◌, ℕ, OnErr, OnOk, length, slice_get};
ghost use Rattle.ignore_guide.specs.Spots.{IsCounted, IsPut, IsVacant, counted_at, is_free, next_of};

use ignore_files::Name;
use std::alloc::{AllocError, Global};

/// A directory that was entered, until it is left.
#[repr(C)]
#[derive(Clone, Copy, Debug, PartialEq, Eq)]
pub struct Place {
    /// Its number.
    pub index: usize,
    /// How many places were handed out before it, and it.
    pub serial: u64,
}

/// What a guide knows of a directory that was entered.
#[derive(Debug, Drop)]
pub struct Entered {
    /// Its path.
    pub path: Name,
    /// Its path as the directories around it see it, with a final slash.
    pub text: Name,
    /// How many names below its root its entries are: 1 in a root.
    pub depth: usize,
    /// What stands for it and the directories around it in the list of directories.
    pub level: Option<ignore_levels::Place>,
    /// What stands there for those that stay when it is left.
    pub around: Option<ignore_levels::Place>,
    /// The place of the directory that it is in, unless it is a root.
    pub parent: Option<Place>,
}

/// What a place of the list holds.
#[derive(Debug, Drop)]
pub enum Held {
    /// A directory.
    Entered(Entered),
    /// Nothing, and the number of the next free place.
    Free(Option<usize>),
}

/// A place of the list.
#[derive(Debug, Drop)]
pub struct Spot {
    /// The serial of what was entered here last.
    pub serial: u64,
    /// How many directories in it were entered and not left.
    pub children: usize,
    /// What is here.
    pub held: Held,
}

/// The directories that were entered and not left.
#[derive(Debug, Drop)]
pub struct Places {
    spots: Vec<Spot>,
    free: Option<usize>,
    serial: u64,
    /// Of each directory it is counted how many others are in it.
    pub ghost counted: { ∥ IsCounted spots.items serial ∥₁ },
}

fn next_of(held: &Held) -> Option<usize>
    ensures { result ≡ next_of held.now }
{
    match held {
        Held::Entered(_) => None,
        Held::Free(next) => *next,
    }
}

fn is_free(held: &Held) -> bool
    ensures { result ≡ is_free held.now }
{
    match held {
        Held::Entered(_) => false,
        Held::Free(_) => true,
    }
}

/// Puts a directory where none is, and returns the number of the next free place.
fn put(spots: &mut Vec<Spot>, index: usize, spot: Spot) -> Result<Option<usize>, AllocError>
    ensures put { IsVacant spots.old.items index → OnOk result (IsPut spots.old.items index spot spots.new.items) }
    ensures unchanged { OnErr result (spots.new.items ≡ spots.old.items) }
{
    if index < spots.as_slice().len() {
        let next = next_of(&spots[index].held);
        spots[index] = spot;
        return Ok(next);
    }
    spots.push(spot)?;
    Ok(None)
}

/// Replaces what is at a number of the list.
fn replace(spots: &mut Vec<Spot>, index: usize, spot: Spot)
    requires { index < length spots.old.items }
    ensures put { IsPut spots.old.items index spot spots.new.items }
{
    spots[index] = spot;
}

/// Counts so many directories in the one at a place.
fn count(spots: &mut Vec<Spot>, parent: Option<Place>, children: usize)
    ensures counted { (index : ℕ) → slice_get spots.new.items index
        ≡ counted_at parent children index (slice_get spots.old.items index) }
{
    let Some(place) = parent else {
        return;
    };
    if place.index < spots.as_slice().len() {
        if spots[place.index].serial == place.serial {
            spots[place.index].children = children;
        }
    }
}

impl Places {
    ghost use Rattle.std.specs.Prelude.{◌+◌, ◌-◌, None, Some, IfOk, IsSome, false, true};
    ghost use Rattle.std.specs.Option.{option_copied};
    ghost use Rattle.ignore_guide.specs.Places.{IsGone, IsIn, IsSamePlaces, KeepsOthers, entered_at};

    /// No places. It allocates nothing.
    pub fn new(alloc: Global) -> Places
        ensures empty { (place : Place) → entered_at result place ≡ None }
    {
        Places {
            spots: Vec::new(alloc),
            free: None,
            serial: 0,
        }
    }

    /// What was entered at a place, unless it was left.
    pub fn get(&self, place: Place) -> Option<&Entered>
        ensures { option_copied result ≡ entered_at self.now place }
    {
        if self.serial < place.serial {
            return None;
        }
        let spot = self.spots.as_slice().get(place.index)?;
        if spot.serial != place.serial {
            return None;
        }
        match &spot.held {
            Held::Entered(entered) => Some(entered),
            Held::Free(_) => None,
        }
    }

    /// How many directories in the one at a place were entered, and not left.
    fn children(&self, place: Place) -> usize
        ensures { (spot : Spot) → slice_get self.now.spots.items place.index ≡ Some spot → result ≡ spot.children }
    {
        match self.spots.as_slice().get(place.index) {
            Some(spot) => spot.children,
            None => 0,
        }
    }

    /// Whether directories in the one at a place were entered, and not left.
    pub(crate) fn has_children(&self, place: Place) -> bool
        ensures some { result ≡ true → IsSome (entered_at self.now place) → (child : Place) × IsIn self.now place child }
        ensures none { result ≡ false → IsSome (entered_at self.now place) → (child : Place) → IsIn self.now place child → ⊥ }
    {
        self.children(place) != 0
    }

    /// How many there are in that of a directory, once it is entered.
    fn one_more(&self, parent: Option<Place>) -> Result<usize, AllocError>
        ensures { (place : Place) (spot : Spot) → parent ≡ Some place → slice_get self.now.spots.items place.index ≡ Some spot
            → IfOk result (λ children. children ≡ spot.children + 1) }
    {
        let Some(place) = parent else {
            return Ok(0);
        };
        match self.children(place).checked_add(1) {
            Some(children) => Ok(children),
            None => Err(AllocError),
        }
    }

    /// How many there are in that of a directory, once it is left.
    fn one_less(&self, parent: Option<Place>) -> usize
        ensures { (place : Place) (spot : Spot) → parent ≡ Some place → slice_get self.now.spots.items place.index ≡ Some spot
            → result ≡ spot.children - 1 }
    {
        match parent {
            Some(place) => self.children(place).saturating_sub(1),
            None => 0,
        }
    }

    /// Where the next directory goes: the first free place, or else a new one.
    fn vacant(&self) -> usize
        ensures { IsVacant self.now.spots.items result }
    {
        if let Some(index) = self.free {
            if let Some(spot) = self.spots.as_slice().get(index) {
                if is_free(&spot.held) {
                    return index;
                }
            }
        }
        self.spots.as_slice().len()
    }

    /// Adds a directory, which is in one that was entered, unless it is a root, and returns its
    /// place.
    ///
    /// # Errors
    /// Out of memory, and then no place changes.
    pub(crate) fn add(&mut self, entered: Entered) -> Result<Place, AllocError>
        requires inside { (parent : Place) → entered.parent ≡ Some parent → IsSome (entered_at self.old parent) }
        ensures added { IfOk result (λ place. entered_at self.new place ≡ Some entered) }
        ensures new { IfOk result (λ place. entered_at self.old place ≡ None) }
        ensures others { IfOk result (λ place. KeepsOthers place self.old self.new) }
        ensures unchanged { OnErr result (IsSamePlaces self.old self.new) }
        ensures gone { (place : Place) → IsGone self.old place → IsGone self.new place }
    {
        let Some(serial) = self.serial.checked_add(1) else {
            return Err(AllocError);
        };
        let parent = entered.parent;
        let children = self.one_more(parent)?;
        let index = self.vacant();
        let held = Held::Entered(entered);
        let spot = Spot {
            serial,
            children: 0,
            held,
        };
        let free = put(&mut self.spots, index, spot)?;
        count(&mut self.spots, parent, children);
        self.free = free;
        self.serial = serial;
        Ok(Place { index, serial })
    }

    /// Drops the directory at a place.
    pub(crate) fn leave(&mut self, place: Place)
        ensures gone { IsSome (entered_at self.old place) → IsGone self.new place }
        ensures others { KeepsOthers place self.old self.new }
        ensures still { (other : Place) → IsGone self.old other → IsGone self.new other }
    {
        let Some(dir) = self.get(place) else {
            return;
        };
        let parent = dir.parent;
        let around = self.one_less(parent);
        let children = self.children(place);
        let held = Held::Free(self.free);
        let spot = Spot {
            serial: place.serial,
            children,
            held,
        };
        replace(&mut self.spots, place.index, spot);
        count(&mut self.spots, parent, around);
        self.free = Some(place.index);
    }
}
