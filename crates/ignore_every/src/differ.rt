//! More questions at which two lists differ.
ghost use Rattle.std.specs.Prelude.{◌≡◌, ℕ, IsTrue, IfOk, Some, false, slice_get};
ghost use Rattle.ignore_every.specs.Compared.{IsOverBoth};
ghost use Rattle.ignore_every.specs.Differences.{AreDifferencesOf, AreFound, IsApart, IsSamePair};
ghost use Rattle.ignore_every.specs.declared.said.Difference.{Difference};

use crate::error::Error;
use crate::lists::Lists;
use crate::place::Place;
use crate::places::Side;
use crate::row::{decider_of, is_same};
use crate::said::Difference;
use std::alloc::AllocError;
use std::collections::HashMap;

/// Which rules decide at a place in two lists: of a list that isn't asked there, none is known.
#[derive(Clone, Copy, PartialEq, Eq, Hash, Drop)]
struct Deciders {
    old: Option<Option<usize>>,
    new: Option<Option<usize>>,
}

/// Which rule decides where a list comes to a state, if that is known.
fn known_decider(side: &Side<'_>, state: Option<usize>, is_dir: bool) -> Option<Option<usize>> {
    decider_of(side.rows, state?, is_dir)
}

/// Whether two differences are by the same pair of rules.
fn is_same_pair(a: &Difference, b: &Difference) -> bool
    ensures { result ≡ false → IsSamePair a.now b.now → ⊥ }
{
    if !is_same(a.old.rule(), b.old.rule()) {
        return false;
    }
    is_same(a.new.rule(), b.new.rule())
}

/// Whether a difference is by another pair of rules than each of these.
fn is_apart(found: &[Difference], difference: &Difference) -> bool
    ensures { IsTrue result → IsApart found.now difference.now }
{
    for other in found {
        if is_same_pair(other, difference) {
            return false;
        }
    }
    true
}

impl<'a> Lists<'a> {
    /// Which rules decide at a place.
    fn deciders(&self, place: &Place, is_dir: bool) -> Deciders {
        Deciders {
            old: known_decider(&self.search.left, place.left, is_dir),
            new: known_decider(&self.search.right, place.right, is_dir),
        }
    }

    /// The first place for each pair of rules by which the lists differ, and for which kind of entry.
    fn places_apart(&self) -> Result<Vec<(usize, bool)>, AllocError> {
        let mut apart = Vec::new(self.alloc);
        let mut seen: HashMap<Deciders, ()> = HashMap::new(self.alloc);
        for (number, place) in self.trail.places.iter().enumerate() {
            if !place.name.is_named() {
                continue;
            }
            for is_dir in [false, true] {
                if self.search.agrees(self.counted, place, is_dir) {
                    continue;
                }
                if seen.insert(self.deciders(place, is_dir), ())?.is_none() {
                    apart.push((number, is_dir))?;
                }
            }
        }
        Ok(apart)
    }

    /// Adds the difference at a place, if more are wanted and it is by another pair of rules.
    fn push_at(
        &self,
        found: &mut Vec<Difference>,
        at: (usize, bool),
        most: usize,
    ) -> Result<(), Error>
        ensures kept { IfOk result (λ done. AreDifferencesOf self.now most found.old.items → AreDifferencesOf self.now most found.new.items) }
        ensures first { IfOk result (λ done. (d : Difference) → slice_get found.old.items 0 ≡ Some d → slice_get found.new.items 0 ≡ Some d) }
    {
        if found.len() >= most {
            return Ok(());
        }
        let text = self.trail.text_to(self.alloc, at.0)?;
        let difference = self.difference(&text, at.1)?;
        if !is_apart(found, &difference) {
            return Ok(());
        }
        found.push(difference)?;
        Ok(())
    }

    /// Adds more differences, if more are wanted.
    fn push_others(&self, found: &mut Vec<Difference>, most: usize) -> Result<(), Error>
        ensures kept { IfOk result (λ done. AreDifferencesOf self.now most found.old.items → AreDifferencesOf self.now most found.new.items) }
        ensures first { IfOk result (λ done. (d : Difference) → slice_get found.old.items 0 ≡ Some d → slice_get found.new.items 0 ≡ Some d) }
    {
        if most < 2 {
            return Ok(());
        }
        let apart = self.places_apart()?;
        for at in &apart {
            self.push_at(found, *at, most)?;
        }
        Ok(())
    }

    /// Questions at which the lists differ, at most so many.
    pub(crate) fn found(&self, most: usize) -> Result<Vec<Difference>, Error>
        requires { IsOverBoth self.now }
        ensures { IfOk result (λ found. AreFound self.now most found.items) }
    {
        let mut found = Vec::new(self.alloc);
        if most == 0 {
            return Ok(found);
        }
        let first = self.first()?;
        let Some(difference) = first else {
            return Ok(found);
        };
        found.push(difference)?;
        self.push_others(&mut found, most)?;
        Ok(found)
    }
}
