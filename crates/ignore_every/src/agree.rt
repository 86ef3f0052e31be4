//! Whether two lists say the same at the places of a search.
ghost use Rattle.std.specs.Prelude.{◌≡◌, IsTrue, Bool, Some, slice_get, false, true};
ghost use Rattle.ignore_every.specs.Agreement.{AgreesAt, AgreesBefore, NumberAgrees, verdict_at, verdict_by};
ghost use Rattle.ignore_every.specs.Findings.{is_before};
ghost use Rattle.ignore_every.specs.Names.{is_named};
ghost use Rattle.ignore_every.specs.Scopes.{scope_of, side_of};
ghost use Rattle.ignore_every.specs.Verdicts.{counted_as};

use crate::misses::is_before;
use crate::place::Place;
use crate::places::{Search, Side, place_at};
use crate::row::decider_of;
use crate::said::{Counted, Verdict};
use ignore_rules::gitignore::Glob;

/// As which verdict one counts.
fn counted_as(counted: Counted, verdict: Verdict) -> Verdict
    ensures { result ≡ counted_as counted verdict }
{
    match counted {
        Counted::Verdicts => verdict,
        Counted::Ignored => match verdict {
            Verdict::None => Verdict::None,
            Verdict::Ignore => Verdict::Ignore,
            Verdict::Whitelist => Verdict::None,
        },
    }
}

/// Whether two verdicts are the same.
fn is_same_verdict(a: Verdict, b: Verdict) -> bool
    ensures yes { IsTrue result → a ≡ b }
    ensures no { result ≡ false → a ≡ b → ⊥ }
{
    match a {
        Verdict::None => match b {
            Verdict::None => true,
            Verdict::Ignore => false,
            Verdict::Whitelist => false,
        },
        Verdict::Ignore => match b {
            Verdict::None => false,
            Verdict::Ignore => true,
            Verdict::Whitelist => false,
        },
        Verdict::Whitelist => match b {
            Verdict::None => false,
            Verdict::Ignore => false,
            Verdict::Whitelist => true,
        },
    }
}

/// Whether two verdicts count as the same.
pub(crate) fn is_alike(counted: Counted, a: Verdict, b: Verdict) -> bool
    ensures yes { IsTrue result → counted_as counted a ≡ counted_as counted b }
    ensures no { result ≡ false → counted_as counted a ≡ counted_as counted b → ⊥ }
{
    is_same_verdict(counted_as(counted, a), counted_as(counted, b))
}

/// The verdict of the rule that decides, if one does.
fn verdict_by(rules: &[Glob], decider: Option<usize>) -> Verdict
    ensures { result ≡ verdict_by rules.now decider }
{
    let Some(index) = decider else {
        return Verdict::None;
    };
    match rules.get(index) {
        Some(rule) => {
            if rule.is_whitelist() {
                Verdict::Whitelist
            } else {
                Verdict::Ignore
            }
        }
        None => Verdict::None,
    }
}

/// What a list says at a state, if that is known.
fn verdict_at(side: &Side<'_>, state: Option<usize>, is_dir: bool) -> Option<Verdict>
    ensures { result ≡ verdict_at (side_of side.now) state is_dir }
{
    let Some(state) = state else {
        return Some(Verdict::Ignore);
    };
    match decider_of(side.rows, state, is_dir) {
        Some(decider) => Some(verdict_by(side.rules, decider)),
        None => None,
    }
}

impl<'a> Search<'a> {
    /// Whether both lists say at a place what counts as the same.
    pub(crate) fn agrees(&self, counted: Counted, place: &Place, is_dir: bool) -> bool
        ensures { IsTrue result → AgreesAt counted (scope_of self.now) place.now is_dir }
    {
        let Some(old) = verdict_at(&self.left, place.left, is_dir) else {
            return false;
        };
        let Some(new) = verdict_at(&self.right, place.right, is_dir) else {
            return false;
        };
        is_alike(counted, old, new)
    }

    /// Whether so it is for both kinds, unless the place isn't a name's or isn't before the bound.
    fn place_agrees(&self, counted: Counted, place: &Place, bound: Option<usize>) -> bool
        ensures { IsTrue result → is_named place.now.name ≡ true → is_before place.now.depth bound ≡ true
            → (is_dir : Bool) → AgreesAt counted (scope_of self.now) place.now is_dir }
    {
        if !place.name.is_named() || !is_before(place.depth, bound) {
            return true;
        }
        if !self.agrees(counted, place, false) {
            return false;
        }
        self.agrees(counted, place, true)
    }

    /// Whether so it is at the place with this number, if there is one.
    fn number_agrees(
        &self,
        counted: Counted,
        places: &[Place],
        bound: Option<usize>,
        number: usize,
    ) -> bool
        ensures { IsTrue result → NumberAgrees counted (scope_of self.now) places.now bound number }
    {
        match place_at(places, number) {
            Some(place) => self.place_agrees(counted, &place, bound),
            None => true,
        }
    }

    /// Whether so it is at each place.
    pub(crate) fn agrees_before(
        &self,
        counted: Counted,
        places: &[Place],
        bound: Option<usize>,
    ) -> bool
        ensures { IsTrue result → AgreesBefore counted (scope_of self.now) places.now bound }
    {
        for number in 0..places.len() {
            if !self.number_agrees(counted, places, bound, number) {
                return false;
            }
        }
        true
    }
}
