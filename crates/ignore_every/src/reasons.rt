//! By which rules an overruled one is overruled.
ghost use Rattle.std.specs.Prelude.{◌≡◌, ℕ, IsTrue, IfOk, IfSome, Some, false, slice_get};
ghost use Rattle.ignore_rules.specs.Rules.{Rule};
ghost use Rattle.ignore_every.specs.Findings.{AreNamed, AreReasons, HasAllReasons, IsNamedAt, IsReason};
ghost use Rattle.ignore_every.specs.Machines.{IsIn};
ghost use Rattle.ignore_every.specs.Rows.{table_of};
ghost use Rattle.ignore_every.specs.Sound.{IsOver};
ghost use Rattle.ignore_every.specs.declared.place.Place.{Place};

use crate::asked::asked_path;
use crate::decided::{applies_at, decides};
use crate::error::Error;
use crate::judge::Judge;
use crate::place::Place;
use crate::places::place_at;
use crate::row::{Row, decider_of, is_in, taking_of};
use ignore_rules::gitignore::Glob;
use std::alloc::AllocError;

/// A rule that may decide where the overruled one applies, with a question of that.
#[derive(Debug, Clone, Copy, Drop)]
pub struct Candidate {
    /// The index of the rule.
    pub other: usize,
    /// The place that stands for the question's path.
    pub place: usize,
    /// Whether the question is of a directory.
    pub is_dir: bool,
}

/// An overruled rule, with the rules that are named for it.
#[derive(Drop)]
pub struct Named<'a> {
    /// The states of the table of all rules.
    pub rows: &'a [Row],
    /// The index of the overruled rule.
    pub index: usize,
    /// Whether it applies to directories only.
    pub is_only_dir: bool,
    /// The rules that are named.
    pub named: &'a [usize],
}

impl<'a> Named<'a> {
    /// Whether one of these decides at a place, where it is of a name and the rule applies.
    fn is_named_at(&self, place: &Place, is_dir: bool) -> bool
        ensures { IsTrue result → IsNamedAt (table_of self.now.rows.now) self.now.is_only_dir self.now.index self.now.named.now
            place.now is_dir }
    {
        if !place.name.is_named() {
            return true;
        }
        if self.is_only_dir && !is_dir {
            return true;
        }
        let Some(state) = place.left else {
            return true;
        };
        let Some(known) = taking_of(self.rows, state) else {
            return false;
        };
        if !is_in(known, self.index) {
            return true;
        }
        let Some(decider) = decider_of(self.rows, state, is_dir) else {
            return false;
        };
        match decider {
            Some(other) => is_in(self.named, other),
            None => false,
        }
    }

    /// Whether so it is at the place with this number, if there is one.
    fn is_named_for(&self, places: &[Place], number: usize, is_dir: bool) -> bool
        ensures { IsTrue result → (place : Place) → slice_get places.now number ≡ Some place
            → IsNamedAt (table_of self.now.rows.now) self.now.is_only_dir self.now.index self.now.named.now place is_dir }
    {
        match place_at(places, number) {
            Some(place) => self.is_named_at(&place, is_dir),
            None => true,
        }
    }

    /// Whether so it is at each place.
    fn are_named(&self, places: &[Place]) -> bool
        ensures { IsTrue result → AreNamed (table_of self.now.rows.now) places.now self.now.is_only_dir self.now.index
            self.now.named.now }
    {
        for number in 0..places.len() {
            if !self.is_named_for(places, number, false) {
                return false;
            }
            if !self.is_named_for(places, number, true) {
                return false;
            }
        }
        true
    }
}

/// The state of a place of a name that the glob of a rule takes, if it does.
fn taken_state(rows: &[Row], place: &Place, index: usize) -> Option<usize> {
    let state = place.left?;
    let known = taking_of(rows, state)?;
    if place.name.is_named() && is_in(known, index) {
        Some(state)
    } else {
        None
    }
}

/// Whether the rule with this index, if there is one, applies to directories only.
fn only_dir_at(rules: &[Glob], index: usize) -> Option<bool>
    ensures { IfSome result (λ only. (rule : Rule) × (slice_get rules.now index ≡ Some rule) × (only ≡ rule.is_only_dir)) }
{
    match rules.get(index) {
        Some(rule) => Some(rule.is_only_dir()),
        None => None,
    }
}

/// The candidate with this number, if there is one.
fn candidate_at(candidates: &[Candidate], number: usize) -> Option<Candidate> {
    candidates.get(number).copied()
}

/// Keeps the first place at which a rule decides.
fn keep_first(firsts: &mut [Option<Candidate>], decider: Option<Option<usize>>, found: Candidate) {
    let Some(other) = decider.unwrap_or(None) else {
        return;
    };
    if let Some(first) = firsts.get_mut(other) {
        if first.is_none() {
            *first = Some(Candidate { other, ..found });
        }
    }
}

impl<'a> Judge<'a> {
    /// For each rule the first place at which it decides where this one applies.
    fn firsts(&self, index: usize) -> Result<Vec<Option<Candidate>>, AllocError> {
        let mut firsts = Vec::new(self.alloc);
        for _ in 0..self.rules.len() {
            firsts.push(None)?;
        }
        let Some(rule) = self.rules.rules().get(index) else {
            return Ok(firsts);
        };
        let rows = self.search.left.rows;
        for (number, place) in self.trail.places.iter().enumerate() {
            let Some(state) = taken_state(rows, place, index) else {
                continue;
            };
            let mut found = Candidate {
                other: index,
                place: number,
                is_dir: false,
            };
            if !rule.is_only_dir() {
                keep_first(&mut firsts, decider_of(rows, state, false), found);
            }
            found.is_dir = true;
            keep_first(&mut firsts, decider_of(rows, state, true), found);
        }
        Ok(firsts)
    }

    /// Rules that may decide where this one applies, by growing indices.
    fn candidates(&self, index: usize) -> Result<Vec<Candidate>, AllocError> {
        let mut candidates = Vec::new(self.alloc);
        for first in &self.firsts(index)? {
            if let Some(candidate) = first {
                candidates.push(*candidate)?;
            }
        }
        Ok(candidates)
    }

    /// Whether at the candidate's question it decides and the rule applies.
    fn is_reason(&self, index: usize, candidate: Candidate) -> Result<bool, Error>
        ensures { IfOk result (λ yes. IsTrue yes → IsReason self.now.rules.now.rules index candidate.other) }
    {
        let text = self.trail.text_to(self.alloc, candidate.place)?;
        let asked = asked_path(self.alloc, self.rules, false, &text)?;
        let Some(path) = asked else {
            return Ok(false);
        };
        let rules = self.rules.rules();
        let does_apply = applies_at(rules, index, path.as_str(), candidate.is_dir)?;
        if !does_apply {
            return Ok(false);
        }
        let is_decided = decides(rules, candidate.other, path.as_str(), candidate.is_dir)?;
        Ok(is_decided)
    }

    /// Rules that decide somewhere where this one applies.
    fn some_reasons(&self, index: usize) -> Result<Vec<usize>, Error>
        ensures { IfOk result (λ named. (other : ℕ) → IsIn named.items other → IsReason self.now.rules.now.rules index other) }
    {
        let candidates = self.candidates(index)?;
        let mut named = Vec::new(self.alloc);
        for number in 0..candidates.len() {
            let Some(candidate) = candidate_at(&candidates, number) else {
                return Err(Error::Rejected);
            };
            let is_reason = self.is_reason(index, candidate)?;
            if !is_reason {
                return Err(Error::Rejected);
            }
            named.push(candidate.other)?;
        }
        Ok(named)
    }

    /// Whether one of these rules decides wherever this one applies.
    fn are_all(&self, index: usize, named: &[usize]) -> bool
        requires { IsOver false self.now.rules.now.rules self.now }
        ensures { IsTrue result → HasAllReasons self.now.rules.now.rules index named.now }
    {
        let Some(is_only_dir) = only_dir_at(self.rules.rules(), index) else {
            return false;
        };
        let named = Named {
            rows: self.search.left.rows,
            index,
            is_only_dir,
            named,
        };
        named.are_named(&self.trail.places)
    }

    /// The rules that decide where an overruled one applies.
    pub(crate) fn reasons(&self, index: usize) -> Result<Vec<usize>, Error>
        requires { IsOver false self.now.rules.now.rules self.now }
        ensures { IfOk result (λ named. AreReasons self.now.rules.now.rules index named.items) }
    {
        let named = self.some_reasons(index)?;
        if !self.are_all(index, &named) {
            return Err(Error::Rejected);
        }
        Ok(named)
    }
}
