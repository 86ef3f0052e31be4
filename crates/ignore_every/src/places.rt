//! Whether a search is closed.
ghost use Rattle.std.specs.Prelude.{◌≡◌, ◌≤◌, ◌+◌, ℕ, IsTrue, true, None, Some, slice_get};
ghost use Rattle.ignore_every.specs.Machines.{ignores, is_cut, is_free};
ghost use Rattle.ignore_every.specs.Names.{name_after};
ghost use Rattle.ignore_every.specs.Rows.{table_of};
ghost use Rattle.ignore_every.specs.Searches.{IsClosed, IsClosedStep, IsSideStep, ends, goes_on, starts};
ghost use Rattle.ignore_every.specs.Scopes.{side_of, scope_of};

use crate::error::Error;
use crate::place::{NameStart, Place};
use crate::row::{Row, decider_of, is_same, is_some_of, next_of};
use ignore_rules::gitignore::Glob;

/// A list of rules, with its table.
#[derive(Clone, Copy, Drop)]
pub struct Side<'a> {
    /// The rules.
    pub rules: &'a [Glob],
    /// The states of the table of all of them.
    pub rows: &'a [Row],
}

/// What a search goes over: one list of rules, or two.
#[derive(Drop)]
pub struct Search<'a> {
    /// Whether only reached paths are asked about.
    pub reached: bool,
    /// Whether the second list is asked too.
    pub both: bool,
    /// The first list.
    pub left: Side<'a>,
    /// The second list.
    pub right: Side<'a>,
    /// The characters that stand for the letters.
    pub letters: &'a [char],
}

/// Whether a rule is there and ignores.
pub(crate) fn ignores(rules: &[Glob], index: Option<usize>) -> bool
    ensures { result ≡ ignores rules.now index }
{
    match index {
        Some(k) => match rules.get(k) {
            Some(rule) => !rule.is_whitelist(),
            None => false,
        },
        None => false,
    }
}

/// Whether a state, a directory, is known to be ignored.
fn is_cut(rules: &[Glob], rows: &[Row], state: usize) -> bool
    ensures { result ≡ is_cut rules.now ((table_of rows.now).decider state true) }
{
    match decider_of(rows, state, true) {
        Some(index) => ignores(rules, index),
        None => false,
    }
}

/// Whether a state, a directory, is known not to be ignored.
fn is_free(rules: &[Glob], rows: &[Row], state: usize) -> bool
    ensures { result ≡ is_free rules.now ((table_of rows.now).decider state true) }
{
    match decider_of(rows, state, true) {
        Some(index) => !ignores(rules, index),
        None => false,
    }
}

/// Whether two names begin alike.
fn is_same_name(a: NameStart, b: NameStart) -> bool
    ensures { IsTrue result → a ≡ b }
{
    match a {
        NameStart::Empty => match b {
            NameStart::Empty => true,
            NameStart::Dot | NameStart::Dots | NameStart::Named => false,
        },
        NameStart::Dot => match b {
            NameStart::Dot => true,
            NameStart::Empty | NameStart::Dots | NameStart::Named => false,
        },
        NameStart::Dots => match b {
            NameStart::Dots => true,
            NameStart::Empty | NameStart::Dot | NameStart::Named => false,
        },
        NameStart::Named => b.is_named(),
    }
}

/// The place with this number, if there is one.
pub(crate) fn place_at(places: &[Place], number: usize) -> Option<Place>
    ensures { result ≡ slice_get places.now number }
{
    match places.get(number) {
        Some(place) => Some(*place),
        None => None,
    }
}

/// The character that stands for a letter, if there is one.
pub(crate) fn letter_at(letters: &[char], number: usize) -> Option<char>
    ensures { result ≡ slice_get letters.now number }
{
    match letters.get(number) {
        Some(letter) => Some(*letter),
        None => None,
    }
}

/// The place that comes next, if one is known, else a number that no place has.
fn target_at(next: &[Vec<usize>], place: usize, letter: usize) -> usize {
    match next.get(place) {
        Some(row) => match row.get(letter) {
            Some(target) => *target,
            None => usize::MAX,
        },
        None => usize::MAX,
    }
}

impl<'a> Side<'a> {
    /// Whether the list isn't asked below a directory.
    fn ends(&self, reached: bool, state: Option<usize>) -> bool
        ensures { result ≡ ends reached (side_of self.now) state }
    {
        match state {
            Some(state) => reached && is_cut(self.rules, self.rows, state),
            None => true,
        }
    }

    /// Where the list comes by a letter.
    pub(crate) fn step(
        &self,
        reached: bool,
        state: Option<usize>,
        letter: (usize, char),
    ) -> Result<Option<usize>, Error> {
        let Some(from) = state else {
            return Ok(None);
        };
        if letter.1 == '/' && self.ends(reached, state) {
            return Ok(None);
        }
        let Some(to) = next_of(self.rows, from, letter.0) else {
            return Err(Error::Rejected);
        };
        Ok(Some(to))
    }

    /// Whether the list comes from a state that has ended, or that hasn't, to one that has.
    fn does_end(&self, reached: bool, letter: (usize, char), from: Option<usize>) -> bool
        ensures { IsTrue result → IsSideStep reached (side_of self.now) letter.0 letter.1 from None }
    {
        match from {
            Some(from) => letter.1 == '/' && reached && is_cut(self.rules, self.rows, from),
            None => true,
        }
    }

    /// Whether the list comes from a state by a letter to another.
    fn does_lead(&self, reached: bool, letter: (usize, char), from: usize, to: usize) -> bool
        ensures { IsTrue result → IsSideStep reached (side_of self.now) letter.0 letter.1 (Some from) (Some to) }
    {
        if !is_some_of(next_of(self.rows, from, letter.0), to) {
            return false;
        }
        if letter.1 != '/' || !reached {
            return true;
        }
        is_free(self.rules, self.rows, from)
    }

    /// Whether the list comes by a letter from there to there.
    fn is_step(
        &self,
        reached: bool,
        letter: (usize, char),
        from: Option<usize>,
        to: Option<usize>,
    ) -> bool
        ensures { IsTrue result → IsSideStep reached (side_of self.now) letter.0 letter.1 from to }
    {
        let Some(to) = to else {
            return self.does_end(reached, letter, from);
        };
        match from {
            Some(from) => self.does_lead(reached, letter, from, to),
            None => false,
        }
    }
}

impl<'a> Search<'a> {
    /// Where the second list begins, if it is asked.
    pub(crate) fn start(&self) -> Option<usize>
        ensures { result ≡ starts self.now.both }
    {
        if self.both { Some(0) } else { None }
    }

    /// Whether paths go on from here by this character.
    pub(crate) fn goes_on(&self, here: &Place, c: char) -> bool
        ensures { result ≡ goes_on (scope_of self.now) here.now c }
    {
        if c != '/' {
            return true;
        }
        if !here.name.is_named() {
            return false;
        }
        !(self.left.ends(self.reached, here.left) && self.right.ends(self.reached, here.right))
    }

    /// Whether one place leads to another by a letter, at most one character deeper.
    fn leads(&self, here: &Place, letter: (usize, char), there: &Place) -> bool
        ensures left { IsTrue result → IsSideStep self.now.reached (side_of self.now.left) letter.0 letter.1 here.now.left
            there.now.left }
        ensures right { IsTrue result → IsSideStep self.now.reached (side_of self.now.right) letter.0 letter.1 here.now.right
            there.now.right }
        ensures name { IsTrue result → there.now.name ≡ name_after here.now.name letter.1 }
        ensures depth { IsTrue result → there.now.depth ≤ here.now.depth + 1 }
    {
        if !self
            .left
            .is_step(self.reached, letter, here.left, there.left)
        {
            return false;
        }
        if !self
            .right
            .is_step(self.reached, letter, here.right, there.right)
        {
            return false;
        }
        if !is_same_name(there.name, here.name.after(letter.1)) {
            return false;
        }
        there.depth == 0 || there.depth - 1 <= here.depth
    }

    fn is_step_closed(
        &self,
        places: &[Place],
        next: &[Vec<usize>],
        place: usize,
        letter: usize,
    ) -> bool
        ensures { IsTrue result → IsClosedStep (scope_of self.now) places.now place letter }
    {
        let Some(here) = place_at(places, place) else {
            return true;
        };
        let Some(c) = letter_at(self.letters, letter) else {
            return true;
        };
        if !self.goes_on(&here, c) {
            return true;
        }
        let target = target_at(next, place, letter);
        let Some(there) = place_at(places, target) else {
            return false;
        };
        self.leads(&here, (letter, c), &there)
    }

    fn are_steps_closed(&self, places: &[Place], next: &[Vec<usize>], place: usize) -> bool
        ensures { IsTrue result → (letter : ℕ) → IsClosedStep (scope_of self.now) places.now place letter }
    {
        for letter in 0..self.letters.len() {
            if !self.is_step_closed(places, next, place, letter) {
                return false;
            }
        }
        true
    }

    /// Whether the places are closed; `next` says for each of them and each letter which place
    /// comes next.
    pub(crate) fn is_closed(&self, places: &[Place], next: &[Vec<usize>]) -> bool
        ensures { IsTrue result → IsClosed (scope_of self.now) places.now }
    {
        let Some(root) = place_at(places, 0) else {
            return false;
        };
        if !is_some_of(root.left, 0) {
            return false;
        }
        if !is_same(root.right, self.start()) {
            return false;
        }
        if root.depth != 0 {
            return false;
        }
        if !is_same_name(root.name, NameStart::Empty) {
            return false;
        }
        for place in 0..places.len() {
            if !self.are_steps_closed(places, next, place) {
                return false;
            }
        }
        true
    }
}
