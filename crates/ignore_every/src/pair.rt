//! Tables of pairs: of the states of two tables, for the rules of both.
ghost use Rattle.std.specs.Prelude.{◌≡◌, ◌++◌, ℕ, IsTrue, true, false};
ghost use Rattle.std.specs.Option.{option_or};
ghost use Rattle.ignore_every.specs.Machines.{IsPairing, IsPairStep, IsPairDecider, IsPairTaking};
ghost use Rattle.ignore_every.specs.Rows.{table_of, part_of};

use crate::row::{Row, decider_of, is_same, is_some_of, next_of, row_length, taking_of};

/// A table of pairs of states.
#[derive(Debug, Drop)]
pub struct Pair {
    /// The pair of each state.
    pub parts: Vec<(usize, usize)>,
    /// The states.
    pub rows: Vec<Row>,
}

/// The pair of a state; of no state the first.
fn part_of(parts: &[(usize, usize)], state: usize) -> (usize, usize)
    ensures { result ≡ part_of parts.now state }
{
    match parts.get(state) {
        Some(part) => *part,
        None => (0, 0),
    }
}

/// The decider among later rules, else the one among earlier rules.
pub(crate) fn later(right: Option<usize>, left: Option<usize>) -> Option<usize>
    ensures { result ≡ option_or right left }
{
    match right {
        Some(index) => Some(index),
        None => left,
    }
}

/// Whether a list is two others, one after the other.
fn is_joined(list: &[usize], earlier: &[usize], after: &[usize]) -> bool
    ensures { IsTrue result → list.now ≡ earlier.now ++ after.now }
{
    if list.len() < earlier.len() {
        return false;
    }
    let (front, back) = list.split_at(earlier.len());
    front == earlier && back == after
}

impl Pair {
    fn is_step_right(&self, left: &[Row], right: &[Row], state: usize, letter: usize) -> bool
        ensures { IsTrue result → IsPairStep (table_of left.now) (table_of right.now) (part_of self.now.parts.items)
            (table_of self.now.rows.items) state letter }
    {
        let Some(target) = next_of(&self.rows, state, letter) else {
            return true;
        };
        let from = part_of(&self.parts, state);
        let to = part_of(&self.parts, target);
        is_some_of(next_of(left, from.0, letter), to.0)
            && is_some_of(next_of(right, from.1, letter), to.1)
    }

    fn are_steps_right(&self, left: &[Row], right: &[Row], state: usize) -> bool
        ensures { IsTrue result → (letter : ℕ) → IsPairStep (table_of left.now) (table_of right.now) (part_of self.now.parts.items)
            (table_of self.now.rows.items) state letter }
    {
        let letters = row_length(&self.rows, state);
        for letter in 0..letters {
            if !self.is_step_right(left, right, state, letter) {
                return false;
            }
        }
        true
    }

    fn is_decider_right(&self, left: &[Row], right: &[Row], state: usize, is_dir: bool) -> bool
        ensures { IsTrue result → IsPairDecider (table_of left.now) (table_of right.now) (part_of self.now.parts.items)
            (table_of self.now.rows.items) state is_dir }
    {
        let Some(decider) = decider_of(&self.rows, state, is_dir) else {
            return true;
        };
        let from = part_of(&self.parts, state);
        let Some(earlier) = decider_of(left, from.0, is_dir) else {
            return false;
        };
        let Some(after) = decider_of(right, from.1, is_dir) else {
            return false;
        };
        is_same(decider, later(after, earlier))
    }

    fn is_taking_right(&self, left: &[Row], right: &[Row], state: usize) -> bool
        ensures { IsTrue result → IsPairTaking (table_of left.now) (table_of right.now) (part_of self.now.parts.items)
            (table_of self.now.rows.items) state }
    {
        let Some(known) = taking_of(&self.rows, state) else {
            return true;
        };
        let from = part_of(&self.parts, state);
        let Some(earlier) = taking_of(left, from.0) else {
            return false;
        };
        let Some(after) = taking_of(right, from.1) else {
            return false;
        };
        is_joined(known, earlier, after)
    }

    fn is_state_right(&self, left: &[Row], right: &[Row], state: usize) -> bool
        ensures steps { IsTrue result → (letter : ℕ) → IsPairStep (table_of left.now) (table_of right.now) (part_of self.now.parts.items)
            (table_of self.now.rows.items) state letter }
        ensures file { IsTrue result → IsPairDecider (table_of left.now) (table_of right.now) (part_of self.now.parts.items)
            (table_of self.now.rows.items) state false }
        ensures dir { IsTrue result → IsPairDecider (table_of left.now) (table_of right.now) (part_of self.now.parts.items)
            (table_of self.now.rows.items) state true }
        ensures takes { IsTrue result → IsPairTaking (table_of left.now) (table_of right.now) (part_of self.now.parts.items)
            (table_of self.now.rows.items) state }
    {
        if !self.is_taking_right(left, right, state) {
            return false;
        }
        if !self.is_decider_right(left, right, state, false) {
            return false;
        }
        if !self.is_decider_right(left, right, state, true) {
            return false;
        }
        self.are_steps_right(left, right, state)
    }

    /// Whether this is the table of these pairs of states of two tables.
    pub(crate) fn is_right(&self, left: &[Row], right: &[Row]) -> bool
        ensures { IsTrue result → IsPairing (table_of left.now) (table_of right.now) (part_of self.now.parts.items)
            (table_of self.now.rows.items) }
    {
        let first = part_of(&self.parts, 0);
        if first.0 != 0 || first.1 != 0 {
            return false;
        }
        for state in 0..self.rows.len() {
            if !self.is_state_right(left, right, state) {
                return false;
            }
        }
        true
    }
}
