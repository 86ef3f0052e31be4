//! Tables of sets: of the sets of positions of one rule.
ghost use Rattle.std.specs.Prelude.{◌≡◌, ◌++◌, ◌∷◌, [], ℕ, IsTrue, IfOk, Some, None, true, false, cond};
ghost use Rattle.ignore_base.specs.Text.{Chars};
ghost use Rattle.ignore_glob.specs.PositionSets.{IsSetAfter};
ghost use Rattle.ignore_every.specs.Machines.{IsLeaf, IsLeafStep, IsLeafDecider, IsLeafTaking};
ghost use Rattle.ignore_every.specs.Sets.{set_of};
ghost use Rattle.ignore_every.specs.Rows.{table_of};

use crate::row::{Row, decider_of, is_in, is_same, next_of, row_length, taking_of};
use ignore_glob::internal::{Automaton, Flags};
use std::alloc::AllocError;

/// A table of the sets of positions of one rule.
#[derive(Drop)]
pub struct Leaf {
    /// The set of each state.
    pub sets: Vec<Flags>,
    /// The states.
    pub rows: Vec<Row>,
}

/// A rule, for its table.
#[derive(Drop)]
pub struct LeafRule {
    /// Its index.
    pub index: usize,
    /// Whether it applies to directories only.
    pub is_only_dir: bool,
    /// The automaton of its glob.
    pub automaton: Automaton,
}

/// Whether two sets are the same.
fn is_same_set(a: &Flags, b: &Flags) -> bool
    ensures { IsTrue result → a.now.all.items ≡ b.now.all.items }
{
    a.all.as_slice() == b.all.as_slice()
}

/// Whether a set is the one of a state.
fn is_set_of(set: &Flags, sets: &[Flags], state: usize) -> bool
    ensures { IsTrue result → set.now.all.items ≡ set_of sets.now state }
{
    match sets.get(state) {
        Some(found) => is_same_set(set, found),
        None => false,
    }
}

/// Whether a set leads by a character to another.
fn does_lead(automaton: &Automaton, from: &Flags, c: char, to: &Flags) -> Result<bool, AllocError>
    ensures { IfOk result (λ yes. IsTrue yes → (text : Chars) → IsSetAfter automaton.now text from.now.all.items
        → IsSetAfter automaton.now (text ++ c ∷ []) to.now.all.items) }
{
    let next = automaton.step(from, c)?;
    Ok(is_same_set(&next, to))
}

/// The index of a rule where it applies.
fn decided(index: usize, applies: bool) -> Option<usize>
    ensures { result ≡ cond applies (Some index) None }
{
    if applies { Some(index) } else { None }
}

impl Leaf {
    fn is_step_right(
        &self,
        letters: &[char],
        automaton: &Automaton,
        state: usize,
        letter: usize,
    ) -> Result<bool, AllocError>
        ensures { IfOk result (λ yes. IsTrue yes → IsLeafStep letters.now automaton.now (set_of self.now.sets.items)
            (table_of self.now.rows.items) state letter) }
    {
        let Some(target) = next_of(&self.rows, state, letter) else {
            return Ok(true);
        };
        let Some(c) = letters.get(letter) else {
            return Ok(true);
        };
        let Some(from) = self.sets.get(state) else {
            return Ok(false);
        };
        let Some(to) = self.sets.get(target) else {
            return Ok(false);
        };
        does_lead(automaton, from, *c, to)
    }

    fn are_steps_right(
        &self,
        letters: &[char],
        automaton: &Automaton,
        state: usize,
    ) -> Result<bool, AllocError>
        ensures { IfOk result (λ yes. IsTrue yes → (letter : ℕ) → IsLeafStep letters.now automaton.now (set_of self.now.sets.items)
            (table_of self.now.rows.items) state letter) }
    {
        let letters_of_row = row_length(&self.rows, state);
        for letter in 0..letters_of_row {
            let is_right = self.is_step_right(letters, automaton, state, letter)?;
            if !is_right {
                return Ok(false);
            }
        }
        Ok(true)
    }

    fn is_decider_right(&self, rule: &LeafRule, state: usize, is_dir: bool) -> bool
        ensures { IsTrue result → IsLeafDecider rule.now.index rule.now.is_only_dir rule.now.automaton (set_of self.now.sets.items)
            (table_of self.now.rows.items) state is_dir }
    {
        let Some(decider) = decider_of(&self.rows, state, is_dir) else {
            return true;
        };
        let Some(set) = self.sets.get(state) else {
            return false;
        };
        let ends = rule.automaton.ends(set);
        let applies = (!rule.is_only_dir || is_dir) && ends;
        is_same(decider, decided(rule.index, applies))
    }

    fn is_taking_right(&self, rule: &LeafRule, state: usize) -> bool
        ensures { IsTrue result → IsLeafTaking rule.now.index rule.now.automaton (set_of self.now.sets.items)
            (table_of self.now.rows.items) state }
    {
        let Some(known) = taking_of(&self.rows, state) else {
            return true;
        };
        let Some(set) = self.sets.get(state) else {
            return false;
        };
        if !rule.automaton.ends(set) {
            return true;
        }
        is_in(known, rule.index)
    }

    fn is_state_right(
        &self,
        letters: &[char],
        rule: &LeafRule,
        state: usize,
    ) -> Result<bool, AllocError>
        ensures steps { IfOk result (λ right. IsTrue right → (letter : ℕ) → IsLeafStep letters.now rule.now.automaton
            (set_of self.now.sets.items) (table_of self.now.rows.items) state letter) }
        ensures file { IfOk result (λ right. IsTrue right → IsLeafDecider rule.now.index rule.now.is_only_dir rule.now.automaton
            (set_of self.now.sets.items) (table_of self.now.rows.items) state false) }
        ensures dir { IfOk result (λ right. IsTrue right → IsLeafDecider rule.now.index rule.now.is_only_dir rule.now.automaton
            (set_of self.now.sets.items) (table_of self.now.rows.items) state true) }
        ensures takes { IfOk result (λ right. IsTrue right → IsLeafTaking rule.now.index rule.now.automaton
            (set_of self.now.sets.items) (table_of self.now.rows.items) state) }
    {
        if !self.is_taking_right(rule, state) {
            return Ok(false);
        }
        if !self.is_decider_right(rule, state, false) {
            return Ok(false);
        }
        if !self.is_decider_right(rule, state, true) {
            return Ok(false);
        }
        let are_right = self.are_steps_right(letters, &rule.automaton, state)?;
        Ok(are_right)
    }

    /// Whether this is the table of these sets of the rule.
    pub(crate) fn is_right(&self, letters: &[char], rule: &LeafRule) -> Result<bool, AllocError>
        ensures { IfOk result (λ right. IsTrue right → IsLeaf letters.now rule.now.index rule.now.is_only_dir rule.now.automaton
            (set_of self.now.sets.items) (table_of self.now.rows.items)) }
    {
        let begun = rule.automaton.begin()?;
        if !is_set_of(&begun, &self.sets, 0) {
            return Ok(false);
        }
        for state in 0..self.rows.len() {
            let is_right = self.is_state_right(letters, rule, state)?;
            if !is_right {
                return Ok(false);
            }
        }
        Ok(true)
    }
}
