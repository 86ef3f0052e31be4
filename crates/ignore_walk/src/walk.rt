//! A walk, as an iterator.
ghost use Rattle.std.specs.Prelude.{◌≡◌, ◌<◌, ◌≤◌, ◌⊎◌, [], ℕ, All, List, true, false, None, Some, Err, IfSome, IfOk, IfErr, map, option_map};
ghost use Rattle.ignore_base.specs.declared.fault.Fault.TheVariants.{StepLimit};
ghost use Rattle.ignore_base.specs.Problem.{Problem, problem_of, io, memory};
ghost use Rattle.ignore_walk.specs.Entry.{Item as Yielded, item_of};
ghost use Rattle.ignore_walk.specs.Below.{AnswersBelow, KeepsBelow, StaysBelow};
ghost use Rattle.ignore_walk.specs.Branch.{Branch};
ghost use Rattle.ignore_walk.specs.GoesOn.{AllGoOn, HasNoEnd};
ghost use Rattle.ignore_walk.specs.Left.{Remains};
ghost use Rattle.ignore_walk.specs.Paces.{HasWork, Paces, TookSteps, Work, work_at, work_of};
ghost use Rattle.ignore_walk.specs.Scene.{Scene};
ghost use Rattle.ignore_walk.specs.Stands.{IsIn, Stands, state_of};
ghost use Rattle.ignore_walk.specs.Suits.{IsGroundOf};
ghost use Rattle.ignore_walk.specs.Whole.{Whole};

use crate::callbacks::Callbacks;
use crate::entry::Item;
use crate::ground::Ground;
use crate::stack::Stack;
use ignore_base::{Error, Fault};
use ignore_files::{Files, Name};
use ignore_levels::Levels;
use std::collections::VecDeque;
use std::iter::FusedIterator;

/// A walk of some roots: an iterator of entries and errors.
///
/// Roots come in their order, a directory before what is in it. `Error::Memory` and
/// `Io(StepLimit)` are the last item where they come. After the last item there is none, however
/// often one is asked for.
#[derive(Drop)]
pub struct Walk<'a, F: Files, S> {
    ground: Ground<'a, F, S>,
    stack: Stack,
    left: u64,
    ended: bool,
}

/// The error of a walk that may take no more steps.
fn step_limit() -> Error
    ensures { problem_of result ≡ io StepLimit }
{
    Error::Io(Fault::StepLimit)
}

impl<'a, F: Files, S: Callbacks> Walk<'a, F, S> {
    ghost use Rattle.ignore_walk.specs.Nexts.{Remaining, Nexts, Shows, Starts, IsOver, IsLast, EndsOrGoesOn, items_at_most};

    /// A walk of these roots, by what stays the same in it. It allocates nothing.
    /// For dependents.
    pub fn new(ground: Ground<'a, F, S>, roots: Vec<Name>) -> Walk<'a, F, S>
        ensures whole { (g : Scene) (items : List Yielded) (n : ℕ)
            → IsGroundOf F.Files S.Callbacks ground.entry g → Whole g roots.items items n
            → Remaining F.Files S.Callbacks g result items n }
        ensures starts { (g : Scene) → IsGroundOf F.Files S.Callbacks ground.entry g → Starts F.Files S.Callbacks g result roots.items }
        ensures ground { result.ground ≡ ground.entry }
        ensures limit { result.left ≡ ground.entry.options.limit }
        ensures goes_on { result.ended ≡ false }
        ensures begins { work_of result.stack ≡ work_at roots.items }
        ensures files { result.ground ≡ ground.entry }
        ensures no_end { HasNoEnd result.stack }
        ensures below { KeepsBelow roots.items result.stack }
    {
        let (alloc, left) = (ground.alloc, ground.options.limit);
        let stack = Stack {
            roots: VecDeque::from_vec(roots),
            seen: Vec::new(alloc),
            levels: Levels::new(alloc),
            above: None,
            device: None,
            frames: Vec::new(alloc),
            made: VecDeque::from_vec(Vec::new(alloc)),
            text: String::new(alloc),
        };
        Walk {
            ground,
            stack,
            left,
            ended: false,
        }
    }

    /// Ends the walk by an error.
    fn end(&mut self, error: Error) -> Option<Item>
        ensures item { option_map item_of result ≡ Some (Err (problem_of error)) }
        ensures ground { self.new.ground ≡ self.old.ground }
        ensures left { self.new.left ≡ self.old.left }
        ensures over { IsOver self.new }
        ensures below { (roots : List (List ℕ)) → KeepsBelow roots self.new.stack }
    {
        self.stack.clear();
        self.ended = true;
        Some(Err(error))
    }

    /// Whether no step is left, or the walk was ended.
    fn is_done(&self) -> bool
        ensures goes_on { result ≡ false → self.now.ended ≡ false }
        ensures ended { self.now.ended ≡ true → result ≡ true }
        ensures work { result ≡ false → HasWork (work_of self.now.stack) }
        ensures more { result ≡ false → (g : Scene) (items : List Yielded) (n : ℕ) → Stands g self.now.stack items n → 0 < n }
        ensures none { result ≡ true → self.now.ended ≡ false → (g : Scene) (items : List Yielded) (n : ℕ)
            → self.now.stack.made.items ≡ [] → Stands g self.now.stack items n → (items ≡ []) × (n ≡ 0) }
        ensures nothing { result ≡ true → self.now.ended ≡ false → self.now.stack.made.items ≡ []
            → (g : Scene) (root : List ℕ) (place : Branch) (seen : List (List ℕ)) → Remains g (state_of self.now.stack root place seen) [] 0 }
    {
        self.ended || self.stack.is_done()
    }

    /// The next item.
    fn advance(&mut self) -> Option<Item>
        ensures fewer { IfSome result (λ _. items_at_most self.new < items_at_most self.old) }
        ensures given { (g : Scene) (items : List Yielded) (n : ℕ) → Remaining F.Files S.Callbacks g self.old items n
            → Nexts F.Files S.Callbacks g self.old (option_map item_of result) self.new items n }
        ensures shows { (g : Scene) (root : List ℕ) (place : Branch) (seen : List (List ℕ))
            → IsGroundOf F.Files S.Callbacks self.old.ground g → self.old.ended ≡ false → IsIn g root place seen self.old.stack
            → Shows g (state_of self.old.stack root place seen) self.old.left (option_map item_of result) self.new }
        ensures over { IsOver self.old → result ≡ None }
        ensures none { result ≡ None → IsOver self.new }
        ensures last { self.old.ended ≡ false → self.new.ended ≡ true
            → IsOver self.new × IsLast (option_map item_of result) self.new.left }
        ensures paced { Paces F.Files self.old (option_map item_of result) self.new }
        ensures ends { HasNoEnd self.old.stack → HasNoEnd self.new.stack × EndsOrGoesOn (option_map item_of result) self.new }
        ensures below { (roots : List (List ℕ)) → KeepsBelow roots self.old.stack
            → KeepsBelow roots self.new.stack × AnswersBelow roots (option_map item_of result) }
    {
        if let Some(item) = self.stack.take_made() {
            return Some(item);
        }
        while !self.is_done() {
            if self.left == 0 {
                return self.end(step_limit());
            }
            self.left -= 1;
            match self.stack.advance(&self.ground) {
                Ok(()) => {}
                Err(_) => return self.end(Error::Memory),
            }
            if let Some(item) = self.stack.take_made() {
                return Some(item);
            }
        }
        self.ended = true;
        None
    }
}

impl<'a, F: Files, S: Callbacks> Iterator for Walk<'a, F, S> {
    type Item = Item;

    ghost use Rattle.std.specs.Prelude.{option_map};
    ghost use Rattle.std.specs.Iterator.{at_most};
    ghost use Rattle.ignore_walk.specs.Entry.{item_of};
    ghost use Rattle.ignore_walk.specs.Nexts.{NextGives, items_at_most};

    ghost next_gives = { λ a answer b. NextGives F.Files S.Callbacks a (option_map item_of answer) b };

    ghost remaining = { λ a. at_most (items_at_most a) };

    fn next(&mut self) -> Option<Item> {
        self.advance()
    }
}

impl<'a, F: Files, S: Callbacks> FusedIterator for Walk<'a, F, S> {}

/// The error of an item that ended a walk.
fn error_of(item: Item) -> Error
    ensures { (p : Problem) → item_of item ≡ Err p → problem_of result ≡ p }
{
    match item {
        Ok(_) => Error::Memory,
        Err(error) => error,
    }
}

impl<'a, F: Files, S: Callbacks> Walk<'a, F, S> {
    ghost use Rattle.std.specs.Prelude.{IsOkAnd};
    ghost use Rattle.ignore_walk.specs.Nexts.{Remaining, Starts, IsOver};

    /// All items that the walk still gives, in their order.
    /// For dependents.
    ///
    /// # Errors
    /// `Error::Memory`; and `Io(StepLimit)` where the walk takes more steps than its limit, and
    /// only there.
    pub fn all_items(mut self) -> Result<Vec<Item>, Error>
        ensures complete { (g : Scene) (items : List Yielded) (n : ℕ) → Remaining F.Files S.Callbacks g self.entry items n
            → IfOk result (λ all. map item_of all.items ≡ items) }
        ensures within { (g : Scene) (items : List Yielded) (n : ℕ) → Remaining F.Files S.Callbacks g self.entry items n
            → IfOk result (λ _. n ≤ self.entry.left) }
        ensures exists { (g : Scene) (roots : List (List ℕ)) → Starts F.Files S.Callbacks g self.entry roots
            → IfOk result (λ all. (n : ℕ) × (n ≤ self.entry.left) × Whole g roots (map item_of all.items) n) }
        ensures ended { (g : Scene) (items : List Yielded) (n : ℕ) → Remaining F.Files S.Callbacks g self.entry items n
            → IfErr result (λ e. (problem_of e ≡ memory) ⊎ ((problem_of e ≡ io StepLimit) × (self.entry.left < n))) }
        ensures errors { self.entry.ended ≡ false → IfErr result (λ e. (problem_of e ≡ memory) ⊎ (problem_of e ≡ io StepLimit)) }
        ensures limited { self.entry.ended ≡ false → IfErr result (λ e. problem_of e ≡ io StepLimit
            → (w : Work) × TookSteps (F.list_gives self.entry.ground.files.now) self.entry.left (work_of self.entry.stack) w) }
        ensures no_end { HasNoEnd self.entry.stack → IfOk result (λ all. AllGoOn (map item_of all.items)) }
        ensures below { (roots : List (List ℕ)) → KeepsBelow roots self.entry.stack → IfOk result (λ all. All (StaysBelow roots) (map item_of all.items)) }
        ensures over { IsOver self.entry → IsOkAnd result (λ all. all.items ≡ []) }
    {
        let mut all = Vec::new(self.ground.alloc);
        while let Some(item) = self.advance() {
            if self.ended {
                return Err(error_of(item));
            }
            all.push(item)?;
        }
        Ok(all)
    }
}
