//! What a walk has yielded when it answers none, before, and after, as calls that do nothing: each
//! contract is the law.
ghost use Rattle.std.specs.Prelude.{◌≡◌, ◌≤◌, ℕ, All, List, Option, None, Some, Result, map, option_map};
ghost use Rattle.std.specs.Iterator.{Drains, YieldsThen};
ghost use Rattle.ignore_base.specs.Text.{Path};
ghost use Rattle.ignore_base.specs.declared.error.Error.{Error};
ghost use Rattle.ignore_walk.specs.Below.{IsAtOrBelow, KeepsBelow, StaysBelow};
ghost use Rattle.ignore_walk.specs.Entry.{Item, item_of};
ghost use Rattle.ignore_walk.specs.Finished.{IsFinished};
ghost use Rattle.ignore_walk.specs.GoesOn.{HasNoEnd};
ghost use Rattle.ignore_walk.specs.Nexts.{NextGives, Remaining, Starts};
ghost use Rattle.ignore_walk.specs.Paces.{TookSteps, Work, work_at};
ghost use Rattle.ignore_walk.specs.Runs.{EndsLast, IsBegun, IsRun};
ghost use Rattle.ignore_walk.specs.Scene.{Scene};
ghost use Rattle.ignore_walk.specs.Whole.{Whole};
ghost use Rattle.ignore_walk.specs.declared.entry.DirEntry.{DirEntry};
ghost use Rattle.ignore_walk.specs.declared.walk.Walk.{Walk};

use crate::callbacks::Callbacks;
use ignore_files::Files;

/// A walk that is asked until it answers none has yielded all that remained of it; or a beginning
/// of that, and then, as its last item, out of memory or the limit of steps.
pub fn a_run_yields_the_list<F: Files, S: Callbacks>()
    ensures { (g : Scene) (w : Walk F S) (all : List (Result DirEntry Error)) (items : List Item) (n : ℕ)
        → Drains (λ a answer b. NextGives F.Files S.Callbacks a (option_map item_of answer) b) w all
        → Remaining F.Files S.Callbacks g w items n → IsRun (map item_of all) items w.left n }
{}

/// A walk that has yielded some items and then one more, and isn't asked to its end, as by a loop
/// that stops there: those are a beginning of what remained of it, and the one more is the next of
/// that, or it is out of memory or the limit of steps, and ended the walk.
pub fn a_run_begins_the_list<F: Files, S: Callbacks>()
    ensures { (g : Scene) (w v : Walk F S) (all : List (Result DirEntry Error)) (x : Result DirEntry Error) (items : List Item) (n : ℕ)
        → YieldsThen (λ a answer b. NextGives F.Files S.Callbacks a (option_map item_of answer) b) w all (Some x) v
        → Remaining F.Files S.Callbacks g w items n → IsBegun (map item_of all) (item_of x) items w.left n }
{}

/// A walk that is asked until it answers none, and that no item ended, shows that there is a list: in
/// each scene that it suits, where what remains of it is what some roots give (as for a new walk, by
/// `Walk::new`), these roots give just the items that it has yielded, and in no more steps than it
/// might take. Nothing is asked of the tree: neither that it ends nor that its directories can be
/// numbered.
pub fn a_finished_run_is_a_list<F: Files, S: Callbacks>()
    ensures { (g : Scene) (roots : List Path) (w : Walk F S) (all : List (Result DirEntry Error))
        → Drains (λ a answer b. NextGives F.Files S.Callbacks a (option_map item_of answer) b) w all
        → Starts F.Files S.Callbacks g w roots → IsFinished (map item_of all)
        → (n : ℕ) × (n ≤ w.left) × Whole g roots (map item_of all) n }
{}

/// After a walk has answered none it answers none, whatever the files answer: the next time, and so
/// each time after that.
pub fn none_is_the_end<F: Files, S: Callbacks>()
    ensures { (a b c : Walk F S) (answer : Option (Result DirEntry Error))
        → NextGives F.Files S.Callbacks a None b → NextGives F.Files S.Callbacks b (option_map item_of answer) c → answer ≡ None }
{}

/// A walk that is asked until it answers none has yielded out of memory, or the limit of steps
/// alone, at most as its last item, and out of memory nowhere inside an error, whatever the files
/// answer. So it is with each walk that has no such item in hand, as a new one.
pub fn only_the_last_item_ends<F: Files, S: Callbacks>()
    ensures { (w : Walk F S) (all : List (Result DirEntry Error))
        → Drains (λ a answer b. NextGives F.Files S.Callbacks a (option_map item_of answer) b) w all
        → HasNoEnd w.stack → EndsLast (map item_of all) }
{}

/// Whatever the files answer, each entry that a walk yields is at one of its roots or below one, or is
/// standard input where `-` is one of them: of a walk that is asked until it answers none (`whole`),
/// and of one that isn't (`begun`); and so is each directory that it is in (`enters`). So it is with
/// each walk that has all in hand at or below its roots, as a new one.
pub fn a_run_stays_below_its_roots<F: Files, S: Callbacks>()
    ensures whole { (roots : List Path) (w : Walk F S) (all : List (Result DirEntry Error))
        → Drains (λ a answer b. NextGives F.Files S.Callbacks a (option_map item_of answer) b) w all
        → KeepsBelow roots w.stack → All (StaysBelow roots) (map item_of all) }
    ensures begun { (roots : List Path) (w v : Walk F S) (all : List (Result DirEntry Error)) (x : Result DirEntry Error)
        → YieldsThen (λ a answer b. NextGives F.Files S.Callbacks a (option_map item_of answer) b) w all (Some x) v
        → KeepsBelow roots w.stack → All (StaysBelow roots) (map item_of all) × StaysBelow roots (item_of x) }
    ensures enters { (roots : List Path) (w : Walk F S) → KeepsBelow roots w.stack
        → All (λ f. (depth : ℕ) × IsAtOrBelow roots f.path depth) w.stack.frames.items }
{}

/// Whatever the files list, each directory that a walk of some roots is in, after any number of
/// steps, is one of the roots or below one.
pub fn steps_stay_below_their_roots<F: Files>()
    ensures { (files : F) (k : ℕ) (roots : List Path) (w : Work) → TookSteps (F.list_gives files) k (work_at roots) w
        → All (λ f. (depth : ℕ) × IsAtOrBelow roots f.path depth) w.frames }
{}
