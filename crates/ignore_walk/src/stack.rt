//! What a walk has in hand: directories whose listings are half read, roots, and items.
ghost use Rattle.std.specs.Prelude.{◌≡◌, ◌+◌, ◌≤◌, ◌<◌, ◌++◌, ◌∷◌, [], ℕ, suc, ⊤, Contains, List, true, false, None, Ok, Err, IfOk, OnOk};
ghost use Rattle.std.specs.Prelude.{MatchOption, length, map, reverse, option_map, string_bytes};
ghost use Rattle.std.specs.Option.{option_to_list};
ghost use Rattle.ignore_base.specs.Problem.{problem_of};
ghost use Rattle.ignore_dir.specs.Query.{is_dir_there};
ghost use Rattle.ignore_dir.specs.Soft.{IsSoft, holds_memory};
ghost use Rattle.ignore_levels.specs.Levels.{IsChain, counting, slots_of};
ghost use Rattle.ignore_walk.specs.Below.{AnswersBelow, IsAtOrBelow, KeepsBelow, MadeBelow};
ghost use Rattle.ignore_walk.specs.Branch.{Branch, path_of, text_at, placed_above};
ghost use Rattle.ignore_walk.specs.Entry.{Item as Yielded, entry_of, item_of};
ghost use Rattle.ignore_walk.specs.Found.{IsFoundAt};
ghost use Rattle.ignore_walk.specs.Frames.{AreFrames};
ghost use Rattle.ignore_walk.specs.GoesOn.{GoesOn, HasNoEnd, is_fatal, is_limit, is_step_limit};
ghost use Rattle.ignore_walk.specs.Left.{Remains, IsNext};
ghost use Rattle.ignore_walk.specs.Moves.{Gives, Moves, with_first};
ghost use Rattle.ignore_walk.specs.OnList.{place_around};
ghost use Rattle.ignore_walk.specs.Opens.{Opens};
ghost use Rattle.ignore_walk.specs.Paces.{Enters, HasWork, IsStep, Leaves, MayEnter, TakesOne, work_of};
ghost use Rattle.ignore_walk.specs.Scene.{Scene};
ghost use Rattle.ignore_walk.specs.Stands.{state_of, before_root, name_in, text_below, Becomes, IsAround, IsAt, IsIn, IsKept, Stands, Takes, Visits, Hands};
ghost use Rattle.ignore_walk.specs.Suits.{IsGroundOf};
ghost use Rattle.ignore_walk.specs.Walked.{enter, fate};
ghost use Rattle.ignore_walk.specs.Whole.{root_entry, above_root, reported_before};

use crate::above::{Seen, see, way_along};
use crate::callbacks::Callbacks;
use crate::child::{fault_at, is_dir_kind};
use crate::entry::{DirEntry, Item};
use crate::found::Found;
use crate::frame::{Frame, frame_of, take_next};
use crate::ground::{Fate, Ground};
use crate::made::{make, make_error, make_fault};
use crate::open::Opened;
use crate::root::is_dir_found;
use ignore_base::{Error, Fault};
use ignore_dir::Settings;
use ignore_dir::above::canonical_names;
use ignore_files::{Files, Listed, Name};
use ignore_levels::{Levels, Place};
use std::alloc::{AllocError, Global};
use std::collections::VecDeque;

/// What changes in a walk.
#[derive(Drop)]
pub struct Stack {
    /// The roots that weren't begun.
    pub roots: VecDeque<Name>,
    /// The directories that are above roots that were begun.
    pub seen: Vec<Seen>,
    /// The directories that count of those, and of the ones that were entered.
    pub levels: Levels,
    /// What stands there for those above the root that was begun last.
    pub above: Option<Place>,
    /// The device of that root, where it matters and is known.
    pub device: Option<u64>,
    /// The directories that were entered.
    pub frames: Vec<Frame>,
    /// The items that are to be handed out.
    pub made: VecDeque<Item>,
    /// The path of what was taken last from a listing, as the directories around it see it. Its
    /// memory serves all entries.
    pub text: String,
}

impl Stack {
    /// What an entry gives that was found and isn't skipped: itself, and where it leads into a
    /// directory, what is in it. `text` is its path as the directories around it see it, with a
    /// final slash.
    fn visit<F: Files, S: Callbacks>(
        &mut self,
        ground: &Ground<'_, F, S>,
        found: Found,
        leads_in: bool,
        text: Name,
    ) -> Result<(), AllocError>
        ensures visited { (g : Scene) (root : List ℕ) (place b : Branch) (seen : List (List ℕ))
            → IsGroundOf F.Files S.Callbacks ground.now g
            → IsIn g root place seen self.old → Visits g root b self.old found leads_in text
            → IsNext b place (state_of self.old root place seen).rests
            → OnOk result (Becomes g self.new (Gives g (state_of self.old root place seen) b (Ok (entry_of found.entry)))) }
        ensures roots { self.new.roots ≡ self.old.roots }
        ensures enters { OnOk result (MayEnter (F.list_gives ground.now.files.now) (entry_of found.entry).path self.old.frames.items self.new.frames.items) }
        ensures below { (roots : List (List ℕ)) → IsAtOrBelow roots (entry_of found.entry).path (entry_of found.entry).depth
            → MadeBelow roots self.old → OnOk result (MadeBelow roots self.new) }
        ensures made { length self.new.made.items ≤ length self.old.made.items + 2 }
        ensures no_end { HasNoEnd self.old → OnOk result (HasNoEnd self.new) }
    {
        let settings = &ground.settings;
        let fate = ground.fate(self.device, &found, leads_in);
        let entry = found.entry;
        match fate {
            Fate::Yield => make(&mut self.made, settings, entry, None),
            Fate::Load => {
                let error = ground.load_error(entry.path())?;
                make(&mut self.made, settings, entry, error)
            }
            Fate::Enter => {
                let opened = ground.opened(entry.path(), text)?;
                self.settle(ground.alloc, settings, entry, opened)
            }
        }
    }

    /// What a directory gives at once that was entered.
    fn settle(
        &mut self,
        alloc: Global,
        settings: &Settings,
        entry: DirEntry,
        opened: Opened,
    ) -> Result<(), AllocError>
        ensures entered { (g : Scene) (root : List ℕ) (place b : Branch) (seen : List (List ℕ))
            → g.settings ≡ settings.now → IsIn g root place seen self.old → IsAt g root self.old → IsAround g root b self.old
            → (entry_of entry).path ≡ path_of root b → Opens g (path_of root b) (text_at g root b) opened
            → fate g root b (entry_of entry) ≡ enter → IsNext b place (state_of self.old root place seen).rests
            → OnOk result (Becomes g self.new (Gives g (state_of self.old root place seen) b (Ok (entry_of entry)))) }
        ensures roots { self.new.roots ≡ self.old.roots }
        ensures enters { OnOk result (Enters opened.directory self.old.frames.items self.new.frames.items) }
        ensures below { (roots : List (List ℕ)) → IsAtOrBelow roots (entry_of entry).path (entry_of entry).depth
            → MadeBelow roots self.old → OnOk result (MadeBelow roots self.new) }
        ensures made { length self.new.made.items ≤ length self.old.made.items + 2 }
        ensures no_end { IsSoft (option_map problem_of opened.error) → HasNoEnd self.old → OnOk result (HasNoEnd self.new) }
    {
        let depth = entry.depth();
        make(&mut self.made, settings, entry, opened.error)?;
        let directory = opened.directory;
        let path = directory.path.as_str();
        make_fault(alloc, &mut self.made, path, depth, opened.fault)?;
        let around = place_around(self.above, self.frames.as_slice());
        let entered = frame_of(&mut self.levels, around, directory)?;
        self.frames.push(entered)?;
        Ok(())
    }

    /// A step below a root: takes one listed thing, or leaves one directory.
    fn step<F: Files, S: Callbacks>(&mut self, ground: &Ground<'_, F, S>) -> Result<(), AllocError>
        ensures stepped { (g : Scene) (root : List ℕ) (place : Branch) (seen : List (List ℕ))
            → IsGroundOf F.Files S.Callbacks ground.now g
            → 0 < length self.old.frames.items → IsIn g root place seen self.old
            → OnOk result (Becomes g self.new (Moves g (state_of self.old root place seen))) }
        ensures paced { 0 < length self.old.frames.items → OnOk result (IsStep (F.list_gives ground.now.files.now) (work_of self.old) (work_of self.new)) }
        ensures below { (roots : List (List ℕ)) → 0 < length self.old.frames.items → KeepsBelow roots self.old → OnOk result (MadeBelow roots self.new) }
        ensures made { length self.new.made.items ≤ length self.old.made.items + 2 }
        ensures no_end { HasNoEnd self.old → OnOk result (HasNoEnd self.new) }
    {
        match self.take_listed() {
            None => Ok(()),
            Some(listed) => {
                set_text(&mut self.text, self.frames.as_slice(), &listed)?;
                match ground.child(self.frames.as_slice(), listed)? {
                    Err(error) => make_error(&mut self.made, error),
                    Ok(found) => self.take(ground, found),
                }
            }
        }
    }

    /// What is listed next in the directory that was entered last; where nothing is, it is left.
    fn take_listed(&mut self) -> Option<Listed>
        ensures made { self.new.made ≡ self.old.made }
        ensures next { 0 < length self.old.frames.items → MatchOption result (Leaves (work_of self.old) (work_of self.new))
            (λ x. TakesOne (work_of self.old) x (work_of self.new)) }
        ensures taken { (g : Scene) (root : List ℕ) (place : Branch) (seen : List (List ℕ)) → 0 < length self.old.frames.items
            → IsIn g root place seen self.old
            → MatchOption result (Becomes g self.new (Moves g (state_of self.old root place seen)))
            (λ x. Takes g root place seen self.old x self.new) }
    {
        let Some(frame) = self.frames.last_mut() else {
            return None;
        };
        if let Some(listed) = take_next(&mut frame.rest) {
            return Some(listed);
        }
        self.levels.cut(frame.len);
        self.frames.pop();
        None
    }

    /// What an entry gives that was found below a root, where it was taken last.
    fn take<F: Files, S: Callbacks>(
        &mut self,
        ground: &Ground<'_, F, S>,
        found: Found,
    ) -> Result<(), AllocError>
        ensures taken { (g : Scene) (root : List ℕ) (place : Branch) (name : List ℕ) (seen : List (List ℕ))
            → IsGroundOf F.Files S.Callbacks ground.now g
            → IsIn g root place seen self.old → AreFrames g root place (reverse self.old.frames.items) → IsAt g root self.old
            → string_bytes self.old.text ≡ text_at g root place ++ name → IsFoundAt g root (name ∷ place) found
            → OnOk result (Becomes g self.new (Gives g (state_of self.old root place seen) (name ∷ place) (Ok (entry_of found.entry)))) }
        ensures roots { self.new.roots ≡ self.old.roots }
        ensures enters { OnOk result (MayEnter (F.list_gives ground.now.files.now) (entry_of found.entry).path self.old.frames.items self.new.frames.items) }
        ensures below { (roots : List (List ℕ)) → IsAtOrBelow roots (entry_of found.entry).path (entry_of found.entry).depth
            → MadeBelow roots self.old → OnOk result (MadeBelow roots self.new) }
        ensures made { length self.new.made.items ≤ length self.old.made.items + 2 }
        ensures no_end { HasNoEnd self.old → OnOk result (HasNoEnd self.new) }
    {
        let around = place_around(self.above, self.frames.as_slice());
        if ground.is_skipped(&self.levels, around, self.text.as_str(), &found.entry)? {
            return Ok(());
        }
        let leads_in = is_dir_kind(found.entry.file_type());
        let text = text_inside(ground.alloc, leads_in, self.text.as_str())?;
        self.visit(ground, found, leads_in, text)
    }

    /// Begins a root.
    fn begin<F: Files, S: Callbacks>(
        &mut self,
        ground: &Ground<'_, F, S>,
        root: &str,
    ) -> Result<(), AllocError>
        ensures begun { (g : Scene) (last : List ℕ) (place : Branch) (seen : List (List ℕ))
            → IsGroundOf F.Files S.Callbacks ground.now g
            → self.old.frames.items ≡ [] → IsKept g seen self.old
            → OnOk result (Becomes g self.new (Moves g (before_root self.old last place seen root.now))) }
        ensures roots { self.new.roots ≡ self.old.roots }
        ensures enters { self.old.frames.items ≡ [] → OnOk result (MayEnter (F.list_gives ground.now.files.now) root.now [] self.new.frames.items) }
        ensures below { (roots : List (List ℕ)) → Contains roots root.now → MadeBelow roots self.old → OnOk result (MadeBelow roots self.new) }
        ensures made { length self.new.made.items ≤ length self.old.made.items + 3 }
        ensures no_end { HasNoEnd self.old → OnOk result (HasNoEnd self.new) }
    {
        if root == "-" {
            self.made.push_back(Ok(DirEntry::stdin(ground.alloc)?))?;
            return Ok(());
        }
        if is_dir_found(ground.alloc, ground.files, root)? {
            let base = self.look_above(ground, root)?;
            return self.begin_at(ground, root, true, base);
        }
        self.begin_at(ground, root, false, String::new(ground.alloc))
    }

    /// Begins a root that isn't standard input. `base` is its path as the directories above it see
    /// it.
    fn begin_at<F: Files, S: Callbacks>(
        &mut self,
        ground: &Ground<'_, F, S>,
        root: &str,
        is_dir: bool,
        base: String,
    ) -> Result<(), AllocError>
        ensures begun { (g : Scene) (seen : List (List ℕ))
            → IsGroundOf F.Files S.Callbacks ground.now g
            → self.old.frames.items ≡ [] → IsKept g seen self.old → is_dir ≡ is_dir_there (g.tree.stat root.now true)
            → (is_dir ≡ true → IsAround g root.now [] self.old)
            → (is_dir ≡ true → string_bytes base ≡ text_at g root.now [])
            → OnOk result (Becomes g self.new (Gives g (state_of self.old root.now [] seen) [] (root_entry g root.now))) }
        ensures roots { self.new.roots ≡ self.old.roots }
        ensures enters { OnOk result (MayEnter (F.list_gives ground.now.files.now) root.now self.old.frames.items self.new.frames.items) }
        ensures below { (roots : List (List ℕ)) → Contains roots root.now → MadeBelow roots self.old → OnOk result (MadeBelow roots self.new) }
        ensures made { length self.new.made.items ≤ length self.old.made.items + 2 }
        ensures no_end { HasNoEnd self.old → OnOk result (HasNoEnd self.new) }
    {
        match ground.root_entry(is_dir, root)? {
            Err(error) => make_error(&mut self.made, error),
            Ok(found) => {
                self.device = found.device;
                self.visit(ground, found, is_dir, Name::new(base))
            }
        }
    }

    /// Loads the directories above a root that is a directory, and makes the item of what is wrong
    /// with those that are above no earlier root. The result is the root as they see it.
    fn look_above<F: Files, S: Callbacks>(
        &mut self,
        ground: &Ground<'_, F, S>,
        root: &str,
    ) -> Result<String, AllocError>
        ensures frames { self.new.frames ≡ self.old.frames }
        ensures roots { self.new.roots ≡ self.old.roots }
        ensures reported { (g : Scene) (seen : List (List ℕ))
            → IsGroundOf F.Files S.Callbacks ground.now g
            → IsKept g seen self.old → is_dir_there (g.tree.stat root.now true) ≡ true
            → OnOk result (map item_of self.new.made.items ≡ map item_of self.old.made.items ++ reported_before g seen root.now) }
        ensures seen { (g : Scene) (seen : List (List ℕ))
            → IsGroundOf F.Files S.Callbacks ground.now g
            → IsKept g seen self.old → is_dir_there (g.tree.stat root.now true) ≡ true
            → OnOk result (IsKept g (seen ++ above_root g root.now) self.new) }
        ensures above { (g : Scene) (seen : List (List ℕ))
            → IsGroundOf F.Files S.Callbacks ground.now g → IsKept g seen self.old
            → OnOk result (IsChain (slots_of self.new.levels) self.new.above (counting (placed_above g root.now))) }
        ensures base { (g : Scene) (seen : List (List ℕ))
            → IsGroundOf F.Files S.Callbacks ground.now g → IsKept g seen self.old
            → IfOk result (λ base. string_bytes base ≡ text_at g root.now []) }
        ensures below { (roots : List (List ℕ)) → MadeBelow roots self.old → OnOk result (MadeBelow roots self.new) }
        ensures made { length self.new.made.items ≤ length self.old.made.items + 1 }
        ensures no_end { HasNoEnd self.old → OnOk result (HasNoEnd self.new) }
    {
        let path = ground.canonical(root)?;
        let names = canonical_names(ground.alloc, path.as_str())?;
        let seen = self.seen.as_slice();
        let way = way_along(ground, &mut self.levels, seen, names.as_slice())?;
        self.above = way.place;
        see(&mut self.seen, way.added)?;
        self.report(ground.alloc, Error::joined(way.errors))?;
        Ok(way.text)
    }

    /// Makes the item of an error above a root, if there is one.
    fn report(&mut self, alloc: Global, error: Option<Error>) -> Result<(), AllocError>
        ensures value { MatchOption (option_map problem_of error) ⊤ (λ p. is_limit p ≡ false) → OnOk result (map item_of self.new.made.items
            ≡ map item_of self.old.made.items ++ map Err (option_to_list (option_map problem_of error))) }
        ensures frames { self.new.frames ≡ self.old.frames }
        ensures roots { self.new.roots ≡ self.old.roots }
        ensures seen { self.new.seen ≡ self.old.seen }
        ensures above { self.new.above ≡ self.old.above }
        ensures levels { self.new.levels ≡ self.old.levels }
        ensures below { (roots : List (List ℕ)) → MadeBelow roots self.old → OnOk result (MadeBelow roots self.new) }
        ensures made { length self.new.made.items ≤ length self.old.made.items + 1 }
        ensures no_end { IsSoft (option_map problem_of error) → HasNoEnd self.old → OnOk result (HasNoEnd self.new) }
    {
        match error {
            None => Ok(()),
            Some(error) => make_error(&mut self.made, below_limit(alloc, error)?),
        }
    }

    /// One step.
    pub(crate) fn advance<F: Files, S: Callbacks>(
        &mut self,
        ground: &Ground<'_, F, S>,
    ) -> Result<(), AllocError>
        ensures advanced { (g : Scene) (root : List ℕ) (place : Branch) (seen : List (List ℕ))
            → IsGroundOf F.Files S.Callbacks ground.now g
            → HasWork (work_of self.old) → IsIn g root place seen self.old
            → OnOk result (Becomes g self.new (Moves g (state_of self.old root place seen))) }
        ensures paced { HasWork (work_of self.old) → OnOk result (IsStep (F.list_gives ground.now.files.now) (work_of self.old) (work_of self.new)) }
        ensures below { (roots : List (List ℕ)) → HasWork (work_of self.old) → KeepsBelow roots self.old → OnOk result (KeepsBelow roots self.new) }
        ensures made { length self.new.made.items ≤ length self.old.made.items + 3 }
        ensures no_end { HasNoEnd self.old → OnOk result (HasNoEnd self.new) }
    {
        if !is_outside(self.frames.as_slice()) {
            return self.step(ground);
        }
        match self.roots.pop_front() {
            None => Ok(()),
            Some(root) => self.begin(ground, root.as_str()),
        }
    }

    /// Whether no step is left.
    pub(crate) fn is_done(&self) -> bool
        ensures work { result ≡ false → HasWork (work_of self.now) }
        ensures more { result ≡ false → (g : Scene) (items : List Yielded) (n : ℕ) → Stands g self.now items n → 0 < n }
        ensures none { result ≡ true → (g : Scene) (items : List Yielded) (n : ℕ) → self.now.made.items ≡ [] → Stands g self.now items n
            → (items ≡ []) × (n ≡ 0) }
        ensures nothing { result ≡ true → self.now.made.items ≡ [] → (g : Scene) (root : List ℕ) (place : Branch) (seen : List (List ℕ))
            → Remains g (state_of self.now root place seen) [] 0 }
    {
        is_outside(self.frames.as_slice()) && are_begun(&self.roots)
    }

    /// The item that was made first.
    pub(crate) fn take_made(&mut self) -> Option<Item>
        ensures same { work_of self.new ≡ work_of self.old }
        ensures length { MatchOption result ((length self.old.made.items ≡ 0) × (self.new.made.items ≡ []))
            (λ _. length self.old.made.items ≡ suc (length self.new.made.items)) }
        ensures no_end { HasNoEnd self.old → HasNoEnd self.new × MatchOption result ⊤ (λ item. GoesOn (item_of item)) }
        ensures below { (roots : List (List ℕ)) → KeepsBelow roots self.old → KeepsBelow roots self.new × AnswersBelow roots (option_map item_of result) }
        ensures handed { (g : Scene) (items : List Yielded) (n : ℕ) → Stands g self.old items n
            → MatchOption result (Stands g self.new items n) (λ item. Hands g self.new (item_of item) items n) }
        ensures first { (g : Scene) (root : List ℕ) (place : Branch) (seen : List (List ℕ)) → IsIn g root place seen self.old
            → MatchOption result (Becomes g self.new (λ t. state_of self.old root place seen ≡ t))
            (λ item. Becomes g self.new (λ t. state_of self.old root place seen ≡ with_first (item_of item) t)) }
    {
        self.made.pop_front()
    }

    /// Drops all that is in hand.
    pub(crate) fn clear(&mut self)
        ensures made { length self.new.made.items ≡ 0 }
        ensures below { (roots : List (List ℕ)) → KeepsBelow roots self.new }
    {
        self.made.clear();
        self.frames.clear();
        self.roots.clear();
    }
}

/// What stands for the directories around the next one to be entered: the place of the last frame;
/// where there is none, of the directories above the root.
fn place_around(above: Option<Place>, frames: &[Frame]) -> Option<Place>
    ensures { result ≡ place_around above (reverse frames.now) }
{
    match frames.last() {
        None => above,
        Some(frame) => frame.place,
    }
}

/// Whether no directory is entered.
fn is_outside(frames: &[Frame]) -> bool
    ensures yes { result ≡ true → frames.now ≡ [] }
    ensures no { result ≡ false → 0 < length frames.now }
{
    match frames.first() {
        None => true,
        Some(_) => false,
    }
}

/// Whether each root was begun.
fn are_begun(roots: &VecDeque<Name>) -> bool
    ensures yes { result ≡ true → roots.now.items ≡ [] }
    ensures no { result ≡ false → 0 < length roots.now.items }
{
    match roots.front() {
        None => true,
        Some(_) => false,
    }
}

/// Whether a fault is that of the limit of steps.
fn is_step_limit(fault: Fault) -> bool
    ensures { result ≡ is_step_limit fault }
{
    match fault {
        Fault::StepLimit => true,
        _ => false,
    }
}

/// Whether an error is the limit of steps alone.
fn is_limit(error: &Error) -> bool
    ensures { result ≡ is_limit (problem_of error.now) }
{
    match error {
        Error::Io(fault) => is_step_limit(*fault),
        _ => false,
    }
}

/// An error above a root, as it is reported. The limit of steps alone would be the end of the walk:
/// so that one stands at the depth of the root.
fn below_limit(alloc: Global, error: Error) -> Result<Error, AllocError>
    ensures same { is_limit (problem_of error) ≡ false → IfOk result (λ e. problem_of e ≡ problem_of error) }
    ensures no_end { holds_memory (problem_of error) ≡ false → IfOk result (λ e. is_fatal (problem_of e) ≡ false) }
{
    if is_limit(&error) {
        return fault_at(alloc, 0, Fault::StepLimit);
    }
    Ok(error)
}

/// Makes a text the path of a listed thing as the directories around it see it.
fn set_text(text: &mut String, frames: &[Frame], listed: &Listed) -> Result<(), AllocError>
    ensures { (g : Scene) (root : List ℕ) (place : Branch) → AreFrames g root place (reverse frames.now)
        → OnOk result (string_bytes text.new ≡ text_below g root place listed.now) }
{
    match frames.last() {
        None => Ok(()),
        Some(frame) => {
            text.clear();
            text.push_str(frame.text.as_str())?;
            push_name(text, listed)
        }
    }
}

/// The text around what is in an entry: its own with a slash; nothing, where it leads into no
/// directory.
fn text_inside(alloc: Global, leads_in: bool, text: &str) -> Result<Name, AllocError>
    ensures { leads_in ≡ true → IfOk result (λ inside. inside ≡ text.now ++ 47 ∷ []) }
{
    if !leads_in {
        return Ok(Name::new(String::new(alloc)));
    }
    let mut inside = String::with_capacity(alloc, text.len().saturating_add(1))?;
    inside.push_str(text)?;
    inside.push('/')?;
    Ok(Name::new(inside))
}

/// Appends the name of a listed thing; a fault has none.
fn push_name(text: &mut String, listed: &Listed) -> Result<(), AllocError>
    ensures { OnOk result (string_bytes text.new ≡ string_bytes text.old ++ name_in listed.now) }
{
    match listed {
        Listed::Fault(_) => Ok(()),
        Listed::Entry { name, .. } => text.push_str(name.as_str()),
    }
}
