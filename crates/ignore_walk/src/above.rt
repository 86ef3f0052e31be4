//! The directories above roots, and what is wrong with those that are above no earlier root.
ghost use Rattle.std.specs.Prelude.{◌≡◌, ◌++◌, ◌∷◌, [], ⊤, ℕ, true, false, List, Ok, Option, IfOk, MatchOption, OnOk, codes, map};
ghost use Rattle.std.specs.Prelude.{option_map, string_bytes};
ghost use Rattle.std.specs.Option.{option_to_list};
ghost use Rattle.ignore_base.specs.Problem.{problem_of};
ghost use Rattle.ignore_dir.specs.Above.{canonical_names, path_along};
ghost use Rattle.ignore_dir.specs.Chains.{slashed};
ghost use Rattle.ignore_dir.specs.Lists.{Placed};
ghost use Rattle.ignore_dir.specs.Soft.{AllSoft};
ghost use Rattle.ignore_levels.specs.Levels.{IsChain, counting, slots_of};
ghost use Rattle.ignore_levels.specs.declared.list.Slot.{Slot};
ghost use Rattle.ignore_walk.specs.Scene.{Scene};
ghost use Rattle.ignore_walk.specs.Shared.{AreSeen, AreShared, HasCome, HasPassed, is_among, paths_of, placed_through};
ghost use Rattle.ignore_walk.specs.Suits.{IsGroundOf};

use crate::callbacks::Callbacks;
use crate::ground::Ground;
use ignore_base::Error;
use ignore_base::internal::join;
use ignore_base::text::join_law;
use ignore_files::{Files, Name};
use ignore_levels::{Levels, Place};
use std::alloc::{AllocError, Global};

/// A directory above a root that was begun.
#[derive(Drop)]
pub struct Seen {
    /// Its canonical path.
    pub path: Name,
    /// What stands for it and the directories above it in the list of directories.
    pub place: Option<Place>,
}

/// What stands for a directory, if it is among these.
fn find(seen: &[Seen], path: &str) -> Option<Option<Place>>
    ensures found { MatchOption result (is_among path.now (paths_of seen.now) ≡ false) (λ place. is_among path.now (paths_of seen.now) ≡ true) }
    ensures place { (g : Scene) (slots : List Slot) → AreShared g slots seen.now
        → MatchOption result ⊤ (λ place. IsChain slots place (counting (placed_through g path.now))) }
{
    for other in seen {
        if path == other.path.as_str() {
            return Some(other.place);
        }
    }
    None
}

/// Appends an error, if there is one.
fn push_some(errors: &mut Vec<Error>, error: Option<Error>) -> Result<(), AllocError>
    ensures added { OnOk result (map problem_of errors.new.items
        ≡ map problem_of errors.old.items ++ option_to_list (option_map problem_of error)) }
{
    match error {
        None => Ok(()),
        Some(error) => {
            errors.push(error)?;
            Ok(())
        }
    }
}

/// A way from `/` down to a root, as far as it has come.
#[derive(Drop)]
pub struct Way {
    /// The directory that it has come to.
    pub path: String,
    /// `/`, and the names that led there, each with a slash.
    pub text: String,
    /// What stands for the directories that it has passed.
    pub place: Option<Place>,
    /// Those of them that are above no earlier root.
    pub added: Vec<Seen>,
    /// What is wrong with these.
    pub errors: Vec<Error>,
}

impl Way {
    /// A way that has come to `/`.
    fn new(alloc: Global) -> Result<Way, AllocError>
        ensures begins { (g : Scene) (slots : List Slot) (kept : List Seen) (seen : List (List ℕ)) → AreSeen kept seen
            → IfOk result (λ w. HasCome g slots kept seen [] w) }
        ensures soft { IfOk result (λ w. AllSoft (map problem_of w.errors.items)) }
    {
        Ok(Way {
            path: String::from_str(alloc, "/")?,
            text: String::from_str(alloc, "/")?,
            place: None,
            added: Vec::new(alloc),
            errors: Vec::new(alloc),
        })
    }

    /// Passes the directory that it has come to. One that is above an earlier root stands in the list
    /// of directories already; any other is loaded and added.
    fn pass<F: Files, S: Callbacks>(
        &mut self,
        ground: &Ground<'_, F, S>,
        levels: &mut Levels,
        seen: &[Seen],
    ) -> Result<(), AllocError>
        ensures path { self.new.path ≡ self.old.path }
        ensures text { self.new.text ≡ self.old.text }
        ensures kept { (place : Option Place) (chain : List Placed) → IsChain (slots_of levels.old) place chain
            → IsChain (slots_of levels.new) place chain }
        ensures passed { (g : Scene) (paths : List (List ℕ)) (names : List (List ℕ)) (name : List ℕ)
            → IsGroundOf F.Files S.Callbacks ground.now g → canonical_names (Ok (path_along (codes "/") names)) ≡ names
            → AreSeen seen.now paths → AreShared g (slots_of levels.old) seen.now
            → HasCome g (slots_of levels.old) seen.now paths names self.old
            → OnOk result (HasPassed g (slots_of levels.new) seen.now paths (names ++ name ∷ []) self.new) }
        ensures soft { AllSoft (map problem_of self.old.errors.items) → OnOk result (AllSoft (map problem_of self.new.errors.items)) }
    {
        if let Some(place) = find(seen, self.path.as_str()) {
            self.place = place;
            return Ok(());
        }
        let (dir, error) = ground.above(self.path.as_str())?;
        self.place = levels.add(dir, self.place, self.text.as_str().len())?;
        push_some(&mut self.errors, error)?;
        let path = Name::new(String::from_str(ground.alloc, self.path.as_str())?);
        let place = self.place;
        self.added.push(Seen { path, place })?;
        Ok(())
    }

    /// Goes on by a name.
    fn go(&mut self, alloc: Global, name: &str) -> Result<(), AllocError>
        ensures gone { (g : Scene) (slots : List Slot) (kept : List Seen) (seen : List (List ℕ)) (names : List (List ℕ))
            → string_bytes self.old.path ≡ path_along (codes "/") names → string_bytes self.old.text ≡ 47 ∷ slashed names
            → HasPassed g slots kept seen (names ++ name.now ∷ []) self.old
            → OnOk result (HasCome g slots kept seen (names ++ name.now ∷ []) self.new) }
        ensures errors { self.new.errors ≡ self.old.errors }
    {
        self.path = join(alloc, self.path.as_str(), name)?;
        self.text.push_str(name)?;
        self.text.push('/')?;
        Ok(())
    }
}

/// The way from `/` along the names of a canonical path, past the directories above what they lead
/// to, which are in the list of directories from then on. `seen` are those above earlier roots.
pub(crate) fn way_along<F: Files, S: Callbacks>(
    ground: &Ground<'_, F, S>,
    levels: &mut Levels,
    seen: &[Seen],
    names: &[&str],
) -> Result<Way, AllocError>
    ensures kept { (place : Option Place) (chain : List Placed) → IsChain (slots_of levels.old) place chain
        → IsChain (slots_of levels.new) place chain }
    ensures come { (g : Scene) (paths : List (List ℕ)) (path : List ℕ) → map (λ n. n.now) names.now ≡ canonical_names (Ok path)
        → IsGroundOf F.Files S.Callbacks ground.now g → AreSeen seen.now paths → AreShared g (slots_of levels.old) seen.now
        → IfOk result (λ w. HasCome g (slots_of levels.new) seen.now paths (map (λ n. n.now) names.now) w) }
    ensures soft { IfOk result (λ w. AllSoft (map problem_of w.errors.items)) }
{
    join_law();
    let mut way = Way::new(ground.alloc)?;
    for name in names {
        way.pass(ground, levels, seen)?;
        way.go(ground.alloc, *name)?;
    }
    Ok(way)
}

/// Appends directories to those that were seen.
pub(crate) fn see(seen: &mut Vec<Seen>, mut new: Vec<Seen>) -> Result<(), AllocError>
    ensures { OnOk result (seen.new.items ≡ seen.old.items ++ new.items) }
{
    seen.append(&mut new)
}
