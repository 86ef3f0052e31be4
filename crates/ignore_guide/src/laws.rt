//! Laws of guides, as calls that do nothing: each contract is the law.
ghost use Rattle.std.specs.Prelude.{◌≡◌, ◌++◌, ◌∷◌, [], ◌+◌, ℕ, Bool, List, Option, true, false, length};
ghost use Rattle.std.specs.List.{list_any};
ghost use Rattle.ignore_dir.specs.Query.{ancestors, has_rules, is_asked, is_ignored, names_of, query, size_of};
ghost use Rattle.ignore_dir.specs.Load.{AreLoads, Loaded};
ghost use Rattle.ignore_dir.specs.Scene.{QueryScene, scene};
ghost use Rattle.ignore_dir.specs.Steps.{entered, entry, reached_in};
ghost use Rattle.ignore_dir.specs.declared.outside.Outside.{Outside};
ghost use Rattle.ignore_dir.specs.declared.settings.Settings.{Settings};
ghost use Rattle.ignore_files.specs.Gives.{IsHonest};
ghost use Rattle.ignore_files.specs.Tree.{Tree};
ghost use Rattle.ignore_guide.specs.Told.{AreOf, without_sizes};
ghost use Rattle.ignore_dir.specs.Steps.{Reached};
ghost use Rattle.ignore_guide.specs.Guide.{StandsFor, decided, len_of};
ghost use Rattle.ignore_guide.specs.Reasons.{decided_why};
ghost use Rattle.ignore_guide.specs.declared.guide.Guide.{Guide};
ghost use Rattle.ignore_guide.specs.declared.places.Place.{Place};
ghost use Rattle.ignore_why.specs.QueryWhy.{answer_of, query_why};

use crate::told::Told;
use ignore_dir::laws::steps_are_whole;
use ignore_files::Files;

/// The place of a directory that was entered in one on the way along some names is that of the next
/// on this way: a tree has one chain for each.
pub fn each_place_is_on_its_way()
    ensures { (guide : Guide) (place : Place) (depth : ℕ) (g : QueryScene) (front : List (List ℕ)) (n : List ℕ)
        → StandsFor guide place depth (entered g.loads (entry (reached_in g front) n))
        → StandsFor guide place depth (reached_in g (front ++ n ∷ [])) }
{
    steps_are_whole();
}

/// What becomes of an entry, in the place of a directory on the way along some names in a tree, is
/// what a matcher over this tree answers for its path, whether it was asked before or not: where the
/// path is clean and the root another directory than `-`, no directory on the way is ignored, and
/// the size is that in the tree. A matcher agrees with walks, and so does a guide.
pub fn a_guide_decides_as_a_matcher()
    ensures { (g : QueryScene) (path : List ℕ) (front : List (List ℕ)) (n : List ℕ) (is_dir : Bool) (size : Option ℕ)
        → is_asked g.root path ≡ true → has_rules g.tree g.root path ≡ true → names_of path ≡ front ++ n ∷ []
        → list_any (is_ignored g) (ancestors (names_of path)) ≡ false → size ≡ len_of (size_of g path)
        → decided g.settings g.outside (length front + 1) (reached_in g front) n is_dir size ≡ (query g path is_dir).0 }
{
    steps_are_whole();
}

/// What becomes of an entry is what goes with its reason.
pub fn a_guide_answers_by_its_reason()
    ensures { (s : Settings) (o : Outside) (depth : ℕ) (at : Reached) (name : List ℕ) (is_dir : Bool) (size : Option ℕ)
        → decided s o depth at name is_dir size ≡ answer_of s depth is_dir (decided_why s o depth at name is_dir size) }
{}

/// The reason is that of a matcher over the tree for the path, where what becomes of the entry is what
/// the matcher answers (`a_guide_decides_as_a_matcher`).
pub fn a_guide_explains_as_a_matcher()
    ensures { (g : QueryScene) (path : List ℕ) (front : List (List ℕ)) (n : List ℕ) (is_dir : Bool) (size : Option ℕ)
        → is_asked g.root path ≡ true → has_rules g.tree g.root path ≡ true → names_of path ≡ front ++ n ∷ []
        → list_any (is_ignored g) (ancestors (names_of path)) ≡ false → size ≡ len_of (size_of g path)
        → decided_why g.settings g.outside (length front + 1) (reached_in g front) n is_dir size ≡ query_why g path is_dir }
{}

/// What a host told of a tree. Its answers are consistent with the tree without sizes (`honest`),
/// whose directories have the same loads (`loads`), and in which each way leads to the same (`way`).
/// So the places of a guide, where a host told what a tree has, stand for what is reached in it.
pub fn what_was_told_is_the_tree(told: &Told)
    ensures honest { (tree : Tree) → AreOf tree told.now → IsHonest ⟦<Told as Files>⟧ told.now (without_sizes tree) }
    ensures loads { (tree : Tree) (s : Settings) (loads : List ℕ → Loaded) → AreLoads tree s loads → AreLoads (without_sizes tree) s loads }
    ensures way { (tree : Tree) (loads : List ℕ → Loaded) (s : Settings) (o : Outside) (root : List ℕ) (front : List (List ℕ))
        → reached_in (scene (without_sizes tree) loads s o root) front ≡ reached_in (scene tree loads s o root) front }
{
    let _ = told;
}
