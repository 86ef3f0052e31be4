//! Laws of the definitions, as calls that do nothing: each contract is the law.
ghost use Rattle.std.specs.Prelude.{◌≡◌, ◌↔◌, ◌<◌, ◌≤◌, List, ℕ, [], Ok, Result, bytes_eq, codes, false, length, map, true};
ghost use Rattle.std.specs.Iterator.{Drains};
ghost use Rattle.ignore_base.specs.declared.error.Error.{Error};
ghost use Rattle.ignore_dir.specs.Scene.{QueryScene};
ghost use Rattle.ignore_files.specs.Answers.{tree_of};
ghost use Rattle.ignore_files.specs.Dirs.{IsNumbered};
ghost use Rattle.ignore_survey.specs.Agreement.{IsKept, IsPlain};
ghost use Rattle.ignore_survey.specs.Finished.{IsFinished};
ghost use Rattle.ignore_survey.specs.Nexts.{NextGives, Starts};
ghost use Rattle.ignore_survey.specs.Survey.{IsSurvey, Item};
ghost use Rattle.ignore_survey.specs.Surveyed.{item_of};
ghost use Rattle.ignore_survey.specs.declared.survey.Survey.{Survey};
ghost use Rattle.ignore_survey.specs.declared.surveyed.Surveyed.{Surveyed};
ghost use Rattle.ignore_walk.specs.Entry.{Entry as Walked, Item as WalkItem};
ghost use Rattle.ignore_walk.specs.Scene.{Scene, queries};
ghost use Rattle.ignore_walk.specs.Visits.{IsYielded};
ghost use Rattle.ignore_walk.specs.Walked.{WalkedOne, leads_in};
ghost use Rattle.ignore_walk.specs.Whole.{root_entry};

use ignore_base::text::join_law;
use ignore_files::{Files, MemoryTree};
use ignore_walk::laws::{walk_agrees_with_queries, walk_yields_what_it_shows};

/// A survey of a root gives one list of items.
pub fn one_survey()
    ensures { (g : QueryScene) (xs ys : List Item) → IsSurvey g xs → IsSurvey g ys → ys ≡ xs }
{}

/// Where the directories of a tree can be numbered (`IsNumbered`), a survey of any root of it gives a
/// list of items, and by `one_survey` one alone. So it is with a tree in memory
/// (`some_survey_in_memory`).
pub fn some_survey()
    ensures { (g : QueryScene) (n : ℕ) → IsNumbered g.tree n → (items : List Item) × IsSurvey g items }
{
    join_law();
}

/// A survey of any root of a tree in memory gives a list of items, and by `one_survey` one alone.
pub fn some_survey_in_memory(tree: &MemoryTree)
    ensures { (g : QueryScene) → g.tree ≡ tree_of tree.now → (items : List Item) × IsSurvey g items }
{
    tree.is_numbered();
    some_survey();
}

/// A survey that is asked until it answers none, and that no item ended, shows that there is a list:
/// in each scene that it suits, where what remains of it is what a survey of the scene's root yields
/// (as for a new survey, by `Survey::new`), that is just the items that it has yielded, and no more
/// than it might yield; by `one_survey` there is no other list. Nothing is asked of the tree: neither
/// that it ends nor that its directories can be numbered.
pub fn a_finished_survey_is_the_list<F: Files>()
    ensures { (g : QueryScene) (s : Survey F) (all : List (Result Surveyed Error))
        → Drains (λ a answer b. NextGives F.Files a answer b) s all → Starts F.Files g s → IsFinished (map item_of all)
        → IsSurvey g (map item_of all) × (length all ≤ s.left) }
{}

/// No item of a list is out of memory, or the limit alone: an error in a list says of which directory
/// it is. So where a survey has yielded such an item, it was ended by it.
pub fn no_item_ends_a_survey()
    ensures { (g : QueryScene) (items : List Item) → IsSurvey g items → IsFinished items }
{}

/// The entries of a survey that aren't ignored are those of the walk of its root but the root itself,
/// where that is a directory, and where the walk has the same settings, follows no links, filters
/// nothing, may go on to other devices, and has no limits on depth.
pub fn survey_agrees_with_walk()
    ensures { (g : Scene) (root : List ℕ) (top v : Walked) (items : List Item) (walked : List WalkItem) (n : ℕ)
        → IsPlain g → bytes_eq root (codes "-") ≡ false → root_entry g root ≡ Ok top → leads_in g [] top ≡ true
        → IsSurvey (queries g root) items → WalkedOne g root [] (root_entry g root) walked n
        → IsKept root items v ↔ (IsYielded walked v × (0 < v.depth)) }
{
    join_law();
    walk_agrees_with_queries();
    walk_yields_what_it_shows();
}
