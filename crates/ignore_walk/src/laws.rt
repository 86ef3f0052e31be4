//! Laws of the definitions, as calls that do nothing: each contract is the law.
ghost use Rattle.std.specs.Prelude.{◌≡◌, ◌⊎◌, ◌↔◌, [], ◌∷◌, ◌++◌, Ok, Option, true, false, codes, bytes_eq, Contains, ℕ, List, Result};
ghost use Rattle.ignore_base.specs.Problem.{Problem};
ghost use Rattle.ignore_dir.specs.Load.{AreLoads};
ghost use Rattle.ignore_walk.specs.Agreement.{IsKeptBelow, IsOpen, Reachable, is_kept, is_within};
ghost use Rattle.ignore_walk.specs.Branch.{Branch};
ghost use Rattle.ignore_walk.specs.Entry.{Entry, Item, stdin_entry};
ghost use Rattle.ignore_walk.specs.Finished.{IsEnd, IsFinished};
ghost use Rattle.ignore_walk.specs.Nexts.{EndsBy};
ghost use Rattle.ignore_walk.specs.Runs.{IsBegun};
ghost use Rattle.ignore_walk.specs.Scene.{Scene};
ghost use Rattle.ignore_walk.specs.Visits.{IsAfterParent, IsShown, IsShownBelow, IsYielded};
ghost use Rattle.ignore_walk.specs.Walked.{WalkedOne, IsOrdered};
ghost use Rattle.ignore_walk.specs.Whole.{Whole, WalkedRoots, root_entry};

use ignore_base::text::{join_law, offset_law};

/// An entry gives one list of items, in one number of steps (`entry`), and so do roots (`roots`).
pub fn one_list()
    ensures entry { (g : Scene) (root : List ℕ) (b : Branch) (r : Result Entry Problem) (xs ys : List Item) (m n : ℕ)
        → IsOrdered g.order → WalkedOne g root b r xs m → WalkedOne g root b r ys n → (ys ≡ xs) × (n ≡ m) }
    ensures roots { (g : Scene) (seen roots : List (List ℕ)) (xs ys : List Item) (m n : ℕ)
        → IsOrdered g.order → WalkedRoots g seen roots xs m → WalkedRoots g seen roots ys n → (ys ≡ xs) × (n ≡ m) }
{}

/// By any settings, filter and order a walk yields exactly the entries that it visits, doesn't skip
/// and doesn't find above the least depth: under a root (`below`), and in all, with standard input
/// where that is one (`whole`). Parents come first (`parents`): each entry but the root comes after
/// the directory that lists it, unless this is above the least depth.
pub fn walk_yields_what_it_shows()
    ensures below { (g : Scene) (root : List ℕ) (e : Entry) (items : List Item) (n : ℕ)
        → WalkedOne g root [] (root_entry g root) items n → IsYielded items e ↔ IsShown g root e }
    ensures whole { (g : Scene) (roots : List (List ℕ)) (e : Entry) (items : List Item) (n : ℕ) → Whole g roots items n
        → IsYielded items e ↔ (((e ≡ stdin_entry) × Contains roots (codes "-")) ⊎ IsShownBelow g roots e) }
    ensures parents { (g : Scene) (root : List ℕ) (e : Entry) (p : Option Problem) (front back : List Item) (n : ℕ)
        → WalkedOne g root [] (root_entry g root) (front ++ Ok (e, p) ∷ back) n
        → (root_entry g root ≡ Ok e) ⊎ IsAfterParent g root front e }
{}

/// A walk agrees with the queries of its roots. Where its filter keeps everything and it may go on
/// to other devices, an entry that is reachable from a root, within the greatest depth, is yielded
/// under this root exactly where the query of the root, asked for its path and its kind, neither
/// ignores it nor finds it out of the limits on depth (`entry`). Nothing else is yielded
/// (`reachable`). So a whole walk yields standard input where that is one of its roots, and exactly
/// the reachable entries that the queries of its roots keep (`whole`).
pub fn walk_agrees_with_queries()
    ensures entry { (g : Scene) (root : List ℕ) (b : Branch) (e : Entry) (items : List Item) (n : ℕ)
        → IsOpen g → bytes_eq root (codes "-") ≡ false → Reachable g root b e → is_within g b ≡ true
        → WalkedOne g root [] (root_entry g root) items n → IsYielded items e ↔ (is_kept g root b e ≡ true) }
    ensures reachable { (g : Scene) (root : List ℕ) (e : Entry) (items : List Item) (n : ℕ)
        → WalkedOne g root [] (root_entry g root) items n → IsYielded items e
        → (b : Branch) × Reachable g root b e × (is_within g b ≡ true) }
    ensures whole { (g : Scene) (roots : List (List ℕ)) (e : Entry) (items : List Item) (n : ℕ)
        → IsOpen g → Whole g roots items n
        → IsYielded items e ↔ (((e ≡ stdin_entry) × Contains roots (codes "-")) ⊎ IsKeptBelow g roots e) }
{
    join_law();
    offset_law();
}

/// No item of a list is out of memory, or the limit of steps alone: an error in a list says at
/// which path, line or depth it is, or is several errors, or a loop. So it is with what a root gives
/// (`root`), and with all roots, whatever directories are above them (`whole`). So where a walk of
/// such a list has yielded such an item, it was ended by it (`ended`).
pub fn no_item_ends_a_walk()
    ensures root { (g : Scene) (root : List ℕ) (items : List Item) (n : ℕ)
        → WalkedOne g root [] (root_entry g root) items n → IsFinished items }
    ensures whole { (g : Scene) (roots : List (List ℕ)) (items : List Item) (n : ℕ)
        → AreLoads g.tree g.settings g.loads → Whole g roots items n → IsFinished items }
    ensures ended { (all items : List Item) (item : Item) (left n : ℕ)
        → IsFinished items → IsEnd item → IsBegun all item items left n → EndsBy item left n }
{}
