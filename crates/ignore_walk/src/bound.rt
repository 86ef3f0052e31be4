//! How many directories a branch of a walk leads through, and that a walk has a list.
ghost use Rattle.std.specs.Prelude.{◌≡◌, ◌*◌, ◌≤◌, ℕ, List, Result, length, true};
ghost use Rattle.ignore_base.specs.Problem.{Problem};
ghost use Rattle.ignore_files.specs.Answers.{tree_of};
ghost use Rattle.ignore_files.specs.Dirs.{IsNumbered};
ghost use Rattle.ignore_files.specs.Memory.{dir_count};
ghost use Rattle.ignore_walk.specs.Agreement.{Reachable};
ghost use Rattle.ignore_walk.specs.Branch.{Branch, entered};
ghost use Rattle.ignore_walk.specs.Entry.{Entry, Item};
ghost use Rattle.ignore_walk.specs.Scene.{Scene};
ghost use Rattle.ignore_walk.specs.Walked.{WalkedOne, IsOrdered, leads_in};
ghost use Rattle.ignore_walk.specs.Whole.{Whole, WalkedRoots};

use ignore_files::MemoryTree;

/// How many directories a branch of a walk of this tree can lead through: `n * n` for the `n`
/// directories of the tree, which are fewer than 2^64.
///
/// No branch has more (`most`), whatever is set: also where no rule, filter or limit leaves
/// anything out. From a directory to one that it lists numbers grow, so at most `n` follow one
/// another without a followed link; and such a link leads to no directory that its branch has
/// entered, so at most `n` such rows follow one another. So a walk of any roots gives a list
/// (`whole`), and by `laws::one_list` one alone.
pub fn branch_bound(tree: &MemoryTree) -> u128
    ensures value { result ≡ dir_count tree.now * dir_count tree.now }
    ensures most { (g : Scene) (root : List ℕ) (b : Branch) (e : Entry) → g.tree ≡ tree_of tree.now
        → Reachable g root b e → leads_in g b e ≡ true → length (entered root b) ≤ result }
    ensures whole { (g : Scene) (roots : List (List ℕ)) → g.tree ≡ tree_of tree.now → IsOrdered g.order
        → (items : List Item) × (steps : ℕ) × Whole g roots items steps }
{
    tree.is_numbered();
    let n = tree.dir_count() as u128;
    n * n
}

/// The same of any tree whose directories can be numbered (`IsNumbered`; for a tree in memory see
/// `MemoryTree::is_numbered`): no branch leads through more than the square of their number
/// (`most`), an entry gives a list of items (`entry`), and so do roots (`roots`). Where an order is
/// chosen, it is one in which two names may tie. (A law: the call does nothing.)
pub fn some_list()
    ensures most { (g : Scene) (n : ℕ) (root : List ℕ) (b : Branch) (e : Entry) → IsNumbered g.tree n
        → Reachable g root b e → leads_in g b e ≡ true → length (entered root b) ≤ n * n }
    ensures entry { (g : Scene) (n : ℕ) (root : List ℕ) (b : Branch) (r : Result Entry Problem)
        → IsNumbered g.tree n → IsOrdered g.order → (items : List Item) × (steps : ℕ) × WalkedOne g root b r items steps }
    ensures roots { (g : Scene) (n : ℕ) (seen roots : List (List ℕ))
        → IsNumbered g.tree n → IsOrdered g.order → (items : List Item) × (steps : ℕ) × WalkedRoots g seen roots items steps }
{}
