//! Laws of the definitions, as calls that do nothing: each contract is the law.
ghost use Rattle.std.specs.Prelude.{◌≡◌, ◌++◌, [], ◌∷◌, ℕ, Bool, List, Option, length, reverse};
ghost use Rattle.ignore_files.specs.Tree.{Tree};
ghost use Rattle.ignore_base.specs.Problem.{Problem};
ghost use Rattle.ignore_dir.specs.declared.dir.Dir.{Dir};
ghost use Rattle.ignore_dir.specs.declared.settings.Settings.{Settings};
ghost use Rattle.ignore_dir.specs.Above.{dirs_above, names_above, paths_above};
ghost use Rattle.ignore_dir.specs.Chains.{placed_along, slashed};
ghost use Rattle.ignore_dir.specs.Lists.{Placed};
ghost use Rattle.ignore_dir.specs.Load.{Loads, Loaded, AreLoads};
ghost use Rattle.ignore_dir.specs.Query.{problems_below, rules_verdict};
ghost use Rattle.ignore_dir.specs.Scene.{QueryScene, path_verdict};
ghost use Rattle.ignore_dir.specs.Steps.{entered, entry, problems_from, reached_in, verdict_at, verdict_from};

use ignore_rules::gitignore::laws::a_file_adds_one_thing;

/// Each directory of a tree has one load: some (`some`), and no other (`one`).
pub fn one_load()
    ensures some { (tree : Tree) (s : Settings) → (loads : List ℕ → Loaded) × AreLoads tree s loads }
    ensures one { (tree : Tree) (s : Settings) (dir : List ℕ) (a b : Dir) (p q : Option Problem)
        → Loads tree s dir a p → Loads tree s dir b q → (a ≡ b) × (p ≡ q) }
{
    a_file_adds_one_thing();
}

/// What is said one name at a time is what is said over whole lists: what is reached at the root
/// (`root`), the verdict on an entry of a directory (`verdict`), what is reached in the directory
/// that an entry is (`entered`), what the rules say of a path (`rules`), and the problems on the
/// way (`problems`).
pub fn steps_are_whole()
    ensures root { (g : QueryScene) (dirs : List Placed) (text path : List ℕ)
        → dirs ≡ placed_along 1 (dirs_above g.loads g.settings (paths_above g.tree g.settings g.root))
        (names_above g.tree g.settings g.root) ++ ((g.loads g.root).0, length text) ∷ []
        → text ≡ 47 ∷ slashed (names_above g.tree g.settings g.root) → path ≡ g.root
        → record { chain = reverse dirs; text = text; path = path } ≡ reached_in g [] }
    ensures verdict { (g : QueryScene) (front : List (List ℕ)) (n : List ℕ) (is_dir : Bool)
        → verdict_at g.settings g.outside (entry (reached_in g front) n) is_dir ≡ path_verdict g (front ++ n ∷ []) is_dir }
    ensures entered { (g : QueryScene) (front : List (List ℕ)) (n : List ℕ)
        → entered g.loads (entry (reached_in g front) n) ≡ reached_in g (front ++ n ∷ []) }
    ensures rules { (g : QueryScene) (is_dir : Bool) (n : List ℕ) (ns : List (List ℕ))
        → rules_verdict g (n ∷ ns) is_dir ≡ verdict_from g.loads g.settings g.outside is_dir (reached_in g []) (n ∷ ns) }
    ensures problems { (g : QueryScene) (n : List ℕ) (ns : List (List ℕ))
        → problems_below g (n ∷ ns) ≡ (g.loads g.root).1 ∷ problems_from g.loads g.settings g.outside (reached_in g []) (n ∷ ns) }
{}
