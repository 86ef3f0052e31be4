//! Laws of walks, as calls that do nothing: each contract is the law.
ghost use Rattle.std.specs.Prelude.{◌≡◌, ◌≤◌, ◌⊎◌, ◌↔◌, ℕ, All, Bool, List, [], Contains, MatchOption, None, Option, Result, Some, codes, map, option_map, true};
ghost use Rattle.std.specs.Cmp.{IsStrictWeakOrder};
ghost use Rattle.std.specs.Iterator.{Drains, YieldsThen};
ghost use Rattle.std.specs.Ordering.{is_lt};
ghost use Rattle.std.specs.declared.cmp.Ordering.{Ordering};
ghost use denote.Bor.{Bor};
ghost use Rattle.ignore_base.specs.Text.{Path};
ghost use Rattle.ignore_base.specs.declared.error.Error.{Error};
ghost use Rattle.ignore_dir.specs.declared.outside.Outside.{Outside};
ghost use Rattle.ignore_files.specs.Answers.{tree_of};
ghost use Rattle.ignore_files.specs.Gives.{IsHonest};
ghost use Rattle.ignore_files.specs.Tree.{Tree};
ghost use Rattle.ignore_files.specs.declared.env.Env.{Env};
ghost use Rattle.ignore_query.specs.declared.incremental.IncrementalIgnore.{IncrementalIgnore};
ghost use Rattle.ignore_walk.specs.Agreement.{IsOpen, keeps};
ghost use Rattle.ignore_walk.specs.Below.{IsAtOrBelow, KeepsBelow, StaysBelow};
ghost use Rattle.ignore_walk.specs.Branch.{Branch};
ghost use Rattle.ignore_walk.specs.Entry.{Entry, Item, entry_of, item_of, problem_in, stdin_entry};
ghost use Rattle.ignore_walk.specs.GoesOn.{HasNoEnd};
ghost use Rattle.ignore_walk.specs.Nexts.{NextGives, Remaining, Starts};
ghost use Rattle.ignore_walk.specs.Runs.{EndsLast, IsBegun, IsRun};
ghost use Rattle.ignore_walk.specs.Scene.{Scene};
ghost use Rattle.ignore_walk.specs.Suits.{order_by};
ghost use Rattle.ignore_walk.specs.Visits.{IsYielded};
ghost use Rattle.ignore_walk.specs.Walked.{WalkedOne};
ghost use Rattle.ignore_walk.specs.Whole.{Whole, root_entry};
ghost use Rattle.ignore_walk.specs.declared.callbacks.Order.{Order};
ghost use Rattle.ignore_walk.specs.declared.entry.DirEntry.{DirEntry};
ghost use Rattle.ignore.specs.Agreement.{IsKeptByOne, IsMatcherIn, IsReached, answer_at, matcher_root};
ghost use Rattle.ignore.specs.Asked.{IsOutside};
ghost use Rattle.ignore.specs.Closures.{ComparesTexts, IsBare, chosen_order, order_of};
ghost use Rattle.ignore.specs.Finished.{IsFinished};
ghost use Rattle.ignore.specs.Headline.{Headline, IsBareScene, IsOnlyList, IsSceneOf, IsTheList};
ghost use Rattle.ignore.specs.Matchers.{AreMatchers};
ghost use Rattle.ignore.specs.Walks.{IsNewWalkBy, IsWalkBy};
ghost use Rattle.ignore.specs.declared.options.WalkOptions.{WalkOptions};
ghost use Rattle.ignore.specs.declared.walk.Walk.{Walk};

use crate::builder::WalkBuilder;
use crate::closures::{Compare, Keep};
use crate::walk::Owner;
pub use ignore_dir::laws::one_load;
use ignore_files::{Env, Files, MemoryTree};
pub use ignore_walk::laws::{
    no_item_ends_a_walk, one_list, walk_agrees_with_queries, walk_yields_what_it_shows,
};
pub use ignore_walk::runs::steps_stay_below_their_roots;
pub use ignore_walk::some_list;
use ignore_walk::{Callbacks, runs};

/// A walk that is asked until it answers none has yielded all that remained of it; or a beginning
/// of that, and then, as its last item, out of memory or the limit of steps.
pub fn a_run_yields_the_list<F: Files, S: Callbacks>()
    ensures { (g : Scene) (w : Walk F S) (all : List (Result DirEntry Error)) (items : List Item) (n : ℕ)
        → Drains (λ a answer b. NextGives F.Files S.Callbacks a.inner (option_map item_of answer) b.inner) w all
        → Remaining F.Files S.Callbacks g w.inner items n → IsRun (map item_of all) items w.inner.left n }
{
    runs::a_run_yields_the_list::<F, S>();
}

/// A walk that has yielded some items and then one more has yielded a beginning of what remained of
/// it, and then the next of that or what ended it. It isn't asked to its end, as by a loop that stops
/// there; what ends a walk is out of memory or the limit of steps.
pub fn a_run_begins_the_list<F: Files, S: Callbacks>()
    ensures { (g : Scene) (w v : Walk F S) (all : List (Result DirEntry Error)) (x : Result DirEntry Error) (items : List Item) (n : ℕ)
        → YieldsThen (λ a answer b. NextGives F.Files S.Callbacks a.inner (option_map item_of answer) b.inner) w all (Some x) v
        → Remaining F.Files S.Callbacks g w.inner items n → IsBegun (map item_of all) (item_of x) items w.inner.left n }
{
    runs::a_run_begins_the_list::<F, S>();
}

/// After a walk has answered none it answers none, whatever the files answer: the next time, and so
/// each time after that.
pub fn none_is_the_end<F: Files, S: Callbacks>()
    ensures { (a b c : Walk F S) (answer : Option (Result DirEntry Error))
        → NextGives F.Files S.Callbacks a.inner None b.inner → NextGives F.Files S.Callbacks b.inner (option_map item_of answer) c.inner
        → answer ≡ None }
{
    runs::none_is_the_end::<F, S>();
}

/// A walk that is asked until it answers none has yielded out of memory, or the limit of steps
/// alone, at most as its last item, and out of memory nowhere inside an error, whatever the files
/// answer. So it is with each walk of a builder (`WalkBuilder::build`, clause `no_end`).
pub fn only_the_last_item_ends<F: Files, S: Callbacks>()
    ensures { (w : Walk F S) (all : List (Result DirEntry Error))
        → Drains (λ a answer b. NextGives F.Files S.Callbacks a.inner (option_map item_of answer) b.inner) w all
        → HasNoEnd w.inner.stack → EndsLast (map item_of all) }
{
    runs::only_the_last_item_ends::<F, S>();
}

/// Whatever the files answer, each entry that a walk yields is at one of its roots or below one, or is
/// standard input where `-` is one of them. That is said of a walk that is asked until it answers none
/// (`whole`), and of one that isn't (`begun`); and so is each directory that it is in (`enters`). So it
/// is with each walk of a builder (`WalkBuilder::build`, clause `goes_by`), and it stays so after each item.
pub fn a_run_stays_below_its_roots<F: Files, S: Callbacks>()
    ensures whole { (roots : List Path) (w : Walk F S) (all : List (Result DirEntry Error))
        → Drains (λ a answer b. NextGives F.Files S.Callbacks a.inner (option_map item_of answer) b.inner) w all
        → KeepsBelow roots w.inner.stack → All (StaysBelow roots) (map item_of all) }
    ensures begun { (roots : List Path) (w v : Walk F S) (all : List (Result DirEntry Error)) (x : Result DirEntry Error)
        → YieldsThen (λ a answer b. NextGives F.Files S.Callbacks a.inner (option_map item_of answer) b.inner) w all (Some x) v
        → KeepsBelow roots w.inner.stack → All (StaysBelow roots) (map item_of all) × StaysBelow roots (item_of x) }
    ensures enters { (roots : List Path) (w : Walk F S) → KeepsBelow roots w.inner.stack
        → All (λ f. (depth : ℕ) × IsAtOrBelow roots f.path depth) w.inner.stack.frames.items }
{
    runs::a_run_stays_below_its_roots::<F, S>();
}

/// The list of the definition is one, item by item. A walk of a builder (`WalkBuilder::build`, clause
/// `whole`) that is asked until it answers none, and that no item ended, has yielded whatever list
/// the definition has.
pub fn a_finished_walk_has_no_other_list<F: Files, S: Callbacks>()
    ensures { (f : F) (owner : S) (env : Env) (b : WalkOptions) (order : Order) (w : Walk F S) (all : List (Result DirEntry Error))
        → IsWalkBy F.Files S.Callbacks f owner env b order w.inner → w.inner.left ≡ b.limit
        → Drains (λ a answer b. NextGives F.Files S.Callbacks a.inner (option_map item_of answer) b.inner) w all
        → IsFinished (map item_of all) → IsOnlyList F.Files S.Callbacks f owner env b order (map item_of all) }
{
    a_run_yields_the_list::<F, S>();
}

/// A walk that is asked until it answers none, and that no item ended, shows that there is a list. In
/// each scene that it suits, where what remains of it is what some roots give (as for a new walk),
/// these roots give just the items that it has yielded, and in no more steps than it might take.
pub fn a_finished_run_is_a_list<F: Files, S: Callbacks>()
    ensures { (g : Scene) (roots : List Path) (w : Walk F S) (all : List (Result DirEntry Error))
        → Drains (λ a answer b. NextGives F.Files S.Callbacks a.inner (option_map item_of answer) b.inner) w all
        → Starts F.Files S.Callbacks g w.inner roots → IsFinished (map item_of all)
        → (n : ℕ) × (n ≤ w.inner.left) × Whole g roots (map item_of all) n }
{
    runs::a_finished_run_is_a_list::<F, S>();
}

/// The headline, item by item: a walk of a builder (`WalkBuilder::build`, clause `starts`) that is
/// asked until it answers none, and that no item ended, has yielded the list of the definition. In
/// each tree that the files are consistent with, the roots give just what it has yielded, in each
/// scene of the walk, and in no more steps than the limit. Nothing more is asked of the tree: it may
/// have links without end, and no number of directories need be known.
pub fn a_finished_walk_is_the_headline<F: Files, S: Callbacks>()
    ensures { (f : F) (owner : S) (env : Env) (b : WalkOptions) (order : Order) (w : Walk F S) (all : List (Result DirEntry Error))
        → IsNewWalkBy F.Files S.Callbacks f owner env b order w.inner → w.inner.left ≡ b.limit
        → Drains (λ a answer b. NextGives F.Files S.Callbacks a.inner (option_map item_of answer) b.inner) w all
        → IsFinished (map item_of all) → Headline F.Files S.Callbacks f owner env b order (map item_of all) }
{
    a_finished_run_is_a_list::<F, S>();
}

/// The premises of the headline are met: a builder without closures has a scene in each tree, by
/// any rules from outside.
pub fn a_scene_without_closures(builder: &WalkBuilder)
    ensures { (tree : Tree) (outside : Outside) → builder.now.sorter ≡ None → builder.now.filter ≡ None
        → (g : Scene) × IsSceneOf ⟦<Owner<'static> as Callbacks>⟧ (record { builder = Some builder.entry }) builder.now.options
        (order_of (λ s. s.order) builder.now.sorter) tree outside g }
{
    one_load();
}

/// The same of a builder with closures that answer by functions. Its comparison does by one of an
/// order in which two may tie, and its filter by one of entries, where it is asked about those without
/// an error. The scene has this filter and this order. Where none is set, texts compare as such, and
/// each entry passes.
pub fn a_scene_with_closures(builder: &WalkBuilder)
    ensures { (tree : Tree) (outside : Outside) (keep : Entry → Bool) (cmp : Path → Path → Ordering)
        → IsStrictWeakOrder (λ a b. is_lt (cmp a b))
        → MatchOption builder.now.sorter (ComparesTexts cmp)
        (λ s. (a b : Bor Path) (order : Ordering) → Compare.post s.compare a b order → order ≡ cmp a.now b.now)
        → MatchOption builder.now.filter ((e : Entry) → keep e ≡ true)
        (λ f. (e : Bor DirEntry) (yes : Bool) → problem_in e.now ≡ None → Keep.post f.keep e yes → yes ≡ keep (entry_of e.now))
        → (g : Scene) × IsSceneOf ⟦<Owner<'static> as Callbacks>⟧ (record { builder = Some builder.entry }) builder.now.options
        (order_of (λ s. s.order) builder.now.sorter) tree outside g
        × (g.keep ≡ keep) × (g.order ≡ order_by (chosen_order builder.now.options (order_of (λ s. s.order) builder.now.sorter)) cmp) }
{
    one_load();
}

/// A walk of a builder without closures goes by its options alone. Each entry passes, and texts
/// compare as such (`answers`). So each scene in which that is so is one of the walk (`scenes`), and
/// what is said of the walk's list in all of its scenes may be said without its builder.
pub fn a_builder_without_closures(builder: &WalkBuilder)
    ensures answers { builder.now.sorter ≡ None → builder.now.filter ≡ None
        → IsBare ⟦<Owner<'static> as Callbacks>⟧ (record { builder = Some builder.entry }) }
    ensures scenes { (tree : Tree) (outside : Outside) (g : Scene) → builder.now.sorter ≡ None → builder.now.filter ≡ None
        → IsBareScene builder.now.options tree outside g
        → IsSceneOf ⟦<Owner<'static> as Callbacks>⟧ (record { builder = Some builder.entry }) builder.now.options
        (order_of (λ s. s.order) builder.now.sorter) tree outside g }
{}

/// What a walk yields is what the matchers of its builder keep. Each of them goes by the settings
/// and the rules from outside of the walk, and its root is one of the walk's (`matchers`). Where the
/// walk's filter keeps everything and it may go on to other devices, an entry that is reached from
/// the root of a matcher is yielded under this root exactly where the matcher, asked for its path and
/// its kind, keeps it (`entry`). So a whole walk yields standard input where that is one of its
/// roots, and exactly the entries that one of the matchers keeps (`whole`).
pub fn walk_agrees_with_matchers<S: Callbacks>()
    ensures matchers { (owner : S) (env : Env) (b : WalkOptions) (order : Order) (tree : Tree) (o : Outside) (g : Scene)
        (ms : List IncrementalIgnore) (m : IncrementalIgnore) → IsOutside tree env b o → IsSceneOf S.Callbacks owner b order tree o g
        → AreMatchers tree env b ms → Contains ms m → IsMatcherIn g m × Contains b.roots (matcher_root m) }
    ensures entry { (g : Scene) (m : IncrementalIgnore) (place : Branch) (e : Entry) (items : List Item) (n : ℕ)
        → IsOpen g → IsMatcherIn g m → IsReached g m place e → WalkedOne g (matcher_root m) [] (root_entry g (matcher_root m)) items n
        → IsYielded items e ↔ (keeps (answer_at g m place e) ≡ true) }
    ensures whole { (owner : S) (env : Env) (b : WalkOptions) (order : Order) (tree : Tree) (o : Outside) (g : Scene)
        (ms : List IncrementalIgnore) (e : Entry) (items : List Item) (n : ℕ) → IsOutside tree env b o
        → IsSceneOf S.Callbacks owner b order tree o g → IsOpen g → AreMatchers tree env b ms → Whole g b.roots items n
        → IsYielded items e ↔ (((e ≡ stdin_entry) × Contains b.roots (codes "-")) ⊎ IsKeptByOne g ms e) }
{
    walk_agrees_with_queries();
    one_outside();
}

/// A tree has one list of rules from outside, by which walks and matchers of a builder go.
pub fn one_outside()
    ensures { (tree : Tree) (env : Env) (b : WalkOptions) (o p : Outside) → IsOutside tree env b o → IsOutside tree env b p → o ≡ p }
{}

/// Over any files: what has the headline is the one list of the definition in each tree that the
/// files are consistent with. `Ok` of `collect_walk` has it, and so have the items of a walk of a
/// builder that was finished; the list is there wherever there is a scene of the walk, as
/// `a_scene_without_closures` and `a_scene_with_closures` say.
pub fn the_one_list<F: Files, S: Callbacks>()
    ensures { (f : F) (owner : S) (env : Env) (b : WalkOptions) (order : Order) (tree : Tree) (o : Outside) (g : Scene) (all : List Item)
        → IsHonest F.Files f tree → IsOutside tree env b o → IsSceneOf S.Callbacks owner b order tree o g
        → Headline F.Files S.Callbacks f owner env b order all → IsTheList S.Callbacks owner env b order tree all }
{
    one_list();
}

/// The headline over a tree in memory, with no premise on the walk left: a finished walk has
/// yielded the one list of the definition. So it is where the builder has no comparison and no filter
/// (`plain`), and with closures wherever there is a scene of them, as `a_scene_with_closures` says
/// (`closures`).
pub fn a_tree_in_memory(builder: &WalkBuilder, tree: &MemoryTree, env: &Env)
    ensures plain { (o : Outside) (all : List Item) → IsOutside (tree_of tree.now) env.now builder.now.options o
        → builder.now.sorter ≡ None → builder.now.filter ≡ None
        → Headline ⟦<MemoryTree as Files>⟧ ⟦<Owner<'static> as Callbacks>⟧ tree.now (record { builder = Some builder.entry }) env.now
        builder.now.options (order_of (λ s. s.order) builder.now.sorter) all
        → IsTheList ⟦<Owner<'static> as Callbacks>⟧ (record { builder = Some builder.entry }) env.now builder.now.options
        (order_of (λ s. s.order) builder.now.sorter) (tree_of tree.now) all }
    ensures closures { (o : Outside) (g : Scene) (all : List Item) → IsOutside (tree_of tree.now) env.now builder.now.options o
        → IsSceneOf ⟦<Owner<'static> as Callbacks>⟧ (record { builder = Some builder.entry }) builder.now.options
        (order_of (λ s. s.order) builder.now.sorter) (tree_of tree.now) o g
        → Headline ⟦<MemoryTree as Files>⟧ ⟦<Owner<'static> as Callbacks>⟧ tree.now (record { builder = Some builder.entry }) env.now
        builder.now.options (order_of (λ s. s.order) builder.now.sorter) all
        → IsTheList ⟦<Owner<'static> as Callbacks>⟧ (record { builder = Some builder.entry }) env.now builder.now.options
        (order_of (λ s. s.order) builder.now.sorter) (tree_of tree.now) all }
{
    tree.is_honest();
    the_one_list::<MemoryTree, Owner<'static>>();
    a_scene_without_closures(builder);
}
