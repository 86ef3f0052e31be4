//! A backup: it ends well only with the complete list of what it is to store. Whether it stores a
//! path, a matcher answers without a walk.
ghost use Rattle.std.specs.Prelude.{◌≡◌, ◌↔◌, ◌⊎◌, Contains, Err, IfErr, IfOk, List, Ok, Some, map, true};
ghost use Rattle.ignore.specs.Closures.{order_of};
ghost use Rattle.ignore.specs.FileWords.{Disk, IsHonest, IsTruthful, Tree, disk_of, tree_on};
ghost use Rattle.ignore.specs.Headline.{Headline, IsListIn};
ghost use Rattle.ignore.specs.WalkWords.{Agrees, AreLoads, AreMatchers, Entry, IncrementalIgnore, IsMatcherIn, IsOpen, IsYielded, Item};
ghost use Rattle.ignore.specs.WalkWords.{Scene, item_of, keeps, scene_of};
ghost use Rattle.ignore.specs.Words.{memory, problem_of};
ghost use Rattle.uses.specs.Stored.{EndsBackup, HoldsWhatTheyKeep, IsAbout};

use ignore::files::{DiskFiles, Env, Files, Machine, TableMachine};
use ignore::walk_laws::walk_agrees_with_matchers;
use ignore::{
    Callbacks, DirEntry, Error, IncrementalIgnore, IncrementalMatch, Item, Owner, WalkBuilder,
    collect_walk,
};
use std::alloc::Global;

/// Everything that a walk of the builder reaches and its rules keep, parents first. After `Ok`
/// nothing is left out: the entries are the whole list of the definition, and no error stands in
/// the place of one. They are exactly those that one of the builder's matchers keeps, and standard
/// input where that is a root, if the builder has no filter and enters other devices.
///
/// # Errors
/// The first error in the place of an entry; `Error::Memory`; and `Io(StepLimit)` where the walk
/// takes more steps than the builder's limit.
pub fn complete_entries<F: Files>(
    alloc: Global,
    builder: &WalkBuilder,
    files: &F,
    env: &Env,
) -> Result<Vec<DirEntry>, Error>
    ensures complete { IfOk result (λ entries. Headline F.Files ⟦<Owner<'static> as Callbacks>⟧ files.now (record { builder = Some builder.entry }) env.now
        builder.now.options (order_of (λ s. s.order) builder.now.sorter) (map (λ e. item_of (Ok e)) entries.items)) }
    ensures agreed { (tree : Tree) (ms : List IncrementalIgnore) → IsHonest F.Files files.now tree → AreMatchers tree env.now builder.now.options ms
        → IfOk result (λ entries. HoldsWhatTheyKeep ⟦<Owner<'static> as Callbacks>⟧ (record { builder = Some builder.entry }) env.now
        builder.now.options (order_of (λ s. s.order) builder.now.sorter) tree ms (map (λ e. item_of (Ok e)) entries.items)) }
    ensures ended { IfErr result (λ e. EndsBackup F.Files ⟦<Owner<'static> as Callbacks>⟧ files.now (record { builder = Some builder.entry }) env.now
        builder.now.options (order_of (λ s. s.order) builder.now.sorter) (problem_of e)) }
{
    walk_agrees_with_matchers::<Owner<'static>>();
    entries_of(alloc, collect_walk(builder, files, env)?)
}

/// The entries of some items, all of which are entries.
fn entries_of(alloc: Global, items: Vec<Item>) -> Result<Vec<DirEntry>, Error>
    ensures all { IfOk result (λ entries. map item_of items.items ≡ map (λ e. item_of (Ok e)) entries.items) }
    ensures first { IfErr result (λ e. (problem_of e ≡ memory) ⊎ Contains (map item_of items.items) (Err (problem_of e))) }
{
    let mut entries = Vec::new(alloc);
    for item in items {
        entries.push(item?)?;
    }
    Ok(entries)
}

/// The same of the files of a machine: a program passes its runtime. Where the machine answers
/// truly, the entries are the whole list in the tree on its disk.
///
/// # Errors
/// As `complete_entries`.
pub fn complete_entries_on_disk<R: Machine>(
    alloc: Global,
    builder: &WalkBuilder,
    machine: &R,
    env: &Env,
) -> Result<Vec<DirEntry>, Error>
    ensures complete { (disk : Disk) → IsTruthful R.Machine R.Dir.next_gives machine.now disk
        → IfOk result (λ entries. IsListIn ⟦<Owner<'static> as Callbacks>⟧ (record { builder = Some builder.entry }) env.now builder.now.options
        (order_of (λ s. s.order) builder.now.sorter) (tree_on disk) (map (λ e. item_of (Ok e)) entries.items)) }
{
    let files = DiskFiles::new(machine);
    files.is_honest();
    complete_entries(alloc, builder, &files, env)
}

/// The same of a machine by a table: the entries are the whole list in the tree of its rows,
/// whatever they are.
///
/// # Errors
/// As `complete_entries`.
pub fn complete_entries_of_table(
    alloc: Global,
    builder: &WalkBuilder,
    machine: &TableMachine,
    env: &Env,
) -> Result<Vec<DirEntry>, Error>
    ensures complete { IfOk result (λ entries. IsListIn ⟦<Owner<'static> as Callbacks>⟧ (record { builder = Some builder.entry }) env.now builder.now.options
        (order_of (λ s. s.order) builder.now.sorter) (tree_on (disk_of machine.now)) (map (λ e. item_of (Ok e)) entries.items)) }
{
    machine.is_truthful();
    complete_entries_on_disk(alloc, builder, machine, env)
}

/// Whether a walk yields what a matcher answers this about.
fn keeps(answer: &IncrementalMatch) -> bool
    ensures { result ≡ keeps answer.now }
{
    !answer.is_ignore() && answer.is_within_depth()
}

/// Whether a backup stores what is at a path below the root of a matcher, which is a directory
/// where `is_dir` is set: the matcher is asked, and nothing is walked. Where the matcher goes by the
/// settings and rules of a walk without a filter that enters other devices, the answer is whether
/// the root gives the entry.
///
/// # Errors
/// `Error::Memory` alone.
pub fn is_stored<F: Files>(
    matcher: &mut IncrementalIgnore,
    files: &F,
    path: &str,
    is_dir: bool,
) -> Result<bool, Error>
    ensures stored { (g : Scene) (e : Entry) (items : List Item) → IsHonest F.Files files.now g.tree → AreLoads g.tree g.settings g.loads
        → IsOpen g → IsMatcherIn g matcher.old → Agrees (scene_of matcher.old.asked g.tree g.loads) matcher.old.cache
        → IsAbout g matcher.old path.now is_dir e items → IfOk result (λ yes. (yes ≡ true) ↔ IsYielded items e) }
    ensures out_of_memory { IfErr result (λ e. problem_of e ≡ memory) }
{
    walk_agrees_with_matchers::<Owner<'static>>();
    let answer = matcher.matched(files, path, is_dir)?;
    Ok(keeps(&answer))
}
