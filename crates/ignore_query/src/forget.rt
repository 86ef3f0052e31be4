//! Forgetting the directories at and below a path.
ghost use Rattle.std.specs.Prelude.{◌≡◌, ◌≢◌, ◌+◌, ◌≤◌, ℕ, List, All, Option, None, Some, true, length, string_bytes, if◌then◌else◌};
ghost use Rattle.std.specs.BTreeMap.{btree_map_len, get_by_text};
ghost use Rattle.ignore_base.specs.Paths.{IsName};
ghost use Rattle.ignore_dir.specs.Lists.{Placed};
ghost use Rattle.ignore_dir.specs.Load.{Loaded};
ghost use Rattle.ignore_dir.specs.Query.{is_asked, is_clean, names_of};
ghost use Rattle.ignore_files.specs.Tree.{Tree};
ghost use Rattle.ignore_levels.specs.Levels.{IsChain, Keeps, Passes, level_at, slots_of};
ghost use Rattle.ignore_query.specs.Agrees.{Agrees};
ghost use Rattle.ignore_query.specs.Forget.{IsFreed, IsOwn, IsSameKept, is_at_or_below, is_key_in, kept_from, key_of};
ghost use Rattle.ignore_query.specs.Listed.{kept_at};
ghost use Rattle.ignore_query.specs.Reached.{scene_of};

use crate::clean::is_asked;
use crate::incremental::IncrementalIgnore;
use crate::kept::{Cache, Kept};
use ignore_levels::{Levels, Place};
use std::collections::BTreeMap;

/// Whether a key is that of the directory at a clean path, or of one below it.
pub(crate) fn is_key_in(dir: &str, key: &str) -> bool
    ensures { result ≡ is_key_in dir.now key.now }
{
    let (dir, key) = (dir.as_bytes(), key.as_bytes());
    if dir.len() == 0 {
        return true;
    }
    if key.len() <= dir.len() {
        return false;
    }
    key.starts_with(dir) && key[dir.len()] == b'/'
}

/// Drops the level at the place of what is kept, where its offset is at least a floor.
fn free_from(levels: &mut Levels, kept: Kept, floor: usize)
    ensures levels { Keeps (slots_of levels.new) (slots_of levels.old) }
    ensures kept { (place : Option Place) (chain : List Placed) → IsChain (slots_of levels.old) place chain
        → ((at : Place) → IsFreed (slots_of levels.old) kept floor at → ¬ Passes (slots_of levels.old) place at)
        → IsChain (slots_of levels.new) place chain }
    ensures freed { (at : Place) → IsFreed (slots_of levels.old) kept floor at → level_at (slots_of levels.new) at ≡ None }
{
    if let Kept::Loaded(Some(place)) = kept {
        if floor <= levels.floor(Some(place)) {
            levels.free(place);
        }
    }
}

/// Drops the levels of the directories whose keys are in that of a directory at a clean path. Their
/// offsets are at least a floor, those of the levels above are less.
fn free_levels(levels: &mut Levels, dirs: &BTreeMap<String, Kept>, dir: &str, floor: usize)
    ensures levels { Keeps (slots_of levels.new) (slots_of levels.old) }
    ensures kept { (place : Option Place) (chain : List Placed) → IsChain (slots_of levels.old) place chain
        → ((key : List ℕ) (k : Kept) (at : Place) → get_by_text dirs.now key ≡ Some k → is_key_in dir.now key ≡ true
        → IsFreed (slots_of levels.old) k floor at → ¬ Passes (slots_of levels.old) place at)
        → IsChain (slots_of levels.new) place chain }
    ensures freed { (key : List ℕ) (k : Kept) (at : Place) → get_by_text dirs.now key ≡ Some k → is_key_in dir.now key ≡ true
        → IsFreed (slots_of levels.old) k floor at → level_at (slots_of levels.new) at ≡ None }
{
    for (key, kept) in dirs.iter() {
        if is_key_in(dir, key.as_str()) {
            free_from(levels, *kept, floor);
        }
    }
}

/// The length of the key of the directory at a clean path.
fn key_len(dir: &str) -> usize
    ensures value { result ≡ length (key_of dir.now) }
    ensures bound { result ≤ length dir.now + 1 }
{
    if dir.is_empty() { 0 } else { dir.len() + 1 }
}

impl Cache {
    /// Drops what is kept of the directory at a clean path and of those below it, and their levels,
    /// and returns how many there were.
    pub(crate) fn forget(&mut self, dir: &str) -> usize
        ensures looked { (text : List ℕ) → get_by_text self.new.dirs.map text
            ≡ (if is_key_in dir.now text then None else get_by_text self.old.dirs.map text) }
        ensures counted { is_clean dir.now ≡ true → result ≡ length (kept_from self.old (names_of dir.now)) }
        ensures left { result + btree_map_len self.new.dirs.map ≡ btree_map_len self.old.dirs.map }
        ensures above { (self.new.has_above ≡ self.old.has_above) × ((self.new.above ≡ self.old.above) × (self.new.base ≡ self.old.base)) }
        ensures levels { Keeps (slots_of self.new.levels) (slots_of self.old.levels) }
        ensures chains { (place : Option Place) (chain : List Placed) → IsChain (slots_of self.old.levels) place chain
            → ((key : List ℕ) (at : Place) → is_key_in dir.now key ≡ true → IsOwn self.old dir.now key at
            → ¬ Passes (slots_of self.old.levels) place at)
            → IsChain (slots_of self.new.levels) place chain }
        ensures freed { (key : List ℕ) (at : Place) → is_key_in dir.now key ≡ true → IsOwn self.old dir.now key at
            → level_at (slots_of self.new.levels) at ≡ None }
    {
        let floor = self.base.len() + key_len(dir);
        free_levels(&mut self.levels, &self.dirs.map, dir, floor);
        self.dirs.forget(dir)
    }
}

impl IncrementalIgnore {
    /// Forgets the directory at a path below the root and all directories below it, so that they
    /// are loaded anew when they are needed, and returns how many of them were kept. The empty path
    /// is the root, below which all are. What is above the root stays kept. Where the root is `-`
    /// or the path isn't clean, nothing is forgotten.
    ///
    /// The levels of the list of directories that go with them are filled by the next loads.
    ///
    /// To be called after a change of the files of rules in a directory. Answers are those of the
    /// tree after the change then, if all other directories that are kept are as before. It
    /// allocates nothing.
    pub fn forget(&mut self, dir: &str) -> usize
        ensures forgotten { (names : List (List ℕ)) → All IsName names → is_asked (string_bytes self.old.asked.root) dir.now ≡ true
            → kept_at self.new.cache names ≡ (if is_at_or_below (names_of dir.now) names then None else kept_at self.old.cache names) }
        ensures unchanged { is_asked (string_bytes self.old.asked.root) dir.now ≢ true → self.new.cache ≡ self.old.cache }
        ensures counted { is_asked (string_bytes self.old.asked.root) dir.now ≡ true
            → result ≡ length (kept_from self.old.cache (names_of dir.now)) }
        ensures left { result + btree_map_len self.new.cache.dirs.map ≡ btree_map_len self.old.cache.dirs.map }
        ensures freed { (key : List ℕ) (at : Place) → is_asked (string_bytes self.old.asked.root) dir.now ≡ true
            → is_key_in dir.now key ≡ true → IsOwn self.old.cache dir.now key at
            → level_at (slots_of self.new.cache.levels) at ≡ None }
        ensures agrees { (before after : Tree) (loads later : List ℕ → Loaded) → let g = scene_of self.old.asked before loads in
            let h = scene_of self.old.asked after later in
            Agrees g self.old.cache → IsSameKept g h self.new.cache → Agrees h self.new.cache }
        ensures above { (self.new.cache.has_above ≡ self.old.cache.has_above) × ((self.new.cache.above ≡ self.old.cache.above)
            × (self.new.cache.base ≡ self.old.cache.base)) }
        ensures same { self.new.asked ≡ self.old.asked }
    {
        if !is_asked(self.root(), dir) {
            return 0;
        }
        self.cache.forget(dir)
    }
}
