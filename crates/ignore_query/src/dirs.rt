//! What is kept of directories, by their keys.
ghost use Rattle.std.specs.Prelude.{◌≡◌};
ghost use Rattle.ignore_query.specs.Keys.{AreKeys};

use crate::forget::is_key_in;
use crate::kept::Kept;
use std::alloc::{AllocError, Global};
use std::collections::BTreeMap;

/// What is kept of directories. The key of one is its names below the root, each followed by `/`:
/// so one is at or below another where its key begins with the other's. There is no other key.
#[derive(Debug, Drop)]
pub struct Dirs {
    /// What is kept, by keys.
    pub map: BTreeMap<String, Kept>,
    pub ghost keys: { ∥ AreKeys map ∥₁ },
}

impl Dirs {
    ghost use Rattle.std.specs.Prelude.{◌+◌, ◌≤◌, ℕ, List, IfOk, IfErr, None, Some, true, filter, length, string_bytes, if◌then◌else◌};
    ghost use Rattle.std.specs.BTreeMap.{btree_map_len, get_by_text};
    ghost use Rattle.std.specs.Option.{option_copied};
    ghost use Rattle.std.specs.Str.{bytes_eq};
    ghost use Rattle.ignore_dir.specs.Query.{is_clean, names_of};
    ghost use Rattle.ignore_query.specs.Forget.{is_at_or_below, is_key_in};
    ghost use Rattle.ignore_query.specs.Keys.{IsKey, dirs_in};

    /// Nothing is kept. It allocates nothing.
    pub(crate) fn new(alloc: Global) -> Dirs
        ensures empty { (text : List ℕ) → get_by_text result.map text ≡ None }
    {
        Dirs {
            map: BTreeMap::new(alloc),
        }
    }

    /// What is kept of the directory with a key, if anything is. The greatest key is compared
    /// first, by its length and then its bytes: on the way down a chain it is that of the directory
    /// which was kept last, and a search by order would compare the names that all keys share once
    /// for each key it meets.
    pub(crate) fn get(&self, key: &str) -> Option<&Kept>
        ensures value { option_copied result ≡ get_by_text self.now.map key.now }
    {
        if let Some((greatest, kept)) = self.map.last_key_value() {
            if greatest.as_str() == key {
                return Some(kept);
            }
        }
        self.map.get(key)
    }

    /// Keeps this of the directory with a key.
    pub(crate) fn insert(&mut self, key: String, kept: Kept) -> Result<(), AllocError>
        requires named { IsKey (string_bytes key) }
        ensures added { (text : List ℕ) → IfOk result (λ _. get_by_text self.new.map text
            ≡ (if bytes_eq (string_bytes key) text then Some kept else get_by_text self.old.map text)) }
        ensures unchanged { (text : List ℕ) → IfErr result (λ _. get_by_text self.new.map text ≡ get_by_text self.old.map text) }
    {
        self.map.insert(key, kept)?;
        Ok(())
    }

    /// Drops what is kept of the directory at a clean path and of those below it.
    fn drop_from(&mut self, dir: &str)
        ensures looked { (text : List ℕ) → get_by_text self.new.map text
            ≡ (if is_key_in dir.now text then None else get_by_text self.old.map text) }
        ensures fewer { is_clean dir.now ≡ true → length (filter (is_at_or_below (names_of dir.now)) (dirs_in self.old.map))
            + btree_map_len self.new.map ≡ btree_map_len self.old.map }
        ensures bound { btree_map_len self.new.map ≤ btree_map_len self.old.map }
    {
        self.map.retain(|key: &String, _kept: &mut Kept| !is_key_in(dir, key.as_str()));
    }

    /// Drops what is kept of the directory at a clean path and of those below it, and returns how
    /// many there were.
    pub(crate) fn forget(&mut self, dir: &str) -> usize
        ensures looked { (text : List ℕ) → get_by_text self.new.map text
            ≡ (if is_key_in dir.now text then None else get_by_text self.old.map text) }
        ensures counted { is_clean dir.now ≡ true → result ≡ length (filter (is_at_or_below (names_of dir.now)) (dirs_in self.old.map)) }
        ensures left { result + btree_map_len self.new.map ≡ btree_map_len self.old.map }
    {
        let before = self.map.len();
        self.drop_from(dir);
        before - self.map.len()
    }
}
