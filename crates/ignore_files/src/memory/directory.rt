//! A directory in memory: its entries in the order of adding, found by name in a map.

use crate::memory::entry::Entry;
use crate::memory::remove::is_under;
use crate::types::{FileType, Name};
use std::alloc::{AllocError, Global};
use std::collections::BTreeMap;
use std::marker::Model;

/// The entries of a directory, which contracts see as a list.
#[derive(Debug, Drop)]
pub struct Directory {
    entries: Vec<Entry>,
    by_name: BTreeMap<String, usize>,
}

impl Model for Directory {
    ghost use Rattle.std.specs.Prelude.{List, ◌≡◌};
    ghost use Rattle.std.specs.BTreeMap.{get_by_text};
    ghost use Rattle.ignore_base.specs.Text.{Bytes};
    ghost use Rattle.ignore_files.specs.declared.memory.entry.Entry.{Entry};
    ghost use Rattle.ignore_files.specs.Entries.{node_named};

    ghost Value = { List Entry };

    ghost view = { λ d. d.entries.items };

    ghost invariant = { λ d. (name : Bytes) → get_by_text d.by_name name ≡ node_named name d.entries.items };
}

impl Directory {
    ghost use Rattle.std.specs.Prelude.{◌≡◌, [], ◌∷◌, ◌++◌, None, OnOk, OnErr};
    ghost use Rattle.ignore_files.specs.declared.memory.entry.Entry.TheVariants.{Named, Nameless};
    ghost use Rattle.ignore_files.specs.Entries.{node_named};
    ghost use Rattle.ignore_files.specs.Removed.{without};

    /// An empty directory. It allocates nothing.
    pub fn new(alloc: Global) -> Directory
        ensures { result ≡ [] }
    {
        Directory {
            entries: Vec::new(alloc),
            by_name: BTreeMap::new(alloc),
        }
    }

    /// The node under this name.
    pub fn get(&self, name: &str) -> Option<usize>
        ensures { result ≡ node_named name.now self.now }
    {
        self.by_name.get(name).copied()
    }

    /// What it lists.
    pub fn as_slice(&self) -> &[Entry]
        ensures { result.now ≡ self.now }
    {
        self.entries.as_slice()
    }

    /// Adds a node under a name that isn't there. After an `Err` nothing has changed.
    pub fn push(&mut self, name: Name, file_type: FileType, node: usize) -> Result<(), AllocError>
        requires { node_named name self.old ≡ None }
        ensures added { OnOk result (self.new ≡ self.old ++ Named name file_type node ∷ []) }
        ensures unchanged { OnErr result (self.new ≡ self.old) }
    {
        let key = String::from_str(*self.entries.allocator(), name.as_str())?;
        self.entries.push(Entry::Named {
            name,
            file_type,
            node,
        })?;
        match self.by_name.insert(key, node) {
            Ok(_) => Ok(()),
            Err(_) => {
                let _ = self.entries.pop();
                Err(AllocError)
            }
        }
    }

    /// Adds something that has no name. After an `Err` nothing has changed.
    pub fn push_nameless(&mut self) -> Result<(), AllocError>
        ensures added { OnOk result (self.new ≡ self.old ++ Nameless ∷ []) }
        ensures unchanged { OnErr result (self.new ≡ self.old) }
    {
        self.entries.push(Entry::Nameless)?;
        Ok(())
    }

    /// Removes what is under a name.
    pub fn remove(&mut self, name: &str)
        ensures { self.new ≡ without name.now self.old }
    {
        self.entries.retain(|entry: &Entry| !is_under(entry, name));
        self.by_name.remove(name);
    }
}
