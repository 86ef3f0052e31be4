//! The last entry at each depth of a walk.
ghost use Rattle.std.specs.Prelude.{◌≡◌, ◌<◌, ℕ, None, OnOk, option_map, length};
ghost use Rattle.ig_commands.specs.Folders.{entry_in, noted, last_in};

use ignore_walk::DirEntry;
use std::alloc::{AllocError, Global};

/// The last entry at each depth.
#[derive(Drop)]
pub(crate) struct Folders {
    /// The entries, each at the index of its depth.
    entries: Vec<Option<DirEntry>>,
}

impl Folders {
    /// No entry at any depth.
    pub(crate) fn new(alloc: Global) -> Folders
        ensures { (depth : ℕ) → last_in result depth ≡ None }
    {
        Folders {
            entries: Vec::new(alloc),
        }
    }

    /// The last entry at a depth, if there was one.
    pub(crate) fn get(&self, depth: usize) -> Option<&DirEntry>
        ensures { option_map (λ e. e.now) result ≡ entry_in self.now depth }
    {
        match self.entries.get(depth) {
            None => None,
            Some(entry) => entry.as_ref(),
        }
    }

    /// Notes an entry as the last one at its depth.
    pub(crate) fn note(&mut self, entry: DirEntry) -> Result<(), AllocError>
        ensures { OnOk result ((depth : ℕ) → entry_in self.new depth ≡ noted entry depth (entry_in self.old depth)) }
    {
        let depth = entry.depth();
        if self.entries.len() <= depth {
            self.grow(depth)?;
        }
        self.entries[depth] = Some(entry);
        Ok(())
    }

    /// Makes room for an entry at a depth.
    fn grow(&mut self, depth: usize) -> Result<(), AllocError>
        ensures same { OnOk result ((d : ℕ) → entry_in self.new d ≡ entry_in self.old d) }
        ensures room { OnOk result (depth < length self.new.entries.items) }
    {
        while self.entries.len() <= depth {
            self.entries.push(None)?;
        }
        Ok(())
    }
}
