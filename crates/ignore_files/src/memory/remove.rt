//! Removing a node of a tree in memory, and writing a file anew.
ghost use Rattle.std.specs.Prelude.{◌≡◌, OnOk, OnErr};
ghost use Rattle.ignore_files.specs.Removed.{lister_of, is_under, unlisting, holding};
ghost use Rattle.ignore_files.specs.Memory.{child};

use crate::memory::MemoryTree;
use crate::memory::canonical_path::{child, file_place, folder_place};
use crate::memory::entry::Entry;
use crate::memory::node::{Kind, Node};
use crate::tree_error::TreeError;
use crate::types::Bytes;
use ignore_base::text::last_component;

/// Whether an entry has a name.
pub fn is_under(entry: &Entry, name: &str) -> bool
    ensures { result ≡ is_under name.now entry.now }
{
    match entry {
        Entry::Named { name: own, .. } => own.as_str() == name,
        Entry::Nameless => false,
    }
}

/// The place of the directory that lists a path.
fn lister_of(nodes: &[Node], path: &str) -> Result<usize, TreeError>
    ensures { result ≡ lister_of nodes.now path.now }
{
    let parent = folder_place(nodes, path)?;
    match child(nodes, parent, last_component(path)) {
        None => Err(TreeError::Missing),
        Some(_) => Ok(parent),
    }
}

impl Node {
    /// Lists nothing under this name any more, if this is a directory.
    pub fn unlist(&mut self, name: &str)
        ensures { self.new ≡ unlisting name.now self.old }
    {
        match &mut self.kind {
            Kind::Dir(entries) => entries.remove(name),
            Kind::File(_) => {}
            Kind::Link(_) => {}
        }
    }

    /// Has these bytes, if this is a file, and their number as its size.
    pub fn hold(&mut self, bytes: Vec<u8>)
        ensures { self.new ≡ holding bytes.items self.old }
    {
        self.len = bytes.len() as u64;
        match &mut self.kind {
            Kind::Dir(_) => {}
            Kind::File(old) => *old = Bytes::new(bytes),
            Kind::Link(_) => {}
        }
    }
}

impl MemoryTree {
    ghost use Rattle.std.specs.Prelude.{◌≡◌};
    ghost use Rattle.ignore_files.specs.Changes.{Leaves, LeavesIfRoom};
    ghost use Rattle.ignore_files.specs.Removed.{removed, file_written};

    /// Removes what is at a path, with all that is below it: nothing is there any more. A link is
    /// removed and not what it leads to. What was removed needs memory until the tree is dropped,
    /// and its directories still count in `dir_count`.
    ///
    /// # Errors
    /// `NotClean` as for `add_dir`; `NoParent` where what the path should be in isn't a directory of
    /// the tree; `Missing` where nothing is there, and for `/`, which stays.
    pub fn remove(&mut self, path: &str) -> Result<(), TreeError>
        ensures { Leaves (removed self.old path.now) result self.old self.new }
    {
        let parent = lister_of(&self.nodes, path)?;
        self.nodes[parent].unlist(last_component(path));
        Ok(())
    }

    /// Writes a file anew: it has these bytes, and their number as its size. Its identity stays, and
    /// so do the faults that were set for it.
    ///
    /// # Errors
    /// As `set_size`: `NotClean` or `Missing`; and else `Memory`. After an error the tree is as
    /// before.
    pub fn rewrite_file(&mut self, path: &str, bytes: &[u8]) -> Result<(), TreeError>
        ensures { LeavesIfRoom (file_written bytes.now self.old path.now) result self.old self.new }
    {
        let place = file_place(&self.nodes, path)?;
        let copy = Vec::from_slice(*self.nodes.allocator(), bytes)?;
        self.nodes[place].hold(copy);
        Ok(())
    }
}
