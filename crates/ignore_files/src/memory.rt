//! A tree of files that is all in memory.
ghost use Rattle.std.specs.Prelude.{◌≡◌};
ghost use Rattle.ignore_files.specs.Answers.{tree_of};
ghost use Rattle.ignore_files.specs.Dirs.{IsNumbered};
ghost use Rattle.ignore_files.specs.Memory.{dir_count};
ghost use Rattle.ignore_files.specs.Changes.{made, MakesIfRoom, Leaves, LeavesIfRoom, dir_added, file_added, link_added, nameless_added};
ghost use Rattle.ignore_files.specs.Changes.{size_set, identity_set, stat_faulted, list_faulted, contents_cut};

mod add;
mod answers;
mod canonical_path;
mod directory;
mod entry;
mod node;
mod remove;
mod resolve;

use crate::memory::add::add_node;
use crate::memory::canonical_path::{
    any_place, count_dirs, dir_place, file_place, is_canonical_path, parent_for,
};
use crate::memory::directory::Directory;
use crate::memory::node::{Cut, Kind, Node};
use crate::tree_error::TreeError;
use crate::types::{Bytes, Identity, Name};
use ignore_base::Fault;
use std::alloc::Global;
use std::marker::Model;

/// A tree of files in memory, for tests and examples.
///
/// The calls that build it go by canonical paths: `/`, or `/` and names joined by single slashes.
/// These paths pass through no links. Queries, through `Files`, go by the usual rules: links are
/// followed, `..` leads to the directory above, and a relative path begins at the working
/// directory.
#[derive(Debug, Drop)]
pub struct MemoryTree {
    cwd: Name,
    nodes: Vec<Node>,
}

impl Model for MemoryTree {
    ghost use Rattle.ignore_files.specs.Grown.{IsGrown};
    ghost use Rattle.ignore_files.specs.Memory.{Memory};

    ghost Value = { Memory };

    ghost view = { λ t. record { cwd = t.cwd; nodes = t.nodes.items } };

    ghost invariant = { λ t. IsGrown t.nodes.items };
}

impl MemoryTree {
    /// The tree with the directory `/` alone, and this working directory, which needn't exist.
    ///
    /// # Errors
    /// `NotClean` where `cwd` isn't a canonical path; `Memory`.
    pub fn new(alloc: Global, cwd: &str) -> Result<MemoryTree, TreeError>
        ensures { MakesIfRoom (made cwd.now) result }
    {
        if !is_canonical_path(cwd) {
            return Err(TreeError::NotClean);
        }
        let cwd = Name::new(String::from_str(alloc, cwd)?);
        let path = Name::new(String::from_str(alloc, "/")?);
        let mut nodes = Vec::new(alloc);
        nodes.push(Node::new(0, 0, path, Kind::Dir(Directory::new(alloc)), 0))?;
        Ok(MemoryTree { cwd, nodes })
    }

    /// Adds an empty directory.
    ///
    /// # Errors
    /// `NotClean` where the path isn't canonical; `NoParent` where what it should be in isn't a
    /// directory of the tree; `Exists` where something is there already, as `/` always is; and else
    /// `Memory`. After an error the tree is as before.
    pub fn add_dir(&mut self, path: &str) -> Result<(), TreeError>
        ensures { LeavesIfRoom (dir_added self.old path.now) result self.old self.new }
    {
        let parent = parent_for(&self.nodes, path)?;
        let alloc = *self.nodes.allocator();
        add_node(
            &mut self.nodes,
            parent,
            path,
            Kind::Dir(Directory::new(alloc)),
            0,
        )
    }

    /// Adds a file with these bytes.
    ///
    /// # Errors
    /// As `add_dir`: `NotClean`, `NoParent`, `Exists` or `Memory`. After an error the tree is as
    /// before.
    pub fn add_file(&mut self, path: &str, bytes: &[u8]) -> Result<(), TreeError>
        ensures { LeavesIfRoom (file_added bytes.now self.old path.now) result self.old self.new }
    {
        let parent = parent_for(&self.nodes, path)?;
        let copy = Vec::from_slice(*self.nodes.allocator(), bytes)?;
        add_node(
            &mut self.nodes,
            parent,
            path,
            Kind::File(Bytes::new(copy)),
            bytes.len() as u64,
        )
    }

    /// Adds a link, whose target needn't exist.
    ///
    /// # Errors
    /// As `add_dir`: `NotClean`, `NoParent`, `Exists` or `Memory`. After an error the tree is as
    /// before.
    pub fn add_link(&mut self, path: &str, target: &str) -> Result<(), TreeError>
        ensures { LeavesIfRoom (link_added target.now self.old path.now) result self.old self.new }
    {
        let parent = parent_for(&self.nodes, path)?;
        let copy = String::from_str(*self.nodes.allocator(), target)?;
        add_node(
            &mut self.nodes,
            parent,
            path,
            Kind::Link(Name::new(copy)),
            target.len() as u64,
        )
    }

    /// Adds an entry with an invalid name to a directory: its listing has the fault `BadName`
    /// there. The entry is no node, and has no inode.
    ///
    /// # Errors
    /// `NotClean` as for `add_dir`; `Missing` where no directory is at the path; and else `Memory`.
    /// After an error the tree is as before.
    pub fn add_nameless(&mut self, dir: &str) -> Result<(), TreeError>
        ensures { LeavesIfRoom (nameless_added self.old dir.now) result self.old self.new }
    {
        let place = dir_place(&self.nodes, dir)?;
        self.nodes[place].list_nameless()?;
        Ok(())
    }

    /// Sets the size in bytes that is reported for a file.
    ///
    /// # Errors
    /// `NotClean` as for `add_dir`; `Missing` where no file is at the path.
    pub fn set_size(&mut self, path: &str, size: u64) -> Result<(), TreeError>
        ensures { Leaves (size_set size self.old path.now) result self.old self.new }
    {
        let place = file_place(&self.nodes, path)?;
        self.nodes[place].len = size;
        Ok(())
    }

    /// Sets the identity that is reported for a node, `None` for one that is unknown.
    ///
    /// # Errors
    /// `NotClean` as for `add_dir`; `Missing` where nothing is at the path.
    pub fn set_identity(&mut self, path: &str, identity: Option<Identity>) -> Result<(), TreeError>
        ensures { Leaves (identity_set identity self.old path.now) result self.old self.new }
    {
        let place = any_place(&self.nodes, path)?;
        self.nodes[place].identity = identity;
        Ok(())
    }

    /// Has `stat`, and no other call, return a fault for a node. Errors as of `set_identity`.
    pub fn fault_stat(&mut self, path: &str, fault: Fault) -> Result<(), TreeError>
        ensures { Leaves (stat_faulted fault self.old path.now) result self.old self.new }
    {
        let place = any_place(&self.nodes, path)?;
        self.nodes[place].stat_fault = Some(fault);
        Ok(())
    }

    /// Has `list`, and no other call, return a fault for a directory. Errors are `NotClean` and
    /// `Missing`, as of `add_nameless`.
    pub fn fault_list(&mut self, path: &str, fault: Fault) -> Result<(), TreeError>
        ensures { Leaves (list_faulted fault self.old path.now) result self.old self.new }
    {
        let place = dir_place(&self.nodes, path)?;
        self.nodes[place].list_fault = Some(fault);
        Ok(())
    }

    /// Ends the reading of a file by a fault after its first `len` bytes (after all of them
    /// where it has fewer). Errors as of `set_size`.
    pub fn cut_contents(&mut self, path: &str, len: usize, fault: Fault) -> Result<(), TreeError>
        ensures { Leaves (contents_cut len fault self.old path.now) result self.old self.new }
    {
        let place = file_place(&self.nodes, path)?;
        self.nodes[place].cut = Some(Cut { len, fault });
        Ok(())
    }

    /// How many directories there are, `/` among them, and those that were removed.
    /// For dependents.
    pub fn dir_count(&self) -> usize
        ensures { result ≡ dir_count self.now }
    {
        count_dirs(&self.nodes)
    }

    /// Its directories can be numbered below `dir_count`, so that a listed one has a greater number
    /// than the one that lists it. (A law: the call does nothing.)
    pub fn is_numbered(&self)
        ensures { IsNumbered (tree_of self.now) (dir_count self.now) }
    {
        let _nodes = &self.nodes;
    }
}
