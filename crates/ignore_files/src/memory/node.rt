//! A node of a tree in memory.

use crate::memory::directory::Directory;
use crate::types::{Bytes, FileType, Identity, Name};
use ignore_base::Fault;
use std::alloc::AllocError;

/// What a node is.
#[derive(Debug, Drop)]
pub enum Kind {
    /// A directory, with its entries.
    Dir(Directory),
    /// A file, with its bytes.
    File(Bytes),
    /// A link, with its target.
    Link(Name),
}

/// Where the reading of a file ends, and by which fault.
#[derive(Clone, Copy, Debug, PartialEq, Eq)]
pub struct Cut {
    /// How many bytes are read before.
    pub len: usize,
    /// The fault.
    pub fault: Fault,
}

/// A node: the directory that it is in, its canonical path, and the answers of calls for it.
#[derive(Debug, Drop)]
pub struct Node {
    /// The place of the directory that it is in; `/` is in itself.
    pub parent: usize,
    /// Its canonical path.
    pub path: Name,
    /// What it is.
    pub kind: Kind,
    /// The size in bytes that is reported.
    pub len: u64,
    /// The identity that is reported, if it is known.
    pub identity: Option<Identity>,
    /// The fault that `stat` returns, if one was set.
    pub stat_fault: Option<Fault>,
    /// The fault that `list` returns, if one was set.
    pub list_fault: Option<Fault>,
    /// Where reading ends by a fault, if one was set.
    pub cut: Option<Cut>,
}

impl Kind {
    ghost use Rattle.std.specs.Prelude.{◌≡◌};
    ghost use Rattle.ignore_files.specs.Memory.{is_directory, is_file_node};
    ghost use Rattle.ignore_files.specs.Answers.{file_type_of};

    /// Whether it is a directory.
    pub fn is_dir(&self) -> bool
        ensures { result ≡ is_directory self.now }
    {
        match self {
            Kind::Dir(_) => true,
            Kind::File(_) => false,
            Kind::Link(_) => false,
        }
    }

    /// Whether it is a file.
    pub fn is_file(&self) -> bool
        ensures { result ≡ is_file_node self.now }
    {
        match self {
            Kind::Dir(_) => false,
            Kind::File(_) => true,
            Kind::Link(_) => false,
        }
    }

    /// The kind as a tree reports it.
    pub fn file_type(&self) -> FileType
        ensures { result ≡ file_type_of self.now }
    {
        match self {
            Kind::Dir(_) => FileType::Dir,
            Kind::File(_) => FileType::File,
            Kind::Link(_) => FileType::Symlink,
        }
    }
}

impl Node {
    ghost use Rattle.std.specs.Prelude.{◌≡◌, ◌<◌, ◌^◌, None, OnOk, OnErr};
    ghost use Rattle.ignore_files.specs.Memory.{new_node, entry_under};
    ghost use Rattle.ignore_files.specs.Changes.{listing_too};
    ghost use Rattle.ignore_files.specs.declared.memory.entry.Entry.TheVariants.{Named, Nameless};

    /// The node as it is added: its inode is its number in the order of adding.
    pub fn new(place: usize, parent: usize, path: Name, kind: Kind, len: u64) -> Node
        requires { place < 2 ^ 63 }
        ensures { result ≡ new_node place parent path kind len }
    {
        Node {
            parent,
            path,
            kind,
            len,
            identity: Some(Identity {
                device: 1,
                inode: place as u64 + 1,
            }),
            stat_fault: None,
            list_fault: None,
            cut: None,
        }
    }

    /// Lists a node too, if this is a directory. After an `Err` nothing has changed.
    pub fn list_named(
        &mut self,
        name: Name,
        file_type: FileType,
        node: usize,
    ) -> Result<(), AllocError>
        requires { entry_under name self.old.kind ≡ None }
        ensures added { OnOk result (self.new ≡ listing_too (Named name file_type node) self.old) }
        ensures unchanged { OnErr result (self.new ≡ self.old) }
    {
        match &mut self.kind {
            Kind::Dir(entries) => entries.push(name, file_type, node),
            Kind::File(_) => Ok(()),
            Kind::Link(_) => Ok(()),
        }
    }

    /// Lists something without a name too, if this is a directory. After an `Err` nothing has
    /// changed.
    pub fn list_nameless(&mut self) -> Result<(), AllocError>
        ensures added { OnOk result (self.new ≡ listing_too Nameless self.old) }
        ensures unchanged { OnErr result (self.new ≡ self.old) }
    {
        match &mut self.kind {
            Kind::Dir(entries) => entries.push_nameless(),
            Kind::File(_) => Ok(()),
            Kind::Link(_) => Ok(()),
        }
    }
}
