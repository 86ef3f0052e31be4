//! The answers of a tree of files.
ghost use Rattle.std.specs.Prelude.{◌≡◌, ℕ, List, length, string_bytes, IfOk};
ghost use Rattle.ignore_files.specs.Kinds.{is_file, is_dir, is_symlink};

use ignore_base::Fault;
use std::alloc::{AllocError, AllocFailed, Global};
use std::marker::Model;
use std::{error, fmt};

/// Why a tree of files gives no answer.
#[derive(Clone, Copy, Debug, PartialEq, Eq)]
pub enum Refusal {
    /// The answer of the tree is this fault.
    Fault(Fault),
    /// Out of memory, whatever the answer of the tree is.
    Memory,
}

/// The text of its fault, or `out of memory`.
impl fmt::Display for Refusal {
    ghost use Rattle.std.specs.Prelude.{Some};
    ghost use Rattle.ignore_files.specs.Refusals.{refusal_text};

    ghost output = { λ refusal. Some (refusal_text refusal) };

    fn fmt<W: fmt::Write>(&self, f: &mut fmt::Formatter<W>) -> fmt::Result {
        match self {
            Refusal::Fault(fault) => write!(f, "{fault}"),
            Refusal::Memory => write!(f, "out of memory"),
        }
    }
}

impl error::Error for Refusal {}

impl From<Fault> for Refusal {
    ghost use Rattle.std.specs.Prelude.{◌≡◌};
    ghost use Rattle.ignore_files.specs.declared.types.Refusal.TheVariants.{Fault as Refused};

    ghost from_gives = { λ fault e. e ≡ Refused fault };

    fn from(fault: Fault) -> Refusal {
        Refusal::Fault(fault)
    }
}

impl From<AllocError> for Refusal {
    ghost use Rattle.std.specs.Prelude.{◌≡◌};
    ghost use Rattle.ignore_files.specs.declared.types.Refusal.TheVariants.{Memory};

    ghost from_gives = { λ _ e. e ≡ Memory };

    fn from(_error: AllocError) -> Refusal {
        Refusal::Memory
    }
}

impl<T: Drop> From<AllocFailed<T>> for Refusal {
    ghost use Rattle.std.specs.Prelude.{◌≡◌};
    ghost use Rattle.ignore_files.specs.declared.types.Refusal.TheVariants.{Memory};

    ghost from_gives = { λ _ e. e ≡ Memory };

    fn from(_error: AllocFailed<T>) -> Refusal {
        Refusal::Memory
    }
}

/// What a path leads to.
#[derive(Clone, Copy, Debug, PartialEq, Eq)]
pub enum FileType {
    /// A file that can be read.
    File,
    /// A directory.
    Dir,
    /// A symbolic link that wasn't followed.
    Symlink,
    /// Anything else: a pipe, a socket, a device.
    Other,
}

impl FileType {
    /// Whether it is a file.
    pub fn is_file(&self) -> bool
        ensures { result ≡ is_file self.now }
    {
        match self {
            FileType::File => true,
            FileType::Dir => false,
            FileType::Symlink => false,
            FileType::Other => false,
        }
    }

    /// Whether it is a directory.
    pub fn is_dir(&self) -> bool
        ensures { result ≡ is_dir self.now }
    {
        match self {
            FileType::Dir => true,
            FileType::File => false,
            FileType::Symlink => false,
            FileType::Other => false,
        }
    }

    /// Whether it is a symbolic link.
    pub fn is_symlink(&self) -> bool
        ensures { result ≡ is_symlink self.now }
    {
        match self {
            FileType::Symlink => true,
            FileType::File => false,
            FileType::Dir => false,
            FileType::Other => false,
        }
    }
}

/// What a tree reports of a path without reading it.
#[derive(Clone, Copy, Debug, PartialEq, Eq)]
pub struct Metadata {
    /// What it is.
    pub file_type: FileType,
    /// Its size in bytes.
    pub len: u64,
}

impl Metadata {
    /// What the path leads to.
    pub fn file_type(&self) -> FileType
        ensures { result ≡ self.now.file_type }
    {
        self.file_type
    }

    /// The size in bytes.
    pub fn len(&self) -> u64
        ensures { result ≡ self.now.len }
    {
        self.len
    }

    /// Whether it is of a file.
    pub fn is_file(&self) -> bool
        ensures { result ≡ is_file self.now.file_type }
    {
        self.file_type.is_file()
    }

    /// Whether it is of a directory.
    pub fn is_dir(&self) -> bool
        ensures { result ≡ is_dir self.now.file_type }
    {
        self.file_type.is_dir()
    }
}

/// The numbers by which a system distinguishes each file from every other.
#[derive(Clone, Copy, Debug, PartialEq, Eq)]
pub struct Identity {
    /// The device that holds it.
    pub device: u64,
    /// Its number on that device.
    pub inode: u64,
}

/// A text that contracts see as its bytes.
#[derive(Debug, Drop)]
pub struct Name {
    text: String,
}

impl Model for Name {
    ghost Value = { List ℕ };

    ghost view = { λ s. string_bytes s.text };
}

/// The name with this text. It allocates nothing.
impl From<String> for Name {
    ghost use Rattle.std.specs.Prelude.{◌≡◌, string_bytes};

    ghost from_gives = { λ text name. name ≡ string_bytes text };

    fn from(text: String) -> Name {
        Name::new(text)
    }
}

impl Name {
    /// The name with a copy of this text.
    pub fn from_str(alloc: Global, text: &str) -> Result<Name, AllocError>
        ensures { IfOk result (λ name. name ≡ text.now) }
    {
        Ok(Name::new(String::from_str(alloc, text)?))
    }

    /// The name with this text. It allocates nothing.
    pub fn new(text: String) -> Name
        ensures { result ≡ string_bytes text }
    {
        Name { text }
    }

    /// Its text.
    pub fn as_str(&self) -> &str
        ensures { result.now ≡ self.now }
    {
        self.text.as_str()
    }

    /// Its text, by value. It allocates nothing.
    /// For dependents.
    pub fn into_string(self) -> String
        ensures { string_bytes result ≡ self }
    {
        self.text
    }
}

/// One of the things that a directory lists.
#[derive(Debug, Drop)]
pub enum Listed {
    /// An entry: its name, and its kind with links not followed.
    Entry { name: Name, file_type: FileType },
    /// An entry for which the directory reports this fault in place of its name.
    Fault(Fault),
}

/// What a directory lists, in its order, which contracts see as a list.
#[derive(Debug, Drop)]
pub struct Listing {
    items: Vec<Listed>,
}

impl Model for Listing {
    ghost use Rattle.std.specs.Prelude.{List};
    ghost use Rattle.ignore_files.specs.declared.types.Listed.{Listed};

    ghost Value = { List Listed };

    ghost view = { λ s. s.items.items };
}

impl Listing {
    /// The listing of these things. It allocates nothing.
    pub fn new(items: Vec<Listed>) -> Listing
        ensures { result ≡ items.items }
    {
        Listing { items }
    }

    /// The things that are listed.
    pub fn as_slice(&self) -> &[Listed]
        ensures { result.now ≡ self.now }
    {
        self.items.as_slice()
    }

    /// How many things are listed.
    pub fn len(&self) -> usize
        ensures { result ≡ length self.now }
    {
        self.items.len()
    }

    /// The things that are listed, by value. It allocates nothing.
    /// For dependents.
    pub fn into_vec(self) -> Vec<Listed>
        ensures { result.items ≡ self }
    {
        self.items
    }
}

/// Bytes of a file, which contracts see as a list.
#[derive(Debug, Drop)]
pub struct Bytes {
    bytes: Vec<u8>,
}

impl Model for Bytes {
    ghost Value = { List ℕ };

    ghost view = { λ s. s.bytes.items };
}

impl Bytes {
    /// These bytes. It allocates nothing.
    pub fn new(bytes: Vec<u8>) -> Bytes
        ensures { result ≡ bytes.items }
    {
        Bytes { bytes }
    }

    /// The bytes.
    pub fn as_slice(&self) -> &[u8]
        ensures { result.now ≡ self.now }
    {
        self.bytes.as_slice()
    }

    /// The bytes, by value. It allocates nothing.
    /// For dependents.
    pub fn into_vec(self) -> Vec<u8>
        ensures { result.items ≡ self }
    {
        self.bytes
    }
}

/// What was read of a file: its bytes, or those before the fault that ended the reading.
#[derive(Debug, Drop)]
pub struct Contents {
    /// What was read.
    pub bytes: Bytes,
    /// The fault that ended the reading before the file's end, if any.
    pub fault: Option<Fault>,
}
