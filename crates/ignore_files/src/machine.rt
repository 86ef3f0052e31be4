//! The questions that are put to a system about its files.
ghost use Rattle.std.specs.Prelude.{string_bytes, IfOk, MatchResult, Ok, Err};
ghost use Rattle.std.specs.Path.{path_buf_bytes};
ghost use Rattle.std.specs.Iterator.{IsFinite};
ghost use Rattle.std.specs.Io.{StartsWith, appended_bytes};

use crate::entries::{RuntimeEntries, RuntimeEntry};
use crate::records::entries_of;
use std::alloc::{AllocError, Global};
use std::io::Read;
use std::os::unix::fs::MetadataExt;
use std::path::PathBuf;
use std::{fs, io, rt};

/// What a system is asked about its files, in the terms of std, and what it may answer.
pub trait Machine {
    ghost use Rattle.std.specs.Prelude.{ℕ, Result, IsTrue, ⊤};
    ghost use Rattle.ignore_files.specs.Heard.{AreReported, HasWhole};
    ghost use Rattle.std.specs.declared.io.Error.{Error};
    ghost use Rattle.std.specs.declared.fs.FileType.{FileType};
    ghost use Rattle.ignore_base.specs.Text.{Bytes, Path};

    /// What is said of a path.
    type Metadata: Drop;

    /// One of the things in a directory.
    type Entry: Drop;

    /// An opened directory, which gives its entries one by one.
    type Dir: Iterator<Item = io::Result<Self::Entry>> + Drop;

    /// An opened file.
    type File: Drop;

    ghost metadata_gives: { Self → Path → Result Self.Metadata Error → Type 0 } = { λ _ _ _. ⊤ };

    ghost symlink_metadata_gives: { Self → Path → Result Self.Metadata Error → Type 0 } = { λ _ _ _. ⊤ };

    ghost file_type_gives: { Self.Metadata → FileType → Type 0 } = { λ _ _. ⊤ };

    ghost len_gives: { Self.Metadata → ℕ → Type 0 } = { λ _ _. ⊤ };

    ghost dev_gives: { Self.Metadata → ℕ → Type 0 } = { λ _ _. ⊤ };

    ghost ino_gives: { Self.Metadata → ℕ → Type 0 } = { λ _ _. ⊤ };

    ghost read_dir_gives: { Self → Path → Result Self.Dir Error → Type 0 } = { λ _ _ _. ⊤ };

    ghost file_name_gives: { Self.Entry → Bytes → Type 0 } = { λ _ _. ⊤ };

    ghost entry_type_gives: { Self.Entry → Result FileType Error → Type 0 } = { λ _ _. ⊤ };

    ghost open_gives: { Self → Path → Result Self.File Error → Type 0 } = { λ _ _ _. ⊤ };

    ghost read_gives: { Self.File → Bytes → Result ℕ Error → Type 0 } = { λ _ _ _. ⊤ };

    ghost canonicalize_gives: { Self → Path → Result Path Error → Type 0 } = { λ _ _ _. ⊤ };

    /// What is said of what the path leads to, links followed.
    fn metadata(&self, path: &str) -> io::Result<Self::Metadata>
        ensures { metadata_gives self.now path.now result };

    /// What is said of what the path leads to, a link in last place not followed.
    fn symlink_metadata(&self, path: &str) -> io::Result<Self::Metadata>
        ensures { symlink_metadata_gives self.now path.now result };

    /// The type of what an answer is about.
    fn file_type(metadata: &Self::Metadata) -> fs::FileType
        ensures { file_type_gives metadata.now result };

    /// The size of what an answer is about, in bytes.
    fn len(metadata: &Self::Metadata) -> u64
        ensures { len_gives metadata.now result };

    /// The number of the device that holds what an answer is about.
    fn dev(metadata: &Self::Metadata) -> u64
        ensures { dev_gives metadata.now result };

    /// The number on that device of what an answer is about.
    fn ino(metadata: &Self::Metadata) -> u64
        ensures { ino_gives metadata.now result };

    /// Opens the directory at the path.
    fn read_dir(&self, path: &str) -> io::Result<Self::Dir>
        ensures answer { read_dir_gives self.now path.now result }
        ensures callable { IfOk result (λ dir. Self.Dir.can_next dir) }
        ensures ends { IfOk result (λ dir. IsFinite (Self.Dir.remaining dir)) };

    /// The name of an entry.
    fn file_name<'e>(entry: &'e Self::Entry) -> &'e str
        ensures { file_name_gives entry.now result.now };

    /// The name of an entry, by value.
    fn into_name(alloc: Global, entry: Self::Entry) -> Result<String, AllocError>
        ensures { IfOk result (λ name. file_name_gives entry (string_bytes name)) }
    {
        String::from_str(alloc, Self::file_name(&entry))
    }

    /// The type of an entry, a link not followed.
    fn entry_type(entry: &Self::Entry) -> io::Result<fs::FileType>
        ensures { entry_type_gives entry.now result };

    /// Opens the file at the path.
    fn open(&self, path: &str) -> io::Result<Self::File>
        ensures { open_gives self.now path.now result };

    /// Appends what the file has, up to its end or an error.
    fn read_to_end(file: &mut Self::File, buf: &mut Vec<u8>) -> io::Result<usize>
        ensures appends { StartsWith buf.new.items buf.old.items }
        ensures answer { read_gives file.old (appended_bytes buf.old.items buf.new.items) result };

    /// The one path from `/`, without links, to what the path leads to.
    fn canonicalize(&self, path: &str) -> io::Result<PathBuf>
        ensures { MatchResult result
            (λ found. canonicalize_gives self.now path.now (Ok (path_buf_bytes found)))
            (λ error. canonicalize_gives self.now path.now (Err error)) };

    /// Whether its listings are known to be whole, as `Files` has it.
    fn listings_are_whole(&self) -> bool
        ensures { IsTrue result → HasWhole (metadata_gives self.now) (read_dir_gives self.now)
            Self.Dir.next_gives (AreReported file_name_gives entry_type_gives) }
    {
        false
    }
}

impl<R> Machine for R
where
    R: rt::Files + Clone + Drop + AllocGlobal,
{
    type Metadata = fs::Metadata;

    type Entry = RuntimeEntry;

    type Dir = RuntimeEntries;

    type File = R::File;

    fn metadata(&self, path: &str) -> io::Result<fs::Metadata> {
        fs::metadata(self, path)
    }

    fn symlink_metadata(&self, path: &str) -> io::Result<fs::Metadata> {
        fs::symlink_metadata(self, path)
    }

    fn file_type(metadata: &fs::Metadata) -> fs::FileType {
        metadata.file_type()
    }

    fn len(metadata: &fs::Metadata) -> u64 {
        metadata.len()
    }

    fn dev(metadata: &fs::Metadata) -> u64 {
        metadata.dev()
    }

    fn ino(metadata: &fs::Metadata) -> u64 {
        metadata.ino()
    }

    fn read_dir(&self, path: &str) -> io::Result<RuntimeEntries> {
        entries_of(self.alloc(), self, path)
    }

    fn file_name<'e>(entry: &'e RuntimeEntry) -> &'e str {
        entry.name.as_str()
    }

    fn into_name(_alloc: Global, entry: RuntimeEntry) -> Result<String, AllocError> {
        Ok(entry.name)
    }

    fn entry_type(entry: &RuntimeEntry) -> io::Result<fs::FileType> {
        match entry.file_type {
            Some(file_type) => Ok(file_type),
            None => Err(io::Error::from(io::ErrorKind::NotFound)),
        }
    }

    fn open(&self, path: &str) -> io::Result<R::File> {
        fs::open(self, path)
    }

    fn read_to_end(file: &mut R::File, buf: &mut Vec<u8>) -> io::Result<usize> {
        file.read_to_end(buf)
    }

    fn canonicalize(&self, path: &str) -> io::Result<PathBuf> {
        fs::canonicalize(self, path)
    }

    /// That they are is assumed, as that such a runtime answers truly: std states nothing of its
    /// answers, so what is proved here is of no disk.
    fn listings_are_whole(&self) -> bool {
        true
    }
}
