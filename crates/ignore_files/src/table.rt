//! A machine by a table of files, for tests and examples.
ghost use Rattle.std.specs.Prelude.{◌≡◌, IfOk, map};
ghost use Rattle.ignore_files.specs.Reported.{IsReportedAs};
ghost use Rattle.ignore_files.specs.Table.{stat_of, file_type_of, len_of, target_of, told, given};

use crate::machine::Machine;
use crate::stat::Stat;
use crate::types::{Bytes, FileType, Identity, Metadata, Name};
use std::alloc::{AllocError, Global};
use std::collections::BTreeMap;
use std::path::PathBuf;
use std::vec::IntoIter;
use std::{fs, io};

/// An entry of a directory of a table.
#[derive(Drop)]
pub struct RowEntry {
    /// Its name.
    pub name: Name,
    /// Its kind, a link not followed. `Other` is reported as `File`: std makes no type for it.
    pub file_type: FileType,
}

/// What is at a path of a table.
#[derive(Drop)]
pub enum RowKind {
    /// A file with these bytes.
    File(Bytes),
    /// A directory that lists these entries, whether the table has rows for them or not.
    Dir(Vec<RowEntry>),
    /// A symbolic link to this path of the table.
    Link(Name),
}

/// A row of a table.
#[derive(Drop)]
pub struct Row {
    /// What is there.
    pub kind: RowKind,
    /// The numbers by which the machine identifies it.
    pub identity: Identity,
}

/// A machine that has the rows of a table, each at one path, and nothing else.
///
/// A path is looked up as it is written. A link as its last component is followed to the row at
/// its target, which is no link itself (that is an error, one of too many links); a link before it
/// leads nowhere.
#[derive(Drop)]
pub struct TableMachine {
    alloc: Global,
    rows: BTreeMap<String, Row>,
}

/// Why nothing is found at a path.
#[derive(Clone, Copy)]
enum Miss {
    /// No row is there.
    NotFound,
    /// A directory is asked for, and it is none.
    NotADirectory,
    /// A file is asked for, and it is none.
    IsADirectory,
    /// A link leads to a link.
    LinkLimit,
}

impl From<Miss> for io::Error {
    ghost use Rattle.std.specs.Prelude.{◌≡◌};
    ghost use Rattle.ignore_files.specs.Reported.{reported_error};
    ghost use Rattle.ignore_files.specs.Table.{fault_of};
    ghost use Rattle.ignore_files.specs.declared.types.Refusal.TheVariants.{Fault as Refused};

    ghost from_gives = { λ miss error. reported_error error ≡ Refused (fault_of miss) };

    fn from(miss: Miss) -> io::Error {
        match miss {
            Miss::NotFound => io::Error::from(io::ErrorKind::NotFound),
            Miss::NotADirectory => io::Error::from(io::ErrorKind::NotADirectory),
            Miss::IsADirectory => io::Error::from(io::ErrorKind::IsADirectory),
            Miss::LinkLimit => io::Error::from(io::ErrorKind::FilesystemLoop),
        }
    }
}

impl RowKind {
    /// The kind as the machine reports it.
    fn file_type(&self) -> FileType
        ensures { result ≡ file_type_of self.now }
    {
        match self {
            RowKind::File(_) => FileType::File,
            RowKind::Dir(_) => FileType::Dir,
            RowKind::Link(_) => FileType::Symlink,
        }
    }

    /// The size in bytes: of a file, or of the target of a link.
    fn len(&self) -> u64
        ensures { result ≡ len_of self.now }
    {
        match self {
            RowKind::File(bytes) => bytes.as_slice().len() as u64,
            RowKind::Dir(_) => 0,
            RowKind::Link(target) => target.as_str().len() as u64,
        }
    }

    /// Where it leads, if it is at this path.
    fn target<'t>(&'t self, path: &'t str) -> &'t str
        ensures { result.now ≡ target_of path.now self.now }
    {
        match self {
            RowKind::File(_) => path,
            RowKind::Dir(_) => path,
            RowKind::Link(target) => target.as_str(),
        }
    }
}

impl TableMachine {
    ghost use Rattle.std.specs.Prelude.{◌≡◌, IfOk, MatchResult, Ok, Err};
    ghost use Rattle.ignore_files.specs.Table.{row_at, end_of, followed, disk_of};
    ghost use Rattle.ignore_files.specs.Machine.{IsTruthful};

    /// The machine with these files.
    pub fn new(alloc: Global, rows: BTreeMap<String, Row>) -> TableMachine
        ensures { result.rows ≡ rows }
    {
        TableMachine { alloc, rows }
    }

    /// It answers truly from the disk of its rows.
    pub fn is_truthful(&self)
        ensures { IsTruthful ⟦<TableMachine as Machine>⟧
            ⟦<IntoIter<io::Result<RowEntry>, Global> as Iterator>⟧.next_gives self.now (disk_of self.now) }
    {}

    /// The row at a path.
    fn row(&self, path: &str) -> Result<&Row, Miss>
        ensures { MatchResult result (λ row. row_at self.now path.now ≡ Ok row.now) (λ miss. row_at self.now path.now ≡ Err miss) }
    {
        match self.rows.get(path) {
            Some(row) => Ok(row),
            None => Err(Miss::NotFound),
        }
    }

    /// Where a path leads, a link followed.
    fn end_of<'t>(&'t self, path: &'t str) -> &'t str
        ensures { result.now ≡ end_of self.now path.now }
    {
        match self.rows.get(path) {
            Some(row) => row.kind.target(path),
            None => path,
        }
    }

    /// The row to which a path leads, one link followed.
    fn followed(&self, path: &str) -> Result<&Row, Miss>
        ensures { MatchResult result (λ row. followed self.now path.now ≡ Ok row.now) (λ miss. followed self.now path.now ≡ Err miss) }
    {
        let row = self.row(self.end_of(path))?;
        match row.kind {
            RowKind::File(_) => Ok(row),
            RowKind::Dir(_) => Ok(row),
            RowKind::Link(_) => Err(Miss::LinkLimit),
        }
    }
}

impl Machine for TableMachine {
    ghost use Rattle.std.specs.Prelude.{◌≡◌, true, false, IsOkAnd};
    ghost use Rattle.ignore_files.specs.Reported.{IsReportedAs};
    ghost use Rattle.ignore_files.specs.Table.{row_at, asked, followed, end_of, entries_at, bytes_at, stat_of, told, Finds, GivesEntries};
    ghost use Rattle.ignore_files.specs.Table.{ReadsWhole};

    type Metadata = Stat;

    type Entry = RowEntry;

    type Dir = IntoIter<io::Result<RowEntry>, Global>;

    type File = Bytes;

    ghost metadata_gives = { λ table path r. Finds (λ row stat. stat ≡ stat_of row) (asked table path true) r };

    ghost symlink_metadata_gives = { λ table path r. Finds (λ row stat. stat ≡ stat_of row) (asked table path false) r };

    ghost file_type_gives = { λ stat t. IsReportedAs t (told stat.metadata.file_type) };

    ghost len_gives = { λ stat n. n ≡ stat.metadata.len };

    ghost dev_gives = { λ stat n. n ≡ stat.identity.device };

    ghost ino_gives = { λ stat n. n ≡ stat.identity.inode };

    ghost read_dir_gives = { λ table path r. Finds GivesEntries (entries_at table path) r };

    ghost file_name_gives = { λ entry name. name ≡ entry.name };

    ghost entry_type_gives = { λ entry r. IsOkAnd r (λ t. IsReportedAs t (told entry.file_type)) };

    ghost open_gives = { λ table path r. Finds (λ bytes file. file ≡ bytes) (bytes_at table path) r };

    ghost read_gives = { λ file bytes r. ReadsWhole file bytes r };

    ghost canonicalize_gives = { λ table path r. Finds (λ _ found. found ≡ end_of table path) (followed table path) r };

    fn metadata(&self, path: &str) -> io::Result<Stat> {
        Ok(stat_of(self.followed(path)?))
    }

    fn symlink_metadata(&self, path: &str) -> io::Result<Stat> {
        Ok(stat_of(self.row(path)?))
    }

    fn file_type(metadata: &Stat) -> fs::FileType {
        type_of(metadata.metadata.file_type)
    }

    fn len(metadata: &Stat) -> u64 {
        metadata.metadata.len
    }

    fn dev(metadata: &Stat) -> u64 {
        metadata.identity.device
    }

    fn ino(metadata: &Stat) -> u64 {
        metadata.identity.inode
    }

    fn read_dir(&self, path: &str) -> io::Result<IntoIter<io::Result<RowEntry>, Global>> {
        match &self.followed(path)?.kind {
            RowKind::Dir(entries) => Ok(given(self.alloc, entries.as_slice())?.into_iter()),
            RowKind::File(_) => Err(io::Error::from(Miss::NotADirectory)),
            RowKind::Link(_) => Err(io::Error::from(Miss::NotADirectory)),
        }
    }

    fn file_name<'e>(entry: &'e RowEntry) -> &'e str {
        entry.name.as_str()
    }

    fn entry_type(entry: &RowEntry) -> io::Result<fs::FileType> {
        Ok(type_of(entry.file_type))
    }

    fn open(&self, path: &str) -> io::Result<Bytes> {
        match &self.followed(path)?.kind {
            RowKind::File(bytes) => Ok(Bytes::new(Vec::from_slice(self.alloc, bytes.as_slice())?)),
            RowKind::Dir(_) => Err(io::Error::from(Miss::IsADirectory)),
            RowKind::Link(_) => Err(io::Error::from(Miss::IsADirectory)),
        }
    }

    fn read_to_end(file: &mut Bytes, buf: &mut Vec<u8>) -> io::Result<usize> {
        match buf.extend_from_slice(file.as_slice()) {
            Ok(()) => Ok(file.as_slice().len()),
            Err(_) => Err(io::Error::from(io::ErrorKind::OutOfMemory)),
        }
    }

    fn canonicalize(&self, path: &str) -> io::Result<PathBuf> {
        self.followed(path)?;
        Ok(PathBuf::from_str(self.alloc, self.end_of(path))?)
    }
}

/// What is said of a row.
fn stat_of(row: &Row) -> Stat
    ensures { result ≡ stat_of row.now }
{
    Stat {
        metadata: Metadata {
            file_type: row.kind.file_type(),
            len: row.kind.len(),
        },
        identity: row.identity,
    }
}

/// The type of std for a kind.
fn type_of(kind: FileType) -> fs::FileType
    ensures { IsReportedAs result (told kind) }
{
    match kind {
        FileType::File => fs::Metadata::of_file(0).file_type(),
        FileType::Dir => fs::Metadata::of_dir().file_type(),
        FileType::Symlink => fs::Metadata::of_symlink(0).file_type(),
        FileType::Other => fs::Metadata::of_file(0).file_type(),
    }
}

/// What a directory with these entries gives.
fn given(alloc: Global, entries: &[RowEntry]) -> Result<Vec<io::Result<RowEntry>>, AllocError>
    ensures { IfOk result (λ all. all.items ≡ map given entries.now) }
{
    let mut all = Vec::new(alloc);
    for entry in entries {
        all.push(Ok(copied(alloc, entry)?))?;
    }
    Ok(all)
}

/// A copy of an entry.
fn copied(alloc: Global, entry: &RowEntry) -> Result<RowEntry, AllocError>
    ensures { IfOk result (λ copy. copy ≡ entry.now) }
{
    Ok(RowEntry {
        name: Name::from_str(alloc, entry.name.as_str())?,
        file_type: entry.file_type,
    })
}
