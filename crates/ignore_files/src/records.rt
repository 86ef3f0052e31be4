//! The entries of a directory, with the kinds that the system writes with their names.
//!
//! A read has the system write its records into the buffer, and std then packs their names to its
//! front. Behind the names the records still stand, in the order of the names, each at a place that
//! the names before it determine. Where a record there has the length, the whole name and the NUL
//! that it must have, and one of three kinds, that is the kind.
//!
//! The records of the first entries of each read are lost so. A directory that one read held is
//! read again with room for just these records: of them, too, only the first are lost. That is done
//! up to three times, while more than a few are lost and each reading finds some. One that took
//! several reads is read once more, if many are lost, with less room in the first read: then other
//! entries are the first ones. Kinds that no record had are asked.
ghost use Rattle.std.specs.Prelude.{◌≤◌, length};

use crate::ask::ask;
use crate::entries::{Rows, RuntimeEntries, UNKNOWN, cut, recorded};
use std::alloc::{AllocError, Global};
use std::io::Read;
use std::{fs, io, rt};

/// How many bytes a read may take.
const ROOM: usize = 4 * 1024;

/// How many bytes the first read of a second reading may take, where the first reading took several
/// reads. Most names have less than half the bytes of their records. Then what a read of the first
/// reading loses stands in the second half of a read of the second one, where nothing is lost.
const SHIFT: usize = ROOM / 2;

/// How many types are asked rather than read the directory again, where one read held it. It is
/// opened for that, read once and closed.
const FEW: usize = 8;

/// How often it is read again at most.
const TIMES: usize = 3;

/// How many types are asked rather than read the directory once more, where it took several reads.
const MANY: usize = 48;

/// Where a record has its length, in two bytes, the low one first.
const LENGTH: usize = 16;

/// Where it has its name, after a byte for the kind. A NUL follows.
const NAME: usize = LENGTH + 3;

/// How many bytes a path may have for the system, its NUL counted.
const PATH: usize = 4 * 1024;

/// A directory that is listed.
#[derive(Drop)]
struct Folder<'a, R> {
    alloc: Global,
    files: &'a R,
    /// Its path, with a slash at its end.
    path: &'a str,
    /// Whether types are taken from the records.
    uses_records: bool,
}

/// What was read of a directory.
#[derive(Drop)]
struct Reader<'a, R> {
    folder: Folder<'a, R>,
    /// The entries so far, of which those without a type have still to be asked.
    rows: Rows,
    /// How many reads of the first reading gave names.
    reads: usize,
    /// In a further reading the place of the row of the next entry.
    again: Option<usize>,
    /// Where, in the last read that gave names, the last record ended that was lost.
    lost: usize,
}

/// The length of the record of a name of this length: a multiple of 8.
fn record_len(len: usize) -> usize {
    len.saturating_add(NAME + 1 + 7) & !7
}

/// The byte for the type that the record at a place has, where it is the record of this name.
fn kind_at(buf: &[u8], at: usize, name: &[u8]) -> Option<u8> {
    let (_, record) = buf.split_at_checked(at.saturating_add(LENGTH))?;
    let (head, rest) = record.split_at_checked(NAME - LENGTH)?;
    let (found, rest) = rest.split_at_checked(name.len())?;
    let [low, high, kind] = head else {
        return None;
    };
    if (*low as usize | (*high as usize) << 8) != record_len(name.len()) {
        return None;
    }
    if found != name || rest.first() != Some(&0) {
        return None;
    }
    Some(recorded(*kind))
}

/// Whether the record that begins at a place is lost: the packed names end behind its begin. Its
/// first bytes, of which nothing is used, may be.
fn is_lost(packed: usize, at: usize) -> bool {
    at.saturating_add(LENGTH) < packed
}

/// Whether a name is that of the directory or of its parent.
fn is_own(name: &[u8]) -> bool {
    match name {
        [b'.'] => true,
        [b'.', b'.'] => true,
        _ => false,
    }
}

/// A path and what follows it.
fn joined(alloc: Global, path: &str, rest: &str) -> Result<String, AllocError> {
    let mut text = String::with_capacity(alloc, path.len().saturating_add(rest.len()))?;
    text.push_str(path)?;
    text.push_str(rest)?;
    Ok(text)
}

impl<'a, R: rt::Files> Folder<'a, R> {
    /// The byte for the type that a record still has, which begins at a place. One whose path is
    /// too long is asked, which fails.
    fn recorded_kind(&self, buf: &[u8], packed: usize, at: usize, name: &[u8]) -> u8 {
        let is_path = self.path.len().saturating_add(name.len()) < PATH;
        if self.uses_records && is_path && !is_lost(packed, at) {
            kind_at(buf, at, name).unwrap_or(UNKNOWN)
        } else {
            UNKNOWN
        }
    }

    /// The type of what is at a name, or `None` where it is gone. Its path is put in a text that
    /// serves one question after another.
    fn asked_type(&self, path: &mut String, name: &str) -> io::Result<Option<fs::FileType>> {
        path.clear();
        path.push_str(self.path)?;
        path.push_str(name)?;
        let files = self.files;
        match ask(|| files.symlink_metadata(path.as_str())) {
            Ok(metadata) => Ok(Some(metadata.file_type())),
            Err(error) if error.kind() == io::ErrorKind::NotFound => Ok(None),
            Err(error) => Err(error),
        }
    }
}

/// Whether a type may not be asked.
fn is_denied(answer: &io::Result<Option<fs::FileType>>) -> bool {
    match answer {
        Ok(_) => false,
        Err(error) => error.kind() == io::ErrorKind::PermissionDenied,
    }
}

impl<'a, R: rt::Files> Reader<'a, R> {
    /// One that has read nothing of the directory at a path.
    fn new(alloc: Global, files: &'a R, path: &'a str, uses_records: bool) -> Reader<'a, R> {
        Reader {
            folder: Folder {
                alloc,
                files,
                path,
                uses_records,
            },
            rows: Rows::new(alloc),
            reads: 0,
            again: None,
            lost: 0,
        }
    }

    /// Takes the next name with the type that its record has: in a first reading as a further
    /// entry, in a further one as the type of the entry at the same place.
    fn take(&mut self, name: &[u8], kind: u8) -> Result<(), AllocError> {
        match self.again {
            None => self.rows.push(name, kind),
            Some(place) => {
                self.again = Some(self.rows.set_kind(place, name, kind));
                Ok(())
            }
        }
    }

    /// Begins to take the names of a read, which take so many bytes.
    fn begin(&mut self, packed: usize) -> Result<(), AllocError> {
        self.lost = 0;
        if self.again.is_some() {
            return Ok(());
        }
        self.reads = self.reads.saturating_add(1);
        self.rows.make_room(packed)
    }

    /// Takes the names that stand in the first bytes.
    fn take_names(&mut self, buf: &[u8], packed: usize) -> Result<(), AllocError>
        requires { packed ≤ length buf.now }
    {
        self.begin(packed)?;
        let mut rest = &buf[..packed];
        let mut at = 0usize;
        for _ in 0..packed {
            if rest.is_empty() {
                return Ok(());
            }
            let (name, more) = cut(rest);
            let end = at.saturating_add(record_len(name.len()));
            if !name.is_empty() && !is_own(name) {
                let kind = self.folder.recorded_kind(buf, packed, at, name);
                self.take(name, kind)?;
            }
            if is_lost(packed, at) {
                self.lost = end;
            }
            at = end;
            rest = more;
        }
        Ok(())
    }

    /// Reads once into a buffer of zeros, and whether more may come. An error ends the entries; it
    /// ends a further reading without a trace.
    fn read_once(&mut self, dir: &mut R::Dir, buf: &mut [u8]) -> io::Result<bool> {
        match dir.read(buf) {
            Ok(0) => Ok(false),
            Ok(packed) => {
                self.take_names(buf, packed)?;
                buf.fill(0);
                Ok(true)
            }
            Err(error) => {
                if self.again.is_none() {
                    self.rows.fail(error);
                }
                Ok(false)
            }
        }
    }

    /// Reads once into the first bytes of a buffer of zeros.
    fn read_part(&mut self, dir: &mut R::Dir, buf: &mut [u8], room: usize) -> io::Result<bool> {
        match buf.get_mut(..room) {
            Some(part) => self.read_once(dir, part),
            None => Ok(false),
        }
    }

    /// Reads all that the directory still gives, up to its end or an error.
    fn read_on(&mut self, mut dir: R::Dir, buf: &mut [u8]) -> io::Result<()> {
        for _ in 0..u64::MAX {
            if !self.read_once(&mut dir, buf)? {
                return Ok(());
            }
        }
        Ok(())
    }

    /// Whether one read held the directory.
    fn is_small(&self) -> bool {
        self.reads <= 1
    }

    /// Reads it once more, for types that no record had: of a directory that one read held only the
    /// records that were lost last. Entries whose names now stand at other places get none.
    fn read_again(&mut self, mut dir: R::Dir, buf: &mut [u8]) -> io::Result<()> {
        self.again = Some(0);
        if self.is_small() {
            let lost = self.lost;
            self.read_part(&mut dir, buf, lost)?;
        } else if self.read_part(&mut dir, buf, SHIFT)? {
            self.read_on(dir, buf)?;
        }
        Ok(())
    }

    /// Reads the directory at a path again, as often as that is worth it.
    fn find_lost(&mut self, own: &str, buf: &mut [u8]) -> io::Result<()> {
        let (few, times) = if self.is_small() {
            (FEW, TIMES)
        } else {
            (MANY, 1)
        };
        for _ in 0..times {
            let untyped = self.rows.untyped();
            if untyped <= few {
                return Ok(());
            }
            let Ok(dir) = self.folder.files.open_dir(own) else {
                return Ok(());
            };
            self.read_again(dir, buf)?;
            if untyped <= self.rows.untyped() {
                return Ok(());
            }
        }
        Ok(())
    }

    /// Asks the types of all entries that have none. Whether one may not be asked.
    fn ask_rest(&mut self) -> Result<bool, AllocError> {
        let mut path = String::new(self.folder.alloc);
        let mut denied = false;
        let mut at = 0usize;
        for _ in 0..self.rows.untyped() {
            let Some(row) = self.rows.untyped_from(at) else {
                return Ok(denied);
            };
            let (place, next) = (row.at, row.next);
            if let Ok(name) = std::str::from_utf8(row.name) {
                let answer = self.folder.asked_type(&mut path, name);
                denied |= is_denied(&answer);
                self.rows.put_answer(place, answer)?;
            }
            at = next;
        }
        Ok(denied)
    }
}

/// The entries of a directory, in the system's order.
///
/// A directory that may not be searched can't be opened by its path with a `.` after it. There, and
/// where the type of an entry may not be asked, every type is asked, so that it is by no place in
/// the buffer that an entry is one or a fault.
pub fn entries_of<R: rt::Files>(
    alloc: Global,
    files: &R,
    path: &str,
) -> io::Result<RuntimeEntries> {
    let is_folder = path.is_empty() || path.ends_with('/');
    let own = joined(alloc, path, if is_folder { "." } else { "/." })?;
    let folder = own.as_str().strip_suffix('.').unwrap_or(path);
    if !folder.is_empty() {
        if let Ok(dir) = files.open_dir(own.as_str()) {
            let mut reader = Reader::new(alloc, files, folder, true);
            let mut buf = vec![in alloc; 0u8; ROOM]?;
            reader.read_on(dir, buf.as_mut_slice())?;
            reader.find_lost(own.as_str(), buf.as_mut_slice())?;
            if !reader.ask_rest()? {
                return Ok(reader.rows.into_entries(alloc));
            }
        }
    }
    let dir = files.open_dir(folder)?;
    let mut reader = Reader::new(alloc, files, folder, false);
    let mut buf = vec![in alloc; 0u8; ROOM]?;
    reader.read_on(dir, buf.as_mut_slice())?;
    reader.ask_rest()?;
    Ok(reader.rows.into_entries(alloc))
}
