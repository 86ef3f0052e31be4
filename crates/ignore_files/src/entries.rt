//! The entries of a directory: in rows of one text while it is read, and then one by one.
ghost use Rattle.std.specs.Iterator.{at_most};

use memchr::memchr;
use std::alloc::{AllocError, Global};
use std::vec::IntoIter;
use std::{fs, io};

/// The type of a row isn't known.
pub const UNKNOWN: u8 = 0;

/// What was answered where its type was asked stands beside the rows.
const BESIDE: u8 = 1;

/// A directory, by the number that the system has for it. So is each of the next.
const DIR: u8 = 4;

/// A file.
const FILE: u8 = 8;

/// A symbolic link.
const LINK: u8 = 10;

/// How many bytes of a row stand before its name.
const HEAD: usize = 3;

/// An entry of a directory of a runtime.
#[derive(Drop)]
pub struct RuntimeEntry {
    /// Its name.
    pub(crate) name: String,
    /// Its type, a link not followed; `None` where it was gone when its type was asked.
    pub(crate) file_type: Option<fs::FileType>,
}

/// The entries of a directory that is read, each a row of one text, in the system's order: a byte
/// for its type, two for the length of its name, the low one first, and the name, which may be no
/// UTF-8.
#[derive(Drop)]
pub struct Rows {
    text: Vec<u8>,
    /// How many rows there are.
    count: usize,
    /// How many of them came without a type.
    untyped: usize,
    /// The answers that stand beside the rows, in the order of the rows.
    answers: Vec<io::Result<Option<fs::FileType>>>,
    /// The error that ended the entries, if any.
    failure: Option<io::Error>,
}

/// A row that was found in a text.
#[derive(Clone, Copy)]
pub struct Row<'t> {
    /// Its place.
    pub at: usize,
    /// The byte for its type.
    pub kind: u8,
    /// Its name.
    pub name: &'t [u8],
    /// The place of the next.
    pub next: usize,
}

/// What stands before the first NUL, and what follows it.
pub fn cut(bytes: &[u8]) -> (&[u8], &[u8]) {
    let end = memchr(0, bytes).unwrap_or(bytes.len());
    let Some((name, rest)) = bytes.split_at_checked(end) else {
        return (bytes, &[]);
    };
    match rest.split_first() {
        Some((_, rest)) => (name, rest),
        None => (name, rest),
    }
}

/// The row that begins at a place.
fn row_at(text: &[u8], at: usize) -> Option<Row<'_>> {
    let (_, rest) = text.split_at_checked(at)?;
    let (head, rest) = rest.split_at_checked(HEAD)?;
    let [kind, low, high] = head else {
        return None;
    };
    let len = *low as usize | (*high as usize) << 8;
    let (name, _) = rest.split_at_checked(len)?;
    Some(Row {
        at,
        kind: *kind,
        name,
        next: at.saturating_add(HEAD).saturating_add(len),
    })
}

/// The byte of a record's type, if it is one of three.
pub fn recorded(kind: u8) -> u8 {
    match kind {
        DIR => DIR,
        FILE => FILE,
        LINK => LINK,
        _ => UNKNOWN,
    }
}

/// The type with this byte.
fn type_of(kind: u8) -> Option<fs::FileType> {
    match kind {
        DIR => Some(fs::Metadata::of_dir().file_type()),
        FILE => Some(fs::Metadata::of_file(0).file_type()),
        LINK => Some(fs::Metadata::of_symlink(0).file_type()),
        _ => None,
    }
}

/// The byte for an answer about a type.
fn kind_of(answer: &io::Result<Option<fs::FileType>>) -> u8 {
    match answer {
        Ok(Some(file_type)) if file_type.is_dir() => DIR,
        Ok(Some(file_type)) if file_type.is_file() => FILE,
        Ok(Some(file_type)) if file_type.is_symlink() => LINK,
        _ => BESIDE,
    }
}

impl Rows {
    /// No rows.
    pub fn new(alloc: Global) -> Rows {
        Rows {
            text: Vec::new(alloc),
            count: 0,
            untyped: 0,
            answers: Vec::new(alloc),
            failure: None,
        }
    }

    /// How many rows came without a type.
    pub fn untyped(&self) -> usize {
        self.untyped
    }

    /// Makes room for names that take so many bytes, each with a NUL.
    pub fn make_room(&mut self, names: usize) -> Result<(), AllocError> {
        self.text.reserve(names.saturating_mul(2))
    }

    /// Adds a row. (A read has no room for a name whose length takes more than two bytes.)
    pub fn push(&mut self, name: &[u8], kind: u8) -> Result<(), AllocError> {
        let len = u16::try_from(name.len()).unwrap_or(u16::MAX);
        let (name, _) = name.split_at_checked(len as usize).unwrap_or((name, &[]));
        let [low, high] = len.to_le_bytes();
        self.text.extend_from_slice(&[kind, low, high])?;
        self.text.extend_from_slice(name)?;
        self.count = self.count.saturating_add(1);
        if kind == UNKNOWN {
            self.untyped = self.untyped.saturating_add(1);
        }
        Ok(())
    }

    /// Adds the error that ends the entries.
    pub fn fail(&mut self, error: io::Error) {
        self.failure = Some(error);
    }

    /// Sets the type of the row at a place, where it has this name and no type, and returns the
    /// place of the next row.
    pub fn set_kind(&mut self, at: usize, name: &[u8], kind: u8) -> usize {
        let Some(row) = row_at(self.text.as_slice(), at) else {
            return at;
        };
        let next = row.next;
        if kind != UNKNOWN && row.kind == UNKNOWN && row.name == name {
            self.put_kind(at, kind);
            self.untyped = self.untyped.saturating_sub(1);
        }
        next
    }

    fn put_kind(&mut self, at: usize, kind: u8) {
        if let Some(byte) = self.text.get_mut(at) {
            *byte = kind;
        }
    }

    /// The first row from a place on that has no type.
    pub fn untyped_from(&self, from: usize) -> Option<Row<'_>> {
        let mut at = from;
        for _ in 0..self.count {
            let row = row_at(self.text.as_slice(), at)?;
            if row.kind == UNKNOWN {
                return Some(row);
            }
            at = row.next;
        }
        None
    }

    /// Puts what was answered where the type of the row at a place was asked. The rows before it
    /// have theirs.
    pub fn put_answer(
        &mut self,
        at: usize,
        answer: io::Result<Option<fs::FileType>>,
    ) -> Result<(), AllocError> {
        let kind = kind_of(&answer);
        if kind == BESIDE {
            self.answers.push(answer)?;
        }
        self.put_kind(at, kind);
        Ok(())
    }

    /// The entries of the rows.
    pub fn into_entries(self, alloc: Global) -> RuntimeEntries {
        let last = if self.failure.is_some() { 1 } else { 0 };
        RuntimeEntries {
            left: self.count.saturating_add(last),
            rest: Rest {
                alloc,
                text: self.text,
                at: 0,
                answers: self.answers.into_iter(),
                failure: self.failure,
            },
        }
    }
}

/// The rows of a directory from a place on.
#[derive(Drop)]
struct Rest {
    alloc: Global,
    text: Vec<u8>,
    at: usize,
    answers: IntoIter<io::Result<Option<fs::FileType>>, Global>,
    failure: Option<io::Error>,
}

impl Rest {
    /// The entry of the next row, or the error behind the last one.
    fn entry(&mut self) -> io::Result<RuntimeEntry> {
        let Some(row) = row_at(self.text.as_slice(), self.at) else {
            return Err(self.failure());
        };
        self.at = row.next;
        let Ok(name) = std::str::from_utf8(row.name) else {
            return Err(io::Error::from(io::ErrorKind::InvalidFilename));
        };
        let file_type = match row.kind {
            BESIDE => match self.answers.next() {
                Some(answer) => answer?,
                None => None,
            },
            kind => type_of(kind),
        };
        Ok(RuntimeEntry {
            name: String::from_str(self.alloc, name)?,
            file_type,
        })
    }

    /// The error that ended the entries.
    fn failure(&mut self) -> io::Error {
        match self.failure.take() {
            Some(error) => error,
            None => io::Error::from(io::ErrorKind::Other),
        }
    }
}

/// The entries of a directory of a runtime, which it gives one by one.
#[derive(Drop)]
pub struct RuntimeEntries {
    left: usize,
    rest: Rest,
}

impl Iterator for RuntimeEntries {
    type Item = io::Result<RuntimeEntry>;

    ghost remaining = { λ s. at_most s.left };

    fn next(&mut self) -> Option<io::Result<RuntimeEntry>> {
        if self.left == 0 {
            return None;
        }
        self.left -= 1;
        Some(self.rest.entry())
    }
}
