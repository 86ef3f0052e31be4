//! How often a listing opens its directory, and asks the system for the kind of an entry.
use crate::disk::{enter, leave};
use ignore_files::{DiskFiles, Files};
use std::alloc::{AllocError, Allocator, Global};
use std::cell::Cell;
use std::fs::{Metadata, OpenOptions};
use std::test::Fail;
use std::{fs, io, rt};

/// A runtime, and how often it opened a directory and was asked for a kind.
#[derive(Clone, Copy)]
struct Counting<'a> {
    rt: &'a HostRuntime,
    opened: &'a Cell<usize>,
    asked: &'a Cell<usize>,
}

/// Counts one more.
fn count(counter: &Cell<usize>) {
    counter.set(counter.get().saturating_add(1));
}

impl<'a> rt::Files for Counting<'a> {
    type File = <HostRuntime as rt::Files>::File;

    type Dir = <HostRuntime as rt::Files>::Dir;

    fn open_file(&self, how: &OpenOptions, path: &str) -> io::Result<Self::File> {
        self.rt.open_file(how, path)
    }

    fn open_dir(&self, path: &str) -> io::Result<Self::Dir> {
        count(self.opened);
        self.rt.open_dir(path)
    }

    fn metadata(&self, path: &str) -> io::Result<Metadata> {
        self.rt.metadata(path)
    }

    fn symlink_metadata(&self, path: &str) -> io::Result<Metadata> {
        count(self.asked);
        self.rt.symlink_metadata(path)
    }

    fn copy(&self, from: &str, to: &str) -> io::Result<u64> {
        self.rt.copy(from, to)
    }

    fn rename(&self, from: &str, to: &str) -> io::Result<()> {
        self.rt.rename(from, to)
    }

    fn remove_file(&self, path: &str) -> io::Result<()> {
        self.rt.remove_file(path)
    }

    fn create_dir(&self, path: &str) -> io::Result<()> {
        self.rt.create_dir(path)
    }

    fn remove_dir(&self, path: &str) -> io::Result<()> {
        self.rt.remove_dir(path)
    }

    fn remove_dir_all<B: Allocator>(&self, alloc: B, path: &str) -> io::Result<()> {
        self.rt.remove_dir_all(alloc, path)
    }
}

/// The name with a number.
fn numbered(alloc: Global, number: usize) -> Result<String, AllocError> {
    format!(in alloc; "file-{number}")
}

/// Makes the file with a number.
fn make(rt: &HostRuntime, number: usize) -> Result<(), Fail> {
    let name = numbered(rt.alloc(), number)?;
    Ok(fs::write(rt, name.as_str(), "")?)
}

/// How many things the working directory lists, how often it is opened for that, and how many kinds
/// are asked.
fn counts(rt: &HostRuntime) -> Result<(usize, usize, usize), Fail> {
    let (opened, asked) = (Cell::new(0usize), Cell::new(0usize));
    let counting = Counting {
        rt,
        opened: &opened,
        asked: &asked,
    };
    let listing = DiskFiles::new(&(counting, rt.alloc())).list(rt.alloc(), ".")?;
    Ok((listing.len(), opened.get(), asked.get()))
}

/// The same of a folder with so many files.
fn counts_of(rt: &HostRuntime, files: usize) -> Result<(usize, usize, usize), Fail> {
    let folder = enter(rt)?;
    for number in 1..=files {
        make(rt, number)?;
    }
    let counts = counts(rt)?;
    leave(rt, &folder)?;
    Ok(counts)
}

#[test]
fn of_a_large_folder_few_kinds_are_asked_after_two_readings(rt: HostRuntime) -> Result<(), Fail> {
    let (listed, opened, asked) = counts_of(&rt, 1_000)?;
    assert_eq!(rt; (listed, opened), (1_000, 2));
    assert!(rt; asked <= 24);
    Ok(())
}

#[test]
fn of_a_folder_that_one_read_holds_few_kinds_are_asked(rt: HostRuntime) -> Result<(), Fail> {
    let (listed, opened, asked) = counts_of(&rt, 60)?;
    assert_eq!(rt; (listed, opened), (60, 2));
    assert!(rt; asked <= 5);
    Ok(())
}

#[test]
fn of_a_small_folder_few_kinds_are_asked_after_one_reading(rt: HostRuntime) -> Result<(), Fail> {
    let (listed, opened, asked) = counts_of(&rt, 20)?;
    assert_eq!(rt; (listed, opened), (20, 1));
    assert!(rt; asked <= 8);
    Ok(())
}
