//! The machine's files over machines that interrupt, refuse, lie and list strange names.
use ignore_files::{DiskFiles, Fault, Files, Identity, Machine, Refusal};
use std::alloc::{AllocError, Global};
use std::cell::Cell;
use std::fmt::Debug;
use std::os::fd::AsRawFd;
use std::os::unix::fs::MetadataExt;
use std::path::PathBuf;
use std::test::Fail;
use std::vec::IntoIter;
use std::{fs, io};

/// A machine on which each path leads to a thing of one type, and each directory has the same
/// names.
#[derive(Drop)]
struct Fake {
    alloc: Global,
    /// The type of each thing.
    file_type: fs::FileType,
    /// How often each directory has its name.
    count: u32,
    /// The name.
    name: &'static str,
    /// How many steps were made: questions, and entries that were given.
    steps: Cell<u32>,
    /// The number of the step that is interrupted.
    interrupted: u32,
    /// How many questions were asked.
    asked: Cell<u32>,
    /// The number of the question that is refused.
    refused: u32,
    /// The number of the entry of each directory that is gone when its kind is asked.
    lost: u32,
    /// Whether a file was opened.
    is_opened: Cell<bool>,
}

/// An entry whose kind is known or not. The first question about it is interrupted.
#[derive(Drop)]
struct Entry {
    name: &'static str,
    file_type: Result<fs::FileType, io::ErrorKind>,
    is_asked: Cell<bool>,
}

impl Fake {
    /// A machine that answers each question.
    fn new(alloc: Global, file_type: fs::FileType, count: u32, name: &'static str) -> Fake {
        Fake {
            alloc,
            file_type,
            count,
            name,
            steps: Cell::new(0),
            interrupted: 0,
            asked: Cell::new(0),
            refused: 0,
            lost: 0,
            is_opened: Cell::new(false),
        }
    }

    /// Makes a step, and whether it was interrupted.
    fn is_interrupted(&self) -> bool {
        let step = self.steps.get().saturating_add(1);
        self.steps.set(step);
        step == self.interrupted
    }

    /// Counts a question, which may be interrupted or refused.
    fn count_question(&self) -> io::Result<()> {
        if self.is_interrupted() {
            return Err(io::Error::from(io::ErrorKind::Interrupted));
        }
        let asked = self.asked.get().saturating_add(1);
        self.asked.set(asked);
        if asked == self.refused {
            Err(io::Error::from(io::ErrorKind::PermissionDenied))
        } else {
            Ok(())
        }
    }

    /// An entry, or an interruption in its place; an empty name stands for one that isn't UTF-8,
    /// `broken` for one that can't be had, `lost` for one that is gone when its kind is asked, and
    /// `shut` for one whose kind may not be asked.
    fn entry(&self, number: u32) -> io::Result<Entry> {
        if self.is_interrupted() {
            return Err(io::Error::from(io::ErrorKind::Interrupted));
        }
        if self.name.is_empty() {
            return Err(io::Error::from(io::ErrorKind::InvalidFilename));
        }
        if self.name == "broken" {
            return Err(io::Error::from(io::ErrorKind::PermissionDenied));
        }
        Ok(Entry {
            name: self.name,
            file_type: match self.name {
                _ if number == self.lost => Err(io::ErrorKind::NotFound),
                "lost" => Err(io::ErrorKind::NotFound),
                "shut" => Err(io::ErrorKind::PermissionDenied),
                _ => Ok(self.file_type),
            },
            is_asked: Cell::new(false),
        })
    }
}

impl Machine for Fake {
    type Metadata = fs::FileType;

    type Entry = Entry;

    type Dir = IntoIter<io::Result<Entry>, Global>;

    type File = u8;

    fn metadata(&self, _path: &str) -> io::Result<fs::FileType> {
        self.count_question()?;
        Ok(self.file_type)
    }

    fn symlink_metadata(&self, _path: &str) -> io::Result<fs::FileType> {
        self.count_question()?;
        Ok(self.file_type)
    }

    fn file_type(metadata: &fs::FileType) -> fs::FileType {
        *metadata
    }

    fn len(_metadata: &fs::FileType) -> u64 {
        3
    }

    fn dev(_metadata: &fs::FileType) -> u64 {
        7
    }

    fn ino(_metadata: &fs::FileType) -> u64 {
        8
    }

    fn read_dir(&self, _path: &str) -> io::Result<IntoIter<io::Result<Entry>, Global>> {
        self.count_question()?;
        let mut entries = Vec::new(self.alloc);
        for number in 1..=self.count {
            entries.push(self.entry(number))?;
        }
        Ok(entries.into_iter())
    }

    fn file_name<'e>(entry: &'e Entry) -> &'e str {
        entry.name
    }

    fn entry_type(entry: &Entry) -> io::Result<fs::FileType> {
        if !entry.is_asked.replace(true) {
            return Err(io::Error::from(io::ErrorKind::Interrupted));
        }
        match entry.file_type {
            Ok(file_type) => Ok(file_type),
            Err(kind) => Err(io::Error::from(kind)),
        }
    }

    fn open(&self, _path: &str) -> io::Result<u8> {
        self.is_opened.set(true);
        self.count_question()?;
        Ok(b'a')
    }

    fn read_to_end(file: &mut u8, buf: &mut Vec<u8>) -> io::Result<usize> {
        buf.push(*file)?;
        Err(io::Error::from(io::ErrorKind::PermissionDenied))
    }

    fn canonicalize(&self, path: &str) -> io::Result<PathBuf> {
        self.count_question()?;
        Ok(PathBuf::from_str(self.alloc, path)?)
    }
}

/// Appends what a call answers, and a bar.
fn push<T: Debug + Drop>(text: &mut String, answer: T) -> Result<(), AllocError> {
    write!(text, "{answer:?}|")?;
    Ok(())
}

/// Appends what three of the five calls answer.
fn push_entries(text: &mut String, machine: &Fake, path: &str) -> Result<(), AllocError> {
    let disk = DiskFiles::new(machine);
    push(text, disk.stat(machine.alloc, path, true))?;
    push(text, disk.identity(machine.alloc, path, false))?;
    push(text, disk.list(machine.alloc, path))
}

/// Appends what the other two answer.
fn push_bytes(text: &mut String, machine: &Fake, path: &str) -> Result<(), AllocError> {
    let disk = DiskFiles::new(machine);
    push(text, disk.contents(machine.alloc, path))?;
    push(text, disk.canonical(machine.alloc, path))
}

/// What the five calls answer, as a text.
fn answers(machine: &Fake, path: &str) -> Result<String, AllocError> {
    let mut text = String::new(machine.alloc);
    push_entries(&mut text, machine, path)?;
    push_bytes(&mut text, machine, path)?;
    Ok(text)
}

/// What a machine of directories answers, where this question is refused and this step is
/// interrupted.
fn answers_of(rt: &HostRuntime, refused: u32, interrupted: u32) -> Result<String, AllocError> {
    let mut machine = Fake::new(rt.alloc(), directory(), 2, "a");
    machine.refused = refused;
    machine.interrupted = interrupted;
    answers(&machine, "path")
}

/// The type of a directory.
fn directory() -> fs::FileType {
    fs::Metadata::of_dir().file_type()
}

/// What it answers where nothing is refused.
const ANSWERS: &str =
    "Ok(Metadata { file_type: Dir, len: 3 })|Ok(Some(Identity { device: 7, inode: 8 }))|\
     Ok(Listing { items: [Entry { name: Name { text: \"a\" }, file_type: Dir }, \
     Entry { name: Name { text: \"a\" }, file_type: Dir }] })|\
     Ok(Contents { bytes: Bytes { bytes: [97] }, fault: Some(PermissionDenied) })|\
     Ok(Name { text: \"path\" })|";

#[test]
fn interrupted_questions_are_asked_again(rt: HostRuntime) -> Result<(), Fail> {
    for interrupted in 0..12 {
        let text = answers_of(&rt, 0, interrupted)?;
        assert_eq!(rt; text.as_str(), ANSWERS);
    }
    Ok(())
}

/// How many of the answers are this one.
fn count(answers: &str, wanted: &str) -> usize {
    answers
        .split('|')
        .filter(|answer| *answer == wanted)
        .count()
}

#[test]
fn each_refused_question_ends_its_call_alone(rt: HostRuntime) -> Result<(), Fail> {
    for refused in 1..7 {
        let text = answers_of(&rt, refused, 0)?;
        assert_eq!(rt; count(&text, "Err(Fault(PermissionDenied))"), 1);
    }
    Ok(())
}

/// What a directory with this name in it is listed as.
fn listed(rt: &HostRuntime, name: &'static str) -> Result<String, Fail> {
    listed_times(rt, name, 1)
}

/// The same of a directory that has the name so often.
fn listed_times(rt: &HostRuntime, name: &'static str, count: u32) -> Result<String, Fail> {
    let machine = Fake::new(rt.alloc(), directory(), count, name);
    let listing = DiskFiles::new(&machine).list(rt.alloc(), "path")?;
    Ok(format!(in rt.alloc(); "{:?}", listing.as_slice())?)
}

#[test]
fn an_entry_that_is_gone_before_its_kind_is_left_out(rt: HostRuntime) -> Result<(), Fail> {
    let text = listed(&rt, "lost")?;
    assert_eq!(rt; text.as_str(), "[]");
    Ok(())
}

#[test]
fn an_entry_whose_kind_may_not_be_asked_is_a_fault(rt: HostRuntime) -> Result<(), Fail> {
    let text = listed(&rt, "shut")?;
    assert_eq!(rt; text.as_str(), "[Fault(PermissionDenied)]");
    Ok(())
}

#[test]
fn entries_after_one_that_is_gone_are_listed(rt: HostRuntime) -> Result<(), Fail> {
    let mut machine = Fake::new(rt.alloc(), directory(), 3, "a");
    machine.lost = 2;
    let listing = DiskFiles::new(&machine).list(rt.alloc(), "path")?;
    assert_eq!(rt; listing.len(), 2);
    Ok(())
}

/// Such a listing ends: what can't be had isn't asked for again.
#[test]
fn entries_that_cannot_be_had_are_faults_in_their_places(rt: HostRuntime) -> Result<(), Fail> {
    let text = listed_times(&rt, "broken", 2)?;
    assert_eq!(rt;
        text.as_str(),
        "[Fault(PermissionDenied), Fault(PermissionDenied)]"
    );
    Ok(())
}

#[test]
fn a_name_that_is_not_utf8_is_a_fault(rt: HostRuntime) -> Result<(), Fail> {
    let text = listed(&rt, "")?;
    assert_eq!(rt; text.as_str(), "[Fault(BadName)]");
    Ok(())
}

#[test]
fn a_name_with_a_slash_is_listed_as_it_is(rt: HostRuntime) -> Result<(), Fail> {
    let text = listed(&rt, "a/../b")?;
    assert_eq!(rt;
        text.as_str(),
        "[Entry { name: Name { text: \"a/../b\" }, file_type: Dir }]"
    );
    Ok(())
}

#[test]
fn a_name_with_a_nul_is_listed_as_it_is(rt: HostRuntime) -> Result<(), Fail> {
    let text = listed(&rt, "a\0b")?;
    assert_eq!(rt;
        text.as_str(),
        "[Entry { name: Name { text: \"a\\0b\" }, file_type: Dir }]"
    );
    Ok(())
}

#[test]
fn a_hundred_thousand_names_are_listed(rt: HostRuntime) -> Result<(), Fail> {
    let machine = Fake::new(rt.alloc(), directory(), 100_000, "name");
    let count = DiskFiles::new(&machine).list(rt.alloc(), "path")?.len();
    assert_eq!(rt; count, 100_000);
    Ok(())
}

#[test]
fn a_path_with_a_nul_is_not_found_and_not_asked(rt: HostRuntime) -> Result<(), Fail> {
    let machine = Fake::new(rt.alloc(), directory(), 1, "a");
    let text = answers(&machine, "a\0b")?;
    assert_eq!(rt; count(&text, "Err(Fault(NotFound))"), 5);
    assert_eq!(rt; machine.asked.get(), 0);
    Ok(())
}

#[test]
fn a_device_is_not_opened(rt: HostRuntime) -> Result<(), Fail> {
    let file_type = fs::metadata(&rt, "/dev/null")?.file_type();
    let machine = Fake::new(rt.alloc(), file_type, 1, "a");
    let contents = DiskFiles::new(&machine).contents(rt.alloc(), "path");
    assert_eq!(rt; contents.err(), Some(Refusal::Fault(Fault::Other)));
    assert!(rt; !machine.is_opened.get());
    Ok(())
}

#[test]
fn an_endless_device_of_the_machine_is_not_read(rt: HostRuntime) -> Result<(), Fail> {
    let contents = DiskFiles::new(&rt).contents(rt.alloc(), "/dev/zero");
    assert_eq!(rt; contents.err(), Some(Refusal::Fault(Fault::Other)));
    Ok(())
}

#[test]
fn a_pipe_of_the_machine_is_not_read(rt: HostRuntime) -> Result<(), Fail> {
    let ends = io::pipe(&rt)?;
    let path = format!(in rt.alloc(); "/proc/self/fd/{}", ends.0.as_raw_fd())?;
    let contents = DiskFiles::new(&rt).contents(rt.alloc(), &path);
    assert_eq!(rt; contents.err(), Some(Refusal::Fault(Fault::Other)));
    Ok(())
}

/// The numbers that std reports of a path, links followed or not.
fn numbers(rt: &HostRuntime, path: &str, follow: bool) -> io::Result<(u64, u64)> {
    let metadata = if follow {
        fs::metadata(rt, path)?
    } else {
        fs::symlink_metadata(rt, path)?
    };
    Ok((metadata.dev(), metadata.ino()))
}

/// The same by the machine's files.
fn identity(rt: &HostRuntime, path: &str, follow: bool) -> Result<(u64, u64), Fail> {
    match DiskFiles::new(rt).identity(rt.alloc(), path, follow)? {
        Some(Identity { device, inode }) => Ok((device, inode)),
        None => Ok((0, 0)),
    }
}

#[test]
fn device_and_inode_are_those_that_std_reports(rt: HostRuntime) -> Result<(), Fail> {
    for path in ["/", "/dev/null", "/proc/self"] {
        assert_eq!(rt; identity(&rt, path, true)?, numbers(&rt, path, true)?);
    }
    Ok(())
}

#[test]
fn device_and_inode_of_a_link_are_its_own(rt: HostRuntime) -> Result<(), Fail> {
    assert_eq!(rt;
        identity(&rt, "/proc/self", false)?,
        numbers(&rt, "/proc/self", false)?
    );
    Ok(())
}
