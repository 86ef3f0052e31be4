//! The kinds that the machine lists, beside those that it reports where it is asked.
use crate::disk::{enter, leave};
use ignore_files::{DiskFiles, Files, Listed, Refusal};
use std::alloc::{AllocError, Global};
use std::os::unix::fs::symlink;
use std::test::Fail;
use std::{env, fs, io};

/// A name of so many bytes.
fn long_name(alloc: Global, len: usize) -> Result<String, AllocError> {
    let mut name = String::new(alloc);
    for _ in 0..len {
        name.push('n')?;
    }
    Ok(name)
}

/// A name that is a number.
fn short_name(alloc: Global, number: usize) -> Result<String, AllocError> {
    format!(in alloc; "{number}")
}

/// A character with the number by which the system knows a kind: a folder, a file, a link.
fn kind_letter(number: usize) -> char {
    match number % 3 {
        0 => '\u{4}',
        1 => '\u{8}',
        _ => '\n',
    }
}

/// A character at the end of a name, whose byte may be taken for the length of a record.
fn length_letter(number: usize) -> char {
    match number % 4 {
        0 => ' ',
        1 => '(',
        2 => '0',
        _ => '8',
    }
}

/// A name whose bytes may be taken for records of the system.
fn odd_name(alloc: Global, number: usize) -> Result<String, AllocError> {
    let (first, last) = (kind_letter(number / 3), length_letter(number / 9));
    format!(in alloc; "{first}{number}{first}{last}")
}

/// Makes a file, a folder or a link, which leads nowhere, by the number.
fn make(rt: &HostRuntime, number: usize, name: &str) -> io::Result<()> {
    match number % 3 {
        0 => fs::write(rt, name, ""),
        1 => fs::create_dir(rt, name),
        _ => symlink(rt, "no/where", name),
    }
}

/// Makes a thing with a name of so many bytes.
fn make_long(rt: &HostRuntime, len: usize) -> Result<(), Fail> {
    let name = long_name(rt.alloc(), len)?;
    Ok(make(rt, len, &name)?)
}

/// Makes a thing with the number as its name.
fn make_short(rt: &HostRuntime, number: usize) -> Result<(), Fail> {
    let name = short_name(rt.alloc(), number)?;
    Ok(make(rt, number, &name)?)
}

/// Makes a thing with a name whose bytes may be taken for records.
fn make_odd(rt: &HostRuntime, number: usize) -> Result<(), Fail> {
    let name = odd_name(rt.alloc(), number)?;
    Ok(make(rt, number, &name)?)
}

/// Whether it is an entry, of the kind that is reported where it is asked.
fn is_as_asked(rt: &HostRuntime, listed: &Listed) -> bool {
    match listed {
        Listed::Entry { name, file_type } => {
            match DiskFiles::new(rt).stat(rt.alloc(), name.as_str(), false) {
                Ok(metadata) => metadata.file_type() == *file_type,
                Err(_) => false,
            }
        }
        Listed::Fault(_) => false,
    }
}

/// How many things the working directory lists, and how many of them are as they are asked.
fn counts(rt: &HostRuntime) -> Result<(usize, usize), Refusal> {
    let listing = DiskFiles::new(rt).list(rt.alloc(), ".")?;
    let mut asked = 0usize;
    for listed in listing.as_slice() {
        if is_as_asked(rt, listed) {
            asked = asked.saturating_add(1);
        }
    }
    Ok((listing.len(), asked))
}

/// The same of a folder in which each of these numbers makes a thing.
fn counts_of<F: Fn(&HostRuntime, usize) -> Result<(), Fail>>(
    rt: &HostRuntime,
    numbers: usize,
    make: F,
) -> Result<(usize, usize), Fail>
where
    F: Drop,
    requires { F.IsAlwaysCallable make }
{
    let folder = enter(rt)?;
    for number in 1..=numbers {
        make(rt, number)?;
    }
    let counts = counts(rt)?;
    leave(rt, &folder)?;
    Ok(counts)
}

#[test]
fn kinds_under_names_of_each_length_are_those_that_are_asked(rt: HostRuntime) -> Result<(), Fail> {
    assert_eq!(rt; counts_of(&rt, 255, make_long)?, (255, 255));
    Ok(())
}

#[test]
fn kinds_in_a_large_folder_are_those_that_are_asked(rt: HostRuntime) -> Result<(), Fail> {
    assert_eq!(rt; counts_of(&rt, 10_000, make_short)?, (10_000, 10_000));
    Ok(())
}

#[test]
fn kinds_in_a_small_folder_are_those_that_are_asked(rt: HostRuntime) -> Result<(), Fail> {
    for number in 0..3 {
        assert_eq!(rt; counts_of(&rt, number, make_short)?, (number, number));
    }
    Ok(())
}

#[test]
fn kinds_in_a_folder_that_one_read_holds_are_those_that_are_asked(
    rt: HostRuntime,
) -> Result<(), Fail> {
    for number in [9, 30, 60, 120] {
        assert_eq!(rt; counts_of(&rt, number, make_short)?, (number, number));
    }
    Ok(())
}

#[test]
fn kinds_under_names_like_records_are_those_that_are_asked(rt: HostRuntime) -> Result<(), Fail> {
    for number in [20, 100, 400, 2_000] {
        assert_eq!(rt; counts_of(&rt, number, make_odd)?, (number, number));
    }
    Ok(())
}

#[test]
fn kinds_of_devices_are_those_that_are_asked(rt: HostRuntime) -> Result<(), Fail> {
    env::set_current_dir(&rt, "/dev")?;
    let (listed, asked) = counts(&rt)?;
    assert_eq!(rt; asked, listed);
    Ok(())
}
