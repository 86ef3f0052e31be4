//! Long globs, matched with an ordinary stack: each is parsed, cloned, matched, counted and
//! dropped.
use ignore_glob::glob::{Options, Pattern, PatternError};
use std::alloc::{AllocError, Global};
use std::test::Fail;

const DEFAULT: Options = Options {
    case_insensitive: false,
    allow_unclosed_class: false,
};

/// A clone of the pattern of a glob.
fn clone_of(alloc: Global, glob: &str) -> Result<Pattern, PatternError> {
    let pattern = Pattern::parse(alloc, glob, DEFAULT)?;
    Ok(pattern.clone()?)
}

/// Whether a glob matches a text, and the number of marks.
fn counted(alloc: Global, glob: &str, text: &str) -> Result<(bool, u64), PatternError> {
    match clone_of(alloc, glob)?.matches_counted(text) {
        Ok(found) => Ok(found),
        Err(_) => Err(PatternError::Memory),
    }
}

/// The same for so many copies of a glob.
fn counted_copies(
    alloc: Global,
    glob: &str,
    count: usize,
    text: &str,
) -> Result<(bool, u64), PatternError> {
    match glob.repeat(alloc, count) {
        Ok(glob) => counted(alloc, &glob, text),
        Err(_) => Err(PatternError::Memory),
    }
}

/// So many letters `a` between two texts.
fn letters(alloc: Global, before: &str, count: usize, after: &str) -> Result<String, AllocError> {
    let mut text = String::from_str(alloc, before)?;
    text.push_str(&"a".repeat(alloc, count)?)?;
    text.push_str(after)?;
    Ok(text)
}

#[test]
fn a_long_literal_matches_itself_with_a_mark_for_each_offset(rt: HostRuntime) -> Result<(), Fail> {
    let text = letters(rt.alloc(), "", 100_000, "")?;
    assert_eq!(rt; counted(rt.alloc(), &text, &text)?, (true, 100_001));
    Ok(())
}

#[test]
fn stars_match_nothing_with_each_position_marked_once(rt: HostRuntime) -> Result<(), Fail> {
    assert_eq!(rt;
        counted_copies(rt.alloc(), "*", 100_000, "")?,
        (true, 100_001)
    );
    Ok(())
}

#[test]
fn empty_braces_match_nothing_with_each_position_marked_once(rt: HostRuntime) -> Result<(), Fail> {
    assert_eq!(rt;
        counted_copies(rt.alloc(), "{}", 500_000, "")?,
        (true, 500_001)
    );
    Ok(())
}

#[test]
fn braces_that_match_in_many_ways_stay_within_their_marks(rt: HostRuntime) -> Result<(), Fail> {
    let text = letters(rt.alloc(), "", 90, "")?;
    let (matches, marks) = counted_copies(rt.alloc(), "{a,aa}", 40, &text)?;
    assert!(rt; !matches && marks <= 161 * 91);
    Ok(())
}

#[test]
fn many_stars_stay_within_their_marks(rt: HostRuntime) -> Result<(), Fail> {
    let text = letters(rt.alloc(), "", 1_999, "b")?;
    let (matches, marks) = counted_copies(rt.alloc(), "*a", 500, &text)?;
    assert!(rt; !matches && marks <= 4_002 * 2_001);
    Ok(())
}

#[test]
fn a_long_text_stays_within_its_marks(rt: HostRuntime) -> Result<(), Fail> {
    let text = letters(rt.alloc(), "", 100_000, "")?;
    let (matches, marks) = counted(rt.alloc(), "a*a*a*a*b", &text)?;
    assert!(rt; !matches && marks <= 38 * 100_001);
    Ok(())
}

#[test]
fn a_class_of_many_members_matches_the_last(rt: HostRuntime) -> Result<(), Fail> {
    let glob = letters(rt.alloc(), "[", 100_000, "b]")?;
    assert_eq!(rt; counted(rt.alloc(), &glob, "b")?, (true, 2));
    Ok(())
}
