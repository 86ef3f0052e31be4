//! Globs of a million characters: they are read, or refused, with an ordinary stack.
use ignore_glob::glob::{GlobFault, Options, Pattern, PatternError};
use std::alloc::Global;
use std::test::Fail;

const DEFAULT: Options = Options {
    case_insensitive: false,
    allow_unclosed_class: false,
};

/// The glob that is so many copies of a text.
fn repeated(alloc: Global, text: &str, count: usize) -> Result<Pattern, PatternError> {
    match text.repeat(alloc, count) {
        Ok(glob) => Pattern::parse(alloc, &glob, DEFAULT),
        Err(_) => Err(PatternError::Memory),
    }
}

/// The fault of the text that is so many copies of a text, if it has one.
fn fault_of(alloc: Global, text: &str, count: usize) -> Option<PatternError> {
    repeated(alloc, text, count).err()
}

#[test]
fn a_million_braces_are_nested_too_deep(rt: HostRuntime) {
    let fault = Some(PatternError::Fault(GlobFault::TooDeep));
    assert_eq!(rt; fault_of(rt.alloc(), "{", 1_000_000), fault);
    assert_eq!(rt; fault_of(rt.alloc(), "{", 65), fault);
    assert_eq!(rt;
        fault_of(rt.alloc(), "{", 64),
        Some(PatternError::Fault(GlobFault::UnclosedAlternates))
    );
}

#[test]
fn a_million_brackets_are_an_unclosed_class(rt: HostRuntime) {
    let fault = Some(PatternError::Fault(GlobFault::UnclosedClass));
    assert_eq!(rt; fault_of(rt.alloc(), "[", 1_000_000), fault);
}

#[test]
fn a_million_stars_or_braces_are_a_glob(rt: HostRuntime) {
    assert_eq!(rt; fault_of(rt.alloc(), "*", 1_000_000), None);
    assert_eq!(rt; fault_of(rt.alloc(), "{}", 500_000), None);
}

#[test]
fn a_million_backslashes_are_half_a_million(rt: HostRuntime) -> Result<(), Fail> {
    let pattern = repeated(rt.alloc(), "\\", 1_000_000)?;
    assert_eq!(rt; pattern.positions(), 500_000);
    Ok(())
}

#[test]
fn the_last_of_odd_backslashes_escapes_nothing(rt: HostRuntime) {
    let fault = Some(PatternError::Fault(GlobFault::DanglingEscape));
    assert_eq!(rt; fault_of(rt.alloc(), "\\", 999_999), fault);
}
