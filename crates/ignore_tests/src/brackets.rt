//! Globs of a million brackets that nothing closes, where each stands for itself: the search for a
//! closing bracket, made anew for each, would not end in the time that a test has.
use ignore_glob::glob::{Options, Pattern, PatternError};
use std::alloc::Global;
use std::test::Fail;

const UNCLOSED_ALLOWED: Options = Options {
    case_insensitive: false,
    allow_unclosed_class: true,
};

/// The glob that is one text and then another.
fn joined(alloc: Global, front: &str, rest: &str) -> Result<Pattern, PatternError> {
    let glob = format!(in alloc; "{front}{rest}")?;
    Pattern::parse(alloc, &glob, UNCLOSED_ALLOWED)
}

/// The glob that is a text and then a million opening brackets.
fn brackets_after(alloc: Global, front: &str) -> Result<Pattern, PatternError> {
    let brackets = "[".repeat(alloc, 1_000_000)?;
    joined(alloc, front, &brackets)
}

/// Whether that glob matches the empty text.
fn matches_nothing(alloc: Global, front: &str) -> Result<bool, Fail> {
    Ok(brackets_after(alloc, front)?.matches("")?)
}

#[test]
fn a_million_brackets_stand_for_themselves(rt: HostRuntime) -> Result<(), Fail> {
    assert!(rt; !matches_nothing(rt.alloc(), "")?);
    Ok(())
}

#[test]
fn so_do_a_million_brackets_after_a_class(rt: HostRuntime) -> Result<(), Fail> {
    assert!(rt; !matches_nothing(rt.alloc(), "[a]")?);
    Ok(())
}
