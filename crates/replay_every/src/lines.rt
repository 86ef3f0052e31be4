//! Rules of lines, and what is found of them.

use answers::{but_for_memory, problem};
use ignore_every::{Analysis, Comparison, Counted, Difference, Error, Finding, compare};
use ignore_rules::gitignore::{Gitignore, GitignoreBuilder};
use serde_json::Value;
use std::alloc::Global;
use vectors::{Trouble, flag, list};

/// So many states are enough for each vector.
const LIMIT: usize = 1_000_000;

/// The rules of the lines in a field; an invalid one adds nothing.
pub fn rules_of(alloc: Global, input: &Value, field: &'static str) -> Result<Gitignore, Trouble> {
    let mut builder = but_for_memory(GitignoreBuilder::new(alloc, ""))?;
    if flag(input, "fold")? {
        problem(builder.case_insensitive(true))?;
    }
    for line in list(input, field)? {
        let Some(line) = line.as_str() else {
            return Err(Trouble::Field(field));
        };
        problem(builder.push_line(None, line))?;
    }
    but_for_memory(builder.build())
}

/// What is found of each rule, or the name of an error.
pub fn findings(
    alloc: Global,
    rules: &Gitignore,
) -> Result<Result<Vec<Finding>, &'static str>, Trouble> {
    match Analysis::of(alloc, rules, LIMIT) {
        Ok(analysis) => Ok(Ok(analysis.findings)),
        Err(error) => Ok(Err(name_of(error)?)),
    }
}

/// The shortest question at which two lists differ, if they do, or the name of an error.
pub fn difference(
    alloc: Global,
    input: &Value,
    counted: Counted,
) -> Result<Result<Option<Difference>, &'static str>, Trouble> {
    let old = rules_of(alloc, input, "old")?;
    let new = rules_of(alloc, input, "new")?;
    match compare(alloc, &old, &new, counted, LIMIT) {
        Ok(Comparison::Same) => Ok(Ok(None)),
        Ok(Comparison::Differ(difference)) => Ok(Ok(Some(difference))),
        Err(error) => Ok(Err(name_of(error)?)),
    }
}

/// The name of an error, unless it is for want of memory.
fn name_of(error: Error) -> Result<&'static str, Trouble> {
    match error {
        Error::Memory => Err(Trouble::Memory),
        Error::TooLarge => Ok("too large"),
        Error::Rejected => Ok("rejected"),
    }
}

/// How many characters a text has.
pub fn length(text: &str) -> u64 {
    text.chars().count() as u64
}
