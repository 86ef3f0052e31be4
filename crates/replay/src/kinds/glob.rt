//! Whether a glob is valid, and matches a text, by how many marks and positions.

use crate::clones;
use answers::{Answer, but_for_memory};
use ignore_glob::glob::{GlobFault, Options, Pattern, PatternError};
use serde_json::Value;
use std::alloc::Global;
use vectors::{Trouble, flag, text};

/// The name of the field that says whether marks and positions are asked too. Where it is missing
/// they are.
const COUNTED: &str = "counted";

/// Answers `fault`; or `taken`, and `marks` and `positions` where they are asked.
pub fn answer(alloc: Global, input: &Value) -> Result<Value, Trouble> {
    let glob = text(input, "glob")?;
    let asked = text(input, "text")?;
    let options = options(input)?;
    match Pattern::parse(alloc, glob, options) {
        Err(PatternError::Fault(fault)) => reported_fault(alloc, fault),
        Err(PatternError::Memory) => Err(Trouble::Memory),
        Ok(pattern) => reported_match(alloc, input, &clones::asked(input, pattern)?, asked),
    }
}

fn options(input: &Value) -> Result<Options, Trouble> {
    Ok(Options {
        case_insensitive: flag(input, "ci")?,
        allow_unclosed_class: flag(input, "auc")?,
    })
}

fn reported_fault(alloc: Global, fault: GlobFault) -> Result<Value, Trouble> {
    let mut answer = Answer::new(alloc);
    answer.put("fault", u64::from(fault.number()));
    Ok(answer.value()?)
}

fn reported_match(
    alloc: Global,
    input: &Value,
    pattern: &Pattern,
    asked: &str,
) -> Result<Value, Trouble> {
    let mut answer = Answer::new(alloc);
    answer.put("taken", but_for_memory(pattern.matches(asked))?);
    if input.get(COUNTED).is_none() || flag(input, COUNTED)? {
        put_counts(&mut answer, pattern, asked)?;
    }
    Ok(answer.value()?)
}

/// Puts the numbers of marks and positions. Whether the pass which counts answers as the other one
/// is compared too.
fn put_counts(answer: &mut Answer, pattern: &Pattern, asked: &str) -> Result<(), Trouble> {
    let (does_match, marks) = but_for_memory(pattern.matches_counted(asked))?;
    if does_match != but_for_memory(pattern.matches(asked))? {
        answer.put("matches_counted", does_match);
    }
    answer.put("marks", marks);
    answer.put("positions", pattern.positions());
    Ok(())
}
