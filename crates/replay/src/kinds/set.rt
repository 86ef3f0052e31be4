//! The last pattern of a set that matches a text and allows its kind.

use answers::{Answer, but_for_memory};
use ignore_glob::glob::{Options, Pattern};
use ignore_set::PatternSet;
use serde_json::Value;
use std::alloc::Global;
use vectors::{Trouble, flag, flag_at, list, text, text_at};

/// The name of the field that holds the patterns: each a glob, whether it folds case, and whether
/// it is for directories only.
const PAIRS: &str = "pairs";

/// The name of the field with the most patterns that may be tried one by one, if it is there.
const MOST: &str = "most";

/// Answers `last`, an index or `null`; and `within`, whether no more patterns than the most were
/// tried for the same answer, where the vector says how many that are.
pub fn answer(alloc: Global, input: &Value) -> Result<Value, Trouble> {
    let set = set(alloc, list(input, PAIRS)?)?;
    let (text, is_dir) = (text(input, "text")?, flag(input, "is_dir")?);
    let last = but_for_memory(set.last_match(text, is_dir))?;
    let mut answer = Answer::new(alloc);
    answer.put("last", last);
    if let Some(most) = input.get(MOST).and_then(|most| most.as_u64()) {
        let (again, tried) = but_for_memory(set.last_match_counted(text, is_dir))?;
        answer.put("within", again == last && tried <= most);
    }
    Ok(answer.value()?)
}

fn set(alloc: Global, pairs: &[Value]) -> Result<PatternSet, Trouble> {
    let mut patterns = Vec::new(alloc);
    for pair in pairs {
        let pattern = pattern(alloc, pair)?;
        but_for_memory(patterns.push((pattern, flag_at(pair, 2, PAIRS)?)))?;
    }
    but_for_memory(PatternSet::new(patterns))
}

/// The pattern of a pair, whose glob has no fault.
fn pattern(alloc: Global, pair: &Value) -> Result<Pattern, Trouble> {
    let options = Options {
        case_insensitive: flag_at(pair, 1, PAIRS)?,
        allow_unclosed_class: false,
    };
    match Pattern::parse(alloc, text_at(pair, 0, PAIRS)?, options) {
        Ok(pattern) => Ok(pattern),
        Err(_) => Err(Trouble::Field(PAIRS)),
    }
}
