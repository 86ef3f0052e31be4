//! The answer of the lines of gitignore files for a path or the nearest of its parents.

use crate::rules::{after_operations, match_value};
use answers::{Answer, but_for_memory};
use ignore_rules::gitignore::Gitignore;
use serde_json::Value;
use std::alloc::Global;
use vectors::{Trouble, flag, text};

/// Answers `under_root`, and `answer`, which is `null` where it doesn't hold.
pub fn answer(alloc: Global, input: &Value) -> Result<Value, Trouble> {
    let path = text(input, "path")?;
    let is_dir = flag(input, "is_dir")?;
    let built = after_operations(alloc, input)?;
    asked(alloc, path, is_dir, &built.matcher)
}

fn asked(alloc: Global, path: &str, is_dir: bool, matcher: &Gitignore) -> Result<Value, Trouble> {
    let nearest = nearest(alloc, path, is_dir, matcher)?;
    let mut answer = Answer::new(alloc);
    answer.put("under_root", matcher.is_under_root(path));
    answer.put_value("answer", Ok(nearest));
    Ok(answer.value()?)
}

/// The answer for a path or its nearest parent, or `null` where the path can't be matched so.
fn nearest(alloc: Global, path: &str, is_dir: bool, matcher: &Gitignore) -> Result<Value, Trouble> {
    if !matcher.is_under_root(path) {
        return Ok(Value::Null);
    }
    let found = but_for_memory(matcher.matched_path_or_any_parents(path, is_dir))?;
    Ok(match_value(alloc, matcher, found)?)
}
