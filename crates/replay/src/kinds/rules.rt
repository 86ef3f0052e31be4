//! The answer of the lines of gitignore files for a path, and all that can be read of their
//! matcher.

use crate::rules::{Built, after_operations, match_value, rules_value};
use answers::{Answer, Items, but_for_memory};
use ignore_rules::gitignore::Gitignore;
use serde_json::Value;
use std::alloc::Global;
use vectors::{Trouble, flag, text};

/// Answers `answer`, `rules`, `refused`, `path` and the counts.
pub fn answer(alloc: Global, input: &Value) -> Result<Value, Trouble> {
    let path = text(input, "path")?;
    let is_dir = flag(input, "is_dir")?;
    let Built { matcher, refused } = after_operations(alloc, input)?;
    asked(alloc, path, is_dir, &matcher, refused)
}

fn asked(
    alloc: Global,
    path: &str,
    is_dir: bool,
    matcher: &Gitignore,
    refused: Items,
) -> Result<Value, Trouble> {
    let found = but_for_memory(matcher.matched(path, is_dir))?;
    let mut answer = Answer::new(alloc);
    answer.put_value("answer", match_value(alloc, matcher, found));
    answer.put_value("rules", rules_value(alloc, matcher.rules()));
    answer.put_value("refused", refused.value());
    answer.put("path", matcher.path());
    answer.put("num_ignores", matcher.num_ignores());
    answer.put("num_whitelists", matcher.num_whitelists());
    Ok(answer.value()?)
}
