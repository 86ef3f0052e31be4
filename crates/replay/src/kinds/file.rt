//! The matcher of one file of rules, relative to the directory of the file.

use crate::refusing::Refusing;
use crate::rules::{put_error, put_read};
use answers::{Answer, CALLS, tree_of_calls};
use ignore_base::Error;
use ignore_files::{Env, MemoryTree};
use ignore_rules::gitignore::Gitignore;
use serde_json::Value;
use std::alloc::Global;
use vectors::{Trouble, list, text};

/// Answers `root`, `rules`, `is_empty` and `len` of the matcher, and the `error` of its file; of a
/// call that ran out of memory its `error` alone.
pub fn answer(alloc: Global, input: &Value) -> Result<Value, Trouble> {
    let path = text(input, "path")?;
    let tree = tree_of_calls(alloc, text(input, "cwd")?, list(input, CALLS)?)?;
    read(alloc, input, &tree, path)
}

fn read(alloc: Global, input: &Value, tree: &MemoryTree, path: &str) -> Result<Value, Trouble> {
    let files = Refusing::of(alloc, tree, input)?;
    match Gitignore::new(alloc, &files, path) {
        Ok((matcher, error)) => reported(alloc, &files, &matcher, &error),
        Err(error) => failed(alloc, &files, &error),
    }
}

fn reported(
    alloc: Global,
    files: &Refusing<'_>,
    matcher: &Gitignore,
    error: &Option<Error>,
) -> Result<Value, Trouble> {
    let mut answer = Answer::new(alloc);
    put_read(&mut answer, alloc, matcher, error);
    answer.put("is_empty", matcher.is_empty());
    answer.put("len", matcher.len());
    files.put_excess(&mut answer, alloc, &Env::empty());
    Ok(answer.value()?)
}

fn failed(alloc: Global, files: &Refusing<'_>, error: &Error) -> Result<Value, Trouble> {
    let mut answer = Answer::new(alloc);
    put_error(&mut answer, "error", files, error)?;
    Ok(answer.value()?)
}
