//! The rules of a file, and its errors.

use crate::refusing::Refusing;
use crate::rules::{builder_of_lines, rules_value};
use answers::{Answer, but_for_memory, bytes_of, fault_of, problem, unrefused};
use ignore_base::Error;
use ignore_files::{Env, MemoryTree};
use ignore_rules::gitignore::GitignoreBuilder;
use serde_json::Value;
use std::alloc::Global;
use vectors::{Trouble, field, flag, item, text, text_at};

/// The directory of the file, and the root of the rules.
const ROOT: &str = "/r";

/// The name of the field that holds the bytes of the file, or `null` where no file is there.
const BYTES: &str = "hex";

/// The name of the field with how many bytes are read, and the fault after them.
const CUT: &str = "cut";

/// Answers `rules`, and the `error` of `add` with what it says of itself. Where there are lines,
/// they stand before the rules of the file.
pub fn answer(alloc: Global, input: &Value) -> Result<Value, Trouble> {
    let path = text(input, "path")?;
    let tree = tree_of(alloc, path, input)?;
    asked_of(alloc, input, &tree, path)
}

fn asked_of(alloc: Global, input: &Value, tree: &MemoryTree, path: &str) -> Result<Value, Trouble> {
    let files = Refusing::of(alloc, tree, input)?;
    let mut builder = builder_of_options(alloc, input)?;
    asked(alloc, &files, path, &mut builder)
}

fn asked(
    alloc: Global,
    files: &Refusing<'_>,
    path: &str,
    builder: &mut GitignoreBuilder,
) -> Result<Value, Trouble> {
    let error = added(alloc, builder, files, path)?;
    reported(alloc, files, builder, &error)
}

/// A builder with the lines and then the options of a vector.
fn builder_of_options(alloc: Global, input: &Value) -> Result<GitignoreBuilder, Trouble> {
    let (folds, trims) = (flag(input, "ci")?, flag(input, "gts")?);
    let mut builder = builder_of_lines(alloc, input)?;
    problem(builder.case_insensitive(folds))?;
    builder.git_trailing_spaces(trims);
    Ok(builder)
}

fn reported(
    alloc: Global,
    files: &Refusing<'_>,
    builder: &GitignoreBuilder,
    error: &Option<Error>,
) -> Result<Value, Trouble> {
    let matcher = but_for_memory(builder.build())?;
    let mut answer = Answer::new(alloc);
    answer.put_value("rules", rules_value(alloc, matcher.rules()));
    answer.put("error", error.as_ref());
    answer.put("is_io", is_io(error));
    answer.put("is_partial", is_partial(error));
    files.put_excess(&mut answer, alloc, &Env::empty());
    Ok(answer.value()?)
}

fn is_io(error: &Option<Error>) -> bool {
    match error {
        Some(error) => error.is_io(),
        None => false,
    }
}

fn is_partial(error: &Option<Error>) -> bool {
    match error {
        Some(error) => error.is_partial(),
        None => false,
    }
}

/// Adds a file to a builder, and again where it is out of memory, but not where the files are.
fn added(
    alloc: Global,
    builder: &mut GitignoreBuilder,
    files: &Refusing<'_>,
    path: &str,
) -> Result<Option<Error>, Trouble> {
    match builder.add(files, path) {
        Ok(error) => Ok(error),
        Err(error) if files.reported_memory() => Ok(Some(error)),
        Err(_) => {
            files.forget(alloc);
            added_again(builder, files, path)
        }
    }
}

fn added_again(
    builder: &mut GitignoreBuilder,
    files: &Refusing<'_>,
    path: &str,
) -> Result<Option<Error>, Trouble> {
    but_for_memory(builder.add(files, path))
}

/// The tree with the directory and the file, if there is one.
fn tree_of(alloc: Global, path: &str, input: &Value) -> Result<MemoryTree, Trouble> {
    let mut tree = directory(alloc)?;
    if !field(input, BYTES)?.is_null() {
        put_file(alloc, &mut tree, path, input)?;
    }
    Ok(tree)
}

/// The tree with the directory alone.
fn directory(alloc: Global) -> Result<MemoryTree, Trouble> {
    let mut tree = unrefused(MemoryTree::new(alloc, "/"), BYTES)?;
    unrefused(tree.add_dir(ROOT), BYTES)?;
    Ok(tree)
}

fn put_file(
    alloc: Global,
    tree: &mut MemoryTree,
    path: &str,
    input: &Value,
) -> Result<(), Trouble> {
    let bytes = bytes_of(alloc, text(input, BYTES)?, BYTES)?;
    unrefused(tree.add_file(path, bytes.as_slice()), BYTES)?;
    cut(tree, path, field(input, CUT)?)
}

/// Cuts the file, as `[3, "Other"]` says.
fn cut(tree: &mut MemoryTree, path: &str, cut: &Value) -> Result<(), Trouble> {
    if cut.is_null() {
        return Ok(());
    }
    let Some(len) = item(cut, 0, CUT)?.as_u64() else {
        return Err(Trouble::Field(CUT));
    };
    let fault = fault_of(text_at(cut, 1, CUT)?, CUT)?;
    unrefused(tree.cut_contents(path, len as usize, fault), CUT)
}
