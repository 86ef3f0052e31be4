//! The global file: where it is, and the rules that stand in it.

use crate::refusing::Refusing;
use crate::rules::{LINES, builder_of_lines, match_value, put_error, put_read};
use answers::{Answer, CALLS, Items, but_for_memory, environment, tree_of_calls};
use ignore_base::Error;
use ignore_files::{Env, MemoryTree};
use ignore_rules::gitignore::{Gitignore, gitconfig_excludes_path};
use serde_json::Value;
use std::alloc::Global;
use vectors::{Trouble, field, list, text};

/// The name of the field with the files that the matcher is asked about. Where it is missing, it is
/// asked about none.
const FILES: &str = "files";

/// Answers `path`, the path of the excludes file, and of the matcher its `root`, its `rules`, the
/// `error` of its file and its `answers` for files, where the vector has any. The matcher is that
/// of a builder with the lines, or that of the working directory where there is no field of lines.
/// Of a call that ran out of memory there is its error alone, as `path` or as `error`.
pub fn answer(alloc: Global, input: &Value) -> Result<Value, Trouble> {
    let (cwd, calls) = (text(input, "cwd")?, list(input, CALLS)?);
    let env = environment(alloc, field(input, "env")?)?;
    let tree = tree_of_calls(alloc, cwd, calls)?;
    reported(alloc, input, &tree, &env)
}

fn reported(alloc: Global, input: &Value, tree: &MemoryTree, env: &Env) -> Result<Value, Trouble> {
    let mut answer = Answer::new(alloc);
    put_path(&mut answer, alloc, &Refusing::of(alloc, tree, input)?, env)?;
    let files = Refusing::of(alloc, tree, input)?;
    put_matcher(&mut answer, alloc, input, &files, env)?;
    files.put_excess(&mut answer, alloc, env);
    Ok(answer.value()?)
}

fn put_path(
    answer: &mut Answer,
    alloc: Global,
    files: &Refusing<'_>,
    env: &Env,
) -> Result<(), Trouble> {
    match gitconfig_excludes_path(alloc, files, env) {
        Ok(path) => {
            answer.put("path", path.as_deref());
            Ok(())
        }
        Err(error) => put_error(answer, "path", files, &error),
    }
}

fn put_matcher(
    answer: &mut Answer,
    alloc: Global,
    input: &Value,
    files: &Refusing<'_>,
    env: &Env,
) -> Result<(), Trouble> {
    match matcher(alloc, input, files, env)? {
        Ok((matcher, error)) => {
            put_read(answer, alloc, &matcher, &error);
            put_answers(answer, alloc, input, &matcher)
        }
        Err(error) => put_error(answer, "error", files, &error),
    }
}

/// Puts what a matcher answers for the files of a vector, where it has any.
fn put_answers(
    answer: &mut Answer,
    alloc: Global,
    input: &Value,
    matcher: &Gitignore,
) -> Result<(), Trouble> {
    if input.get(FILES).is_some() {
        let mut answers = Items::new(alloc);
        for file in list(input, FILES)? {
            put_answer(&mut answers, alloc, file, matcher)?;
        }
        answer.put_value("answers", answers.value());
    }
    Ok(())
}

fn put_answer(
    answers: &mut Items,
    alloc: Global,
    file: &Value,
    matcher: &Gitignore,
) -> Result<(), Trouble> {
    let Some(file) = file.as_str() else {
        return Err(Trouble::Field(FILES));
    };
    let found = but_for_memory(matcher.matched(file, false))?;
    answers.put_value(match_value(alloc, matcher, found));
    Ok(())
}

/// A matcher, and what is reported of its file; or an error of the call.
type Read = Result<(Gitignore, Option<Error>), Error>;

fn matcher(alloc: Global, input: &Value, files: &Refusing<'_>, env: &Env) -> Result<Read, Trouble> {
    if input.get(LINES).is_none() {
        return Ok(Gitignore::global(alloc, files, env));
    }
    let builder = builder_of_lines(alloc, input)?;
    Ok(builder.build_global(files, env))
}
