//! Runs of the program `igwalk`, with writers in memory.

use super::query::is_dir_there;
use crate::settings::{Machine, machine_of, outside_of};
use answers::{Bounds, Calls, Counting, ENDED, Outcome, Questions, answer_of_run, words_of};
use commands::World;
use commands::run::run;
use serde_json::Value;
use std::alloc::Global;
use vectors::Trouble;

/// Answers `status`, and `stdout` and `stderr`, what was written: texts, or `null` for what is
/// none; and `calls`, where the files were called more often than the bounds say.
pub(crate) fn answer(alloc: Global, input: &Value) -> Result<Value, Trouble> {
    let words = words_of(alloc, input)?;
    let left = left_by(alloc, input, words.as_slice())?;
    Ok(answer_of_run(alloc, &left)?)
}

/// What a run of these words leaves on the machine of a vector.
fn left_by(alloc: Global, input: &Value, words: &[String]) -> Result<Outcome, Trouble> {
    let machine = machine_of(alloc, input)?;
    repeated(alloc, &machine, words)
}

/// What a run leaves. One that ended early may have been out of memory, so it is made again: what
/// counts is then what the second leaves, if the output of the first is a beginning of its output.
fn repeated(alloc: Global, machine: &Machine, words: &[String]) -> Result<Outcome, Trouble> {
    let first = left(alloc, machine, words)?;
    if first.status != ENDED {
        return Ok(first);
    }
    let second = left(alloc, machine, words)?;
    if second.out.starts_with(&first.out) {
        Ok(second)
    } else {
        Ok(first)
    }
}

fn left(alloc: Global, machine: &Machine, words: &[String]) -> Result<Outcome, Trouble> {
    let mut out: Vec<u8> = Vec::new(alloc);
    let mut err: Vec<u8> = Vec::new(alloc);
    let files = Counting::new(alloc, &machine.tree);
    let world = World {
        alloc,
        files: &files,
        env: &machine.env,
    };
    let ran = run(&world, words, &mut out, &mut err);
    Ok(Outcome {
        status: ran.unwrap_or(ENDED),
        out,
        err,
        excess: excess(alloc, machine, words, &files.taken(alloc))?,
    })
}

/// What is too much of the calls of a run, if anything is.
fn excess(
    alloc: Global,
    machine: &Machine,
    words: &[String],
    calls: &Calls,
) -> Result<Option<&'static str>, Trouble> {
    let outside = outside_of(alloc, machine)?;
    excess_but(alloc, machine, words, calls, outside.as_slice())
}

/// As `excess`, by the paths that the rules from outside are asked of: a list is a walk, a check
/// asks about its paths, and any other run calls no files.
fn excess_but<'x>(
    alloc: Global,
    machine: &Machine,
    words: &'x [String],
    calls: &Calls,
    outside: &'x [String],
) -> Result<Option<&'static str>, Trouble> {
    let mut bounds = Bounds::new(alloc);
    bounds.outside = outside;
    let roots = match words {
        [command, roots @ ..] if command.as_str() == "list" => roots,
        [command, root, paths @ ..] if command.as_str() == "check" => {
            bounds.roots.push(root.as_str())?;
            let asked = questions(alloc, machine, root.as_str(), paths)?;
            return Ok(bounds.excess_of_questions(calls, &asked));
        }
        _ => &[],
    };
    for root in roots {
        bounds.roots.push(root.as_str())?;
    }
    Ok(bounds.excess_of_walk(calls))
}

/// The questions of a check.
fn questions(
    alloc: Global,
    machine: &Machine,
    root: &str,
    paths: &[String],
) -> Result<Questions, Trouble> {
    let mut asked = Questions::new(alloc);
    asked.is_dir = is_dir_there(alloc, &machine.tree, root)?;
    asked.are_looked_up = true;
    for path in paths {
        asked.note(alloc, path.as_str())?;
    }
    Ok(asked)
}
