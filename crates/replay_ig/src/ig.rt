//! Runs of the program `ig`, with writers in memory.

use answers::{CALLS, ENDED, Outcome, answer_of_run, environment, tree_of_calls, words_of};
use ig_commands::World;
use ig_commands::run::run;
use ignore_files::{Env, MemoryTree};
use serde_json::Value;
use std::alloc::Global;
use vectors::{Trouble, field, list, text};

/// The machine of a vector: a tree of files in memory, and the environment of a run.
#[derive(Drop)]
struct Machine {
    tree: MemoryTree,
    env: Env,
}

/// Answers `status`, and `stdout` and `stderr`, what was written: texts, or `null` for what is
/// none. Standard input is the text `stdin`, or nothing without it.
pub(crate) fn answer(alloc: Global, input: &Value) -> Result<Value, Trouble> {
    let words = words_of(alloc, input)?;
    let machine = machine_of(alloc, input)?;
    let given = input
        .get("stdin")
        .and_then(|value| value.as_str())
        .unwrap_or("");
    let left = repeated(alloc, &machine, words.as_slice(), given.as_bytes());
    Ok(answer_of_run(alloc, &left)?)
}

fn machine_of(alloc: Global, input: &Value) -> Result<Machine, Trouble> {
    let (cwd, calls) = (text(input, "cwd")?, list(input, CALLS)?);
    let env = environment(alloc, field(input, "env")?)?;
    let tree = tree_of_calls(alloc, cwd, calls)?;
    Ok(Machine { tree, env })
}

/// What a run leaves. One with the status of an early end may have been out of memory, so it is
/// made again: what counts is then what the second leaves, if the output of the first is a
/// beginning of its output.
fn repeated(alloc: Global, machine: &Machine, words: &[String], given: &[u8]) -> Outcome {
    let first = left(alloc, machine, words, given);
    if first.status != ENDED {
        return first;
    }
    let second = left(alloc, machine, words, given);
    if second.out.starts_with(&first.out) {
        second
    } else {
        first
    }
}

fn left(alloc: Global, machine: &Machine, words: &[String], given: &[u8]) -> Outcome {
    let mut out: Vec<u8> = Vec::new(alloc);
    let mut err: Vec<u8> = Vec::new(alloc);
    let world = World {
        alloc,
        files: &machine.tree,
        env: &machine.env,
    };
    let ran = run(&world, words, given, &mut out, &mut err);
    Outcome {
        status: ran.map_or(ENDED, |ran| ran.status),
        out,
        err,
        excess: None,
    }
}
