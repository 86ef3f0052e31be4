//! The text by which a matcher knows a path.

use super::query::matcher;
use crate::settings::{Machine, Shown};
use answers::{Answer, CALLS, but_for_memory, unrefused, variable};
use ignore::files::{Env, MemoryTree, Name};
use ignore::text::normalize;
use ignore::{IncrementalIgnore, WalkBuilder};
use serde_json::Value;
use std::alloc::Global;
use std::rc::Rc;
use vectors::{Trouble, text};

/// The name of the field with the working directory.
const CWD: &str = "cwd";

/// Answers `value`, a text or `null`.
pub(crate) fn answer(alloc: Global, input: &Value) -> Result<Value, Trouble> {
    let (root, path) = (text(input, "root")?, text(input, "path")?);
    let value = by_matcher(alloc, input, root, path)?;
    let other = by_text(alloc, input, root, path)?;
    let mut answer = Answer::new(alloc);
    answer.put("value", value.as_ref());
    if value != other {
        answer.put("value without a matcher", other.as_ref());
    }
    Ok(answer.value()?)
}

/// The same without a matcher.
fn by_text(
    alloc: Global,
    input: &Value,
    root: &str,
    path: &str,
) -> Result<Option<String>, Trouble> {
    let dir = variable(alloc, input, CWD)?;
    but_for_memory(normalize(alloc, dir.as_ref().map(Name::as_str), root, path))
}

/// The answer of the matcher of a root, where there are no files.
fn by_matcher(
    alloc: Global,
    input: &Value,
    root: &str,
    path: &str,
) -> Result<Option<String>, Trouble> {
    let machine = machine(alloc, input)?;
    normalized(alloc, &machine, root, path)
}

fn normalized(
    alloc: Global,
    machine: &Machine,
    root: &str,
    path: &str,
) -> Result<Option<String>, Trouble> {
    let matcher = matcher_at(alloc, machine, root)?;
    but_for_memory(matcher.normalize(path))
}

/// The matcher of a root on a machine.
fn matcher_at(alloc: Global, machine: &Machine, root: &str) -> Result<IncrementalIgnore, Trouble> {
    let builder = but_for_memory(WalkBuilder::new(alloc, root))?;
    matcher(machine, &builder)
}

/// A machine without files, of which only the working directory is known.
fn machine(alloc: Global, input: &Value) -> Result<Machine, Trouble> {
    let current_dir = variable(alloc, input, CWD)?;
    let tree = unrefused(MemoryTree::new(alloc, "/"), CALLS)?;
    let env = Env {
        current_dir,
        home: None,
        xdg_config_home: None,
        git_config_global: None,
        git_config_system: None,
    };
    let shown = Rc::new(alloc, Shown::new(alloc))?;
    Ok(Machine { tree, env, shown })
}
