//! The value of a configuration: the path of its excludes file.

use answers::{Answer, but_for_memory, bytes_of, name_of, unrefused, variable};
use ignore_files::{Env, MemoryTree, Name};
use ignore_rules::gitignore::gitconfig_excludes_path;
use serde_json::Value;
use std::alloc::{AllocError, Global};
use vectors::{Trouble, text};

/// The path of the configuration.
const CONFIGURATION: &str = "/g";

/// The name of the field that holds the bytes of the configuration.
const BYTES: &str = "hex";

/// Answers `value`: the path that the configuration names, with `home` in it, or `null`.
pub fn answer(alloc: Global, input: &Value) -> Result<Value, Trouble> {
    let tree = tree_of(alloc, input)?;
    asked(alloc, input, &tree)
}

fn asked(alloc: Global, input: &Value, tree: &MemoryTree) -> Result<Value, Trouble> {
    let home = variable(alloc, input, "home")?;
    let value = value_of(alloc, tree, home)?;
    let mut answer = Answer::new(alloc);
    answer.put("value", value.as_deref());
    Ok(answer.value()?)
}

/// The tree with the configuration alone.
fn tree_of(alloc: Global, input: &Value) -> Result<MemoryTree, Trouble> {
    let bytes = bytes_of(alloc, text(input, BYTES)?, BYTES)?;
    tree_with(alloc, &bytes)
}

fn tree_with(alloc: Global, bytes: &[u8]) -> Result<MemoryTree, Trouble> {
    let mut tree = unrefused(MemoryTree::new(alloc, "/"), BYTES)?;
    unrefused(tree.add_file(CONFIGURATION, bytes), BYTES)?;
    Ok(tree)
}

/// The path that the configuration names. Without `home` there is nothing else that could be named,
/// so this shows whether it names any.
fn value_of(
    alloc: Global,
    tree: &MemoryTree,
    home: Option<Name>,
) -> Result<Option<String>, Trouble> {
    match value_at(alloc, tree, None)? {
        None => Ok(None),
        Some(_) => value_at(alloc, tree, home),
    }
}

fn value_at(
    alloc: Global,
    tree: &MemoryTree,
    home: Option<Name>,
) -> Result<Option<String>, Trouble> {
    let env = configured(alloc, home)?;
    but_for_memory(gitconfig_excludes_path(alloc, tree, &env))
}

/// The environment that names the configuration, and maybe `home`.
fn configured(alloc: Global, home: Option<Name>) -> Result<Env, AllocError> {
    Ok(Env {
        current_dir: None,
        home,
        xdg_config_home: None,
        git_config_global: Some(name_of(alloc, CONFIGURATION)?),
        git_config_system: None,
    })
}
