//! How often a vector's walk or matcher may call the files.

use super::machine::Machine;
use super::set::{ROOT, ROOTS, SET};
use answers::{Bounds, but_for_memory, outside_paths};
use ignore::gitignore::gitconfig_excludes_path;
use serde_json::Value;
use std::alloc::Global;
use vectors::{Trouble, item, list, text, text_at};

/// The bounds of a walk or a matcher, by the settings and roots of a vector.
pub(crate) fn bounds_of<'v>(alloc: Global, input: &'v Value) -> Result<Bounds<'v>, Trouble> {
    let mut bounds = Bounds::new(alloc);
    push_roots(input, &mut bounds)?;
    for op in list(input, SET)? {
        let is_set = !matches!(item(op, 1, SET)?, Value::Null | Value::Bool(false));
        match text_at(op, 0, SET)? {
            "custom" => bounds.customs.push(text_at(op, 1, SET)?)?,
            "max_filesize" => bounds.has_sizes |= is_set,
            "follow_links" => bounds.follows |= is_set,
            "same_file_system" => bounds.has_devices |= is_set,
            _ => {}
        }
    }
    Ok(bounds)
}

/// Appends the roots of a walk, or the root of a matcher.
fn push_roots<'v>(input: &'v Value, bounds: &mut Bounds<'v>) -> Result<(), Trouble> {
    if input.get(ROOTS).is_none() {
        bounds.roots.push(text(input, ROOT)?)?;
        return Ok(());
    }
    for root in list(input, ROOTS)? {
        match root.as_str() {
            Some(root) => bounds.roots.push(root)?,
            None => return Err(Trouble::Field(ROOTS)),
        }
    }
    Ok(())
}

/// The paths of a machine that the rules from outside are asked of.
pub(crate) fn outside_of(alloc: Global, machine: &Machine) -> Result<Vec<String>, Trouble> {
    let found = gitconfig_excludes_path(alloc, &machine.tree, &machine.env);
    Ok(outside_paths(alloc, &machine.env, but_for_memory(found)?)?)
}
