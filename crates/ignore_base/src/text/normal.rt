//! Paths in normal form, relative to a root.
ghost use Rattle.std.specs.Prelude.{◌≡◌, IfOk, IfErr, OnOk, map, option_map, string_bytes};
ghost use Rattle.std.specs.Option.{option_copied};
ghost use Rattle.ignore_base.specs.Normalize.{is_without_names, names_from_root, normalize_of, rest_below, step, steps};
ghost use Rattle.ignore_base.specs.Paths.{components, joined};
ghost use Rattle.ignore_base.specs.Problem.{problem_of, memory};

use crate::Error;
use crate::text::prefix::is_absolute;
use std::alloc::{AllocError, Global};

/// A path relative to a root, both in normal form: without `.` and empty components, and without
/// `..`, each of which removes the component before it, if any. What doesn't begin with `/` is in
/// the working directory `dir`. Links are not looked at.
///
/// None for an empty path, for an empty root and for the root `-`; where the path isn't at or below
/// the root; and where the path or the root is relative and `dir` isn't known or is relative, too.
///
/// # Errors
/// `Error::Memory` alone.
pub fn normalize(
    alloc: Global,
    dir: Option<&str>,
    root: &str,
    path: &str,
) -> Result<Option<String>, Error>
    ensures value { IfOk result (λ text. option_map string_bytes text ≡ normalize_of (option_copied dir.entry) root.now path.now) }
    ensures out_of_memory { IfErr result (λ e. problem_of e ≡ memory) }
{
    if is_without_names(root, path) {
        return Ok(None);
    }
    let Some(front) = names_from_root(alloc, dir, root)? else {
        return Ok(None);
    };
    let Some(names) = names_from_root(alloc, dir, path)? else {
        return Ok(None);
    };
    Ok(rest_below(alloc, front.as_slice(), names.as_slice())?)
}

/// Whether the root or the path is empty, or the root is `-`.
fn is_without_names(root: &str, path: &str) -> bool
    ensures { result ≡ is_without_names root.now path.now }
{
    root.is_empty() || root == "-" || path.is_empty()
}

/// The names from `/` to where a path leads.
fn names_from_root<'p>(
    alloc: Global,
    dir: Option<&'p str>,
    path: &'p str,
) -> Result<Option<Vec<&'p str>>, AllocError>
    ensures { IfOk result (λ r. option_map (λ names. map (λ n. n.now) names.items) r ≡ names_from_root (option_copied dir.entry) path.now) }
{
    let mut names = Vec::new(alloc);
    if is_absolute(path) {
        steps(&mut names, path)?;
        return Ok(Some(names));
    }
    let Some(dir) = dir else {
        return Ok(None);
    };
    if !is_absolute(dir) {
        return Ok(None);
    }
    steps(&mut names, dir)?;
    steps(&mut names, path)?;
    Ok(Some(names))
}

/// Goes where the components of a path lead.
fn steps<'p>(names: &mut Vec<&'p str>, path: &'p str) -> Result<(), AllocError>
    ensures { OnOk result (map (λ n. n.now) names.new.items ≡ steps (map (λ n. n.now) names.old.items) (components path.now)) }
{
    for component in path.split('/') {
        step(names, component)?;
    }
    Ok(())
}

/// Goes where one component leads.
fn step<'p>(names: &mut Vec<&'p str>, component: &'p str) -> Result<(), AllocError>
    ensures { OnOk result (map (λ n. n.now) names.new.items ≡ step (map (λ n. n.now) names.old.items) component.now) }
{
    if component.is_empty() || component == "." {
        return Ok(());
    }
    if component == ".." {
        names.pop();
        return Ok(());
    }
    names.push(component)?;
    Ok(())
}

/// The names after those of a root, joined, where the root's are the first of them.
fn rest_below(alloc: Global, root: &[&str], names: &[&str]) -> Result<Option<String>, AllocError>
    ensures { IfOk result (λ text. option_map string_bytes text ≡ rest_below (map (λ n. n.now) root.now) (map (λ n. n.now) names.now)) }
{
    if !names.starts_with(root) {
        return Ok(None);
    }
    Ok(Some(joined(alloc, &names[root.len()..])?))
}

/// Names, joined by single slashes.
fn joined(alloc: Global, names: &[&str]) -> Result<String, AllocError>
    ensures { IfOk result (λ text. string_bytes text ≡ joined (map (λ n. n.now) names.now)) }
{
    let mut text = String::with_capacity(alloc, joined_len(names))?;
    let Some((first, rest)) = names.split_first() else {
        return Ok(text);
    };
    text.push_str(*first)?;
    for name in rest {
        text.push('/')?;
        text.push_str(*name)?;
    }
    Ok(text)
}

/// How many bytes the names have, with a slash for each.
fn joined_len(names: &[&str]) -> usize {
    let mut len = 0usize;
    for name in names {
        len = len.saturating_add(name.len()).saturating_add(1);
    }
    len
}
