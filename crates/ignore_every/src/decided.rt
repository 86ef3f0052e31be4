//! Which rule decides on a path.
ghost use Rattle.std.specs.Prelude.{◌≡◌, IsTrue, IfOk, IfSome, None, false, length, true, Some, slice_get, string_bytes};
ghost use Rattle.std.specs.Char.{IsScalar};
ghost use Rattle.std.specs.Str.{chars};
ghost use Rattle.ignore_rules.specs.Answer.{does_apply};
ghost use Rattle.ignore_rules.specs.Rules.{Rule};
ghost use Rattle.ignore_every.specs.Findings.{IsInFolder};
ghost use Rattle.ignore_every.specs.Machines.{IsLastOf, ignores};
ghost use Rattle.ignore_every.specs.Questions.{Decides, IsIgnored};

use crate::places::ignores;
use ignore_rules::gitignore::Glob;
use ignore_rules::internal::applies;
use std::alloc::{AllocError, Global};

/// Whether the rule with this index is there and applies to a path.
pub(crate) fn applies_at(
    rules: &[Glob],
    index: usize,
    path: &str,
    is_dir: bool,
) -> Result<bool, AllocError>
    ensures is { IfOk result (λ yes. IsTrue yes → (rule : Rule) × (slice_get rules.now index ≡ Some rule)
        × (does_apply (chars path.now) is_dir rule ≡ true)) }
    ensures isnt { IfOk result (λ yes. yes ≡ false → (rule : Rule) → slice_get rules.now index ≡ Some rule
        → does_apply (chars path.now) is_dir rule ≡ false) }
{
    match rules.get(index) {
        Some(rule) => applies(rule, path, is_dir),
        None => Ok(false),
    }
}

/// Whether the rule with this index decides on a path.
pub(crate) fn decides(
    rules: &[Glob],
    index: usize,
    path: &str,
    is_dir: bool,
) -> Result<bool, AllocError>
    ensures { IfOk result (λ yes. IsTrue yes → Decides rules.now index (chars path.now) is_dir) }
{
    if !applies_at(rules, index, path, is_dir)? {
        return Ok(false);
    }
    for later in 0..rules.len() {
        if later > index && applies_at(rules, later, path, is_dir)? {
            return Ok(false);
        }
    }
    Ok(true)
}

/// The last rule that applies to a path, which is the one that decides.
pub(crate) fn last_applying(
    rules: &[Glob],
    path: &str,
    is_dir: bool,
) -> Result<Option<usize>, AllocError>
    ensures { IfOk result (IsLastOf rules.now 0 (length rules.now) (chars path.now) is_dir) }
{
    for index in (0..rules.len()).rev() {
        if applies_at(rules, index, path, is_dir)? {
            return Ok(Some(index));
        }
    }
    Ok(None)
}

/// The rule that decides on a folder, where it ignores it.
fn ignoring(rules: &[Glob], folder: &str) -> Result<Option<usize>, AllocError>
    ensures decided { IfOk result (λ found. IfSome found (λ index. Decides rules.now index (chars folder.now) true)) }
    ensures ignored { IfOk result (λ found. IfSome found (λ index. ignores rules.now (Some index) ≡ true)) }
    ensures none { IfOk result (λ found. found ≡ None → IsIgnored rules.now (chars folder.now) true → ⊥) }
{
    let last = last_applying(rules, folder, true)?;
    if ignores(rules, last) {
        Ok(last)
    } else {
        Ok(None)
    }
}

/// The rule that ignores the folder before a slash.
fn ignoring_before(rules: &[Glob], folder: &str, c: char) -> Result<Option<usize>, AllocError>
    ensures slash { IfOk result (λ found. IfSome found (λ index. c ≡ 47)) }
    ensures scalar { IsScalar c }
    ensures decided { IfOk result (λ found. IfSome found (λ index. Decides rules.now index (chars folder.now) true)) }
    ensures ignored { IfOk result (λ found. IfSome found (λ index. ignores rules.now (Some index) ≡ true)) }
    ensures none { IfOk result (λ found. found ≡ None → c ≡ 47 → IsIgnored rules.now (chars folder.now) true → ⊥) }
{
    if c != '/' {
        return Ok(None);
    }
    ignoring(rules, folder)
}

/// The first folder on the way to a path that the rules ignore, and the rule that does.
pub(crate) fn folder_on(
    alloc: Global,
    rules: &[Glob],
    text: &[char],
) -> Result<Option<(String, usize)>, AllocError>
    ensures { IfOk result (λ found. IfSome found (λ on. IsInFolder rules.now text.now (chars (string_bytes on.0)) on.1)) }
{
    let mut folder = String::new(alloc);
    for c in text {
        let found = ignoring_before(rules, folder.as_str(), *c)?;
        if let Some(rule) = found {
            return Ok(Some((folder, rule)));
        }
        folder.push(*c)?;
    }
    Ok(None)
}
