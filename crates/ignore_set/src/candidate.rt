//! Whether one pattern matches, by a pass over its positions.
ghost use Rattle.std.specs.Prelude.{◌≡◌, ◌≤◌, ◌↔◌, IsTrue, IfOk, IsOk};
ghost use Rattle.std.specs.Str.{chars};
ghost use Rattle.ignore_set.specs.Sets.{Allows, Applies, IsShort};

use crate::has_pattern::HasPattern;
use ignore_glob::internal::matches;
use std::alloc::AllocError;

/// Whether the pattern matches the text and allows its kind, and how many passes over positions
/// that took.
pub(crate) fn applies<M: HasPattern>(
    candidate: &M,
    text: &str,
    is_dir: bool,
) -> Result<(bool, u64), AllocError>
    ensures value { IfOk result (λ r. IsTrue r.0 ↔ Applies (chars text.now) is_dir (M.member candidate.now)) }
    ensures passes { IfOk result (λ r. r.1 ≤ 1) }
    ensures succeeds { IsShort (M.member candidate.now).reading → IsOk result }
{
    if !allows(candidate, is_dir) {
        return Ok((false, 0));
    }
    Ok((matches(candidate.pattern(), text)?, 1))
}

fn allows<M: HasPattern>(candidate: &M, is_dir: bool) -> bool
    ensures { IsTrue result ↔ Allows is_dir (M.member candidate.now) }
{
    !candidate.is_only_dir() || is_dir
}
