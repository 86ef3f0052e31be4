//! What a list says of a question, by asking its rules.
ghost use Rattle.std.specs.Prelude.{◌≡◌, ℕ, IsTrue, IfOk, IfSome, Some, false, slice_get};
ghost use Rattle.std.specs.Str.{chars};
ghost use Rattle.ignore_rules.specs.Answer.{does_apply};
ghost use Rattle.ignore_rules.specs.Rules.{Rule};
ghost use Rattle.ignore_every.specs.Questions.{HasNoIgnoredAncestor};
ghost use Rattle.ignore_every.specs.Verdicts.{IsSaid};

use crate::asked::asked_path;
use crate::decided::{folder_on, last_applying};
use crate::error::Error;
use crate::places::ignores;
use crate::said::{Folder, Said};
use ignore_rules::gitignore::{Gitignore, Glob};
use std::alloc::{AllocError, Global};

/// What the list says of a path that it reaches: what the last rule says that applies.
fn said_reached(rules: &[Glob], path: &str, is_dir: bool) -> Result<Said, AllocError>
    ensures { IfOk result (λ said. HasNoIgnoredAncestor rules.now (chars path.now) → IsSaid rules.now (chars path.now) is_dir said) }
{
    let Some(index) = last_applying(rules, path, is_dir)? else {
        return Ok(Said::Nothing);
    };
    if ignores(rules, Some(index)) {
        Ok(Said::Ignored(index))
    } else {
        Ok(Said::Whitelisted(index))
    }
}

/// What a list says of a question.
pub(crate) fn said_of(
    alloc: Global,
    rules: &Gitignore,
    text: &[char],
    is_dir: bool,
) -> Result<Said, Error>
    ensures { IfOk result (λ said. IsSaid rules.now.rules text.now is_dir said) }
{
    let found = folder_on(alloc, rules.rules(), text)?;
    if let Some(on) = found {
        return Ok(Said::InFolder(Folder {
            path: on.0,
            rule: on.1,
        }));
    }
    let asked = asked_path(alloc, rules, true, text)?;
    let Some(path) = asked else {
        return Err(Error::Rejected);
    };
    let said = said_reached(rules.rules(), path.as_str(), is_dir)?;
    Ok(said)
}
