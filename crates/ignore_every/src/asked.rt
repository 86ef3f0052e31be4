//! Whether a path is one that is asked about.
ghost use Rattle.std.specs.Prelude.{◌≡◌, IsTrue, IfOk, IfSome, false, true, string_bytes};
ghost use Rattle.std.specs.Char.{IsScalar};
ghost use Rattle.std.specs.Str.{chars};
ghost use Rattle.ignore_every.specs.Names.{IsNext};
ghost use Rattle.ignore_every.specs.Questions.{IsAsked, IsIgnored};

use crate::place::NameStart;
use ignore_base::Match;
use ignore_rules::gitignore::Gitignore;
use std::alloc::{AllocError, Global};

/// Whether rules ignore a directory.
fn ignores_dir(rules: &Gitignore, path: &str) -> Result<bool, AllocError>
    ensures { IfOk result (λ yes. yes ≡ false → IsIgnored rules.now.rules (chars path.now) true → ⊥) }
{
    match rules.answer(path, true)? {
        Match::Ignore(_) => Ok(true),
        Match::None => Ok(false),
        Match::Whitelist(_) => Ok(false),
    }
}

/// Whether a slash may follow a path whose present name begins so.
fn may_end(
    rules: &Gitignore,
    reached: bool,
    path: &str,
    name: NameStart,
) -> Result<bool, AllocError>
    ensures { IfOk result (λ yes. IsTrue yes → IsNext reached rules.now.rules (chars path.now) name 47) }
{
    if !name.is_named() {
        return Ok(false);
    }
    if !reached {
        return Ok(true);
    }
    let ignored = ignores_dir(rules, path)?;
    Ok(!ignored)
}

/// Whether a path goes on by a character.
fn goes_on(
    rules: &Gitignore,
    reached: bool,
    path: &str,
    name: NameStart,
    c: char,
) -> Result<bool, AllocError>
    ensures next { IfOk result (λ yes. IsTrue yes → IsNext reached rules.now.rules (chars path.now) name c) }
    ensures scalar { IsScalar c }
{
    if c == '/' {
        return may_end(rules, reached, path, name);
    }
    Ok(c != '\0')
}

/// The path of these characters, where it is one that is asked about.
pub(crate) fn asked_path(
    alloc: Global,
    rules: &Gitignore,
    reached: bool,
    text: &[char],
) -> Result<Option<String>, AllocError>
    ensures asked { IfOk result (λ found. IfSome found (λ path. IsAsked reached rules.now.rules (chars (string_bytes path)))) }
    ensures same { IfOk result (λ found. IfSome found (λ path. chars (string_bytes path) ≡ text.now)) }
{
    let mut path = String::new(alloc);
    let mut name = NameStart::Empty;
    for c in text {
        let goes = goes_on(rules, reached, path.as_str(), name, *c)?;
        if !goes {
            return Ok(None);
        }
        path.push(*c)?;
        let longer = name.after(*c);
        name = longer;
    }
    if name.is_named() {
        Ok(Some(path))
    } else {
        Ok(None)
    }
}
