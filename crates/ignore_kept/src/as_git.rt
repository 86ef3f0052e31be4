//! What rules say of a path as git asks them: from the root down.
ghost use Rattle.std.specs.Prelude.{◌≡◌, IfOk};
ghost use Rattle.ignore_base.specs.Match.{match_map};
ghost use Rattle.ignore_kept.specs.AsGit.{answer_as_git, first_ignored, folders, own_answer};

use ignore::Match;
use ignore::gitignore::{Gitignore, Glob};
use ignore::text::strip;
use std::alloc::AllocError;

/// What the rules say of the first ignored directory below the root that a path is in, and else of
/// the path. The root itself isn't asked.
pub(crate) fn matched_as_git<'g>(
    rules: &'g Gitignore,
    path: &str,
    is_dir: bool,
) -> Result<Match<&'g Glob>, AllocError>
    ensures { IfOk result (λ m. match_map (λ g. g.now) m ≡ answer_as_git rules.now path.now is_dir) }
{
    let text = strip(rules.path(), path);
    let folder = ignored_folder(rules, text)?;
    if folder.is_ignore() {
        return Ok(folder);
    }
    own_answer(rules, text, is_dir)
}

/// What the rules say of a path below the root; nothing of the root itself.
fn own_answer<'g>(
    rules: &'g Gitignore,
    text: &str,
    is_dir: bool,
) -> Result<Match<&'g Glob>, AllocError>
    ensures { IfOk result (λ m. match_map (λ g. g.now) m ≡ own_answer rules.now.rules text.now is_dir) }
{
    if text.is_empty() {
        return Ok(Match::None);
    }
    rules.answer(text, is_dir)
}

/// What the rules say of the first ignored directory that a path below the root is in.
fn ignored_folder<'g>(rules: &'g Gitignore, text: &str) -> Result<Match<&'g Glob>, AllocError>
    ensures { IfOk result (λ m. match_map (λ g. g.now) m ≡ first_ignored rules.now.rules (folders text.now)) }
{
    let mut end = 0;
    for byte in text.as_bytes() {
        if *byte == b'/' && end > 0 {
            let folder = rules.answer(&text[..end], true)?;
            if folder.is_ignore() {
                return Ok(folder);
            }
        }
        end += 1;
    }
    Ok(Match::None)
}
