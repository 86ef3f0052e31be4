//! Matching a path together with its parents.
ghost use Rattle.std.specs.Prelude.{◌≡◌, ◌≢◌, ◌==◌, ◌<◌, ◌∷◌, IsTrue, false, IfOk, IfErr, IsOk, length, slice_index};
ghost use Rattle.std.specs.Str.{chars};
ghost use Rattle.ignore_base.specs.Match.{match_map};
ghost use Rattle.ignore_base.specs.Problem.{problem_of, memory};
ghost use Rattle.ignore_rules.specs.RuleIndex.{AreShortRules};
ghost use Rattle.ignore_rules.specs.Parents.{answer_with_parents, directories_answer, is_under_root, nearest_answer, parents};

use crate::gitignore::glob::Glob;
use crate::gitignore::matcher::Gitignore;
use ignore_base::text::strip;
use ignore_base::{Error, Match};
use memchr::memrchr;
use std::alloc::AllocError;

impl Gitignore {
    /// Whether a path can be matched together with its parents: there are no rules, or the path
    /// without the root doesn't begin with `/`.
    pub fn is_under_root(&self, path: &str) -> bool
        ensures { result ≡ is_under_root self.now path.now }
    {
        self.is_empty() || !strip(self.path(), path).starts_with('/')
    }

    /// The answer of the rules for a path, or else for the nearest of its parents that has a match.
    ///
    /// One leading `./` of the path and the root are stripped first. The parents of the rest are
    /// matched as directories: what precedes its last `/`, and so on, down to the empty path, which
    /// has no parent. `is_under_root` tests whether a path can be matched so; the original panics
    /// for one that can't.
    ///
    /// # Errors
    /// As `matched`.
    pub fn matched_path_or_any_parents(
        &self,
        path: &str,
        is_dir: bool,
    ) -> Result<Match<&Glob>, Error>
        requires { IsTrue (is_under_root self.now path.now) }
        ensures answered { IfOk result (λ m. match_map (λ g. g.now) m ≡ answer_with_parents self.now.root self.now.rules path.now is_dir) }
        ensures out_of_memory { IfErr result (λ e. problem_of e ≡ memory) }
        ensures succeeds { AreShortRules self.now.rules → IsOk result }
    {
        if self.is_empty() {
            return Ok(Match::None);
        }
        let path = strip(self.path(), path);
        Ok(nearest_answer(self, path, is_dir)?)
    }
}

fn nearest_answer<'g>(
    matcher: &'g Gitignore,
    text: &str,
    is_dir: bool,
) -> Result<Match<&'g Glob>, AllocError>
    requires { slice_index text.now 0 ≢ 47 }
    ensures answered { IfOk result (λ m. match_map (λ g. g.now) m ≡ nearest_answer matcher.now.rules (chars text.now) is_dir) }
    ensures succeeds { AreShortRules matcher.now.rules → IsOk result }
{
    let answer = matcher.answer(text, is_dir)?;
    if answer.is_none() {
        nearest_parent_answer(matcher, text)
    } else {
        Ok(answer)
    }
}

fn nearest_parent_answer<'g>(
    matcher: &'g Gitignore,
    text: &str,
) -> Result<Match<&'g Glob>, AllocError>
    requires { slice_index text.now 0 ≢ 47 }
    ensures answered { IfOk result (λ m. match_map (λ g. g.now) m ≡ directories_answer matcher.now.rules (parents (chars text.now))) }
    ensures succeeds { AreShortRules matcher.now.rules → IsOk result }
{
    let mut rest = text;
    while !rest.is_empty() {
        rest = parent(rest);
        let answer = matcher.answer(rest, true)?;
        if !answer.is_none() {
            return Ok(answer);
        }
    }
    Ok(Match::None)
}

/// What precedes the last slash of a path, or else the empty path.
fn parent(path: &str) -> &str
    requires some { 0 < length path.now }
    requires first { slice_index path.now 0 ≢ 47 }
    ensures shorter { length result.now < length path.now }
    ensures first { slice_index result.now 0 ≢ 47 }
    ensures next { parents (chars path.now) ≡ chars result.now ∷ parents (chars result.now) }
{
    match memrchr(b'/', path.as_bytes()) {
        Some(slash) => &path[..slash],
        None => "",
    }
}
