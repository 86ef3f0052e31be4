//! A matcher of rules.
ghost use Rattle.std.specs.Prelude.{◌≡◌, ◌+◌, ◌==◌, IfOk, IfErr, IsOk, drop, length, string_bytes};
ghost use Rattle.std.specs.Str.{IsCharBoundary, chars};
ghost use Rattle.ignore_base.specs.Match.{match_map};
ghost use Rattle.ignore_base.specs.Problem.{problem_of, memory};
ghost use Rattle.ignore_rules.specs.Answer.{answer, list_answer};
ghost use Rattle.ignore_rules.specs.RuleIndex.{AreShortRules};
ghost use Rattle.ignore_rules.specs.Rules.{empty, ignore_count, whitelist_count};

use crate::gitignore::glob::Glob;
use crate::gitignore::kept::{Kept, RootedRules};
use ignore_base::text::strip;
use ignore_base::{Error, Match};
use ignore_set::Haystack;
use std::alloc::{AllocError, Global};
use std::marker::Model;

/// A matcher of paths: rules in order, and the root that they are relative to. A clone shares the
/// rules, and what was built to find the one that decides: it copies neither.
#[derive(Debug, Drop)]
pub struct Gitignore {
    kept: Kept,
}

impl Model for Gitignore {
    ghost use Rattle.ignore_rules.specs.Rules.{Ruleset};
    ghost use Rattle.ignore_rules.specs.RuleCodes.{ruleset_code};
    ghost use Rattle.ignore_rules.specs.Kept.{kept_rules};

    ghost Value = { Ruleset };

    ghost coded = { ruleset_code };

    ghost view = { λ g. kept_rules g.kept };
}

impl Gitignore {
    /// The matcher of no rules: each path has no match, and its root is empty.
    pub fn empty(alloc: Global) -> Gitignore
        ensures { result ≡ empty }
    {
        Gitignore {
            kept: Kept::Alone(RootedRules::empty(alloc)),
        }
    }

    pub(crate) fn from_parts(root: String, globs: Vec<Glob>) -> Gitignore
        ensures { result ≡ record { root = string_bytes root; rules = globs.items } }
    {
        Gitignore {
            kept: Kept::of(RootedRules::new(root, globs)),
        }
    }

    /// The root: the directory that paths are matched relative to.
    pub fn path(&self) -> &str
        ensures { result.now ≡ self.now.root }
    {
        self.kept.rules().root()
    }

    /// Whether there are no rules, so that no path has a match.
    pub fn is_empty(&self) -> bool
        ensures { result ≡ (length self.now.rules == 0) }
    {
        self.rules().is_empty()
    }

    /// For dependents: the rules, in the order in which they were added.
    pub fn rules(&self) -> &[Glob]
        ensures { result.now ≡ self.now.rules }
    {
        self.kept.rules().globs()
    }

    /// How many rules there are: those that ignore and those that whitelist.
    pub fn len(&self) -> usize
        ensures rules { result ≡ length self.now.rules }
        ensures kinds { result ≡ ignore_count self.now.rules + whitelist_count self.now.rules }
    {
        self.rules().len()
    }

    /// How many rules ignore what they match. They are counted when the matcher is built.
    pub fn num_ignores(&self) -> u64
        ensures { result ≡ ignore_count self.now.rules }
    {
        self.kept.rules().num_ignores()
    }

    /// How many rules whitelist what they match. They are counted when the matcher is built.
    pub fn num_whitelists(&self) -> u64
        ensures { result ≡ whitelist_count self.now.rules }
    {
        self.kept.rules().num_whitelists()
    }

    /// The answer of the rules for a path, with the rule that decided: the last one that matches
    /// the path and applies to its kind, as in gitignore(5), where a later line overrides an
    /// earlier one.
    ///
    /// One leading `./` of the path and the root are stripped first. `is_dir` says whether the path
    /// is a directory. A path below an ignored directory has a match of its own or none: its
    /// parents aren't matched.
    ///
    /// # Errors
    /// `Error::Memory` alone, and none where all globs are without braces and have at most 62
    /// positions: no memory is requested.
    pub fn matched(&self, path: &str, is_dir: bool) -> Result<Match<&Glob>, Error>
        ensures answered { IfOk result (λ m. match_map (λ g. g.now) m ≡ answer self.now.root self.now.rules path.now is_dir) }
        ensures out_of_memory { IfErr result (λ e. problem_of e ≡ memory) }
        ensures succeeds { AreShortRules self.now.rules → IsOk result }
    {
        if self.is_empty() {
            return Ok(Match::None);
        }
        Ok(self.answer(strip(self.path(), path), is_dir)?)
    }

    /// For dependents: as `matched`, of what is left of a path below the root when the root is
    /// stripped. Nothing is stripped here, so that a walk, which knows where in a path the names
    /// below a directory begin (`text::offset_below`), asks about slices of one path.
    ///
    /// # Errors
    /// None where `matched` has none.
    pub fn answer(&self, stripped: &str, is_dir: bool) -> Result<Match<&Glob>, AllocError>
        ensures answered { IfOk result (λ m. match_map (λ g. g.now) m ≡ list_answer self.now.rules (chars stripped.now) is_dir) }
        ensures succeeds { AreShortRules self.now.rules → IsOk result }
    {
        self.kept.answer(&mut Haystack::new(stripped), 0, is_dir)
    }

    /// For dependents: as `answer`, of what follows an offset in a path of which other matchers are
    /// asked too, each by an offset of its own: what the rules look for in a path is looked for once.
    /// Where the offset is within a character, or beyond the path, there is no match.
    ///
    /// # Errors
    /// None where `matched` has none.
    pub fn answer_after(
        &self,
        path: &mut Haystack<'_>,
        offset: usize,
        is_dir: bool,
    ) -> Result<Match<&Glob>, AllocError>
        ensures answered { IsCharBoundary path.old offset → IfOk result (λ m. match_map (λ g. g.now) m
            ≡ list_answer self.now.rules (chars (drop offset path.old)) is_dir) }
        ensures same { path.new ≡ path.old }
        ensures succeeds { AreShortRules self.now.rules → IsOk result }
    {
        self.kept.answer(path, offset, is_dir)
    }
}

impl Clone for Gitignore {
    ghost use Rattle.std.specs.Prelude.{◌≡◌};

    ghost is_clone = { λ g h. h ≡ g };

    fn clone(&self) -> Result<Gitignore, AllocError> {
        Ok(Gitignore {
            kept: self.kept.again()?,
        })
    }
}
