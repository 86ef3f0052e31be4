//! Globs of a command line, which override every ignore file.
//!
//! They are gitignore globs with the meaning inverted: a glob whitelists what it matches, and one
//! with a leading `!` ignores it.
ghost use Rattle.std.specs.Prelude.{◌≡◌, ◌⊎◌, ◌==◌, None, false, IfOk, IfErr, IsOk, OnOk, OnErr, length};
ghost use Rattle.std.specs.Option.{option_copied};
ghost use Rattle.ignore_base.specs.Problem.{problem_of, memory};
ghost use Rattle.ignore_rules.specs.Overrides.{override_answer};
ghost use Rattle.ignore_rules.specs.RuleIndex.{AreShortRules};
ghost use Rattle.ignore_rules.specs.Rules.{begun, empty, built, AddsLine, Refuses, ignore_count, whitelist_count, with_case_insensitive};
ghost use Rattle.ignore_rules.specs.Rules.{with_unclosed_class};

use crate::gitignore;
use crate::gitignore::{Gitignore, GitignoreBuilder};
use ignore_base::{Error, Match};
use std::alloc::{AllocError, Global};
use std::marker::Model;

/// What decided an answer: a glob, or that no glob matched the path.
#[derive(Debug, Drop)]
pub struct Glob<'a> {
    rule: Option<&'a gitignore::Glob>,
}

impl<'a> Model for Glob<'a> {
    ghost use Rattle.std.specs.Prelude.{Option};
    ghost use Rattle.std.specs.Option.{option_copied};
    ghost use Rattle.std.specs.Coded.{coded_option};
    ghost use Rattle.ignore_rules.specs.Rules.{Rule};
    ghost use Rattle.ignore_rules.specs.RuleCodes.{rule_code};

    ghost Value = { Option Rule };

    ghost coded = { coded_option rule_code };

    ghost view = { λ g. option_copied g.rule };
}

impl<'a> Glob<'a> {
    /// The glob that decided, which has no number of a line; none where no glob matched the path.
    pub fn rule(&self) -> Option<&gitignore::Glob>
        ensures { option_copied result ≡ self.now }
    {
        self.rule
    }
}

impl<'a> Clone for Glob<'a> {
    ghost use Rattle.std.specs.Prelude.{◌≡◌};

    ghost is_clone = { λ g copy. copy ≡ g };

    fn clone(&self) -> Result<Glob<'a>, AllocError> {
        Ok(Glob { rule: self.rule })
    }
}

/// The globs of a command line, relative to a root.
#[derive(Debug, Drop)]
pub struct Override {
    globs: Gitignore,
}

impl Model for Override {
    ghost use Rattle.ignore_rules.specs.Rules.{Ruleset};
    ghost use Rattle.ignore_rules.specs.RuleCodes.{ruleset_code};

    ghost Value = { Ruleset };

    ghost coded = { ruleset_code };

    ghost view = { λ o. o.globs };
}

impl Override {
    /// No globs: every path has no match.
    pub fn empty(alloc: Global) -> Override
        ensures { result ≡ empty }
    {
        Override {
            globs: Gitignore::empty(alloc),
        }
    }

    /// The directory that the globs are relative to; the empty text where there are none.
    pub fn path(&self) -> &str
        ensures { result.now ≡ self.now.root }
    {
        self.globs.path()
    }

    /// Whether there are no globs, so that no path has a match.
    pub fn is_empty(&self) -> bool
        ensures { result ≡ (length self.now.rules == 0) }
    {
        self.globs.is_empty()
    }

    /// How many globs ignore what they match: those with a leading `!`.
    pub fn num_ignores(&self) -> u64
        ensures { result ≡ whitelist_count self.now.rules }
    {
        self.globs.num_whitelists()
    }

    /// How many globs whitelist what they match.
    pub fn num_whitelists(&self) -> u64
        ensures { result ≡ ignore_count self.now.rules }
    {
        self.globs.num_ignores()
    }

    /// The answer of the globs for a path. The last glob that matches it and applies to its kind
    /// decides: it whitelists the path, or ignores it where the glob has a leading `!`. Where some
    /// glob whitelists and none matches the path, a file is ignored and a directory has no match,
    /// since what is below it may be whitelisted.
    ///
    /// # Errors
    /// `Error::Memory` alone, and none where all globs are without braces and have at most 62
    /// positions: no memory is requested.
    pub fn matched(&self, path: &str, is_dir: bool) -> Result<Match<Glob<'_>>, Error>
        ensures answered { IfOk result (λ m. m ≡ override_answer self.now path.now is_dir) }
        ensures out_of_memory { IfErr result (λ e. problem_of e ≡ memory) }
        ensures succeeds { AreShortRules self.now.rules → IsOk result }
    {
        let matched = self.globs.matched(path, is_dir)?;
        if matched.is_none() && !is_dir && self.num_whitelists() > 0 {
            return Ok(Match::Ignore(Glob { rule: None }));
        }
        Ok(matched.invert().map(|rule| Glob { rule: Some(rule) }))
    }
}

/// Builds the globs of a command line, in order.
#[derive(Debug, Drop)]
pub struct OverrideBuilder {
    globs: GitignoreBuilder,
}

impl Model for OverrideBuilder {
    ghost use Rattle.ignore_rules.specs.Rules.{Building};
    ghost use Rattle.ignore_rules.specs.RuleCodes.{building_code};

    ghost Value = { Building };

    ghost coded = { building_code };

    ghost view = { λ b. b.globs };
}

impl OverrideBuilder {
    /// A builder of no globs, relative to the directory `root`, of which one leading `./` is
    /// stripped. It is case sensitive, and an unclosed class is an error.
    ///
    /// # Errors
    /// `Error::Memory` alone.
    pub fn new(alloc: Global, root: &str) -> Result<OverrideBuilder, Error>
        ensures value { IfOk result (λ b. b ≡ with_unclosed_class (begun root.now) false) }
        ensures out_of_memory { IfErr result (λ e. problem_of e ≡ memory) }
    {
        let mut globs = GitignoreBuilder::new(alloc, root)?;
        globs.allow_unclosed_class(false);
        Ok(OverrideBuilder { globs })
    }

    /// Adds a glob, parsed as a line of a gitignore file: with a leading `!` it ignores what it
    /// matches.
    ///
    /// # Errors
    /// `Error::Glob` with the glob and its parse error, or `Error::Memory`. What holds of the
    /// builder after an error is proved of `push`, which does the work, and not of this call: a
    /// caller that needs it as it was uses that one.
    pub fn add(&mut self, glob: &str) -> Result<&mut Self, Error>
        ensures same_reference { IfOk result (λ b. b.ghost_name ≡ self.entry.ghost_name) }
        ensures added { IfOk result (λ b. AddsLine self.old None glob.now b.now) }
        ensures refused { IfErr result (λ e. (problem_of e ≡ memory) ⊎ Refuses self.old.options glob.now (problem_of e)) }
    {
        self.push(glob)?;
        Ok(self)
    }

    /// As `add`, without the builder in what is returned. After an error the builder is as before.
    pub fn push(&mut self, glob: &str) -> Result<(), Error>
        ensures added { OnOk result (AddsLine self.old None glob.now self.new) }
        ensures refused { IfErr result (λ e. (problem_of e ≡ memory) ⊎ Refuses self.old.options glob.now (problem_of e)) }
        ensures unchanged { OnErr result (self.new ≡ self.old) }
    {
        self.globs.push_line(None, glob)
    }

    /// The globs added so far, in their order; the builder can be used further.
    ///
    /// # Errors
    /// `Error::Memory` alone.
    pub fn build(&self) -> Result<Override, Error>
        ensures value { IfOk result (λ o. o ≡ built self.now) }
        ensures out_of_memory { IfErr result (λ e. problem_of e ≡ memory) }
    {
        let globs = self.globs.build()?;
        Ok(Override { globs })
    }

    /// Whether later globs match both ASCII cases of a letter. It is off at first, and always `Ok`.
    pub fn case_insensitive(&mut self, yes: bool) -> Result<&mut Self, Error>
        ensures succeeds { IsOk result }
        ensures same_reference { IfOk result (λ b. b.ghost_name ≡ self.entry.ghost_name) }
        ensures value { IfOk result (λ b. b.now ≡ with_case_insensitive self.old yes) }
    {
        self.globs.case_insensitive(yes)?;
        Ok(self)
    }

    /// Whether in later globs a `[` that nothing closes stands for itself. It is off at first.
    pub fn allow_unclosed_class(&mut self, yes: bool) -> &mut Self
        ensures same_reference { result.ghost_name ≡ self.entry.ghost_name }
        ensures value { result.now ≡ with_unclosed_class self.old yes }
    {
        self.globs.allow_unclosed_class(yes);
        self
    }
}

impl Clone for Override {
    ghost use Rattle.std.specs.Prelude.{◌≡◌};

    ghost is_clone = { λ o p. p ≡ o };

    fn clone(&self) -> Result<Override, AllocError> {
        Ok(Override {
            globs: self.globs.clone()?,
        })
    }
}

impl Clone for OverrideBuilder {
    ghost use Rattle.std.specs.Prelude.{◌≡◌};

    ghost is_clone = { λ b c. c ≡ b };

    fn clone(&self) -> Result<OverrideBuilder, AllocError> {
        let globs = self.globs.clone()?;
        Ok(OverrideBuilder { globs })
    }
}
