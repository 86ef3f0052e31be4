//! One rule of a line, which the original calls a glob.
ghost use Rattle.std.specs.Prelude.{◌≡◌, option_map, IfOk, IsOk};
ghost use Rattle.std.specs.Arc.{arc_str_bytes};
ghost use Rattle.std.specs.Option.{option_copied};
ghost use Rattle.std.specs.Str.{chars};
ghost use Rattle.ignore_base.specs.Match.{match_map};
ghost use Rattle.ignore_rules.specs.Answer.{does_apply, decision_of};
ghost use Rattle.ignore_rules.specs.Rules.{read_rule};
ghost use Rattle.ignore_glob.specs.DoesMatch.{does_match};
ghost use Rattle.ignore_set.specs.Sets.{IsShort};

use crate::gitignore::line::ParsedLine;
use crate::gitignore::origin::Origin;
use ignore_base::Match;
use ignore_glob::glob::Pattern;
use ignore_glob::internal;
use ignore_set::HasPattern;
use std::alloc::AllocError;
use std::marker::Model;
use std::sync::ArcStr;

/// A rule: one line of a gitignore file, which ignores or whitelists the paths that its glob
/// matches.
///
/// A matcher returns the rule that decided, so that a user can learn why a path is ignored.
#[derive(Debug, Drop)]
pub struct Glob {
    /// Shared by the rules of a file.
    from: Option<ArcStr>,
    /// The number of its line in a file, from 1, and 0 for none.
    line: u64,
    original: String,
    actual: String,
    is_whitelist: bool,
    is_only_dir: bool,
    pattern: Pattern,
}

impl Model for Glob {
    ghost use Rattle.std.specs.Prelude.{option_map, string_bytes};
    ghost use Rattle.std.specs.Arc.{arc_str_bytes};
    ghost use Rattle.ignore_rules.specs.Rules.{Rule, number_of};
    ghost use Rattle.ignore_rules.specs.RuleCodes.{rule_code};

    ghost Value = { Rule };

    ghost coded = { rule_code };

    ghost view = { λ g. record {
      from = option_map arc_str_bytes g.from;
      line = number_of g.line;
      original = string_bytes g.original;
      actual = string_bytes g.actual;
      is_whitelist = g.is_whitelist;
      is_only_dir = g.is_only_dir;
      reading = g.pattern;
    } };
}

impl Glob {
    /// The rule of a line, with its parsed glob.
    pub(crate) fn new(origin: Origin, parsed_line: ParsedLine, pattern: Pattern) -> Glob
        ensures { result ≡ read_rule origin parsed_line pattern }
    {
        let Origin { from, line } = origin;
        let ParsedLine {
            original,
            actual,
            is_whitelist,
            is_only_dir,
        } = parsed_line;
        Glob {
            from,
            line,
            original,
            actual,
            is_whitelist,
            is_only_dir,
            pattern,
        }
    }

    /// The origin of the rule, as it was given with its line: the path of a file, or nothing.
    pub fn from(&self) -> Option<&str>
        ensures { option_copied result ≡ self.now.from }
    {
        self.from.as_deref()
    }

    /// The number of the line that the rule was read from, in the file of `from`: the first line
    /// is 1, and comments and blank lines count. None where the line was added by itself, as
    /// `GitignoreBuilder::add_line` does and the globs of overrides are.
    pub fn line(&self) -> Option<u64>
        ensures { result ≡ self.now.line }
    {
        if self.line == 0 {
            None
        } else {
            Some(self.line)
        }
    }

    /// The line of the rule, without trailing white space.
    pub fn original(&self) -> &str
        ensures { result.now ≡ self.now.original }
    {
        self.original.as_str()
    }

    /// The glob of the line, which is matched against paths relative to the root of the rules.
    pub fn actual(&self) -> &str
        ensures { result.now ≡ self.now.actual }
    {
        self.actual.as_str()
    }

    /// Whether the rule whitelists what it matches: its line begins with `!`.
    pub fn is_whitelist(&self) -> bool
        ensures { result ≡ self.now.is_whitelist }
    {
        self.is_whitelist
    }

    /// Whether the rule applies to directories only: its line ends with `/`.
    pub fn is_only_dir(&self) -> bool
        ensures { result ≡ self.now.is_only_dir }
    {
        self.is_only_dir
    }

    pub(crate) fn applies(&self, text: &str, is_dir: bool) -> Result<bool, AllocError>
        ensures value { IfOk result (λ yes. yes ≡ does_apply (chars text.now) is_dir self.now) }
        ensures succeeds { IsShort self.now.reading → IsOk result }
    {
        if self.is_only_dir && !is_dir {
            return Ok(false);
        }
        self.matches(text)
    }

    fn matches(&self, text: &str) -> Result<bool, AllocError>
        ensures value { IfOk result (λ yes. yes ≡ does_match self.now.reading (chars text.now)) }
        ensures succeeds { IsShort self.now.reading → IsOk result }
    {
        internal::matches(&self.pattern, text)
    }

    pub(crate) fn decision(&self) -> Match<&Glob>
        ensures { match_map (λ g. g.now) result ≡ decision_of self.now }
    {
        if self.is_whitelist {
            Match::Whitelist(self)
        } else {
            Match::Ignore(self)
        }
    }
}

impl HasPattern for Glob {
    ghost use Rattle.ignore_rules.specs.RuleIndex.{rule_member};

    ghost member = { rule_member };

    fn pattern(&self) -> &Pattern {
        &self.pattern
    }

    fn is_only_dir(&self) -> bool {
        self.is_only_dir
    }
}

impl Clone for Glob {
    ghost use Rattle.std.specs.Prelude.{◌≡◌};

    ghost is_clone = { λ g h. h ≡ g };

    fn clone(&self) -> Result<Glob, AllocError> {
        Ok(Glob {
            from: self.from.clone()?,
            line: self.line,
            original: self.original.clone()?,
            actual: self.actual.clone()?,
            is_whitelist: self.is_whitelist,
            is_only_dir: self.is_only_dir,
            pattern: self.pattern.clone()?,
        })
    }
}
