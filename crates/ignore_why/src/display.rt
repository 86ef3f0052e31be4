//! The text of a reason.
ghost use Rattle.std.specs.Prelude.{Some};
ghost use Rattle.ignore_why.specs.Cited.{cited_of, named_of};
ghost use Rattle.ignore_why.specs.Texts.{cited_text, rule_text, query_why_text};
ghost use Rattle.ignore_why.specs.QueryWhy.{query_why_of};

use crate::cause::{Cause, NamedRule};
use crate::explanation::{Explanation, Reason};
use ignore_base::Match;
use std::fmt;

/// `SOURCE:LINE:PATTERN`, the pattern as it was written. What isn't known is left out, its colon
/// isn't.
impl fmt::Display for NamedRule {
    ghost output = { λ r. Some (rule_text (named_of r)) };

    fn fmt<W: fmt::Write>(&self, f: &mut fmt::Formatter<W>) -> fmt::Result {
        let original = self.original.as_str();
        match &self.source {
            Some(source) => match self.line {
                Some(line) => write!(f, "{source}:{line}:{original}"),
                None => write!(f, "{source}::{original}"),
            },
            None => match self.line {
                Some(line) => write!(f, ":{line}:{original}"),
                None => write!(f, "::{original}"),
            },
        }
    }
}

/// The rule, `override *.rs`, `type rust`, `hidden`; `no override` and `no type` where none matches.
impl fmt::Display for Cause {
    ghost output = { λ c. Some (cited_text (cited_of c)) };

    fn fmt<W: fmt::Write>(&self, f: &mut fmt::Formatter<W>) -> fmt::Result {
        match self {
            Cause::Override(Some(glob)) => write!(f, "override {glob}"),
            Cause::Override(None) => write!(f, "no override"),
            Cause::Rule(rule) => write!(f, "{rule}"),
            Cause::Type(Some(found)) => {
                let name = found.name.as_str();
                write!(f, "type {name}")
            }
            Cause::Type(None) => write!(f, "no type"),
            Cause::Hidden => write!(f, "hidden"),
        }
    }
}

/// What decides, or a few plain words: `no rule`, `not asked`, `above the least depth`, `below the
/// greatest depth`, `larger than 500`. For a path in an ignored directory it is what decides on
/// that directory.
impl fmt::Display for Reason {
    ghost output = { λ r. Some (query_why_text (query_why_of r)) };

    fn fmt<W: fmt::Write>(&self, f: &mut fmt::Formatter<W>) -> fmt::Result {
        match self {
            Reason::Unasked => write!(f, "not asked"),
            Reason::Unruled => write!(f, "not asked"),
            Reason::TooShallow => write!(f, "above the least depth"),
            Reason::TooDeep => write!(f, "below the greatest depth"),
            Reason::Decided(Match::None) => write!(f, "no rule"),
            Reason::Decided(Match::Ignore(cause)) => write!(f, "{cause}"),
            Reason::Decided(Match::Whitelist(cause)) => write!(f, "{cause}"),
            Reason::Larger { limit, .. } => write!(f, "larger than {limit}"),
            Reason::Inside {
                cause: Match::None,
                ..
            } => write!(f, "no rule"),
            Reason::Inside {
                cause: Match::Ignore(cause),
                ..
            } => write!(f, "{cause}"),
            Reason::Inside {
                cause: Match::Whitelist(cause),
                ..
            } => write!(f, "{cause}"),
        }
    }
}

/// The text of its reason.
impl fmt::Display for Explanation {
    ghost output = { λ e. Some (query_why_text (query_why_of e.reason)) };

    fn fmt<W: fmt::Write>(&self, f: &mut fmt::Formatter<W>) -> fmt::Result {
        let reason = &self.reason;
        write!(f, "{reason}")
    }
}
