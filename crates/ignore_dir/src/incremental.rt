//! The answer of a query.
ghost use Rattle.std.specs.Prelude.{◌≡◌, not, ◌&&◌};
ghost use Rattle.ignore_dir.specs.Limits as limits;
ghost use Rattle.ignore_dir.specs.Verdict as verdicts;

use crate::limits::{is_above, is_deepest};
use crate::settings::Settings;
use crate::verdict::Verdict;

/// What becomes of a path that a matcher is asked about, and whether a walk yields it and goes on
/// below it.
#[derive(Clone, Copy, Debug, PartialEq, Eq)]
pub struct IncrementalMatch {
    verdict: Verdict,
    descends: bool,
    is_within: bool,
}

impl IncrementalMatch {
    /// Whether nothing decides on the path.
    pub fn is_none(&self) -> bool
        ensures { result ≡ limits.is_none self.now.verdict }
    {
        match self.verdict {
            Verdict::None => true,
            Verdict::Ignore => false,
            Verdict::Whitelist => false,
        }
    }

    /// Whether the path is ignored.
    pub fn is_ignore(&self) -> bool
        ensures { result ≡ verdicts.is_ignore self.now.verdict }
    {
        self.verdict.is_ignore()
    }

    /// Whether the path is whitelisted.
    pub fn is_whitelist(&self) -> bool
        ensures { result ≡ limits.is_whitelist self.now.verdict }
    {
        match self.verdict {
            Verdict::None => false,
            Verdict::Ignore => false,
            Verdict::Whitelist => true,
        }
    }

    /// Whether a walk would go on below the path: whether it is a directory that isn't ignored and
    /// isn't at the greatest depth.
    pub fn should_descend(&self) -> bool
        ensures { result ≡ self.now.descends }
    {
        self.descends
    }

    /// Whether the path is within the limits on depth.
    pub fn is_within_depth(&self) -> bool
        ensures { result ≡ self.now.is_within }
    {
        self.is_within
    }

    /// The same with ignore and whitelist exchanged. The rest stays.
    pub fn invert(self) -> IncrementalMatch
        ensures verdict { result.verdict ≡ limits.inverted self.verdict }
        ensures descends { result.descends ≡ self.descends }
        ensures is_within { result.is_within ≡ self.is_within }
    {
        IncrementalMatch {
            verdict: inverted(self.verdict),
            descends: self.descends,
            is_within: self.is_within,
        }
    }

    /// The answer where nothing is asked: no match, below which a walk goes on for directories.
    /// For dependents.
    pub fn no_match(is_dir: bool) -> IncrementalMatch
        ensures { result ≡ limits.no_match is_dir }
    {
        IncrementalMatch {
            verdict: Verdict::None,
            descends: is_dir,
            is_within: true,
        }
    }

    /// The answer for what is beyond the limits on depth.
    /// For dependents.
    pub fn beyond() -> IncrementalMatch
        ensures { result ≡ limits.beyond }
    {
        IncrementalMatch {
            verdict: Verdict::Ignore,
            descends: false,
            is_within: false,
        }
    }

    /// The answer with a verdict, at a depth that isn't beyond the limits.
    /// For dependents.
    pub fn limited(
        settings: &Settings,
        depth: usize,
        is_dir: bool,
        verdict: Verdict,
    ) -> IncrementalMatch
        ensures { result ≡ limits.limited settings.now depth is_dir verdict }
    {
        IncrementalMatch {
            verdict,
            descends: is_dir && (!verdict.is_ignore() && !is_deepest(settings.max_depth, depth)),
            is_within: !is_above(settings.min_depth, depth),
        }
    }
}

fn inverted(verdict: Verdict) -> Verdict
    ensures { result ≡ limits.inverted verdict }
{
    match verdict {
        Verdict::None => Verdict::None,
        Verdict::Ignore => Verdict::Whitelist,
        Verdict::Whitelist => Verdict::Ignore,
    }
}
