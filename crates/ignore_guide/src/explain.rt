//! Why what becomes of an entry of a directory that was entered is that.
ghost use Rattle.std.specs.Prelude.{◌≡◌, IfOk, IfErr, ℕ};
ghost use Rattle.ignore_base.specs.Match.{match_map};
ghost use Rattle.ignore_dir.specs.Limits.{size_limit};
ghost use Rattle.ignore_dir.specs.Steps.{Reached};
ghost use Rattle.ignore_dir.specs.Verdict.{verdict_of};
ghost use Rattle.ignore_guide.specs.Forest.{Stands};
ghost use Rattle.ignore_guide.specs.Guide.{StandsFor, decided};
ghost use Rattle.ignore_guide.specs.Names.{IsAsked, IsRefused};
ghost use Rattle.ignore_guide.specs.Reasons.{decided_why, why_within};
ghost use Rattle.ignore_levels.specs.Levels.{slots_of};
ghost use Rattle.ignore_why.specs.Cited.{cited_of};
ghost use Rattle.ignore_why.specs.QueryWhy.{query_why_of, why_beyond};

use crate::error::GuideError;
use crate::guide::Guide;
use crate::judge::Entry;
use crate::places::{Entered, Place};
use ignore_base::Match;
use ignore_dir::Settings;
use ignore_dir::limits::{is_beyond, size_limit};
use ignore_dir::verdict::Verdict;
use ignore_why::{Cause, Explanation, Reason};
use std::alloc::AllocError;

/// Why what is beyond the limits on depth is ignored.
fn beyond_by(settings: &Settings, depth: usize) -> Reason
    ensures { query_why_of result ≡ why_beyond settings.now depth }
{
    if is_beyond(settings, depth, true) {
        Reason::TooDeep
    } else {
        Reason::TooShallow
    }
}

/// The verdict of what decides.
fn verdict_of(said: &Match<Cause>) -> Verdict
    ensures { result ≡ verdict_of (match_map cited_of said.now) }
{
    match said {
        Match::None => Verdict::None,
        Match::Ignore(_) => Verdict::Ignore,
        Match::Whitelist(_) => Verdict::Whitelist,
    }
}

/// A size above a limit, where both are known; else what decides.
fn sized_by(limit: Option<u64>, size: Option<u64>, said: Match<Cause>) -> Reason
    ensures { query_why_of result ≡ why_within limit size (match_map cited_of said) }
{
    let Some(limit) = limit else {
        return Reason::Decided(said);
    };
    match size {
        Some(size) if limit < size => Reason::Larger { size, limit },
        _ => Reason::Decided(said),
    }
}

impl Guide {
    /// Why what becomes of an entry of a directory is that.
    fn reason_in(&self, dir: &Entered, asked: &Entry<'_>) -> Result<Reason, AllocError>
        ensures value { (at : Reached) → Stands (slots_of self.now.levels) dir.now at
            → IfOk result (λ r. query_why_of r ≡ decided_why self.now.settings self.now.outside dir.now.depth at asked.now.name.now asked.now.is_dir asked.now.size) }
    {
        if is_beyond(&self.settings, dir.depth, asked.is_dir) {
            return Ok(beyond_by(&self.settings, dir.depth));
        }
        let said = self.cause_in(dir, asked.name, asked.is_dir)?;
        let limit = size_limit(&self.settings, asked.is_dir, verdict_of(&said));
        Ok(sized_by(limit, asked.size, said))
    }

    /// What becomes of an entry of the directory at a place, as `decide` says, with the reason: that
    /// it is above the least depth, below the greatest or larger than the limit, or what decides, if
    /// anything does. It owns all that it names.
    ///
    /// # Errors
    /// Out of memory, a place that is none, and a name that is none.
    pub fn explain(&self, place: Place, asked: &Entry<'_>) -> Result<Explanation, GuideError>
        ensures value { (depth : ℕ) (at : Reached) → StandsFor self.now place depth at
            → IfOk result (λ e. e.answer ≡ decided self.now.settings self.now.outside depth at asked.now.name.now asked.now.is_dir asked.now.size) }
        ensures why { (depth : ℕ) (at : Reached) → StandsFor self.now place depth at
            → IfOk result (λ e. query_why_of e.reason ≡ decided_why self.now.settings self.now.outside depth at asked.now.name.now asked.now.is_dir asked.now.size) }
        ensures there { IfOk result (λ e. IsAsked self.now.places place asked.now.name.now) }
        ensures refused { IfErr result (λ e. IsRefused self.now.places place asked.now.name.now e) }
    {
        let Some(dir) = self.places.get(place) else {
            return Err(GuideError::NoPlace);
        };
        let answer = self.decide(place, asked)?;
        let reason = self.reason_in(dir, asked)?;
        Ok(Explanation { answer, reason })
    }
}
