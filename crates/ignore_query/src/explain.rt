//! Why a path is ignored, whitelisted or neither.
ghost use Rattle.std.specs.Prelude.{◌≡◌, true, false, ℕ, List, None, IfOk, IfErr, OnOk, option_map, string_bytes};
ghost use Rattle.ignore_files.specs.Tree.{Tree};
ghost use Rattle.ignore_base.specs.Problem.{problem_of, memory};
ghost use Rattle.ignore_dir.specs.Limits as limits;
ghost use Rattle.ignore_dir.specs.Load.{Loaded};
ghost use Rattle.ignore_dir.specs.Query as queries;
ghost use Rattle.ignore_dir.specs.Soft.{IsSoft};
ghost use Rattle.ignore_query.specs.Agrees.{Agrees};
ghost use Rattle.ignore_query.specs.Left.{LeavesMatcher};
ghost use Rattle.ignore_query.specs.Needs.{KeepsNeeded, is_decided, is_known, needed};
ghost use Rattle.ignore_query.specs.Reached.{scene_of};
ghost use Rattle.ignore_query.specs.Reports.{reported};
ghost use Rattle.ignore_query.specs.Where.{WhereAgrees};
ghost use Rattle.ignore_why.specs.QueryWhy.{answer_of, query_why, query_why_of, why_beyond};
ghost use Rattle.ignore_why.specs.QueryWhy.QueryWhy.{unasked as not_asked};

use crate::asked::Call;
use crate::clean::depth_for;
use crate::incremental::IncrementalIgnore;
use crate::reasons::verdict_of;
use ignore_base::Error;
use ignore_dir::verdict::Verdict;
use ignore_dir::{IncrementalMatch, Settings};
use ignore_files::Files;
use ignore_why::{Explanation, Reason};

/// The answer that goes with a reason, for a path at a depth.
fn answer_of(settings: &Settings, depth: usize, is_dir: bool, reason: &Reason) -> IncrementalMatch
    ensures { result ≡ answer_of settings.now depth is_dir (query_why_of reason.now) }
{
    match reason {
        Reason::Unasked => IncrementalMatch::no_match(is_dir),
        Reason::TooShallow => IncrementalMatch::beyond(),
        Reason::TooDeep => IncrementalMatch::beyond(),
        Reason::Unruled => IncrementalMatch::limited(settings, depth, is_dir, Verdict::None),
        Reason::Decided(said) => {
            IncrementalMatch::limited(settings, depth, is_dir, verdict_of(said))
        }
        Reason::Larger { .. } => {
            IncrementalMatch::limited(settings, depth, is_dir, Verdict::Ignore)
        }
        Reason::Inside { .. } => {
            IncrementalMatch::limited(settings, depth, is_dir, Verdict::Ignore)
        }
    }
}

impl IncrementalIgnore {
    /// What becomes of the path below the root, with the reason, and what is wrong with the files of
    /// rules that this call read, or with the size. The answer, the errors and what is kept are
    /// those of `matched_with_errors`.
    ///
    /// The reason doesn't depend on what was asked before.
    ///
    /// # Errors
    /// `Error::Memory` alone. What was kept stays kept.
    pub fn explain<F: Files>(
        &mut self,
        files: &F,
        path: &str,
        is_dir: bool,
    ) -> Result<(Explanation, Option<Error>), Error>
        ensures why { WhereAgrees F.Files files.now self.old (λ g. IfOk result (λ r. query_why_of r.0.reason ≡ query_why g path.now is_dir)) }
        ensures value { WhereAgrees F.Files files.now self.old (λ g. IfOk result (λ r. r.0.answer ≡ (queries.query g path.now is_dir).0)) }
        ensures reports { WhereAgrees F.Files files.now self.old (λ g. IfOk result (λ r. option_map problem_of r.1 ≡ reported g self.old.cache path.now is_dir)) }
        ensures leaves { LeavesMatcher F.Files files.now (path.now, is_dir) self.old self.new }
        ensures kept { WhereAgrees F.Files files.now self.old (λ g. is_decided g path.now is_dir ≡ true
            → OnOk result (KeepsNeeded (needed g (queries.names_of path.now)) self.old.cache self.new.cache)) }
        ensures from_kept { (tree : Tree) (loads : List ℕ → Loaded) → let g = scene_of self.old.asked tree loads in
            Agrees g self.old.cache → is_known g self.old.cache (queries.names_of path.now) ≡ true
            → queries.limit_of g path.now is_dir ≡ None → (self.new.cache ≡ self.old.cache)
            × IfOk result (λ r. (query_why_of r.0.reason ≡ query_why g path.now is_dir)
            × ((r.0.answer ≡ (queries.query g path.now is_dir).0) × (r.1 ≡ None))) }
        ensures unasked { queries.is_asked (string_bytes self.old.asked.root) path.now ≡ false → (self.new.cache ≡ self.old.cache)
            × IfOk result (λ r. (query_why_of r.0.reason ≡ not_asked) × ((r.0.answer ≡ limits.no_match is_dir) × (r.1 ≡ None))) }
        ensures beyond { queries.is_asked (string_bytes self.old.asked.root) path.now ≡ true
            → limits.is_beyond self.old.asked.settings (queries.depth_of_path path.now) is_dir ≡ true → (self.new.cache ≡ self.old.cache)
            × IfOk result (λ r. (query_why_of r.0.reason ≡ why_beyond self.old.asked.settings (queries.depth_of_path path.now))
            × ((r.0.answer ≡ limits.beyond) × (r.1 ≡ None))) }
        ensures soft { IfOk result (λ r. IsSoft (option_map problem_of r.1)) }
        ensures out_of_memory { IfErr result (λ e. problem_of e ≡ memory) }
    {
        let (asked, cache) = (&self.asked, &mut self.cache);
        let call = Call {
            files,
            asked,
            path,
            is_dir,
        };
        let mut errors = Vec::new(call.alloc());
        let stand = cache.stand(&call, &mut errors)?;
        let reason = cache.reason(&call, stand, &mut errors)?;
        let settings = &asked.settings;
        let answer = answer_of(settings, depth_for(settings, path), is_dir, &reason);
        Ok((Explanation { answer, reason }, Error::joined(errors)))
    }
}
