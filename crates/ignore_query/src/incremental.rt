//! A matcher of single paths below a root.
ghost use Rattle.std.specs.Prelude.{◌≡◌, true, false, ℕ, List, None, IfOk, IfErr, OnOk, option_map, string_bytes};
ghost use Rattle.ignore_files.specs.Tree.{Tree};
ghost use Rattle.std.specs.Option.{option_copied};
ghost use Rattle.ignore_base.specs.Normalize.{normalize_of};
ghost use Rattle.ignore_base.specs.Paths.{components};
ghost use Rattle.ignore_base.specs.Problem.{problem_of, memory};
ghost use Rattle.ignore_dir.specs.Limits as limits;
ghost use Rattle.ignore_dir.specs.Load.{Loaded};
ghost use Rattle.ignore_dir.specs.Query as queries;
ghost use Rattle.ignore_dir.specs.Scene.{QueryScene};
ghost use Rattle.ignore_dir.specs.Soft.{IsSoft};
ghost use Rattle.ignore_query.specs.Agrees.{Agrees};
ghost use Rattle.ignore_query.specs.Fresh.{KeepsNothing};
ghost use Rattle.ignore_query.specs.Left.{LeavesMatcher};
ghost use Rattle.ignore_query.specs.Needs.{KeepsNeeded, is_decided, is_known, needed};
ghost use Rattle.ignore_query.specs.Reached.{dir_of, scene_of};
ghost use Rattle.ignore_query.specs.Reports.{reported};
ghost use Rattle.ignore_query.specs.Where.{WhereAgrees};

use crate::asked::{Asked, Call};
use crate::kept::Cache;
use ignore_base::{Error, text};
use ignore_dir::{IncrementalMatch, Outside, Settings};
use ignore_files::Files;
use std::alloc::AllocError;

/// A matcher of single paths below a root: whether a walk from the root would yield them.
///
/// It keeps what it loads: the directories above the root, and each proper ancestor of a path that
/// it was asked about, up to the first ignored one. So a directory is read once, until it is
/// forgotten.
#[derive(Debug, Drop)]
pub struct IncrementalIgnore {
    pub(crate) asked: Asked,
    pub(crate) cache: Cache,
}

impl IncrementalIgnore {
    /// A matcher for paths below a root, which keeps nothing yet. It allocates nothing.
    /// For dependents.
    pub fn new(
        settings: Settings,
        outside: Outside,
        root: String,
        current_dir: Option<String>,
    ) -> IncrementalIgnore
        ensures asked { result.asked ≡ record { settings = settings; outside = outside; root = root; current_dir = current_dir } }
        ensures fresh { (g : QueryScene) → Agrees g result.cache }
        ensures empty { KeepsNothing result.cache }
    {
        let cache = Cache::new(*root.allocator());
        let asked = Asked {
            settings,
            outside,
            root,
            current_dir,
        };
        IncrementalIgnore { asked, cache }
    }

    /// The root, as it was given.
    pub fn root(&self) -> &str
        ensures { result.now ≡ string_bytes self.now.asked.root }
    {
        self.asked.root.as_str()
    }

    /// The text by which the queries know a path: the path relative to the root, both in normal
    /// form. Empty components and `.` are left out, and `..` removes the component before it, if
    /// any. What doesn't begin with `/`, the root too, is in the working directory of the `Env`
    /// that `build_matchers` was given. Links are not looked at.
    ///
    /// None for an empty path, for an empty root and for the root `-`; where the path isn't at or
    /// below the root; and where the path or the root is relative and the working directory isn't
    /// known or is relative, too.
    ///
    /// # Errors
    /// `Error::Memory` alone.
    pub fn normalize(&self, path: &str) -> Result<Option<String>, Error>
        ensures value { IfOk result (λ text. option_map string_bytes text
            ≡ normalize_of (dir_of self.now.asked) (string_bytes self.now.asked.root) path.now) }
        ensures out_of_memory { IfErr result (λ e. problem_of e ≡ memory) }
    {
        let alloc = *self.asked.root.allocator();
        text::normalize(alloc, self.current_dir(), self.root(), path)
    }

    /// The working directory, if it is known.
    fn current_dir(&self) -> Option<&str>
        ensures { option_copied result ≡ dir_of self.now.asked }
    {
        match &self.asked.current_dir {
            Some(dir) => Some(dir.as_str()),
            None => None,
        }
    }

    /// What becomes of the path below the root, which is a directory where `is_dir` is set.
    ///
    /// - For the root `-`, which stands for standard input, and for a path that isn't clean there
    ///   is no match.
    /// - What is beyond the limits on depth is ignored.
    /// - For the empty path, and for each path where the root isn't a directory, there is no match.
    /// - Else the path is ignored where a directory on the way from the root is; else the rules
    ///   decide, and then its size.
    ///
    /// The answer doesn't depend on what was asked before. Where all that it needs is kept, no file
    /// is asked but for the size of the path.
    ///
    /// # Errors
    /// `Error::Memory` alone. What was kept stays kept.
    pub fn matched<F: Files>(
        &mut self,
        files: &F,
        path: &str,
        is_dir: bool,
    ) -> Result<IncrementalMatch, Error>
        ensures value { WhereAgrees F.Files files.now self.old (λ g. IfOk result (λ m. m ≡ (queries.query g path.now is_dir).0)) }
        ensures leaves { LeavesMatcher F.Files files.now (path.now, is_dir) self.old self.new }
        ensures kept { WhereAgrees F.Files files.now self.old (λ g. is_decided g path.now is_dir ≡ true
            → OnOk result (KeepsNeeded (needed g (queries.names_of path.now)) self.old.cache self.new.cache)) }
        ensures from_kept { (tree : Tree) (loads : List ℕ → Loaded) → let g = scene_of self.old.asked tree loads in
            Agrees g self.old.cache → is_known g self.old.cache (queries.names_of path.now) ≡ true
            → queries.limit_of g path.now is_dir ≡ None → (self.new.cache ≡ self.old.cache)
            × IfOk result (λ m. m ≡ (queries.query g path.now is_dir).0) }
        ensures unasked { queries.is_asked (string_bytes self.old.asked.root) path.now ≡ false → (self.new.cache ≡ self.old.cache)
            × IfOk result (λ m. m ≡ limits.no_match is_dir) }
        ensures beyond { queries.is_asked (string_bytes self.old.asked.root) path.now ≡ true
            → limits.is_beyond self.old.asked.settings (queries.depth_of_path path.now) is_dir ≡ true → (self.new.cache ≡ self.old.cache)
            × IfOk result (λ m. m ≡ limits.beyond) }
        ensures out_of_memory { IfErr result (λ e. problem_of e ≡ memory) }
    {
        let (answer, _) = self.matched_with_errors(files, path, is_dir)?;
        Ok(answer)
    }

    /// The same, and what is wrong with the files of rules that this call read, or with the size.
    ///
    /// # Errors
    /// `Error::Memory` alone. What was kept stays kept.
    pub fn matched_with_errors<F: Files>(
        &mut self,
        files: &F,
        path: &str,
        is_dir: bool,
    ) -> Result<(IncrementalMatch, Option<Error>), Error>
        ensures value { WhereAgrees F.Files files.now self.old (λ g. IfOk result (λ r. r.0 ≡ (queries.query g path.now is_dir).0)) }
        ensures reports { WhereAgrees F.Files files.now self.old (λ g. IfOk result (λ r. option_map problem_of r.1 ≡ reported g self.old.cache path.now is_dir)) }
        ensures leaves { LeavesMatcher F.Files files.now (path.now, is_dir) self.old self.new }
        ensures kept { WhereAgrees F.Files files.now self.old (λ g. is_decided g path.now is_dir ≡ true
            → OnOk result (KeepsNeeded (needed g (queries.names_of path.now)) self.old.cache self.new.cache)) }
        ensures from_kept { (tree : Tree) (loads : List ℕ → Loaded) → let g = scene_of self.old.asked tree loads in
            Agrees g self.old.cache → is_known g self.old.cache (queries.names_of path.now) ≡ true
            → queries.limit_of g path.now is_dir ≡ None → (self.new.cache ≡ self.old.cache)
            × IfOk result (λ r. (r.0 ≡ (queries.query g path.now is_dir).0) × (r.1 ≡ None)) }
        ensures unasked { queries.is_asked (string_bytes self.old.asked.root) path.now ≡ false → (self.new.cache ≡ self.old.cache)
            × IfOk result (λ r. (r.0 ≡ limits.no_match is_dir) × (r.1 ≡ None)) }
        ensures beyond { queries.is_asked (string_bytes self.old.asked.root) path.now ≡ true
            → limits.is_beyond self.old.asked.settings (queries.depth_of_path path.now) is_dir ≡ true → (self.new.cache ≡ self.old.cache)
            × IfOk result (λ r. (r.0 ≡ limits.beyond) × (r.1 ≡ None)) }
        ensures soft { IfOk result (λ r. IsSoft (option_map problem_of r.1)) }
        ensures out_of_memory { IfErr result (λ e. problem_of e ≡ memory) }
    {
        let (asked, cache) = (&self.asked, &mut self.cache);
        let call = Call {
            files,
            asked,
            path,
            is_dir,
        };
        let mut errors = Vec::new(call.alloc());
        let stand = cache.stand(&call, &mut errors)?;
        let answer = cache.answer(&call, stand, &mut errors)?;
        Ok((answer, Error::joined(errors)))
    }
}

impl Clone for IncrementalIgnore {
    ghost use Rattle.ignore_query.specs.Fresh.{KeepsNothing};
    ghost use Rattle.ignore_query.specs.Reached.{IsSame};

    // The copy keeps nothing.
    ghost is_clone = { λ m copy. IsSame m.asked copy.asked × (KeepsNothing copy.cache × ((g : QueryScene) → Agrees g copy.cache)) };

    fn clone(&self) -> Result<IncrementalIgnore, AllocError> {
        let asked = self.asked.clone()?;
        let cache = Cache::new(*asked.root.allocator());
        Ok(IncrementalIgnore { asked, cache })
    }
}
