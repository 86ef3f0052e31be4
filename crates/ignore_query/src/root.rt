//! What is above a root, and whether the root is a directory.
ghost use Rattle.std.specs.Prelude.{◌≡◌, ◌≢◌, ◌++◌, ◌==◌, ℕ, List, IfOk, OnOk, true, not, map, length, string_bytes};
ghost use Rattle.std.specs.Option.{option_to_list};
ghost use Rattle.ignore_base.specs.Problem.{problem_of};
ghost use Rattle.ignore_dir.specs.Load.{Loaded};
ghost use Rattle.ignore_dir.specs.Query as queries;
ghost use Rattle.ignore_dir.specs.Soft.{AllSoft};
ghost use Rattle.ignore_files.specs.Gives.{IsHonest};
ghost use Rattle.ignore_files.specs.Tree.{Tree};
ghost use Rattle.ignore_query.specs.Agrees.{Agrees};
ghost use Rattle.ignore_query.specs.Reached.{scene_of};
ghost use Rattle.ignore_query.specs.Reports.{new_above};
ghost use Rattle.ignore_query.specs.Stands.{Grows};
ghost use Rattle.ignore_query.specs.Where.{InCall};

use crate::asked::Call;
use crate::kept::Cache;
use ignore_base::Error;
use ignore_dir::above::load_above;
use ignore_dir::errors::{joined_some, push_some};
use ignore_files::Files;
use ignore_files::internal::answered;
use std::alloc::{AllocError, Global};

/// Whether a path leads to a directory.
fn is_dir_there<F: Files>(alloc: Global, files: &F, path: &str) -> Result<bool, AllocError>
    ensures value { (tree : Tree) → IsHonest F.Files files.now tree
        → IfOk result (λ yes. yes ≡ queries.is_dir_there (tree.stat path.now true)) }
{
    match answered(files.stat(alloc, path, true))? {
        Ok(metadata) => Ok(metadata.is_dir()),
        Err(_) => Ok(false),
    }
}

impl Cache {
    /// Whether the rules decide on the path of a call: whether it has a name, and the root is a
    /// directory.
    pub(crate) fn has_rules<F: Files>(&self, call: &Call<'_, F>) -> Result<bool, AllocError>
        ensures value { (tree : Tree) (loads : List ℕ → Loaded) → IsHonest F.Files call.now.files.now tree
            → Agrees (scene_of call.now.asked.now tree loads) self.now
            → IfOk result (λ yes. yes ≡ queries.has_rules tree (string_bytes call.now.asked.now.root) call.now.path.now) }
        ensures known { self.now.has_above ≡ true → IfOk result (λ yes. yes ≡ not (length call.now.path.now == 0)) }
        ensures named { IfOk result (λ yes. yes ≡ true → length call.now.path.now ≢ 0) }
    {
        if call.path.is_empty() {
            return Ok(false);
        }
        if self.has_above {
            return Ok(true);
        }
        is_dir_there(call.alloc(), call.files, call.asked.root.as_str())
    }

    /// Keeps what is above the root, which is a directory.
    #[tactic(auto, using(crate::proofs::StandLemmas::grows_itself))]
    pub(crate) fn keep_above<F: Files>(
        &mut self,
        call: &Call<'_, F>,
        errors: &mut Vec<Error>,
    ) -> Result<(), AllocError>
        ensures grows { Grows F.Files call.now.files.now call.now.asked.now self.old self.new }
        ensures kept { OnOk result (self.new.has_above ≡ true) }
        ensures same { self.new.dirs ≡ self.old.dirs }
        ensures known { self.old.has_above ≡ true → (self.new ≡ self.old) × (errors.new ≡ errors.old) }
        ensures problems { InCall F.Files call.now (λ g. OnOk result (map problem_of errors.new.items ≡ map problem_of errors.old.items
            ++ option_to_list (new_above g self.old))) }
        ensures soft { AllSoft (map problem_of errors.old.items) → OnOk result (AllSoft (map problem_of errors.new.items)) }
    {
        if self.has_above {
            return Ok(());
        }
        let found = load_above(&call.ground(), call.asked.root.as_str())?;
        push_some(errors, joined_some(call.alloc(), found.errors)?)?;
        self.above = self.levels.add_all(found.dirs)?;
        self.base = found.base;
        self.has_above = true;
        Ok(())
    }
}
