//! The size of a path, where it is above the limit.
ghost use Rattle.std.specs.Prelude.{◌≡◌, ◌++◌, IfOk, OnOk, map, string_bytes};
ghost use Rattle.std.specs.Option.{option_to_list};
ghost use Rattle.ignore_files.specs.Tree.{Tree};
ghost use Rattle.ignore_base.specs.Paths.{join_of};
ghost use Rattle.ignore_base.specs.Problem.{at_path, io, problem_of};
ghost use Rattle.ignore_dir.specs.Limits as limits;
ghost use Rattle.ignore_dir.specs.Soft.{AllSoft};
ghost use Rattle.ignore_query.specs.Stands.{IsSized, larger_by};

use crate::asked::Call;
use ignore_base::internal::join;
use ignore_base::{Error, Fault};
use ignore_dir::limits::size_limit;
use ignore_dir::verdict::Verdict;
use ignore_files::Files;
use ignore_files::internal::answered;
use std::alloc::{AllocError, Global};

/// A fault at a path, as an error.
fn fault_at(alloc: Global, path: &str, fault: Fault) -> Result<Error, AllocError>
    ensures { IfOk result (λ e. problem_of e ≡ at_path path.now (io fault)) }
{
    Error::Io(fault).with_path(alloc, path)
}

/// The size of the path of a call and its limit, where the rules give this verdict and the size is
/// above the limit. Where the size isn't known, the fault is appended to the errors. No file is
/// asked where there is no limit.
pub(crate) fn larger<F: Files>(
    call: &Call<'_, F>,
    verdict: Verdict,
    errors: &mut Vec<Error>,
) -> Result<Option<(u64, u64)>, AllocError>
    ensures value { (tree : Tree) → let s = call.now.asked.now.settings in let limit = limits.size_limit s call.now.is_dir verdict in
        IsSized F.Files call.now.files.now tree limit
        → IfOk result (λ o. o ≡ larger_by limit (tree.stat (join_of (string_bytes call.now.asked.now.root) call.now.path.now) s.follow_links)) }
    ensures problem { (tree : Tree) → let s = call.now.asked.now.settings in let limit = limits.size_limit s call.now.is_dir verdict in
        let file = join_of (string_bytes call.now.asked.now.root) call.now.path.now in IsSized F.Files call.now.files.now tree limit
        → OnOk result (map problem_of errors.new.items ≡ map problem_of errors.old.items
        ++ option_to_list (limits.size_problem file limit (tree.stat file s.follow_links))) }
    ensures soft { AllSoft (map problem_of errors.old.items) → OnOk result (AllSoft (map problem_of errors.new.items)) }
{
    let settings = &call.asked.settings;
    let Some(limit) = size_limit(settings, call.is_dir, verdict) else {
        return Ok(None);
    };
    let path = join(call.alloc(), call.asked.root.as_str(), call.path)?;
    let found = call
        .files
        .stat(call.alloc(), path.as_str(), settings.follow_links);
    match answered(found)? {
        Ok(metadata) => {
            let size = metadata.len();
            if limit < size {
                Ok(Some((size, limit)))
            } else {
                Ok(None)
            }
        }
        Err(fault) => {
            errors.push(fault_at(call.alloc(), path.as_str(), fault)?)?;
            Ok(None)
        }
    }
}
