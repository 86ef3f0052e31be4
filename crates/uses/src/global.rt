//! The global file of the process that asks.
ghost use Rattle.std.specs.Prelude.{◌≡◌, IfErr};
ghost use Rattle.ignore.specs.Words.{memory, problem_of};

use crate::checker::is_ignored_by;
use ignore::Error;
use ignore::files::{DiskFiles, Env};
use ignore::gitignore::Gitignore;
use std::rt;

/// Whether the global file that git's configuration names ignores a file, by the environment and
/// the files of this process.
///
/// # Errors
/// `Error::Memory` alone.
pub fn is_ignored_globally<R>(rt: &R, path: &str) -> Result<bool, Error>
where
    R: rt::Env + rt::Files + Clone + Drop + AllocGlobal,
    ensures out_of_memory { IfErr result (λ e. problem_of e ≡ memory) }
{
    let env = Env::of_process(rt)?;
    let files = DiskFiles::new(rt);
    let (rules, _) = Gitignore::global(rt.alloc(), &files, &env)?;
    is_ignored_by(&rules, path)
}
