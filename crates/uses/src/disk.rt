//! The checker over a disk: its answer is that of the tree on the disk, wherever the machine
//! answers truly.
ghost use Rattle.std.specs.Prelude.{◌≡◌, IfOk, IfErr, option_map};
ghost use Rattle.ignore.specs.Words.{IsMatcherOf, Ruleset, memory, problem_of};
ghost use Rattle.ignore.specs.FileWords.{Disk, IsTruthful, tree_on};
ghost use Rattle.uses.specs.Questions.{ignores};

use crate::checker::is_ignored;
use ignore::Error;
use ignore::files::{DiskFiles, Machine};
use std::alloc::Global;

/// As `is_ignored`, over the files of a machine: a program passes its runtime.
///
/// # Errors
/// `Error::Memory` alone.
pub fn is_ignored_on_disk<R: Machine>(
    alloc: Global,
    machine: &R,
    gitignore: &str,
    path: &str,
) -> Result<(bool, Option<Error>), Error>
    ensures read { (disk : Disk) → IsTruthful R.Machine R.Dir.next_gives machine.now disk
        → IfOk result (λ r. (rules : Ruleset) × IsMatcherOf (tree_on disk) gitignore.now rules (option_map problem_of r.1)
        × (r.0 ≡ ignores rules path.now)) }
    ensures out_of_memory { IfErr result (λ e. problem_of e ≡ memory) }
{
    let files = DiskFiles::new(machine);
    files.is_honest();
    is_ignored(alloc, &files, gitignore, path)
}
