//! The folder that `why` answers in.
ghost use Rattle.std.specs.Prelude.{◌≡◌, IfOk, IfErr, map, option_map, string_bytes};
ghost use Rattle.std.specs.Option.{option_copied};
ghost use Rattle.ignore_base.specs.Paths.{join_of};
ghost use Rattle.ignore_base.specs.Problem.{memory, problem_of};
ghost use Rattle.ignore_dir.specs.Load.{is_there};
ghost use Rattle.ignore_files.specs.Gives.{IsHonest};
ghost use Rattle.ignore_files.specs.Tree.{Tree};
ghost use Rattle.ig_commands.specs.Root.{IsRoot, Nearest, is_marked, parent_of};

use commands::World;
use ignore_base::Error;
use ignore_base::text::{folder_of, join};
use ignore_files::{Files, Refusal};
use std::alloc::Global;

/// The nearest folder at or above the working directory that has `.git` or `.jj`, else the working
/// directory; `.` where that isn't known.
///
/// # Errors
/// `Error::Memory` alone.
pub(crate) fn root_of<F: Files>(world: &World<'_, F>) -> Result<String, Error>
    ensures root { (tree : Tree) → IsHonest F.Files world.now.files.now tree
        → IfOk result (λ root. IsRoot tree world.now.env.now.current_dir (string_bytes root)) }
    ensures out_of_memory { IfErr result (λ e. problem_of e ≡ memory) }
{
    let Some(dir) = &world.env.current_dir else {
        return Ok(String::from_str(world.alloc, ".")?);
    };
    let dir = dir.as_str();
    match nearest_marked(world.alloc, world.files, dir)? {
        Some(root) => Ok(String::from_str(world.alloc, root)?),
        None => Ok(String::from_str(world.alloc, dir)?),
    }
}

/// The nearest folder at or above one that has `.git` or `.jj`.
fn nearest_marked<'d, F: Files>(
    alloc: Global,
    files: &F,
    dir: &'d str,
) -> Result<Option<&'d str>, Error>
    ensures nearest { (tree : Tree) → IsHonest F.Files files.now tree
        → IfOk result (λ found. Nearest tree dir.now (option_copied found)) }
    ensures out_of_memory { IfErr result (λ e. problem_of e ≡ memory) }
{
    let mut rest = dir;
    while !rest.is_empty() {
        if is_marked(alloc, files, rest)? {
            return Ok(Some(rest));
        }
        rest = parent_of(rest);
    }
    Ok(None)
}

/// The folder of a folder; empty for `/`, and for a name alone.
fn parent_of(dir: &str) -> &str
    ensures { result.now ≡ parent_of dir.now }
{
    if dir == "/" { "" } else { folder_of(dir) }
}

/// Whether a folder has `.git` or `.jj`.
fn is_marked<F: Files>(alloc: Global, files: &F, dir: &str) -> Result<bool, Error>
    ensures value { (tree : Tree) → IsHonest F.Files files.now tree → IfOk result (λ yes. yes ≡ is_marked tree dir.now) }
    ensures out_of_memory { IfErr result (λ e. problem_of e ≡ memory) }
{
    Ok(has(alloc, files, dir, ".git")? || has(alloc, files, dir, ".jj")?)
}

/// Whether a folder has something of this name, links followed.
fn has<F: Files>(alloc: Global, files: &F, dir: &str, name: &str) -> Result<bool, Error>
    ensures value { (tree : Tree) → IsHonest F.Files files.now tree → IfOk result (λ yes. yes ≡ is_there tree (join_of dir.now name.now)) }
    ensures out_of_memory { IfErr result (λ e. problem_of e ≡ memory) }
{
    let path = join(alloc, dir, name)?;
    match files.stat(alloc, path.as_str(), true) {
        Ok(_) => Ok(true),
        Err(Refusal::Fault(_)) => Ok(false),
        Err(Refusal::Memory) => Err(Error::Memory),
    }
}
