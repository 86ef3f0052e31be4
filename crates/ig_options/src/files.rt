//! Files of rules that are named on the command line.
ghost use Rattle.std.specs.Prelude.{◌≡◌, Option, List, IfOk, IfErr, OnOk, Some, map, option_map, true};
ghost use Rattle.ignore_base.specs.Problem.{Problem, problem_of, memory};
ghost use Rattle.ignore_files.specs.Gives.{IsHonest};
ghost use Rattle.ignore_files.specs.Tree.{Tree};
ghost use Rattle.ig_options.specs.Files.{AddsFiles, AddsFilesBy, explained, is_other, is_special, named_files, unread};

use crate::options::Options;
use ignore::WalkOptions;
use ignore_base::Error;
use ignore_dir::Names;
use ignore_files::{Env, FileType, Files, Refusal};
use std::alloc::{AllocError, Global};

/// Why a pipe or a device can't be a file of rules.
const NOT_READ: &str = "a pipe or a device isn't read";

/// Adds the rules of the files of `--ignore-file` to the settings of a walk, in turn, unless these
/// files don't count. It returns what is wrong with each file; what can be read of it counts all the
/// same. A pipe or a device isn't read, which is what is wrong with it.
///
/// # Errors
/// `Error::Memory` alone.
pub fn add_files<F: Files>(
    alloc: Global,
    files: &F,
    env: &Env,
    options: &Options,
    walk: &mut WalkOptions,
) -> Result<Vec<Option<Error>>, Error>
    ensures read { (tree : Tree) → IsHonest F.Files files.now tree
        → IfOk result (λ errors. AddsFiles tree env.now (named_files options.now) walk.old walk.new (map (option_map problem_of) errors.items)) }
    ensures answered { OnOk result (AddsFilesBy (F.contents_gives files.now) env.now (named_files options.now) walk.old walk.new) }
    ensures out_of_memory { IfErr result (λ e. problem_of e ≡ memory) }
{
    if options.no_ignore_files {
        return Ok(Vec::new(alloc));
    }
    push_files(alloc, files, env, &options.ignore_files, walk)
}

/// Adds the rules of files in turn, and returns what is wrong with each.
fn push_files<F: Files>(
    alloc: Global,
    files: &F,
    env: &Env,
    paths: &Names,
    walk: &mut WalkOptions,
) -> Result<Vec<Option<Error>>, Error>
    ensures read { (tree : Tree) → IsHonest F.Files files.now tree
        → IfOk result (λ errors. AddsFiles tree env.now paths.now walk.old walk.new (map (option_map problem_of) errors.items)) }
    ensures answered { OnOk result (AddsFilesBy (F.contents_gives files.now) env.now paths.now walk.old walk.new) }
    ensures out_of_memory { IfErr result (λ e. problem_of e ≡ memory) }
{
    let mut errors = Vec::new(alloc);
    for path in paths.as_slice() {
        let found = walk.add_ignore(files, env, path.as_str())?;
        let error = explained(alloc, files, path.as_str(), found)?;
        errors.push(error)?;
    }
    Ok(errors)
}

/// What is wrong with a file, if anything is: of a pipe or a device that it isn't read.
fn explained<F: Files>(
    alloc: Global,
    files: &F,
    path: &str,
    error: Option<Error>,
) -> Result<Option<Error>, Error>
    ensures value { (tree : Tree) → IsHonest F.Files files.now tree
        → IfOk result (λ told. option_map problem_of told ≡ explained tree path.now (option_map problem_of error)) }
    ensures out_of_memory { IfErr result (λ e. problem_of e ≡ memory) }
{
    match error {
        Some(error) => Ok(Some(explained_error(alloc, files, path, error)?)),
        None => Ok(None),
    }
}

/// What is wrong with a file: of a pipe or a device that it isn't read.
fn explained_error<F: Files>(
    alloc: Global,
    files: &F,
    path: &str,
    error: Error,
) -> Result<Error, Error>
    ensures value { (tree : Tree) → IsHonest F.Files files.now tree
        → IfOk result (λ told. Some (problem_of told) ≡ explained tree path.now (Some (problem_of error))) }
    ensures out_of_memory { IfErr result (λ e. problem_of e ≡ memory) }
{
    if is_special(alloc, files, path)? {
        return Ok(unread(alloc, path)?);
    }
    Ok(error)
}

/// Whether a path leads to something else than a file or a directory, as a pipe or a device.
fn is_special<F: Files>(alloc: Global, files: &F, path: &str) -> Result<bool, Error>
    ensures value { (tree : Tree) → IsHonest F.Files files.now tree → IfOk result (λ yes. yes ≡ is_special (tree.stat path.now true)) }
    ensures out_of_memory { IfErr result (λ e. problem_of e ≡ memory) }
{
    match files.stat(alloc, path, true) {
        Ok(metadata) => Ok(is_other(metadata.file_type())),
        Err(Refusal::Fault(_)) => Ok(false),
        Err(Refusal::Memory) => Err(Error::Memory),
    }
}

/// Whether a kind is that of neither a file nor a directory nor a link.
fn is_other(kind: FileType) -> bool
    ensures { result ≡ is_other kind }
{
    match kind {
        FileType::Other => true,
        FileType::File => false,
        FileType::Dir => false,
        FileType::Symlink => false,
    }
}

/// That what is at a path isn't read. The error for a glob without its glob is the one with a text of
/// its own.
fn unread(alloc: Global, path: &str) -> Result<Error, AllocError>
    ensures { IfOk result (λ e. problem_of e ≡ unread path.now) }
{
    let error = Error::Glob {
        glob: None,
        err: String::from_str(alloc, NOT_READ)?,
    };
    error.with_path(alloc, path)
}
