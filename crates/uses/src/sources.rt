//! A tool that loops over a walk in the function that builds it. A helper returns its options, and
//! the closures come last.
ghost use Rattle.std.specs.Prelude.{◌≡◌, false, Some, IfOk, IfErr};
ghost use Rattle.ignore.specs.Builder.{unset, with_hidden, with_max_filesize, with_root};
ghost use Rattle.ignore.specs.Words.{memory, problem_of};

use ignore::files::{Env, Files};
use ignore::{DirEntry, Error, WalkBuilder, WalkOptions};
use std::alloc::Global;

/// The options of a walk of the sources in a folder: hidden entries count, and no file above a
/// million bytes does.
///
/// # Errors
/// `Error::Memory` alone.
pub fn source_options(alloc: Global, folder: &str) -> Result<WalkOptions, Error>
    ensures value { IfOk result (λ o. o ≡ with_max_filesize (with_hidden (with_root unset folder.now) false) (Some 1000000)) }
    ensures out_of_memory { IfErr result (λ e. problem_of e ≡ memory) }
{
    let mut options = WalkOptions::empty(alloc);
    options.push_root(folder)?;
    options.hidden(false).max_filesize(Some(1_000_000));
    Ok(options)
}

/// How many entries a walk of the sources in a folder yields, at most so many names below it.
///
/// # Errors
/// The first error in the place of an entry; `Error::Memory`; and `Io(StepLimit)`.
pub fn count_sources<F: Files>(
    alloc: Global,
    files: &F,
    env: &Env,
    folder: &str,
    depth: usize,
) -> Result<u64, Error> {
    let mut builder = WalkBuilder::from_options(source_options(alloc, folder)?);
    builder.filter_entry(Box::new(alloc, move |entry: &DirEntry| entry.depth() <= depth)?);
    let mut count = 0u64;
    for entry in builder.build(files, env)? {
        if entry?.depth() > 0 {
            count = count.saturating_add(1);
        }
    }
    Ok(count)
}
