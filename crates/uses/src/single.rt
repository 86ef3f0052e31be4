//! A tool that asks about one path, once.
ghost use Rattle.std.specs.Prelude.{◌≡◌, IfOk, IfErr, option_map};
ghost use Rattle.ignore.specs.Words.{memory, problem_of};
ghost use Rattle.ignore.specs.FileWords.{IsHonest, Tree};
ghost use Rattle.ignore.specs.WalkWords.{KeepsNothing};
ghost use Rattle.uses.specs.Queries.{IsFound, IsMatcherBelow};

use ignore::files::{Env, Files};
use ignore::query_laws::nothing_kept;
use ignore::{Error, IncrementalIgnore, IncrementalMatch, WalkBuilder};
use std::alloc::Global;

/// What a walk from a root makes of one path below it, by the settings at first; and what is wrong
/// with the files of rules that were read for it. It is the answer of the tree itself.
///
/// # Errors
/// `Error::Memory` alone.
pub fn ask_once<F: Files>(
    alloc: Global,
    files: &F,
    env: &Env,
    root: &str,
    path: &str,
    is_dir: bool,
) -> Result<(IncrementalMatch, Option<Error>), Error>
    ensures value { (tree : Tree) → IsHonest F.Files files.now tree
        → IfOk result (λ r. IsFound tree env.now root.now path.now is_dir (r.0, option_map problem_of r.1)) }
    ensures out_of_memory { IfErr result (λ e. problem_of e ≡ memory) }
{
    nothing_kept();
    let mut matcher = matcher_below(alloc, files, env, root)?;
    matcher.matched_with_errors(files, path, is_dir)
}

/// A matcher of the paths below a root, by the settings at first, which keeps nothing yet.
pub fn matcher_below<F: Files>(
    alloc: Global,
    files: &F,
    env: &Env,
    root: &str,
) -> Result<IncrementalIgnore, Error>
    ensures asked { (tree : Tree) → IsHonest F.Files files.now tree → IfOk result (λ m. IsMatcherBelow tree env.now root.now m) }
    ensures empty { IfOk result (λ m. KeepsNothing m.cache) }
    ensures out_of_memory { IfErr result (λ e. problem_of e ≡ memory) }
{
    let builder = WalkBuilder::new(alloc, root)?;
    let mut matchers = builder.build_matchers(files, env)?;
    match matchers.pop() {
        Some(matcher) => Ok(matcher),
        None => unreachable!(),
    }
}
