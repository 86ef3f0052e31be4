//! A checker: asks the file of rules of a folder about a path in it.
ghost use Rattle.std.specs.Prelude.{◌≡◌, IfOk, IfErr, Result, option_map};
ghost use Rattle.ignore.specs.Words.{BuildsAnswer, IsMatcherOf, Problem, Ruleset, begun, folder_of, memory, problem_of};
ghost use Rattle.ignore.specs.FileWords.{Contents, IsHonest, Refusal, Tree};
ghost use Rattle.uses.specs.Questions.{ignores};

use ignore::Error;
use ignore::files::Files;
use ignore::gitignore::Gitignore;
use std::alloc::Global;

/// Whether the rules of the file at `gitignore` ignore a file, and what is wrong with their lines.
/// A file of rules that can't be read has none, and ignores nothing.
///
/// # Errors
/// `Error::Memory` alone.
pub fn is_ignored<F: Files>(
    alloc: Global,
    files: &F,
    gitignore: &str,
    path: &str,
) -> Result<(bool, Option<Error>), Error>
    ensures read { (tree : Tree) → IsHonest F.Files files.now tree
        → IfOk result (λ r. (rules : Ruleset) × IsMatcherOf tree gitignore.now rules (option_map problem_of r.1)
        × (r.0 ≡ ignores rules path.now)) }
    ensures answered { IfOk result (λ r. (rules : Ruleset) × (answer : Result Contents Refusal)
        × F.contents_gives files.now gitignore.now answer
        × BuildsAnswer gitignore.now answer (begun (folder_of gitignore.now)) rules (option_map problem_of r.1)
        × (r.0 ≡ ignores rules path.now)) }
    ensures out_of_memory { IfErr result (λ e. problem_of e ≡ memory) }
{
    let (rules, problem) = Gitignore::new(alloc, files, gitignore)?;
    let ignored = is_ignored_by(&rules, path)?;
    Ok((ignored, problem))
}

/// Whether rules ignore a file.
pub fn is_ignored_by(rules: &Gitignore, path: &str) -> Result<bool, Error>
    ensures asked { IfOk result (λ yes. yes ≡ ignores rules.now path.now) }
    ensures out_of_memory { IfErr result (λ e. problem_of e ≡ memory) }
{
    Ok(rules.matched(path, false)?.is_ignore())
}
