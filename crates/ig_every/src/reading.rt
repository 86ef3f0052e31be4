//! The rules of a file that is compared or looked at.
ghost use Rattle.std.specs.Prelude.{◌≡◌, IfOk, IfErr, Result, option_map};
ghost use Rattle.ignore_base.specs.Problem.{memory, problem_of};
ghost use Rattle.ignore_files.specs.Gives.{IsHonest};
ghost use Rattle.ignore_files.specs.Tree.{Tree};
ghost use Rattle.ignore_files.specs.declared.types.Contents.{Contents};
ghost use Rattle.ignore_files.specs.declared.types.Refusal.{Refusal};
ghost use Rattle.ig_every.specs.Reading.{IsRead, IsReadBy, IsSide, begun_by, input_file, is_input};

use crate::input::Input;
use ignore_base::Error;
use ignore_files::Files;
use ignore_rules::gitignore::{Gitignore, GitignoreBuilder};
use std::alloc::Global;

/// How the lines of files of rules are read.
#[derive(Clone, Copy, Debug)]
pub struct HowRead {
    /// Whether the rules match both ASCII cases of a letter.
    pub case_insensitive: bool,
    /// Whether white space at the end of a line is read by git's own rule.
    pub git_trailing_spaces: bool,
}

/// What was read of a file of rules.
#[derive(Drop)]
pub struct RulesRead {
    /// Its rules.
    pub rules: Gitignore,
    /// What is wrong with it: that it can't be opened, or each line that is invalid.
    pub problem: Option<Error>,
}

/// Whether a path stands for standard input: it is `-`.
pub fn is_input(path: &str) -> bool
    ensures { result ≡ is_input path.now }
{
    path == "-"
}

/// The rules of a file, or those of standard input, whose bytes are `input`.
///
/// # Errors
/// `Error::Memory` alone.
pub fn read_side<F: Files>(
    alloc: Global,
    files: &F,
    how: HowRead,
    path: &str,
    input: &[u8],
) -> Result<RulesRead, Error>
    ensures read { (tree : Tree) → IsHonest F.Files files.now tree → IfOk result (IsSide tree input.now how path.now) }
    ensures out_of_memory { IfErr result (λ e. problem_of e ≡ memory) }
{
    if is_input(path) {
        return read_bytes(alloc, how, path, input);
    }
    read_file(alloc, files, how, path)
}

/// The rules of the file at a path, asked at their own root, so that the folder of the file doesn't
/// count.
///
/// # Errors
/// `Error::Memory` alone.
pub fn read_file<F: Files>(
    alloc: Global,
    files: &F,
    how: HowRead,
    path: &str,
) -> Result<RulesRead, Error>
    ensures read { (tree : Tree) → IsHonest F.Files files.now tree
        → IfOk result (λ r. IsRead how path.now (tree.contents path.now) r.rules (option_map problem_of r.problem)) }
    ensures answered { IfOk result (λ r. (answer : Result Contents Refusal) × F.contents_gives files.now path.now answer
        × IsReadBy how path.now answer r.rules (option_map problem_of r.problem)) }
    ensures out_of_memory { IfErr result (λ e. problem_of e ≡ memory) }
{
    let mut builder = begin(alloc, how)?;
    let problem = builder.add(files, path)?;
    Ok(RulesRead {
        rules: builder.into_gitignore(),
        problem,
    })
}

/// The rules of these bytes, as of a file at a path.
///
/// # Errors
/// `Error::Memory` alone.
pub(crate) fn read_bytes(
    alloc: Global,
    how: HowRead,
    path: &str,
    bytes: &[u8],
) -> Result<RulesRead, Error>
    ensures read { IfOk result (λ r. IsRead how path.now (input_file bytes.now) r.rules (option_map problem_of r.problem)) }
    ensures out_of_memory { IfErr result (λ e. problem_of e ≡ memory) }
{
    let input = Input { bytes };
    read_file(alloc, &input, how, path)
}

/// A builder of no rules, of which lines are read so.
pub(crate) fn begin(alloc: Global, how: HowRead) -> Result<GitignoreBuilder, Error>
    ensures value { IfOk result (λ b. b ≡ begun_by how) }
    ensures out_of_memory { IfErr result (λ e. problem_of e ≡ memory) }
{
    let mut builder = GitignoreBuilder::new(alloc, "")?;
    builder
        .case_insensitive(how.case_insensitive)?
        .git_trailing_spaces(how.git_trailing_spaces);
    Ok(builder)
}
