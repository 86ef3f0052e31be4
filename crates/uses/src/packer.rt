//! A packer: which of the paths of a list a package includes.
ghost use Rattle.std.specs.Prelude.{◌≡◌, IfOk, IfErr, map};
ghost use Rattle.std.specs.List.{filter};
ghost use Rattle.ignore.specs.Words.{memory, problem_of};
ghost use Rattle.uses.specs.Questions.{is_packed};

use ignore::Error;
use ignore::gitignore::Gitignore;
use std::alloc::Global;

/// Whether a package includes the file at a path: it lies below the root of the rules, and neither
/// the file nor a directory that it is in is ignored, the nearest answer deciding.
///
/// # Errors
/// `Error::Memory` alone.
pub fn is_packed(rules: &Gitignore, path: &str) -> Result<bool, Error>
    ensures value { IfOk result (λ yes. yes ≡ is_packed rules.now path.now) }
    ensures out_of_memory { IfErr result (λ e. problem_of e ≡ memory) }
{
    if !rules.is_under_root(path) {
        return Ok(false);
    }
    let answer = rules.matched_path_or_any_parents(path, false)?;
    Ok(!answer.is_ignore())
}

/// The paths of a list that a package includes, in their order.
///
/// # Errors
/// `Error::Memory` alone.
pub fn packed<'p>(
    alloc: Global,
    rules: &Gitignore,
    paths: &[&'p str],
) -> Result<Vec<&'p str>, Error>
    ensures value { IfOk result (λ all. map (λ p. p.now) all.items ≡ filter (λ p. is_packed rules.now p) (map (λ p. p.now) paths.now)) }
    ensures out_of_memory { IfErr result (λ e. problem_of e ≡ memory) }
{
    let mut all = Vec::new(alloc);
    for path in paths {
        if is_packed(rules, path)? {
            all.push(*path)?;
        }
    }
    Ok(all)
}
