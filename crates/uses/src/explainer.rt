//! A tool that says of files why they are left out.
ghost use Rattle.std.specs.Prelude.{◌≡◌, IfOk, IfErr, option_map, string_bytes};
ghost use Rattle.ignore.specs.Words.{memory, problem_of};
ghost use Rattle.ignore.specs.WalkWords.{WhereAgrees};
ghost use Rattle.uses.specs.Explained.{left_out};

use ignore::files::Files;
use ignore::{Error, IncrementalIgnore};
use std::alloc::Global;

/// Why a file is left out, as `.gitignore:3:*.o` or `hidden`; none where it isn't.
///
/// # Errors
/// `Error::Memory` alone.
pub fn left_out<F: Files>(
    alloc: Global,
    matcher: &mut IncrementalIgnore,
    files: &F,
    path: &str,
) -> Result<Option<String>, Error>
    ensures why { WhereAgrees F.Files files.now matcher.old (λ g.
        IfOk result (λ text. option_map string_bytes text ≡ left_out g path.now)) }
    ensures out_of_memory { IfErr result (λ e. problem_of e ≡ memory) }
{
    let (explained, _) = matcher.explain(files, path, false)?;
    if !explained.answer.is_ignore() {
        return Ok(None);
    }
    Ok(Some(format!(in alloc; "{explained}")?))
}
