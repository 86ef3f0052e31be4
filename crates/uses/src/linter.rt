//! A linter: which files it looks at, by the globs of its command line and the types it is for.
ghost use Rattle.std.specs.Prelude.{◌≡◌, false, IfOk, IfErr};
ghost use Rattle.ignore.specs.Words.{file_name_of, is_ignore, memory, override_answer, problem_of, type_answer};
ghost use Rattle.uses.specs.Questions.{is_linted};

use ignore::overrides::Override;
use ignore::types::Types;
use ignore::{Error, Match};

/// Whether a file is looked at: a glob of the command line that says so or denies it decides; else
/// its types do.
///
/// # Errors
/// `Error::Memory` alone.
pub fn is_linted(globs: &Override, types: &Types, path: &str) -> Result<bool, Error>
    ensures chosen { IfOk result (λ yes. yes ≡ is_linted (override_answer globs.now path.now false)
        (is_ignore (type_answer types.now.choices false (file_name_of path.now)))) }
    ensures out_of_memory { IfErr result (λ e. problem_of e ≡ memory) }
{
    let skipped = types.matched(path, false)?.is_ignore();
    match globs.matched(path, false)? {
        Match::Whitelist(_) => Ok(true),
        Match::Ignore(_) => Ok(false),
        Match::None => Ok(!skipped),
    }
}
