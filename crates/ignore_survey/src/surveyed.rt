//! What a survey yields.
ghost use Rattle.std.specs.Prelude.{◌≡◌, IfErr, IfOk, Ok, option_map, string_bytes};
ghost use Rattle.ignore_base.specs.Problem.{problem_of, memory};
ghost use Rattle.ignore_dir.specs.Scene.{QueryScene};
ghost use Rattle.ignore_dir.specs.Soft.{IsSoft};
ghost use Rattle.ignore_files.specs.Kinds.{is_dir};
ghost use Rattle.ignore_query.specs.InTurn.{Leaves};
ghost use Rattle.ignore_survey.specs.Suits.{Grows, Reports, Suits};
ghost use Rattle.ignore_survey.specs.Survey.{entry_at};
ghost use Rattle.ignore_survey.specs.Surveyed.{entry_of};

use ignore_base::Error;
use ignore_files::{FileType, Files};
use ignore_query::{Explanation, IncrementalIgnore};

/// An entry below a root, with what becomes of it.
#[derive(Debug, Drop)]
pub struct Surveyed {
    /// Its path below the root, by which queries know it.
    pub path: String,
    /// Its kind, links not followed.
    pub file_type: FileType,
    /// What the matcher answers for it, and why.
    pub explanation: Explanation,
    /// What is wrong with the files of rules that were read for it, or with its size.
    pub error: Option<Error>,
}

/// An entry, or an error in the place of what couldn't be listed.
pub type Item = Result<Surveyed, Error>;

/// An entry with what becomes of it.
pub(crate) fn explained<F: Files>(
    files: &F,
    matcher: &mut IncrementalIgnore,
    path: String,
    file_type: FileType,
) -> Result<Surveyed, Error>
    ensures entry { (g : QueryScene) → Suits F.Files files.now matcher.old g → IfOk result (λ s. entry_of s ≡ entry_at g (string_bytes path) file_type) }
    ensures reports { (g : QueryScene) → Suits F.Files files.now matcher.old g → IfOk result (λ s. Reports g matcher.old.cache (Ok s)) }
    ensures leaves { (g : QueryScene) → Suits F.Files files.now matcher.old g
        → IfOk result (λ s. Leaves g (string_bytes s.path, is_dir s.file_type) matcher.old.cache matcher.new.cache) }
    ensures suits { (g : QueryScene) → Suits F.Files files.now matcher.old g → Suits F.Files files.now matcher.new g }
    ensures grows { Grows F.Files files.now matcher.old matcher.new }
    ensures soft { IfOk result (λ s. IsSoft (option_map problem_of s.error)) }
    ensures out_of_memory { IfErr result (λ e. problem_of e ≡ memory) }
{
    let (explanation, error) = matcher.explain(files, path.as_str(), file_type.is_dir())?;
    Ok(Surveyed {
        path,
        file_type,
        explanation,
        error,
    })
}
