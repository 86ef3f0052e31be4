//! What is wrong with a file of rules.
ghost use Rattle.std.specs.Prelude.{◌≡◌, [], IfErr, IfOk, length, false};
ghost use Rattle.ignore_every.specs.declared.error.Error.TheVariants.{Memory};
ghost use Rattle.ig_every.specs.Linted.{AreVerdicts, IsLinted};
ghost use Rattle.ig_every.specs.Notes.{AreNotes};

use crate::dead::lint_rules;
use crate::diagnostic::Diagnostic;
use crate::lines::lint_lines;
use crate::notes::{Judged, note_rules};
use crate::reading::{HowRead, read_bytes};
use ignore_every::Error as Refused;
use ignore_files::Contents;
use ignore_rules::gitignore::Gitignore;
use std::alloc::{AllocError, Global};

/// What is wrong with a file of rules.
#[derive(Drop)]
pub struct Linted {
    /// What is wrong with its lines by themselves, in their order.
    pub lines: Vec<Diagnostic>,
    /// What is wrong with its rules.
    pub verdicts: Verdicts,
}

/// What is wrong with the rules of a file.
#[derive(Drop)]
pub struct Verdicts {
    /// What is wrong with each rule, in their order, if anything is.
    pub rules: Vec<Option<Diagnostic>>,
    /// Of the rules that decide, those with `!` that re-include nothing, where such notes are asked
    /// for.
    pub notes: Vec<Diagnostic>,
    /// Why the rules weren't judged, where they weren't.
    pub refused: Option<Refused>,
}

/// What is wrong with a file, of which this was read: with its lines by themselves, and then with the
/// rules that decide on no path. Where these need too many states, it is said that they weren't
/// judged. Where notes are asked for, some rules with `!` that re-include nothing have one.
///
/// # Errors
/// `Refused::Memory` alone.
pub fn lint(
    alloc: Global,
    how: HowRead,
    path: &str,
    contents: &Contents,
    has_notes: bool,
) -> Result<Linted, Refused>
    ensures linted { IfOk result (IsLinted how path.now contents.now.bytes has_notes) }
    ensures out_of_memory { IfErr result (λ refused. refused ≡ Memory) }
{
    let bytes = contents.bytes.as_slice();
    let lines = lint_lines(alloc, how, bytes)?;
    let Ok(read) = read_bytes(alloc, how, path, bytes) else {
        return Err(Refused::Memory);
    };
    let verdicts = verdicts_on(alloc, how, &read.rules, has_notes)?;
    Ok(Linted { lines, verdicts })
}

/// What is wrong with rules.
fn verdicts_on(
    alloc: Global,
    how: HowRead,
    rules: &Gitignore,
    has_notes: bool,
) -> Result<Verdicts, Refused>
    ensures verdicts { IfOk result (AreVerdicts how has_notes rules.now) }
    ensures out_of_memory { IfErr result (λ refused. refused ≡ Memory) }
{
    match lint_rules(alloc, rules) {
        Ok(found) => {
            let notes = notes_if(alloc, how, rules, &found, has_notes)?;
            Ok(Verdicts {
                rules: found,
                notes,
                refused: None,
            })
        }
        Err(Refused::Memory) => Err(Refused::Memory),
        Err(refused) => Ok(Verdicts {
            rules: Vec::new(alloc),
            notes: Vec::new(alloc),
            refused: Some(refused),
        }),
    }
}

/// The notes on rules, where they are asked for.
fn notes_if(
    alloc: Global,
    how: HowRead,
    rules: &Gitignore,
    found: &[Option<Diagnostic>],
    has_notes: bool,
) -> Result<Vec<Diagnostic>, AllocError>
    ensures noted { IfOk result (λ notes. AreNotes how rules.now.rules found.now (length rules.now.rules) notes.items) }
    ensures unnoted { has_notes ≡ false → IfOk result (λ notes. notes.items ≡ []) }
{
    let judged = Judged {
        alloc,
        how,
        rules,
        found,
    };
    if has_notes {
        return note_rules(judged);
    }
    Ok(Vec::new(alloc))
}
