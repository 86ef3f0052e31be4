//! The rules of files of one directory.
ghost use Rattle.std.specs.Prelude.{◌≡◌, [], ◌∷◌, map, IfOk, Result, is_ok, option_map};
ghost use Rattle.ignore_base.specs.Paths.{join_of};
ghost use Rattle.ignore_base.specs.Problem.{problem_of};
ghost use Rattle.ignore_base.specs.declared.fault.Fault.{Fault};
ghost use Rattle.ignore_files.specs.Shown.{Shows};
ghost use Rattle.ignore_files.specs.declared.types.Metadata.{Metadata};
ghost use Rattle.ignore_dir.specs.Ground.{InTree};
ghost use Rattle.ignore_dir.specs.Soft.{IsSoft};
ghost use Rattle.ignore_dir.specs.Load.{is_there, started, AddsPresent, IsRules, path_if};
ghost use Rattle.ignore_dir.specs.LoadsBy.{AddsBy, AreRulesBy, reads_of, stats_of, stats_shown};

use crate::answers::stat_of;
use crate::errors::push_some;
use crate::ground::Ground;
use crate::settings::Settings;
use ignore_base::Error;
use ignore_base::internal::join;
use ignore_files::internal::Shown;
use ignore_files::{Files, Name};
use ignore_rules::gitignore::{Gitignore, GitignoreBuilder};
use ignore_rules::internal::{add, begun};
use std::alloc::{AllocError, Global};

/// Whether a followed `stat` answers.
pub(crate) fn is_there<F: Files>(ground: &Ground<'_, F>, path: &str) -> Result<bool, AllocError>
    ensures value { InTree F.Files ground.now (λ tree. IfOk result (λ yes. yes ≡ is_there tree path.now)) }
    ensures answered { IfOk result (λ yes. (found : Result Metadata Fault)
        × stats_of F.Files ground.now.files.now path.now found × (yes ≡ is_ok found)) }
{
    Ok(stat_of(ground, path)?.is_ok())
}

/// A builder for the rules of a directory.
fn start(alloc: Global, settings: &Settings, dir: &str) -> Result<GitignoreBuilder, AllocError>
    ensures value { IfOk result (λ b. b ≡ started settings.now dir.now) }
{
    let mut builder = begun(alloc, dir, settings.case_insensitive)?;
    builder.git_trailing_spaces(settings.git_trailing_spaces);
    Ok(builder)
}

/// Adds the file at a path, if it is there. The result is its error, unless that is a fault.
fn add_present<F: Files>(
    ground: &Ground<'_, F>,
    path: &str,
    builder: &mut GitignoreBuilder,
) -> Result<Option<Error>, AllocError>
    ensures added { InTree F.Files ground.now (λ tree.
        IfOk result (λ e. AddsPresent (is_there tree path.now) tree path.now builder.old builder.new (option_map problem_of e))) }
    ensures answered { IfOk result (λ e. AddsBy (stats_of F.Files ground.now.files.now) (reads_of F.Files ground.now.files.now)
        path.now builder.old builder.new (option_map problem_of e)) }
    ensures soft { IfOk result (λ e. IsSoft (option_map problem_of e)) }
{
    if !is_there(ground, path)? {
        return Ok(None);
    }
    let error = add(builder, ground.files, path)?;
    Ok(Error::without_fault(error))
}

/// The rules of the file at a path, relative to a directory, and the error of the file.
pub(crate) fn rules_of_file<F: Files>(
    ground: &Ground<'_, F>,
    dir: &str,
    path: &str,
) -> Result<(Gitignore, Option<Error>), AllocError>
    ensures read { InTree F.Files ground.now (λ tree.
        IfOk result (λ r. IsRules tree ground.now.settings.now dir.now (path.now ∷ []) r.0 (option_map problem_of r.1))) }
    ensures answered { IfOk result (λ r. AreRulesBy (stats_of F.Files ground.now.files.now) (reads_of F.Files ground.now.files.now)
        ground.now.settings.now dir.now (path.now ∷ []) r.0 (option_map problem_of r.1)) }
    ensures soft { IfOk result (λ r. IsSoft (option_map problem_of r.1)) }
{
    if !is_there(ground, path)? {
        return Ok((Gitignore::empty(ground.alloc), None));
    }
    let mut builder = start(ground.alloc, ground.settings, dir)?;
    let error = Error::without_fault(add(&mut builder, ground.files, path)?);
    Ok((builder.into_gitignore(), error))
}

/// Adds the file of a directory with a name, if it is there. What the listing lacks isn't asked
/// for.
fn add_named<F: Files>(
    ground: &Ground<'_, F>,
    dir: &str,
    shown: &Shown<'_>,
    name: &str,
    builder: &mut GitignoreBuilder,
) -> Result<Option<Error>, AllocError>
    ensures added { InTree F.Files ground.now (λ tree. Shows tree dir.now shown.now → IfOk result (λ e.
        AddsPresent (is_there tree (join_of dir.now name.now)) tree (join_of dir.now name.now) builder.old builder.new (option_map problem_of e))) }
    ensures answered { IfOk result (λ e. AddsBy (stats_shown F.Files ground.now.files.now dir.now shown.now) (reads_of F.Files ground.now.files.now)
        (join_of dir.now name.now) builder.old builder.new (option_map problem_of e)) }
    ensures soft { IfOk result (λ e. IsSoft (option_map problem_of e)) }
{
    if shown.lacks(name) {
        return Ok(None);
    }
    let path = join(ground.alloc, dir, name)?;
    add_present(ground, path.as_str(), builder)
}

/// The rules of the file of the directory with a name, where its filter is on, and its error. What
/// the listing lacks isn't asked for.
pub(crate) fn rules_if<F: Files>(
    ground: &Ground<'_, F>,
    dir: &str,
    shown: &Shown<'_>,
    on: bool,
    name: &str,
) -> Result<(Gitignore, Option<Error>), AllocError>
    ensures read { InTree F.Files ground.now (λ tree. Shows tree dir.now shown.now →
        IfOk result (λ r. IsRules tree ground.now.settings.now dir.now (path_if on dir.now name.now) r.0 (option_map problem_of r.1))) }
    ensures answered { IfOk result (λ r. AreRulesBy (stats_shown F.Files ground.now.files.now dir.now shown.now) (reads_of F.Files ground.now.files.now)
        ground.now.settings.now dir.now (path_if on dir.now name.now) r.0 (option_map problem_of r.1)) }
    ensures soft { IfOk result (λ r. IsSoft (option_map problem_of r.1)) }
{
    if !on {
        return Ok((Gitignore::empty(ground.alloc), None));
    }
    if shown.lacks(name) {
        return Ok((Gitignore::empty(ground.alloc), None));
    }
    let path = join(ground.alloc, dir, name)?;
    rules_of_file(ground, dir, path.as_str())
}

/// The rules of the files of the directory with these names, in turn, and their errors as one. What
/// the listing lacks isn't asked for.
pub(crate) fn rules_of_names<F: Files>(
    ground: &Ground<'_, F>,
    dir: &str,
    shown: &Shown<'_>,
    names: &[Name],
) -> Result<(Gitignore, Option<Error>), AllocError>
    ensures read { InTree F.Files ground.now (λ tree. Shows tree dir.now shown.now →
        IfOk result (λ r. IsRules tree ground.now.settings.now dir.now (map (join_of dir.now) names.now) r.0 (option_map problem_of r.1))) }
    ensures answered { IfOk result (λ r. AreRulesBy (stats_shown F.Files ground.now.files.now dir.now shown.now) (reads_of F.Files ground.now.files.now)
        ground.now.settings.now dir.now (map (join_of dir.now) names.now) r.0 (option_map problem_of r.1)) }
    ensures soft { IfOk result (λ r. IsSoft (option_map problem_of r.1)) }
{
    if names.is_empty() {
        return Ok((Gitignore::empty(ground.alloc), None));
    }
    let mut builder = start(ground.alloc, ground.settings, dir)?;
    let mut errors = Vec::new(ground.alloc);
    for name in names {
        let error = add_named(ground, dir, shown, name.as_str(), &mut builder)?;
        push_some(&mut errors, error)?;
    }
    Ok((builder.into_gitignore(), Error::joined(errors)))
}
