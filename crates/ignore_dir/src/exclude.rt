//! The way to the exclude file of a directory's repository.
ghost use Rattle.std.specs.Prelude.{◌≡◌, drop, length, nat_eq, true, IfOk, MatchResult, string_bytes, codes};
ghost use Rattle.std.specs.List.{starts_with};
ghost use Rattle.ignore_base.specs.Paths.{join_of};
ghost use Rattle.ignore_dir.specs.Exclude.{common_folder, excludes_in, by_commondir, by_gitdir, by_git_file, stopped_at};
ghost use Rattle.ignore_dir.specs.Ground.{InTree};
ghost use Rattle.ignore_dir.specs.LoadsBy.{ContentsLead, FolderLeads, GitLeads, LineLeads, reads_of};
ghost use Rattle.ignore_dir.specs.Places.{place_of};
ghost use Rattle.ignore_dir.specs.Soft.{IsSoftPlace};

use crate::answers::contents_of;
use crate::ground::Ground;
use ignore_base::Error;
use ignore_base::internal::join;
use ignore_files::{Contents, Fault, Files};
use ignore_rules::gitignore::first_line;
use std::alloc::{AllocError, Global};

/// Where an exclude file may be, or why the way to it ended.
#[derive(Debug, Drop)]
pub enum ExcludePlace {
    /// The file may be at this path.
    At(String),
    /// There is no such file.
    Nowhere,
    /// The way ended with this error.
    Failed(Error),
}

/// The way ended with a fault at a path.
fn failed_at(alloc: Global, path: &str, fault: Fault) -> Result<ExcludePlace, AllocError>
    ensures value { IfOk result (λ place. place_of place ≡ stopped_at path.now fault) }
    ensures soft { IfOk result (λ place. IsSoftPlace (place_of place)) }
{
    let error = Error::Io(fault).with_path(alloc, path)?;
    Ok(ExcludePlace::Failed(error))
}

/// The exclude file in the folder of a repository.
pub(crate) fn excludes_in(alloc: Global, folder: &str) -> Result<ExcludePlace, AllocError>
    ensures value { IfOk result (λ place. place_of place ≡ excludes_in folder.now) }
    ensures soft { IfOk result (λ place. IsSoftPlace (place_of place)) }
{
    Ok(ExcludePlace::At(join(alloc, folder, "info/exclude")?))
}

/// The common folder that the line of `commondir` in a folder names.
fn common_folder(alloc: Global, folder: &str, line: &str) -> Result<String, AllocError>
    ensures value { IfOk result (λ path. string_bytes path ≡ common_folder folder.now line.now) }
{
    if line.starts_with(".") {
        join(alloc, folder, line)
    } else {
        Ok(String::from_str(alloc, line)?)
    }
}

/// From the folder that a `.git` file names, by what was read of its `commondir`.
fn led_by_commondir(
    alloc: Global,
    folder: &str,
    path: &str,
    read: &Result<Contents, Fault>,
) -> Result<ExcludePlace, AllocError>
    ensures value { path.now ≡ join_of folder.now (codes "commondir")
        → IfOk result (λ place. place_of place ≡ by_commondir folder.now read.now) }
    ensures soft { IfOk result (λ place. IsSoftPlace (place_of place)) }
{
    match read {
        Ok(contents) => match first_line(contents) {
            Ok(Some(line)) => {
                let common = common_folder(alloc, folder, line)?;
                excludes_in(alloc, common.as_str())
            }
            Ok(None) => Ok(ExcludePlace::Nowhere),
            Err(fault) => failed_at(alloc, path, fault),
        },
        Err(_) => Ok(ExcludePlace::Nowhere),
    }
}

/// From the folder that a `.git` file names, by its `commondir`.
fn by_commondir<F: Files>(ground: &Ground<'_, F>, folder: &str) -> Result<ExcludePlace, AllocError>
    ensures value { InTree F.Files ground.now (λ tree.
        IfOk result (λ place. place_of place ≡ by_commondir folder.now (tree.contents (join_of folder.now (codes "commondir"))))) }
    ensures answered { IfOk result (λ place. FolderLeads (reads_of F.Files ground.now.files.now) folder.now (place_of place)) }
    ensures soft { IfOk result (λ place. IsSoftPlace (place_of place)) }
{
    let path = join(ground.alloc, folder, "commondir")?;
    let read = contents_of(ground, path.as_str())?;
    led_by_commondir(ground.alloc, folder, path.as_str(), &read)
}

/// By the first line of a `.git` file.
fn by_gitdir<F: Files>(ground: &Ground<'_, F>, line: &str) -> Result<ExcludePlace, AllocError>
    ensures value { InTree F.Files ground.now (λ tree.
        IfOk result (λ place. place_of place ≡ by_gitdir tree line.now)) }
    ensures answered { IfOk result (λ place. LineLeads (reads_of F.Files ground.now.files.now) (starts_with nat_eq line.now (codes "gitdir: "))
        (drop (length (codes "gitdir: ")) line.now) (place_of place)) }
    ensures soft { IfOk result (λ place. IsSoftPlace (place_of place)) }
{
    match line.strip_prefix("gitdir: ") {
        Some(folder) => by_commondir(ground, folder),
        None => Ok(ExcludePlace::Nowhere),
    }
}

/// By what was read of a `.git` that is a file.
fn led_by_git_file<F: Files>(
    ground: &Ground<'_, F>,
    git: &str,
    read: &Result<Contents, Fault>,
) -> Result<ExcludePlace, AllocError>
    ensures value { InTree F.Files ground.now (λ tree.
        IfOk result (λ place. place_of place ≡ by_git_file tree git.now read.now)) }
    ensures answered { IfOk result (λ place. ContentsLead (reads_of F.Files ground.now.files.now) git.now read.now (place_of place)) }
    ensures soft { IfOk result (λ place. IsSoftPlace (place_of place)) }
{
    match read {
        Ok(contents) => match first_line(contents) {
            Ok(Some(line)) => by_gitdir(ground, line),
            Ok(None) => Ok(ExcludePlace::Nowhere),
            Err(fault) => failed_at(ground.alloc, git, fault),
        },
        Err(fault) => failed_at(ground.alloc, git, *fault),
    }
}

/// By a `.git` that is a file.
pub(crate) fn by_git_file<F: Files>(
    ground: &Ground<'_, F>,
    git: &str,
) -> Result<ExcludePlace, AllocError>
    ensures value { InTree F.Files ground.now (λ tree.
        IfOk result (λ place. place_of place ≡ by_git_file tree git.now (tree.contents git.now))) }
    ensures answered { IfOk result (λ place. GitLeads (reads_of F.Files ground.now.files.now) true git.now (place_of place)) }
    ensures soft { IfOk result (λ place. IsSoftPlace (place_of place)) }
{
    let read = contents_of(ground, git)?;
    led_by_git_file(ground, git, &read)
}
