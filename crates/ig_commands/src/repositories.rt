//! Whether a folder holds a repository.
ghost use Rattle.std.specs.Prelude.{◌≡◌, ◌++◌, Bool, List, Result, IfOk, IfErr, OnOk, false};
ghost use Rattle.std.specs.List.{flat_map, list_any};
ghost use Rattle.ignore_base.specs.declared.fault.Fault.{Fault};
ghost use Rattle.ignore_files.specs.Gives.{IsHonest};
ghost use Rattle.ignore_files.specs.Tree.{Tree};
ghost use Rattle.ig_commands.specs.Repositories.{IsHeld, folder_at, folders_in, is_sign, shows};

use crate::worktree::is_store;
use ignore_base::internal::join;
use ignore_files::{Files, Listed, Listing, Name, Refusal};
use std::alloc::{AllocError, Global};
use std::collections::VecDeque;

/// How many folders are looked into at most.
const MOST_FOLDERS: u64 = u64::MAX;

/// Whether the folder at a path, or a folder at any depth below it, has an entry `.git` or `.jj`, or
/// can't be listed whole, so that it may have one. Links aren't followed.
///
/// # Errors
/// Out of memory alone.
pub(crate) fn holds_repository<F: Files>(
    alloc: Global,
    files: &F,
    path: &str,
) -> Result<bool, AllocError>
    ensures held { (tree : Tree) → IsHonest F.Files files.now tree → IfOk result (λ held. IsHeld tree path.now held) }
{
    let mut waiting = VecDeque::new(alloc);
    waiting.push_back(Name::from_str(alloc, path)?)?;
    let mut left = MOST_FOLDERS;
    while let Some(dir) = waiting.pop_front() {
        if left == 0 {
            return Ok(true);
        }
        left -= 1;
        if look_into(alloc, files, dir.as_str(), &mut waiting)? {
            return Ok(true);
        }
    }
    Ok(false)
}

/// Whether a folder shows a repository, or can't be listed. If not, the folders in it are to be looked
/// into as well.
fn look_into<F: Files>(
    alloc: Global,
    files: &F,
    dir: &str,
    waiting: &mut VecDeque<Name>,
) -> Result<bool, AllocError>
    ensures shows { (tree : Tree) → IsHonest F.Files files.now tree → IfOk result (λ yes. yes ≡ shows (tree.list dir.now)) }
    ensures adds { (tree : Tree) → IsHonest F.Files files.now tree
        → IfOk result (λ yes. yes ≡ false → waiting.new.items ≡ waiting.old.items ++ folders_in dir.now (tree.list dir.now)) }
{
    match files.list(alloc, dir) {
        Ok(listing) => add_unless_shown(alloc, dir, &listing, waiting),
        Err(Refusal::Fault(_)) => Ok(true),
        Err(Refusal::Memory) => Err(AllocError),
    }
}

/// Whether a listing shows a repository. If not, its folders are added.
fn add_unless_shown(
    alloc: Global,
    dir: &str,
    listing: &Listing,
    waiting: &mut VecDeque<Name>,
) -> Result<bool, AllocError>
    ensures shows { IfOk result (λ yes. yes ≡ list_any is_sign listing.now) }
    ensures adds { IfOk result (λ yes. yes ≡ false → waiting.new.items ≡ waiting.old.items ++ flat_map (folder_at dir.now) listing.now) }
{
    if any_sign(listing.as_slice()) {
        return Ok(true);
    }
    add_folders(alloc, dir, listing.as_slice(), waiting)?;
    Ok(false)
}

/// Whether one of some listed things is that of a repository, or may be.
fn any_sign(listing: &[Listed]) -> bool
    ensures { result ≡ list_any is_sign listing.now }
{
    listing.iter().any(|listed| is_sign(listed))
}

/// Whether a listed thing is that of a repository, or may be.
fn is_sign(listed: &Listed) -> bool
    ensures { result ≡ is_sign listed.now }
{
    match listed {
        Listed::Entry { name, .. } => is_store(name.as_str()),
        Listed::Fault(_) => true,
    }
}

/// Adds the folders of a listing.
fn add_folders(
    alloc: Global,
    dir: &str,
    listing: &[Listed],
    waiting: &mut VecDeque<Name>,
) -> Result<(), AllocError>
    ensures { OnOk result (waiting.new.items ≡ waiting.old.items ++ flat_map (folder_at dir.now) listing.now) }
{
    for listed in listing {
        add_folder(alloc, dir, listed, waiting)?;
    }
    Ok(())
}

/// Adds a listed thing, if it is a folder.
fn add_folder(
    alloc: Global,
    dir: &str,
    listed: &Listed,
    waiting: &mut VecDeque<Name>,
) -> Result<(), AllocError>
    ensures { OnOk result (waiting.new.items ≡ waiting.old.items ++ folder_at dir.now listed.now) }
{
    match listed {
        Listed::Entry { name, file_type } => {
            if file_type.is_dir() {
                let path = join(alloc, dir, name.as_str())?;
                waiting.push_back(Name::new(path))?;
            }
            Ok(())
        }
        Listed::Fault(_) => Ok(()),
    }
}
