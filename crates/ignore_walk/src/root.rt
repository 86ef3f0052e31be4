//! How a walk begins a root.
ghost use Rattle.std.specs.Prelude.{◌≡◌, true, false, Result, IfErr, IfOk, None, Ok, string_bytes};
ghost use Rattle.ignore_base.specs.Problem.{Problem, problem_of};
ghost use Rattle.ignore_files.specs.Gives.{IsHonest};
ghost use Rattle.ignore_files.specs.Memory.{and_then};
ghost use Rattle.ignore_files.specs.Tree.{Tree};
ghost use Rattle.ignore_dir.specs.Query.{is_dir_there};
ghost use Rattle.ignore_walk.specs.Child.{or_failed, with_device};
ghost use Rattle.ignore_walk.specs.Entry.{Entry, entry_of, item_of, fresh, problem_in};
ghost use Rattle.ignore_walk.specs.Found.{IsFound};
ghost use Rattle.ignore_walk.specs.GoesOn.{is_fatal};
ghost use Rattle.ignore_walk.specs.Scene.{Scene};
ghost use Rattle.ignore_walk.specs.Whole.{root_by, root_of};

use crate::child::device_at;
use crate::entry::{DirEntry, Item, failed_at};
use crate::found::Found;
use ignore_base::Error;
use ignore_files::internal::answered;
use ignore_files::{FileType, Files, Metadata};
use std::alloc::{AllocError, Global};

/// Whether a path leads to a directory.
pub(crate) fn is_dir_found<F: Files>(
    alloc: Global,
    files: &F,
    path: &str,
) -> Result<bool, AllocError>
    ensures value { (tree : Tree) → IsHonest F.Files files.now tree → IfOk result (λ yes. yes ≡ is_dir_there (tree.stat path.now true)) }
{
    match answered(files.stat(alloc, path, true))? {
        Ok(metadata) => Ok(metadata.is_dir()),
        Err(_) => Ok(false),
    }
}

/// The entry of a root, by its own kind and the kind of what it leads to.
fn root_by(root: String, follow_links: bool, own: FileType, kind: FileType) -> DirEntry
    ensures value { (g : Scene) → g.settings.follow_links ≡ follow_links → entry_of result ≡ root_by g (string_bytes root) own kind }
    ensures at { ((entry_of result).path ≡ string_bytes root) × ((entry_of result).depth ≡ 0) }
    ensures no_error { problem_in result ≡ None }
{
    if own.is_symlink() && !(follow_links || kind.is_file()) {
        return DirEntry::new(root, 0, FileType::Symlink, false);
    }
    DirEntry::new(root, 0, kind, own.is_symlink())
}

/// What a root leads to.
fn root_of<F: Files>(
    alloc: Global,
    files: &F,
    follow_links: bool,
    root: &str,
    own: Metadata,
) -> Result<Item, AllocError>
    ensures value { (g : Scene) → IsHonest F.Files files.now g.tree → g.settings.follow_links ≡ follow_links
        → IfOk result (λ item. item_of item ≡ fresh (root_of g root.now own)) }
    ensures at { IfOk result (λ item. IfOk item (λ e. ((entry_of e).path ≡ root.now) × ((entry_of e).depth ≡ 0))) }
    ensures no_end { IfOk result (λ item. IfErr item (λ e. is_fatal (problem_of e) ≡ false)) }
{
    match answered(files.stat(alloc, root, true))? {
        Ok(metadata) => {
            let path = String::from_str(alloc, root)?;
            Ok(Ok(root_by(path, follow_links, own.file_type, metadata.file_type)))
        }
        Err(fault) => Ok(Err(failed_at(alloc, root, 0, fault)?)),
    }
}

/// The entry of a root, or the error in its place, whatever its device is.
pub(crate) fn root_found<F: Files>(
    alloc: Global,
    files: &F,
    follow_links: bool,
    root: &str,
) -> Result<Item, AllocError>
    ensures value { (g : Scene) → IsHonest F.Files files.now g.tree → g.settings.follow_links ≡ follow_links
        → IfOk result (λ item. item_of item ≡ fresh (or_failed root.now 0 (root_of g root.now) (g.tree.stat root.now false))) }
    ensures at { IfOk result (λ item. IfOk item (λ e. ((entry_of e).path ≡ root.now) × ((entry_of e).depth ≡ 0))) }
    ensures no_end { IfOk result (λ item. IfErr item (λ e. is_fatal (problem_of e) ≡ false)) }
{
    match answered(files.stat(alloc, root, false))? {
        Ok(own) => root_of(alloc, files, follow_links, root, own),
        Err(fault) => Ok(Err(failed_at(alloc, root, 0, fault)?)),
    }
}

/// What was found at a root, after the test of its device.
pub(crate) fn on_device<F: Files>(
    alloc: Global,
    files: &F,
    same_file_system: bool,
    is_dir: bool,
    item: Item,
) -> Result<Result<Found, Error>, AllocError>
    ensures value { (g : Scene) (r : Result Entry Problem) → IsHonest F.Files files.now g.tree → g.same_file_system ≡ same_file_system
        → item_of item ≡ fresh r
        → IfOk result (λ found. IsFound g (λ _. is_dir) found (and_then (with_device g is_dir) r)) }
    ensures same { IfOk result (λ found. IfOk found (λ f. item ≡ Ok f.entry)) }
    ensures no_end { IfErr item (λ e. is_fatal (problem_of e) ≡ false) → IfOk result (λ found. IfErr found (λ e. is_fatal (problem_of e) ≡ false)) }
{
    match item {
        Ok(entry) => match device_at(alloc, files, same_file_system, is_dir, &entry)? {
            Ok(device) => Ok(Ok(Found { entry, device })),
            Err(error) => Ok(Err(error)),
        },
        Err(error) => Ok(Err(error)),
    }
}
