//! What one listed thing is.
ghost use Rattle.std.specs.Prelude.{◌≡◌, ◌+◌, ◌++◌, ◌∷◌, [], ℕ, List, Result, length, map, reverse, option_map, IfErr, IfOk, IfSome, MatchResult};
ghost use Rattle.std.specs.Prelude.{None, Some, Ok, Err, string_bytes, true, false, if◌then◌else◌};
ghost use Rattle.std.specs.Option.{option_copied};
ghost use Rattle.ignore_base.specs.Paths.{is_proper, has_slash};
ghost use Rattle.ignore_base.specs.Problem.{Problem, problem_of, at_depth, io};
ghost use Rattle.ignore_files.specs.Gives.{IsHonest};
ghost use Rattle.ignore_files.specs.Memory.{and_then};
ghost use Rattle.ignore_files.specs.Tree.{Tree};
ghost use Rattle.ignore_walk.specs.Branch.{Branch, path_of, entered};
ghost use Rattle.ignore_walk.specs.Child.{child, found, followed_link, or_failed, is_dir_kind, is_same, identity_at, known, named};
ghost use Rattle.ignore_walk.specs.Child.{same_among, unless, unlooped, with_device};
ghost use Rattle.ignore_walk.specs.Entry.{Entry, entry_of, item_of, fresh};
ghost use Rattle.ignore_walk.specs.Found.{IsFound, IsTested, tests};
ghost use Rattle.ignore_walk.specs.GoesOn.{is_fatal};
ghost use Rattle.ignore_walk.specs.Scene.{Scene};
ghost use Rattle.ignore_walk.specs.declared.frame.Frame.{Frame as Entered};

use crate::entry::{DirEntry, Item, failed_at};
use crate::found::Found;
use crate::frame::Frame;
use ignore_base::text::{has_slash, is_proper};
use ignore_base::{Error, Fault};
use ignore_dir::Ground;
use ignore_files::internal::answered;
use ignore_files::{FileType, Files, Identity, Listed};
use std::alloc::{AllocError, Global};

/// Whether the kind is that of a directory.
pub(crate) fn is_dir_kind(kind: Option<FileType>) -> bool
    ensures { result ≡ is_dir_kind kind }
{
    match kind {
        None => false,
        Some(kind) => kind.is_dir(),
    }
}

/// Whether a listed thing is a fault, or an entry whose name is a name.
fn is_named(listed: &Listed) -> bool
    ensures { result ≡ true → named listed.now ≡ listed.now }
{
    match listed {
        Listed::Entry { name, .. } => is_proper(name.as_str()) && !has_slash(name.as_str()),
        Listed::Fault(_) => true,
    }
}

/// Whether each thing of a listing is a fault or has a name.
fn are_named(listing: &[Listed]) -> bool
    ensures { result ≡ true → map named listing.now ≡ listing.now }
{
    for i in 0..listing.len() {
        if !is_named(&listing[i]) {
            return false;
        }
    }
    true
}

/// A listed thing, or a fault in its place where its name is no name.
fn named(listed: Listed) -> Listed
    ensures { result ≡ named listed }
{
    match listed {
        Listed::Entry { name, file_type } => {
            if is_proper(name.as_str()) && !has_slash(name.as_str()) {
                return Listed::Entry { name, file_type };
            }
            Listed::Fault(Fault::BadName)
        }
        Listed::Fault(fault) => Listed::Fault(fault),
    }
}

/// The things of a listing, each a fault in its place where its name is no name.
pub fn all_named(alloc: Global, listing: Vec<Listed>) -> Result<Vec<Listed>, AllocError>
    ensures { IfOk result (λ all. all.items ≡ map named listing.items) }
{
    if are_named(listing.as_slice()) {
        return Ok(listing);
    }
    let mut all = Vec::with_capacity(alloc, listing.len())?;
    for listed in listing {
        all.push(named(listed))?;
    }
    Ok(all)
}

/// A fault of a listing, in the place of an entry at this depth.
pub(crate) fn fault_at(alloc: Global, depth: usize, fault: Fault) -> Result<Error, AllocError>
    ensures { IfOk result (λ e. problem_of e ≡ at_depth depth (io fault)) }
{
    let err = Box::new(alloc, Error::Io(fault))?;
    Ok(Error::WithDepth { depth, err })
}

/// The identity of what a path leads to, links followed, which has to be known; or the fault.
pub(crate) fn identity_at<F: Files>(
    alloc: Global,
    files: &F,
    path: &str,
) -> Result<Result<Identity, Fault>, AllocError>
    ensures { (tree : Tree) → IsHonest F.Files files.now tree → IfOk result (λ id. identity_at tree path.now ≡ id) }
{
    match answered(files.identity(alloc, path, true))? {
        Ok(Some(identity)) => Ok(Ok(identity)),
        Ok(None) => Ok(Err(Fault::NoIdentity)),
        Err(fault) => Ok(Err(fault)),
    }
}

/// Whether two identities are equal.
fn is_same(a: Identity, b: Identity) -> bool
    ensures { result ≡ is_same a b }
{
    a.device == b.device && a.inode == b.inode
}

/// The path of the nearest of the entered directories with an identity, unless a fault is met
/// before.
fn same_among<'f, F: Files>(
    alloc: Global,
    files: &F,
    identity: Identity,
    frames: &'f [Frame],
) -> Result<Result<Option<&'f str>, Fault>, AllocError>
    ensures { (tree : Tree) → IsHonest F.Files files.now tree → IfOk result (λ found. MatchResult found
        (λ p. same_among tree identity (map (λ f. f.path) (reverse frames.now)) ≡ Ok (option_copied p))
        (λ fault. same_among tree identity (map (λ f. f.path) (reverse frames.now)) ≡ Err fault)) }
{
    for i in (0..frames.len()).rev() {
        let path = frames[i].path.as_str();
        match identity_at(alloc, files, path)? {
            Ok(other) => {
                if is_same(identity, other) {
                    return Ok(Ok(Some(path)));
                }
            }
            Err(fault) => return Ok(Err(fault)),
        }
    }
    Ok(Ok(None))
}

/// What is at a path where an entry of this kind was listed: a link is followed where that is set.
pub(crate) fn found<F: Files>(
    ground: &Ground<'_, F>,
    path: String,
    depth: usize,
    kind: FileType,
) -> Result<Item, AllocError>
    ensures value { (g : Scene) → IsHonest F.Files ground.now.files.now g.tree
        → g.settings.follow_links ≡ ground.now.settings.now.follow_links
        → IfOk result (λ item. item_of item ≡ fresh (found g (string_bytes path) depth kind)) }
    ensures at { IfOk result (λ item. IfOk item (λ e. ((entry_of e).path ≡ string_bytes path) × ((entry_of e).depth ≡ depth))) }
    ensures no_end { IfOk result (λ item. IfErr item (λ e. is_fatal (problem_of e) ≡ false)) }
{
    if !ground.settings.follow_links || !kind.is_symlink() {
        return Ok(Ok(DirEntry::new(path, depth, kind, false)));
    }
    followed(ground.alloc, ground.files, path, depth)
}

/// A link that is followed.
fn followed<F: Files>(
    alloc: Global,
    files: &F,
    path: String,
    depth: usize,
) -> Result<Item, AllocError>
    ensures value { (tree : Tree) → IsHonest F.Files files.now tree
        → IfOk result (λ item. item_of item
        ≡ fresh (or_failed (string_bytes path) depth (followed_link (string_bytes path) depth) (tree.stat (string_bytes path) true))) }
    ensures at { IfOk result (λ item. IfOk item (λ e. ((entry_of e).path ≡ string_bytes path) × ((entry_of e).depth ≡ depth))) }
    ensures no_end { IfOk result (λ item. IfErr item (λ e. is_fatal (problem_of e) ≡ false)) }
{
    match answered(files.stat(alloc, path.as_str(), true))? {
        Ok(metadata) => Ok(Ok(DirEntry::new(path, depth, metadata.file_type, true))),
        Err(fault) => Ok(Err(failed_at(alloc, path.as_str(), depth, fault)?)),
    }
}

/// The loop of a link that leads back to an ancestor.
fn loop_at(alloc: Global, depth: usize, ancestor: &str, child: &str) -> Result<Error, AllocError>
    ensures { IfOk result (λ e. problem_of e
        ≡ at_depth depth (Rattle.ignore_base.specs.Problem.loop ancestor.now child.now)) }
{
    let ancestor = String::from_str(alloc, ancestor)?;
    let child = String::from_str(alloc, child)?;
    let err = Box::new(alloc, Error::Loop { ancestor, child })?;
    Ok(Error::WithDepth { depth, err })
}

/// The error in the place of a directory with an identity, where it is a followed link that leads to
/// one of those that were entered, or where that isn't known.
fn loop_of<F: Files>(
    alloc: Global,
    files: &F,
    frames: &[Frame],
    identity: Identity,
    entry: &DirEntry,
) -> Result<Option<Error>, AllocError>
    ensures value { (tree : Tree) → IsHonest F.Files files.now tree → IfOk result (λ error. unless (entry_of entry.now) (option_map problem_of error)
        ≡ (if (entry_of entry.now).followed
        then or_failed (entry_of entry.now).path (entry_of entry.now).depth (unlooped (entry_of entry.now))
        (same_among tree identity (map (λ f. f.path) (reverse frames.now)))
        else Ok (entry_of entry.now))) }
    ensures no_end { IfOk result (λ error. IfSome error (λ e. is_fatal (problem_of e) ≡ false)) }
{
    if !entry.is_followed() {
        return Ok(None);
    }
    match same_among(alloc, files, identity, frames)? {
        Ok(None) => Ok(None),
        Ok(Some(ancestor)) => Ok(Some(loop_at(alloc, entry.depth(), ancestor, entry.path())?)),
        Err(fault) => Ok(Some(failed_at(alloc, entry.path(), entry.depth(), fault)?)),
    }
}

/// The device with an identity, where it matters.
pub(crate) fn device_if(matters: bool, identity: Identity) -> Option<u64>
    ensures { result ≡ (if matters then Some identity.device else None) }
{
    if matters { Some(identity.device) } else { None }
}

/// The tests of an entry: that it is no followed link to a directory that was entered, and that the
/// device of a directory is known where it matters. The result is that device, or the error in the
/// place of the entry. The identity of the entry is asked once.
fn tested<F: Files>(
    alloc: Global,
    files: &F,
    same_file_system: bool,
    frames: &[Frame],
    entry: &DirEntry,
) -> Result<Result<Option<u64>, Error>, AllocError>
    ensures value { (g : Scene) → IsHonest F.Files files.now g.tree → g.same_file_system ≡ same_file_system
        → IfOk result (λ r. IsTested g (tests g (map (λ f. f.path) (reverse frames.now)) (entry_of entry.now)) (is_dir_kind (entry_of entry.now).kind)
        (entry_of entry.now) r) }
    ensures no_end { IfOk result (λ r. IfErr r (λ e. is_fatal (problem_of e) ≡ false)) }
{
    if !is_dir_kind(entry.file_type()) || !(same_file_system || entry.is_followed()) {
        return Ok(Ok(None));
    }
    match identity_at(alloc, files, entry.path())? {
        Ok(identity) => match loop_of(alloc, files, frames, identity, entry)? {
            None => Ok(Ok(device_if(same_file_system, identity))),
            Some(error) => Ok(Err(error)),
        },
        Err(fault) => Ok(Err(failed_at(alloc, entry.path(), entry.depth(), fault)?)),
    }
}

/// The device of a root, where it is a directory and that matters; or the error in its place, where
/// that isn't known.
pub(crate) fn device_at<F: Files>(
    alloc: Global,
    files: &F,
    same_file_system: bool,
    is_dir: bool,
    entry: &DirEntry,
) -> Result<Result<Option<u64>, Error>, AllocError>
    ensures value { (g : Scene) → IsHonest F.Files files.now g.tree → g.same_file_system ≡ same_file_system
        → IfOk result (λ r. IsTested g (with_device g is_dir (entry_of entry.now)) is_dir (entry_of entry.now) r) }
    ensures no_end { IfOk result (λ r. IfErr r (λ e. is_fatal (problem_of e) ≡ false)) }
{
    if !same_file_system || !is_dir {
        return Ok(Ok(None));
    }
    match identity_at(alloc, files, entry.path())? {
        Ok(identity) => Ok(Ok(Some(identity.device))),
        Err(fault) => Ok(Err(failed_at(alloc, entry.path(), entry.depth(), fault)?)),
    }
}

/// The depth of what is in the directory that was entered last.
#[tactic(auto, using(crate::proofs::ChildLemmas::frames_length))]
pub(crate) fn depth_below(frames: &[Frame]) -> usize
    ensures deep { (root : List ℕ) (b : Branch) → map (λ f. f.path) (reverse frames.now) ≡ entered root b → result ≡ length b + 1 }
    ensures value { result ≡ length frames.now }
{
    frames.len()
}

/// The path of the directory that was entered last.
pub(crate) fn last_path(frames: &[Frame]) -> &str
    ensures at { (root : List ℕ) (b : Branch) → map (λ f. f.path) (reverse frames.now) ≡ entered root b → result.now ≡ path_of root b }
    ensures last { (around : List Entered) (dir : Entered) → frames.now ≡ around ++ dir ∷ [] → result.now ≡ dir.path }
{
    match frames.last() {
        None => "",
        Some(frame) => frame.path.as_str(),
    }
}

/// What was found, after its tests.
pub(crate) fn checked<F: Files>(
    alloc: Global,
    files: &F,
    same_file_system: bool,
    frames: &[Frame],
    item: Item,
) -> Result<Result<Found, Error>, AllocError>
    ensures value { (g : Scene) (r : Result Entry Problem) → IsHonest F.Files files.now g.tree → g.same_file_system ≡ same_file_system
        → item_of item ≡ fresh r
        → IfOk result (λ found. IsFound g (λ e. is_dir_kind e.kind) found (and_then (tests g (map (λ f. f.path) (reverse frames.now))) r)) }
    ensures same { IfOk result (λ found. IfOk found (λ f. item ≡ Ok f.entry)) }
    ensures no_end { IfErr item (λ e. is_fatal (problem_of e) ≡ false) → IfOk result (λ found. IfErr found (λ e. is_fatal (problem_of e) ≡ false)) }
{
    match item {
        Ok(entry) => match tested(alloc, files, same_file_system, frames, &entry)? {
            Ok(device) => Ok(Ok(Found { entry, device })),
            Err(error) => Ok(Err(error)),
        },
        Err(error) => Ok(Err(error)),
    }
}
