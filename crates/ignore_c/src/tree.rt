//! The exports of trees.
ghost use Rattle.std.specs.Prelude.{◌≡◌, Result, Ok, Err, IfOk, IfErr, Some, None};
ghost use Rattle.std.specs.List.{slice_get};
ghost use Rattle.ignore_kept.specs.Stops.{ended_code};
ghost use Rattle.ignore_kept.specs.Trees.{Begins, Changed, Faulted};
ghost use Rattle.ignore_kept.specs.declared.change.Change.TheVariants as change;
ghost use Rattle.ignore_kept.specs.declared.kept.Kept.{Kept};
ghost use Rattle.ignore_kept.specs.declared.stopped.Stopped.{Stopped};

use crate::handle::{Handle, close, open};
use core::mem;
use ignore::Fault;
use ignore::files::Identity;
use ignore_kept::change::{self, Change};
use ignore_kept::{Kept, Stopped, done};
use std::alloc::Global;

/// The faults of a file system, in the order of their numbers.
const FAULTS: [Fault; 12] = [
    Fault::NotFound,
    Fault::PermissionDenied,
    Fault::NotADirectory,
    Fault::IsADirectory,
    Fault::InvalidData,
    Fault::BadName,
    Fault::LinkLimit,
    Fault::NoIdentity,
    Fault::NoCurrentDir,
    Fault::StepLimit,
    Fault::NoMetadata,
    Fault::Other,
];

/// A path of a tree, and what is told of it.
#[derive(Clone, Copy, Drop)]
struct News<'n> {
    path: &'n [u8],
    change: Change<'n>,
}

/// The fault of a number.
fn fault_of(number: u32) -> Option<Fault>
    ensures { result ≡ slice_get FAULTS number }
{
    match FAULTS.get(number as usize) {
        None => None,
        Some(fault) => Some(*fault),
    }
}

/// Begins a tree with the directory `/` alone, and hands out its handle.
#[unsafe(no_mangle)]
pub extern "C" fn ignore_tree_new(alloc: Global, cwd: &[u8], out: &mut *mut u8) -> u32
    ensures { (given : Result Kept Stopped) × Begins cwd.now given × (result ≡ ended_code given) }
{
    match begun(alloc, cwd) {
        Ok(kept) => {
            let (at, _) = Box::into_raw_with_allocator(kept);
            *out = at as *mut u8;
            0
        }
        Err(stopped) => stopped.code(),
    }
}

fn begun(alloc: Global, cwd: &[u8]) -> Result<Box<Kept>, Stopped>
    ensures begun { IfOk result (λ kept. Begins cwd.now (Ok kept.value)) }
    ensures refused { IfErr result (λ e. Begins cwd.now (Err e)) }
{
    let kept = change::begin(alloc, cwd)?;
    Ok(Box::new(alloc, kept)?)
}

fn told(tree: Handle, news: News<'_>) -> (Handle, u32)
    ensures { Changed tree.value news.entry.change news.entry.path.now result.1 result.0.value }
{
    let mut kept = open(tree);
    let code = done(change::tell(&mut kept, news.path, news.change));
    (close(kept), code)
}

/// Adds an empty directory.
#[unsafe(no_mangle)]
pub extern "C" fn ignore_tree_add_dir(tree: &mut Handle, path: &[u8]) -> u32
    ensures { Changed tree.old.value (change.Dir) path.now result tree.new.value }
{
    let change = Change::Dir;
    mem::replace_with(tree, News { path, change }, told)
}

/// Adds a file with these bytes.
#[unsafe(no_mangle)]
pub extern "C" fn ignore_tree_add_file(tree: &mut Handle, path: &[u8], bytes: &[u8]) -> u32
    ensures { Changed tree.old.value (change.File bytes.entry) path.now result tree.new.value }
{
    let change = Change::File(bytes);
    mem::replace_with(tree, News { path, change }, told)
}

/// Adds a symbolic link, whose target needn't exist.
#[unsafe(no_mangle)]
pub extern "C" fn ignore_tree_add_link(tree: &mut Handle, path: &[u8], target: &[u8]) -> u32
    ensures { Changed tree.old.value (change.Link target.entry) path.now result tree.new.value }
{
    let change = Change::Link(target);
    mem::replace_with(tree, News { path, change }, told)
}

/// Adds something whose name isn't UTF-8 to a directory.
#[unsafe(no_mangle)]
pub extern "C" fn ignore_tree_add_nameless(tree: &mut Handle, path: &[u8]) -> u32
    ensures { Changed tree.old.value (change.Nameless) path.now result tree.new.value }
{
    let change = Change::Nameless;
    mem::replace_with(tree, News { path, change }, told)
}

/// Sets the size that is reported for a file.
#[unsafe(no_mangle)]
pub extern "C" fn ignore_tree_set_size(tree: &mut Handle, path: &[u8], size: u64) -> u32
    ensures { Changed tree.old.value (change.Size size) path.now result tree.new.value }
{
    let change = Change::Size(size);
    mem::replace_with(tree, News { path, change }, told)
}

/// Sets the identity that is reported for a path.
#[unsafe(no_mangle)]
pub extern "C" fn ignore_tree_set_identity(
    tree: &mut Handle,
    path: &[u8],
    device: u64,
    inode: u64,
) -> u32
    ensures { Changed tree.old.value (change.Identity (Some (record { device = device; inode = inode }))) path.now result tree.new.value }
{
    let change = Change::Identity(Some(Identity { device, inode }));
    mem::replace_with(tree, News { path, change }, told)
}

/// Says that the identity of a path is unknown.
#[unsafe(no_mangle)]
pub extern "C" fn ignore_tree_clear_identity(tree: &mut Handle, path: &[u8]) -> u32
    ensures { Changed tree.old.value (change.Identity None) path.now result tree.new.value }
{
    let change = Change::Identity(None);
    mem::replace_with(tree, News { path, change }, told)
}

/// Writes a file anew, with these bytes.
#[unsafe(no_mangle)]
pub extern "C" fn ignore_tree_rewrite_file(tree: &mut Handle, path: &[u8], bytes: &[u8]) -> u32
    ensures { Changed tree.old.value (change.Rewritten bytes.entry) path.now result tree.new.value }
{
    let change = Change::Rewritten(bytes);
    mem::replace_with(tree, News { path, change }, told)
}

/// Removes what is at a path, with all that is below it.
#[unsafe(no_mangle)]
pub extern "C" fn ignore_tree_remove(tree: &mut Handle, path: &[u8]) -> u32
    ensures { Changed tree.old.value (change.Removed) path.now result tree.new.value }
{
    let change = Change::Removed;
    mem::replace_with(tree, News { path, change }, told)
}

/// Has the question what is at a path fail.
#[tactic(auto, using(crate::proofs::Faults::unfaulted))]
#[unsafe(no_mangle)]
pub extern "C" fn ignore_tree_fault_stat(tree: &mut Handle, path: &[u8], fault: u32) -> u32
    ensures { Faulted (slice_get FAULTS fault) (λ fault. Changed tree.old.value (change.StatFault fault) path.now result tree.new.value) result tree.old.value tree.new.value }
{
    match fault_of(fault) {
        None => Stopped::Misused.code(),
        Some(fault) => {
            let change = Change::StatFault(fault);
            mem::replace_with(tree, News { path, change }, told)
        }
    }
}

/// Has the listing of a directory fail.
#[tactic(auto, using(crate::proofs::Faults::unfaulted))]
#[unsafe(no_mangle)]
pub extern "C" fn ignore_tree_fault_list(tree: &mut Handle, path: &[u8], fault: u32) -> u32
    ensures { Faulted (slice_get FAULTS fault) (λ fault. Changed tree.old.value (change.ListFault fault) path.now result tree.new.value) result tree.old.value tree.new.value }
{
    match fault_of(fault) {
        None => Stopped::Misused.code(),
        Some(fault) => {
            let change = Change::ListFault(fault);
            mem::replace_with(tree, News { path, change }, told)
        }
    }
}

/// Ends the reading of a file by a fault, after so many bytes.
#[tactic(auto, using(crate::proofs::Faults::unfaulted))]
#[unsafe(no_mangle)]
pub extern "C" fn ignore_tree_cut_contents(
    tree: &mut Handle,
    path: &[u8],
    len: usize,
    fault: u32,
) -> u32
    ensures { Faulted (slice_get FAULTS fault) (λ fault. Changed tree.old.value (change.Cut len fault) path.now result tree.new.value) result tree.old.value tree.new.value }
{
    match fault_of(fault) {
        None => Stopped::Misused.code(),
        Some(fault) => {
            let change = Change::Cut(len, fault);
            mem::replace_with(tree, News { path, change }, told)
        }
    }
}

/// Frees a tree.
#[unsafe(no_mangle)]
pub extern "C" fn ignore_tree_free(tree: Handle) {
    let _kept = open(tree);
}
