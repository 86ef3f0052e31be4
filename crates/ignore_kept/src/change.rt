//! What a host tells of a path of its tree.
ghost use Rattle.std.specs.Prelude.{◌≡◌, Result};
ghost use Rattle.ignore_files.specs.Changes.{link_added};
ghost use Rattle.ignore_kept.specs.Trees.{Applies, AppliesAs, Begins, Changes, told_of};

use crate::kept::Kept;
use crate::room::text_of;
use crate::stopped::Stopped;
use ignore::Fault;
use ignore::files::{Identity, MemoryTree, TreeError};
use std::alloc::Global;

/// What a host tells of a path.
#[derive(Clone, Copy, Drop)]
pub enum Change<'c> {
    /// A directory is there.
    Dir,
    /// A file with these bytes is there.
    File(&'c [u8]),
    /// A symbolic link with this target is there.
    Link(&'c [u8]),
    /// Something whose name isn't UTF-8 is in the directory there.
    Nameless,
    /// The file there has this size.
    Size(u64),
    /// What is there has this identity.
    Identity(Option<Identity>),
    /// Asking what is there fails.
    StatFault(Fault),
    /// Listing the directory there fails.
    ListFault(Fault),
    /// Reading the file there fails after so many bytes.
    Cut(usize, Fault),
    /// The file there has other bytes.
    Rewritten(&'c [u8]),
    /// Nothing is there any more.
    Removed,
}

/// A tree whose working directory is that.
#[tactic(auto, using(crate::proofs::Telling::begins, crate::proofs::Telling::begins_none))]
pub fn begin(alloc: Global, cwd: &[u8]) -> Result<Kept, Stopped>
    ensures { Begins cwd.now result }
{
    let Ok(cwd) = text_of(cwd) else {
        return Err(Stopped::NotUtf8);
    };
    match MemoryTree::new(alloc, cwd) {
        Ok(tree) => Ok(Kept::Tree(tree)),
        Err(error) => Err(Stopped::Tree(error)),
    }
}

/// Changes the tree that is kept.
#[tactic(auto, using(crate::proofs::Telling::changes))]
pub fn tell(kept: &mut Kept, path: &[u8], change: Change<'_>) -> Result<(), Stopped>
    ensures { Changes kept.old change.entry path.now result kept.new }
{
    let Kept::Tree(tree) = kept else {
        return Err(Stopped::Misused);
    };
    let Ok(path) = text_of(path) else {
        return Err(Stopped::NotUtf8);
    };
    apply(tree, path, change)
}

#[tactic(auto, using(crate::proofs::Telling::applied, crate::proofs::Telling::applied_surely))]
fn apply(tree: &mut MemoryTree, path: &str, change: Change<'_>) -> Result<(), Stopped>
    ensures { Applies change.entry path.now tree.old result tree.new }
{
    match change {
        Change::Dir => told(tree.add_dir(path)),
        Change::File(bytes) => told(tree.add_file(path, bytes)),
        Change::Link(target) => link(tree, path, target),
        Change::Nameless => told(tree.add_nameless(path)),
        Change::Size(size) => told(tree.set_size(path, size)),
        Change::Identity(identity) => told(tree.set_identity(path, identity)),
        Change::StatFault(fault) => told(tree.fault_stat(path, fault)),
        Change::ListFault(fault) => told(tree.fault_list(path, fault)),
        Change::Cut(len, fault) => told(tree.cut_contents(path, len, fault)),
        Change::Rewritten(bytes) => told(tree.rewrite_file(path, bytes)),
        Change::Removed => told(tree.remove(path)),
    }
}

#[tactic(auto, using(crate::proofs::Telling::linked))]
fn link(tree: &mut MemoryTree, path: &str, target: &[u8]) -> Result<(), Stopped>
    ensures { AppliesAs (link_added target.now tree.old path.now) target.now tree.old result tree.new }
{
    let Ok(target) = text_of(target) else {
        return Err(Stopped::NotUtf8);
    };
    told(tree.add_link(path, target))
}

fn told(given: Result<(), TreeError>) -> Result<(), Stopped>
    ensures { result ≡ told_of given }
{
    match given {
        Ok(()) => Ok(()),
        Err(error) => Err(Stopped::Tree(error)),
    }
}
