//! A tree in memory of which a file is written anew, and something is removed.
use ignore_files::{Files, MemoryTree, TreeError};
use std::alloc::Global;
use std::test::Fail;

fn told(alloc: Global) -> Result<MemoryTree, TreeError> {
    let mut tree = MemoryTree::new(alloc, "/")?;
    tree.add_dir("/a")?;
    tree.add_file("/a/f", "one".as_bytes())?;
    Ok(tree)
}

fn anew(alloc: Global) -> Result<MemoryTree, TreeError> {
    let mut tree = told(alloc)?;
    tree.rewrite_file("/a/f", "three".as_bytes())?;
    Ok(tree)
}

fn gone(alloc: Global) -> Result<MemoryTree, TreeError> {
    let mut tree = anew(alloc)?;
    tree.remove("/a")?;
    Ok(tree)
}

/// The size of what is at a path, if something is there.
fn size_at(alloc: Global, tree: &MemoryTree, path: &str) -> Option<u64> {
    match tree.stat(alloc, path, true) {
        Ok(found) => Some(found.len()),
        Err(_) => None,
    }
}

#[test]
fn a_file_written_anew_has_its_size(rt: HostRuntime) -> Result<(), Fail> {
    let tree = anew(rt.alloc())?;
    let size = size_at(rt.alloc(), &tree, "/a/f");
    assert!(rt; size == Some(5));
    Ok(())
}

#[test]
fn nothing_is_left_below_what_was_removed(rt: HostRuntime) -> Result<(), Fail> {
    let tree = gone(rt.alloc())?;
    let size = size_at(rt.alloc(), &tree, "/a/f");
    assert!(rt; size == None);
    Ok(())
}

#[test]
fn what_was_removed_may_be_added_again(rt: HostRuntime) -> Result<(), Fail> {
    let mut tree = gone(rt.alloc())?;
    tree.add_dir("/a")?;
    let size = size_at(rt.alloc(), &tree, "/a");
    assert!(rt; size == Some(0));
    Ok(())
}
