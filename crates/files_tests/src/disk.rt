//! The machine's files beside a tree in memory with the same things.
use ignore_files::{
    DiskFiles, Fault, FileType, Files, Identity, Listing, MemoryTree, Metadata, Refusal, TreeError,
};
use std::alloc::{AllocError, Global};
use std::fs::Permissions;
use std::os::unix::fs::{MetadataExt, PermissionsExt, symlink};
use std::test::Fail;
use std::{env, fs, io, process};

/// The tree that has this working directory and nothing in it.
fn tree_at(alloc: Global, cwd: &str) -> Result<MemoryTree, TreeError> {
    let mut tree = MemoryTree::new(alloc, cwd)?;
    let mut path = String::new(alloc);
    for name in cwd.split('/').skip(1) {
        path.push('/')?;
        path.push_str(name)?;
        tree.add_dir(&path)?;
    }
    Ok(tree)
}

/// Adds a thing: `PATH/` is a directory, `PATH>TARGET` a link and `PATH=TEXT` a file.
fn add(tree: &mut MemoryTree, thing: &str) -> Result<(), TreeError> {
    if let Some(path) = thing.strip_suffix('/') {
        tree.add_dir(path)
    } else if let Some((path, target)) = thing.split_once('>') {
        tree.add_link(path, target)
    } else if let Some((path, text)) = thing.split_once('=') {
        tree.add_file(path, text.as_bytes())
    } else {
        Ok(())
    }
}

/// Makes on the machine what `add` adds to a tree in memory.
fn make(rt: &HostRuntime, thing: &str) -> io::Result<()> {
    if let Some(path) = thing.strip_suffix('/') {
        fs::create_dir(rt, path)
    } else if let Some((path, target)) = thing.split_once('>') {
        symlink(rt, target, path)
    } else if let Some((path, text)) = thing.split_once('=') {
        fs::write(rt, path, text)
    } else {
        Ok(())
    }
}

/// The path of a folder in this one, for the process with this number.
fn numbered(alloc: Global, temp: &str, id: u32) -> Result<String, AllocError> {
    format!(in alloc; "{temp}/files_tests-{id}")
}

/// The path of a folder of this process alone. (Each test is a process.)
fn own_folder(rt: &HostRuntime) -> io::Result<String> {
    let temp = env::temp_dir(rt)?;
    Ok(numbered(rt.alloc(), temp.as_str(), process::id(rt.process()))?)
}

/// Makes a folder, and works in it from now on.
fn work_in(rt: &HostRuntime, folder: &str) -> io::Result<()> {
    fs::create_dir(rt, folder)?;
    env::set_current_dir(rt, folder)
}

/// Makes a folder of this process alone, and works in it from now on. The folder's path.
pub(crate) fn enter(rt: &HostRuntime) -> io::Result<String> {
    let folder = own_folder(rt)?;
    work_in(rt, folder.as_str())?;
    Ok(folder)
}

/// Removes the folder that `enter` made, from outside.
pub(crate) fn leave(rt: &HostRuntime, folder: &str) -> io::Result<()> {
    env::set_current_dir(rt, "/")?;
    fs::remove_dir_all(rt, folder)
}

/// Adds to a tree a thing of this directory.
fn add_in(alloc: Global, tree: &mut MemoryTree, cwd: &str, thing: &str) -> Result<(), TreeError> {
    let path = format!(in alloc; "{cwd}/{thing}")?;
    add(tree, &path)
}

/// Makes a thing on the machine, and adds it to a tree.
fn make_both(rt: &HostRuntime, tree: &mut MemoryTree, cwd: &str, thing: &str) -> Result<(), Fail> {
    make(rt, thing)?;
    Ok(add_in(rt.alloc(), tree, cwd, thing)?)
}

/// The same as `made`, with the path of the working directory.
fn made_in(rt: &HostRuntime, cwd: &str, things: &str) -> Result<MemoryTree, Fail> {
    let mut tree = tree_at(rt.alloc(), cwd)?;
    for thing in things.split('|') {
        make_both(rt, &mut tree, cwd, thing)?;
    }
    Ok(tree)
}

/// Makes things, separated by bars, in the working directory of the machine, and returns a tree
/// with the same things.
fn made(rt: &HostRuntime, things: &str) -> Result<MemoryTree, Fail> {
    let cwd = env::current_dir(rt)?;
    made_in(rt, cwd.as_str(), things)
}

/// The size of a directory is the system's own.
fn without_size(metadata: Metadata) -> (FileType, u64) {
    match metadata.file_type() {
        FileType::Dir => (FileType::Dir, 0),
        file_type => (file_type, metadata.len()),
    }
}

/// What is listed, each thing as a text, in the order of the texts.
fn sorted(alloc: Global, answer: Result<Listing, Refusal>) -> Result<Vec<String>, Refusal> {
    let mut lines = Vec::new(alloc);
    for listed in answer?.as_slice() {
        lines.push(format!(in alloc; "{listed:?}")?)?;
    }
    lines.sort()?;
    Ok(lines)
}

/// The answers of the five calls for a path, except the order of a listing and the size of a
/// directory. For the identity it says whether a link has that of what it leads to.
fn reported<F: Files>(alloc: Global, files: &F, path: &str) -> Result<String, AllocError> {
    let followed = files.stat(alloc, path, true).map(without_size);
    let own = files.stat(alloc, path, false).map(without_size);
    let listing = sorted(alloc, files.list(alloc, path));
    let contents = files.contents(alloc, path);
    let canonical = files.canonical(alloc, path);
    let is_one = files.identity(alloc, path, true) == files.identity(alloc, path, false);
    format!(in alloc; "{followed:?} {own:?} {listing:?} {contents:?} {canonical:?} {is_one}")
}

/// Appends what was answered for a path, where it differs.
fn push_difference(
    text: &mut String,
    path: &str,
    on_disk: &str,
    in_memory: &str,
) -> Result<(), AllocError> {
    if on_disk != in_memory {
        write!(text, "{path}: {on_disk}, and not {in_memory}\n")?;
    }
    Ok(())
}

/// Appends what the machine and a tree answer for a path, where they differ.
fn compare(
    rt: &HostRuntime,
    tree: &MemoryTree,
    path: &str,
    text: &mut String,
) -> Result<(), AllocError> {
    let on_disk = reported(rt.alloc(), &DiskFiles::new(rt), path)?;
    let in_memory = reported(rt.alloc(), tree, path)?;
    push_difference(text, path, &on_disk, &in_memory)
}

/// Where the machine and a tree answer differently for the paths of a text, separated by bars.
fn compared(rt: &HostRuntime, tree: &MemoryTree, paths: &str) -> Result<String, AllocError> {
    let mut text = String::new(rt.alloc());
    for path in paths.split('|') {
        compare(rt, tree, path, &mut text)?;
    }
    Ok(text)
}

/// The same as `differences`, in the working directory.
fn differences_here(rt: &HostRuntime, things: &str, paths: &str) -> Result<String, Fail> {
    let tree = made(rt, things)?;
    Ok(compared(rt, &tree, paths)?)
}

/// Queries the machine and a tree, with the same things in them, for the paths of a text, separated
/// by bars, and returns where their answers differ.
fn differences(rt: &HostRuntime, things: &str, paths: &str) -> Result<String, Fail> {
    let folder = enter(rt)?;
    let differences = differences_here(rt, things, paths)?;
    leave(rt, &folder)?;
    Ok(differences)
}

#[test]
fn files_and_folders_are_reported_as_in_memory(rt: HostRuntime) -> Result<(), Fail> {
    let things = "some=ab\u{ff}|none=|below/|below/.hidden=b|below/x/";
    let paths = ".|./|some|.//none|below|below/|below/../some|below/./.hidden|below/x";
    assert_eq!(rt; differences(&rt, things, paths)?.as_str(), "");
    Ok(())
}

#[test]
fn paths_that_lead_nowhere_are_reported_as_in_memory(rt: HostRuntime) -> Result<(), Fail> {
    let paths = "|no|no/..|no/|no/below|file/|file/..|file/below|no/../file";
    assert_eq!(rt; differences(&rt, "file=a", paths)?.as_str(), "");
    Ok(())
}

#[test]
fn links_are_reported_as_in_memory(rt: HostRuntime) -> Result<(), Fail> {
    let things = "dir/|dir/file=a|file>dir/file|twice>./file|to>dir|dir/up>..|at>file/|here>.";
    let paths = ".|file|twice|to|to/|to/file|to/up|to/..|to/up/to/up/file|at|file/|here|here/to/";
    assert_eq!(rt; differences(&rt, things, paths)?.as_str(), "");
    Ok(())
}

#[test]
fn links_that_lead_nowhere_are_reported_as_in_memory(rt: HostRuntime) -> Result<(), Fail> {
    let things = "none>no/where|self>self|one>two|two>one";
    let paths = ".|none|none/|none/..|self|self/|one|two/below";
    assert_eq!(rt; differences(&rt, things, paths)?.as_str(), "");
    Ok(())
}

/// A file of 100,000 bytes: lines of nine digits, which count.
fn numbers(alloc: Global) -> Result<String, AllocError> {
    let mut text = String::from_str(alloc, "file=")?;
    for number in 0u32..10_000 {
        write!(text, "{number:09}\n")?;
    }
    Ok(text)
}

#[test]
fn a_large_file_is_read_whole(rt: HostRuntime) -> Result<(), Fail> {
    let file = numbers(rt.alloc())?;
    assert_eq!(rt; file.len(), 100_005);
    assert_eq!(rt; differences(&rt, &file, "file|.")?.as_str(), "");
    Ok(())
}

/// The identity of a thing on the machine, links followed or not.
fn identity(rt: &HostRuntime, path: &str, follow: bool) -> Result<Option<Identity>, Refusal> {
    DiskFiles::new(rt).identity(rt.alloc(), path, follow)
}

/// Whether a thing on the machine has the identity of `file`.
fn is_file(rt: &HostRuntime, path: &str, follow: bool) -> Result<bool, Refusal> {
    Ok(identity(rt, path, follow)? == identity(rt, "file", true)?)
}

/// Whether a link to `file`, the link itself, and another file have its identity.
fn identities(rt: &HostRuntime) -> Result<[bool; 3], Fail> {
    let _ = made(rt, "file=a|other=a|link>file")?;
    Ok([
        is_file(rt, "link", true)?,
        is_file(rt, "link", false)?,
        is_file(rt, "other", true)?,
    ])
}

#[test]
fn a_thing_has_one_identity(rt: HostRuntime) -> Result<(), Fail> {
    let folder = enter(&rt)?;
    let identities = identities(&rt)?;
    leave(&rt, &folder)?;
    assert_eq!(rt; identities, [true, false, false]);
    Ok(())
}

/// Sets who may use what is at the path.
fn permit(rt: &HostRuntime, path: &str, mode: u32) -> io::Result<()> {
    fs::set_permissions(rt, path, Permissions::from_mode(mode))
}

/// Whether what was made at the path belongs to root, who may read everything.
fn is_roots(rt: &HostRuntime, path: &str) -> io::Result<bool> {
    Ok(fs::metadata(rt, path)?.uid() == 0)
}

/// What the listing of a folder that nobody may use is, and what the five calls answer for a file
/// in it.
const DENIED: &str =
    "Err(Fault(PermissionDenied)); Err(Fault(PermissionDenied)) Err(Fault(PermissionDenied)) \
     Err(Fault(PermissionDenied)) Err(Fault(PermissionDenied)) Err(Fault(PermissionDenied)) true";

/// What the machine lists of the folder `dir`, and then a text.
fn listing_and(rt: &HostRuntime, file: &str) -> Result<String, AllocError> {
    let listing = sorted(rt.alloc(), DiskFiles::new(rt).list(rt.alloc(), "dir"));
    format!(in rt.alloc(); "{listing:?}; {file}")
}

/// What the machine lists of the folder `dir`, and answers for the file in it.
fn answers(rt: &HostRuntime) -> Result<String, AllocError> {
    let file = reported(rt.alloc(), &DiskFiles::new(rt), "dir/file")?;
    listing_and(rt, &file)
}

/// The same while nobody may use the folder.
fn shut(rt: &HostRuntime) -> Result<String, Fail> {
    permit(rt, "dir", 0)?;
    let answers = answers(rt)?;
    permit(rt, "dir", 0o755)?;
    Ok(answers)
}

/// The same for a folder that is made for it, unless it is root's.
fn denied(rt: &HostRuntime) -> Result<Option<String>, Fail> {
    let _ = made(rt, "dir/|dir/file=a")?;
    if is_roots(rt, "dir")? {
        return Ok(None);
    }
    Ok(Some(shut(rt)?))
}

#[test]
fn what_may_not_be_read_is_reported(rt: HostRuntime) -> Result<(), Fail> {
    let folder = enter(&rt)?;
    let denied = denied(&rt)?;
    leave(&rt, &folder)?;
    assert_eq!(rt; denied.as_deref().unwrap_or(DENIED), DENIED);
    Ok(())
}

#[test]
fn a_device_is_of_another_kind(rt: HostRuntime) -> Result<(), Fail> {
    let metadata = DiskFiles::new(&rt).stat(rt.alloc(), "/dev/null", true)?;
    assert_eq!(rt; metadata.file_type(), FileType::Other);
    Ok(())
}
