//! A tree of many nodes and a file of many rules.
use ignore_base::Error;
use ignore_files::{Files, MemoryTree, Refusal, TreeError};
use ignore_rules::gitignore::{Gitignore, GitignoreBuilder};
use std::alloc::{AllocError, Global};
use std::test::Fail;

/// Adds a file of one byte, whose name is a number.
fn add_numbered(alloc: Global, tree: &mut MemoryTree, number: u32) -> Result<(), TreeError> {
    let path = format!(in alloc; "/wide/{number}")?;
    tree.add_file(&path, b"a")
}

/// Adds a directory with so many files, whose names are numbers from 0.
fn add_wide(alloc: Global, tree: &mut MemoryTree, count: u32) -> Result<(), TreeError> {
    tree.add_dir("/wide")?;
    for number in 0..count {
        add_numbered(alloc, tree, number)?;
    }
    Ok(())
}

/// The tree with such a directory.
fn with_wide(alloc: Global, mut tree: MemoryTree, count: u32) -> Result<MemoryTree, TreeError> {
    add_wide(alloc, &mut tree, count)?;
    Ok(tree)
}

/// A tree of such a directory alone.
fn wide(alloc: Global, count: u32) -> Result<MemoryTree, TreeError> {
    with_wide(alloc, MemoryTree::new(alloc, "/")?, count)
}

/// How many directories a tree has, how many entries are listed of that one, and whether its last
/// file and the one after that are there.
fn found(alloc: Global, tree: &MemoryTree) -> Result<(usize, usize, bool, bool), Refusal> {
    let listed = tree.list(alloc, "/wide")?.len();
    let is_last = tree.stat(alloc, "wide/19999", true)?.is_file();
    let is_after = tree.stat(alloc, "wide/20000", true).is_ok();
    Ok((tree.dir_count(), listed, is_last, is_after))
}

#[test]
fn many_files_are_listed(rt: HostRuntime) -> Result<(), Fail> {
    let tree = wide(rt.alloc(), 20_000)?;
    assert_eq!(rt; found(rt.alloc(), &tree)?, (2, 20_000, true, false));
    Ok(())
}

/// Six lines of 41 bytes, which are three rules that ignore and one that whitelists.
const LINES: &str = "*.o\n!keep.o\n# comment\n\n/target/\nsrc/**/x\n";

/// The text with this line at its end.
fn with_line(mut text: String, line: &str) -> Result<String, AllocError> {
    text.push_str(line)?;
    Ok(text)
}

/// A file of a megabyte: the lines 25,600 times, and one more line.
fn rules(alloc: Global, last: &str) -> Result<String, AllocError> {
    with_line(LINES.repeat(alloc, 25_600)?, last)
}

/// A tree with that file.
fn with_rules(alloc: Global, last: &str) -> Result<MemoryTree, TreeError> {
    let text = rules(alloc, last)?;
    let mut tree = MemoryTree::new(alloc, "/")?;
    tree.add_file("/rules", text.as_bytes())?;
    Ok(tree)
}

/// The rules that are added of that file, and what is wrong with it.
fn added_to(
    mut builder: GitignoreBuilder,
    tree: &MemoryTree,
) -> Result<(Gitignore, Option<Error>), Error> {
    let error = builder.add(tree, "/rules")?;
    Ok((builder.build()?, error))
}

/// The rules of that file, and what is wrong with it.
fn added(alloc: Global, last: &str) -> Result<(Gitignore, Option<Error>), Fail> {
    let tree = with_rules(alloc, last)?;
    Ok(added_to(GitignoreBuilder::new(alloc, "/")?, &tree)?)
}

/// The text of an error, if there is one.
fn text_of(alloc: Global, error: &Option<Error>) -> Result<String, AllocError> {
    match error {
        Some(error) => format!(in alloc; "{error}"),
        None => Ok(String::new(alloc)),
    }
}

/// How many rules there are, how many of them ignore and whitelist, and the text of an error.
fn counts(
    alloc: Global,
    rules: &Gitignore,
    error: &Option<Error>,
) -> Result<(usize, u64, u64, String), AllocError> {
    let text = text_of(alloc, error)?;
    Ok((
        rules.len(),
        rules.num_ignores(),
        rules.num_whitelists(),
        text,
    ))
}

/// The same of that file.
fn reported(alloc: Global, last: &str) -> Result<(usize, u64, u64, String), Fail> {
    let (rules, error) = added(alloc, last)?;
    Ok(counts(alloc, &rules, &error)?)
}

#[test]
fn each_rule_of_a_megabyte_counts(rt: HostRuntime) -> Result<(), Fail> {
    let (count, ignores, whitelists, error) = reported(rt.alloc(), "")?;
    assert_eq!(rt; error.as_str(), "");
    assert_eq!(rt; (count, ignores, whitelists), (102_400, 76_800, 25_600));
    Ok(())
}

const UNCLOSED: &str = "/rules: line 153601: error parsing glob '{': unclosed alternates";

#[test]
fn the_last_line_of_a_megabyte_is_reported(rt: HostRuntime) -> Result<(), Fail> {
    let (count, _, _, error) = reported(rt.alloc(), "{")?;
    assert_eq!(rt; error.as_str(), UNCLOSED);
    assert_eq!(rt; count, 102_400);
    Ok(())
}
