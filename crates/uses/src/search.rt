//! A search tool: the lines with a word, in the files of a walk.
ghost use Rattle.std.specs.Prelude.{◌≡◌, ◌↔◌, ◌++◌, true, false, IsTrue, List, Result, Ok, Err, IfOk, IfErr, OnOk, MatchResult, map};
ghost use Rattle.std.specs.Prelude.{Some, string_bytes};
ghost use Rattle.std.specs.Io.KnownBytes.{Appends};
ghost use Rattle.std.specs.Iterator.{Drains, IsFinite};
ghost use Rattle.std.specs.List.{flat_map};
ghost use Rattle.std.specs.Str.Iter.{HasSubslice};
ghost use Rattle.ignore.specs.Closures.{order_of};
ghost use Rattle.ignore.specs.FileWords.{Answers, Env, IsHonest, Tree};
ghost use Rattle.ignore.specs.Finished.{IsEnd, IsFinished};
ghost use Rattle.ignore.specs.Headline.{Headline};
ghost use Rattle.ignore.specs.WalkWords.{DirEntry, Item, Order, entry_of, item_of};
ghost use Rattle.ignore.specs.Walks.{IsNewWalkBy};
ghost use Rattle.ignore.specs.Words.{Error, problem_of};
ghost use Rattle.ignore.specs.declared.options.WalkOptions.{WalkOptions};
ghost use Rattle.uses.specs.Searched.{Adds, Finds, has_word, hit_line, hits_at, hits_in, hits_in_files, is_file_of};
ghost use Rattle.uses.specs.Searched.{problems_at, problems_of, text_of};

use ignore::files::{Contents, Env, Files, Name, Refusal};
use ignore::walk_laws::a_finished_walk_is_the_headline;
use ignore::{Callbacks, DirEntry, Error, Fault, Item, Owner, Walk, WalkBuilder};
use std::alloc::{AllocError, Global};
use std::io;
use std::io::Write;

/// A line that has the word.
#[derive(Debug, Drop)]
pub struct Hit {
    /// The path of its file.
    pub path: Name,
    /// Its number in the file: the first line has 1.
    pub line: usize,
}

/// What a search found.
#[derive(Debug, Drop)]
pub struct Found {
    /// The lines that have the word, file by file in the order of the walk.
    pub hits: Vec<Hit>,
    /// What is wrong, in the order of the walk: the errors of its items, and why a file has no
    /// text.
    pub problems: Vec<Error>,
}

/// The lines with a word, in the files that a walk of the builder reaches and its rules keep. After
/// `Ok` no file is left out: the hits are exactly those in the texts of the files of the whole list
/// of the definition, in its order. A file that can't be read to its end, or isn't UTF-8, has no
/// text; that is a problem, and the search goes on.
///
/// # Errors
/// `Error::Memory`; and `Io(StepLimit)` where the walk ends by its limit of steps.
pub fn search_below<F: Files>(
    alloc: Global,
    builder: &WalkBuilder,
    files: &F,
    env: &Env,
    word: &str,
) -> Result<Found, Error>
    ensures whole { IfOk result (λ found. (items : List Item) × Headline F.Files ⟦<Owner<'static> as Callbacks>⟧ files.now (record { builder = Some builder.entry })
        env.now builder.now.options (order_of (λ s. s.order) builder.now.sorter) items
        × ((tree : Tree) → IsHonest F.Files files.now tree → Finds tree word.now items found)) }
    ensures ended { IfErr result (λ e. IsEnd (Err (problem_of e))) }
{
    search(alloc, files, builder.build(files, env)?, word)
}

/// The same for a walk that the caller built: nothing was asked of it yet.
///
/// # Errors
/// As `search_below`.
pub fn search<F: Files, S: Callbacks>(
    alloc: Global,
    files: &F,
    walk: Walk<'_, F, S>,
    word: &str,
) -> Result<Found, Error>
    ensures whole { (owner : S) (env : Env) (b : WalkOptions) (order : Order)
        → IsNewWalkBy F.Files S.Callbacks files.now owner env b order walk.entry.inner → walk.entry.inner.left ≡ b.limit
        → IfOk result (λ found. (items : List Item) × Headline F.Files S.Callbacks files.now owner env b order items
        × ((tree : Tree) → IsHonest F.Files files.now tree → Finds tree word.now items found)) }
    ensures ended { IfErr result (λ e. IsEnd (Err (problem_of e))) }
{
    a_finished_walk_is_the_headline::<F, S>();
    visit_files(alloc, files, walk, word)
}

/// Visits what a walk yields, to its end.
fn visit_files<F: Files, W: Iterator<Item = Item>>(
    alloc: Global,
    files: &F,
    walk: W,
    word: &str,
) -> Result<Found, Error>
    requires ends { W.can_next walk × IsFinite (W.remaining walk) }
    ensures found { IfOk result (λ found. (all : List (Result DirEntry Error)) × Drains W.next_gives walk all
        × IsFinished (map item_of all)
        × ((tree : Tree) → IsHonest F.Files files.now tree → Finds tree word.now (map item_of all) found)) }
    ensures ended { IfErr result (λ e. IsEnd (Err (problem_of e))) }
{
    let mut found = Found {
        hits: Vec::new(alloc),
        problems: Vec::new(alloc),
    };
    for entry in walk {
        visit(alloc, files, entry, word, &mut found)?;
    }
    Ok(found)
}

/// Searches an entry, or keeps the error in its place, unless that ended the walk.
fn visit<F: Files>(
    alloc: Global,
    files: &F,
    item: Item,
    word: &str,
    found: &mut Found,
) -> Result<(), Error>
    ensures found { (tree : Tree) → IsHonest F.Files files.now tree
        → OnOk result (Adds found.old found.new (hits_in_files tree word.now (item_of item)) (problems_of tree (item_of item))) }
    ensures goes_on { OnOk result (¬ IsEnd (item_of item)) }
    ensures ended { IfErr result (λ e. IsEnd (Err (problem_of e))) }
{
    match item {
        Ok(entry) => visit_entry(alloc, files, &entry, word, found),
        Err(error) => {
            if is_end(&error) {
                return Err(error);
            }
            found.problems.push(error)?;
            Ok(())
        }
    }
}

/// Whether an error ends a walk: out of memory, or the limit of steps.
fn is_end(error: &Error) -> bool
    ensures ends { result ≡ true → IsEnd (Err (problem_of error.now)) }
    ensures goes_on { result ≡ false → ¬ IsEnd (Err (problem_of error.now)) }
{
    matches!(error, Error::Memory | Error::Io(Fault::StepLimit))
}

/// Keeps the error of an entry, and searches it where it is a file.
fn visit_entry<F: Files>(
    alloc: Global,
    files: &F,
    entry: &DirEntry,
    word: &str,
    found: &mut Found,
) -> Result<(), Error>
    ensures found { (tree : Tree) → IsHonest F.Files files.now tree
        → OnOk result (Adds found.old found.new (hits_in_files tree word.now (item_of (Ok entry.now)))
        (problems_of tree (item_of (Ok entry.now)))) }
    ensures ended { IfErr result (λ e. IsEnd (Err (problem_of e))) }
{
    if let Some(error) = entry.error() {
        found.problems.push(error.clone()?)?;
    }
    if is_file(entry) {
        search_file(alloc, files, entry.path(), word, found)?;
    }
    Ok(())
}

/// Whether an entry is a file: no directory, no link, no pipe and not standard input.
fn is_file(entry: &DirEntry) -> bool
    ensures { result ≡ is_file_of (entry_of entry.now).kind }
{
    match entry.file_type() {
        None => false,
        Some(kind) => kind.is_file(),
    }
}

/// Searches the text of the file at a path, or keeps why it has none.
fn search_file<F: Files>(
    alloc: Global,
    files: &F,
    path: &str,
    word: &str,
    found: &mut Found,
) -> Result<(), Error>
    ensures found { (tree : Tree) → IsHonest F.Files files.now tree
        → OnOk result (Adds found.old found.new (hits_at tree word.now path.now) (problems_at tree path.now)) }
    ensures ended { IfErr result (λ e. IsEnd (Err (problem_of e))) }
{
    match read_text(alloc, files, path) {
        Ok(text) => Ok(search_text(alloc, path, text.as_str(), word, &mut found.hits)?),
        Err(Refusal::Fault(fault)) => {
            let error = Error::from(fault).with_path(alloc, path)?;
            Ok(found.problems.push(error)?)
        }
        Err(Refusal::Memory) => Err(Error::Memory),
    }
}

/// The text of the file at a path.
fn read_text<F: Files>(alloc: Global, files: &F, path: &str) -> Result<String, Refusal>
    ensures { (tree : Tree) → IsHonest F.Files files.now tree
        → MatchResult result (λ text. text_of (tree.contents path.now) ≡ Ok (string_bytes text))
        (λ refusal. Answers (text_of (tree.contents path.now)) (Err refusal)) }
{
    let contents = files.contents(alloc, path)?;
    decoded(contents)
}

/// What was read of a file, as text.
fn decoded(contents: Contents) -> Result<String, Refusal>
    ensures { MatchResult result (λ text. text_of (Ok contents) ≡ Ok (string_bytes text))
        (λ refusal. Answers (text_of (Ok contents)) (Err refusal)) }
{
    if let Some(fault) = contents.fault {
        return Err(Refusal::Fault(fault));
    }
    match String::from_utf8(contents.bytes.into_vec()) {
        Ok(text) => Ok(text),
        Err(_) => Err(Refusal::Fault(Fault::InvalidData)),
    }
}

/// Adds the lines of a text that have the word.
fn search_text(
    alloc: Global,
    path: &str,
    text: &str,
    word: &str,
    hits: &mut Vec<Hit>,
) -> Result<(), AllocError>
    ensures { OnOk result (hits.new.items ≡ hits.old.items ++ hits_in word.now path.now text.now) }
{
    for (index, line) in text.lines().enumerate() {
        if has_word(line, word) {
            let path = Name::new(String::from_str(alloc, path)?);
            let line = index + 1;
            hits.push(Hit { path, line })?;
        }
    }
    Ok(())
}

/// Whether a line has the word.
fn has_word(line: &str, word: &str) -> bool
    ensures value { result ≡ has_word word.now line.now }
    ensures stands { IsTrue result ↔ HasSubslice line.now word.now }
{
    line.contains(word)
}

/// Writes hits, each on a line: its path, a colon and its number.
///
/// # Errors
/// The error of the writer.
pub fn show<W: Write>(hits: &[Hit], out: &mut W) -> io::Result<()>
    ensures shows { OnOk result (Appends (W.contents out.old) (W.contents out.new) (flat_map hit_line hits.now)) }
{
    for hit in hits {
        writeln!(out, "{}:{}", hit.path.as_str(), hit.line)?;
    }
    Ok(())
}
