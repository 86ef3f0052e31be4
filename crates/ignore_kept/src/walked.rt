//! The items of a walk, made at once and handed out one by one.
ghost use Rattle.std.specs.Prelude.{◌≡◌, ◌<◌, ◌+◌, ◌++◌, [], length, IfOk, IfErr, Ok, Err, map, string_bytes};
ghost use Rattle.ignore.specs.WalkWords.{entry_of, item_of, problem_in};
ghost use Rattle.ignore_base.specs.Problem.{problem_of};
ghost use Rattle.ignore_kept.specs.Walking.{Builds, IsListOf, IsNext, Nexts, TellsItem, TellsNext, end_of, error_text, kind_code, next_of, no_entry};

use crate::kept::Kept;
use crate::lines::text_of_error;
use crate::stopped::Stopped;
use ignore::files::{Env, FileType, MemoryTree};
use ignore::walk_laws::a_builder_without_closures;
use ignore::{DirEntry, Error, Item, WalkBuilder, WalkOptions, collect_walk};
use std::alloc::{AllocError, Global};

/// The items of a walk, and how many of them were handed out.
#[derive(Drop)]
pub struct Walked {
    pub items: Vec<Item>,
    pub given: usize,
}

/// An item of a walk, as C is told it: the lengths of its path and of the text of its error, how
/// many names it is below its root, what it is, and whether it is an entry and came by a link.
#[repr(C)]
#[derive(Clone, Copy, Drop)]
pub struct WalkEntry {
    pub path: usize,
    pub error: usize,
    pub depth: usize,
    pub kind: u32,
    pub is_entry: bool,
    pub is_followed: bool,
}

/// All items of a walk of a builder over a tree.
#[tactic(auto, using(crate::proofs::Listing::walks, crate::proofs::Listing::walks_none))]
pub fn build(setup: &Kept, tree: &Kept) -> Result<Kept, Stopped>
    ensures { Builds setup.now tree.now result }
{
    let Kept::Setup(setup) = setup else {
        return Err(Stopped::Misused);
    };
    let Kept::Tree(tree) = tree else {
        return Err(Stopped::Misused);
    };
    let Ok(options) = setup.options.clone() else {
        return Err(Stopped::Memory);
    };
    match items_of(options, tree, &setup.env) {
        Ok(items) => Ok(Kept::Walk(Walked { items, given: 0 })),
        Err(stopped) => Err(stopped),
    }
}

fn items_of(options: WalkOptions, tree: &MemoryTree, env: &Env) -> Result<Vec<Item>, Stopped>
    ensures listed { IfOk result (λ all. IsListOf tree.now env.now options (Ok (map item_of all.items))) }
    ensures stopped { IfErr result (λ e. IsListOf tree.now env.now options (Err e)) }
{
    let builder = WalkBuilder::from_options(options);
    let lent = &builder;
    tree.is_honest();
    a_builder_without_closures(lent);
    match collect_walk(lent, tree, env) {
        Ok(items) => Ok(items),
        Err(error) => Err(ended(error)),
    }
}

fn ended(error: Error) -> Stopped
    ensures { result ≡ end_of (problem_of error) }
{
    end_of(&error)
}

/// Why a walk has no list.
fn end_of(error: &Error) -> Stopped
    ensures { result ≡ end_of (problem_of error.now) }
{
    match error {
        Error::Memory => Stopped::Memory,
        _ => Stopped::Limit,
    }
}

/// What C is told of an item: a number, what it is, and its path and the text of its error.
#[derive(Drop)]
pub struct ToldItem {
    pub code: u32,
    pub entry: WalkEntry,
    pub text: Vec<u8>,
}

/// The next item, which is handed out where its texts fit into so many bytes, and else stays the next.
#[tactic(auto, using(crate::proofs::Listing::nexts))]
pub fn next(alloc: Global, kept: &mut Kept, room: usize) -> ToldItem
    ensures { Nexts room kept.old result.code result.entry result.text.items kept.new }
{
    let Kept::Walk(walk) = kept else {
        return untold(alloc, Stopped::Misused.code());
    };
    hand_out(alloc, walk, room)
}

#[tactic(auto, using(crate::proofs::Listing::below, crate::proofs::Listing::handed, crate::proofs::Listing::not_handed, crate::proofs::Listing::withheld))]
fn hand_out(alloc: Global, walk: &mut Walked, room: usize) -> ToldItem
    ensures { TellsNext room walk.old (next_of walk.old) result.code result.entry result.text.items walk.new }
{
    let told = told_next(alloc, walk);
    if told.code != 0 {
        return told;
    }
    if told.text.len() > room {
        return ToldItem { code: 15, ..told };
    }
    go_on(walk);
    told
}

/// Goes on to the item after the next, where there is a next.
fn go_on(walk: &mut Walked)
    ensures { walk.old.given < length walk.old.items.items → walk.new ≡ record walk.old { given = walk.old.given + 1 } }
{
    if walk.given < walk.items.len() {
        walk.given += 1;
    }
}

/// What is told of the next item.
#[tactic(auto, using(crate::proofs::Listing::of_next))]
fn told_next(alloc: Global, walk: &Walked) -> ToldItem
    ensures { IsNext (next_of walk.now) result.code result.entry result.text.items }
{
    match walk.items.get(walk.given) {
        None => untold(alloc, 1),
        Some(item) => match told_item(alloc, item) {
            Err(_) => untold(alloc, Stopped::Memory.code()),
            Ok(told) => told,
        },
    }
}

fn untold(alloc: Global, code: u32) -> ToldItem
    ensures code { result.code ≡ code }
    ensures entry { result.entry ≡ no_entry }
    ensures text { result.text.items ≡ [] }
{
    ToldItem {
        code,
        entry: NO_ENTRY,
        text: Vec::new(alloc),
    }
}

const NO_ENTRY: WalkEntry = WalkEntry {
    path: 0,
    error: 0,
    depth: 0,
    kind: 0,
    is_entry: false,
    is_followed: false,
};

fn told_item(alloc: Global, item: &Item) -> Result<ToldItem, AllocError>
    ensures { IfOk result (λ told. (told.code ≡ 0) × TellsItem (item_of item.now) told.entry told.text.items) }
{
    match item {
        Ok(entry) => told_entry(alloc, entry),
        Err(error) => {
            let text = text_of_error(alloc, error)?;
            let entry = WalkEntry {
                error: text.len(),
                ..NO_ENTRY
            };
            Ok(ToldItem {
                code: 0,
                entry,
                text: text.into_bytes(),
            })
        }
    }
}

fn told_entry(alloc: Global, entry: &DirEntry) -> Result<ToldItem, AllocError>
    ensures { IfOk result (λ told. (told.code ≡ 0) × TellsItem (Ok (entry_of entry.now, problem_in entry.now)) told.entry told.text.items) }
{
    let error = error_text(alloc, entry)?;
    let text = joined(alloc, entry.path(), error.as_str())?;
    Ok(ToldItem {
        code: 0,
        entry: WalkEntry {
            path: entry.path().len(),
            error: error.len(),
            depth: entry.depth(),
            kind: kind_code(entry.file_type()),
            is_entry: true,
            is_followed: entry.is_followed(),
        },
        text,
    })
}

/// The text of what is wrong with the files of rules of an entry.
#[tactic(auto, using(crate::proofs::Listing::an_error, crate::proofs::Listing::no_error))]
fn error_text(alloc: Global, entry: &DirEntry) -> Result<String, AllocError>
    ensures { IfOk result (λ text. string_bytes text ≡ error_text (problem_in entry.now)) }
{
    match entry.error() {
        None => Ok(String::new(alloc)),
        Some(error) => text_of_error(alloc, error),
    }
}

/// Two texts, one after the other.
fn joined(alloc: Global, first: &str, second: &str) -> Result<Vec<u8>, AllocError>
    ensures { IfOk result (λ text. text.items ≡ first.now ++ second.now) }
{
    let mut text = Vec::from_slice(alloc, first.as_bytes())?;
    text.extend_from_slice(second.as_bytes())?;
    Ok(text)
}

/// The number of what an entry is; 0 for standard input.
fn kind_code(kind: Option<FileType>) -> u32
    ensures { result ≡ kind_code kind }
{
    match kind {
        None => 0,
        Some(FileType::File) => 1,
        Some(FileType::Dir) => 2,
        Some(FileType::Symlink) => 3,
        Some(FileType::Other) => 4,
    }
}
