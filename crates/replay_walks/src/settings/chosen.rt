//! The filter and the order of the entries of a walk, as a vector chooses them.

use super::set::SET;
use ignore::DirEntry;
use ignore::files::FileType;
use serde_json::Value;
use std::alloc::Global;
use std::cmp::Ordering;
use vectors::{Trouble, item, text_at};

/// Which entries a filter accepts.
#[derive(Drop)]
pub(crate) enum Filter {
    /// Those with another file name.
    NameNot(String),
    /// Those of a smaller depth.
    DepthBelow(u64),
    /// Those of another kind.
    KindNot(String),
    /// Those whose path doesn't contain this text.
    PathLacks(String),
}

impl Filter {
    /// Whether it accepts an entry.
    pub(crate) fn accepts(&self, entry: &DirEntry) -> bool {
        match self {
            Filter::NameNot(name) => entry.file_name() != name.as_str(),
            Filter::DepthBelow(depth) => (entry.depth() as u64) < *depth,
            Filter::KindNot(kind) => kind_name(entry.file_type()) != kind.as_str(),
            Filter::PathLacks(text) => !entry.path().contains(text.as_str()),
        }
    }
}

/// How two texts compare.
#[derive(Clone, Copy, Drop)]
pub(crate) enum By {
    /// As texts.
    Text,
    /// As texts, the greatest first.
    Reverse,
    /// By the numbers of their characters.
    Len,
    /// As equal.
    Tie,
}

impl By {
    /// The order of two texts.
    pub(crate) fn compare(self, a: &str, b: &str) -> Ordering {
        match self {
            By::Text => a.cmp(b),
            By::Reverse => b.cmp(a),
            By::Len => a.chars().count().cmp(&b.chars().count()),
            By::Tie => Ordering::Equal,
        }
    }
}

/// A filter, or an order of names or paths.
#[derive(Drop)]
pub(crate) enum Choice {
    Filter(Filter),
    Names(By),
    Paths(By),
}

/// The name of a kind; of none the empty text.
fn kind_name(kind: Option<FileType>) -> &'static str {
    match kind {
        None => "",
        Some(FileType::File) => "File",
        Some(FileType::Dir) => "Dir",
        Some(FileType::Symlink) => "Symlink",
        Some(FileType::Other) => "Other",
    }
}

/// The filter of `["filter", "name_not", "a"]`.
pub(crate) fn filter_of(alloc: Global, op: &Value) -> Result<Choice, Trouble> {
    match text_at(op, 1, SET)? {
        "name_not" => Ok(Choice::Filter(Filter::NameNot(owned_text(alloc, op)?))),
        "kind_not" => Ok(Choice::Filter(Filter::KindNot(owned_text(alloc, op)?))),
        "path_lacks" => Ok(Choice::Filter(Filter::PathLacks(owned_text(alloc, op)?))),
        "depth_lt" => Ok(Choice::Filter(depth_filter(op)?)),
        _ => Err(Trouble::Field(SET)),
    }
}

fn owned_text(alloc: Global, op: &Value) -> Result<String, Trouble> {
    Ok(String::from_str(alloc, text_at(op, 2, SET)?)?)
}

fn depth_filter(op: &Value) -> Result<Filter, Trouble> {
    match item(op, 2, SET)?.as_u64() {
        Some(depth) => Ok(Filter::DepthBelow(depth)),
        None => Err(Trouble::Field(SET)),
    }
}

/// The order of `["sort", "name", "text"]`.
pub(crate) fn order_of(op: &Value) -> Result<Choice, Trouble> {
    match text_at(op, 1, SET)? {
        "name" => Ok(Choice::Names(by_of(op)?)),
        "path" => Ok(Choice::Paths(by_of(op)?)),
        _ => Err(Trouble::Field(SET)),
    }
}

fn by_of(op: &Value) -> Result<By, Trouble> {
    match text_at(op, 2, SET)? {
        "text" => Ok(By::Text),
        "reverse" => Ok(By::Reverse),
        "len" => Ok(By::Len),
        "tie" => Ok(By::Tie),
        _ => Err(Trouble::Field(SET)),
    }
}
