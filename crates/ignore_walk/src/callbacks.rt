//! What a walk asks the value that owns it: a filter of entries, and an order of paths.
use crate::entry::DirEntry;
use std::cmp::Ordering;

/// A filter and a comparator, as the owner of a walk keeps them. Where no filter is set each entry
/// passes; the comparator is asked only where an order is chosen.
///
/// A contract sees, for each call, the functions by which the value may answer: each answer is
/// that of any such function.
pub trait Callbacks: Drop {
    ghost use Rattle.std.specs.Prelude.{◌≡◌, Bool, None};
    ghost use Rattle.std.specs.declared.cmp.Ordering.{Ordering};
    ghost use Rattle.ignore_base.specs.Text.{Path};
    ghost use Rattle.ignore_walk.specs.Entry.{Entry, entry_of, problem_in};

    ghost filters: { Self → (Entry → Bool) → Type 0 };

    ghost compares: { Self → (Path → Path → Ordering) → Type 0 };

    /// Whether an entry passes the filter. The answer is that of the function where the entry has
    /// no error, as each has that a walk shows.
    fn filter(&self, entry: &DirEntry) -> bool
        ensures { (keep : Entry → Bool) → filters self.now keep → problem_in entry.now ≡ None → result ≡ keep (entry_of entry.now) };

    /// How two paths, or two names, compare.
    fn compare(&self, a: &str, b: &str) -> Ordering
        ensures { (cmp : Path → Path → Ordering) → compares self.now cmp → result ≡ cmp a.now b.now };
}

/// The order in which the entries of a directory come.
#[derive(Clone, Copy, Debug, PartialEq, Eq)]
pub enum Order {
    /// As they are listed.
    Listed,
    /// By a comparison of their names.
    ByName,
    /// By a comparison of their paths.
    ByPath,
}

/// The settings of a walk besides those of its directories.
#[derive(Clone, Copy, Debug, PartialEq, Eq)]
pub struct Options {
    /// The order of the entries of a directory.
    pub order: Order,
    /// Whether directories on another device than their root stay closed.
    pub same_file_system: bool,
    /// How many steps the walk may take: one for each root, for each thing that is listed, and for
    /// each directory whose listing is asked.
    pub limit: u64,
}
