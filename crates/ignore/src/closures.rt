//! Closures that a builder keeps, each of which a caller has boxed.
ghost use Rattle.std.specs.Prelude.{◌≡◌};

use ignore_walk::{DirEntry, Order};
use std::cmp::Ordering;

/// A filter of entries, in a box of the caller's.
pub type Keep = Box<dyn Fn(&DirEntry) -> bool>;

/// A comparison of two paths, or of two names, in a box of the caller's.
pub type Compare = Box<dyn Fn(&str, &str) -> Ordering>;

/// A filter that may be asked about each entry.
#[derive(Drop)]
pub struct Filter {
    pub(crate) keep: Keep,
    ghost callable: { Keep.IsAlwaysCallable keep },
}

/// A comparison that may be asked about all paths, and what it compares.
#[derive(Drop)]
pub struct Sorter {
    pub(crate) order: Order,
    pub(crate) compare: Compare,
    ghost callable: { Compare.IsAlwaysCallable compare },
}

impl Filter {
    /// This filter.
    pub(crate) fn new(keep: Keep) -> Filter
        requires { Keep.IsAlwaysCallable keep }
        ensures { result.keep ≡ keep }
    {
        Filter { keep }
    }
}

impl Sorter {
    /// This comparison, of names or of paths.
    pub(crate) fn new(order: Order, compare: Compare) -> Sorter
        requires { Compare.IsAlwaysCallable compare }
        ensures order { result.order ≡ order }
        ensures compare { result.compare ≡ compare }
    {
        Sorter { order, compare }
    }
}
