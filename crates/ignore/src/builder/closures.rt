//! An order, with a comparison or without one, a filter, and what a walk asks of them.
ghost use Rattle.std.specs.Prelude.{◌≡◌, Bool, MatchOption, None};
ghost use Rattle.std.specs.declared.cmp.Ordering.{Ordering};
ghost use Rattle.ignore_base.specs.Text.{Path};
ghost use Rattle.ignore_walk.specs.Entry.{Entry, entry_of, problem_in};
ghost use Rattle.ignore_walk.specs.declared.callbacks.Order.TheVariants.{ByName, ByPath};
ghost use Rattle.ignore.specs.Builder.{with_order};
ghost use Rattle.ignore.specs.Closures.{Compares, Filters};

use crate::builder::WalkBuilder;
use crate::closures::{Compare, Filter, Keep, Sorter};
use ignore_walk::{DirEntry, Order};
use std::cmp::Ordering;

impl WalkBuilder {
    /// Sorts the entries of each directory by their names, or by their paths, as texts compare; or
    /// leaves them as they are listed (`Order::Listed`), as at first. It replaces any order that was
    /// chosen before. Faults come first.
    pub fn sort(&mut self, order: Order) -> &mut Self
        ensures same_reference { result.ghost_name ≡ self.entry.ghost_name }
        ensures value { result.now ≡ record self.old { options = with_order self.old.options order; sorter = None } }
    {
        self.options.sort(order);
        self.sorter = None;
        self
    }

    /// Sorts the entries of each directory by their names, by a comparison that the caller has
    /// boxed. It replaces any order that was chosen before; at first there is none, and entries
    /// come as they are listed. Entries that tie stay as they are listed, and faults come first.
    ///
    /// What is promised of a walk counts where the contract of the comparison allows one answer to
    /// each question: `walk_laws::a_scene_with_closures` shows what it has to meet. With a loop in
    /// it, or a call of a function without clauses, a closure needs an `ensures` of its own.
    pub fn sort_by_file_name(&mut self, compare: Compare) -> &mut Self
        requires { Compare.IsAlwaysCallable compare }
        ensures same_reference { result.ghost_name ≡ self.entry.ghost_name }
        ensures rest { result.now ≡ record self.old { sorter = result.now.sorter } }
        ensures chosen { MatchOption result.now.sorter ⊥ (λ s. (s.order ≡ ByName) × (s.compare ≡ compare)) }
    {
        self.sorter = Some(Sorter::new(Order::ByName, compare));
        self
    }

    /// Sorts the entries of each directory by their paths. Otherwise it is as `sort_by_file_name`.
    pub fn sort_by_file_path(&mut self, compare: Compare) -> &mut Self
        requires { Compare.IsAlwaysCallable compare }
        ensures same_reference { result.ghost_name ≡ self.entry.ghost_name }
        ensures rest { result.now ≡ record self.old { sorter = result.now.sorter } }
        ensures chosen { MatchOption result.now.sorter ⊥ (λ s. (s.order ≡ ByPath) × (s.compare ≡ compare)) }
    {
        self.sorter = Some(Sorter::new(Order::ByPath, compare));
        self
    }

    /// Yields only the entries below a root that a filter accepts, which the caller has boxed; a
    /// directory that it rejects isn't entered. It is asked after all rules, and replaces any
    /// filter that was set before. What is promised of a walk counts where the contract of the
    /// filter allows one answer to each question, as for `sort_by_file_name`.
    pub fn filter_entry(&mut self, keep: Keep) -> &mut Self
        requires { Keep.IsAlwaysCallable keep }
        ensures same_reference { result.ghost_name ≡ self.entry.ghost_name }
        ensures rest { result.now ≡ record self.old { filter = result.now.filter } }
        ensures chosen { MatchOption result.now.filter ⊥ (λ f. f.keep ≡ keep) }
    {
        self.filter = Some(Filter::new(keep));
        self
    }
}

impl WalkBuilder {
    /// Whether an entry passes the filter, where one is set.
    pub(crate) fn passes(&self, entry: &DirEntry) -> bool
        ensures { (keep : Entry → Bool) → Filters self.now.filter (λ f e yes. Keep.post f.keep e yes) keep
            → problem_in entry.now ≡ None → result ≡ keep (entry_of entry.now) }
    {
        match &self.filter {
            None => true,
            Some(filter) => (filter.keep)(entry),
        }
    }

    /// How two paths, or two names, compare: where no comparison is set, as texts do.
    pub(crate) fn compared(&self, a: &str, b: &str) -> Ordering
        ensures { (cmp : Path → Path → Ordering) → Compares self.now.sorter (λ s x y order. Compare.post s.compare x y order) cmp
            → result ≡ cmp a.now b.now }
    {
        match &self.sorter {
            None => a.cmp(b),
            Some(sorter) => (sorter.compare)(a, b),
        }
    }
}
