//! Walks under the names of the original: an iterator, and a walk of one folder in one call.
use crate::builder::WalkBuilder;
use crate::closures::{Compare, Keep};
use ignore_files::Files;
use ignore_walk::{Callbacks, DirEntry, Item};
use std::cmp::Ordering;
use std::iter::FusedIterator;

/// A walk of some roots: an iterator of entries and errors.
///
/// Roots come in their order, a directory before what is in it. An error stands in the place of an
/// entry, and the walk goes on after it; only `Error::Memory` and `Io(StepLimit)` end it. After the
/// last item there is none, however often one is asked for.
///
/// A walk of a builder (`WalkBuilder::build`) borrows it, since the builder keeps the closures.
#[derive(Drop)]
pub struct Walk<'a, F: Files, S = Owner<'a>> {
    pub(crate) inner: ignore_walk::Walk<'a, F, S>,
}

impl<'a, F: Files, S: Callbacks> Iterator for Walk<'a, F, S> {
    type Item = Item;

    ghost use Rattle.std.specs.Prelude.{option_map};
    ghost use Rattle.std.specs.Iterator.{at_most};
    ghost use Rattle.ignore_walk.specs.Entry.{item_of};
    ghost use Rattle.ignore_walk.specs.Nexts.{NextGives, items_at_most};

    ghost next_gives = { λ a answer b. NextGives F.Files S.Callbacks a.inner (option_map item_of answer) b.inner };

    ghost remaining = { λ a. at_most (items_at_most a.inner) };

    fn next(&mut self) -> Option<Item> {
        self.inner.next()
    }
}

impl<'a, F: Files, S: Callbacks> FusedIterator for Walk<'a, F, S> {}

/// What keeps the filter and the comparison of a walk: a builder, which is lent to it, or nothing. A
/// builder without a comparison compares texts as such.
#[derive(Clone, Copy, Drop)]
pub struct Owner<'a> {
    /// The builder. Where there is none, each entry passes, and names come as they are listed.
    pub builder: Option<&'a WalkBuilder>,
}

impl<'a> Callbacks for Owner<'a> {
    ghost use Rattle.std.specs.Prelude.{◌≡◌, true, MatchOption};
    ghost use Rattle.ignore.specs.Closures.{Filters, Compares};
    ghost use Rattle.ignore_walk.specs.Entry.{Entry};
    ghost use Rattle.std.specs.declared.cmp.Ordering.TheVariants.{Equal};
    ghost use Rattle.ignore_base.specs.Text.{Path};

    ghost filters = { λ o keep. MatchOption o.builder ((e : Entry) → keep e ≡ true)
        (λ b. Filters b.now.filter (λ f e yes. Keep.post f.keep e yes) keep) };

    ghost compares = { λ o cmp. MatchOption o.builder ((a b : Path) → cmp a b ≡ Equal)
        (λ b. Compares b.now.sorter (λ s x y order. Compare.post s.compare x y order) cmp) };

    fn filter(&self, entry: &DirEntry) -> bool {
        match self.builder {
            None => true,
            Some(builder) => builder.passes(entry),
        }
    }

    fn compare(&self, a: &str, b: &str) -> Ordering {
        match self.builder {
            None => Ordering::Equal,
            Some(builder) => builder.compared(a, b),
        }
    }
}
