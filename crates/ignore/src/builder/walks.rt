//! Walks by the settings of a builder.
ghost use Rattle.std.specs.Prelude.{◌≡◌, false, List, None, Some, map, IfOk, IfErr};
ghost use Rattle.std.specs.Iterator.{Drains, IsFinite};
ghost use Rattle.ignore_base.specs.Problem.{problem_of, memory};
ghost use Rattle.ignore_walk.specs.GoesOn.{HasNoEnd};
ghost use Rattle.ignore_walk.specs.Paces.{work_at, work_of};
ghost use Rattle.ignore_walk.specs.declared.callbacks.Order.TheVariants.{Listed};
ghost use Rattle.ignore.specs.Asked.{IsOutsideBy};
ghost use Rattle.ignore.specs.Builder.{unset, with_root, with_roots};
ghost use Rattle.ignore.specs.Closures.{options_of, order_of};
ghost use Rattle.ignore.specs.Walks.{GoesBy, IsNewWalkBy, IsWalkBy};

use crate::builder::WalkBuilder;
use crate::options::WalkOptions;
use crate::walk::{Owner, Walk};
use ignore_base::Error;
use ignore_files::{Env, Files};
use ignore_walk::{Callbacks, Ground, Options, Order};
use std::alloc::Global;
use std::convert::AsStr;

impl WalkBuilder {
    /// A walk of the roots, by the settings as they are. The files and the builder are lent to it.
    /// The global file is read now, and what is wrong with it isn't reported; nothing else is read
    /// before the first item is asked for.
    ///
    /// Over files that are consistent with a tree its items are those of the definition, by the
    /// rules from outside as they were read, and by the filter and the comparison that the closures
    /// answer by. Over any files it goes by the settings, the order, the closures and the roots of
    /// the builder, its rules from outside are by answers that the files gave, and it stays at or
    /// below its roots (`walk_laws::a_run_stays_below_its_roots`).
    ///
    /// # Errors
    /// `Error::Memory` alone.
    pub fn build<'a, F: Files>(&'a self, files: &'a F, env: &Env) -> Result<Walk<'a, F>, Error>
        ensures whole { IfOk result (λ w. IsWalkBy F.Files ⟦<Owner<'a> as Callbacks>⟧ files.now (record { builder = Some self.entry }) env.now self.now.options
            (order_of (λ s. s.order) self.now.sorter) w.inner) }
        ensures starts { IfOk result (λ w. IsNewWalkBy F.Files ⟦<Owner<'a> as Callbacks>⟧ files.now (record { builder = Some self.entry }) env.now
            self.now.options (order_of (λ s. s.order) self.now.sorter) w.inner) }
        ensures answered { IfOk result (λ w. IsOutsideBy (F.contents_gives files.now) env.now self.now.options w.inner.ground.outside) }
        ensures limit { IfOk result (λ w. w.inner.left ≡ self.now.options.limit) }
        ensures goes_on { IfOk result (λ w. w.inner.ended ≡ false) }
        ensures no_end { IfOk result (λ w. HasNoEnd w.inner.stack) }
        ensures begins { IfOk result (λ w. work_of w.inner.stack ≡ work_at self.now.options.roots) }
        ensures files { IfOk result (λ w. w.inner.ground.files.now ≡ files.now) }
        ensures goes_by { IfOk result (λ w. GoesBy F.Files files.now (record { builder = Some self.entry }) env.now self.now.options
            (order_of (λ s. s.order) self.now.sorter) w.inner) }
        ensures out_of_memory { IfErr result (λ e. problem_of e ≡ memory) }
    {
        self.options.walk(
            files,
            Owner {
                builder: Some(self),
            },
            env,
            self.order(),
        )
    }

    /// The order that the comparison is asked for.
    fn order(&self) -> Order
        ensures { result ≡ order_of (λ s. s.order) self.now.sorter }
    {
        match &self.sorter {
            None => Order::Listed,
            Some(sorter) => sorter.order,
        }
    }
}

impl WalkOptions {
    /// A walk of the roots by these settings, with the filter and the comparator that `owner` keeps,
    /// of which the latter is asked for this order.
    fn walk<'a, F: Files>(
        &self,
        files: &'a F,
        owner: Owner<'a>,
        env: &Env,
        order: Order,
    ) -> Result<Walk<'a, F>, Error>
        ensures whole { IfOk result (λ w. IsWalkBy F.Files ⟦<Owner<'a> as Callbacks>⟧ files.now owner.entry env.now self.now order w.inner) }
        ensures starts { IfOk result (λ w. IsNewWalkBy F.Files ⟦<Owner<'a> as Callbacks>⟧ files.now owner.entry env.now self.now order w.inner) }
        ensures answered { IfOk result (λ w. IsOutsideBy (F.contents_gives files.now) env.now self.now w.inner.ground.outside) }
        ensures limit { IfOk result (λ w. w.inner.left ≡ self.now.limit) }
        ensures goes_on { IfOk result (λ w. w.inner.ended ≡ false) }
        ensures no_end { IfOk result (λ w. HasNoEnd w.inner.stack) }
        ensures begins { IfOk result (λ w. work_of w.inner.stack ≡ work_at self.now.roots) }
        ensures files { IfOk result (λ w. w.inner.ground.files.now ≡ files.now) }
        ensures goes_by { IfOk result (λ w. GoesBy F.Files files.now owner.entry env.now self.now order w.inner) }
        ensures out_of_memory { IfErr result (λ e. problem_of e ≡ memory) }
    {
        let roots = self.root_names()?;
        let settings = self.settings.get().clone()?;
        let outside = self.outside(files, env)?;
        let ground = Ground {
            alloc: self.settings.allocator(),
            files,
            owner,
            settings,
            outside,
            options: self.walk_options(order),
        };
        let inner = ignore_walk::Walk::new(ground, roots);
        Ok(Walk { inner })
    }

    /// The settings of a walk besides those of its directories.
    fn walk_options(&self, order: Order) -> Options
        ensures { result ≡ options_of self.now order }
    {
        Options {
            order: self.chosen_order(order),
            same_file_system: self.same_file_system,
            limit: self.limit,
        }
    }
}

impl<'a, F: Files> Walk<'a, F> {
    /// A walk of one root by the settings at first: the six standard filters and `require_git` are
    /// on, and all else is off or unset. The root may be `-` for standard input.
    ///
    /// # Errors
    /// `Error::Memory` alone.
    pub fn new(alloc: Global, files: &'a F, env: &Env, path: &str) -> Result<Walk<'a, F>, Error>
        ensures whole { IfOk result (λ w. IsWalkBy F.Files ⟦<Owner<'a> as Callbacks>⟧ files.now (record { builder = None }) env.now
            (with_root unset path.now) Listed w.inner) }
        ensures starts { IfOk result (λ w. IsNewWalkBy F.Files ⟦<Owner<'a> as Callbacks>⟧ files.now (record { builder = None }) env.now
            (with_root unset path.now) Listed w.inner) }
        ensures goes_by { IfOk result (λ w. GoesBy F.Files files.now (record { builder = None }) env.now (with_root unset path.now) Listed w.inner) }
        ensures limit { IfOk result (λ w. w.inner.left ≡ unset.limit) }
        ensures goes_on { IfOk result (λ w. w.inner.ended ≡ false) }
        ensures no_end { IfOk result (λ w. HasNoEnd w.inner.stack) }
        ensures out_of_memory { IfErr result (λ e. problem_of e ≡ memory) }
    {
        let builder = WalkBuilder::new(alloc, path)?;
        builder
            .options
            .walk(files, Owner { builder: None }, env, Order::Listed)
    }

    /// The same of the roots that an iterator yields, in order. The iterator must end.
    ///
    /// # Errors
    /// `Error::Memory` alone.
    pub fn from_iter<P: AsStr + Drop, I: IntoIterator<Item = P>>(
        alloc: Global,
        files: &'a F,
        env: &Env,
        paths: I,
    ) -> Result<Walk<'a, F>, Error>
        requires ends { (it : I.IntoIter) → I.into_iter_gives paths it → I.IntoIter.can_next it × IsFinite (I.IntoIter.remaining it) }
        ensures whole { IfOk result (λ w. (it : I.IntoIter) × (all : List P) × I.into_iter_gives paths it
            × Drains I.IntoIter.next_gives it all × IsWalkBy F.Files ⟦<Owner<'a> as Callbacks>⟧ files.now (record { builder = None })
            env.now (with_roots unset (map P.text all)) Listed w.inner) }
        ensures starts { IfOk result (λ w. (it : I.IntoIter) × (all : List P) × I.into_iter_gives paths it
            × Drains I.IntoIter.next_gives it all × IsNewWalkBy F.Files ⟦<Owner<'a> as Callbacks>⟧ files.now (record { builder = None })
            env.now (with_roots unset (map P.text all)) Listed w.inner) }
        ensures goes_by { IfOk result (λ w. (it : I.IntoIter) × (all : List P) × I.into_iter_gives paths it
            × Drains I.IntoIter.next_gives it all
            × GoesBy F.Files files.now (record { builder = None }) env.now (with_roots unset (map P.text all)) Listed w.inner) }
        ensures limit { IfOk result (λ w. w.inner.left ≡ unset.limit) }
        ensures goes_on { IfOk result (λ w. w.inner.ended ≡ false) }
        ensures no_end { IfOk result (λ w. HasNoEnd w.inner.stack) }
        ensures out_of_memory { IfErr result (λ e. problem_of e ≡ memory) }
    {
        let builder = WalkBuilder::from_iter(alloc, paths)?;
        builder
            .options
            .walk(files, Owner { builder: None }, env, Order::Listed)
    }
}
