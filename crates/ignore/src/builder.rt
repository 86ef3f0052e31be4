//! The builder of walks and matchers.
ghost use Rattle.std.specs.Prelude.{◌≡◌, List, IfOk, IfErr, None, OnOk, OnErr, map};
ghost use Rattle.std.specs.Iterator.{Drains, IsFinite};
ghost use Rattle.ignore_base.specs.Problem.{problem_of, memory};
ghost use Rattle.ignore.specs.Builder.{unset, with_root, with_roots};
ghost use Rattle.ignore.specs.Depths.{AreOrdered};

mod closures;
mod filters;
mod limits;
mod matchers;
mod rules;
mod walks;

use crate::closures::{Filter, Sorter};
use crate::options::WalkOptions;
use ignore_base::Error;
use ignore_dir::{Names, Settings};
use std::alloc::Global;
use std::convert::AsStr;

/// Which directories are walked, or asked about, and by what settings. Each setter returns the
/// builder, so that calls can follow one another; of two values the last one counts.
///
/// At first the six standard filters and `require_git` are on, and all else is off or unset.
#[derive(Drop)]
pub struct WalkBuilder {
    options: WalkOptions,
    sorter: Option<Sorter>,
    filter: Option<Filter>,
}

impl WalkBuilder {
    /// A builder without roots. It allocates nothing.
    pub fn empty(alloc: Global) -> WalkBuilder
        ensures options { result.options ≡ unset }
        ensures plain { (result.sorter ≡ None) × (result.filter ≡ None) }
    {
        WalkBuilder {
            options: WalkOptions::empty(alloc),
            sorter: None,
            filter: None,
        }
    }

    /// A builder with these options, without a comparison and without a filter. Functions that
    /// return or change options are covered, those that hand out or change a builder aren't: so a
    /// comparison and a filter are set at last.
    pub fn from_options(options: WalkOptions) -> WalkBuilder
        ensures options { result.options ≡ options }
        ensures plain { (result.sorter ≡ None) × (result.filter ≡ None) }
    {
        WalkBuilder {
            options,
            sorter: None,
            filter: None,
        }
    }

    /// A builder with one root, which may be `-` for standard input.
    ///
    /// # Errors
    /// `Error::Memory` alone.
    pub fn new(alloc: Global, path: &str) -> Result<WalkBuilder, Error>
        ensures options { IfOk result (λ b. b.options ≡ with_root unset path.now) }
        ensures plain { IfOk result (λ b. (b.sorter ≡ None) × (b.filter ≡ None)) }
        ensures out_of_memory { IfErr result (λ e. problem_of e ≡ memory) }
    {
        let mut builder = WalkBuilder::empty(alloc);
        builder.push_root(path)?;
        Ok(builder)
    }

    /// A builder with the roots that an iterator yields, in order. The iterator must end. Without
    /// roots it is `empty`.
    ///
    /// # Errors
    /// `Error::Memory` alone.
    pub fn from_iter<P: AsStr + Drop, I: IntoIterator<Item = P>>(
        alloc: Global,
        paths: I,
    ) -> Result<WalkBuilder, Error>
        requires ends { (it : I.IntoIter) → I.into_iter_gives paths it → I.IntoIter.can_next it × IsFinite (I.IntoIter.remaining it) }
        ensures options { IfOk result (λ b. (it : I.IntoIter) × (all : List P) × I.into_iter_gives paths it
            × Drains I.IntoIter.next_gives it all × (b.options ≡ with_roots unset (map P.text all))) }
        ensures plain { IfOk result (λ b. (b.sorter ≡ None) × (b.filter ≡ None)) }
        ensures out_of_memory { IfErr result (λ e. problem_of e ≡ memory) }
    {
        let mut builder = WalkBuilder::empty(alloc);
        for path in paths {
            builder.push_root(path.as_str())?;
        }
        Ok(builder)
    }

    /// Adds a root, after the others. One that is given twice counts twice.
    ///
    /// # Errors
    /// `Error::Memory` alone. What holds of the builder after an error is proved of `push_root`,
    /// which does the work, and not of this call: a caller that needs it as it was uses that one.
    pub fn add(&mut self, path: &str) -> Result<&mut Self, Error>
        ensures same_reference { IfOk result (λ b. b.ghost_name ≡ self.entry.ghost_name) }
        ensures added { IfOk result (λ b. b.now ≡ record self.old { options = with_root self.old.options path.now }) }
        ensures out_of_memory { IfErr result (λ e. problem_of e ≡ memory) }
    {
        self.push_root(path)?;
        Ok(self)
    }

    /// As `add`, without the builder in what is returned. After an error the builder is as before.
    pub fn push_root(&mut self, path: &str) -> Result<(), Error>
        ensures added { OnOk result (self.new ≡ record self.old { options = with_root self.old.options path.now }) }
        ensures out_of_memory { IfErr result (λ e. problem_of e ≡ memory) }
        ensures unchanged { OnErr result (self.new ≡ self.old) }
    {
        self.options.push_root(path)
    }

    /// The roots, in the order in which they were added.
    /// For dependents.
    pub fn roots(&self) -> &Names
        ensures { result.now ≡ self.now.options.roots }
    {
        &self.options.roots
    }

    /// The settings of filters and limits. Where both limits of depth are set, they are in order.
    /// For dependents.
    pub fn settings(&self) -> &Settings
        ensures value { result.now ≡ self.now.options.settings }
        ensures ordered { AreOrdered result.now.min_depth result.now.max_depth }
    {
        self.options.settings.get()
    }
}
