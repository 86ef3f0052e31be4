//! The settings of a builder, as plain data that functions may return and change.
ghost use Rattle.std.specs.Prelude.{◌≡◌, IfOk};
ghost use Rattle.ignore.specs.Builder.{unset};

mod copy;
mod filters;
mod guides;
mod limits;
mod matchers;
mod order;
mod outside;
mod rules;

use crate::limited::Limited;
use ignore_dir::{Matchers, Names, Settings};
use ignore_files::Name;
use ignore_rules::overrides::Override;
use ignore_types::types::Types;
use ignore_walk::Order;
use std::alloc::{AllocError, Global};

/// All settings of a builder but its comparison and its filter, which are closures. Each setter is
/// that of `WalkBuilder` of the same name, and `WalkBuilder::from_options` makes a builder of them.
#[derive(Drop)]
pub struct WalkOptions {
    pub(crate) roots: Names,
    pub(crate) settings: Limited,
    pub(crate) overrides: Override,
    pub(crate) types: Types,
    pub(crate) explicit: Matchers,
    pub(crate) current_dir: Option<Name>,
    pub(crate) order: Order,
    pub(crate) limit: u64,
    pub(crate) same_file_system: bool,
}

impl WalkOptions {
    /// The settings at first, without roots. It allocates nothing.
    pub fn empty(alloc: Global) -> WalkOptions
        ensures { result ≡ unset }
    {
        WalkOptions {
            roots: Names::new(Vec::new(alloc)),
            settings: Limited {
                inner: Settings::standard(alloc),
                alloc,
            },
            overrides: Override::empty(alloc),
            types: Types::empty(alloc),
            explicit: Matchers::new(Vec::new(alloc)),
            current_dir: None,
            order: Order::Listed,
            limit: u64::MAX,
            same_file_system: false,
        }
    }

    /// A copy of the roots.
    pub(crate) fn root_names(&self) -> Result<Vec<Name>, AllocError>
        ensures { IfOk result (λ names. names.items ≡ self.now.roots) }
    {
        let alloc = self.settings.allocator();
        let mut names = Vec::new(alloc);
        for root in self.roots.as_slice() {
            names.push(Name::new(String::from_str(alloc, root.as_str())?))?;
        }
        Ok(names)
    }
}
