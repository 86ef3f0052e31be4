//! Settings whose limits of depth are in order.
ghost use Rattle.std.specs.Prelude.{◌≡◌};
ghost use Rattle.ignore.specs.Depths.{AreOrdered, raised, lowered};

use ignore_dir::Settings;
use std::alloc::Global;
use std::marker::Model;

/// Settings of which the least depth is at most the greatest, where both are set. With them is kept
/// the allocator that they were made with, of which contracts say nothing.
#[derive(Debug, Drop)]
pub struct Limited {
    pub(crate) inner: Settings,
    pub(crate) alloc: Global,
}

impl Model for Limited {
    ghost use Rattle.ignore_dir.specs.declared.settings.Settings.{Settings};
    ghost use Rattle.ignore.specs.Depths.{AreOrdered};

    ghost Value = { Settings };

    ghost view = { λ s. s.inner };

    ghost invariant = { λ s. AreOrdered s.inner.min_depth s.inner.max_depth };
}

impl Limited {
    /// The settings.
    pub fn get(&self) -> &Settings
        ensures value { result.now ≡ self.now }
        ensures ordered { AreOrdered result.now.min_depth result.now.max_depth }
    {
        &self.inner
    }

    /// The allocator that they were made with.
    pub(crate) fn allocator(&self) -> Global {
        self.alloc
    }

    /// Sets the greatest depth, raised to the least one where it is below that.
    pub fn set_max_depth(&mut self, depth: Option<usize>)
        ensures { self.new ≡ record self.old { max_depth = raised self.old.min_depth depth } }
    {
        self.inner.max_depth = raised(self.inner.min_depth, depth);
    }

    /// Sets the least depth, lowered to the greatest one where it is above that.
    pub fn set_min_depth(&mut self, depth: Option<usize>)
        ensures { self.new ≡ record self.old { min_depth = lowered self.old.max_depth depth } }
    {
        self.inner.min_depth = lowered(self.inner.max_depth, depth);
    }
}

/// A greatest depth, raised to the least one where it is below that.
fn raised(least: Option<usize>, greatest: Option<usize>) -> Option<usize>
    ensures value { result ≡ raised least greatest }
    ensures ordered { AreOrdered least result }
{
    match (least, greatest) {
        (Some(least), Some(greatest)) => Some(least.max(greatest)),
        (None, _) => greatest,
        (Some(_), None) => None,
    }
}

/// A least depth, lowered to the greatest one where it is above that.
fn lowered(greatest: Option<usize>, least: Option<usize>) -> Option<usize>
    ensures value { result ≡ lowered greatest least }
    ensures ordered { AreOrdered result greatest }
{
    match (greatest, least) {
        (Some(greatest), Some(least)) => Some(greatest.min(least)),
        (None, _) => least,
        (Some(_), None) => None,
    }
}
