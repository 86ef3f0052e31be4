//! The order of the entries of a directory, without a closure.
ghost use Rattle.std.specs.Prelude.{◌≡◌};
ghost use Rattle.ignore.specs.Builder.{with_order};
ghost use Rattle.ignore.specs.Closures.{chosen_order};

use crate::options::WalkOptions;
use ignore_walk::Order;

impl WalkOptions {
    /// As `WalkBuilder::sort`. A builder's comparison, if it has one, is asked in place of it.
    pub fn sort(&mut self, order: Order) -> &mut Self
        ensures same_reference { result.ghost_name ≡ self.entry.ghost_name }
        ensures value { result.now ≡ with_order self.old order }
    {
        self.order = order;
        self
    }

    /// The order of a walk: the one that its comparison is asked for; or where there is none, that
    /// of the settings.
    pub(crate) fn chosen_order(&self, order: Order) -> Order
        ensures { result ≡ chosen_order self.now order }
    {
        match order {
            Order::Listed => self.order,
            Order::ByName => Order::ByName,
            Order::ByPath => Order::ByPath,
        }
    }
}
