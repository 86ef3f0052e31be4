//! What dependents need beside the surface.

pub use crate::cause::named_rule;
