//! What dependents need beside the surface.

pub use crate::listing::{prepare_list, trimmed_roots};
pub use crate::writing::write_whole;
