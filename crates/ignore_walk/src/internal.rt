//! What dependents need beside the surface.

pub use crate::child::all_named;
pub use crate::open::answer_of;
