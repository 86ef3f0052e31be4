//! What dependents need beside the surface.

pub use crate::given_laws::what_is_given_is_of_the_tree;
pub use crate::hosted::take_down;
pub use crate::missing::{next_file, next_outside};
