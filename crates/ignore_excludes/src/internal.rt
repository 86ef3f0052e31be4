//! What dependents need beside the surface.

pub use crate::config::excludes_path;
