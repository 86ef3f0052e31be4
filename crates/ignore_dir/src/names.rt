//! The names of a path.
ghost use Rattle.std.specs.Prelude.{◌≡◌, IfOk, map};
ghost use Rattle.std.specs.List.{list_all};
ghost use Rattle.ignore_base.specs.Paths.{components, is_proper};

use ignore_base::text::is_proper;
use std::alloc::{AllocError, Global};

/// The components of a path.
/// For dependents.
pub fn components(alloc: Global, path: &str) -> Result<Vec<&str>, AllocError>
    ensures { IfOk result (λ all. map (λ c. c.now) all.items ≡ components path.now) }
{
    path.split('/').collect(alloc)
}

/// Whether each component of a path is a name.
/// For dependents.
pub fn are_names(path: &str) -> bool
    ensures { result ≡ list_all is_proper (components path.now) }
{
    path.split('/').all(|component| is_proper(component))
}
