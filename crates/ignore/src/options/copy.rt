//! A copy of plain settings.
ghost use Rattle.std.specs.Prelude.{◌≡◌, IfOk};

use crate::limited::Limited;
use crate::options::WalkOptions;
use ignore_files::Name;
use std::alloc::{AllocError, Global};

impl Clone for WalkOptions {
    ghost use Rattle.std.specs.Prelude.{◌≡◌};

    ghost is_clone = { λ o c. c ≡ o };

    fn clone(&self) -> Result<WalkOptions, AllocError> {
        let alloc = self.settings.allocator();
        Ok(WalkOptions {
            roots: self.roots.clone()?,
            settings: self.settings.copy()?,
            overrides: self.overrides.clone()?,
            types: self.types.clone()?,
            explicit: self.explicit.clone()?,
            current_dir: copy_of(alloc, &self.current_dir)?,
            order: self.order,
            limit: self.limit,
            same_file_system: self.same_file_system,
        })
    }
}

impl Limited {
    ghost use Rattle.std.specs.Prelude.{◌≡◌, IfOk};

    /// The same settings once more.
    fn copy(&self) -> Result<Limited, AllocError>
        ensures { IfOk result (λ c. c ≡ self.now) }
    {
        Ok(Limited {
            inner: self.inner.clone()?,
            alloc: self.alloc,
        })
    }
}

fn copy_of(alloc: Global, name: &Option<Name>) -> Result<Option<Name>, AllocError>
    ensures { IfOk result (λ c. c ≡ name.now) }
{
    match name {
        None => Ok(None),
        Some(name) => Ok(Some(Name::new(String::from_str(alloc, name.as_str())?))),
    }
}
