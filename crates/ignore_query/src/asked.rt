//! What all queries of a matcher share, and what one call goes by.
ghost use Rattle.std.specs.Prelude.{◌≡◌, IfOk, option_map, string_bytes};

use ignore_dir::{Ground, Outside, Settings};
use ignore_files::Files;
use std::alloc::{AllocError, Global};

/// What all queries of a matcher share: the settings, the rules from outside, the root, and the
/// working directory.
#[derive(Debug, Drop)]
pub struct Asked {
    /// The settings.
    pub settings: Settings,
    /// The rules from outside.
    pub outside: Outside,
    /// The root, as it was given.
    pub root: String,
    /// The working directory, if it is known.
    pub current_dir: Option<String>,
}

impl Clone for Asked {
    ghost use Rattle.ignore_query.specs.Reached.{IsSame};

    ghost is_clone = { λ a copy. IsSame a copy };

    fn clone(&self) -> Result<Asked, AllocError> {
        Ok(Asked {
            settings: self.settings.clone()?,
            outside: self.outside.clone()?,
            root: self.root.clone()?,
            current_dir: copy_of(&self.current_dir)?,
        })
    }
}

/// A copy of a directory, if it is known.
fn copy_of(dir: &Option<String>) -> Result<Option<String>, AllocError>
    ensures { IfOk result (λ copy. option_map string_bytes copy ≡ option_map string_bytes dir.now) }
{
    match dir {
        None => Ok(None),
        Some(dir) => Ok(Some(dir.clone()?)),
    }
}

/// What one call goes by: the files at hand, what all queries of the matcher share, and the path
/// below the root that is asked about, which is a directory where `is_dir` is set.
#[derive(Drop)]
pub(crate) struct Call<'a, F: Files> {
    pub(crate) files: &'a F,
    pub(crate) asked: &'a Asked,
    pub(crate) path: &'a str,
    pub(crate) is_dir: bool,
}

impl<'a, F: Files> Call<'a, F> {
    /// The allocator.
    pub(crate) fn alloc(&self) -> Global {
        *self.asked.root.allocator()
    }

    /// The ground of its loads.
    pub(crate) fn ground(&self) -> Ground<'a, F>
        ensures files { result.files.now ≡ self.now.files.now }
        ensures settings { result.settings.now ≡ self.now.asked.now.settings }
    {
        Ground {
            alloc: self.alloc(),
            files: self.files,
            settings: &self.asked.settings,
            outside: &self.asked.outside,
        }
    }
}
