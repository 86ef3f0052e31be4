//! What a matcher keeps.
ghost use Rattle.std.specs.Prelude.{◌≡◌};
ghost use Rattle.ignore_dir.specs.Scene.{QueryScene};
ghost use Rattle.ignore_query.specs.Agrees.{Agrees};
ghost use Rattle.ignore_query.specs.Fresh.{KeepsNothing};

use crate::dirs::Dirs;
use ignore_levels::{Levels, Place};
use std::alloc::Global;

/// What is kept of a directory.
#[derive(Clone, Copy, Debug, PartialEq, Eq)]
pub enum Kept {
    /// It is ignored, and its files weren't read.
    Ignored,
    /// It is loaded, and stands at this place: its own where it has rules or a mark, else that of
    /// the nearest directory above it that has, if there is one.
    Loaded(Option<Place>),
}

/// What is kept of a root, the directories above it, and those below it.
#[derive(Debug, Drop)]
pub struct Cache {
    /// Whether what is above the root is kept. The root is a directory then.
    pub has_above: bool,
    /// The place of the nearest directory above the root that counts.
    pub above: Option<Place>,
    /// `/`, and then the names on the way from there to the root, each followed by `/`.
    pub base: String,
    /// The directories that have rules or a mark.
    pub levels: Levels,
    /// The directories from the root down.
    pub dirs: Dirs,
}

impl Cache {
    /// Nothing is kept. It allocates nothing.
    pub(crate) fn new(alloc: Global) -> Cache
        ensures fresh { (g : QueryScene) → Agrees g result }
        ensures empty { KeepsNothing result }
    {
        Cache {
            has_above: false,
            above: None,
            base: String::new(alloc),
            levels: Levels::new(alloc),
            dirs: Dirs::new(alloc),
        }
    }
}
