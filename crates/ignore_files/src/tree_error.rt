//! The errors of changing a tree in memory.
use std::alloc::{AllocError, AllocFailed};
use std::{error, fmt};

/// Why a tree in memory isn't changed. Of several reasons the first in this order is returned.
#[derive(Clone, Copy, Debug, PartialEq, Eq)]
pub enum TreeError {
    /// The path isn't `/`, or `/` and names joined by single slashes.
    NotClean = 1,
    /// What the path should be in isn't a directory of the tree.
    NoParent = 2,
    /// The path is there already.
    Exists = 3,
    /// Nothing of the kind that is asked for is at the path.
    Missing = 4,
    /// Out of memory.
    Memory = 5,
}

impl fmt::Display for TreeError {
    ghost use Rattle.std.specs.Prelude.{Some};
    ghost use Rattle.ignore_files.specs.Refusals.{tree_error_text};

    ghost output = { λ e. Some (tree_error_text e) };

    fn fmt<W: fmt::Write>(&self, f: &mut fmt::Formatter<W>) -> fmt::Result {
        match self {
            TreeError::NotClean => write!(f, "path is not clean"),
            TreeError::NoParent => write!(f, "no directory to add to"),
            TreeError::Exists => write!(f, "already there"),
            TreeError::Missing => write!(f, "nothing of the kind there"),
            TreeError::Memory => write!(f, "out of memory"),
        }
    }
}

impl error::Error for TreeError {}

impl From<AllocError> for TreeError {
    ghost use Rattle.std.specs.Prelude.{◌≡◌};
    ghost use Rattle.ignore_files.specs.declared.tree_error.TreeError.TheVariants.{Memory};

    ghost from_gives = { λ _ e. e ≡ Memory };

    fn from(_error: AllocError) -> TreeError {
        TreeError::Memory
    }
}

impl<T: Drop> From<AllocFailed<T>> for TreeError {
    ghost use Rattle.std.specs.Prelude.{◌≡◌};
    ghost use Rattle.ignore_files.specs.declared.tree_error.TreeError.TheVariants.{Memory};

    ghost from_gives = { λ _ e. e ≡ Memory };

    fn from(_error: AllocFailed<T>) -> TreeError {
        TreeError::Memory
    }
}
