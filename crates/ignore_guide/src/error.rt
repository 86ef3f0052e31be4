//! Why a guide does nothing.
use std::alloc::AllocError;
use std::{error, fmt};

/// Why a guide does nothing.
#[derive(Clone, Copy, Debug, PartialEq, Eq)]
pub enum GuideError {
    /// Out of memory.
    Memory,
    /// The place is none: it was never entered, or it was left.
    NoPlace,
    /// The name is none: it is empty, `.` or `..`, or has a slash.
    NoName,
    /// A directory below the place was entered, and not left.
    HasChildren,
}

impl fmt::Display for GuideError {
    ghost use Rattle.std.specs.Prelude.{Some};
    ghost use Rattle.ignore_guide.specs.Names.{error_text};

    ghost output = { λ e. Some (error_text e) };

    fn fmt<W: fmt::Write>(&self, f: &mut fmt::Formatter<W>) -> fmt::Result {
        match self {
            GuideError::Memory => write!(f, "out of memory"),
            GuideError::NoPlace => write!(f, "no such place"),
            GuideError::NoName => write!(f, "not a name"),
            GuideError::HasChildren => write!(f, "directories in it were not left"),
        }
    }
}

impl error::Error for GuideError {}

impl From<AllocError> for GuideError {
    ghost use Rattle.std.specs.Prelude.{◌≡◌};
    ghost use Rattle.ignore_guide.specs.declared.error.GuideError.TheVariants.{Memory};

    ghost from_gives = { λ _ e. e ≡ Memory };

    fn from(_error: AllocError) -> GuideError {
        GuideError::Memory
    }
}
