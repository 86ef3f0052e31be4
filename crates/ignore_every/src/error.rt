//! Why rules aren't judged over all paths.
use std::alloc::{AllocError, AllocFailed};
use std::fmt;

/// Why rules aren't judged over all paths.
#[derive(Debug, Clone, Copy, PartialEq, Eq, Drop)]
pub enum Error {
    /// More states than the limit would be needed, printed as `too many states`.
    TooLarge,
    /// The search left what the check of it doesn't accept, printed as
    /// `a search that its check rejects`.
    Rejected,
    /// Out of memory, printed as `out of memory`.
    Memory,
}

impl fmt::Display for Error {
    fn fmt<W: fmt::Write>(&self, f: &mut fmt::Formatter<W>) -> fmt::Result {
        match self {
            Error::TooLarge => f.write_str("too many states"),
            Error::Rejected => f.write_str("a search that its check rejects"),
            Error::Memory => f.write_str("out of memory"),
        }
    }
}

impl std::error::Error for Error {}

impl From<AllocError> for Error {
    ghost use Rattle.std.specs.Prelude.{◌≡◌};
    ghost use Rattle.ignore_every.specs.declared.error.Error.TheVariants.{Memory};

    ghost from_gives = { λ _ error. error ≡ Memory };

    fn from(_: AllocError) -> Error {
        Error::Memory
    }
}

impl<T: Drop> From<AllocFailed<T>> for Error {
    ghost use Rattle.std.specs.Prelude.{◌≡◌};
    ghost use Rattle.ignore_every.specs.declared.error.Error.TheVariants.{Memory};

    ghost from_gives = { λ _ error. error ≡ Memory };

    fn from(_: AllocFailed<T>) -> Error {
        Error::Memory
    }
}
