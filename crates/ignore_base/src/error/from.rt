//! Conversions to an error of this crate, by `?` and `from`.
ghost use Rattle.std.specs.Prelude.{◌≡◌};
ghost use Rattle.std.specs.IoError.{error_kind};
ghost use Rattle.ignore_base.specs.Kinds.{problem_of_kind};
ghost use Rattle.ignore_base.specs.Problem.{problem_of, io, memory};

use crate::error::Error;
use crate::fault::Fault;
use std::alloc::{AllocError, AllocFailed};
use std::io;

/// A fault becomes `Io`.
impl From<Fault> for Error {
    ghost from_gives = { λ fault e. problem_of e ≡ io fault };

    fn from(fault: Fault) -> Error {
        Error::Io(fault)
    }
}

/// The kinds `NotFound`, `PermissionDenied`, `NotADirectory`, `IsADirectory` and `InvalidData`
/// become the fault of the same name, `OutOfMemory` becomes `Error::Memory`, and every other kind
/// `Fault::Other`. The original keeps the system's error whole.
impl From<io::Error> for Error {
    ghost from_gives = { λ error e. problem_of e ≡ problem_of_kind (error_kind error) };

    fn from(error: io::Error) -> Error {
        match error.kind() {
            io::ErrorKind::NotFound => Error::Io(Fault::NotFound),
            io::ErrorKind::PermissionDenied => Error::Io(Fault::PermissionDenied),
            io::ErrorKind::NotADirectory => Error::Io(Fault::NotADirectory),
            io::ErrorKind::IsADirectory => Error::Io(Fault::IsADirectory),
            io::ErrorKind::InvalidData => Error::Io(Fault::InvalidData),
            io::ErrorKind::OutOfMemory => Error::Memory,
            _ => Error::Io(Fault::Other),
        }
    }
}

/// A failed allocation becomes `Memory`.
impl From<AllocError> for Error {
    ghost from_gives = { λ _ e. problem_of e ≡ memory };

    fn from(_error: AllocError) -> Error {
        Error::Memory
    }
}

/// A failed allocation becomes `Memory`; the value that found no room is dropped.
impl<T: Drop> From<AllocFailed<T>> for Error {
    ghost from_gives = { λ _ e. problem_of e ≡ memory };

    fn from(_error: AllocFailed<T>) -> Error {
        Error::Memory
    }
}
