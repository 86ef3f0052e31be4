//! The faults of a file system, a walk or a reader of files.
ghost use Rattle.std.specs.Prelude.{Some};
ghost use Rattle.ignore_base.specs.Faults.{fault_text};

use std::fmt;

/// Why a file or a directory could not be used.
///
/// It stands where the original has a `std::io::Error`: a fault is a plain value that can be copied
/// and compared. Its text, as `Display` prints it, is given with each.
#[derive(Clone, Copy, Debug, PartialEq, Eq)]
pub enum Fault {
    /// Nothing is there: `not found`.
    NotFound,
    /// The system refuses access: `permission denied`.
    PermissionDenied,
    /// A directory was expected, or a component of the path follows a file: `not a directory`.
    NotADirectory,
    /// A file was expected and there is a directory: `is a directory`.
    IsADirectory,
    /// The bytes are not what was expected, as a line that is not UTF-8: `invalid data`.
    InvalidData,
    /// A listed name is not UTF-8, or is not a name at all: `file name is not UTF-8`.
    BadName,
    /// Resolving a path led through too many symbolic links: `too many links`.
    LinkLimit,
    /// Whether two paths lead to one directory or one device is unknown: `identity unknown`.
    NoIdentity,
    /// The working directory is needed and not known: `current directory unknown`.
    NoCurrentDir,
    /// A walk has done all steps that it was given: `step limit reached`.
    StepLimit,
    /// Standard input was asked for its metadata: `<stdin> has no metadata`.
    NoMetadata,
    /// Any other fault: `input or output failed`.
    Other,
}

impl fmt::Display for Fault {
    ghost output = { λ fault. Some (fault_text fault) };

    fn fmt<W: fmt::Write>(&self, f: &mut fmt::Formatter<W>) -> fmt::Result {
        match self {
            Fault::NotFound => write!(f, "not found"),
            Fault::PermissionDenied => write!(f, "permission denied"),
            Fault::NotADirectory => write!(f, "not a directory"),
            Fault::IsADirectory => write!(f, "is a directory"),
            Fault::InvalidData => write!(f, "invalid data"),
            Fault::BadName => write!(f, "file name is not UTF-8"),
            Fault::LinkLimit => write!(f, "too many links"),
            Fault::NoIdentity => write!(f, "identity unknown"),
            Fault::NoCurrentDir => write!(f, "current directory unknown"),
            Fault::StepLimit => write!(f, "step limit reached"),
            Fault::NoMetadata => write!(f, "<stdin> has no metadata"),
            Fault::Other => write!(f, "input or output failed"),
        }
    }
}
