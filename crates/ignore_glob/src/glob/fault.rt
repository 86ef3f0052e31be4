//! Parse errors of globs.
ghost use Rattle.std.specs.Prelude.{◌≡◌, ◌⊎◌, Some, string_bytes};
ghost use Rattle.ignore_base.specs.Problem.{problem_of, memory, glob};
ghost use Rattle.ignore_glob.specs.GlobFaults.{glob_fault_text, glob_fault_number, pattern_error_text};

use ignore_base::Error;
use std::alloc::{AllocError, AllocFailed, Global};
use std::{error, fmt};

/// A parse error of a glob: the leftmost one.
///
/// The error of a class begins at its `[`. A text whose only error is that braces stay open has
/// `UnclosedAlternates`.
#[derive(Clone, Copy, Debug, PartialEq, Eq)]
pub enum GlobFault {
    /// A `[` that nothing closes, where such a class isn't allowed.
    UnclosedClass,
    /// A range of a class ends below its start, as in `[b-a]`.
    InvalidRange,
    /// A `}` closes no braces.
    UnopenedAlternates,
    /// Braces are open at the end of the glob.
    UnclosedAlternates,
    /// A backslash is the last character.
    DanglingEscape,
    /// Braces nest to more than 64 levels.
    TooDeep,
}

impl GlobFault {
    /// The number of the error, from 1 to 6 in the order of the variants.
    pub fn number(&self) -> u8
        ensures { result ≡ glob_fault_number self.now }
    {
        match self {
            GlobFault::UnclosedClass => 1,
            GlobFault::InvalidRange => 2,
            GlobFault::UnopenedAlternates => 3,
            GlobFault::UnclosedAlternates => 4,
            GlobFault::DanglingEscape => 5,
            GlobFault::TooDeep => 6,
        }
    }

    /// For dependents: the error that reports this text and its parse error, or `Error::Memory`.
    pub fn error_of(self, alloc: Global, text: String) -> Error
        ensures { (problem_of result ≡ memory) ⊎ (problem_of result ≡ glob (Some (string_bytes text)) (glob_fault_text self)) }
    {
        match format!(in alloc; "{self}") {
            Ok(err) => Error::Glob {
                glob: Some(text),
                err,
            },
            Err(_) => Error::Memory,
        }
    }
}

impl fmt::Display for GlobFault {
    ghost output = { λ fault. Some (glob_fault_text fault) };

    fn fmt<W: fmt::Write>(&self, f: &mut fmt::Formatter<W>) -> fmt::Result {
        match self {
            GlobFault::UnclosedClass => write!(f, "unclosed character class"),
            GlobFault::InvalidRange => write!(f, "invalid range"),
            GlobFault::UnopenedAlternates => write!(f, "unopened alternates"),
            GlobFault::UnclosedAlternates => write!(f, "unclosed alternates"),
            GlobFault::DanglingEscape => write!(f, "dangling escape"),
            GlobFault::TooDeep => write!(f, "alternates nested too deep"),
        }
    }
}

impl error::Error for GlobFault {}

/// Why a glob wasn't parsed.
#[derive(Clone, Copy, Debug, PartialEq, Eq)]
pub enum PatternError {
    /// The text is an invalid glob.
    Fault(GlobFault),
    /// Out of memory, whether the text is a glob or not.
    Memory,
}

impl fmt::Display for PatternError {
    ghost output = { λ error. Some (pattern_error_text error) };

    fn fmt<W: fmt::Write>(&self, f: &mut fmt::Formatter<W>) -> fmt::Result {
        match self {
            PatternError::Fault(fault) => write!(f, "{fault}"),
            PatternError::Memory => write!(f, "out of memory"),
        }
    }
}

impl error::Error for PatternError {}

impl From<AllocError> for PatternError {
    ghost use Rattle.std.specs.Prelude.{◌≡◌};
    ghost use Rattle.ignore_glob.specs.declared.glob.fault.PatternError.TheVariants.{Memory};

    ghost from_gives = { λ _ error. error ≡ Memory };

    fn from(_error: AllocError) -> PatternError {
        PatternError::Memory
    }
}

impl<T: Drop> From<AllocFailed<T>> for PatternError {
    ghost use Rattle.std.specs.Prelude.{◌≡◌};
    ghost use Rattle.ignore_glob.specs.declared.glob.fault.PatternError.TheVariants.{Memory};

    ghost from_gives = { λ _ error. error ≡ Memory };

    fn from(_error: AllocFailed<T>) -> PatternError {
        PatternError::Memory
    }
}
