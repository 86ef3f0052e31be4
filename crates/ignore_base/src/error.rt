//! Errors of parsing rules and of walking files.
ghost use Rattle.std.specs.Prelude.{◌≡◌, IfOk, is_some, map, option_map};
ghost use Rattle.std.specs.Option.{option_copied};
ghost use Rattle.ignore_base.specs.Errors.{is_partial, io_fault, depth_of, without_fault};
ghost use Rattle.ignore_base.specs.Problem.{problem_of, at_path, joined_problems};

mod clone;
mod display;
mod from;

use crate::fault::Fault;
use std::alloc::{AllocError, Global};

/// An error of parsing rules, of building a matcher or of walking files.
///
/// An error may be tagged: with the line or the path that it belongs to, or with the depth in a
/// walk. `clone` itself can be out of memory, and returns `AllocError` then; the clone reports the
/// same problem. `Display` prints the text that is given with each variant.
#[derive(Debug, Drop)]
pub enum Error {
    /// Several errors at once, as when some lines of an ignore file are valid and some are not. It
    /// is printed as their texts, separated by newlines.
    Partial(Vec<Error>),
    /// An error at a line of a file, printed as `line N: ` and the text of the error inside.
    WithLineNumber {
        /// The number of the line, of which the first has number 1.
        line: u64,
        /// The error at that line.
        err: Box<Error>,
    },
    /// An error at a path, printed as the path, `: ` and the text of the error inside.
    WithPath {
        /// The path of the file or directory.
        path: String,
        /// The error there.
        err: Box<Error>,
    },
    /// An error at a depth of a walk, printed as the error inside.
    WithDepth {
        /// How many names below its root the walk was; a root has depth 0.
        depth: usize,
        /// The error there.
        err: Box<Error>,
    },
    /// A symbolic link leads back to a directory that the walk is in, printed as
    /// `File system loop found: CHILD points to an ancestor ANCESTOR`.
    Loop {
        /// The path of the directory that the link leads back to.
        ancestor: String,
        /// The path of the link.
        child: String,
    },
    /// A fault of the file system or of the walk, printed as the fault.
    Io(Fault),
    /// An invalid glob, printed as `error parsing glob 'GLOB': ERR`, or as `ERR` alone where the
    /// glob is not known.
    Glob {
        /// The glob as its user wrote it, where it is known. It may differ from what is matched in
        /// the end, as a line of a gitignore file does.
        glob: Option<String>,
        /// Its parse error.
        err: String,
    },
    /// A file type was selected that has no definition, printed as `unrecognized file type: NAME`.
    UnrecognizedFileType(String),
    /// An invalid definition of a file type, printed as
    /// `invalid definition (format is type:glob, e.g., html:*.html)`.
    InvalidDefinition,
    /// Out of memory, printed as `out of memory`. The original has no such variant, since there the
    /// process ends.
    Memory,
}

impl Error {
    /// Whether this is a partial error: whether it is several, maybe tagged with a line, a path or
    /// a depth.
    pub fn is_partial(&self) -> bool
        ensures { result ≡ is_partial (problem_of self.now) }
    {
        match self {
            Error::Partial(_) => true,
            Error::WithLineNumber { err, .. } => err.is_partial(),
            Error::WithPath { err, .. } => err.is_partial(),
            Error::WithDepth { err, .. } => err.is_partial(),
            _ => false,
        }
    }

    /// Whether this is a fault and nothing else: whether `io_error` returns one.
    pub fn is_io(&self) -> bool
        ensures { result ≡ is_some (io_fault (problem_of self.now)) }
    {
        self.io_error().is_some()
    }

    /// The fault of this error, if it is one. Tags with a line, a path or a depth are skipped, and
    /// so is a partial error with exactly one member. Several errors have no fault.
    pub fn io_error(&self) -> Option<&Fault>
        ensures { option_copied result ≡ io_fault (problem_of self.now) }
    {
        match self {
            Error::Partial(errors) => match errors.as_slice() {
                [] => None,
                [one] => one.io_error(),
                [_, _, ..] => None,
            },
            Error::WithLineNumber { err, .. } => err.io_error(),
            Error::WithPath { err, .. } => err.io_error(),
            Error::WithDepth { err, .. } => err.io_error(),
            Error::Io(fault) => Some(fault),
            _ => None,
        }
    }

    /// The fault that `io_error` returns, by value: the error is consumed. It allocates nothing.
    pub fn into_io_error(self) -> Option<Fault>
        ensures { result ≡ io_fault (problem_of self) }
    {
        self.io_error().copied()
    }

    /// The depth of the walk that this error is tagged with, directly or inside a path. A depth
    /// inside a line number or a partial error is not returned.
    pub fn depth(&self) -> Option<usize>
        ensures { result ≡ depth_of (problem_of self.now) }
    {
        match self {
            Error::WithPath { err, .. } => err.depth(),
            Error::WithDepth { depth, .. } => Some(*depth),
            _ => None,
        }
    }

    /// The errors as one: none for no error, the error itself for one, else one partial error with
    /// all of them as members, in order. A member that is partial itself stays one member. It
    /// allocates nothing.
    ///
    /// For dependents; no part of the surface of `ignore`.
    pub fn joined(mut errors: Vec<Error>) -> Option<Error>
        ensures { option_map problem_of result ≡ joined_problems (map problem_of errors.items) }
    {
        if errors.len() < 2 {
            return errors.pop();
        }
        Some(Error::Partial(errors))
    }

    /// The error at a path. For dependents.
    pub fn with_path(self, alloc: Global, path: &str) -> Result<Error, AllocError>
        ensures value { IfOk result (λ e. problem_of e ≡ at_path path.now (problem_of self)) }
    {
        let path = String::from_str(alloc, path)?;
        let err = Box::new(alloc, self)?;
        Ok(Error::WithPath { path, err })
    }

    /// The error, if there is one, unless it is a fault. For dependents.
    pub fn without_fault(error: Option<Error>) -> Option<Error>
        ensures { option_map problem_of result ≡ without_fault (option_map problem_of error) }
    {
        match error {
            None => None,
            Some(error) => { if error.is_io() { None } else { Some(error) } }
        }
    }
}
