//! The text of an error.
ghost use Rattle.std.specs.Prelude.{Some};
ghost use Rattle.ignore_base.specs.Errors.{problem_text};
ghost use Rattle.ignore_base.specs.Problem.{problem_of};

use crate::error::Error;
use std::{error, fmt};

impl fmt::Display for Error {
    ghost output = { λ e. Some (problem_text (problem_of e)) };

    fn fmt<W: fmt::Write>(&self, f: &mut fmt::Formatter<W>) -> fmt::Result {
        match self {
            Error::Partial(errors) => {
                let mut separator = "";
                for err in errors {
                    write!(f, "{separator}{err}")?;
                    separator = "\n";
                }
                Ok(())
            }
            Error::WithLineNumber { line, err } => write!(f, "line {line}: {err}"),
            Error::WithPath { path, err } => write!(f, "{path}: {err}"),
            Error::WithDepth { err, .. } => write!(f, "{err}"),
            Error::Loop { ancestor, child } => write!(
                f,
                "File system loop found: {child} points to an ancestor {ancestor}"
            ),
            Error::Io(fault) => write!(f, "{fault}"),
            Error::Glob {
                glob: Some(glob),
                err,
            } => write!(f, "error parsing glob '{glob}': {err}"),
            Error::Glob { glob: None, err } => write!(f, "{err}"),
            Error::UnrecognizedFileType(name) => write!(f, "unrecognized file type: {name}"),
            Error::InvalidDefinition => write!(
                f,
                "invalid definition (format is type:glob, e.g., html:*.html)"
            ),
            Error::Memory => write!(f, "out of memory"),
        }
    }
}

impl error::Error for Error {}
