//! `clone` of an error, written out since a derived one promises nothing for a recursive type.
ghost use Rattle.std.specs.Prelude.{◌≡◌};
ghost use Rattle.ignore_base.specs.Problem.{problem_of};

use crate::error::Error;
use std::alloc::AllocError;

/// The clone reports the same problem; out of memory is `AllocError`.
impl Clone for Error {
    ghost is_clone = { λ e f. problem_of f ≡ problem_of e };

    fn clone(&self) -> Result<Error, AllocError> {
        match self {
            Error::Partial(errors) => {
                let mut copies = Vec::new(*errors.allocator());
                for err in errors {
                    copies.push(err.clone()?)?;
                }
                Ok(Error::Partial(copies))
            }
            Error::WithLineNumber { line, err } => {
                let copy = (**err).clone()?;
                let err = Box::new(*Box::allocator(err), copy)?;
                Ok(Error::WithLineNumber { line: *line, err })
            }
            Error::WithPath { path, err } => {
                let path = path.clone()?;
                let copy = (**err).clone()?;
                let err = Box::new(*Box::allocator(err), copy)?;
                Ok(Error::WithPath { path, err })
            }
            Error::WithDepth { depth, err } => {
                let copy = (**err).clone()?;
                let err = Box::new(*Box::allocator(err), copy)?;
                Ok(Error::WithDepth { depth: *depth, err })
            }
            Error::Loop { ancestor, child } => {
                let ancestor = ancestor.clone()?;
                let child = child.clone()?;
                Ok(Error::Loop { ancestor, child })
            }
            Error::Io(fault) => Ok(Error::Io(*fault)),
            Error::Glob { glob, err } => {
                let glob = glob.clone()?;
                let err = err.clone()?;
                Ok(Error::Glob { glob, err })
            }
            Error::UnrecognizedFileType(name) => {
                let name = name.clone()?;
                Ok(Error::UnrecognizedFileType(name))
            }
            Error::InvalidDefinition => Ok(Error::InvalidDefinition),
            Error::Memory => Ok(Error::Memory),
        }
    }
}
