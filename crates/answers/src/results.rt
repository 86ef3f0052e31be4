//! The results of calls.

use ignore_base::Error;
use vectors::Trouble;

/// The error of an operation, unless it is out of memory.
pub fn problem<T: Drop>(applied: Result<T, Error>) -> Result<Option<Error>, Trouble> {
    match applied {
        Ok(_) => Ok(None),
        Err(Error::Memory) => Err(Trouble::Memory),
        Err(error) => Ok(Some(error)),
    }
}

/// The result of a call whose only error is out of memory.
pub fn but_for_memory<T: Drop, E: Drop>(answer: Result<T, E>) -> Result<T, Trouble> {
    match answer {
        Ok(value) => Ok(value),
        Err(_) => Err(Trouble::Memory),
    }
}
