//! How many states may still be found.

use crate::error::Error;

/// How many states may still be found, of all tables and searches together.
#[derive(Debug, Drop)]
pub(crate) struct Room {
    left: usize,
}

impl Room {
    /// Room for so many states.
    pub(crate) fn new(limit: usize) -> Room {
        Room { left: limit }
    }

    /// Takes room for one state.
    pub(crate) fn take(&mut self) -> Result<(), Error> {
        if self.left == 0 {
            return Err(Error::TooLarge);
        }
        self.left -= 1;
        Ok(())
    }
}
