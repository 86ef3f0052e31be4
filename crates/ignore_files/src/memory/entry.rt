//! What a directory in memory keeps of each thing that was added to it.

use crate::types::{FileType, Name};

/// One thing in a directory, in the order of adding.
#[derive(Debug, Drop)]
pub enum Entry {
    /// A node under a name.
    Named {
        name: Name,
        file_type: FileType,
        node: usize,
    },
    /// Something whose name is invalid.
    Nameless,
}
