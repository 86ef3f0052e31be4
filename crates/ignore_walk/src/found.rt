//! What was found where a thing was listed, or at a root.
use crate::entry::DirEntry;

/// An entry that was found, and its device.
#[derive(Drop)]
pub struct Found {
    /// The entry.
    pub entry: DirEntry,
    /// The device of a directory, where it matters and is known.
    pub device: Option<u64>,
}
