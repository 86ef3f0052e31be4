//! What a system reports of a path.
use crate::types::{Identity, Metadata};

/// What a system reports of a path in one answer.
#[derive(Clone, Copy, Debug, PartialEq, Eq)]
pub struct Stat {
    /// Its kind and its size.
    pub metadata: Metadata,
    /// The numbers of its device and of its place there.
    pub identity: Identity,
}
