//! The answer of a matcher for a path, with its reason.
use crate::cause::Cause;
use ignore_base::Match;
use ignore_dir::IncrementalMatch;

/// Why a matcher answers as it does.
#[derive(Debug, Drop)]
pub enum Reason {
    /// Nothing was asked: the root is `-`, or the path isn't clean.
    Unasked,
    /// No rule is asked: the path is empty, which is the root, or the root is no directory.
    Unruled,
    /// It is a file above the least depth.
    TooShallow,
    /// It is below the greatest depth.
    TooDeep,
    /// What decides, if anything does.
    Decided(Match<Cause>),
    /// It is larger than the limit.
    Larger {
        /// Its size in bytes.
        size: u64,
        /// The greatest size in bytes.
        limit: u64,
    },
    /// It is in an ignored directory.
    Inside {
        /// The directory, by its path below the root: the first one on the way that is ignored.
        directory: String,
        /// What decides on that directory.
        cause: Match<Cause>,
    },
}

/// The answer of a matcher for a path, with its reason. It owns all that it names.
#[derive(Debug, Drop)]
pub struct Explanation {
    /// The answer.
    pub answer: IncrementalMatch,
    /// Its reason.
    pub reason: Reason,
}
