//! What of a text a pattern of literals is compared with.

/// What of a text is compared with the literals.
#[derive(Clone, Copy, Debug)]
pub(crate) enum Kind {
    /// All of it: the glob is literals alone.
    Whole,
    /// What follows one of its slashes, or all of it: literals after `**/`.
    Name,
    /// Its end: literals after `**/*`.
    End,
}
