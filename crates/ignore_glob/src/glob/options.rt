//! How a glob is parsed and what its letters match.

/// How a glob is parsed, and whether its letters match both cases.
#[derive(Clone, Copy, Debug, PartialEq, Eq)]
pub struct Options {
    /// Letters and classes match both ASCII cases. Parsing doesn't depend on it.
    pub case_insensitive: bool,
    /// A `[` that nothing closes is a literal `[` and no error.
    pub allow_unclosed_class: bool,
}
