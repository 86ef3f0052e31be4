//! Globs: patterns, and sets of patterns.

pub use ignore_glob::glob::{GlobFault, Options, Pattern, PatternError, laws};
pub use ignore_set::PatternSet;
