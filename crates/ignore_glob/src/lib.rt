//! Globs, for the crates of gitignore rules.
#![tactic(auto)]

pub mod glob;
pub mod internal;
