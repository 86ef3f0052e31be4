//! Rules for paths: the lines and files of gitignore(5), the excludes file of git's configuration,
//! and overrides.
#![tactic(auto)]

pub mod gitignore;
pub mod internal;
pub mod overrides;
