//! File types: globs under a name, of which some are chosen. `ignore` re-exports this crate.
#![tactic(auto)]

pub mod all_default_types;
pub mod default_types;
pub mod types;
