//! Errors, matches and paths, for the crates of globs, files and rules.
#![tactic(auto)]

mod error;
mod fault;
pub mod internal;
pub mod match_laws;
mod match_result;
pub mod text;

pub use error::Error;
pub use fault::Fault;
pub use match_result::Match;
