//! The excludes file that git's configuration names. `ignore_rules` re-exports its one call, in the
//! module `gitignore`.
#![tactic(auto)]

mod config;
mod excludes;
pub mod internal;

pub use config::gitconfig_excludes_path;
