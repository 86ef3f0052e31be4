//! Queries of single paths below a root.
#![tactic(auto)]

mod asked;
mod clean;
mod dirs;
mod explain;
mod forget;
mod incremental;
mod kept;
mod keys;
pub mod laws;
mod load;
mod paths;
mod places;
mod reasons;
mod root;
mod rules;
mod size;
mod stand;

pub use asked::Asked;
pub use dirs::Dirs;
pub use ignore_dir::IncrementalMatch;
pub use ignore_why::{Cause, Explanation, NamedRule, NamedType, Reason, RuleRank};
pub use incremental::IncrementalIgnore;
pub use kept::{Cache, Kept};
pub use paths::{check_paths, explain_paths};
