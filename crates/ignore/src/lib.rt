//! Rules of gitignore files, matchers of paths and walks, under the names of the Rust crate
//! `ignore`. This is the one crate that a user lists.
#![tactic(auto)]

mod builder;
mod closures;
mod collect;
pub mod every;
pub mod files;
pub mod glob;
pub mod guide;
mod limited;
mod options;
mod walk;
pub mod walk_laws;

pub use builder::WalkBuilder;
pub use closures::{Compare, Keep};
pub use collect::collect_walk;
pub use ignore_base::{Error, Fault, Match, match_laws, text};
pub use ignore_query::{
    Cause, Explanation, IncrementalIgnore, IncrementalMatch, NamedRule, NamedType, Reason,
    RuleRank, check_paths, explain_paths, laws as query_laws,
};
pub use ignore_rules::{gitignore, overrides};
pub use ignore_survey::{Survey, Surveyed, laws as survey_laws};
pub use ignore_types::{default_types, types};
pub use ignore_walk::{Callbacks, DirEntry, Item, Order, branch_bound};
pub use ignore_why::laws as why_laws;
pub use options::WalkOptions;
pub use walk::{Owner, Walk};
