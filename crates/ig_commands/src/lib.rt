//! The commands of the program `ig`, over files and writers that are handed in.
#![tactic(auto)]

mod asking;
mod counts;
mod folders;
mod form;
mod ignored;
mod input;
mod lint;
mod listing;
mod names;
mod noted;
mod reinclude;
mod reports;
mod repositories;
mod root;
mod rules;
pub mod run;
mod same;
mod sides;
mod sources;
mod stop;
mod types;
mod unused;
pub mod why;
mod worktree;
mod writing;

pub use commands::World;
pub use ignored::list_ignored;
pub use listing::list;
pub use run::{Ran, finish};
pub use stop::{Stop, Unwritten, report_stop};
pub use types::list_types;
pub use unused::list_unused;
