//! The rules that the directories of a tree hold: what is read of each directory, what is wrong
//! with its files, and which directories above a root count.
#![tactic(auto)]

pub mod above;
mod answers;
mod dir;
pub mod errors;
pub mod exclude;
mod ground;
pub mod incremental;
pub mod laws;
pub mod limits;
pub mod load;
pub mod names;
mod outside;
mod rule_files;
mod settings;
pub mod verdict;

pub use dir::{Dir, Placed, Rank};
pub use ground::{Asked, Ground};
pub use incremental::IncrementalMatch;
pub use outside::{Matchers, Outside};
pub use settings::{Names, Settings};
