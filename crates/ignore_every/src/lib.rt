//! Rules over all paths: what is so whatever a tree holds.
#![tactic(auto)]

mod agree;
mod alphabet;
mod analysis;
mod asked;
mod decided;
mod differ;
mod error;
mod findings;
mod grow;
mod judge;
pub mod laws;
mod leaf;
mod letters;
mod lists;
mod misses;
mod node;
mod nodes;
mod pair;
mod place;
mod places;
mod reasons;
mod room;
mod row;
mod said;
mod sayings;
mod trail;

pub use analysis::Analysis;
pub use error::Error;
pub use findings::{Example, Finding, Question};
pub use lists::{compare, differences};
pub use said::{Comparison, Counted, Difference, Folder, Said, Verdict, Wanted};
