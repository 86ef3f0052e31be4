//! Vectors: questions for a library, each with its wanted answer; whether an answer agrees with the
//! wanted one, and how many do.
#![tactic(auto)]

mod agree;
mod equal;
mod fields;
mod kinds;
mod line;
mod run;
mod tally;
mod trouble;
mod vector;
mod verdict;

pub use agree::agrees;
pub use equal::is_equal;
pub use fields::{field, flag, flag_at, item, list, members, object, text, text_at};
pub use kinds::Kinds;
pub use run::{File, Reports, Stop, replay};
pub use tally::Tally;
pub use trouble::Trouble;
pub use vector::Vector;
pub use verdict::Verdict;
