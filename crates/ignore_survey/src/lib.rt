//! Surveys: what becomes of each entry below a root, with its reason.
#![tactic(auto)]

pub mod laws;
mod listing;
mod stack;
mod survey;
mod surveyed;

pub use stack::{Frame, Stack};
pub use survey::Survey;
pub use surveyed::{Item, Surveyed};
