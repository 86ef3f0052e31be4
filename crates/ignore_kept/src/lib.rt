//! What the handles of the library for C keep, and what each call makes of it: `ignore_c` has the
//! handles and the exports.
#![tactic(auto)]

mod as_git;
pub mod ask;
pub mod asker;
pub mod change;
pub mod compared;
pub mod deciding;
pub mod entering;
pub mod entries;
pub mod explained;
pub mod findings;
pub mod given;
pub mod guided;
mod judging;
mod kept;
pub mod laws;
pub mod lines;
pub mod parts;
pub mod room;
mod rule;
pub mod setting;
pub mod setup;
mod stopped;
mod text;
pub mod walked;
pub mod wish;

pub use kept::{Kept, Lines};
pub use rule::{Counts, Reason, RuleOptions};
pub use stopped::{Stopped, done};
