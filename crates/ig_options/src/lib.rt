//! The options of the program `ig`: how they are read from its words, and which settings of a walk
//! and which rules from outside they ask for.
#![tactic(auto)]

mod choices;
mod fd;
mod files;
mod given;
mod globs;
mod options;
pub mod quotes;
mod settings;
mod sizes;
pub mod table;
mod words;

pub use choices::{defined_types, types_of};
pub use files::add_files;
pub use given::{Given, given_by};
pub use globs::globs_of;
pub use options::Options;
pub use settings::walk_options;
pub use words::{Task, hint_of, read_words};
