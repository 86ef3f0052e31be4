//! The commands of the program `igwalk`, over files and writers that are handed in: matching a path
//! against the rules of gitignore lines, a list of what they keep of a tree, and answers about
//! paths below a root.
#![tactic(auto)]

mod checking;
pub mod internal;
mod listing;
mod output;
mod program;
pub mod run;
mod stop;
mod words;
mod world;
mod writing;

pub use output::Output;
pub use program::{run_buffered, words_after_name};
pub use stop::{Stop, report_stop};
pub use world::World;
