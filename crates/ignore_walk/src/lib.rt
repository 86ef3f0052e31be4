//! Walks of trees of files, filtered by the rules of their directories.
#![tactic(auto)]

mod above;
mod arrange;
mod bound;
mod callbacks;
mod child;
mod entry;
mod found;
mod frame;
mod ground;
pub mod internal;
pub mod laws;
mod made;
mod open;
mod root;
pub mod runs;
mod skip;
mod stack;
mod walk;

pub use bound::{branch_bound, some_list};
pub use callbacks::{Callbacks, Options, Order};
pub use entry::{DirEntry, Item};
pub use frame::Frame;
pub use ground::Ground;
pub use walk::Walk;
