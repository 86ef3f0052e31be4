//! The library for programs in C, and in what calls C: each export is declared and described in the
//! header `include/ignore_proved.h`.
#![tactic(auto)]

mod builder;
mod choice;
mod every;
mod guide;
mod handle;
mod loose;
mod matcher;
mod rules;
mod tree;
mod version;
mod walk;

pub use handle::Handle;
pub(crate) use loose::Loose;
