//! The settings that vectors give a walk or a matcher, and how they are played in turn on a builder;
//! and the machine that a vector describes.

mod bounds;
mod chosen;
mod machine;
mod set;
mod types;

pub(crate) use bounds::{bounds_of, outside_of};
pub(crate) use chosen::Choice;
pub(crate) use machine::{Machine, Shown, machine_of};
pub(crate) use set::{Flag, Named, Number, Rules, limit_of, play};
pub(crate) use types::items_at;
