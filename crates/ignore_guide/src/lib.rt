//! A guide for hosts that walk by themselves: the directories that were entered, and what decides
//! on the entries of each.
#![tactic(auto)]

mod answers;
mod error;
mod explain;
mod free;
mod given_laws;
mod guide;
mod hosted;
pub mod internal;
mod judge;
pub mod laws;
mod missing;
mod open;
mod places;
mod settle;
mod survey;
mod told;

pub use answers::{Answer, Answers};
pub use error::GuideError;
pub use guide::{Arrived, Guide};
pub use hosted::{Call, Given, Step, Waiting};
pub use judge::Entry;
pub use missing::{Question, Wanted};
pub use places::{Entered, Held, Place, Places, Spot};
pub use told::Told;
