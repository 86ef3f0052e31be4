//! Guides, for hosts that list directories themselves.

pub use ignore_guide::{
    Arrived, Call, Entry, Given, Guide, GuideError, Place, Question, Step, Told, Waiting, Wanted,
    laws,
};
