//! Why a path is ignored, whitelisted or neither: reasons that own what they name.
#![tactic(auto)]

mod cause;
mod display;
mod explanation;
pub mod internal;
pub mod laws;

pub use cause::{Cause, NamedRule, NamedType, RuleRank, causes};
pub use explanation::{Explanation, Reason};
