//! Sets of patterns: which of them is the last that matches a text and allows its kind.
#![tactic(auto)]

mod buckets;
mod candidate;
mod entry;
mod has_pattern;
mod haystack;
mod index;
mod needle;
mod parents;
mod scan;
mod set;
mod table;
mod text;

pub use has_pattern::HasPattern;
pub use haystack::Haystack;
pub use index::Index;
pub use set::PatternSet;
