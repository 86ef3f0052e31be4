//! The glob dialect: how a glob is written, and what it matches.

pub(crate) mod automaton;
mod class;
mod copies;
mod ending;
mod exact;
mod exact_marks;
mod fault;
pub(crate) mod flags;
mod key;
mod kind;
pub mod laws;
mod lexeme;
mod marks;
mod matcher;
mod meaning;
mod member;
mod needle;
mod node;
mod nodes;
mod options;
mod parent;
mod pass;
mod pattern;
mod read;
mod sets;
mod token;
mod word;

pub use ending::{has_end, has_name};
pub use fault::{GlobFault, PatternError};
pub use key::Key;
pub use options::Options;
pub use pattern::Pattern;
