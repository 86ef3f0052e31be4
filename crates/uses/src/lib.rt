//! What callers of these crates do. Each function has a contract of its own, which is proved from
//! the public clauses of `ignore` alone.
#![tactic(auto)]

pub mod backup;
pub mod buffer;
pub mod checker;
pub mod disk;
pub mod explainer;
pub mod global;
pub mod lines;
pub mod linter;
pub mod packer;
pub mod reason;
pub mod search;
pub mod single;
pub mod sources;
pub mod watcher;
