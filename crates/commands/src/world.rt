//! What a command reads.

use ignore_files::{Env, Files};
use std::alloc::Global;

/// The files and the environment of a command.
#[derive(Drop)]
pub struct World<'a, F: Files> {
    /// The allocator.
    pub alloc: Global,
    /// The files.
    pub files: &'a F,
    /// The environment.
    pub env: &'a Env,
}
