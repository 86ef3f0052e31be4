//! What a question or a walk goes by, and what is asked.

use crate::outside::Outside;
use crate::settings::Settings;
use ignore_files::Files;
use std::alloc::Global;

/// What a question or a walk goes by. It is lent, and holds nothing of its own.
/// For dependents.
#[derive(Drop)]
pub struct Ground<'a, F: Files> {
    /// The allocator.
    pub alloc: Global,
    /// The files.
    pub files: &'a F,
    /// The settings by which directories are loaded and paths are matched.
    pub settings: &'a Settings,
    /// The rules from outside of the directories.
    pub outside: &'a Outside,
}

/// The path that is asked about.
/// For dependents.
#[derive(Clone, Copy)]
pub struct Asked<'t> {
    /// The path as the directories on the way to it see it: each is asked about what follows its
    /// offset.
    pub text: &'t str,
    /// The path.
    pub path: &'t str,
    /// Whether it is a directory.
    pub is_dir: bool,
}
