//! How rules are read, and how one is told.

/// How the lines of rules are read.
#[repr(C)]
#[derive(Clone, Copy, Drop)]
pub struct RuleOptions {
    pub case_insensitive: bool,
    pub allow_unclosed_class: bool,
    pub git_trailing_spaces: bool,
}

/// The rule that decided: its line's number, 0 where that isn't known; how many bytes its source, its
/// line and its glob have; whether it has a source, and whether it applies to directories only.
#[repr(C)]
#[derive(Clone, Copy, Drop)]
pub struct Reason {
    pub line: u64,
    pub source: usize,
    pub pattern: usize,
    pub glob: usize,
    pub has_source: bool,
    pub is_only_dir: bool,
}

/// How many rules ignore, and how many whitelist.
#[repr(C)]
#[derive(Clone, Copy, Drop)]
pub struct Counts {
    pub ignores: u64,
    pub whitelists: u64,
}
