//! What the words of the program ask for.

use crate::given::Given;
use ignore_dir::Names;
use ignore_walk::Order;
use std::alloc::Global;

/// The options of a command, as plain values. Each is false, none or empty where it isn't given.
#[derive(Drop)]
pub struct Options {
    /// The roots, as they are given; `.` where there is none.
    pub roots: Vec<String>,
    /// Whether no root is given: paths are then written without the `./` of the root `.`.
    pub is_bare: bool,
    /// The paths that `why` is asked about, the files that `same` compares, or those that `lint` looks
    /// at, as they are given by words.
    pub paths: Vec<Given>,
    /// `--stdin` of `why`: the paths are those of standard input.
    pub stdin: bool,
    /// `--only-ignored` of `why`: only a path that is ignored is written; `--ignored` of `same`: only
    /// whether a path is ignored counts.
    pub only_ignored: bool,
    /// `-v` of `ignored`: each entry is written after its reason.
    pub reasons: bool,
    /// `--files`: files are listed. Where no kind is chosen, all entries are.
    pub files: bool,
    /// `--dirs`: directories are listed.
    pub dirs: bool,
    /// `--links`: symbolic links that aren't followed are listed.
    pub links: bool,
    /// `-0`, and `-z` of `why`: a path ends in NUL, and not in a newline.
    pub null: bool,
    /// `-q`: nothing is written to the output.
    pub quiet: bool,
    /// `--stats`: counts are reported at the end.
    pub stats: bool,
    /// `--no-messages`: what is wrong with an entry, a path or a file of rules isn't reported.
    pub no_messages: bool,
    /// `--no-ignore-messages`: what is wrong with a file of rules isn't reported, and doesn't count.
    pub no_ignore_messages: bool,
    /// `--no-repositories` of `ignored`: a folder that holds a repository isn't listed.
    pub no_repositories: bool,
    /// `--sort`: the order of the entries of a directory.
    pub order: Order,
    /// `-H`: hidden entries are listed.
    pub hidden: bool,
    /// `-I`: no file of rules counts but those of `--ignore-file`.
    pub no_ignore: bool,
    /// How often `-u` is given: once it is as `-I`, twice as `-H` too.
    pub unrestricted: u8,
    /// `--no-ignore-vcs`: git's rules don't count.
    pub no_ignore_vcs: bool,
    /// `--no-ignore-parent`: the rules of directories above a root don't count.
    pub no_ignore_parent: bool,
    /// `--no-ignore-global`: the global file of git's configuration doesn't count.
    pub no_ignore_global: bool,
    /// `--no-ignore-exclude`: exclude files of repositories don't count.
    pub no_ignore_exclude: bool,
    /// `--no-ignore-dot`: `.ignore` files don't count.
    pub no_ignore_dot: bool,
    /// `--no-require-git`: git's rules count outside of repositories as well.
    pub no_require_git: bool,
    /// `--no-ignore-files`: the files of `--ignore-file` don't count.
    pub no_ignore_files: bool,
    /// `--ignore-file`: files of rules, by their paths.
    pub ignore_files: Names,
    /// `--ignore-name`: the names of further files of rules, which any directory may have.
    pub ignore_names: Names,
    /// `--ignore-file-case-insensitive`: the rules of files match both ASCII cases of a letter.
    pub ignore_file_case_insensitive: bool,
    /// `--git-trailing-spaces`: trailing spaces of the lines of files are read by git's own rule.
    pub git_trailing_spaces: bool,
    /// `-L`: symbolic links are followed.
    pub follow: bool,
    /// `-d`: how many names below a root an entry may be.
    pub max_depth: Option<usize>,
    /// `--min-depth`: how many names below a root an entry must be.
    pub min_depth: Option<usize>,
    /// `--max-filesize`: the size in bytes above which a file is ignored.
    pub max_filesize: Option<u64>,
    /// `--one-file-system`: directories on another device than that of their root stay closed.
    pub one_file_system: bool,
    /// `--glob-case-insensitive`: the globs of `-g` match both ASCII cases of a letter.
    pub glob_case_insensitive: bool,
    /// `-g`: globs that override all rules.
    pub globs: Names,
    /// `--iglob`: globs after those, which match both ASCII cases of a letter.
    pub iglobs: Names,
    /// `--type-add`: definitions of file types.
    pub type_add: Names,
    /// `-t`: the names of file types that are listed.
    pub types: Names,
    /// `-T`: the names of file types that are ignored.
    pub types_not: Names,
}

impl Options {
    /// Nothing is asked for, and there is no root. It allocates nothing.
    pub(crate) fn empty(alloc: Global) -> Options {
        Options {
            roots: Vec::new(alloc),
            is_bare: false,
            paths: Vec::new(alloc),
            stdin: false,
            only_ignored: false,
            reasons: false,
            files: false,
            dirs: false,
            links: false,
            null: false,
            quiet: false,
            stats: false,
            no_messages: false,
            no_ignore_messages: false,
            no_repositories: false,
            order: Order::ByName,
            hidden: false,
            no_ignore: false,
            unrestricted: 0,
            no_ignore_vcs: false,
            no_ignore_parent: false,
            no_ignore_global: false,
            no_ignore_exclude: false,
            no_ignore_dot: false,
            no_require_git: false,
            no_ignore_files: false,
            ignore_files: Names::new(Vec::new(alloc)),
            ignore_names: Names::new(Vec::new(alloc)),
            ignore_file_case_insensitive: false,
            git_trailing_spaces: false,
            follow: false,
            max_depth: None,
            min_depth: None,
            max_filesize: None,
            one_file_system: false,
            glob_case_insensitive: false,
            globs: Names::new(Vec::new(alloc)),
            iglobs: Names::new(Vec::new(alloc)),
            type_add: Names::new(Vec::new(alloc)),
            types: Names::new(Vec::new(alloc)),
            types_not: Names::new(Vec::new(alloc)),
        }
    }
}
