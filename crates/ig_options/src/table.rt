//! The options of the program, as a table: the parser, the help and the completions go by it.

use crate::words::Task;

/// What follows an option.
#[derive(Clone, Copy)]
pub enum Takes {
    /// Nothing: it is a flag.
    Nothing,
    /// Nothing: it is a switch, which the option of this long name takes back. Of the two the last
    /// one counts.
    Switch(&'static str),
    /// Nothing, and it counts how often it is given.
    Times,
    /// A value; the last one counts.
    One(&'static str),
    /// A value, and the option may be given several times.
    Many(&'static str),
    /// A whole number; the last one counts.
    Number,
    /// One of these words; the last one counts.
    Word(&'static [&'static str]),
}

/// An option: its long name without the hyphens, which is its id as well; its short name, and those
/// that have one are in the short help; what follows it; what it is for; and what it does.
pub type Row = (
    &'static str,
    Option<char>,
    Takes,
    &'static str,
    &'static str,
);

/// Further names of options, a letter for the short one or a long one, which the help has too.
pub const ALIASES: [(&str, Alias); 2] = [
    ("hidden", Alias::Short('.')),
    ("null", Alias::Long("print0")),
];

/// A further name of an option.
#[derive(Clone, Copy)]
pub enum Alias {
    /// A letter after one hyphen.
    Short(char),
    /// A name after two hyphens.
    Long(&'static str),
}

/// What an option does in a command, where that isn't what it does in `ig ls`.
pub const ELSEWHERE: [(Task, &str, &str); 21] = [
    (
        Task::Ignored,
        "hidden",
        "Without effect: hidden entries are met",
    ),
    (
        Task::Unused,
        "hidden",
        "Without effect: hidden entries are met",
    ),
    (Task::Why, "hidden", "No path is ignored for being hidden"),
    (Task::Ignored, "unrestricted", "As --no-ignore"),
    (Task::Unused, "unrestricted", "As --no-ignore"),
    (
        Task::Ignored,
        "max-filesize",
        "A file above SIZE bytes, or with K, M or G, is ignored",
    ),
    (
        Task::Why,
        "max-filesize",
        "A file above SIZE bytes, or with K, M or G, is ignored",
    ),
    (
        Task::Why,
        "glob",
        "What GLOB doesn't match is ignored, or what it does with a leading !",
    ),
    (
        Task::Ignored,
        "glob",
        "What GLOB doesn't match is ignored, or what it does with a leading !",
    ),
    (
        Task::Why,
        "type",
        "Files of other types than TYPE are ignored (see ig types)",
    ),
    (
        Task::Ignored,
        "type",
        "Files of other types than TYPE are ignored (see ig types)",
    ),
    (Task::Why, "type-not", "Files of TYPE are ignored"),
    (Task::Ignored, "type-not", "Files of TYPE are ignored"),
    (
        Task::Why,
        "quiet",
        "Write nothing: the status says whether a path is ignored",
    ),
    (
        Task::Lint,
        "hidden",
        "Without effect: hidden entries are met",
    ),
    (Task::Lint, "unrestricted", "As --no-ignore"),
    (
        Task::Lint,
        "null",
        "End each field in NUL, and quote nothing",
    ),
    (
        Task::Lint,
        "quiet",
        "Write nothing: the status says whether anything is wrong",
    ),
    (
        Task::Same(None),
        "null",
        "End each field in NUL, and quote nothing",
    ),
    (
        Task::Same(None),
        "quiet",
        "Write nothing: the status says whether they differ",
    ),
    (
        Task::Same(None),
        "threads",
        "One thread compares, whatever N is",
    ),
];

/// The orders of `--sort`.
pub const ORDERS: [&str; 3] = ["name", "path", "none"];

pub(crate) const WHAT: &str = "What is listed";

pub(crate) const WHAT_OF_WHY: &str = "What is ignored";

pub(crate) const WHAT_OF_SAME: &str = "What is compared";

const RULES: &str = "Which rules count";

const HOW: &str = "How files of rules are read";

const PRINT: &str = "What is written";

const TAKE: &str = "Taken without effect";

/// Which kinds of entries are listed.
pub const KINDS: [Row; 3] = [
    (
        "files",
        None,
        Takes::Switch("no-files"),
        WHAT,
        "List files; without a kind all entries are listed",
    ),
    (
        "dirs",
        None,
        Takes::Switch("no-dirs"),
        WHAT,
        "List directories",
    ),
    (
        "links",
        None,
        Takes::Switch("no-links"),
        WHAT,
        "List symbolic links that aren't followed",
    ),
];

/// Which rules count.
pub const FILTERS: [Row; 12] = [
    (
        "hidden",
        Some('H'),
        Takes::Switch("no-hidden"),
        WHAT,
        "List hidden entries as well",
    ),
    (
        "no-ignore",
        Some('I'),
        Takes::Switch("ignore"),
        RULES,
        "No ignore file counts but those of --ignore-file",
    ),
    (
        "unrestricted",
        Some('u'),
        Takes::Times,
        RULES,
        "As --no-ignore; twice, as --hidden too",
    ),
    (
        "no-ignore-vcs",
        None,
        Takes::Switch("ignore-vcs"),
        RULES,
        "No rules of git: .gitignore, exclude, global",
    ),
    (
        "no-ignore-parent",
        None,
        Takes::Switch("ignore-parent"),
        RULES,
        "No rules of directories above a root",
    ),
    (
        "no-ignore-global",
        None,
        Takes::Switch("ignore-global"),
        RULES,
        "Not git's global ignore file",
    ),
    (
        "no-ignore-exclude",
        None,
        Takes::Switch("ignore-exclude"),
        RULES,
        "Not the .git/info/exclude of repositories",
    ),
    (
        "no-ignore-dot",
        None,
        Takes::Switch("ignore-dot"),
        RULES,
        "No .ignore files",
    ),
    (
        "no-ignore-files",
        None,
        Takes::Switch("ignore-files"),
        RULES,
        "Not the files of --ignore-file",
    ),
    (
        "no-require-git",
        None,
        Takes::Switch("require-git"),
        RULES,
        "Git's rules count outside of repositories too",
    ),
    (
        "ignore-file",
        None,
        Takes::Many("FILE"),
        RULES,
        "The rules of FILE count, after all others",
    ),
    (
        "ignore-name",
        None,
        Takes::Many("NAME"),
        RULES,
        "Files of rules of this name, before .ignore",
    ),
];

/// How files of rules are read.
pub const READING: [Row; 2] = [
    (
        "ignore-file-case-insensitive",
        None,
        Takes::Switch("no-ignore-file-case-insensitive"),
        HOW,
        "The rules of files match both cases",
    ),
    (
        "git-trailing-spaces",
        None,
        Takes::Switch("no-git-trailing-spaces"),
        HOW,
        "Trailing spaces are read as git reads them",
    ),
];

/// How far a walk goes.
pub const WALK: [Row; 3] = [
    (
        "follow",
        Some('L'),
        Takes::Switch("no-follow"),
        WHAT,
        "Follow symbolic links",
    ),
    (
        "min-depth",
        None,
        Takes::Number,
        WHAT,
        "At least N names below a root",
    ),
    (
        "one-file-system",
        None,
        Takes::Switch("no-one-file-system"),
        WHAT,
        "Stay on the device of each root",
    ),
];

/// How deep a list goes.
pub const DEPTH: [Row; 1] = [(
    "max-depth",
    Some('d'),
    Takes::Number,
    WHAT,
    "At most N names below a root",
)];

/// How large a file may be.
pub const SIZE: [Row; 1] = [(
    "max-filesize",
    None,
    Takes::One("SIZE"),
    WHAT,
    "No file above SIZE bytes, or with K, M or G",
)];

/// Globs and types of the command line.
pub const GLOBS: [Row; 8] = [
    (
        "glob",
        Some('g'),
        Takes::Many("GLOB"),
        WHAT,
        "List what GLOB matches, or not with a leading !",
    ),
    (
        "iglob",
        None,
        Takes::Many("GLOB"),
        WHAT,
        "As --glob, in both cases",
    ),
    (
        "glob-case-insensitive",
        None,
        Takes::Switch("no-glob-case-insensitive"),
        WHAT,
        "Each --glob as --iglob",
    ),
    (
        "exclude",
        Some('E'),
        Takes::Many("GLOB"),
        WHAT,
        "As --glob with a ! before GLOB, after those",
    ),
    (
        "extension",
        Some('e'),
        Takes::Many("EXT"),
        WHAT,
        "As --type of the files whose names end in .EXT",
    ),
    (
        "type",
        Some('t'),
        Takes::Many("TYPE"),
        WHAT,
        "List files of TYPE (see ig types)",
    ),
    (
        "type-not",
        Some('T'),
        Takes::Many("TYPE"),
        WHAT,
        "List no files of TYPE",
    ),
    (
        "type-add",
        None,
        Takes::Many("DEF"),
        WHAT,
        "Add a type, as web:*.css or web:include:js,html",
    ),
];

/// What a path ends in.
pub const ENDS: [Row; 1] = [(
    "null",
    Some('0'),
    Takes::Switch("no-null"),
    PRINT,
    "End each path in NUL, not in a newline",
)];

/// What is counted.
pub const STATS: [Row; 1] = [(
    "stats",
    None,
    Takes::Switch("no-stats"),
    PRINT,
    "Report counts and the time at the end",
)];

/// That nothing is written.
pub const QUIET: [Row; 1] = [(
    "quiet",
    Some('q'),
    Takes::Switch("no-quiet"),
    PRINT,
    "Write nothing: the status says whether anything is listed",
)];

/// The order of a list.
pub const ORDER: [Row; 2] = [
    (
        "sort",
        None,
        Takes::Word(&ORDERS),
        PRINT,
        "The order in a directory, name by default",
    ),
    (
        "sort-files",
        None,
        Takes::Switch("no-sort-files"),
        PRINT,
        "As --sort path",
    ),
];

/// That the file types are listed.
pub const TYPE_LIST: [Row; 1] = [(
    "type-list",
    None,
    Takes::Nothing,
    PRINT,
    "List the file types, as ig types does",
)];

/// What is reported.
pub const REPORTS: [Row; 2] = [
    (
        "no-messages",
        None,
        Takes::Switch("messages"),
        PRINT,
        "Report nothing that is wrong with what is read",
    ),
    (
        "no-ignore-messages",
        None,
        Takes::Switch("ignore-messages"),
        PRINT,
        "Report nothing that is wrong with files of rules",
    ),
];

/// What is taken so that words of other programs are no mistake.
pub const TAKEN: [Row; 2] = [
    (
        "threads",
        Some('j'),
        Takes::Number,
        TAKE,
        "One thread walks, whatever N is",
    ),
    (
        "no-config",
        None,
        Takes::Nothing,
        TAKE,
        "There is no configuration file",
    ),
];

/// The options of `ig ignored` alone.
pub const REASONS: [Row; 2] = [
    (
        "no-repositories",
        None,
        Takes::Switch("repositories"),
        WHAT,
        "List no folder with .git or .jj in it, at any depth",
    ),
    (
        "verbose",
        Some('v'),
        Takes::Switch("no-verbose"),
        PRINT,
        "Write the reason of each entry before it",
    ),
];

/// The options of `ig why` alone.
pub const WHY: [Row; 6] = [
    (
        "stdin",
        None,
        Takes::Nothing,
        PRINT,
        "Read the paths from standard input, a line each",
    ),
    (
        "zero",
        Some('z'),
        Takes::Nothing,
        PRINT,
        "Read and write with NUL in place of line ends and tabs",
    ),
    (
        "only-ignored",
        None,
        Takes::Switch("no-only-ignored"),
        PRINT,
        "Write no path that isn't ignored",
    ),
    (
        "verbose",
        Some('v'),
        Takes::Nothing,
        TAKE,
        "Each reason is written anyway",
    ),
    (
        "non-matching",
        Some('n'),
        Takes::Nothing,
        TAKE,
        "Each path is written, unless --only-ignored",
    ),
    (
        "no-index",
        None,
        Takes::Nothing,
        TAKE,
        "The index isn't read anyway",
    ),
];

/// The options of `ig same` alone.
pub const COMPARED: [Row; 1] = [(
    "ignored",
    None,
    Takes::Switch("no-ignored"),
    WHAT,
    "Only whether a path is ignored counts, for a tree with one file",
)];

/// How much of what `ig same` finds is written.
pub const PATHS: [Row; 1] = [(
    "paths",
    None,
    Takes::Number,
    PRINT,
    "Up to N paths, no two by the same pair of rules",
)];

/// The options of `ig lint` alone.
pub const JSON: [Row; 1] = [(
    "json",
    None,
    Takes::Switch("no-json"),
    PRINT,
    "Write each as an object of JSON, a line each",
)];

/// The options of `ig ls`.
pub const LIST: [&[Row]; 14] = [
    &KINDS, &FILTERS, &READING, &WALK, &DEPTH, &SIZE, &GLOBS, &ENDS, &STATS, &QUIET, &ORDER,
    &TYPE_LIST, &REPORTS, &TAKEN,
];

/// The options of `ig ignored`.
pub const IGNORED: [&[Row]; 12] = [
    &KINDS, &FILTERS, &READING, &DEPTH, &SIZE, &GLOBS, &ENDS, &STATS, &QUIET, &REASONS, &REPORTS,
    &TAKEN,
];

/// The options of `ig why`.
pub const ASKED: [&[Row]; 8] = [
    &FILTERS, &READING, &SIZE, &GLOBS, &WHY, &QUIET, &REPORTS, &TAKEN,
];

/// The options of `ig unused`.
pub const UNUSED: [&[Row]; 7] = [&FILTERS, &READING, &ENDS, &STATS, &QUIET, &REPORTS, &TAKEN];

/// The options of `ig same`.
pub const SAME: [&[Row]; 7] = [&COMPARED, &READING, &PATHS, &ENDS, &QUIET, &REPORTS, &TAKEN];

/// The options of `ig lint`.
pub const LINT: [&[Row]; 7] = [&FILTERS, &READING, &JSON, &ENDS, &QUIET, &REPORTS, &TAKEN];

/// The options of `ig types`.
pub const TYPES: [&[Row]; 1] = [&[(
    "type-add",
    None,
    Takes::Many("DEF"),
    WHAT,
    "Add a type, as web:*.css or web:include:js,html",
)]];
