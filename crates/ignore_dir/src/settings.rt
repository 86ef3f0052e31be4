//! The settings by which directories are loaded and paths are matched.
ghost use Rattle.std.specs.Prelude.{◌≡◌, ◌++◌, ◌∷◌, [], ℕ, List, IfOk, OnOk, OnErr, map, length};

use ignore_files::Name;
use std::alloc::{AllocError, Global};
use std::marker::Model;

/// Names of files, in the order in which they were given, which contracts see as a list.
#[derive(Debug, Drop)]
pub struct Names {
    items: Vec<Name>,
}

impl Model for Names {
    ghost Value = { List (List ℕ) };

    ghost view = { λ s. s.items.items };
}

impl Names {
    /// These names. It allocates nothing.
    pub fn new(items: Vec<Name>) -> Names
        ensures { result ≡ items.items }
    {
        Names { items }
    }

    /// The names.
    pub fn as_slice(&self) -> &[Name]
        ensures { result.now ≡ self.now }
    {
        self.items.as_slice()
    }

    /// Appends a name.
    ///
    /// # Errors
    /// Out of memory, and then the names are as before.
    pub fn push(&mut self, name: &str) -> Result<(), AllocError>
        ensures added { OnOk result (self.new ≡ self.old ++ name.now ∷ []) }
        ensures unchanged { OnErr result (self.new ≡ self.old) }
    {
        let name = Name::new(String::from_str(*self.items.allocator(), name)?);
        self.items.push(name)?;
        Ok(())
    }
}

impl Clone for Names {
    ghost use Rattle.std.specs.Prelude.{◌≡◌};

    ghost is_clone = { λ s c. c ≡ s };

    fn clone(&self) -> Result<Names, AllocError> {
        let items = self.as_slice();
        let mut names = Names::new(Vec::new(*self.items.allocator()));
        for name in items {
            names.push(name.as_str())?;
        }
        Ok(names)
    }
}

/// Which filters are on, how files of rules are read, and the limits of a query.
#[derive(Debug, Drop)]
pub struct Settings {
    /// The names of custom files of rules: a later one overrides an earlier one.
    pub custom: Names,
    /// Whether hidden entries are ignored.
    pub hidden: bool,
    /// Whether the rules of the directories above a root count.
    pub parents: bool,
    /// Whether `.ignore` files are read.
    pub ignore: bool,
    /// Whether the global file of git's configuration is read.
    pub git_global: bool,
    /// Whether `.gitignore` files are read.
    pub git_ignore: bool,
    /// Whether the exclude files of repositories are read.
    pub git_exclude: bool,
    /// Whether git's rules apply only in a repository.
    pub require_git: bool,
    /// Whether the rules of files match both ASCII cases of a letter.
    pub case_insensitive: bool,
    /// Whether trailing spaces of the lines of files are read by git's own rule.
    pub git_trailing_spaces: bool,
    /// Whether symbolic links are followed.
    pub follow_links: bool,
    /// How many names below a root an entry must be.
    pub min_depth: Option<usize>,
    /// How many names below a root an entry may be.
    pub max_depth: Option<usize>,
    /// The size in bytes above which a file is ignored.
    pub max_filesize: Option<u64>,
}

impl Settings {
    ghost use Rattle.std.specs.Prelude.{◌≡◌};
    ghost use Rattle.ignore_dir.specs.Standard.{standard};

    /// The settings of a builder at first: the six standard filters and `require_git` are on, and
    /// all else is off or unset. It allocates nothing.
    pub fn standard(alloc: Global) -> Settings
        ensures { result ≡ standard }
    {
        Settings {
            custom: Names::new(Vec::new(alloc)),
            hidden: true,
            parents: true,
            ignore: true,
            git_global: true,
            git_ignore: true,
            git_exclude: true,
            require_git: true,
            case_insensitive: false,
            git_trailing_spaces: false,
            follow_links: false,
            min_depth: None,
            max_depth: None,
            max_filesize: None,
        }
    }
}

impl Clone for Settings {
    ghost use Rattle.std.specs.Prelude.{◌≡◌};

    ghost is_clone = { λ s c. c ≡ s };

    fn clone(&self) -> Result<Settings, AllocError> {
        Ok(Settings {
            custom: self.custom.clone()?,
            hidden: self.hidden,
            parents: self.parents,
            ignore: self.ignore,
            git_global: self.git_global,
            git_ignore: self.git_ignore,
            git_exclude: self.git_exclude,
            require_git: self.require_git,
            case_insensitive: self.case_insensitive,
            git_trailing_spaces: self.git_trailing_spaces,
            follow_links: self.follow_links,
            min_depth: self.min_depth,
            max_depth: self.max_depth,
            max_filesize: self.max_filesize,
        })
    }
}
