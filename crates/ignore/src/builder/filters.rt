//! Filters: which files of rules are read, and what else is ignored.
ghost use Rattle.std.specs.Prelude.{◌≡◌};
ghost use Rattle.ignore.specs.Builder.{with_standard_filters, with_hidden, with_parents, with_ignore, with_git_global, with_git_ignore};
ghost use Rattle.ignore.specs.Builder.{with_git_exclude, with_require_git, with_case_insensitive, with_git_trailing_spaces};

use crate::builder::WalkBuilder;

impl WalkBuilder {
    /// Sets the six standard filters: `hidden`, `parents`, `ignore`, `git_ignore`, `git_global` and
    /// `git_exclude`. All other settings stay, `require_git` and `git_trailing_spaces` among them.
    pub fn standard_filters(&mut self, yes: bool) -> &mut Self
        ensures same_reference { result.ghost_name ≡ self.entry.ghost_name }
        ensures value { result.now ≡ record self.old { options = with_standard_filters self.old.options yes } }
    {
        self.options.standard_filters(yes);
        self
    }

    /// Whether hidden entries are ignored: those whose name begins with a dot. It is on at first.
    pub fn hidden(&mut self, yes: bool) -> &mut Self
        ensures same_reference { result.ghost_name ≡ self.entry.ghost_name }
        ensures value { result.now ≡ record self.old { options = with_hidden self.old.options yes } }
    {
        self.options.hidden(yes);
        self
    }

    /// Whether the rules of the directories above a root count. It is on at first.
    pub fn parents(&mut self, yes: bool) -> &mut Self
        ensures same_reference { result.ghost_name ≡ self.entry.ghost_name }
        ensures value { result.now ≡ record self.old { options = with_parents self.old.options yes } }
    {
        self.options.parents(yes);
        self
    }

    /// Whether `.ignore` files are read. They have the syntax of gitignore files and precede them.
    /// It is on at first.
    pub fn ignore(&mut self, yes: bool) -> &mut Self
        ensures same_reference { result.ghost_name ≡ self.entry.ghost_name }
        ensures value { result.now ≡ record self.old { options = with_ignore self.old.options yes } }
    {
        self.options.ignore(yes);
        self
    }

    /// Whether the global file is read, which git's configuration names (`core.excludesFile`). It
    /// is on at first.
    pub fn git_global(&mut self, yes: bool) -> &mut Self
        ensures same_reference { result.ghost_name ≡ self.entry.ghost_name }
        ensures value { result.now ≡ record self.old { options = with_git_global self.old.options yes } }
    {
        self.options.git_global(yes);
        self
    }

    /// Whether `.gitignore` files are read, as in gitignore(5). It is on at first.
    pub fn git_ignore(&mut self, yes: bool) -> &mut Self
        ensures same_reference { result.ghost_name ≡ self.entry.ghost_name }
        ensures value { result.now ≡ record self.old { options = with_git_ignore self.old.options yes } }
    {
        self.options.git_ignore(yes);
        self
    }

    /// Whether the exclude files of repositories are read (`.git/info/exclude`). It is on at first.
    pub fn git_exclude(&mut self, yes: bool) -> &mut Self
        ensures same_reference { result.ghost_name ≡ self.entry.ghost_name }
        ensures value { result.now ≡ record self.old { options = with_git_exclude self.old.options yes } }
    {
        self.options.git_exclude(yes);
        self
    }

    /// Whether git's rules apply only in a repository, a directory with `.git` or `.jj` in it. It
    /// is on at first.
    pub fn require_git(&mut self, yes: bool) -> &mut Self
        ensures same_reference { result.ghost_name ≡ self.entry.ghost_name }
        ensures value { result.now ≡ record self.old { options = with_require_git self.old.options yes } }
    {
        self.options.require_git(yes);
        self
    }

    /// Whether the rules of the files of directories and of the global file match both ASCII cases
    /// of a letter. Files that `add_ignore` adds are always case sensitive. It is off at first.
    pub fn ignore_case_insensitive(&mut self, yes: bool) -> &mut Self
        ensures same_reference { result.ghost_name ≡ self.entry.ghost_name }
        ensures value { result.now ≡ record self.old { options = with_case_insensitive self.old.options yes } }
    {
        self.options.ignore_case_insensitive(yes);
        self
    }

    /// Whether trailing spaces of lines are read by git's own rule
    /// (`GitignoreBuilder::git_trailing_spaces`). It reaches the files of directories and the
    /// global file as it is set when matchers or a walk are built, and a file that `add_ignore`
    /// adds as it is set then. It is off at first.
    pub fn git_trailing_spaces(&mut self, yes: bool) -> &mut Self
        ensures same_reference { result.ghost_name ≡ self.entry.ghost_name }
        ensures value { result.now ≡ record self.old { options = with_git_trailing_spaces self.old.options yes } }
    {
        self.options.git_trailing_spaces(yes);
        self
    }
}
