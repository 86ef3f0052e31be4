//! Filters: which files of rules are read, and what else is ignored.
ghost use Rattle.std.specs.Prelude.{◌≡◌};
ghost use Rattle.ignore.specs.Builder.{with_standard_filters, with_hidden, with_parents, with_ignore, with_git_global, with_git_ignore};
ghost use Rattle.ignore.specs.Builder.{with_git_exclude, with_require_git, with_case_insensitive, with_git_trailing_spaces};

use crate::options::WalkOptions;

impl WalkOptions {
    /// As `WalkBuilder::standard_filters`.
    pub fn standard_filters(&mut self, yes: bool) -> &mut Self
        ensures same_reference { result.ghost_name ≡ self.entry.ghost_name }
        ensures value { result.now ≡ with_standard_filters self.old yes }
    {
        self.hidden(yes)
            .parents(yes)
            .ignore(yes)
            .git_ignore(yes)
            .git_global(yes)
            .git_exclude(yes)
    }

    /// As `WalkBuilder::hidden`.
    pub fn hidden(&mut self, yes: bool) -> &mut Self
        ensures same_reference { result.ghost_name ≡ self.entry.ghost_name }
        ensures value { result.now ≡ with_hidden self.old yes }
    {
        let settings = &mut self.settings;
        settings.inner.hidden = yes;
        self
    }

    /// As `WalkBuilder::parents`.
    pub fn parents(&mut self, yes: bool) -> &mut Self
        ensures same_reference { result.ghost_name ≡ self.entry.ghost_name }
        ensures value { result.now ≡ with_parents self.old yes }
    {
        let settings = &mut self.settings;
        settings.inner.parents = yes;
        self
    }

    /// As `WalkBuilder::ignore`.
    pub fn ignore(&mut self, yes: bool) -> &mut Self
        ensures same_reference { result.ghost_name ≡ self.entry.ghost_name }
        ensures value { result.now ≡ with_ignore self.old yes }
    {
        let settings = &mut self.settings;
        settings.inner.ignore = yes;
        self
    }

    /// As `WalkBuilder::git_global`.
    pub fn git_global(&mut self, yes: bool) -> &mut Self
        ensures same_reference { result.ghost_name ≡ self.entry.ghost_name }
        ensures value { result.now ≡ with_git_global self.old yes }
    {
        let settings = &mut self.settings;
        settings.inner.git_global = yes;
        self
    }

    /// As `WalkBuilder::git_ignore`.
    pub fn git_ignore(&mut self, yes: bool) -> &mut Self
        ensures same_reference { result.ghost_name ≡ self.entry.ghost_name }
        ensures value { result.now ≡ with_git_ignore self.old yes }
    {
        let settings = &mut self.settings;
        settings.inner.git_ignore = yes;
        self
    }

    /// As `WalkBuilder::git_exclude`.
    pub fn git_exclude(&mut self, yes: bool) -> &mut Self
        ensures same_reference { result.ghost_name ≡ self.entry.ghost_name }
        ensures value { result.now ≡ with_git_exclude self.old yes }
    {
        let settings = &mut self.settings;
        settings.inner.git_exclude = yes;
        self
    }

    /// As `WalkBuilder::require_git`.
    pub fn require_git(&mut self, yes: bool) -> &mut Self
        ensures same_reference { result.ghost_name ≡ self.entry.ghost_name }
        ensures value { result.now ≡ with_require_git self.old yes }
    {
        let settings = &mut self.settings;
        settings.inner.require_git = yes;
        self
    }

    /// As `WalkBuilder::ignore_case_insensitive`.
    pub fn ignore_case_insensitive(&mut self, yes: bool) -> &mut Self
        ensures same_reference { result.ghost_name ≡ self.entry.ghost_name }
        ensures value { result.now ≡ with_case_insensitive self.old yes }
    {
        let settings = &mut self.settings;
        settings.inner.case_insensitive = yes;
        self
    }

    /// As `WalkBuilder::git_trailing_spaces`.
    pub fn git_trailing_spaces(&mut self, yes: bool) -> &mut Self
        ensures same_reference { result.ghost_name ≡ self.entry.ghost_name }
        ensures value { result.now ≡ with_git_trailing_spaces self.old yes }
    {
        let settings = &mut self.settings;
        settings.inner.git_trailing_spaces = yes;
        self
    }
}
