//! Limits: how deep, how large, how many steps, which links and devices.
ghost use Rattle.std.specs.Prelude.{◌≡◌};
ghost use Rattle.ignore.specs.Builder.{with_max_depth, with_min_depth, with_max_filesize, with_limit};
ghost use Rattle.ignore.specs.Builder.{with_follow_links, with_same_file_system};

use crate::options::WalkOptions;

impl WalkOptions {
    /// As `WalkBuilder::max_depth`.
    pub fn max_depth(&mut self, depth: Option<usize>) -> &mut Self
        ensures same_reference { result.ghost_name ≡ self.entry.ghost_name }
        ensures value { result.now ≡ with_max_depth self.old depth }
    {
        self.settings.set_max_depth(depth);
        self
    }

    /// As `WalkBuilder::min_depth`.
    pub fn min_depth(&mut self, depth: Option<usize>) -> &mut Self
        ensures same_reference { result.ghost_name ≡ self.entry.ghost_name }
        ensures value { result.now ≡ with_min_depth self.old depth }
    {
        self.settings.set_min_depth(depth);
        self
    }

    /// As `WalkBuilder::max_filesize`.
    pub fn max_filesize(&mut self, size: Option<u64>) -> &mut Self
        ensures same_reference { result.ghost_name ≡ self.entry.ghost_name }
        ensures value { result.now ≡ with_max_filesize self.old size }
    {
        let settings = &mut self.settings;
        settings.inner.max_filesize = size;
        self
    }

    /// As `WalkBuilder::limit`.
    pub fn limit(&mut self, steps: u64) -> &mut Self
        ensures same_reference { result.ghost_name ≡ self.entry.ghost_name }
        ensures value { result.now ≡ with_limit self.old steps }
    {
        self.limit = steps;
        self
    }

    /// As `WalkBuilder::follow_links`.
    pub fn follow_links(&mut self, yes: bool) -> &mut Self
        ensures same_reference { result.ghost_name ≡ self.entry.ghost_name }
        ensures value { result.now ≡ with_follow_links self.old yes }
    {
        let settings = &mut self.settings;
        settings.inner.follow_links = yes;
        self
    }

    /// As `WalkBuilder::same_file_system`.
    pub fn same_file_system(&mut self, yes: bool) -> &mut Self
        ensures same_reference { result.ghost_name ≡ self.entry.ghost_name }
        ensures value { result.now ≡ with_same_file_system self.old yes }
    {
        self.same_file_system = yes;
        self
    }
}
