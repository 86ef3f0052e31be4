//! Limits: how deep, how large, how many steps, which links and devices.
ghost use Rattle.std.specs.Prelude.{◌≡◌};
ghost use Rattle.ignore.specs.Builder.{with_max_depth, with_min_depth, with_max_filesize, with_limit};
ghost use Rattle.ignore.specs.Builder.{with_follow_links, with_same_file_system};

use crate::builder::WalkBuilder;

impl WalkBuilder {
    /// How many names below a root an entry may be. `None`, as at first, is no limit. Where it is
    /// below a least depth that is set, it becomes that one.
    pub fn max_depth(&mut self, depth: Option<usize>) -> &mut Self
        ensures same_reference { result.ghost_name ≡ self.entry.ghost_name }
        ensures value { result.now ≡ record self.old { options = with_max_depth self.old.options depth } }
    {
        self.options.max_depth(depth);
        self
    }

    /// How many names below a root an entry must be. `None`, as at first, is no limit. Where it is
    /// above a greatest depth that is set, it becomes that one.
    pub fn min_depth(&mut self, depth: Option<usize>) -> &mut Self
        ensures same_reference { result.ghost_name ≡ self.entry.ghost_name }
        ensures value { result.now ≡ record self.old { options = with_min_depth self.old.options depth } }
    {
        self.options.min_depth(depth);
        self
    }

    /// The size in bytes above which a file is ignored. `None`, as at first, is no limit.
    pub fn max_filesize(&mut self, size: Option<u64>) -> &mut Self
        ensures same_reference { result.ghost_name ≡ self.entry.ghost_name }
        ensures value { result.now ≡ record self.old { options = with_max_filesize self.old.options size } }
    {
        self.options.max_filesize(size);
        self
    }

    /// How many steps a walk may take: one for each root, for each thing that is listed, and for
    /// each directory whose listing is asked. At first it is the greatest number.
    pub fn limit(&mut self, steps: u64) -> &mut Self
        ensures same_reference { result.ghost_name ≡ self.entry.ghost_name }
        ensures value { result.now ≡ record self.old { options = with_limit self.old.options steps } }
    {
        self.options.limit(steps);
        self
    }

    /// Whether symbolic links are followed. It is off at first.
    pub fn follow_links(&mut self, yes: bool) -> &mut Self
        ensures same_reference { result.ghost_name ≡ self.entry.ghost_name }
        ensures value { result.now ≡ record self.old { options = with_follow_links self.old.options yes } }
    {
        self.options.follow_links(yes);
        self
    }

    /// Whether a walk stays on the device of each root: a directory on another one is yielded and
    /// not listed. It is off at first.
    pub fn same_file_system(&mut self, yes: bool) -> &mut Self
        ensures same_reference { result.ghost_name ≡ self.entry.ghost_name }
        ensures value { result.now ≡ record self.old { options = with_same_file_system self.old.options yes } }
    {
        self.options.same_file_system(yes);
        self
    }
}
