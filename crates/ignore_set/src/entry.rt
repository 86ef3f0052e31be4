//! One pattern of a set.
ghost use Rattle.std.specs.Prelude.{◌≡◌, map, IfOk};
ghost use Rattle.ignore_set.specs.Sets.{members};

use crate::has_pattern::HasPattern;
use ignore_glob::glob::Pattern;
use std::alloc::AllocError;
use std::marker::Model;

#[derive(Drop)]
pub(crate) struct Entry {
    pattern: Pattern,
    only_dir: bool,
}

impl Model for Entry {
    ghost use Rattle.ignore_set.specs.Sets.{Member, member_code};

    ghost Value = { Member };

    ghost coded = { member_code };

    ghost view = { λ e. record { reading = e.pattern; only_dir = e.only_dir } };
}

impl HasPattern for Entry {
    ghost member = { λ e. e };

    fn pattern(&self) -> &Pattern {
        &self.pattern
    }

    fn is_only_dir(&self) -> bool {
        self.only_dir
    }
}

pub(crate) fn entries_of(patterns: Vec<(Pattern, bool)>) -> Result<Vec<Entry>, AllocError>
    ensures { IfOk result (λ entries. entries.items ≡ members patterns.items) }
{
    let mut entries = Vec::new(*patterns.allocator());
    for (pattern, only_dir) in patterns {
        entries.push(Entry { pattern, only_dir })?;
    }
    Ok(entries)
}
