//! A set of patterns.
ghost use Rattle.std.specs.Prelude.{◌≡◌, ◌≤◌, IfOk, IfErr, IsOk, map};
ghost use Rattle.std.specs.Str.{chars};
ghost use Rattle.ignore_base.specs.Problem.{problem_of, memory};
ghost use Rattle.ignore_set.specs.Sets.{AreShort, IsLastMatch, members, pass_bound};

use crate::entry::{Entry, entries_of};
use crate::index::Index;
use ignore_base::Error;
use ignore_glob::glob::Pattern;
use std::marker::Model;

/// Patterns in order, each for all texts or for directories only. It is asked for the last that
/// matches, as a later rule overrides an earlier one.
///
/// A pattern of literals, alone or after `**/` or `**/*`, is looked up by the text; only the others
/// are tried by a pass over their positions.
#[derive(Drop)]
pub struct PatternSet {
    entries: Vec<Entry>,
    index: Index,
}

impl Model for PatternSet {
    ghost use Rattle.std.specs.Prelude.{List};
    ghost use Rattle.std.specs.Coded.{coded_list};
    ghost use Rattle.ignore_set.specs.Index.{IsIndexOf};
    ghost use Rattle.ignore_set.specs.Sets.{Member, member_code};

    ghost Value = { List Member };

    ghost coded = { coded_list member_code };

    ghost view = { λ s. s.entries.items };

    ghost invariant = { λ s. IsIndexOf s.index s.entries.items };
}

impl PatternSet {
    /// The set of these patterns, in their order; `true` beside a pattern restricts it to
    /// directories.
    ///
    /// # Errors
    /// `Error::Memory` alone.
    pub fn new(patterns: Vec<(Pattern, bool)>) -> Result<PatternSet, Error>
        ensures value { IfOk result (λ set. set ≡ members patterns.items) }
        ensures out_of_memory { IfErr result (λ e. problem_of e ≡ memory) }
    {
        let alloc = *patterns.allocator();
        let entries = entries_of(patterns)?;
        let index = Index::new(alloc, &entries)?;
        Ok(PatternSet { entries, index })
    }

    /// The greatest index of a pattern that matches the text and allows its kind.
    ///
    /// # Errors
    /// `Error::Memory` alone, and none where all patterns are without braces and have at most 62
    /// positions: no memory is requested.
    pub fn last_match(&self, text: &str, is_dir: bool) -> Result<Option<usize>, Error>
        ensures value { IfOk result (λ last. IsLastMatch (chars text.now) is_dir self.now last) }
        ensures out_of_memory { IfErr result (λ e. problem_of e ≡ memory) }
        ensures succeeds { AreShort self.now → IsOk result }
    {
        Ok(self.index.last_match(&self.entries, text, is_dir)?)
    }

    /// As `last_match`, with how many patterns this call tried by a pass over positions: at most
    /// those that fold case or aren't one or more literals, alone or after `**/` or `**/*`.
    ///
    /// # Errors
    /// As `last_match`.
    pub fn last_match_counted(
        &self,
        text: &str,
        is_dir: bool,
    ) -> Result<(Option<usize>, u64), Error>
        ensures value { IfOk result (λ r. IsLastMatch (chars text.now) is_dir self.now r.0) }
        ensures count { IfOk result (λ r. r.1 ≤ pass_bound self.now) }
        ensures out_of_memory { IfErr result (λ e. problem_of e ≡ memory) }
        ensures succeeds { AreShort self.now → IsOk result }
    {
        Ok(self.index.last_match_counted(&self.entries, text, is_dir)?)
    }
}
