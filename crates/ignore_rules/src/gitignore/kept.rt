//! What a matcher keeps: its rules, and an index of them.
ghost use Rattle.std.specs.Prelude.{◌≡◌, IfOk, IsOk, drop, map, string_bytes};
ghost use Rattle.std.specs.Str.{IsCharBoundary, chars};
ghost use Rattle.ignore_base.specs.Match.{match_map};
ghost use Rattle.ignore_set.specs.Index.{IsIndexOf};
ghost use Rattle.ignore_rules.specs.Answer.{list_answer};
ghost use Rattle.ignore_rules.specs.Kept.{kept_rules};
ghost use Rattle.ignore_rules.specs.RuleIndex.{AreShortRules, rule_member};
ghost use Rattle.ignore_rules.specs.Rules.{empty, ignore_count, whitelist_count};

use crate::gitignore::glob::Glob;
use ignore_base::Match;
use ignore_glob::glob::laws::matching_is_decided;
use ignore_set::{Haystack, Index};
use std::alloc::{AllocError, Global};
use std::marker::Model;
use std::sync::Arc;

/// Rules in order, the root that they are relative to, and how many of them whitelist.
#[derive(Debug, Drop)]
pub(crate) struct RootedRules {
    root: String,
    globs: Vec<Glob>,
    whitelists: usize,
}

impl Model for RootedRules {
    ghost use Rattle.std.specs.Prelude.{◌≡◌, string_bytes};
    ghost use Rattle.ignore_rules.specs.Rules.{Ruleset, whitelist_count};
    ghost use Rattle.ignore_rules.specs.RuleCodes.{ruleset_code};

    ghost Value = { Ruleset };

    ghost coded = { ruleset_code };

    ghost view = { λ r. record { root = string_bytes r.root; rules = r.globs.items } };

    ghost invariant = { λ r. r.whitelists ≡ whitelist_count r.globs.items };
}

impl RootedRules {
    /// No rules, and no root. It allocates nothing.
    pub(crate) fn empty(alloc: Global) -> RootedRules
        ensures { result ≡ empty }
    {
        RootedRules {
            root: String::new(alloc),
            globs: Vec::new(alloc),
            whitelists: 0,
        }
    }

    pub(crate) fn new(root: String, globs: Vec<Glob>) -> RootedRules
        ensures { result ≡ record { root = string_bytes root; rules = globs.items } }
    {
        let whitelists = whitelist_count(&globs);
        RootedRules {
            root,
            globs,
            whitelists,
        }
    }

    pub(crate) fn root(&self) -> &str
        ensures { result.now ≡ self.now.root }
    {
        self.root.as_str()
    }

    pub(crate) fn globs(&self) -> &[Glob]
        ensures { result.now ≡ self.now.rules }
    {
        self.globs.as_slice()
    }

    pub(crate) fn num_ignores(&self) -> u64
        ensures { result ≡ ignore_count self.now.rules }
    {
        (self.globs.len() - self.whitelists) as u64
    }

    pub(crate) fn num_whitelists(&self) -> u64
        ensures { result ≡ whitelist_count self.now.rules }
    {
        self.whitelists as u64
    }

    pub(crate) fn allocator(&self) -> Global {
        *self.globs.allocator()
    }
}

impl Clone for RootedRules {
    ghost use Rattle.std.specs.Prelude.{◌≡◌};

    ghost is_clone = { λ r s. s ≡ r };

    fn clone(&self) -> Result<RootedRules, AllocError> {
        let root = self.root.clone()?;
        let globs = self.globs.clone()?;
        Ok(RootedRules {
            root,
            globs,
            whitelists: self.whitelists,
        })
    }
}

fn whitelist_count(globs: &[Glob]) -> usize
    ensures { result ≡ whitelist_count globs.now }
{
    globs.iter().filter(|glob| glob.is_whitelist()).count()
}

/// Rules, and an index of them.
#[derive(Debug, Drop)]
pub(crate) struct IndexedRules {
    rules: RootedRules,
    index: Index,
}

impl Model for IndexedRules {
    ghost use Rattle.std.specs.Prelude.{map};
    ghost use Rattle.ignore_set.specs.Index.{IsIndexOf};
    ghost use Rattle.ignore_rules.specs.Rules.{Ruleset};
    ghost use Rattle.ignore_rules.specs.RuleCodes.{ruleset_code};
    ghost use Rattle.ignore_rules.specs.RuleIndex.{rule_member};

    ghost Value = { Ruleset };

    ghost coded = { ruleset_code };

    ghost view = { λ i. i.rules };

    ghost invariant = { λ i. IsIndexOf i.index (map rule_member i.rules.rules) };
}

impl IndexedRules {
    fn rules(&self) -> &RootedRules
        ensures { result.now ≡ self.now }
    {
        &self.rules
    }

    /// The rules without their index.
    fn into_rules(self) -> RootedRules
        ensures { result ≡ self }
    {
        let IndexedRules { rules, .. } = self;
        rules
    }

    fn answer(
        &self,
        haystack: &mut Haystack<'_>,
        offset: usize,
        is_dir: bool,
    ) -> Result<Match<&Glob>, AllocError>
        ensures answered { IsCharBoundary haystack.old offset → IfOk result (λ m. match_map (λ g. g.now) m
            ≡ list_answer self.now.rules (chars (drop offset haystack.old)) is_dir) }
        ensures same { haystack.new ≡ haystack.old }
        ensures succeeds { AreShortRules self.now.rules → IsOk result }
    {
        indexed_answer(&self.index, self.rules.globs(), haystack, offset, is_dir)
    }
}

/// The rules of a matcher.
#[derive(Debug, Drop)]
pub(crate) enum Kept {
    /// With an index, for all clones of the matcher.
    Shared(Arc<IndexedRules>),
    /// No rules, or one; or where there was no memory for an index, and rules are asked one by one.
    Alone(RootedRules),
}

impl Kept {
    /// The rules, shared where there are several and there is memory for that. To ask a single one
    /// costs no more than to look it up.
    pub(crate) fn of(rules: RootedRules) -> Kept
        ensures { kept_rules result ≡ rules }
    {
        if rules.globs().len() < 2 {
            return Kept::Alone(rules);
        }
        match Index::new(rules.allocator(), rules.globs()) {
            Ok(index) => shared(IndexedRules { rules, index }),
            Err(_) => Kept::Alone(rules),
        }
    }

    pub(crate) fn rules(&self) -> &RootedRules
        ensures { result.now ≡ kept_rules self.now }
    {
        match self {
            Kept::Shared(kept) => kept.rules(),
            Kept::Alone(rules) => rules,
        }
    }

    /// The answer of the rules for what follows an offset in a text.
    pub(crate) fn answer(
        &self,
        haystack: &mut Haystack<'_>,
        offset: usize,
        is_dir: bool,
    ) -> Result<Match<&Glob>, AllocError>
        ensures answered { IsCharBoundary haystack.old offset → IfOk result (λ m. match_map (λ g. g.now) m
            ≡ list_answer (kept_rules self.now).rules (chars (drop offset haystack.old)) is_dir) }
        ensures same { haystack.new ≡ haystack.old }
        ensures succeeds { AreShortRules (kept_rules self.now).rules → IsOk result }
    {
        match self {
            Kept::Shared(kept) => kept.answer(haystack, offset, is_dir),
            Kept::Alone(rules) => answer_after(rules.globs(), haystack.text(), offset, is_dir),
        }
    }

    /// The same rules: those that are shared aren't copied.
    pub(crate) fn again(&self) -> Result<Kept, AllocError>
        ensures { IfOk result (λ kept. kept_rules kept ≡ kept_rules self.now) }
    {
        match self {
            Kept::Shared(kept) => Ok(Kept::Shared(kept.clone()?)),
            Kept::Alone(rules) => Ok(Kept::of(rules.clone()?)),
        }
    }
}

fn shared(indexed: IndexedRules) -> Kept
    ensures { kept_rules result ≡ indexed }
{
    match Arc::new(indexed.rules().allocator(), indexed) {
        Ok(kept) => Kept::Shared(kept),
        Err(refused) => Kept::Alone(refused.value.into_rules()),
    }
}

/// The answer of the rule that the index finds.
fn indexed_answer<'g>(
    index: &Index,
    globs: &'g [Glob],
    haystack: &mut Haystack<'_>,
    offset: usize,
    is_dir: bool,
) -> Result<Match<&'g Glob>, AllocError>
    requires { IsIndexOf index.now (map rule_member globs.now) }
    ensures answered { IsCharBoundary haystack.old offset
        → IfOk result (λ m. match_map (λ g. g.now) m ≡ list_answer globs.now (chars (drop offset haystack.old)) is_dir) }
    ensures same { haystack.new ≡ haystack.old }
    ensures succeeds { AreShortRules globs.now → IsOk result }
{
    matching_is_decided();
    match index.last_match_after(globs, haystack, offset, is_dir)? {
        Some(i) => Ok(globs[i].decision()),
        None => Ok(Match::None),
    }
}

/// As `last_answer`, for what follows an offset in a text.
fn answer_after<'g>(
    globs: &'g [Glob],
    text: &str,
    offset: usize,
    is_dir: bool,
) -> Result<Match<&'g Glob>, AllocError>
    ensures answered { IsCharBoundary text.now offset
        → IfOk result (λ m. match_map (λ g. g.now) m ≡ list_answer globs.now (chars (drop offset text.now)) is_dir) }
    ensures succeeds { AreShortRules globs.now → IsOk result }
{
    if !text.is_char_boundary(offset) {
        return Ok(Match::None);
    }
    last_answer(globs, &text[offset..], is_dir)
}

/// The answer of the rules asked one by one, from the last.
fn last_answer<'g>(
    globs: &'g [Glob],
    text: &str,
    is_dir: bool,
) -> Result<Match<&'g Glob>, AllocError>
    ensures answered { IfOk result (λ m. match_map (λ g. g.now) m ≡ list_answer globs.now (chars text.now) is_dir) }
    ensures succeeds { AreShortRules globs.now → IsOk result }
{
    for i in (0..globs.len()).rev() {
        let glob = &globs[i];
        if glob.applies(text, is_dir)? {
            return Ok(glob.decision());
        }
    }
    Ok(Match::None)
}
