//! An index over patterns that their owner keeps.
ghost use Rattle.std.specs.Prelude.{◌≡◌, ◌+◌, ◌<◌, ◌≤◌, ◌^◌, ◌++◌, ◌∷◌, [], ℕ, IfOk, IfSome, IsOk, List, drop, length, map, string_bytes, take};
ghost use Rattle.std.specs.Str.{IsCharBoundary, IsUtf8, chars};
ghost use Rattle.ignore_glob.specs.Ends.{HasParent};
ghost use Rattle.ignore_set.specs.Buckets.{AreBucketsOf, IsPast};
ghost use Rattle.ignore_set.specs.Index.{IsIndexOf, IsExactOf};
ghost use Rattle.ignore_glob.specs.Forms.{other, form_of};
ghost use Rattle.ignore_glob.specs.Reading.{Matches};
ghost use Rattle.ignore_set.specs.Others.{IsMaskOver};
ghost use Rattle.ignore_set.specs.Parents.{indexes_at};
ghost use Rattle.ignore_set.specs.Sets.{Member, AreShort, IsLastMatch, pass_bound};

use crate::buckets::Buckets;
use crate::has_pattern::HasPattern;
use crate::haystack::Haystack;
use crate::needle::{Needle, put_needles};
use crate::parents::Parents;
use crate::scan::{Left, last_left};
use crate::table::Table;
use crate::text::Ending;
use ignore_glob::glob::{Key, Pattern};
use std::alloc::{AllocError, Global};

/// For dependents that keep values with patterns in a list of their own: what is needed to find the
/// last of them that matches a text.
///
/// A pattern of literals, alone or after `**/` or `**/*`, stands in a table under its text. Of the
/// others, one whose texts all have one parent stands under that, if no longer text is in all of
/// these. The rest have needles, texts without which they don't match; where there are many, the
/// last of them in the queried text is found by buckets. Those under the parent of the queried text
/// and those with a needle in it are tried one by one, from the last.
#[derive(Debug, Drop)]
pub struct Index {
    whole: Table,
    names: Table,
    ends: Table,
    others: Vec<Needle>,
    buckets: Buckets,
    parents: Parents,
}

impl Index {
    /// The index of no patterns.
    pub fn empty(alloc: Global) -> Index
        ensures value { IsIndexOf result [] }
        ensures none { length result.buckets.long.items ≡ 0 }
    {
        Index::with_parents(alloc, Parents::new(alloc))
    }

    /// The index of no patterns, with what parents are kept in.
    fn with_parents(alloc: Global, parents: Parents) -> Index
        requires { (parent : List ℕ) → indexes_at parents parent ≡ [] }
        ensures value { IsIndexOf result [] }
        ensures none { length result.buckets.long.items ≡ 0 }
    {
        Index {
            whole: Table::new(alloc),
            names: Table::new(alloc),
            ends: Table::new(alloc),
            others: Vec::new(alloc),
            buckets: Buckets::none(alloc),
            parents,
        }
    }

    /// The index of the patterns of these values, in their order.
    pub fn new<M: HasPattern>(alloc: Global, members: &[M]) -> Result<Index, AllocError>
        ensures value { IfOk result (λ index. IsIndexOf index (map M.member members.now)) }
    {
        let mut index = without_buckets(alloc, members)?;
        index.buckets = Buckets::if_many(alloc, index.others.as_slice())?;
        Ok(index)
    }

    /// The greatest index of a value whose pattern matches the text and allows its kind, among the
    /// values that this index was made of.
    ///
    /// # Errors
    /// None where all are without braces and have at most 62 positions: no memory is requested.
    pub fn last_match<M: HasPattern>(
        &self,
        members: &[M],
        text: &str,
        is_dir: bool,
    ) -> Result<Option<usize>, AllocError>
        requires { IsIndexOf self.now (map M.member members.now) }
        ensures value { IfOk result (λ last. IsLastMatch (chars text.now) is_dir (map M.member members.now) last) }
        ensures succeeds { AreShort (map M.member members.now) → IsOk result }
    {
        let (last, _) = self.last_match_counted(members, text, is_dir)?;
        Ok(last)
    }

    /// As `last_match`, with how many patterns this call tried by a pass over positions: at most
    /// those that fold case or aren't one or more literals, alone or after `**/` or `**/*`.
    ///
    /// # Errors
    /// As `last_match`.
    pub fn last_match_counted<M: HasPattern>(
        &self,
        members: &[M],
        text: &str,
        is_dir: bool,
    ) -> Result<(Option<usize>, u64), AllocError>
        requires { IsIndexOf self.now (map M.member members.now) }
        ensures value { IfOk result (λ r. IsLastMatch (chars text.now) is_dir (map M.member members.now) r.0) }
        ensures count { IfOk result (λ r. r.1 ≤ pass_bound (map M.member members.now)) }
        ensures succeeds { AreShort (map M.member members.now) → IsOk result }
    {
        self.last_counted_after(members, &mut Haystack::new(text), 0, is_dir)
    }

    /// As `last_match`, of what follows an offset in a text of which other indexes are asked too.
    /// Where the offset is within a character, or beyond the text, nothing matches.
    ///
    /// # Errors
    /// As `last_match`.
    pub fn last_match_after<M: HasPattern>(
        &self,
        members: &[M],
        haystack: &mut Haystack<'_>,
        offset: usize,
        is_dir: bool,
    ) -> Result<Option<usize>, AllocError>
        requires { IsIndexOf self.now (map M.member members.now) }
        ensures value { IsCharBoundary haystack.old offset
            → IfOk result (λ last. IsLastMatch (chars (drop offset haystack.old)) is_dir (map M.member members.now) last) }
        ensures within { IfOk result (λ last. IfSome last (λ i. i < length members.now)) }
        ensures same { haystack.new ≡ haystack.old }
        ensures succeeds { AreShort (map M.member members.now) → IsOk result }
    {
        let (last, _) = self.last_counted_after(members, haystack, offset, is_dir)?;
        Ok(last)
    }

    fn last_counted_after<M: HasPattern>(
        &self,
        members: &[M],
        haystack: &mut Haystack<'_>,
        offset: usize,
        is_dir: bool,
    ) -> Result<(Option<usize>, u64), AllocError>
        requires { IsIndexOf self.now (map M.member members.now) }
        ensures value { IsCharBoundary haystack.old offset
            → IfOk result (λ r. IsLastMatch (chars (drop offset haystack.old)) is_dir (map M.member members.now) r.0) }
        ensures within { IfOk result (λ r. IfSome r.0 (λ i. i < length members.now)) }
        ensures count { IfOk result (λ r. r.1 ≤ pass_bound (map M.member members.now)) }
        ensures same { haystack.new ≡ haystack.old }
        ensures succeeds { AreShort (map M.member members.now) → IsOk result }
    {
        let whole = haystack.text();
        if !whole.is_char_boundary(offset) {
            return Ok((None, 0));
        }
        let text = &whole[offset..];
        let exact = self.last_exact(text, is_dir);
        let needles = self.needles_before_end(text);
        let listed = self.parents.under(text);
        let left = Left {
            needles,
            mask: mask_for(needles, haystack, offset),
            under: listed,
        };
        let (after, passes) = last_left(members, &left, exact, text, is_dir)?;
        Ok((after.checked_sub(1), passes))
    }

    /// One more than the greatest index that the tables have for the text.
    fn last_exact(&self, text: &str, is_dir: bool) -> usize
        ensures { (ms : List Member) → IsIndexOf self.now ms → IsExactOf text.now is_dir ms result }
    {
        let whole = self.whole.under_whole(text, is_dir);
        let name = self.names.under_ends(Ending::Name, text, is_dir);
        let end = self.ends.under_ends(Ending::End, text, is_dir);
        whole.max(name).max(end)
    }

    /// The needles before a place from which none is in the text.
    fn needles_before_end(&self, text: &str) -> &[Needle]
        requires { 0 < length self.now.buckets.long.items → AreBucketsOf self.now.buckets self.now.others.items }
        ensures { (end : ℕ) × (result.now ≡ take end self.now.others.items) × IsPast text.now self.now.others.items end }
    {
        let end = self.end_of(text);
        &self.others.as_slice()[..end]
    }

    /// A place from which no needle is in the text.
    fn end_of(&self, text: &str) -> usize
        requires { 0 < length self.now.buckets.long.items → AreBucketsOf self.now.buckets self.now.others.items }
        ensures past { IsPast text.now self.now.others.items result }
        ensures within { result ≤ length self.now.others.items }
    {
        if self.buckets.is_empty() {
            return self.others.len();
        }
        self.buckets.end(self.others.as_slice(), text)
    }

    /// Adds the pattern that follows those that the index has, which has no buckets yet.
    fn add(&mut self, pattern: &Pattern, index: usize, only_dir: bool) -> Result<(), AllocError>
        requires fits { index + 1 < 2 ^ 64 }
        requires none { length self.now.buckets.long.items ≡ 0 }
        ensures { IfOk result (λ _. (length self.new.buckets.long.items ≡ 0) × ((ms : List Member) (m : Member) → IsIndexOf self.old ms
            → length ms ≡ index → m.reading ≡ pattern.now → m.only_dir ≡ only_dir → IsIndexOf self.new (ms ++ m ∷ []))) }
    {
        match pattern.key()? {
            Key::Whole(text) => self.whole.put(text, index, only_dir),
            Key::Name(text) => self.names.put(text, index, only_dir),
            Key::End(text) => self.ends.put(text, index, only_dir),
            Key::Other => self.add_other(pattern, index),
        }
    }

    /// As `add`, of a pattern that has no key.
    fn add_other(&mut self, pattern: &Pattern, index: usize) -> Result<(), AllocError>
        requires none { length self.now.buckets.long.items ≡ 0 }
        ensures { IfOk result (λ _. (length self.new.buckets.long.items ≡ 0) × ((ms : List Member) (m : Member) → IsIndexOf self.old ms
            → length ms ≡ index → m.reading ≡ pattern.now → form_of m.reading ≡ other → IsIndexOf self.new (ms ++ m ∷ []))) }
    {
        let needles = pattern.needles()?;
        match parent_for(pattern, needles.as_slice())? {
            Some(parent) => self.parents.put(parent, index),
            None => put_needles(&mut self.others, needles, index),
        }
    }
}

fn without_buckets<M: HasPattern>(alloc: Global, members: &[M]) -> Result<Index, AllocError>
    ensures { IfOk result (λ index. IsIndexOf index (map M.member members.now)) }
{
    let mut index = Index::with_parents(alloc, Parents::for_many(alloc, members.len())?);
    for (i, member) in members.iter().enumerate() {
        index.add(member.pattern(), i, member.is_only_dir())?;
    }
    Ok(index)
}

/// A mask over what follows an offset, where there are needles.
fn mask_for(needles: &[Needle], haystack: &mut Haystack<'_>, offset: usize) -> u64
    ensures over { 0 < length needles.now → IsMaskOver (drop offset haystack.old) result }
    ensures same { haystack.new ≡ haystack.old }
{
    if needles.is_empty() {
        return 0;
    }
    haystack.mask_from(offset)
}

/// The parent of all texts that the pattern matches, where one is known and none of its needles is
/// longer: it says more than these do.
fn parent_for(pattern: &Pattern, needles: &[String]) -> Result<Option<String>, AllocError>
    ensures { IfOk result (λ found. IfSome found (λ parent. (text : List ℕ) → IsUtf8 text → Matches pattern.now (chars text)
        → HasParent (string_bytes parent) text)) }
{
    match pattern.parent()? {
        Some(parent) => {
            if longest_of(needles) > parent.as_str().len() {
                Ok(None)
            } else {
                Ok(Some(parent))
            }
        }
        None => Ok(None),
    }
}

/// The length of the longest text.
fn longest_of(texts: &[String]) -> usize {
    let mut longest = 0usize;
    for text in texts {
        longest = longest.max(text.as_str().len());
    }
    longest
}
