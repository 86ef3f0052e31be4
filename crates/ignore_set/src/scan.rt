//! The patterns that no table of texts has are tried, from the last down, where they may match.
ghost use Rattle.std.specs.Prelude.{◌≡◌, ◌+◌, ◌<◌, ◌≤◌, ℕ, IfOk, IsOk, Some, drop, length, map, slice_get};
ghost use Rattle.std.specs.Str.{chars};
ghost use Rattle.ignore_glob.specs.Forms.{other, form_of};
ghost use Rattle.ignore_set.specs.Others.{AreBelow, AreCandidates, AreNeedlesOf, AreUnderOf, IndexedText, IsFoundFrom, IsFoundInTurn};
ghost use Rattle.ignore_set.specs.Others.{IsFoundUnder, IsMaskOver, IsWithinPasses};
ghost use Rattle.ignore_set.specs.Sets.{Member, Applies, AreShort, pass_bound};

use crate::candidate::applies;
use crate::has_pattern::HasPattern;
use crate::needle::Needle;
use std::alloc::AllocError;

/// The patterns that may match a text: those of which a needle is in it, which a mask over the text
/// sorts out, and those under its parent, by rising indexes.
#[derive(Drop)]
pub(crate) struct Left<'o> {
    pub(crate) needles: &'o [Needle],
    pub(crate) mask: u64,
    pub(crate) under: &'o [usize],
}

/// How far patterns were tried.
#[derive(Clone, Copy)]
struct Tried {
    /// One more than the index of the last pattern that applies; 0 where none does.
    after: usize,
    /// How many of those under the parent weren't tried.
    left: usize,
    /// How many passes over positions it took.
    passes: u64,
}

/// One more than the greatest index among these patterns that apply, and `best`, and how many
/// passes over positions that took.
pub(crate) fn last_left<M: HasPattern>(
    members: &[M],
    left: &Left<'_>,
    best: usize,
    text: &str,
    is_dir: bool,
) -> Result<(usize, u64), AllocError>
    requires candidates { AreCandidates text.now left.now.needles.now left.now.under.now (map M.member members.now) }
    requires over { 0 < length left.now.needles.now → IsMaskOver text.now left.now.mask }
    ensures value { IfOk result (λ r. IsFoundFrom text.now is_dir (map M.member members.now) best r.0) }
    ensures count { IfOk result (λ r. r.1 ≤ pass_bound (map M.member members.now)) }
    ensures succeeds { AreShort (map M.member members.now) → IsOk result }
{
    let first = last_needle(members, left, best, text, is_dir)?;
    if first.after > 0 {
        return Ok((first.after, first.passes));
    }
    let rest = last_under(members, &left.under[..first.left], best, text, is_dir)?;
    Ok((
        rest.after.max(best),
        first.passes.saturating_add(rest.passes),
    ))
}

/// The last of the patterns at an index or after it that applies, of those with a needle in the
/// text, and of those under its parent that come after one of these.
fn last_needle<M: HasPattern>(
    members: &[M],
    left: &Left<'_>,
    best: usize,
    text: &str,
    is_dir: bool,
) -> Result<Tried, AllocError>
    requires candidates { AreCandidates text.now left.now.needles.now left.now.under.now (map M.member members.now) }
    requires over { 0 < length left.now.needles.now → IsMaskOver text.now left.now.mask }
    ensures value { IfOk result (λ t. IsFoundInTurn text.now is_dir (map M.member members.now) left.now.needles.now left.now.under.now
        best t.after t.left) }
    ensures count { IfOk result (λ t. (n : ℕ) × (t.passes ≤ pass_bound (drop n (map M.member members.now)))
        × (t.after ≡ 0 → AreBelow left.now.under.now t.left n)) }
    ensures succeeds { AreShort (map M.member members.now) → IsOk result }
{
    let others = left.needles;
    let mut passes = 0u64;
    let mut tried = members.len();
    let mut rest = left.under.len();
    let from = first_from(others, best);
    for j in (from..others.len()).rev() {
        let needle = &others[j];
        if !needle.may_be_in(left.mask) {
            continue;
        }
        let i = needle.index();
        if i < best {
            return Ok(Tried {
                after: 0,
                left: rest,
                passes,
            });
        }
        if i == tried {
            continue;
        }
        if !needle.is_in(text) {
            continue;
        }
        let found = last_with(members, &left.under[..rest], i, text, is_dir)?;
        passes = passes.saturating_add(found.passes);
        if found.after > 0 {
            return Ok(Tried {
                after: found.after,
                left: found.left,
                passes,
            });
        }
        tried = i;
        rest = found.left;
    }
    Ok(Tried {
        after: 0,
        left: rest,
        passes,
    })
}

/// The last that applies of the pattern at an index and of those under a parent that come after it.
fn last_with<M: HasPattern>(
    members: &[M],
    under: &[usize],
    index: usize,
    text: &str,
    is_dir: bool,
) -> Result<Tried, AllocError>
    requires under { AreUnderOf under.now (map M.member members.now) }
    requires here { (m : Member) × (slice_get (map M.member members.now) index ≡ Some m) × (form_of m.reading ≡ other) }
    requires apart { (k : ℕ) → slice_get under.now k ≡ Some index → ⊥ }
    ensures value { IfOk result (λ t. IsFoundUnder text.now is_dir (map M.member members.now) under.now index t.after t.left) }
    ensures own { IfOk result (λ t. (m : Member) → slice_get (map M.member members.now) index ≡ Some m
        → Applies (chars text.now) is_dir m → index < t.after) }
    ensures count { IfOk result (λ t. (n : ℕ) → index < n → AreBelow under.now (length under.now) n
        → t.passes + pass_bound (drop n (map M.member members.now)) ≤ pass_bound (drop index (map M.member members.now))) }
    ensures succeeds { AreShort (map M.member members.now) → IsOk result }
{
    let later = last_under(members, under, index + 1, text, is_dir)?;
    if later.after > 0 {
        return Ok(later);
    }
    let (yes, count) = applies(&members[index], text, is_dir)?;
    let passes = later.passes.saturating_add(count);
    if yes {
        return Ok(Tried {
            after: index + 1,
            left: later.left,
            passes,
        });
    }
    Ok(Tried {
        after: 0,
        left: later.left,
        passes,
    })
}

/// The last that applies of the patterns at these indexes which are no less than `least`.
fn last_under<M: HasPattern>(
    members: &[M],
    under: &[usize],
    least: usize,
    text: &str,
    is_dir: bool,
) -> Result<Tried, AllocError>
    requires { AreUnderOf under.now (map M.member members.now) }
    ensures value { IfOk result (λ t. IsFoundUnder text.now is_dir (map M.member members.now) under.now least t.after t.left) }
    ensures count { IfOk result (λ t. IsWithinPasses (map M.member members.now) under.now least t.passes) }
    ensures succeeds { AreShort (map M.member members.now) → IsOk result }
{
    let mut passes = 0u64;
    for k in (0..under.len()).rev() {
        let index = under[k];
        if index < least {
            return Ok(Tried {
                after: 0,
                left: k + 1,
                passes,
            });
        }
        let (yes, count) = applies(&members[index], text, is_dir)?;
        passes = passes.saturating_add(count);
        if yes {
            return Ok(Tried {
                after: index + 1,
                left: k,
                passes,
            });
        }
    }
    Ok(Tried {
        after: 0,
        left: 0,
        passes,
    })
}

/// A place before which no needle has this index or a greater one.
fn first_from(others: &[Needle], index: usize) -> usize
    requires { (j k : ℕ) (a b : IndexedText) → j ≤ k → slice_get others.now j ≡ Some a → slice_get others.now k ≡ Some b
        → a.index ≤ b.index }
    ensures below { (k : ℕ) (n : IndexedText) → k < result → slice_get others.now k ≡ Some n → n.index < index }
    ensures within { result ≤ length others.now }
{
    let mut low = 0usize;
    let mut high = others.len();
    for _round in 0..64 {
        if low == high {
            return low;
        }
        let middle = low + (high - low) / 2;
        if others[middle].index() < index {
            low = middle + 1;
        } else {
            high = middle;
        }
    }
    low
}
