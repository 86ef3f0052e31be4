//! Patterns whose texts all have one parent, by that parent.
ghost use Rattle.std.specs.Prelude.{◌≡◌, ◌⊎◌, ◌+◌, ◌*◌, ◌%◌, ◌^◌, ◌<◌, ◌≤◌, ◌++◌, ◌∷◌, [], ℕ, IfOk, IsTrue, List, Some, cond, length, string_bytes};
ghost use Rattle.std.specs.Option.{option_map};
ghost use Rattle.std.specs.Str.{bytes_eq};
ghost use Rattle.ignore_glob.specs.Ends.{HasParent};
ghost use Rattle.ignore_set.specs.Parents.{HasBit, IsNotedUnder, indexes_at, number_of};

use std::alloc::{AllocError, Global};
use std::collections::BTreeMap;

/// For so many patterns and more, parents have bits.
const MANY: usize = 256;

/// The indexes of the patterns under each parent, a text up to a slash and with it: their texts are
/// those of names in it, so a text is looked up by its own parent alone. A parent that is longer
/// than all of these, or whose bit isn't there, is passed over.
#[derive(Debug, Drop)]
pub(crate) struct Parents {
    lists: BTreeMap<String, Vec<usize>>,
    longest: usize,
    /// A bit for each of 65,536 numbers of parents, in 1,024 words; or none, where the patterns are
    /// few.
    words: Vec<u64>,
}

impl Parents {
    /// No pattern.
    pub(crate) fn new(alloc: Global) -> Parents
        ensures { (parent : List ℕ) → indexes_at result parent ≡ [] }
    {
        Parents {
            lists: BTreeMap::new(alloc),
            longest: 0,
            words: Vec::new(alloc),
        }
    }

    /// No pattern, where so many will be put, or fewer.
    pub(crate) fn for_many(alloc: Global, count: usize) -> Result<Parents, AllocError>
        ensures { IfOk result (λ parents. (parent : List ℕ) → indexes_at parents parent ≡ []) }
    {
        let mut parents = Parents::new(alloc);
        if count >= MANY {
            parents.words = no_bits(alloc)?;
        }
        Ok(parents)
    }

    /// Puts the pattern of an index under a parent, after those that stand there.
    pub(crate) fn put(&mut self, parent: String, index: usize) -> Result<(), AllocError>
        ensures lists { IfOk result (λ _. (q : List ℕ) → indexes_at self.new q
            ≡ cond (bytes_eq (string_bytes parent) q) (indexes_at self.old q ++ index ∷ []) (indexes_at self.old q)) }
        ensures own { IfOk result (λ _. IsNotedUnder self.new (string_bytes parent)) }
        ensures others { IfOk result (λ _. (q : List ℕ) → IsNotedUnder self.old q → IsNotedUnder self.new q) }
    {
        self.longest = self.longest.max(parent.as_str().len());
        note(&mut self.words, parent.as_bytes());
        self.lists.entry(parent)?.or_default().push(index)?;
        Ok(())
    }

    /// The patterns under the parent of the text, by rising indexes; none where no pattern stands
    /// there.
    pub(crate) fn under(&self, text: &str) -> &[usize]
        ensures all { (parent : List ℕ) → HasParent parent text.now → IsNotedUnder self.now parent
            → result.now ≡ indexes_at self.now parent }
        ensures one { (result.now ≡ []) ⊎ ((parent : List ℕ) × (result.now ≡ indexes_at self.now parent)) }
    {
        match parent_within(text, self.longest) {
            Some(parent) => self.listed(parent),
            None => &[],
        }
    }

    /// The patterns under a parent; none where it is passed over, or none stands there.
    fn listed(&self, parent: &str) -> &[usize]
        ensures all { IsNotedUnder self.now parent.now → result.now ≡ indexes_at self.now parent.now }
        ensures one { (result.now ≡ []) ⊎ (result.now ≡ indexes_at self.now parent.now) }
    {
        if !may_have(&self.words, parent.as_bytes()) {
            return &[];
        }
        match self.lists.get(parent) {
            Some(indexes) => indexes.as_slice(),
            None => &[],
        }
    }
}

/// The parent of a text, unless it is longer than this.
fn parent_within(text: &str, longest: usize) -> Option<&str>
    ensures { (parent : List ℕ) → HasParent parent text.now → length parent ≤ longest → option_map (λ p. p.now) result ≡ Some parent }
{
    if longest == 0 {
        return None;
    }
    let at = text.rfind('/')?;
    if at >= longest {
        return None;
    }
    Some(&text[..at + 1])
}

/// One of 65,536 numbers.
fn number_of(text: &[u8]) -> usize
    ensures value { result ≡ number_of text.now }
    ensures within { result < 65536 }
{
    let mut number = 0usize;
    for at in (0..text.len()).rev() {
        number = (number * 31 + usize::from(text[at])) % 65536;
    }
    number
}

/// The bit of a number in its word.
fn bit_of_number(number: usize) -> u64
    ensures { result ≡ 2 ^ (number % 64) }
{
    1u64 << (number % 64)
}

/// That no parent has a bit.
fn no_bits(alloc: Global) -> Result<Vec<u64>, AllocError> {
    let mut words = Vec::with_capacity(alloc, 1024)?;
    for _ in 0..1024usize {
        words.push(0)?;
    }
    Ok(words)
}

/// Adds the bit of a text, if there are words.
fn note(words: &mut Vec<u64>, text: &[u8])
    ensures own { HasBit words.new.items text.now }
    ensures others { (t : List ℕ) → HasBit words.old.items t → HasBit words.new.items t }
{
    let number = number_of(text);
    let at = number / 64;
    if at < words.len() {
        words[at] |= bit_of_number(number);
    }
}

/// Whether a pattern may stand under a parent: where not, none does.
fn may_have(words: &[u64], parent: &[u8]) -> bool
    ensures { HasBit words.now parent.now → IsTrue result }
{
    if words.is_empty() {
        return true;
    }
    let number = number_of(parent);
    let at = number / 64;
    if at >= words.len() {
        return true;
    }
    let word = words[at];
    bit_of_number(number) | word == word
}
