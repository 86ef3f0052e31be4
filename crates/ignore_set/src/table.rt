//! Patterns of one form, by the text under which each stands.
ghost use Rattle.std.specs.Prelude.{◌≡◌, ◌⊎◌, ◌+◌, ◌<◌, ◌≤◌, ◌^◌, ℕ, IfOk, IsTrue, List, length, cond, string_bytes};
ghost use Rattle.std.specs.List.{IsAmong};
ghost use Rattle.std.specs.Str.{IsUtf8, bytes_eq};
ghost use Rattle.ignore_set.specs.Index.{Fits, IsMarked, IsNoted, StandsUnderEnd, after, end_bit, end_word, slot_at, slot_with};

use crate::needle::bit_of;
use crate::text::{Ending, end_of, fits};
use std::alloc::{AllocError, Global};
use std::collections::BTreeMap;

/// One more than the greatest index of a pattern, for files and for directories; 0 where there is
/// none.
#[derive(Clone, Copy, Debug)]
pub(crate) struct Slot {
    file: usize,
    dir: usize,
}

/// The last pattern under each text, the lengths that the texts have, and their bits, in 16 words.
#[derive(Debug, Drop)]
pub(crate) struct Table {
    slots: BTreeMap<String, Slot>,
    lengths: Vec<usize>,
    marks: [u64; 16],
}

impl Slot {
    fn with(self, index: usize, only_dir: bool) -> Slot
        requires { index + 1 < 2 ^ 64 }
        ensures { result ≡ slot_with index only_dir self }
    {
        let after = index + 1;
        Slot {
            file: if only_dir { self.file } else { after },
            dir: after,
        }
    }

    fn after(self, is_dir: bool) -> usize
        ensures { result ≡ after is_dir self }
    {
        if is_dir { self.dir } else { self.file }
    }
}

impl Table {
    pub(crate) fn new(alloc: Global) -> Table
        ensures { (text : List ℕ) → slot_at result text ≡ record { file = 0; dir = 0 } }
    {
        Table {
            slots: BTreeMap::new(alloc),
            lengths: Vec::new(alloc),
            marks: [0; 16],
        }
    }

    /// Puts the pattern of an index, greater than those before, under a text.
    pub(crate) fn put(
        &mut self,
        text: String,
        index: usize,
        only_dir: bool,
    ) -> Result<(), AllocError>
        requires { index + 1 < 2 ^ 64 }
        ensures slots { IfOk result (λ _. (q : List ℕ)
            → slot_at self.new q ≡ cond (bytes_eq (string_bytes text) q) (slot_with index only_dir (slot_at self.old q))
            (slot_at self.old q)) }
        ensures own { IfOk result (λ _. IsUtf8 (string_bytes text) × IsNoted self.new (string_bytes text)) }
        ensures others { IfOk result (λ _. (t : List ℕ) → IsNoted self.old t → IsNoted self.new t) }
    {
        let slot = self.slot(text.as_str()).with(index, only_dir);
        note(&mut self.lengths, text.as_str().len())?;
        self.marks[end_word(text.as_str())] |= end_bit(text.as_str());
        self.slots.insert(text, slot)?;
        Ok(())
    }

    fn slot(&self, text: &str) -> Slot
        ensures { result ≡ slot_at self.now text.now }
    {
        match self.slots.get(text) {
            Some(slot) => *slot,
            None => Slot { file: 0, dir: 0 },
        }
    }

    /// One more than the index of the last pattern under a text. A text without its bit is passed
    /// over.
    pub(crate) fn under_whole(&self, text: &str, is_dir: bool) -> usize
        ensures found { (result ≡ 0) ⊎ (result ≡ after is_dir (slot_at self.now text.now)) }
        ensures greatest { IsMarked self.now text.now → after is_dir (slot_at self.now text.now) ≤ result }
    {
        if self.may_have(text) {
            self.under(text, is_dir)
        } else {
            0
        }
    }

    /// One more than the index of the last pattern under a text.
    fn under(&self, text: &str, is_dir: bool) -> usize
        ensures { result ≡ after is_dir (slot_at self.now text.now) }
    {
        self.slot(text).after(is_dir)
    }

    /// Whether a pattern may stand under a text: where not, none does.
    fn may_have(&self, text: &str) -> bool
        ensures { IsMarked self.now text.now → IsTrue result }
    {
        let mark = self.marks[end_word(text)];
        end_bit(text) | mark == mark
    }

    /// One more than the greatest index of a pattern under an end of the text.
    pub(crate) fn under_ends(&self, ending: Ending, text: &str, is_dir: bool) -> usize
        ensures found { StandsUnderEnd ending self.now is_dir text.now result }
        ensures greatest { (end : List ℕ) → Fits ending end text.now → IsUtf8 end
            → IsNoted self.now end → after is_dir (slot_at self.now end) ≤ result }
    {
        let mut best = 0usize;
        for size in &self.lengths {
            best = best.max(self.under_end(ending, text, *size, is_dir));
        }
        best
    }

    fn under_end(&self, ending: Ending, text: &str, size: usize, is_dir: bool) -> usize
        ensures found { StandsUnderEnd ending self.now is_dir text.now result }
        ensures greatest { (end : List ℕ) → Fits ending end text.now → IsUtf8 end → length end ≡ size → IsMarked self.now end
            → after is_dir (slot_at self.now end) ≤ result }
    {
        match end_of(text, size) {
            None => 0,
            Some(end) => {
                if !self.may_have(end) {
                    return 0;
                }
                if fits(ending, text, end) {
                    self.under(end, is_dir)
                } else {
                    0
                }
            }
        }
    }
}

/// The bit of a text.
fn end_bit(text: &str) -> u64
    ensures { result ≡ end_bit text.now }
{
    let bytes = text.as_bytes();
    match bytes.len().checked_sub(1) {
        None => 0,
        Some(last) => bit_of(bytes[0], bytes[last], (last % 256) as u8),
    }
}

/// The word that has the bit of a text.
fn end_word(text: &str) -> usize
    ensures value { result ≡ end_word text.now }
    ensures within { result < 16 }
{
    let bytes = text.as_bytes();
    match bytes.len().checked_sub(1) {
        None => 0,
        Some(last) => {
            (usize::from(bytes[0]) * 37 + usize::from(bytes[last]) * 101 + (last % 256) * 5) / 64
                % 16
        }
    }
}

fn note(lengths: &mut Vec<usize>, size: usize) -> Result<(), AllocError>
    ensures length { IfOk result (λ _. IsAmong lengths.new.items size) }
    ensures kept { IfOk result (λ _. (n : ℕ) → IsAmong lengths.old.items n → IsAmong lengths.new.items n) }
{
    if !lengths.contains(&size) {
        lengths.push(size)?;
    }
    Ok(())
}
