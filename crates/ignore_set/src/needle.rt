//! Texts without which patterns don't match.
ghost use Rattle.std.specs.Prelude.{◌≡◌, ◌↔◌, ◌++◌, ◌*◌, ◌^◌, ◌+◌, ◌<◌, ◌≤◌, ℕ, List, IsTrue, IfOk, SomeIff, drop, length, map, string_bytes};
ghost use Rattle.std.specs.Str.Iter.{HasSubslice};
ghost use Rattle.ignore_set.specs.Buckets.{IsFrontOf};
ghost use Rattle.ignore_set.specs.Others.{IsMaskOver, bit_of, eight_at, first_bit, five_at, front_of, mark_of, mask_of, mixed, three_of};
ghost use Rattle.ignore_set.specs.Others.{twelve_at};

use std::alloc::AllocError;
use std::marker::Model;

/// A needle: the index of a pattern, and a text. A text that has none of the needles of a pattern
/// isn't matched by it.
#[derive(Debug, Drop)]
pub(crate) struct Needle {
    index: usize,
    text: String,
    mask: u64,
}

impl Model for Needle {
    ghost use Rattle.std.specs.Prelude.{◌≡◌, string_bytes};
    ghost use Rattle.ignore_set.specs.Others.{IndexedText, indexed_text_code, mask_of};

    ghost Value = { IndexedText };

    ghost coded = { indexed_text_code };

    ghost view = { λ n. record { index = n.index; text = string_bytes n.text } };

    ghost invariant = { λ n. n.mask ≡ mask_of (string_bytes n.text) };
}

impl Needle {
    fn new(index: usize, text: String) -> Needle
        ensures { result ≡ record { index = index; text = string_bytes text } }
    {
        let mask = mask_of(text.as_str());
        Needle { index, text, mask }
    }

    pub(crate) fn index(&self) -> usize
        ensures { result ≡ self.now.index }
    {
        self.index
    }

    /// Whether the needle may be in a text that this mask is over: where not, it isn't.
    pub(crate) fn may_be_in(&self, mask: u64) -> bool
        ensures { (text : List ℕ) → IsMaskOver text mask → HasSubslice text self.now.text → IsTrue result }
    {
        self.mask | mask == mask
    }

    /// Whether the needle is in the text.
    pub(crate) fn is_in(&self, text: &str) -> bool
        ensures { IsTrue result ↔ HasSubslice text.now self.now.text }
    {
        text.contains(self.text.as_str())
    }

    /// Whether the text begins with the needle.
    pub(crate) fn is_front_of(&self, text: &[u8]) -> bool
        ensures { IsTrue result ↔ IsFrontOf text.now self.now.text }
    {
        text.starts_with(self.text.as_bytes())
    }

    /// The number of its first three bytes.
    pub(crate) fn front(&self) -> usize
        ensures value { result ≡ front_of self.now.text }
        ensures within { result < 65536 }
    {
        front_of(self.text.as_bytes())
    }

    /// The mark of its first bytes; `None` where it has fewer than three.
    pub(crate) fn mark(&self) -> Option<usize>
        ensures { SomeIff result (3 ≤ length self.now.text) (mark_of self.now.text) }
    {
        let bytes = self.text.as_bytes();
        if bytes.len() < 3 {
            return None;
        }
        Some(mark_of(bytes))
    }
}

/// The bits of each three bytes that follow each other in the text.
fn mask_of(text: &str) -> u64
    ensures { result ≡ mask_of text.now }
{
    mask_back(text, 0, text.len(), 0)
}

/// The mask of what follows an offset in the text, by that of what follows a later offset.
pub(crate) fn mask_back(text: &str, from: usize, later: usize, mask: u64) -> u64
    requires order { from ≤ later }
    requires within { later ≤ length text.now }
    requires mask { mask ≡ mask_of (drop later text.now) }
    ensures { result ≡ mask_of (drop from text.now) }
{
    let bytes = text.as_bytes();
    let mut mask = mask;
    for at in (from..later).rev() {
        mask |= first_bit(&bytes[at..]);
    }
    mask
}

fn first_bit(bytes: &[u8]) -> u64
    ensures { result ≡ first_bit bytes.now }
{
    if bytes.len() < 3 {
        return 0;
    }
    bit_of(bytes[0], bytes[1], bytes[2])
}

pub(crate) fn bit_of(a: u8, b: u8, c: u8) -> u64
    ensures { result ≡ bit_of a b c }
{
    1u64 << ((usize::from(a) * 37 + usize::from(b) * 101 + usize::from(c) * 5) % 64)
}

/// One of 65,536 numbers, for the first three bytes of a text; 0 where it has fewer.
pub(crate) fn front_of(bytes: &[u8]) -> usize
    ensures value { result ≡ front_of bytes.now }
    ensures within { result < 65536 }
{
    if bytes.len() < 3 {
        return 0;
    }
    (usize::from(bytes[0]) * 2111 + usize::from(bytes[1]) * 89 + usize::from(bytes[2])) % 65536
}

/// The mark of a text that has at least three bytes.
fn mark_of(bytes: &[u8]) -> usize
    ensures { result ≡ mark_of bytes.now }
{
    let first = three_from(bytes, 0);
    if bytes.len() < 5 {
        return first;
    }
    let second = three_from(bytes, 2);
    if bytes.len() < 8 {
        return five_at(first, second);
    }
    let third = three_from(bytes, 5);
    if bytes.len() < 12 {
        return eight_at(first, second, third);
    }
    twelve_at(first, second, third, three_from(bytes, 9))
}

/// One of 4,096 numbers, for the three bytes from a place on; 0 where there are fewer.
pub(crate) fn three_from(bytes: &[u8], at: usize) -> usize
    requires { at < 16 }
    ensures value { result ≡ three_of (drop at bytes.now) }
    ensures within { result < 4096 }
{
    if bytes.len() < at + 3 {
        return 0;
    }
    mixed(bytes[at], bytes[at + 1], bytes[at + 2])
}

fn mixed(a: u8, b: u8, c: u8) -> usize
    ensures value { result ≡ mixed a b c }
    ensures within { result < 4096 }
{
    (usize::from(a) * 577 + usize::from(b) * 37 + usize::from(c)) % 4096
}

/// The mark of five bytes, by the numbers of the first three and of the last three.
pub(crate) fn five_at(first: usize, second: usize) -> usize
    requires { (first < 4096) × (second < 4096) }
    ensures value { result ≡ five_at first second }
    ensures within { result < 65536 }
{
    4096 + (first * 61 + second) % 4096
}

/// The mark of eight bytes, by these numbers of the first five, and that of the last three.
pub(crate) fn eight_at(first: usize, second: usize, third: usize) -> usize
    requires { (first < 4096) × (second < 4096) × (third < 4096) }
    ensures value { result ≡ eight_at first second third }
    ensures within { result < 65536 }
{
    16384 + (first * 67 + second * 131 + third) % 16384
}

/// The mark of twelve bytes, by these numbers of the first eight, and that of the last three.
pub(crate) fn twelve_at(first: usize, second: usize, third: usize, fourth: usize) -> usize
    requires { (first < 4096) × (second < 4096) × (third < 4096) × (fourth < 4096) }
    ensures value { result ≡ twelve_at first second third fourth }
    ensures within { result < 65536 }
{
    32768 + (first * 67 + second * 131 + third * 263 + fourth) % 32768
}

/// Appends these needles of the pattern at an index.
pub(crate) fn put_needles(
    needles: &mut Vec<Needle>,
    texts: Vec<String>,
    index: usize,
) -> Result<(), AllocError>
    ensures { IfOk result (λ _. needles.new.items ≡ needles.old.items
        ++ map (λ t. record { index = index; text = string_bytes t }) texts.items) }
{
    for text in texts {
        needles.push(Needle::new(index, text))?;
    }
    Ok(())
}
