//! Where the needles of a large set stand, by their first bytes.
ghost use Rattle.std.specs.Prelude.{◌≡◌, ◌+◌, ◌≤◌, ◌<◌, ◌++◌, ◌∷◌, [], ℕ, IfOk, List, Some, false, length, slice_get, drop};
ghost use Rattle.std.specs.List.{IsAmong};
ghost use Rattle.std.specs.Str.Iter.{HasSubslice};
ghost use Rattle.ignore_set.specs.Buckets.{AreBucketsOf, IsFrontOf, IsPast};
ghost use Rattle.ignore_set.specs.Others.{IndexedText, bucket_of, mark_of};

use crate::needle::{Needle, eight_at, five_at, front_of, three_from, twelve_at};
use std::alloc::{AllocError, Global};

/// The places of needles in their list: of those of at least three bytes under one of 16,384
/// buckets, by their marks, and of the shorter ones. Or no bucket, where the needles are few. A mark
/// is one of 65,536 numbers for the first three, five, eight or twelve bytes, as many as the needle
/// has. A text is looked up in the buckets only from where a needle's first three bytes may stand,
/// which most places of most texts aren't, and there only by the marks of needles.
#[derive(Debug, Drop)]
pub(crate) struct Buckets {
    /// For each of 65,536 numbers of three bytes, whether a needle begins with such.
    fronts: Vec<bool>,
    /// For each mark, whether a needle has it.
    marks: Vec<bool>,
    long: Vec<Vec<usize>>,
    short: Vec<usize>,
}

impl Buckets {
    /// No bucket.
    pub(crate) fn none(alloc: Global) -> Buckets
        ensures { length result.long.items ≡ 0 }
    {
        Buckets {
            fronts: Vec::new(alloc),
            marks: Vec::new(alloc),
            long: Vec::new(alloc),
            short: Vec::new(alloc),
        }
    }

    /// The buckets of these needles, where there are at least 512, and else none: fewer are looked
    /// at one by one as fast.
    pub(crate) fn if_many(alloc: Global, needles: &[Needle]) -> Result<Buckets, AllocError>
        ensures { IfOk result (λ buckets. 0 < length buckets.long.items → AreBucketsOf buckets needles.now) }
    {
        if needles.len() < 512 {
            return Ok(Buckets::none(alloc));
        }
        Buckets::of(alloc, needles)
    }

    /// Whether there is no bucket.
    pub(crate) fn is_empty(&self) -> bool
        ensures { result ≡ false → 0 < length self.now.long.items }
    {
        self.long.is_empty()
    }

    fn of(alloc: Global, needles: &[Needle]) -> Result<Buckets, AllocError>
        ensures { IfOk result (λ buckets. AreBucketsOf buckets needles.now) }
    {
        let mut buckets = Buckets::empty(alloc)?;
        for (place, needle) in needles.iter().enumerate() {
            buckets.put(needle, place)?;
        }
        Ok(buckets)
    }

    fn empty(alloc: Global) -> Result<Buckets, AllocError>
        ensures { IfOk result (λ buckets. AreBucketsOf buckets []) }
    {
        let mut long = Vec::new(alloc);
        for _ in 0..16384usize {
            long.push(Vec::new(alloc))?;
        }
        Ok(Buckets {
            fronts: none_of(alloc, 65536)?,
            marks: none_of(alloc, 65536)?,
            long,
            short: Vec::new(alloc),
        })
    }

    /// Puts the place of the needle that follows those that these buckets are of.
    fn put(&mut self, needle: &Needle, place: usize) -> Result<(), AllocError>
        requires long { length self.now.long.items ≡ 16384 }
        requires fronts { length self.now.fronts.items ≡ 65536 }
        requires marks { length self.now.marks.items ≡ 65536 }
        ensures { IfOk result (λ _. (needles : List IndexedText) → AreBucketsOf self.old needles → length needles ≡ place
            → AreBucketsOf self.new (needles ++ needle.now ∷ [])) }
    {
        match needle.mark() {
            Some(mark) => {
                self.long[mark % 16384].push(place)?;
                self.marks[mark] = true;
                self.fronts[needle.front()] = true;
            }
            None => self.short.push(place)?,
        }
        Ok(())
    }

    /// A place from which no needle is in the text.
    pub(crate) fn end(&self, needles: &[Needle], text: &str) -> usize
        requires { AreBucketsOf self.now needles.now }
        ensures past { IsPast text.now needles.now result }
        ensures within { result ≤ length needles.now }
    {
        let end = end_of_short(needles, self.short.as_slice(), text);
        self.end_of_fronts(needles, text.as_bytes(), end)
    }

    /// As `end_of_front`, at each byte that two follow.
    fn end_of_fronts(&self, needles: &[Needle], bytes: &[u8], least: usize) -> usize
        requires buckets { AreBucketsOf self.now needles.now }
        requires least { least ≤ length needles.now }
        ensures past { (at j : ℕ) (n : IndexedText) → slice_get needles.now j ≡ Some n → 3 ≤ length n.text
            → IsFrontOf (drop at bytes.now) n.text → j < result }
        ensures least { least ≤ result }
        ensures within { result ≤ length needles.now }
    {
        let mut end = least;
        for at in (0..bytes.len().saturating_sub(2)).rev() {
            end = self.end_of_buckets(needles, &bytes[at..], end);
        }
        end
    }

    /// As `end_of_front`, of the buckets in which a needle with which the text begins may be.
    fn end_of_buckets(&self, needles: &[Needle], bytes: &[u8], least: usize) -> usize
        requires { AreBucketsOf self.now needles.now }
        ensures past { (j : ℕ) (n : IndexedText) → slice_get needles.now j ≡ Some n → 3 ≤ length n.text
            → IsFrontOf bytes.now n.text → j < result }
        ensures least { least ≤ result }
        ensures within { least ≤ length needles.now → result ≤ length needles.now }
    {
        if !self.fronts[front_of(bytes)] {
            return least;
        }
        let first = three_from(bytes, 0);
        let second = three_from(bytes, 2);
        let third = three_from(bytes, 5);
        let last = twelve_at(first, second, third, three_from(bytes, 9));
        let three = self.end_of_marked(needles, first, bytes, least);
        let five = self.end_of_marked(needles, five_at(first, second), bytes, three);
        let eight = self.end_of_marked(needles, eight_at(first, second, third), bytes, five);
        self.end_of_marked(needles, last, bytes, eight)
    }

    /// As `end_of_front`, of the needles with a mark.
    fn end_of_marked(&self, needles: &[Needle], mark: usize, bytes: &[u8], least: usize) -> usize
        requires buckets { AreBucketsOf self.now needles.now }
        requires mark { mark < 65536 }
        ensures past { (j : ℕ) (n : IndexedText) → slice_get needles.now j ≡ Some n → 3 ≤ length n.text
            → mark_of n.text ≡ mark → IsFrontOf bytes.now n.text → j < result }
        ensures least { least ≤ result }
        ensures within { least ≤ length needles.now → result ≤ length needles.now }
    {
        if !self.marks[mark] {
            return least;
        }
        self.end_of_bucket(needles, mark % 16384, bytes, least)
    }

    /// As `end_of_front`, of one bucket.
    fn end_of_bucket(&self, needles: &[Needle], bucket: usize, bytes: &[u8], least: usize) -> usize
        requires buckets { AreBucketsOf self.now needles.now }
        requires bucket { bucket < 16384 }
        ensures past { (j : ℕ) (n : IndexedText) → slice_get needles.now j ≡ Some n → 3 ≤ length n.text
            → bucket_of n.text ≡ bucket → IsFrontOf bytes.now n.text → j < result }
        ensures least { least ≤ result }
        ensures within { least ≤ length needles.now → result ≤ length needles.now }
    {
        end_of_front(needles, self.long[bucket].as_slice(), bytes, least)
    }
}

/// That no needle has any of so many numbers.
fn none_of(alloc: Global, count: usize) -> Result<Vec<bool>, AllocError>
    ensures { IfOk result (λ seen. length seen.items ≡ count) }
{
    let mut seen = Vec::new(alloc);
    for _ in 0..count {
        seen.push(false)?;
    }
    Ok(seen)
}

/// One more than the greatest of these places at which a needle is in the text; 0 where none is.
fn end_of_short(needles: &[Needle], places: &[usize], text: &str) -> usize
    ensures past { (j : ℕ) (n : IndexedText) → IsAmong places.now j → slice_get needles.now j ≡ Some n
        → HasSubslice text.now n.text → j < result }
    ensures within { result ≤ length needles.now }
{
    let mut end = 0usize;
    for i in (0..places.len()).rev() {
        end = end_of_one(needles, places[i], text, end);
    }
    end
}

fn end_of_one(needles: &[Needle], place: usize, text: &str, least: usize) -> usize
    ensures past { (n : IndexedText) → slice_get needles.now place ≡ Some n → HasSubslice text.now n.text → place < result }
    ensures least { least ≤ result }
    ensures within { least ≤ length needles.now → result ≤ length needles.now }
{
    if place < least {
        return least;
    }
    match needles.get(place) {
        Some(needle) => { if needle.is_in(text) { place + 1 } else { least } }
        None => least,
    }
}

/// One more than the greatest of these places at which a needle begins the text, or `least` where
/// that is greater.
fn end_of_front(needles: &[Needle], places: &[usize], bytes: &[u8], least: usize) -> usize
    ensures past { (j : ℕ) (n : IndexedText) → IsAmong places.now j → slice_get needles.now j ≡ Some n
        → IsFrontOf bytes.now n.text → j < result }
    ensures least { least ≤ result }
    ensures within { least ≤ length needles.now → result ≤ length needles.now }
{
    let mut end = least;
    for i in (0..places.len()).rev() {
        end = end_at(needles, places[i], bytes, end);
    }
    end
}

fn end_at(needles: &[Needle], place: usize, bytes: &[u8], least: usize) -> usize
    ensures past { (n : IndexedText) → slice_get needles.now place ≡ Some n → IsFrontOf bytes.now n.text → place < result }
    ensures least { least ≤ result }
    ensures within { least ≤ length needles.now → result ≤ length needles.now }
{
    if place < least {
        return least;
    }
    match needles.get(place) {
        Some(needle) => {
            if needle.is_front_of(bytes) {
                place + 1
            } else {
                least
            }
        }
        None => least,
    }
}
