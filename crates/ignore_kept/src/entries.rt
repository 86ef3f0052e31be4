//! What a directory lists, as C tells it.
ghost use Rattle.std.specs.Prelude.{◌≡◌, ◌<◌, ◌∷◌, [], true, false, IfOk, IfErr, Ok, Err, MatchOption, length, map, slice_get};
ghost use Rattle.ignore_kept.specs.Listings.{AreAsMany, AreEntries, AreNames, ListsEntries, ListsNames, is_dir_kind, known, pieces, size_of};

use crate::room::text_of;
use crate::stopped::Stopped;
use ignore::guide::Entry;
use memchr::memchr;
use std::alloc::{AllocError, Global};

/// How many bytes a name has at least, with its zero, in most listings. Where it has fewer there is
/// another allocation.
const NAME_BYTES: usize = 8;

/// What stands before the first zero of a text, and what stands after that.
fn cut(text: &str) -> Option<(&str, &str)>
    ensures { MatchOption result (pieces text.now ≡ text.now ∷ [])
        (λ r. (pieces text.now ≡ r.0.now ∷ pieces r.1.now) × (length r.1.now < length text.now)) }
{
    match memchr(0, text.as_bytes()) {
        Some(end) => Some((&text[..end], &text[end + 1..])),
        None => None,
    }
}

/// The texts between the zeros of a text.
fn pieces(alloc: Global, text: &str) -> Result<Vec<&str>, AllocError>
    ensures { IfOk result (λ all. map (λ p. p.now) all.items ≡ pieces text.now) }
{
    let mut all = Vec::with_capacity(alloc, text.len() / NAME_BYTES + 1)?;
    let mut rest = text;
    while let Some((piece, after)) = cut(rest) {
        all.push(piece)?;
        rest = after;
    }
    all.push(rest)?;
    Ok(all)
}

/// The names in a text, each of which a zero ends.
pub(crate) fn names_in(alloc: Global, bytes: &[u8]) -> Result<Vec<&str>, Stopped>
    ensures names { IfOk result (λ names. AreNames bytes.now (map (λ n. n.now) names.items)) }
    ensures refused { IfErr result (λ e. ListsNames bytes.now (Err e)) }
{
    let Ok(text) = text_of(bytes) else {
        return Err(Stopped::NotUtf8);
    };
    let Ok(mut names) = pieces(alloc, text) else {
        return Err(Stopped::Memory);
    };
    match names.pop() {
        None => Err(Stopped::Misused),
        Some(last) => {
            if !last.is_empty() {
                return Err(Stopped::Misused);
            }
            Ok(names)
        }
    }
}

/// Entries, as C tells them: names, each of which a zero ends; the kind of each; the size of each, or
/// none at all.
#[derive(Clone, Copy)]
pub struct Listed<'l> {
    pub names: &'l [u8],
    pub kinds: &'l [u8],
    pub sizes: &'l [u64],
}

/// The entries.
pub(crate) fn entries_in<'l>(alloc: Global, listed: Listed<'l>) -> Result<Vec<Entry<'l>>, Stopped>
    ensures listed { IfOk result (λ all. ListsEntries listed.entry.names.now listed.entry.kinds.now listed.entry.sizes.now (Ok all.items)) }
    ensures refused { IfErr result (λ e. ListsEntries listed.entry.names.now listed.entry.kinds.now listed.entry.sizes.now (Err e)) }
{
    let names = match names_in(alloc, listed.names) {
        Ok(names) => names,
        Err(stopped) => return Err(stopped),
    };
    if !are_as_many(names.as_slice(), listed) {
        return Err(Stopped::Misused);
    }
    match entries_of(alloc, names.as_slice(), listed) {
        Ok(entries) => Ok(entries),
        Err(_) => Err(Stopped::Memory),
    }
}

/// Whether there are as many kinds as names, and as many sizes, or none.
fn are_as_many(names: &[&str], listed: Listed<'_>) -> bool
    ensures yes { result ≡ true → AreAsMany (map (λ n. n.now) names.now) listed.entry.kinds.now listed.entry.sizes.now }
    ensures no { result ≡ false → ¬ (AreAsMany (map (λ n. n.now) names.now) listed.entry.kinds.now listed.entry.sizes.now) }
{
    let n = names.len();
    if n != listed.kinds.len() {
        return false;
    }
    let sizes = listed.sizes.len();
    sizes == 0 || sizes == n
}

fn entries_of<'l>(
    alloc: Global,
    names: &[&'l str],
    listed: Listed<'l>,
) -> Result<Vec<Entry<'l>>, AllocError>
    ensures { IfOk result (λ all. AreEntries (map (λ n. n.now) names.now) listed.entry.kinds.now listed.entry.sizes.now all.items) }
{
    let mut entries = Vec::with_capacity(alloc, names.len())?;
    for i in 0..names.len() {
        entries.push(Entry {
            name: names[i],
            is_dir: is_dir_at(listed.kinds, i),
            size: size_at(listed.sizes, i),
        })?;
    }
    Ok(entries)
}

/// Whether the kind at an index is that of a directory.
fn is_dir_at(kinds: &[u8], i: usize) -> bool
    ensures { result ≡ is_dir_kind (slice_get kinds.now i) }
{
    match kinds.get(i) {
        Some(kind) => *kind == 2,
        None => false,
    }
}

/// The size at an index, if it is known.
fn size_at(sizes: &[u64], i: usize) -> Option<u64>
    ensures { result ≡ known (slice_get sizes.now i) }
{
    match sizes.get(i) {
        Some(size) => size_of(*size),
        None => None,
    }
}

/// A size, if it is known.
pub(crate) fn size_of(size: u64) -> Option<u64>
    ensures { result ≡ size_of size }
{
    if size == u64::MAX { None } else { Some(size) }
}
