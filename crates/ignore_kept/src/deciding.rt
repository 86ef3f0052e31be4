//! What a guide decides on entries, as C is told it.
ghost use Rattle.std.specs.Prelude.{◌≡◌, ◌≤◌, Ok, Err, IfOk, IfErr, map};
ghost use Rattle.std.specs.Option.{option_copied};
ghost use Rattle.ignore_kept.specs.Deciding.{Decides, DecidesAll, Reasons, ReasonsTold, flag, guide_in, listed_code};
ghost use Rattle.ignore_kept.specs.Explained.{explained_in};
ghost use Rattle.ignore_kept.specs.Matching.{verdict_code};

use crate::entries::{Listed, entries_in, size_of};
use crate::explained::{ToldReason, told_of, untold};
use crate::guided::Stage;
use crate::kept::Kept;
use crate::room::text_of;
use crate::stopped::Stopped;
use ignore::guide::{Entry, Guide, Place};
use ignore::{Explanation, IncrementalMatch};
use std::alloc::{AllocError, Global};

/// An entry of the directory at a place, as C tells it.
#[derive(Clone, Copy)]
pub struct Asked<'q> {
    pub place: Place,
    pub name: &'q [u8],
    pub is_dir: bool,
    /// The size; `u64::MAX` where it isn't known.
    pub size: u64,
}

/// The guide of a handle, once its first root was begun.
fn guide_in(kept: &Kept) -> Option<&Guide>
    ensures { option_copied result ≡ guide_in kept.now }
{
    let Kept::Guide(guided) = kept else {
        return None;
    };
    match &guided.stage {
        Stage::Fresh => None,
        Stage::Reading(_) => None,
        Stage::Begun(begun) => Some(&begun.guide),
    }
}

/// What becomes of an entry.
pub fn decide(kept: &Kept, asked: Asked<'_>) -> Result<IncrementalMatch, Stopped>
    ensures { Decides asked.entry.place asked.entry.name.now asked.entry.is_dir asked.entry.size kept.now result }
{
    let Some(guide) = guide_in(kept) else {
        return Err(Stopped::Misused);
    };
    let Ok(name) = text_of(asked.name) else {
        return Err(Stopped::NotUtf8);
    };
    let entry = Entry {
        name,
        is_dir: asked.is_dir,
        size: size_of(asked.size),
    };
    match guide.decide(asked.place, &entry) {
        Ok(found) => Ok(found),
        Err(error) => Err(Stopped::from(error)),
    }
}

/// What becomes of each of some entries, by the numbers of C.
pub fn decide_all(
    alloc: Global,
    kept: &Kept,
    place: Place,
    listed: Listed<'_>,
) -> Result<Vec<u8>, Stopped>
    ensures decided { IfOk result (λ codes. DecidesAll place listed.entry.names.now listed.entry.kinds.now listed.entry.sizes.now kept.now (Ok codes.items)) }
    ensures refused { IfErr result (λ e. DecidesAll place listed.entry.names.now listed.entry.kinds.now listed.entry.sizes.now kept.now (Err e)) }
{
    let Some(guide) = guide_in(kept) else {
        return Err(Stopped::Misused);
    };
    let entries = match entries_in(alloc, listed) {
        Ok(entries) => entries,
        Err(stopped) => return Err(stopped),
    };
    let found = match guide.decide_all(place, entries.as_slice()) {
        Ok(found) => found,
        Err(error) => return Err(Stopped::from(error)),
    };
    match codes_of(alloc, found.as_slice()) {
        Ok(codes) => Ok(codes),
        Err(_) => Err(Stopped::Memory),
    }
}

fn codes_of(alloc: Global, found: &[IncrementalMatch]) -> Result<Vec<u8>, AllocError>
    ensures { IfOk result (λ codes. codes.items ≡ map listed_code found.now) }
{
    let mut codes = Vec::with_capacity(alloc, found.len())?;
    for one in found {
        codes.push(listed_code(*one))?;
    }
    Ok(codes)
}

/// The number of what becomes of an entry: that of the verdict, 4 where a walk descends, and 8 where
/// it is within depth.
fn listed_code(found: IncrementalMatch) -> u8
    ensures { result ≡ listed_code found }
{
    verdict_code(found) + flag(found.should_descend(), 4) + flag(found.is_within_depth(), 8)
}

fn flag(is_set: bool, value: u8) -> u8
    ensures value { result ≡ flag is_set value }
    ensures most { result ≤ value }
{
    if is_set { value } else { 0 }
}

fn verdict_code(found: IncrementalMatch) -> u8
    ensures value { result ≡ verdict_code found.verdict }
    ensures most { result ≤ 3 }
{
    if found.is_ignore() {
        return 2;
    }
    if found.is_whitelist() {
        return 3;
    }
    1
}

/// What becomes of an entry, and why.
pub fn why(alloc: Global, kept: &Kept, asked: Asked<'_>) -> ToldReason
    ensures { ReasonsTold asked.entry.place asked.entry.name.now asked.entry.is_dir asked.entry.size kept.now result.code result.found result.why result.text.items }
{
    match explain(kept, asked) {
        Err(stopped) => untold(alloc, stopped),
        Ok(explanation) => match told_of(alloc, explanation) {
            Ok(told) => told,
            Err(_) => untold(alloc, Stopped::Memory),
        },
    }
}

fn explain(kept: &Kept, asked: Asked<'_>) -> Result<Explanation, Stopped>
    ensures explained { IfOk result (λ e. Reasons asked.entry.place asked.entry.name.now asked.entry.is_dir asked.entry.size kept.now (explained_in (Ok e))) }
    ensures refused { IfErr result (λ e. Reasons asked.entry.place asked.entry.name.now asked.entry.is_dir asked.entry.size kept.now (Err e)) }
{
    let Some(guide) = guide_in(kept) else {
        return Err(Stopped::Misused);
    };
    let Ok(name) = text_of(asked.name) else {
        return Err(Stopped::NotUtf8);
    };
    let entry = Entry {
        name,
        is_dir: asked.is_dir,
        size: size_of(asked.size),
    };
    match guide.explain(asked.place, &entry) {
        Ok(explanation) => Ok(explanation),
        Err(error) => Err(Stopped::from(error)),
    }
}
