//! What becomes of an entry of a directory that was entered.
ghost use Rattle.std.specs.Prelude.{◌≡◌, ◌++◌, [], ℕ, Bool, IfOk, IfErr, IsSome, OnOk, false, map, string_bytes};
ghost use Rattle.ignore_base.specs.Paths.{join_of};
ghost use Rattle.ignore_dir.specs.Limits.{size_limit};
ghost use Rattle.ignore_dir.specs.Steps.{Reached, entry, verdict_at};
ghost use Rattle.ignore_base.specs.Text.{Bytes};
ghost use Rattle.ignore_guide.specs.Forest.{Stands};
ghost use Rattle.ignore_guide.specs.Guide.{AreTexts, StandsFor, cause_at, decided, decided_listed, is_over, why_at, within};
ghost use Rattle.ignore_guide.specs.Names.{IsAsked, IsNoPlace, IsRefused, is_name};
ghost use Rattle.ignore_guide.specs.Places.{entered_at};
ghost use Rattle.ignore_base.specs.Match.{match_map};
ghost use Rattle.ignore_levels.specs.Levels.{slots_of};
ghost use Rattle.ignore_levels.specs.Reasons.{why_of};
ghost use Rattle.ignore_why.specs.Cited.{cited_of};

use crate::error::GuideError;
use crate::guide::Guide;
use crate::places::{Entered, Place};
use ignore_base::Match;
use ignore_base::internal::join;
use ignore_base::text::{has_slash, is_proper};
use ignore_dir::limits::{is_beyond, size_limit};
use ignore_dir::verdict::Verdict;
use ignore_dir::{Asked, IncrementalMatch, Settings};
use ignore_levels::laws::what_counts_decides;
use ignore_levels::{Reason, judge, verdict};
use ignore_why::{Cause, causes};
use std::alloc::{AllocError, Global};

/// An entry of a directory, as its host knows it.
#[derive(Clone, Copy, Debug)]
pub struct Entry<'n> {
    /// Its name.
    pub name: &'n str,
    /// Whether it is a directory: what it leads to, where a host follows links.
    pub is_dir: bool,
    /// Its size in bytes, if it is known. It matters where the settings have a greatest size.
    pub size: Option<u64>,
}

/// Whether a text is the name of an entry: it isn't empty, `.` or `..`, and has no slash.
pub(crate) fn is_name(name: &str) -> bool
    ensures { result ≡ is_name name.now }
{
    is_proper(name) && !has_slash(name)
}

/// A text with a name after it.
pub(crate) fn followed_by(alloc: Global, text: &str, name: &str) -> Result<String, AllocError>
    ensures { IfOk result (λ whole. string_bytes whole ≡ text.now ++ name.now) }
{
    let len = text.len().saturating_add(name.len()).saturating_add(1);
    let mut whole = String::with_capacity(alloc, len)?;
    whole.push_str(text)?;
    whole.push_str(name)?;
    Ok(whole)
}

/// The texts by which rules know an entry of a directory.
#[derive(Drop)]
struct Texts {
    /// Its path as the directories around it see it.
    text: String,
    /// Its path.
    path: String,
}

/// How many bytes a name has at most on most file systems. Longer ones take another allocation.
const NAME_BYTES: usize = 255;

impl Texts {
    /// With room for the names after these texts.
    fn after(alloc: Global, text: &str, path: &str) -> Result<Texts, AllocError> {
        Ok(Texts {
            text: String::with_capacity(alloc, text.len().saturating_add(NAME_BYTES))?,
            path: String::with_capacity(alloc, path.len().saturating_add(NAME_BYTES))?,
        })
    }
}

/// Makes a text begin with another, unless it does.
fn begin_with(text: &mut String, around: &str) -> Result<(), AllocError>
    ensures { OnOk result ((rest : Bytes) × (string_bytes text.new ≡ around.now ++ rest)) }
{
    if text.starts_with(around) {
        return Ok(());
    }
    text.clear();
    text.push_str(around)?;
    Ok(())
}

/// Makes a text another with a name after it. What the text begins with is kept, if it is that.
fn put_after(text: &mut String, around: &str, name: &str) -> Result<(), AllocError>
    ensures { OnOk result (string_bytes text.new ≡ around.now ++ name.now) }
{
    begin_with(text, around)?;
    text.truncate(around.len());
    text.push_str(name)?;
    Ok(())
}

/// The texts of the name of a directory.
fn texts_of(alloc: Global, dir: &Entered, name: &str) -> Result<Texts, AllocError>
    ensures { IfOk result (λ texts. AreTexts dir.now name.now (string_bytes texts.text) (string_bytes texts.path)) }
{
    let text = followed_by(alloc, dir.text.as_str(), name)?;
    let path = join(alloc, dir.path.as_str(), name)?;
    Ok(Texts { text, path })
}

/// A question for what has these texts.
fn asked_by(texts: &Texts, is_dir: bool) -> Asked<'_>
    ensures text { result.text.now ≡ string_bytes texts.now.text }
    ensures path { result.path.now ≡ string_bytes texts.now.path }
    ensures is_dir { result.is_dir ≡ is_dir }
{
    Asked {
        text: texts.text.as_str(),
        path: texts.path.as_str(),
        is_dir,
    }
}

/// Whether a size is above a limit, where both are known.
fn is_over(most: Option<u64>, size: Option<u64>) -> bool
    ensures { result ≡ is_over most size }
{
    match most {
        None => false,
        Some(most) => match size {
            None => false,
            Some(size) => most < size,
        },
    }
}

/// The verdict, and ignore for what is larger than the limit.
fn within(settings: &Settings, is_dir: bool, size: Option<u64>, verdict: Verdict) -> Verdict
    ensures { result ≡ within settings.now is_dir size verdict }
{
    if is_over(size_limit(settings, is_dir, verdict), size) {
        Verdict::Ignore
    } else {
        verdict
    }
}

impl Guide {
    /// What the rules say of an entry of a directory, by its texts.
    fn verdict_in(&self, dir: &Entered, texts: &Texts, is_dir: bool) -> Result<Verdict, AllocError>
        ensures value { (at : Reached) (name : Bytes) → Stands (slots_of self.now.levels) dir.now at → AreTexts dir.now name (string_bytes texts.now.text) (string_bytes texts.now.path)
            → IfOk result (λ v. v ≡ verdict_at self.now.settings self.now.outside (entry at name) is_dir) }
    {
        what_counts_decides();
        let asked = asked_by(texts, is_dir);
        let level = dir.level;
        verdict(&self.settings, &self.outside, &self.levels, level, &asked)
    }

    /// What becomes of an entry of a directory, by its texts.
    fn decide_in(
        &self,
        dir: &Entered,
        texts: &Texts,
        asked: &Entry<'_>,
    ) -> Result<IncrementalMatch, AllocError>
        ensures value { (at : Reached) → Stands (slots_of self.now.levels) dir.now at → AreTexts dir.now asked.now.name.now (string_bytes texts.now.text) (string_bytes texts.now.path)
            → IfOk result (λ m. m ≡ decided self.now.settings self.now.outside dir.now.depth at asked.now.name.now asked.now.is_dir asked.now.size) }
    {
        if is_beyond(&self.settings, dir.depth, asked.is_dir) {
            return Ok(IncrementalMatch::beyond());
        }
        let found = self.verdict_in(dir, texts, asked.is_dir)?;
        let found = within(&self.settings, asked.is_dir, asked.size, found);
        Ok(IncrementalMatch::limited(&self.settings, dir.depth, asked.is_dir, found))
    }

    /// What becomes of an entry as it is listed, where nothing decides on what has no name: `.`, say.
    /// What the texts were doesn't matter.
    #[tactic(auto, using(crate::proofs::NameLemmas::name_joined))]
    fn decide_listed(
        &self,
        dir: &Entered,
        below: &str,
        texts: &mut Texts,
        asked: &Entry<'_>,
    ) -> Result<IncrementalMatch, AllocError>
        ensures value { below.now ≡ join_of dir.now.path [] → (at : Reached) → Stands (slots_of self.now.levels) dir.now at
            → IfOk result (λ m. m ≡ decided_listed self.now.settings self.now.outside dir.now.depth at asked.now) }
    {
        if !is_name(asked.name) {
            return Ok(IncrementalMatch::no_match(false));
        }
        put_after(&mut texts.text, dir.text.as_str(), asked.name)?;
        put_after(&mut texts.path, below, asked.name)?;
        self.decide_in(dir, texts, asked)
    }

    /// What becomes of each of some entries as they are listed.
    fn decide_all_in(
        &self,
        dir: &Entered,
        listed: &[Entry<'_>],
    ) -> Result<Vec<IncrementalMatch>, AllocError>
        ensures value { (at : Reached) → Stands (slots_of self.now.levels) dir.now at
            → IfOk result (λ all. all.items ≡ map (decided_listed self.now.settings self.now.outside dir.now.depth at) listed.now) }
    {
        let below = join(self.alloc, dir.path.as_str(), "")?;
        let mut texts = Texts::after(self.alloc, dir.text.as_str(), below.as_str())?;
        let mut all = Vec::with_capacity(self.alloc, listed.len())?;
        for asked in listed {
            let found = self.decide_listed(dir, below.as_str(), &mut texts, asked)?;
            all.push(found)?;
        }
        Ok(all)
    }

    /// What becomes of an entry of the directory at a place: its verdict, whether a walk goes on
    /// below it, and whether it is within the limits on depth. It doesn't depend on what was asked
    /// before, and nothing is kept of it.
    ///
    /// # Errors
    /// Out of memory, a place that is none, and a name that is none.
    pub fn decide(&self, place: Place, asked: &Entry<'_>) -> Result<IncrementalMatch, GuideError>
        ensures value { (depth : ℕ) (at : Reached) → StandsFor self.now place depth at
            → IfOk result (λ m. m ≡ decided self.now.settings self.now.outside depth at asked.now.name.now asked.now.is_dir asked.now.size) }
        ensures there { IfOk result (λ m. IsAsked self.now.places place asked.now.name.now) }
        ensures refused { IfErr result (λ e. IsRefused self.now.places place asked.now.name.now e) }
    {
        let Some(dir) = self.places.get(place) else {
            return Err(GuideError::NoPlace);
        };
        if !is_name(asked.name) {
            return Err(GuideError::NoName);
        }
        let texts = texts_of(self.alloc, dir, asked.name)?;
        Ok(self.decide_in(dir, &texts, asked)?)
    }

    /// What becomes of each of some entries of the directory at a place, in their order, as `decide`
    /// says; on what has no name, as `.`, nothing decides, and a walk doesn't go on below it.
    ///
    /// # Errors
    /// Out of memory, and a place that is none.
    pub fn decide_all(
        &self,
        place: Place,
        listed: &[Entry<'_>],
    ) -> Result<Vec<IncrementalMatch>, GuideError>
        ensures value { (depth : ℕ) (at : Reached) → StandsFor self.now place depth at
            → IfOk result (λ all. all.items ≡ map (decided_listed self.now.settings self.now.outside depth at) listed.now) }
        ensures there { IfOk result (λ all. IsSome (entered_at self.now.places place)) }
        ensures refused { IfErr result (λ e. IsNoPlace self.now.places place e) }
    {
        let Some(dir) = self.places.get(place) else {
            return Err(GuideError::NoPlace);
        };
        Ok(self.decide_all_in(dir, listed)?)
    }

    /// What decides on an entry of a directory.
    fn why_in(
        &self,
        dir: &Entered,
        name: &str,
        is_dir: bool,
    ) -> Result<Match<Reason<'_>>, AllocError>
        ensures value { (at : Reached) → Stands (slots_of self.now.levels) dir.now at
            → IfOk result (λ m. match_map (why_of (entry at name.now).text) m ≡ why_at self.now.settings self.now.outside (entry at name.now) is_dir) }
    {
        what_counts_decides();
        let texts = texts_of(self.alloc, dir, name)?;
        let asked = asked_by(&texts, is_dir);
        let level = dir.level;
        judge(&self.settings, &self.outside, &self.levels, level, &asked)
    }

    /// What decides on an entry of the directory at a place, and whether it ignores or whitelists it,
    /// whatever its depth and its size are. A rule of a directory comes with the offset of what it was
    /// asked about in the directory's text with the name after it.
    ///
    /// # Errors
    /// Out of memory, a place that is none, and a name that is none.
    pub fn why(
        &self,
        place: Place,
        name: &str,
        is_dir: bool,
    ) -> Result<Match<Reason<'_>>, GuideError>
        ensures value { (depth : ℕ) (at : Reached) → StandsFor self.now place depth at
            → IfOk result (λ m. match_map (why_of (entry at name.now).text) m ≡ why_at self.now.settings self.now.outside (entry at name.now) is_dir) }
        ensures there { IfOk result (λ m. IsAsked self.now.places place name.now) }
        ensures refused { IfErr result (λ e. IsRefused self.now.places place name.now e) }
    {
        let Some(dir) = self.places.get(place) else {
            return Err(GuideError::NoPlace);
        };
        if !is_name(name) {
            return Err(GuideError::NoName);
        }
        Ok(self.why_in(dir, name, is_dir)?)
    }

    /// What decides on an entry of a directory, by name.
    pub(crate) fn cause_in(
        &self,
        dir: &Entered,
        name: &str,
        is_dir: bool,
    ) -> Result<Match<Cause>, AllocError>
        ensures value { (at : Reached) → Stands (slots_of self.now.levels) dir.now at
            → IfOk result (λ m. match_map cited_of m ≡ cause_at self.now.settings self.now.outside (entry at name.now) is_dir) }
    {
        what_counts_decides();
        let texts = texts_of(self.alloc, dir, name)?;
        let asked = asked_by(&texts, is_dir);
        let level = dir.level;
        let found = judge(&self.settings, &self.outside, &self.levels, level, &asked)?;
        causes(self.alloc, texts.text.as_str(), &found)
    }

    /// The same as `why`, by name: what it says owns all that it names.
    ///
    /// # Errors
    /// Out of memory, a place that is none, and a name that is none.
    pub fn cause(&self, place: Place, name: &str, is_dir: bool) -> Result<Match<Cause>, GuideError>
        ensures value { (depth : ℕ) (at : Reached) → StandsFor self.now place depth at
            → IfOk result (λ m. match_map cited_of m ≡ cause_at self.now.settings self.now.outside (entry at name.now) is_dir) }
        ensures there { IfOk result (λ m. IsAsked self.now.places place name.now) }
        ensures refused { IfErr result (λ e. IsRefused self.now.places place name.now e) }
    {
        let Some(dir) = self.places.get(place) else {
            return Err(GuideError::NoPlace);
        };
        if !is_name(name) {
            return Err(GuideError::NoName);
        }
        Ok(self.cause_in(dir, name, is_dir)?)
    }
}
