//! What a host told: files whose answers are those that it gave.
ghost use Rattle.std.specs.Prelude.{◌≡◌, IfOk, List, None, OnOk, Some, drop, false, is_some, length, map, string_bytes, ℕ, if◌then◌else◌};
ghost use Rattle.std.specs.List.{list_any};
ghost use Rattle.std.specs.Option.{option_copied};
ghost use Rattle.std.specs.Str.{bytes_eq};
ghost use Rattle.ignore_base.specs.Paths.{at_bound, strip_prefix_of};
ghost use Rattle.ignore_guide.specs.Answers.{answer_at};
ghost use Rattle.ignore_guide.specs.Told.{IsAlmostFresh, IsFresh, is_absent};

use crate::answers::Answers;
use ignore_base::Fault;
use ignore_base::text::strip_prefix;
use ignore_files::{Bytes, Contents, Files, Identity, Listing, Metadata, Name, Refusal};
use std::alloc::{AllocError, Global};

/// What a host told, by paths. Of a path the last that it told counts.
#[derive(Drop)]
pub struct Told {
    /// What paths lead to, links followed.
    pub kinds: Answers<Result<Metadata, Fault>>,
    /// What can be read of the files there, or why they can't be opened.
    pub reads: Answers<Result<Contents, Fault>>,
    /// Their canonical paths.
    pub paths: Answers<Result<Name, Fault>>,
    /// Paths at which nothing is, nor below them.
    pub lacked: Vec<String>,
}

/// Whether what follows as much of a path as another is long is empty or begins with a slash, or
/// there is no such part: else the path is neither the other one nor below it, whatever its first
/// part is, which takes longer to compare.
fn may_reach(lacked: &str, path: &str) -> bool
    ensures { result ≡ false → at_bound lacked.now (drop (length lacked.now) path.now) ≡ false }
{
    match path.get(lacked.len()..) {
        Some(rest) => {
            rest.is_empty() || rest.starts_with('/') || lacked.is_empty() || lacked.ends_with('/')
        }
        None => true,
    }
}

/// Whether a path is one at which nothing is, or below it.
fn is_absent(lacked: &str, path: &str) -> bool
    ensures { result ≡ is_absent lacked.now path.now }
{
    if !may_reach(lacked, path) {
        return false;
    }
    match strip_prefix(lacked, path) {
        Some(_) => true,
        None => false,
    }
}

/// Whether nothing is at a path, since it is one of these, or below one.
fn is_among(lacked: &[String], path: &str) -> bool
    ensures { result ≡ list_any (λ l. is_absent (string_bytes l) path.now) lacked.now }
{
    lacked.iter().any(|other| is_absent(other.as_str(), path))
}

impl Told {
    /// Nothing was told. It allocates nothing.
    pub fn nothing(alloc: Global) -> Told
        ensures { IsFresh result }
    {
        Told {
            kinds: Answers::new(alloc),
            reads: Answers::new(alloc),
            paths: Answers::new(alloc),
            lacked: Vec::new(alloc),
        }
    }

    /// Nothing was told but that nothing is at these paths, nor below them. It allocates nothing.
    pub fn lacking(alloc: Global, lacked: Vec<String>) -> Told
        ensures fresh { IsAlmostFresh result }
        ensures lacked { result.lacked ≡ lacked }
    {
        Told {
            kinds: Answers::new(alloc),
            reads: Answers::new(alloc),
            paths: Answers::new(alloc),
            lacked,
        }
    }

    /// Whether it was told that nothing is at a path.
    pub(crate) fn lacks(&self, path: &str) -> bool
        ensures { result ≡ list_any (λ l. is_absent (string_bytes l) path.now) self.now.lacked.items }
    {
        is_among(self.lacked.as_slice(), path)
    }

    /// Takes down what a path leads to.
    pub(crate) fn add_kind(
        &mut self,
        path: Name,
        answer: Result<Metadata, Fault>,
    ) -> Result<(), AllocError>
        ensures kinds { OnOk result ((text : List ℕ) → answer_at self.new.kinds.list.items text
            ≡ (if bytes_eq path text then Some answer else answer_at self.old.kinds.list.items text)) }
        ensures reads { self.new.reads ≡ self.old.reads }
        ensures paths { self.new.paths ≡ self.old.paths }
        ensures lacked { self.new.lacked ≡ self.old.lacked }
    {
        self.kinds.add(path, answer)
    }

    /// Takes down what can be read at a path.
    pub(crate) fn add_read(
        &mut self,
        path: Name,
        answer: Result<Contents, Fault>,
    ) -> Result<(), AllocError>
        ensures reads { OnOk result ((text : List ℕ) → answer_at self.new.reads.list.items text
            ≡ (if bytes_eq path text then Some answer else answer_at self.old.reads.list.items text)) }
        ensures kinds { self.new.kinds ≡ self.old.kinds }
        ensures paths { self.new.paths ≡ self.old.paths }
        ensures lacked { self.new.lacked ≡ self.old.lacked }
    {
        self.reads.add(path, answer)
    }

    /// Takes down the canonical path of a path.
    pub(crate) fn add_path(
        &mut self,
        path: Name,
        answer: Result<Name, Fault>,
    ) -> Result<(), AllocError>
        ensures paths { OnOk result ((text : List ℕ) → answer_at self.new.paths.list.items text
            ≡ (if bytes_eq path text then Some answer else answer_at self.old.paths.list.items text)) }
        ensures kinds { self.new.kinds ≡ self.old.kinds }
        ensures reads { self.new.reads ≡ self.old.reads }
        ensures lacked { self.new.lacked ≡ self.old.lacked }
    {
        self.paths.add(path, answer)
    }
}

/// A copy of what was read.
pub(crate) fn copied(alloc: Global, contents: &Contents) -> Result<Contents, AllocError>
    ensures { IfOk result (λ copy. copy ≡ contents.now) }
{
    let bytes = Vec::from_slice(alloc, contents.bytes.as_slice())?;
    Ok(Contents {
        bytes: Bytes::new(bytes),
        fault: contents.fault,
    })
}

/// What wasn't told is out of memory.
impl Files for Told {
    ghost use Rattle.std.specs.Prelude.{◌≡◌, Err};
    ghost use Rattle.ignore_files.specs.declared.types.Refusal.TheVariants.{Memory};
    ghost use Rattle.ignore_guide.specs.Told.{CanonicalTold, ReadTold, StatTold};

    ghost stat_gives = { λ told path follow answer. StatTold told path follow answer };

    ghost list_gives = { λ told path answer. answer ≡ Err Memory };

    ghost contents_gives = { λ told path answer. ReadTold told path answer };

    ghost canonical_gives = { λ told path answer. CanonicalTold told path answer };

    ghost identity_gives = { λ told path follow answer. answer ≡ Err Memory };

    fn stat(&self, _alloc: Global, path: &str, follow: bool) -> Result<Metadata, Refusal> {
        if !follow {
            return Err(Refusal::Memory);
        }
        if self.lacks(path) {
            return Err(Refusal::Fault(Fault::NotFound));
        }
        match self.kinds.get(path) {
            Some(Ok(metadata)) => Ok(*metadata),
            Some(Err(fault)) => Err(Refusal::Fault(*fault)),
            None => Err(Refusal::Memory),
        }
    }

    fn list(&self, _alloc: Global, _path: &str) -> Result<Listing, Refusal> {
        Err(Refusal::Memory)
    }

    fn contents(&self, alloc: Global, path: &str) -> Result<Contents, Refusal> {
        match self.reads.get(path) {
            Some(Ok(contents)) => Ok(copied(alloc, contents)?),
            Some(Err(fault)) => Err(Refusal::Fault(*fault)),
            None => Err(Refusal::Memory),
        }
    }

    fn canonical(&self, alloc: Global, path: &str) -> Result<Name, Refusal> {
        match self.paths.get(path) {
            Some(Ok(name)) => Ok(Name::from_str(alloc, name.as_str())?),
            Some(Err(fault)) => Err(Refusal::Fault(*fault)),
            None => Err(Refusal::Memory),
        }
    }

    fn identity(
        &self,
        _alloc: Global,
        _path: &str,
        _follow: bool,
    ) -> Result<Option<Identity>, Refusal> {
        Err(Refusal::Memory)
    }
}
