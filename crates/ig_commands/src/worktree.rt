//! A tree of files as `ignored` and `unused` meet it: without what repositories keep of their own.
ghost use Rattle.std.specs.Prelude.{◌≡◌, IfOk, IfErr, List, Result, filter, string_bytes, map};
ghost use Rattle.std.specs.Str.{bytes_eq};
ghost use Rattle.std.specs.List.{AllZip, list_any};
ghost use Rattle.ignore_files.specs.Gives.{IsHonest};
ghost use Rattle.ignore_base.specs.declared.fault.Fault.{Fault};
ghost use Rattle.ignore_files.specs.Tree.{Answers, Tree};
ghost use Rattle.ignore_files.specs.declared.types.Listed.{Listed as Thing};
ghost use Rattle.ignore_files.specs.declared.types.Refusal.TheVariants.{Memory};
ghost use Rattle.commands.specs.Walking.{IsTrimmed};
ghost use Rattle.ig_commands.specs.Worktree.{has_store, is_closed, is_inside, is_met, is_store, met_of, worktree};

use commands::internal::trimmed_roots;
use ig_options::Options;
use ignore_files::{Contents, Files, Identity, Listed, Listing, Metadata, Name, Refusal};
use std::alloc::{AllocError, Global};

/// Whether an entry of this name is what a repository keeps of its own.
pub(crate) fn is_store(name: &str) -> bool
    ensures { result ≡ is_store name.now }
{
    name == ".git" || name == ".jj"
}

/// Whether a path leads through an entry of such a name, or to one.
fn has_store(path: &str) -> bool
    ensures { result ≡ has_store path.now }
{
    path.split('/').any(|component| is_store(component))
}

/// Whether a thing that is listed is met: it is no entry of such a name.
fn is_met(listed: &Listed) -> bool
    ensures { result ≡ is_met listed.now }
{
    match listed {
        Listed::Entry { name, .. } => !is_store(name.as_str()),
        Listed::Fault(_) => true,
    }
}

/// What is met of a listing.
fn met_of(listing: Listing) -> Listing
    ensures { result ≡ filter is_met listing }
{
    let mut items = listing.into_vec();
    items.retain(|listed: &Listed| is_met(listed));
    Listing::new(items)
}

/// What is met of an answer.
fn met_in(answer: Result<Listing, Refusal>) -> Result<Listing, Refusal>
    ensures { (listed : Result (List Thing) Fault) → Answers listed answer → Answers (met_of listed) result }
{
    match answer {
        Ok(listing) => Ok(met_of(listing)),
        Err(refusal) => Err(refusal),
    }
}

/// Files of which no listing has an entry that a repository keeps of its own, and of which a root
/// that lies inside of such an entry lists nothing.
#[derive(Drop)]
pub(crate) struct Worktree<'a, F: Files> {
    pub(crate) files: &'a F,
    pub(crate) roots: Vec<Name>,
}

impl<F: Files> Worktree<'_, F> {
    /// It is consistent with the worktree of each tree with which those files are consistent.
    pub(crate) fn is_honest(&self)
        ensures { (tree : Tree) → IsHonest F.Files self.now.files.now tree
            → IsHonest ⟦<Worktree<'static, F> as Files>⟧ self.now (worktree self.now.roots.items tree) }
    {}

    /// Whether nothing is listed at a path: it is a root that lies inside of such an entry.
    fn is_closed(&self, alloc: Global, path: &str) -> Result<bool, Refusal>
        ensures closed { (tree : Tree) → IsHonest F.Files self.now.files.now tree
            → IfOk result (λ yes. yes ≡ is_closed self.now.roots.items tree path.now) }
        ensures out_of_memory { IfErr result (λ refusal. refusal ≡ Memory) }
    {
        if !is_among(path, &self.roots) {
            return Ok(false);
        }
        is_inside(alloc, self.files, path)
    }
}

impl<F: Files> Files for Worktree<'_, F> {
    ghost use Rattle.ignore_files.specs.Gives.{IsHonest};
    ghost use Rattle.ignore_files.specs.Tree.{Answers, Tree};
    ghost use Rattle.ig_commands.specs.Worktree.{worktree};

    ghost stat_gives = { λ w path follow r. F.stat_gives w.files.now path follow r };

    ghost list_gives = { λ w path r. (tree : Tree) → IsHonest F.Files w.files.now tree → Answers ((worktree w.roots.items tree).list path) r };

    ghost contents_gives = { λ w path r. F.contents_gives w.files.now path r };

    ghost canonical_gives = { λ w path r. F.canonical_gives w.files.now path r };

    ghost identity_gives = { λ w path follow r. F.identity_gives w.files.now path follow r };

    fn stat(&self, alloc: Global, path: &str, follow: bool) -> Result<Metadata, Refusal> {
        self.files.stat(alloc, path, follow)
    }

    fn list(&self, alloc: Global, path: &str) -> Result<Listing, Refusal> {
        if self.is_closed(alloc, path)? {
            return Ok(Listing::new(Vec::new(alloc)));
        }
        met_in(self.files.list(alloc, path))
    }

    fn contents(&self, alloc: Global, path: &str) -> Result<Contents, Refusal> {
        self.files.contents(alloc, path)
    }

    fn canonical(&self, alloc: Global, path: &str) -> Result<Name, Refusal> {
        self.files.canonical(alloc, path)
    }

    fn identity(
        &self,
        alloc: Global,
        path: &str,
        follow: bool,
    ) -> Result<Option<Identity>, Refusal> {
        self.files.identity(alloc, path, follow)
    }

    fn reads_what_is_there(&self) -> bool {
        self.files.reads_what_is_there()
    }
}

/// The roots of a command, without the slashes at their ends.
pub(crate) fn roots_of(alloc: Global, options: &Options) -> Result<Vec<Name>, AllocError>
    ensures { IfOk result (λ names. AllZip IsTrimmed (map string_bytes options.now.roots.items) names.items) }
{
    trimmed_roots(alloc, &options.roots)
}

/// Whether a path is one of these.
fn is_among(path: &str, paths: &[Name]) -> bool
    ensures { result ≡ list_any (bytes_eq path.now) paths.now }
{
    paths.iter().any(|other| path == other.as_str())
}

/// Whether what a path leads to lies inside of such an entry, by its text or by its canonical path.
fn is_inside<F: Files>(alloc: Global, files: &F, path: &str) -> Result<bool, Refusal>
    ensures inside { (tree : Tree) → IsHonest F.Files files.now tree → IfOk result (λ yes. yes ≡ is_inside tree path.now) }
    ensures out_of_memory { IfErr result (λ refusal. refusal ≡ Memory) }
{
    if has_store(path) {
        return Ok(true);
    }
    match files.canonical(alloc, path) {
        Ok(canonical) => Ok(has_store(canonical.as_str())),
        Err(Refusal::Fault(_)) => Ok(false),
        Err(Refusal::Memory) => Err(Refusal::Memory),
    }
}
