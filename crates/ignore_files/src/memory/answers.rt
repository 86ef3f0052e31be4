//! The five answers of a tree in memory.
ghost use Rattle.std.specs.Prelude.{◌≡◌, [], MatchResult, map};
ghost use Rattle.ignore_files.specs.Tree.{Answers};
ghost use Rattle.ignore_files.specs.Answers.{listed_of, stat_of, list_of, read_of, contents_of};

use crate::files::Files;
use crate::memory::MemoryTree;
use crate::memory::entry::Entry;
use crate::memory::node::{Cut, Kind, Node};
use crate::memory::resolve::find_node;
use crate::types::{Bytes, Contents, Identity, Listed, Listing, Metadata, Name, Refusal};
use ignore_base::Fault;
use std::alloc::Global;

fn list_entries(alloc: Global, entries: &[Entry]) -> Result<Vec<Listed>, Refusal>
    ensures { MatchResult result (λ listed. listed.items ≡ map listed_of entries.now) (λ e. e ≡ Refusal.Memory) }
{
    let mut listed = Vec::new(alloc);
    for entry in entries {
        listed.push(list_entry(alloc, entry)?)?;
    }
    Ok(listed)
}

fn list_entry(alloc: Global, entry: &Entry) -> Result<Listed, Refusal>
    ensures { MatchResult result (λ listed. listed ≡ listed_of entry.now) (λ e. e ≡ Refusal.Memory) }
{
    match entry {
        Entry::Nameless => Ok(Listed::Fault(Fault::BadName)),
        Entry::Named {
            name,
            file_type,
            ..
        } => Ok(Listed::Entry {
            name: Name::new(String::from_str(alloc, name.as_str())?),
            file_type: *file_type,
        }),
    }
}

fn stat_of(node: &Node) -> Result<Metadata, Refusal>
    ensures { Answers (stat_of node.now) result }
{
    match node.stat_fault {
        Some(fault) => Err(Refusal::Fault(fault)),
        None => Ok(Metadata {
            file_type: node.kind.file_type(),
            len: node.len,
        }),
    }
}

fn list_of(alloc: Global, node: &Node) -> Result<Listing, Refusal>
    ensures { Answers (list_of node.now) result }
{
    if let Some(fault) = node.list_fault {
        return Err(Refusal::Fault(fault));
    }
    match &node.kind {
        Kind::Dir(entries) => Ok(Listing::new(list_entries(alloc, entries.as_slice())?)),
        Kind::File(_) => Err(Refusal::Fault(Fault::NotADirectory)),
        Kind::Link(_) => Err(Refusal::Fault(Fault::NotADirectory)),
    }
}

fn read(alloc: Global, bytes: &[u8], cut: Option<Cut>) -> Result<Contents, Refusal>
    ensures { MatchResult result (λ contents. contents ≡ read_of bytes.now cut) (λ e. e ≡ Refusal.Memory) }
{
    match cut {
        None => Ok(Contents {
            bytes: Bytes::new(Vec::from_slice(alloc, bytes)?),
            fault: None,
        }),
        Some(cut) => {
            let len = cut.len.min(bytes.len());
            Ok(Contents {
                bytes: Bytes::new(Vec::from_slice(alloc, &bytes[..len])?),
                fault: Some(cut.fault),
            })
        }
    }
}

fn contents_of(alloc: Global, node: &Node) -> Result<Contents, Refusal>
    ensures { MatchResult result (λ contents. contents ≡ contents_of node.now.cut node.now.kind) (λ e. e ≡ Refusal.Memory) }
{
    match &node.kind {
        Kind::File(bytes) => read(alloc, bytes.as_slice(), node.cut),
        Kind::Dir(_) => Ok(unreadable(alloc)),
        Kind::Link(_) => Ok(unreadable(alloc)),
    }
}

fn unreadable(alloc: Global) -> Contents
    ensures bytes { result.bytes ≡ [] }
    ensures fault { result.fault ≡ Some Fault.IsADirectory }
{
    Contents {
        bytes: Bytes::new(Vec::new(alloc)),
        fault: Some(Fault::IsADirectory),
    }
}

impl MemoryTree {
    ghost use Rattle.std.specs.Prelude.{◌≡◌, Ok, Err, MatchResult};
    ghost use Rattle.ignore_files.specs.Gives.{IsHonest};
    ghost use Rattle.ignore_files.specs.Answers.{tree_of, found};

    /// It is consistent with the tree of its nodes.
    pub fn is_honest(&self)
        ensures { IsHonest ⟦<MemoryTree as Files>⟧ self.now (tree_of self.now) }
    {}

    fn found(&self, path: &str, follow: bool) -> Result<&Node, Fault>
        ensures { MatchResult result (λ n. found self.now path.now follow ≡ Ok n.now) (λ e. found self.now path.now follow ≡ Err e) }
    {
        find_node(&self.nodes, self.cwd.as_str(), path, follow)
    }
}

impl Files for MemoryTree {
    ghost use Rattle.ignore_files.specs.Tree.{Answers};
    ghost use Rattle.ignore_files.specs.Answers.{tree_of};

    ghost stat_gives = { λ s path follow r. Answers ((tree_of s).stat path follow) r };

    ghost list_gives = { λ s path r. Answers ((tree_of s).list path) r };

    ghost contents_gives = { λ s path r. Answers ((tree_of s).contents path) r };

    ghost canonical_gives = { λ s path r. Answers ((tree_of s).canonical path) r };

    ghost identity_gives = { λ s path follow r. Answers ((tree_of s).identity path follow) r };

    fn stat(&self, _alloc: Global, path: &str, follow: bool) -> Result<Metadata, Refusal> {
        stat_of(self.found(path, follow)?)
    }

    fn list(&self, alloc: Global, path: &str) -> Result<Listing, Refusal> {
        list_of(alloc, self.found(path, true)?)
    }

    fn contents(&self, alloc: Global, path: &str) -> Result<Contents, Refusal> {
        contents_of(alloc, self.found(path, true)?)
    }

    fn canonical(&self, alloc: Global, path: &str) -> Result<Name, Refusal> {
        let node = self.found(path, true)?;
        Ok(Name::new(String::from_str(alloc, node.path.as_str())?))
    }

    fn identity(
        &self,
        _alloc: Global,
        path: &str,
        follow: bool,
    ) -> Result<Option<Identity>, Refusal> {
        Ok(self.found(path, follow)?.identity)
    }

    fn listings_are_whole(&self) -> bool {
        true
    }

    /// It isn't known of each: a fault can be set for `stat` alone.
    fn reads_what_is_there(&self) -> bool {
        false
    }
}
