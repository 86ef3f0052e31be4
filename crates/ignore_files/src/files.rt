//! The trait of a view of a tree of files.
use crate::types::{Contents, Identity, Listing, Metadata, Name, Refusal};
use std::alloc::Global;

/// A view of a tree of files, by five calls with the text of a path.
///
/// A contract sees, for each call, a relation between the value, the call and an answer that
/// the call may give. A value is consistent with a tree (`IsHonest`) where each of these answers,
/// other than `Refusal::Memory`, is the tree's.
///
/// **An own type states all five relations**, in its `impl`. A member that isn't given allows every
/// answer, so a value of a type that leaves one out is consistent with no tree. It can be asked and
/// walked like any other, but what contracts promise for each tree that it is consistent with
/// (each clause with `IsHonest`) then says nothing. `MemoryTree` and `DiskFiles` show the form. A
/// type that asks another `Files`, and is only out of memory more often, takes that one's
/// relations, or `Refusal::Memory`.
pub trait Files {
    ghost use Rattle.std.specs.Prelude.{Bool, List, Result, Option, IsTrue, ⊤};
    ghost use Rattle.ignore_base.specs.Text.{Path};
    ghost use Rattle.ignore_files.specs.Whole.{AreWhole};
    ghost use Rattle.ignore_files.specs.Present.{ReadWhatIsThere};
    ghost use Rattle.ignore_files.specs.declared.types.Refusal.{Refusal};
    ghost use Rattle.ignore_files.specs.declared.types.Metadata.{Metadata};
    ghost use Rattle.ignore_files.specs.declared.types.Listed.{Listed};
    ghost use Rattle.ignore_files.specs.declared.types.Contents.{Contents};
    ghost use Rattle.ignore_files.specs.declared.types.Identity.{Identity};

    ghost stat_gives: { Self → Path → Bool → Result Metadata Refusal → Type 0 } = { λ _ _ _ _. ⊤ };

    ghost list_gives: { Self → Path → Result (List Listed) Refusal → Type 0 } = { λ _ _ _. ⊤ };

    ghost contents_gives: { Self → Path → Result Contents Refusal → Type 0 } = { λ _ _ _. ⊤ };

    ghost canonical_gives: { Self → Path → Result Path Refusal → Type 0 } = { λ _ _ _. ⊤ };

    ghost identity_gives: { Self → Path → Bool → Result (Option Identity) Refusal → Type 0 } = { λ _ _ _ _. ⊤ };

    /// What the path leads to, and its size. A link as last component is followed where `follow` is
    /// set, or where a slash follows it; links before it always are.
    fn stat(&self, alloc: Global, path: &str, follow: bool) -> Result<Metadata, Refusal>
        ensures { stat_gives self.now path.now follow result };

    /// What the directory at the path lists, in its order, links followed up to it. The kinds
    /// of what is listed are those of the entries themselves, links not followed.
    fn list(&self, alloc: Global, path: &str) -> Result<Listing, Refusal>
        ensures { list_gives self.now path.now result };

    /// What can be read of the file at the path, links followed. It is an `Err` where the file
    /// can't be opened; a later fault is in the `Contents`, after what was read.
    fn contents(&self, alloc: Global, path: &str) -> Result<Contents, Refusal>
        ensures { contents_gives self.now path.now result };

    /// The canonical path, from `/` and without links, of what the path leads to, links followed.
    fn canonical(&self, alloc: Global, path: &str) -> Result<Name, Refusal>
        ensures { canonical_gives self.now path.now result };

    /// The numbers of what the path leads to, or `None` where they are unknown. Links are
    /// followed as by `stat`.
    fn identity(&self, alloc: Global, path: &str, follow: bool) -> Result<Option<Identity>, Refusal>
        ensures { identity_gives self.now path.now follow result };

    /// Whether its listings are known to be whole: where one has no fault, what it lacks isn't
    /// there. A walk then asks for no file of rules that a directory doesn't list.
    ///
    /// A type that answers `true` proves it, of each tree with which the value is consistent.
    fn listings_are_whole(&self) -> bool
        ensures { IsTrue result → AreWhole (stat_gives self.now) (list_gives self.now) }
    {
        false // nothing is known of listings
    }

    /// Whether it is known to read only what is there: where `contents` returns some, a followed
    /// `stat` can return too. Of a file whose contents were returned one needn't ask then whether it
    /// is there.
    ///
    /// A type that answers `true` proves it of the answers that the value may give.
    fn reads_what_is_there(&self) -> bool
        ensures { IsTrue result → ReadWhatIsThere (stat_gives self.now) (contents_gives self.now) }
    {
        false // nothing is known of reads
    }
}
