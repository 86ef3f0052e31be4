//! A tree in memory of which one call is refused.

use ignore_files::{Contents, Files, Identity, Listing, MemoryTree, Metadata, Name, Refusal};
use std::alloc::Global;
use std::cell::Cell;

/// A tree in memory of which one call is refused, the next one where `turn` is 1, and none where it
/// is 0.
#[derive(Drop)]
pub struct Refusing<'t> {
    /// The tree.
    pub tree: &'t MemoryTree,
    /// How the call is refused.
    pub refusal: Refusal,
    /// Which of the calls to come is refused, counted from 1.
    pub turn: Cell<u64>,
}

impl Refusing<'_> {
    fn take_turn(&self) -> Result<(), Refusal> {
        let turn = self.turn.get();
        self.turn.set(turn.saturating_sub(1));
        if turn == 1 { Err(self.refusal) } else { Ok(()) }
    }
}

impl Files for Refusing<'_> {
    fn stat(&self, alloc: Global, path: &str, follow: bool) -> Result<Metadata, Refusal> {
        self.take_turn()?;
        self.tree.stat(alloc, path, follow)
    }

    fn list(&self, alloc: Global, path: &str) -> Result<Listing, Refusal> {
        self.take_turn()?;
        self.tree.list(alloc, path)
    }

    fn contents(&self, alloc: Global, path: &str) -> Result<Contents, Refusal> {
        self.take_turn()?;
        self.tree.contents(alloc, path)
    }

    fn canonical(&self, alloc: Global, path: &str) -> Result<Name, Refusal> {
        self.take_turn()?;
        self.tree.canonical(alloc, path)
    }

    fn identity(
        &self,
        alloc: Global,
        path: &str,
        follow: bool,
    ) -> Result<Option<Identity>, Refusal> {
        self.take_turn()?;
        self.tree.identity(alloc, path, follow)
    }
}
