//! Trees in memory, of which one call is refused, and which count the others.

use answers::{Answer, Counting, fault_of};
use ignore_base::Error;
use ignore_files::{
    Contents, Env, Fault, Files, Identity, Listing, MemoryTree, Metadata, Name, Refusal,
};
use serde_json::Value;
use std::alloc::Global;
use std::cell::Cell;
use vectors::{Trouble, item, text_at};

/// The name of the field that says which call is refused, and how: the third one by
/// `[3, "NotFound"]`, with a fault, or by `[3, "Memory"]`. Where it is missing none is.
const REFUSE: &str = "refuse";

/// A tree in memory, of which one call is refused. The others are counted.
#[derive(Drop)]
pub struct Refusing<'t> {
    tree: Counting<'t, MemoryTree>,
    refusal: Refusal,
    /// Which of the calls to come is refused, counted from 1, or 0 for none.
    turn: Cell<u64>,
}

impl<'t> Refusing<'t> {
    /// The tree, as a vector says.
    pub fn of(alloc: Global, tree: &'t MemoryTree, input: &Value) -> Result<Refusing<'t>, Trouble> {
        match input.get(REFUSE) {
            None => Ok(Refusing::new(alloc, tree, Refusal::Fault(Fault::Other), 0)),
            Some(refuse) => Ok(Refusing::new(alloc, tree, refusal(refuse)?, turn(refuse)?)),
        }
    }

    fn new(alloc: Global, tree: &'t MemoryTree, refusal: Refusal, turn: u64) -> Refusing<'t> {
        Refusing {
            tree: Counting::new(alloc, tree),
            refusal,
            turn: Cell::new(turn),
        }
    }

    fn take_turn(&self) -> Result<(), Refusal> {
        let turn = self.turn.get();
        self.turn.set(turn.saturating_sub(1));
        if turn == 1 { Err(self.refusal) } else { Ok(()) }
    }

    /// Forgets what was counted, before a call is made again.
    pub fn forget(&self, alloc: Global) {
        self.tree.forget(alloc);
    }

    /// Puts `calls` where a call of the files was made of a path too often: no file of rules has to be
    /// asked twice.
    pub fn put_excess(&self, answer: &mut Answer, alloc: Global, env: &Env) {
        if let Some(excess) = self.tree.taken(alloc).excess_outside(env) {
            answer.put("calls", excess);
        }
    }

    /// The error of a call that was out of memory, where it was the tree that reported this.
    pub fn reported<'e>(&self, error: &'e Error) -> Result<&'e Error, Trouble> {
        if self.reported_memory() {
            Ok(error)
        } else {
            Err(Trouble::Memory)
        }
    }

    /// Whether the call that is refused was made, and reported out of memory.
    pub fn reported_memory(&self) -> bool {
        self.turn.get() == 0 && self.refusal == Refusal::Memory
    }
}

fn turn(refuse: &Value) -> Result<u64, Trouble> {
    match item(refuse, 0, REFUSE)?.as_u64() {
        Some(turn) => Ok(turn),
        None => Err(Trouble::Field(REFUSE)),
    }
}

fn refusal(refuse: &Value) -> Result<Refusal, Trouble> {
    match text_at(refuse, 1, REFUSE)? {
        "Memory" => Ok(Refusal::Memory),
        name => Ok(Refusal::Fault(fault_of(name, REFUSE)?)),
    }
}

impl Files for Refusing<'_> {
    fn stat(&self, alloc: Global, path: &str, follow: bool) -> Result<Metadata, Refusal> {
        self.take_turn()?;
        self.tree.stat(alloc, path, follow)
    }

    fn list(&self, alloc: Global, path: &str) -> Result<Listing, Refusal> {
        self.take_turn()?;
        self.tree.list(alloc, path)
    }

    fn contents(&self, alloc: Global, path: &str) -> Result<Contents, Refusal> {
        self.take_turn()?;
        self.tree.contents(alloc, path)
    }

    fn canonical(&self, alloc: Global, path: &str) -> Result<Name, Refusal> {
        self.take_turn()?;
        self.tree.canonical(alloc, path)
    }

    fn identity(
        &self,
        alloc: Global,
        path: &str,
        follow: bool,
    ) -> Result<Option<Identity>, Refusal> {
        self.take_turn()?;
        self.tree.identity(alloc, path, follow)
    }
}
