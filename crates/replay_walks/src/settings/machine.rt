//! The machine of a vector: a tree of files in memory, and the environment of a run.

use answers::{CALLS, environment, tree_of_calls};
use ignore::files::{Env, MemoryTree};
use serde_json::Value;
use std::alloc::{AllocError, Global};
use std::cell::Cell;
use std::rc::Rc;
use vectors::{Trouble, field, list, text};

/// A tree in memory and an environment, and what a filter was shown.
#[derive(Drop)]
pub(crate) struct Machine {
    /// The tree.
    pub(crate) tree: MemoryTree,
    /// The environment.
    pub(crate) env: Env,
    /// The entries that a filter was shown.
    pub(crate) shown: Rc<Shown>,
}

/// The paths of entries in turn.
#[derive(Drop)]
pub(crate) struct Shown {
    /// None after an allocation failed.
    paths: Cell<Option<Vec<String>>>,
}

impl Shown {
    /// No entries.
    pub(crate) fn new(alloc: Global) -> Shown {
        Shown {
            paths: Cell::new(Some(Vec::new(alloc))),
        }
    }

    /// Appends a path.
    pub(crate) fn note(&self, alloc: Global, path: &str) {
        let paths = self.paths.replace(None);
        self.paths.set(with(alloc, paths, path));
    }

    /// The paths since this was asked last.
    pub(crate) fn taken(&self, alloc: Global) -> Result<Vec<String>, AllocError> {
        match self.paths.replace(Some(Vec::new(alloc))) {
            Some(paths) => Ok(paths),
            None => Err(AllocError),
        }
    }
}

/// The paths and one more, unless out of memory.
fn with(alloc: Global, paths: Option<Vec<String>>, path: &str) -> Option<Vec<String>> {
    let mut paths = paths?;
    let path = String::from_str(alloc, path).ok()?;
    match paths.push(path) {
        Ok(()) => Some(paths),
        Err(_) => None,
    }
}

/// The machine of a vector.
pub(crate) fn machine_of(alloc: Global, input: &Value) -> Result<Machine, Trouble> {
    let (cwd, calls) = (text(input, "cwd")?, list(input, CALLS)?);
    let env = environment(alloc, field(input, "env")?)?;
    let tree = tree_of_calls(alloc, cwd, calls)?;
    let shown = Rc::new(alloc, Shown::new(alloc))?;
    Ok(Machine { tree, env, shown })
}
