//! What a handle keeps.

use crate::findings::Findings;
use crate::guided::Guided;
use crate::setup::Setup;
use crate::walked::Walked;
use ignore::files::MemoryTree;
use ignore::gitignore::{Gitignore, GitignoreBuilder};
use ignore::{Error, IncrementalIgnore};

/// Rules that lines are added to, and what is wrong with the line or the file that was added last.
#[derive(Drop)]
pub struct Lines {
    pub builder: GitignoreBuilder,
    pub problem: Option<Error>,
}

/// What a handle keeps.
#[derive(Drop)]
pub enum Kept {
    /// Rules that lines are added to.
    Lines(Lines),
    /// Rules that are asked.
    Rules(Gitignore),
    /// A tree of files, as its host tells it.
    Tree(MemoryTree),
    /// The settings of matchers and walks.
    Setup(Setup),
    /// A matcher of single paths.
    Matcher(IncrementalIgnore),
    /// The items of a walk.
    Walk(Walked),
    /// A guide for a host that walks by itself.
    Guide(Guided),
    /// What is found of rules, over all paths.
    Findings(Findings),
    /// Nothing: a call has what was kept, and gives it back before it ends.
    Lent,
}
