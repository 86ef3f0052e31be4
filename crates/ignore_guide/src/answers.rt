//! Answers by paths.
//!
//! A call has few: some for each directory above a root, and one for each file of rules that is told
//! by its name. So a list serves best.
ghost use Rattle.std.specs.Prelude.{◌≡◌, [], IfOk, List, OnOk, Some, is_some, not, reverse, if◌then◌else◌};
ghost use Rattle.std.specs.List.{find};
ghost use Rattle.std.specs.Option.{option_copied};
ghost use Rattle.std.specs.Str.{bytes_eq};
ghost use Rattle.ignore_base.specs.Text.{Path};
ghost use Rattle.ignore_guide.specs.Answers.{answer_at};

use ignore_files::Name;
use std::alloc::{AllocError, Global};

/// An answer, and the path that it is of.
#[derive(Drop)]
pub struct Answer<V> {
    /// The path.
    pub path: Name,
    /// The answer.
    pub value: V,
}

/// Answers by paths, in the order in which they came. Of a path the last one counts.
#[derive(Drop)]
pub struct Answers<V> {
    /// The answers.
    pub list: Vec<Answer<V>>,
}

/// The last answer of a path.
fn last<'a, V>(answers: &'a [Answer<V>], path: &str) -> Option<&'a Answer<V>>
    ensures { option_copied result ≡ find (λ a. bytes_eq a.path path.now) (reverse answers.now) }
{
    answers
        .iter()
        .rev()
        .find(|answer| answer.path.as_str() == path)
}

impl<V: Drop> Answers<V> {
    /// No answers. It allocates nothing.
    pub(crate) fn new(alloc: Global) -> Answers<V>
        ensures { result.list.items ≡ [] }
    {
        Answers {
            list: Vec::new(alloc),
        }
    }

    /// Adds an answer.
    pub(crate) fn add(&mut self, path: Name, value: V) -> Result<(), AllocError>
        ensures { OnOk result ((text : Path) → answer_at self.new.list.items text
            ≡ (if bytes_eq path text then Some value else answer_at self.old.list.items text)) }
    {
        self.list.push(Answer { path, value })?;
        Ok(())
    }

    /// Whether there is an answer of a path. Where it may stand is looked at first.
    pub(crate) fn has(&self, at: usize, path: &str) -> bool
        ensures { result ≡ is_some (answer_at self.now.list.items path.now) }
    {
        match self.list.as_slice().get(at) {
            Some(answer) => answer.path.as_str() == path || self.get(path).is_some(),
            None => self.get(path).is_some(),
        }
    }

    /// The first of some paths without an answer. Answers mostly come in the order of the paths.
    pub(crate) fn first_without<'p>(&self, paths: &'p [Name]) -> Option<&'p Name>
        ensures { option_copied result ≡ find (λ path. not (is_some (answer_at self.now.list.items path))) paths.now }
    {
        for at in 0..paths.len() {
            let path = &paths[at];
            if !self.has(at, path.as_str()) {
                return Some(path);
            }
        }
        None
    }

    /// The answer of a path.
    pub(crate) fn get(&self, path: &str) -> Option<&V>
        ensures { option_copied result ≡ answer_at self.now.list.items path.now }
    {
        match last(self.list.as_slice(), path) {
            Some(answer) => Some(&answer.value),
            None => None,
        }
    }
}
