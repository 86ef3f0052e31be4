//! The answers of a matcher for paths in turn.

use crate::settings::{Machine, bounds_of, items_at};
use answers::{Answer, Bounds, Calls, Counting, Items, Questions, but_for_memory, tree_of_calls};
use ignore::files::{Files, MemoryTree, Refusal};
use ignore::text::join;
use ignore::{Error, Explanation, IncrementalIgnore, IncrementalMatch, WalkBuilder, check_paths};
use serde_json::Value;
use std::alloc::{AllocError, Global};
use vectors::{Trouble, flag_at, list, text, text_at};

/// The name of the field with what is done in turn.
const STEPS: &str = "steps";

/// Answers `added`, what was reported of each file that was added, and `steps`, the answer of each
/// step.
pub(crate) fn asked(
    alloc: Global,
    input: &Value,
    machine: &Machine,
    builder: &WalkBuilder,
    added: Result<Items, Trouble>,
) -> Result<Value, Trouble> {
    let added = added?;
    let steps = stepped(alloc, input, machine, builder)?;
    let mut answer = Answer::new(alloc);
    answer.put_value("added", added.value());
    answer.put_value("steps", steps.value());
    Ok(answer.value()?)
}

fn stepped(
    alloc: Global,
    input: &Value,
    machine: &Machine,
    builder: &WalkBuilder,
) -> Result<Items, Trouble> {
    let mut subject = Subject {
        matcher: matcher(machine, builder)?,
        other: matcher(machine, builder)?,
        calls: Calls::new(alloc),
        asked: Questions::new(alloc),
        later: None,
    };
    steps(alloc, input, machine, &mut subject)
}

fn steps(
    alloc: Global,
    input: &Value,
    machine: &Machine,
    subject: &mut Subject,
) -> Result<Items, Trouble> {
    let mut items = Items::new(alloc);
    let bounds = bounds_of(alloc, input)?;
    for step in list(input, STEPS)? {
        items.put_value(Ok(subject.take(alloc, input, machine, step)?));
        if let Some(excess) = subject.excess(alloc, machine, &bounds, step)? {
            items.put(excess);
        }
    }
    Ok(items)
}

/// The paths that a step asks about.
fn paths_in<'v>(alloc: Global, step: &'v Value) -> Result<Vec<&'v str>, Trouble> {
    let mut paths = Vec::new(alloc);
    match text_at(step, 0, STEPS)? {
        "ask" | "matched" | "explain" => paths.push(text_at(step, 1, STEPS)?)?,
        "check" => {
            for item in items_at(step, 1, STEPS)? {
                paths.push(text_at(item, 0, STEPS)?)?;
            }
        }
        _ => {}
    }
    Ok(paths)
}

/// A matcher that is asked, and the tree that is there from a step `tree` on.
#[derive(Drop)]
struct Subject {
    matcher: IncrementalIgnore,
    /// Another one, which says what is ignored on the way to a path.
    other: IncrementalIgnore,
    /// The calls of the files since the matcher kept nothing.
    calls: Calls,
    /// What it was asked since.
    asked: Questions,
    later: Option<MemoryTree>,
}

impl Subject {
    /// Takes a step, and returns its answer.
    fn take(
        &mut self,
        alloc: Global,
        input: &Value,
        machine: &Machine,
        step: &Value,
    ) -> Result<Value, Trouble> {
        match text_at(step, 0, STEPS)? {
            "clone" => self.matcher = self.matcher.clone()?,
            "tree" => self.later = Some(later_tree(alloc, input, step)?),
            _ => {
                let tree = self.later.as_ref().unwrap_or(&machine.tree);
                let files = Counting::new(alloc, tree);
                let value = done(alloc, &files, &mut self.matcher, step)?;
                self.calls.append(files.taken(alloc))?;
                return Ok(value);
            }
        }
        Ok(Value::Null)
    }

    /// What is too much of the calls since the matcher kept nothing, if anything is: by the bounds,
    /// or below a directory that is ignored. After a step that isn't a question it may keep less.
    fn excess(
        &mut self,
        alloc: Global,
        machine: &Machine,
        bounds: &Bounds<'_>,
        step: &Value,
    ) -> Result<Option<&'static str>, Trouble> {
        let paths = paths_in(alloc, step)?;
        if paths.is_empty() {
            self.calls = Calls::new(alloc);
            self.asked = Questions::new(alloc);
            return Ok(None);
        }
        let tree = self.later.as_ref().unwrap_or(&machine.tree);
        self.asked.is_dir = is_dir_there(alloc, tree, self.matcher.root())?;
        for path in &paths {
            self.asked.note(alloc, *path)?;
        }
        if self.later.is_none() && self.is_below_ignored(alloc, machine, paths.as_slice())? {
            return Ok(Some("a directory that is ignored is asked"));
        }
        Ok(bounds.excess_of_questions(&self.calls, &self.asked))
    }

    /// Whether something is asked below a directory that is ignored, on the way to one of these
    /// paths.
    fn is_below_ignored(
        &mut self,
        alloc: Global,
        machine: &Machine,
        paths: &[&str],
    ) -> Result<bool, Trouble> {
        for path in paths {
            for (at, _) in path.match_indices('/') {
                if self.is_asked_below(alloc, machine, &path[..at])? {
                    return Ok(true);
                }
            }
        }
        Ok(false)
    }

    /// Whether a directory is ignored, and something below it is asked.
    fn is_asked_below(
        &mut self,
        alloc: Global,
        machine: &Machine,
        dir: &str,
    ) -> Result<bool, Trouble> {
        let found = but_for_memory(self.other.matched(&machine.tree, dir, true))?;
        if !found.is_ignore() {
            return Ok(false);
        }
        let below = but_for_memory(join(alloc, self.other.root(), dir))?;
        Ok(self.calls.has_below(below.as_str()))
    }
}

/// Whether a path leads to a directory.
pub(super) fn is_dir_there(alloc: Global, tree: &MemoryTree, path: &str) -> Result<bool, Trouble> {
    match tree.stat(alloc, path, true) {
        Ok(metadata) => Ok(metadata.is_dir()),
        Err(Refusal::Fault(_)) => Ok(false),
        Err(Refusal::Memory) => Err(Trouble::Memory),
    }
}

/// The tree that is there from a step `["tree", calls]` on.
fn later_tree(alloc: Global, input: &Value, step: &Value) -> Result<MemoryTree, Trouble> {
    tree_of_calls(alloc, text(input, "cwd")?, items_at(step, 1, STEPS)?)
}

/// The matcher of the last root.
pub(super) fn matcher(
    machine: &Machine,
    builder: &WalkBuilder,
) -> Result<IncrementalIgnore, Trouble> {
    let mut matchers = but_for_memory(builder.build_matchers(&machine.tree, &machine.env))?;
    match matchers.pop() {
        Some(matcher) => Ok(matcher),
        None => Err(Trouble::Field(STEPS)),
    }
}

/// The answer of one step, as `["ask", "a/b", false]`, `["explain", "a/b", false]`,
/// `["check", [["a", true], ["b", false]]]` or `["forget", "a"]`. A question that was out of memory
/// is asked again, of the same matcher.
fn done(
    alloc: Global,
    tree: &Counting<'_, MemoryTree>,
    matcher: &mut IncrementalIgnore,
    step: &Value,
) -> Result<Value, Trouble> {
    match text_at(step, 0, STEPS)? {
        "ask" => answer(alloc, tree, matcher, step),
        "matched" => plain_answer(alloc, tree, matcher, step),
        "check" => checked(alloc, tree, matcher, step),
        "explain" => explained(alloc, tree, matcher, step),
        "forget" => forgotten(alloc, matcher, text_at(step, 1, STEPS)?),
        _ => Err(Trouble::Field(STEPS)),
    }
}

/// The text of the reason.
fn explained(
    alloc: Global,
    tree: &Counting<'_, MemoryTree>,
    matcher: &mut IncrementalIgnore,
    step: &Value,
) -> Result<Value, Trouble> {
    let (path, is_dir) = (text_at(step, 1, STEPS)?, flag_at(step, 2, STEPS)?);
    let (explanation, _) = explain(alloc, tree, matcher, path, is_dir)?;
    Ok(Value::String(format!(in alloc; "{explanation}")?))
}

fn explain(
    alloc: Global,
    tree: &Counting<'_, MemoryTree>,
    matcher: &mut IncrementalIgnore,
    path: &str,
    is_dir: bool,
) -> Result<(Explanation, Option<Error>), Trouble> {
    match matcher.explain(tree, path, is_dir) {
        Ok(answer) => Ok(answer),
        Err(_) => {
            tree.forget(alloc);
            but_for_memory(matcher.explain(tree, path, is_dir))
        }
    }
}

/// How many directories were forgotten.
fn forgotten(alloc: Global, matcher: &mut IncrementalIgnore, dir: &str) -> Result<Value, Trouble> {
    let mut items = Items::new(alloc);
    items.put(matcher.forget(dir));
    match items.value()? {
        Value::Array(mut items) => Ok(items.pop().unwrap_or(Value::Null)),
        other => Ok(other),
    }
}

fn answer(
    alloc: Global,
    tree: &Counting<'_, MemoryTree>,
    matcher: &mut IncrementalIgnore,
    step: &Value,
) -> Result<Value, Trouble> {
    let (path, is_dir) = (text_at(step, 1, STEPS)?, flag_at(step, 2, STEPS)?);
    let (found, error) = matched(alloc, tree, matcher, path, is_dir)?;
    Ok(shown(alloc, found, &error)?)
}

fn matched(
    alloc: Global,
    tree: &Counting<'_, MemoryTree>,
    matcher: &mut IncrementalIgnore,
    path: &str,
    is_dir: bool,
) -> Result<(IncrementalMatch, Option<Error>), Trouble> {
    match matcher.matched_with_errors(tree, path, is_dir) {
        Ok(answer) => Ok(answer),
        Err(_) => {
            tree.forget(alloc);
            but_for_memory(matcher.matched_with_errors(tree, path, is_dir))
        }
    }
}

/// The answer of `matched`, which has no error.
fn plain_answer(
    alloc: Global,
    tree: &Counting<'_, MemoryTree>,
    matcher: &mut IncrementalIgnore,
    step: &Value,
) -> Result<Value, Trouble> {
    let (path, is_dir) = (text_at(step, 1, STEPS)?, flag_at(step, 2, STEPS)?);
    let found = match matcher.matched(tree, path, is_dir) {
        Ok(found) => Ok(found),
        Err(_) => {
            tree.forget(alloc);
            but_for_memory(matcher.matched(tree, path, is_dir))
        }
    };
    Ok(match_value(alloc, found?)?)
}

/// The answers for several paths by one call.
fn checked(
    alloc: Global,
    tree: &Counting<'_, MemoryTree>,
    matcher: &mut IncrementalIgnore,
    step: &Value,
) -> Result<Value, Trouble> {
    let paths = paths_of(alloc, items_at(step, 1, STEPS)?)?;
    let answers = checked_in(alloc, tree, matcher, paths.as_slice())?;
    Ok(shown_all(alloc, answers.as_slice())?)
}

fn checked_in(
    alloc: Global,
    tree: &Counting<'_, MemoryTree>,
    matcher: &mut IncrementalIgnore,
    paths: &[(String, bool)],
) -> Result<Vec<(IncrementalMatch, Option<Error>)>, Trouble> {
    match check_paths(matcher, tree, paths) {
        Ok(answers) => Ok(answers),
        Err(_) => {
            tree.forget(alloc);
            but_for_memory(check_paths(matcher, tree, paths))
        }
    }
}

/// The paths of `[["a", true], ["b", false]]`, of which the first is a directory.
fn paths_of(alloc: Global, items: &[Value]) -> Result<Vec<(String, bool)>, Trouble> {
    let mut paths = Vec::new(alloc);
    for item in items {
        let path = String::from_str(alloc, text_at(item, 0, STEPS)?)?;
        paths.push((path, flag_at(item, 1, STEPS)?))?;
    }
    Ok(paths)
}

/// A clone of each answer is shown.
fn shown_all(
    alloc: Global,
    answers: &[(IncrementalMatch, Option<Error>)],
) -> Result<Value, AllocError> {
    let mut items = Items::new(alloc);
    for answer in answers {
        let (found, error) = answer.clone()?;
        items.put_value(shown(alloc, found, &error));
    }
    items.value()
}

fn shown(
    alloc: Global,
    found: IncrementalMatch,
    error: &Option<Error>,
) -> Result<Value, AllocError> {
    let mut answer = Answer::new(alloc);
    answer.put_value("match", match_value(alloc, found));
    answer.put("error", error.as_ref());
    answer.value()
}

/// The kind of a match, whether a walk descends, and whether it is within the limits of depth.
fn match_value(alloc: Global, found: IncrementalMatch) -> Result<Value, AllocError> {
    let mut items = Items::new(alloc);
    items.put(word(found));
    items.put(found.should_descend());
    items.put(found.is_within_depth());
    items.value()
}

fn word(found: IncrementalMatch) -> &'static str {
    if found.is_ignore() {
        "ignore"
    } else if found.is_whitelist() {
        "whitelist"
    } else {
        "none"
    }
}
