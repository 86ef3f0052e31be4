//! The items of a walk, and its steps.

use crate::settings::{Machine, bounds_of, limit_of, outside_of};
use answers::{Answer, Calls, Counting, but_for_memory};
use ignore::files::MemoryTree;
use ignore::{DirEntry, Error, Fault, Item, WalkBuilder, collect_walk};
use serde_json::Value;
use std::alloc::{AllocError, Global};
use vectors::{Trouble, is_equal, text};

/// The name of the field that says which call is asked for the items. Where it is missing both are.
const BY: &str = "by";

/// The name of the field that asks for what the filter is shown, and of that.
const SHOWN: &str = "shown";

/// The most steps that are counted.
const MOST: u64 = 1 << 12;

/// Answers `items`, and `steps`, how many the limit counts; where the vector has a field `shown`, the
/// paths of the entries that the filter was shown, in turn; and `calls`, where the files were called
/// more often than the bounds say.
pub(crate) fn asked<B, L, I>(
    alloc: Global,
    input: &Value,
    builder: &mut B,
    set_limit: L,
    list: I,
) -> Result<Answer, Trouble>
where
    L: Fn(&mut B, u64),
    I: Fn(&B) -> Result<Listed, AllocError>,
    requires limit { L.IsAlwaysCallable set_limit }
    requires list { I.IsAlwaysCallable list }
{
    let most = limit_of(input)?.min(MOST);
    let all = list(builder)?;
    let excess = all.excess(alloc, input)?;
    let steps = steps(builder, most, all.items.as_slice(), set_limit, list)?;
    let mut answer = Answer::new(alloc);
    answer.put_value("items", Ok(Value::Array(all.items)));
    answer.put("steps", steps);
    if input.get(SHOWN).is_some() {
        answer.put(SHOWN, all.shown.as_slice());
    }
    if let Some(excess) = excess {
        answer.put("calls", excess);
    }
    Ok(answer)
}

/// The least limit that doesn't end the walk, at most this one. There is none where a smaller one
/// gives another list than some first items and the error of the limit, or where this one gives
/// another list than the walk.
fn steps<B, L, I>(
    builder: &mut B,
    most: u64,
    all: &[Value],
    set_limit: L,
    list: I,
) -> Result<Option<u64>, Trouble>
where
    L: Fn(&mut B, u64),
    I: Fn(&B) -> Result<Listed, AllocError>,
    requires limit { L.IsAlwaysCallable set_limit }
    requires list { I.IsAlwaysCallable list }
{
    for limit in 0..most {
        set_limit(builder, limit);
        let fewer = list(builder)?;
        if !fewer.is_front_of(all) {
            return Ok(None);
        }
        if fewer.end == End::Whole {
            return Ok(Some(limit));
        }
    }
    Ok(Some(most))
}

/// How a list ends.
#[derive(Clone, Copy, PartialEq, Eq, Drop)]
enum End {
    /// With the last item of the walk.
    Whole,
    /// With the error of the limit.
    Limit,
    /// With out of memory.
    Memory,
}

/// The items of a walk, and how they end.
#[derive(Drop)]
pub(crate) struct Listed {
    items: Vec<Value>,
    end: End,
    /// The paths of the entries that the filter was shown.
    shown: Vec<String>,
    /// Whether the files were called too often for the rules from outside.
    is_outside_again: bool,
    /// The calls after those, or all of them.
    walking: Calls,
    /// The paths that the rules from outside are asked of, where those calls are among these.
    outside: Vec<String>,
    /// How many there were of both.
    calls: usize,
}

impl Listed {
    /// What is too much of the calls, if anything is, by the settings and roots of a vector.
    fn excess<'x>(
        &'x self,
        alloc: Global,
        input: &'x Value,
    ) -> Result<Option<&'static str>, Trouble> {
        if self.is_outside_again {
            return Ok(Some("what is outside is asked again"));
        }
        let mut bounds = bounds_of(alloc, input)?;
        bounds.outside = self.outside.as_slice();
        Ok(bounds.excess_of_walk(&self.walking))
    }

    /// Whether they are the first of these, where the error that ended the walk is left out; and
    /// all of them, where no error did.
    fn is_front_of(&self, all: &[Value]) -> bool {
        let items = self.items.as_slice();
        match items.split_last() {
            Some((_, front)) if self.end != End::Whole => has_front(all, front),
            _ => items.len() == all.len() && has_front(all, items),
        }
    }
}

fn has_front(all: &[Value], front: &[Value]) -> bool {
    let mut others = all.iter();
    for item in front {
        match others.next() {
            Some(other) if is_equal(item, other) => {}
            _ => return false,
        }
    }
    true
}

/// By which calls the items of a walk are asked for.
#[derive(Clone, Copy, Drop)]
pub(crate) enum By {
    /// By `next`.
    Next,
    /// By `collect_walk`.
    Collect,
    /// By both.
    Both,
}

/// The call that a vector names, or both.
pub(crate) fn by_of(input: &Value) -> Result<By, Trouble> {
    if input.get(BY).is_none() {
        return Ok(By::Both);
    }
    match text(input, BY)? {
        "next" => Ok(By::Next),
        "collect_walk" => Ok(By::Collect),
        _ => Err(Trouble::Field(BY)),
    }
}

/// The list of the walk of a builder.
pub(crate) fn list_of(
    alloc: Global,
    machine: &Machine,
    by: By,
    builder: &WalkBuilder,
) -> Result<Listed, AllocError> {
    let listed = match by {
        By::Next => given(alloc, machine, builder),
        By::Collect => collected(alloc, machine, builder),
        By::Both => agreed(alloc, machine, builder),
    };
    match listed {
        Ok(listed) => Ok(listed),
        Err(_) => Err(AllocError),
    }
}

/// The items that `next` gives, and then a `null` where `collect_walk` doesn't agree, calls the files
/// more often, or shows the filter others.
fn agreed(alloc: Global, machine: &Machine, builder: &WalkBuilder) -> Result<Listed, Trouble> {
    let mut given = given(alloc, machine, builder)?;
    let collected = collected(alloc, machine, builder)?;
    let is_more = collected.calls > given.calls || collected.shown != given.shown;
    if is_more || collected.end != given.end || !collected.is_front_of(given.items.as_slice()) {
        given.items.push(Value::Null)?;
    }
    Ok(given)
}

/// The items that `next` gives. Where the walk ends out of memory it is made again: its items are
/// then those of the second walk, if those of the first are the first of them.
fn given(alloc: Global, machine: &Machine, builder: &WalkBuilder) -> Result<Listed, Trouble> {
    let first = walked(alloc, machine, builder)?;
    if first.end != End::Memory {
        return Ok(first);
    }
    let second = walked(alloc, machine, builder)?;
    if first.is_front_of(second.items.as_slice()) {
        Ok(second)
    } else {
        Ok(first)
    }
}

fn walked(alloc: Global, machine: &Machine, builder: &WalkBuilder) -> Result<Listed, Trouble> {
    let mut items = Vec::new(alloc);
    let mut end = End::Whole;
    let files = Counting::new(alloc, &machine.tree);
    let Ok(walk) = builder.build(&files, &machine.env) else {
        return Err(Trouble::Memory);
    };
    let building = files.taken(alloc);
    let _ = machine.shown.taken(alloc);
    for item in walk {
        end = end_of(&item);
        items.push(shown(alloc, &machine.tree, item)?)?;
    }
    let walking = files.taken(alloc);
    Ok(Listed {
        items,
        end,
        shown: machine.shown.taken(alloc)?,
        is_outside_again: building.excess_outside(&machine.env).is_some(),
        calls: building.len().saturating_add(walking.len()),
        walking,
        outside: Vec::new(alloc),
    })
}

/// The items that `collect_walk` returns, or the error of the limit alone.
fn collected(alloc: Global, machine: &Machine, builder: &WalkBuilder) -> Result<Listed, Trouble> {
    let files = Counting::new(alloc, &machine.tree);
    let _ = machine.shown.taken(alloc);
    let items = match collect_walk(builder, &files, &machine.env) {
        Ok(items) => items,
        Err(Error::Memory) => return Err(Trouble::Memory),
        Err(error) => vec![in alloc; Err(error)]?,
    };
    cloned(alloc, machine, items.as_slice(), files.taken(alloc))
}

/// A clone of each item is shown.
fn cloned(
    alloc: Global,
    machine: &Machine,
    items: &[Item],
    walking: Calls,
) -> Result<Listed, Trouble> {
    let values = shown_clones(alloc, &machine.tree, items)?;
    let shown = machine.shown.taken(alloc)?;
    let outside = outside_of(alloc, machine)?;
    Ok(Listed {
        items: values,
        end: items.last().map_or(End::Whole, end_of),
        shown,
        is_outside_again: false,
        calls: walking.len(),
        walking,
        outside,
    })
}

fn shown_clones(alloc: Global, tree: &MemoryTree, items: &[Item]) -> Result<Vec<Value>, Trouble> {
    let mut values = Vec::new(alloc);
    for item in items {
        values.push(shown(alloc, tree, item.clone()?)?)?;
    }
    Ok(values)
}

/// How a list ends whose last item this is.
fn end_of(item: &Item) -> End {
    match item {
        Err(Error::Io(Fault::StepLimit)) => End::Limit,
        Err(Error::Memory) => End::Memory,
        _ => End::Whole,
    }
}

fn shown(alloc: Global, tree: &MemoryTree, item: Item) -> Result<Value, Trouble> {
    match item {
        Err(error) => Ok(shown_error(alloc, &error)?),
        Ok(entry) => shown_entry(alloc, tree, &entry),
    }
}

fn shown_error(alloc: Global, error: &Error) -> Result<Value, AllocError> {
    let mut answer = Answer::new(alloc);
    answer.put("error", error);
    answer.value()
}

fn shown_entry(alloc: Global, tree: &MemoryTree, entry: &DirEntry) -> Result<Value, Trouble> {
    let mut answer = Answer::new(alloc);
    put_entry(&mut answer, tree, entry)?;
    Ok(answer.value()?)
}

fn put_entry(answer: &mut Answer, tree: &MemoryTree, entry: &DirEntry) -> Result<(), Trouble> {
    answer.put("path", entry.path());
    answer.put("name", entry.file_name());
    answer.put("depth", entry.depth());
    answer.put("stdin", entry.is_stdin());
    answer.put("symlink", entry.path_is_symlink());
    answer.put("kind", entry.file_type());
    answer.put("load_error", entry.error());
    answer.put("ino", but_for_memory(entry.ino(tree))?);
    put_metadata(answer, tree, entry)
}

fn put_metadata(answer: &mut Answer, tree: &MemoryTree, entry: &DirEntry) -> Result<(), Trouble> {
    match entry.metadata(tree) {
        Ok(metadata) => {
            answer.put("len", metadata.len());
            answer.put_value("metadata_error", Ok(Value::Null));
        }
        Err(Error::Memory) => return Err(Trouble::Memory),
        Err(error) => {
            answer.put_value("len", Ok(Value::Null));
            answer.put("metadata_error", &error);
        }
    }
    Ok(())
}
