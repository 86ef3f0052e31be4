//! What a tree in memory answers, and which changes of it are refused.

use answers::{Answer, CALLS, Items, make_call};
use ignore_files::{
    Contents, Files, Identity, Listing, MemoryTree, Metadata, Name, Refusal, TreeError,
};
use serde_json::Value;
use std::alloc::{AllocError, Global};
use vectors::{Trouble, flag_at, list, text, text_at};

/// The name of the field that holds what is asked.
const ASKS: &str = "asks";

/// Answers `results`, the refusals of `new` and of the calls, and `answers`.
pub fn answer(alloc: Global, input: &Value) -> Result<Value, Trouble> {
    match MemoryTree::new(alloc, text(input, "cwd")?) {
        Err(TreeError::Memory) => Err(Trouble::Memory),
        Err(error) => refused_tree(alloc, error),
        Ok(tree) => reported_tree(alloc, tree, list(input, CALLS)?, list(input, ASKS)?),
    }
}

/// The answer where the tree itself is refused.
fn refused_tree(alloc: Global, error: TreeError) -> Result<Value, Trouble> {
    let mut results = Items::new(alloc);
    results.put(error);
    Ok(reported(alloc, results, Items::new(alloc))?)
}

/// The answer where a tree is there, which the calls change before it is asked.
fn reported_tree(
    alloc: Global,
    mut tree: MemoryTree,
    calls: &[Value],
    asks: &[Value],
) -> Result<Value, Trouble> {
    let results = make_calls(alloc, &mut tree, calls)?;
    let answers = ask_all(alloc, &tree, asks)?;
    Ok(reported(alloc, results, answers)?)
}

fn reported(alloc: Global, results: Items, answers: Items) -> Result<Value, AllocError> {
    let mut answer = Answer::new(alloc);
    answer.put_value("results", results.value());
    answer.put_value("answers", answers.value());
    answer.value()
}

/// The refusals of `new`, which is none, and of the calls.
fn make_calls(alloc: Global, tree: &mut MemoryTree, calls: &[Value]) -> Result<Items, Trouble> {
    let mut results = Items::new(alloc);
    results.put_value(Ok(Value::Null));
    for call in calls {
        results.put(make_call(alloc, tree, call)?);
    }
    Ok(results)
}

fn ask_all(alloc: Global, tree: &MemoryTree, asks: &[Value]) -> Result<Items, Trouble> {
    let mut answers = Items::new(alloc);
    for ask in asks {
        answers.put_value(Ok(asked(alloc, tree, ask)?));
    }
    Ok(answers)
}

/// What the tree answers when it is asked, as by `["stat", "/l", true]`.
fn asked(alloc: Global, tree: &MemoryTree, ask: &Value) -> Result<Value, Trouble> {
    let path = text_at(ask, 1, ASKS)?;
    match text_at(ask, 0, ASKS)? {
        "stat" => fields_of(alloc, tree.stat(alloc, path, flag_at(ask, 2, ASKS)?)),
        "list" => fields_of(alloc, tree.list(alloc, path)),
        "contents" => fields_of(alloc, tree.contents(alloc, path)),
        "canonical" => fields_of(alloc, tree.canonical(alloc, path)),
        "identity" => fields_of(alloc, tree.identity(alloc, path, flag_at(ask, 2, ASKS)?)),
        _ => Err(Trouble::Field(ASKS)),
    }
}

/// What a tree answers, as the fields of an object.
trait Shown {
    /// Puts the fields.
    fn put(&self, answer: &mut Answer);
}

/// The fields of what a tree answers, or its fault alone.
fn fields_of<T: Shown + Drop>(
    alloc: Global,
    answered: Result<T, Refusal>,
) -> Result<Value, Trouble> {
    let mut answer = Answer::new(alloc);
    match answered {
        Ok(shown) => shown.put(&mut answer),
        Err(Refusal::Fault(fault)) => answer.put("fault", fault),
        Err(Refusal::Memory) => return Err(Trouble::Memory),
    }
    Ok(answer.value()?)
}

impl Shown for Metadata {
    fn put(&self, answer: &mut Answer) {
        answer.put("kind", self.file_type());
        answer.put("len", self.len());
    }
}

impl Shown for Listing {
    fn put(&self, answer: &mut Answer) {
        answer.put("value", self.as_slice());
    }
}

impl Shown for Contents {
    fn put(&self, answer: &mut Answer) {
        answer.put("hex", &self.bytes);
        answer.put("read_fault", self.fault);
    }
}

impl Shown for Name {
    fn put(&self, answer: &mut Answer) {
        answer.put("value", self.as_str());
    }
}

impl Shown for Option<Identity> {
    fn put(&self, answer: &mut Answer) {
        answer.put("identity", *self);
    }
}
