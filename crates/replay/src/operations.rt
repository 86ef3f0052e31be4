//! Operations on builders. Each is retried once where it is out of memory, on the same builder, so
//! that a failed call which changed it shows in the answer.

use answers::{Items, printed};
use ignore_base::Error;
use serde_json::Value;
use std::alloc::{AllocError, Global};
use vectors::{Trouble, list};

/// The name of the field that holds the operations.
pub const OPS: &str = "ops";

/// What operations change.
pub trait Changed {
    /// Does an operation. It returns what is wrong with it; the builder is then as before.
    fn apply(&mut self, op: &Value) -> Result<Option<Error>, Trouble>;
}

/// Does the operations of a vector. It returns those that were refused, each with its number and
/// the text of its error.
pub fn apply_all<C: Changed>(
    alloc: Global,
    changed: &mut C,
    input: &Value,
) -> Result<Items, Trouble> {
    let mut refused = Items::new(alloc);
    let mut number = 0u64;
    for op in list(input, OPS)? {
        if let Some(error) = apply(changed, op)? {
            refused.put_value(refusal(alloc, number, error));
        }
        number = number.saturating_add(1);
    }
    Ok(refused)
}

fn apply<C: Changed>(changed: &mut C, op: &Value) -> Result<Option<Error>, Trouble> {
    match changed.apply(op) {
        Err(Trouble::Memory) => changed.apply(op),
        applied => applied,
    }
}

fn refusal(alloc: Global, number: u64, error: Error) -> Result<Value, AllocError> {
    let mut items = Items::new(alloc);
    items.put(number);
    items.put_value(printed(alloc, &error));
    items.value()
}
