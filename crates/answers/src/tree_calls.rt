//! Trees in memory, built by the calls of a vector.

use crate::error::fault_of;
use crate::hex_digits::bytes_of;
use ignore_files::{Fault, Identity, MemoryTree, TreeError};
use serde_json::Value;
use std::alloc::Global;
use vectors::{Trouble, item, text_at};

/// The name of the field that holds the calls.
pub const CALLS: &str = "calls";

/// The value of a result whose only error is out of memory; otherwise the field of this name is
/// wrong.
pub fn unrefused<T: Drop>(made: Result<T, TreeError>, name: &'static str) -> Result<T, Trouble> {
    match made {
        Ok(value) => Ok(value),
        Err(TreeError::Memory) => Err(Trouble::Memory),
        Err(_) => Err(Trouble::Field(name)),
    }
}

/// The tree with this working directory after these calls, of which none may be refused.
pub fn tree_of_calls(alloc: Global, cwd: &str, calls: &[Value]) -> Result<MemoryTree, Trouble> {
    let mut tree = unrefused(MemoryTree::new(alloc, cwd), CALLS)?;
    for call in calls {
        if make_call(alloc, &mut tree, call)?.is_some() {
            return Err(Trouble::Field(CALLS));
        }
    }
    Ok(tree)
}

/// Makes a call, and again where it is out of memory, on the same tree. It returns its refusal, if
/// any.
pub fn make_call(
    alloc: Global,
    tree: &mut MemoryTree,
    call: &Value,
) -> Result<Option<TreeError>, Trouble> {
    match make_call_once(alloc, tree, call) {
        Err(Trouble::Memory) => make_call_once(alloc, tree, call),
        made => made,
    }
}

/// Makes one call, as `["add_link", "/l", "/d"]`.
fn make_call_once(
    alloc: Global,
    tree: &mut MemoryTree,
    call: &Value,
) -> Result<Option<TreeError>, Trouble> {
    let path = text_at(call, 1, CALLS)?;
    match text_at(call, 0, CALLS)? {
        "add_dir" => refusal(tree.add_dir(path)),
        "add_nameless" => refusal(tree.add_nameless(path)),
        "add_link" => refusal(tree.add_link(path, text_at(call, 2, CALLS)?)),
        "add_file" => refusal(tree.add_file(path, bytes_at(alloc, call)?.as_slice())),
        name => change(tree, name, path, call),
    }
}

/// Makes a call that changes the node of a path.
fn change(
    tree: &mut MemoryTree,
    name: &str,
    path: &str,
    call: &Value,
) -> Result<Option<TreeError>, Trouble> {
    match name {
        "set_size" => refusal(tree.set_size(path, number_at(call, 2)?)),
        "set_identity" => refusal(tree.set_identity(path, identity_at(call)?)),
        "fault_stat" => refusal(tree.fault_stat(path, fault_at(call, 2)?)),
        "fault_list" => refusal(tree.fault_list(path, fault_at(call, 2)?)),
        "cut_contents" => {
            refusal(tree.cut_contents(path, number_at(call, 2)? as usize, fault_at(call, 3)?))
        }
        _ => Err(Trouble::Field(CALLS)),
    }
}

/// The error of a call, unless out of memory.
fn refusal(made: Result<(), TreeError>) -> Result<Option<TreeError>, Trouble> {
    match made {
        Ok(()) => Ok(None),
        Err(TreeError::Memory) => Err(Trouble::Memory),
        Err(error) => Ok(Some(error)),
    }
}

fn bytes_at(alloc: Global, call: &Value) -> Result<Vec<u8>, Trouble> {
    bytes_of(alloc, text_at(call, 2, CALLS)?, CALLS)
}

fn fault_at(call: &Value, place: usize) -> Result<Fault, Trouble> {
    fault_of(text_at(call, place, CALLS)?, CALLS)
}

fn number_at(list: &Value, place: usize) -> Result<u64, Trouble> {
    match item(list, place, CALLS)?.as_u64() {
        Some(number) => Ok(number),
        None => Err(Trouble::Field(CALLS)),
    }
}

/// The identity `[device, inode]` of a call, or none where it is `null`.
fn identity_at(call: &Value) -> Result<Option<Identity>, Trouble> {
    let value = item(call, 2, CALLS)?;
    if value.is_null() {
        return Ok(None);
    }
    Ok(Some(Identity {
        device: number_at(value, 0)?,
        inode: number_at(value, 1)?,
    }))
}
