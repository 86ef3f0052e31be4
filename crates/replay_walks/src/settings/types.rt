//! Overrides and file types, as settings of vectors write them.

use super::set::SET;
use answers::{TypesCall, but_for_memory, problem, types_call};
use ignore::Error;
use ignore::overrides::{Override, OverrideBuilder};
use ignore::types::{Types, TypesBuilder};
use serde_json::Value;
use std::alloc::Global;
use vectors::{Trouble, item, text_at};

/// The items of the list at a place of a list, which stands in the field of this name.
pub(crate) fn items_at<'v>(
    list: &'v Value,
    place: usize,
    name: &'static str,
) -> Result<&'v [Value], Trouble> {
    match item(list, place, name)?.as_array() {
        Some(items) => Ok(items.as_slice()),
        None => Err(Trouble::Field(name)),
    }
}

/// The overrides of `["overrides", root, globs]`. Globs that are refused are left out.
pub(crate) fn overrides(alloc: Global, op: &Value) -> Result<Override, Trouble> {
    let globs = items_at(op, 2, SET)?;
    let mut builder = but_for_memory(OverrideBuilder::new(alloc, text_at(op, 1, SET)?))?;
    for glob in globs {
        add_glob(&mut builder, glob)?;
    }
    but_for_memory(builder.build())
}

/// Adds a glob, and again where it is out of memory, to the same builder.
fn add_glob(builder: &mut OverrideBuilder, glob: &Value) -> Result<Option<Error>, Trouble> {
    let Some(glob) = glob.as_str() else {
        return Err(Trouble::Field(SET));
    };
    match problem(builder.add(glob)) {
        Err(_) => problem(builder.add(glob)),
        added => added,
    }
}

/// The types of `["types", ops]`.
pub(crate) fn types(alloc: Global, op: &Value) -> Result<Types, Trouble> {
    let ops = items_at(op, 1, SET)?;
    let mut builder = TypesBuilder::new(alloc);
    for op in ops {
        change(&mut builder, op)?;
    }
    but_for_memory(builder.build())
}

/// Does an operation, and again where it is out of memory, on the same builder.
fn change(builder: &mut TypesBuilder, op: &Value) -> Result<Option<Error>, Trouble> {
    let call = types_call(op, SET)?;
    match changed(builder, call) {
        Err(_) => changed(builder, call),
        changed => changed,
    }
}

fn changed(builder: &mut TypesBuilder, call: TypesCall<'_>) -> Result<Option<Error>, Trouble> {
    match call {
        TypesCall::AddDefaults => problem(builder.add_defaults()),
        TypesCall::Add(name, glob) => problem(builder.add(name, glob)),
        TypesCall::AddDef(definition) => problem(builder.add_def(definition)),
        TypesCall::Select(name) => problem(builder.select(name)),
        TypesCall::Negate(name) => problem(builder.negate(name)),
        TypesCall::Clear(name) => {
            builder.clear(name);
            Ok(None)
        }
    }
}
