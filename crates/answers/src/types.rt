//! Operations on builders of file types, as vectors write them.

use serde_json::Value;
use vectors::{Trouble, text_at};

/// An operation on a builder of file types: `["add", type, glob]`, `["select", type]` and so on.
#[derive(Clone, Copy)]
pub enum TypesCall<'v> {
    AddDefaults,
    Add(&'v str, &'v str),
    AddDef(&'v str),
    Select(&'v str),
    Negate(&'v str),
    Clear(&'v str),
}

/// Reads an operation, which stands in the field of this name.
pub fn types_call<'v>(op: &'v Value, name: &'static str) -> Result<TypesCall<'v>, Trouble> {
    let call = text_at(op, 0, name)?;
    if call == "add_defaults" {
        return Ok(TypesCall::AddDefaults);
    }
    let word = text_at(op, 1, name)?;
    match call {
        "add" => Ok(TypesCall::Add(word, text_at(op, 2, name)?)),
        "add_def" => Ok(TypesCall::AddDef(word)),
        "select" => Ok(TypesCall::Select(word)),
        "negate" => Ok(TypesCall::Negate(word)),
        "clear" => Ok(TypesCall::Clear(word)),
        _ => Err(Trouble::Field(name)),
    }
}
