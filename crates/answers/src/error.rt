//! Errors in the shape in which vectors write them: a list of the name of the variant and what it
//! holds.

use crate::answer::{Answer, Items, Written};
use ignore_base::{Error, Fault};
use serde_json::Value;
use std::alloc::{AllocError, Global};
use vectors::Trouble;

/// An error's text and its shape.
impl Written for &Error {
    fn written(self, alloc: Global) -> Result<Value, AllocError> {
        let mut answer = Answer::new(alloc);
        answer.put_value("text", printed(alloc, self));
        answer.put_value("shape", shape(alloc, self));
        answer.value()
    }
}

/// The text of an error.
pub fn printed(alloc: Global, error: &Error) -> Result<Value, AllocError> {
    Ok(Value::String(format!(in alloc; "{error}")?))
}

/// The shape of an error: `["WithLineNumber", 1, ["Io", "NotFound"]]`.
pub fn shape(alloc: Global, error: &Error) -> Result<Value, AllocError> {
    match error {
        Error::Partial(errors) => {
            let mut members = Items::new(alloc);
            for error in errors {
                members.put_value(shape(alloc, error));
            }
            pair(alloc, "Partial", members.value())
        }
        Error::WithLineNumber { line, err } => {
            triple(alloc, "WithLineNumber", *line, shape(alloc, err))
        }
        Error::WithPath { path, err } => triple(alloc, "WithPath", path, shape(alloc, err)),
        Error::WithDepth { depth, err } => triple(alloc, "WithDepth", *depth, shape(alloc, err)),
        Error::Loop { ancestor, child } => triple(alloc, "Loop", ancestor, child.written(alloc)),
        Error::Io(fault) => pair(alloc, "Io", fault.written(alloc)),
        Error::Glob { glob, err } => triple(alloc, "Glob", glob.as_ref(), err.written(alloc)),
        Error::UnrecognizedFileType(name) => {
            pair(alloc, "UnrecognizedFileType", name.written(alloc))
        }
        Error::InvalidDefinition => alone(alloc, "InvalidDefinition"),
        Error::Memory => alone(alloc, "Memory"),
    }
}

fn alone(alloc: Global, name: &str) -> Result<Value, AllocError> {
    let mut items = Items::new(alloc);
    items.put(name);
    items.value()
}

fn pair(alloc: Global, name: &str, held: Result<Value, AllocError>) -> Result<Value, AllocError> {
    let mut items = Items::new(alloc);
    items.put(name);
    items.put_value(held);
    items.value()
}

fn triple<T: Written>(
    alloc: Global,
    name: &str,
    tag: T,
    held: Result<Value, AllocError>,
) -> Result<Value, AllocError> {
    let mut items = Items::new(alloc);
    items.put(name);
    items.put(tag);
    items.put_value(held);
    items.value()
}

/// Its name.
impl Written for Fault {
    fn written(self, alloc: Global) -> Result<Value, AllocError> {
        fault_name(self).written(alloc)
    }
}

fn fault_name(fault: Fault) -> &'static str {
    match fault {
        Fault::NotFound => "NotFound",
        Fault::PermissionDenied => "PermissionDenied",
        Fault::NotADirectory => "NotADirectory",
        Fault::IsADirectory => "IsADirectory",
        Fault::InvalidData => "InvalidData",
        Fault::BadName => "BadName",
        Fault::LinkLimit => "LinkLimit",
        Fault::NoIdentity => "NoIdentity",
        Fault::NoCurrentDir => "NoCurrentDir",
        Fault::StepLimit => "StepLimit",
        Fault::NoMetadata => "NoMetadata",
        Fault::Other => "Other",
    }
}

/// The fault of a name, which stands in the field `field`.
pub fn fault_of(name: &str, field: &'static str) -> Result<Fault, Trouble> {
    match name {
        "NotFound" => Ok(Fault::NotFound),
        "PermissionDenied" => Ok(Fault::PermissionDenied),
        "NotADirectory" => Ok(Fault::NotADirectory),
        "IsADirectory" => Ok(Fault::IsADirectory),
        "InvalidData" => Ok(Fault::InvalidData),
        "BadName" => Ok(Fault::BadName),
        "LinkLimit" => Ok(Fault::LinkLimit),
        "NoIdentity" => Ok(Fault::NoIdentity),
        "NoCurrentDir" => Ok(Fault::NoCurrentDir),
        "StepLimit" => Ok(Fault::StepLimit),
        "NoMetadata" => Ok(Fault::NoMetadata),
        "Other" => Ok(Fault::Other),
        _ => Err(Trouble::Field(field)),
    }
}
