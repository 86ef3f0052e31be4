//! What an error says of itself.

use answers::{Answer, fault_of, printed, shape};
use ignore_base::Error;
use serde_json::Value;
use std::alloc::{AllocError, Global};
use vectors::{Trouble, field};

/// The name of the field that holds the shape.
const SHAPE: &str = "shape";

/// Answers the calls of the error of a `shape`.
pub fn answer(alloc: Global, input: &Value) -> Result<Value, Trouble> {
    let error = error_of(alloc, field(input, SHAPE)?)?;
    let mut answer = Answer::new(alloc);
    answer.put_value("text", printed(alloc, &error));
    answer.put("is_partial", error.is_partial());
    answer.put("is_io", error.is_io());
    answer.put("io_error", error.io_error().copied());
    answer.put("depth", error.depth());
    answer.put_value("clone", copied_shape(alloc, &error));
    answer.put("into_io_error", error.into_io_error());
    Ok(answer.value()?)
}

/// The shape of a clone of an error.
fn copied_shape(alloc: Global, error: &Error) -> Result<Value, AllocError> {
    let copy = error.clone()?;
    shape(alloc, &copy)
}

/// The error of a shape.
fn error_of(alloc: Global, shape: &Value) -> Result<Error, Trouble> {
    let Value::Array(items) = shape else {
        return Err(Trouble::Field(SHAPE));
    };
    match items.as_slice() {
        [name] => bare_error(name),
        [name, Value::Array(members)] if is_word(name, "Partial") => {
            let mut errors = Vec::new(alloc);
            for member in members {
                errors.push(error_of(alloc, member)?)?;
            }
            Ok(Error::Partial(errors))
        }
        [name, held] => held_error(alloc, name, held),
        [name, tag, inner] if inner.is_array() => {
            let inner = error_of(alloc, inner)?;
            tagged_error(alloc, name, tag, inner)
        }
        [name, first, second] => texts_error(alloc, name, first, second),
        _ => Err(Trouble::Field(SHAPE)),
    }
}

fn is_word(value: &Value, word: &str) -> bool {
    match value.as_str() {
        Some(text) => text == word,
        None => false,
    }
}

/// The text that a part of a shape is.
fn word(value: &Value) -> Result<&str, Trouble> {
    match value.as_str() {
        Some(text) => Ok(text),
        None => Err(Trouble::Field(SHAPE)),
    }
}

fn owned(alloc: Global, value: &Value) -> Result<String, Trouble> {
    Ok(String::from_str(alloc, word(value)?)?)
}

/// The number that a part of a shape is.
fn count(value: &Value) -> Result<u64, Trouble> {
    match value.as_u64() {
        Some(number) => Ok(number),
        None => Err(Trouble::Field(SHAPE)),
    }
}

fn bare_error(name: &Value) -> Result<Error, Trouble> {
    match word(name)? {
        "InvalidDefinition" => Ok(Error::InvalidDefinition),
        "Memory" => Ok(Error::Memory),
        _ => Err(Trouble::Field(SHAPE)),
    }
}

fn held_error(alloc: Global, name: &Value, held: &Value) -> Result<Error, Trouble> {
    match word(name)? {
        "Io" => Ok(Error::Io(fault_of(word(held)?, SHAPE)?)),
        "UnrecognizedFileType" => Ok(Error::UnrecognizedFileType(owned(alloc, held)?)),
        _ => Err(Trouble::Field(SHAPE)),
    }
}

fn tagged_error(alloc: Global, name: &Value, tag: &Value, inner: Error) -> Result<Error, Trouble> {
    let err = Box::new(alloc, inner)?;
    match word(name)? {
        "WithLineNumber" => Ok(Error::WithLineNumber {
            line: count(tag)?,
            err,
        }),
        "WithPath" => Ok(Error::WithPath {
            path: owned(alloc, tag)?,
            err,
        }),
        "WithDepth" => Ok(Error::WithDepth {
            depth: count(tag)? as usize,
            err,
        }),
        _ => Err(Trouble::Field(SHAPE)),
    }
}

fn texts_error(
    alloc: Global,
    name: &Value,
    first: &Value,
    second: &Value,
) -> Result<Error, Trouble> {
    match word(name)? {
        "Loop" => Ok(Error::Loop {
            ancestor: owned(alloc, first)?,
            child: owned(alloc, second)?,
        }),
        "Glob" => Ok(Error::Glob {
            glob: owned_or_none(alloc, first)?,
            err: owned(alloc, second)?,
        }),
        _ => Err(Trouble::Field(SHAPE)),
    }
}

fn owned_or_none(alloc: Global, value: &Value) -> Result<Option<String>, Trouble> {
    if value.is_null() {
        return Ok(None);
    }
    Ok(Some(owned(alloc, value)?))
}
