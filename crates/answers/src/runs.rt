//! Runs of a program with writers in memory: its words, and what it leaves.

use crate::answer::Answer;
use serde_json::Value;
use std::alloc::{AllocError, Global};
use std::str::from_utf8;
use vectors::{Trouble, list};

/// The name of the field with the words after the program's name.
const WORDS: &str = "words";

/// The status of a run that ended early.
pub const ENDED: u8 = 2;

/// What a run leaves.
#[derive(Drop)]
pub struct Outcome {
    /// Its status.
    pub status: u8,
    /// What it wrote to standard output.
    pub out: Vec<u8>,
    /// What it wrote to standard error.
    pub err: Vec<u8>,
    /// What was too much of the calls of the files, if anything was.
    pub excess: Option<&'static str>,
}

/// The words of a vector, its field `words`.
pub fn words_of(alloc: Global, input: &Value) -> Result<Vec<String>, Trouble> {
    let mut words = Vec::new(alloc);
    for item in list(input, WORDS)? {
        match item.as_str() {
            Some(word) => words.push(String::from_str(alloc, word)?)?,
            None => return Err(Trouble::Field(WORDS)),
        }
    }
    Ok(words)
}

/// The answer of a run: `status`, and `stdout` and `stderr`, what was written: texts, or `null` for
/// what is none; and `calls`, where the files were called more often than the bounds say.
pub fn answer_of_run(alloc: Global, left: &Outcome) -> Result<Value, AllocError> {
    let mut answer = Answer::new(alloc);
    answer.put("status", left.status as u64);
    answer.put_value("stdout", text_of(alloc, left.out.as_slice()));
    answer.put_value("stderr", text_of(alloc, left.err.as_slice()));
    if let Some(excess) = left.excess {
        answer.put("calls", excess);
    }
    answer.value()
}

/// The text of these bytes, or `null`.
fn text_of(alloc: Global, bytes: &[u8]) -> Result<Value, AllocError> {
    match from_utf8(bytes) {
        Ok(text) => Value::try_from_str(alloc, text),
        Err(_) => Ok(Value::Null),
    }
}
