//! Whether two lists of lines say the same.

use crate::lines::{difference, length};
use answers::Answer;
use ignore_every::Counted;
use serde_json::Value;
use std::alloc::Global;
use vectors::Trouble;

/// Answers `same`, and `length`, which is that of a shortest question at which the lists differ, or
/// null; or `error`.
pub fn answer(alloc: Global, input: &Value) -> Result<Value, Trouble> {
    let mut answer = Answer::new(alloc);
    match difference(alloc, input, Counted::Verdicts)? {
        Ok(found) => {
            answer.put("same", found.is_none());
            answer.put("length", found.map(|d| length(d.question.path.as_str())));
        }
        Err(name) => answer.put("error", name),
    }
    Ok(answer.value()?)
}
