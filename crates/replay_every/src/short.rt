//! What is found on short questions alone, as it is when all of them are asked.

use crate::lines::{difference, findings, length, rules_of};
use answers::{Answer, Items};
use ignore_every::{Counted, Finding};
use serde_json::Value;
use std::alloc::Global;
use vectors::{Trouble, flag};

/// Questions of so many characters are short.
const SHORT: u64 = 4;

/// A length, where it is short.
fn if_short(length: u64) -> Option<u64> {
    if length <= SHORT { Some(length) } else { None }
}

/// Answers `found`: for each rule the length of a shortest reached question on which it decides, if
/// that is short, else null; or `error`.
pub fn rules(alloc: Global, input: &Value) -> Result<Value, Trouble> {
    let rules = rules_of(alloc, input, "lines")?;
    let mut answer = Answer::new(alloc);
    match findings(alloc, &rules)? {
        Ok(all) => {
            let mut found = Items::new(alloc);
            for finding in &all {
                found.put(reached(finding));
            }
            answer.put_value("found", found.value());
        }
        Err(name) => answer.put("error", name),
    }
    Ok(answer.value()?)
}

/// The length of a shortest reached question, where it is short.
fn reached(finding: &Finding) -> Option<u64> {
    match finding {
        Finding::Live(question) => if_short(length(question.path.as_str())),
        Finding::DeadByFolders(_) => None,
        Finding::Overruled(_) => None,
        Finding::Unreached => None,
    }
}

/// Answers `length`, which is that of a shortest question at which the lists differ, if it is short,
/// else null; or `error`. Where `ignored` is true, none and whitelist count as one.
pub fn lists(alloc: Global, input: &Value) -> Result<Value, Trouble> {
    let counted = if flag(input, "ignored")? {
        Counted::Ignored
    } else {
        Counted::Verdicts
    };
    let mut answer = Answer::new(alloc);
    match difference(alloc, input, counted)? {
        Ok(Some(found)) => answer.put("length", if_short(length(found.question.path.as_str()))),
        Ok(None) => answer.put("length", None::<u64>),
        Err(name) => answer.put("error", name),
    }
    Ok(answer.value()?)
}
