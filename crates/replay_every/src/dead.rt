//! What is found of each rule of a list of lines.

use crate::lines::{findings, rules_of};
use answers::{Answer, Items};
use ignore_every::Finding;
use serde_json::Value;
use std::alloc::Global;
use vectors::Trouble;

/// Answers `found`: of each rule, in their order, `live`, `dead by folders`, `unreached`, or the
/// indices of the rules that overrule it; or `error`.
pub fn answer(alloc: Global, input: &Value) -> Result<Value, Trouble> {
    let rules = rules_of(alloc, input, "lines")?;
    let mut answer = Answer::new(alloc);
    match findings(alloc, &rules)? {
        Ok(all) => {
            let mut found = Items::new(alloc);
            for finding in &all {
                put_finding(alloc, &mut found, finding);
            }
            answer.put_value("found", found.value());
        }
        Err(name) => answer.put("error", name),
    }
    Ok(answer.value()?)
}

/// Puts what is found of a rule.
fn put_finding(alloc: Global, found: &mut Items, finding: &Finding) {
    match finding {
        Finding::Live(_) => found.put("live"),
        Finding::DeadByFolders(_) => found.put("dead by folders"),
        Finding::Unreached => found.put("unreached"),
        Finding::Overruled(named) => {
            let mut indices = Items::new(alloc);
            for index in named {
                indices.put(*index);
            }
            found.put_value(indices.value());
        }
    }
}
