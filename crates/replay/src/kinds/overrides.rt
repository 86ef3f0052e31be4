//! The answer of the globs of a command line for a path.

use crate::clones;
use crate::operations::{Changed, OPS, apply_all};
use answers::{Answer, Items, but_for_memory, problem};
use ignore_base::{Error, Match};
use ignore_rules::overrides::{Override, OverrideBuilder};
use serde_json::Value;
use std::alloc::Global;
use vectors::{Trouble, flag, flag_at, text, text_at};

/// Answers `kind`, `refused`, `path`, `is_empty` and the counts.
pub fn answer(alloc: Global, input: &Value) -> Result<Value, Trouble> {
    let mut builder = but_for_memory(OverrideBuilder::new(alloc, text(input, "root")?))?;
    let refused = apply_all(alloc, &mut builder, input)?;
    let globs = globs_of(input, builder)?;
    asked(alloc, kind(input, &globs), &globs, refused)
}

fn asked(
    alloc: Global,
    kind: Result<&'static str, Trouble>,
    globs: &Override,
    refused: Items,
) -> Result<Value, Trouble> {
    let kind = kind?;
    let mut answer = Answer::new(alloc);
    answer.put("kind", kind);
    answer.put_value("refused", refused.value());
    answer.put("path", globs.path());
    answer.put("is_empty", globs.is_empty());
    answer.put("num_ignores", globs.num_ignores());
    answer.put("num_whitelists", globs.num_whitelists());
    Ok(answer.value()?)
}

impl Changed for OverrideBuilder {
    fn apply(&mut self, op: &Value) -> Result<Option<Error>, Trouble> {
        match text_at(op, 0, OPS)? {
            "line" => problem(self.add(text_at(op, 1, OPS)?)),
            "ci" => problem(self.case_insensitive(flag_at(op, 1, OPS)?)),
            "auc" => {
                self.allow_unclosed_class(flag_at(op, 1, OPS)?);
                Ok(None)
            }
            _ => Err(Trouble::Field(OPS)),
        }
    }
}

/// The globs that are asked.
fn globs_of(input: &Value, builder: OverrideBuilder) -> Result<Override, Trouble> {
    let builder = clones::asked(input, builder)?;
    clones::asked(input, but_for_memory(builder.build())?)
}

/// The answer of globs for a path.
fn kind(input: &Value, globs: &Override) -> Result<&'static str, Trouble> {
    let (path, is_dir) = (text(input, "path")?, flag(input, "is_dir")?);
    let found = but_for_memory(globs.matched(path, is_dir))?;
    match clones::asked(input, found)? {
        Match::None => Ok("none"),
        Match::Ignore(_) => Ok("ignore"),
        Match::Whitelist(_) => Ok("whitelist"),
    }
}
