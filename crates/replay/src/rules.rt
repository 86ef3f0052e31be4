//! Builders of gitignore rules, as vectors describe them, and their answers.

use crate::clones::asked;
use crate::operations::{Changed, OPS, apply_all};
use crate::refusing::Refusing;
use answers::{Answer, Items, but_for_memory, problem};
use ignore_base::{Error, Match};
use ignore_rules::gitignore::{Gitignore, GitignoreBuilder, Glob};
use serde_json::Value;
use std::alloc::{AllocError, Global};
use vectors::{Trouble, flag_at, list, text, text_at};

/// The name of the field that holds the lines of a builder whose root is `/r`.
pub const LINES: &str = "lines";

/// The builder at `/r` with the lines of a vector, if it has any. What is wrong with them isn't
/// reported.
pub fn builder_of_lines(alloc: Global, input: &Value) -> Result<GitignoreBuilder, Trouble> {
    let mut builder = but_for_memory(GitignoreBuilder::new(alloc, "/r"))?;
    add_texts(&mut builder, input)?;
    asked(input, builder)
}

fn add_texts(builder: &mut GitignoreBuilder, input: &Value) -> Result<(), Trouble> {
    if input.get(LINES).is_some() {
        for line in list(input, LINES)? {
            add_text(builder, line)?;
        }
    }
    Ok(())
}

/// Adds a line, and again where it is out of memory.
fn add_text(builder: &mut GitignoreBuilder, line: &Value) -> Result<Option<Error>, Trouble> {
    let Some(line) = line.as_str() else {
        return Err(Trouble::Field(LINES));
    };
    match problem(builder.add_line(None, line)) {
        Err(_) => problem(builder.add_line(None, line)),
        added => added,
    }
}

/// A matcher after a vector's operations, and what was refused of them.
#[derive(Drop)]
pub struct Built {
    pub matcher: Gitignore,
    pub refused: Items,
}

/// The matcher of a vector, after its operations.
pub fn after_operations(alloc: Global, input: &Value) -> Result<Built, Trouble> {
    let mut builder = but_for_memory(GitignoreBuilder::new(alloc, text(input, "root")?))?;
    let refused = apply_all(alloc, &mut builder, input)?;
    let matcher = matcher_of(input, builder)?;
    Ok(Built { matcher, refused })
}

fn matcher_of(input: &Value, builder: GitignoreBuilder) -> Result<Gitignore, Trouble> {
    let builder = asked(input, builder)?;
    asked(input, but_for_memory(builder.build())?)
}

impl Changed for GitignoreBuilder {
    fn apply(&mut self, op: &Value) -> Result<Option<Error>, Trouble> {
        match text_at(op, 0, OPS)? {
            "line" => problem(self.add_line(None, text_at(op, 1, OPS)?)),
            "ci" => problem(self.case_insensitive(flag_at(op, 1, OPS)?)),
            "auc" => {
                self.allow_unclosed_class(flag_at(op, 1, OPS)?);
                Ok(None)
            }
            "gts" => {
                self.git_trailing_spaces(flag_at(op, 1, OPS)?);
                Ok(None)
            }
            _ => Err(Trouble::Field(OPS)),
        }
    }
}

/// Puts the root and the rules of a matcher, and what is reported of its file.
pub fn put_read(answer: &mut Answer, alloc: Global, matcher: &Gitignore, error: &Option<Error>) {
    answer.put("root", matcher.path());
    answer.put_value("rules", rules_value(alloc, matcher.rules()));
    answer.put("error", error.as_ref());
}

/// Puts the error of a call that was out of memory, where it was the files that reported this.
pub fn put_error(
    answer: &mut Answer,
    name: &str,
    files: &Refusing<'_>,
    error: &Error,
) -> Result<(), Trouble> {
    answer.put(name, files.reported(error)?);
    Ok(())
}

/// The rules of a matcher, each with all that can be read of it.
pub fn rules_value(alloc: Global, rules: &[Glob]) -> Result<Value, AllocError> {
    let mut items = Items::new(alloc);
    for rule in rules {
        items.put_value(rule_value(alloc, rule));
    }
    items.value()
}

fn rule_value(alloc: Global, rule: &Glob) -> Result<Value, AllocError> {
    let mut items = Items::new(alloc);
    items.put(rule.original());
    items.put(rule.actual());
    items.put(rule.is_whitelist());
    items.put(rule.is_only_dir());
    items.put(rule.from());
    items.value()
}

/// What a matcher answered: the kind of the match, and the texts and the place of the rule that
/// decided.
pub fn match_value(
    alloc: Global,
    matcher: &Gitignore,
    answer: Match<&Glob>,
) -> Result<Value, AllocError> {
    let mut items = Items::new(alloc);
    match answer {
        Match::None => items.put("none"),
        Match::Ignore(rule) => put_decided(&mut items, "ignore", matcher, rule),
        Match::Whitelist(rule) => put_decided(&mut items, "whitelist", matcher, rule),
    }
    items.value()
}

fn put_decided(items: &mut Items, kind: &str, matcher: &Gitignore, rule: &Glob) {
    items.put(kind);
    items.put(rule.original());
    items.put(rule.actual());
    items.put(place(matcher, rule));
}

/// The place of the last rule of which the same can be read, if there is one.
fn place(matcher: &Gitignore, rule: &Glob) -> Option<u64> {
    let mut place = None;
    let mut number = 0u64;
    for other in matcher.rules() {
        if reads_same(rule, other) {
            place = Some(number);
        }
        number = number.saturating_add(1);
    }
    place
}

fn reads_same(rule: &Glob, other: &Glob) -> bool {
    rule.from() == other.from()
        && rule.original() == other.original()
        && rule.actual() == other.actual()
        && rule.is_whitelist() == other.is_whitelist()
        && rule.is_only_dir() == other.is_only_dir()
}
