//! The answers of file types for paths, and all that can be read of them.

use crate::clones::asked;
use crate::operations::{Changed, OPS, apply_all};
use answers::{Answer, Items, TypesCall, but_for_memory, problem, types_call};
use ignore_base::{Error, Match};
use ignore_types::types::{FileTypeDef, Glob, Types, TypesBuilder};
use serde_json::Value;
use std::alloc::{AllocError, Global};
use vectors::{Trouble, flag_at, list, text_at};

/// The name of the field with the paths that are matched.
const ASKS: &str = "asks";

/// Answers `refused`, `definitions`, `build` (its error), and then `len` and `answers`, which is
/// `null` where nothing is built.
pub fn answer(alloc: Global, input: &Value) -> Result<Value, Trouble> {
    let mut builder = TypesBuilder::new(alloc);
    let refused = apply_all(alloc, &mut builder, input)?;
    reported(alloc, input, refused, &builder)
}

fn reported(
    alloc: Global,
    input: &Value,
    refused: Items,
    builder: &TypesBuilder,
) -> Result<Value, Trouble> {
    let definitions = asked(input, but_for_memory(builder.definitions())?)?;
    let built = build(builder)?;
    reported_built(alloc, input, refused, &definitions, built)
}

fn reported_built(
    alloc: Global,
    input: &Value,
    refused: Items,
    definitions: &[FileTypeDef],
    built: Built,
) -> Result<Value, Trouble> {
    let mut answer = Answer::new(alloc);
    answer.put_value("refused", refused.value());
    answer.put_value("definitions", definitions_value(alloc, definitions));
    match built {
        Built::Types(types) => {
            reported_types(alloc, input, answer, definitions, &asked(input, types)?)
        }
        Built::Refused(error) => reported_refused(answer, error),
    }
}

/// What came of building.
#[derive(Drop)]
enum Built {
    Types(Types),
    Refused(Error),
}

fn reported_types(
    alloc: Global,
    input: &Value,
    mut answer: Answer,
    definitions: &[FileTypeDef],
    types: &Types,
) -> Result<Value, Trouble> {
    let answers = answers(alloc, input, types)?;
    answer.put_value("build", Ok(Value::Null));
    answer.put("len", types.len());
    answer.put_value("answers", answers.value());
    put_other_definitions(&mut answer, alloc, types, definitions);
    Ok(answer.value()?)
}

/// The definitions of the matcher are a field of their own, which isn't wanted, where they aren't
/// those of the builder.
fn put_other_definitions(
    answer: &mut Answer,
    alloc: Global,
    types: &Types,
    definitions: &[FileTypeDef],
) {
    if types.definitions() != definitions {
        let others = definitions_value(alloc, types.definitions());
        answer.put_value("definitions of the matcher", others);
    }
}

fn definitions_value(alloc: Global, definitions: &[FileTypeDef]) -> Result<Value, AllocError> {
    let mut items = Items::new(alloc);
    for definition in definitions {
        items.put_value(definition_value(alloc, definition));
    }
    items.value()
}

/// A type's name and its globs.
fn definition_value(alloc: Global, definition: &FileTypeDef) -> Result<Value, AllocError> {
    let mut items = Items::new(alloc);
    items.put(definition.name());
    items.put(definition.globs());
    items.value()
}

fn reported_refused(mut answer: Answer, error: Error) -> Result<Value, Trouble> {
    answer.put("build", &error);
    answer.put_value("answers", Ok(Value::Null));
    Ok(answer.value()?)
}

impl Changed for TypesBuilder {
    fn apply(&mut self, op: &Value) -> Result<Option<Error>, Trouble> {
        match types_call(op, OPS)? {
            TypesCall::AddDefaults => problem(self.add_defaults()),
            TypesCall::Add(name, glob) => problem(self.add(name, glob)),
            TypesCall::AddDef(definition) => problem(self.add_def(definition)),
            TypesCall::Select(name) => problem(self.select(name)),
            TypesCall::Negate(name) => problem(self.negate(name)),
            TypesCall::Clear(name) => {
                self.clear(name);
                Ok(None)
            }
        }
    }
}

fn build(builder: &TypesBuilder) -> Result<Built, Trouble> {
    match builder.build() {
        Ok(types) => Ok(Built::Types(types)),
        Err(Error::Memory) => Err(Trouble::Memory),
        Err(error) => Ok(Built::Refused(error)),
    }
}

/// The answer of the types for each path.
fn answers(alloc: Global, input: &Value, types: &Types) -> Result<Items, Trouble> {
    let mut answers = Items::new(alloc);
    for ask in list(input, ASKS)? {
        let answer = answered(alloc, input, types, ask)?;
        answers.put_value(Ok(answer));
    }
    Ok(answers)
}

/// The answer of the types for a path.
fn answered(alloc: Global, input: &Value, types: &Types, ask: &Value) -> Result<Value, Trouble> {
    let found = but_for_memory(types.matched(text_at(ask, 0, ASKS)?, flag_at(ask, 1, ASKS)?))?;
    let found = asked(input, found)?;
    Ok(match_value(alloc, found)?)
}

/// The kind of a match, and the type that decided or `null`.
fn match_value(alloc: Global, found: Match<Glob<'_>>) -> Result<Value, AllocError> {
    let mut items = Items::new(alloc);
    match found {
        Match::None => put_match(&mut items, alloc, "none", None),
        Match::Ignore(glob) => put_match(&mut items, alloc, "ignore", glob.file_type_def()),
        Match::Whitelist(glob) => put_match(&mut items, alloc, "whitelist", glob.file_type_def()),
    }
    items.value()
}

fn put_match(items: &mut Items, alloc: Global, kind: &str, definition: Option<&FileTypeDef>) {
    items.put(kind);
    match definition {
        Some(definition) => items.put_value(definition_value(alloc, definition)),
        None => items.put_value(Ok(Value::Null)),
    }
}
