//! The verdict of a line.
ghost use Rattle.std.specs.Prelude.{◌≡◌, Some, IfOk, map};
ghost use Rattle.serde_json.specs.Read.{read as read_text};
ghost use Rattle.serde_json.specs.View.{view};
ghost use Rattle.vectors.specs.Lines.{Answers, Comes};

use crate::kinds::Kinds;
use crate::trouble::Trouble;
use crate::vector::Vector;
use crate::verdict::Verdict;
use serde_json::{Category, Error, Value};
use std::alloc::Global;

/// Why a line is no vector, or wasn't judged.
#[derive(Clone, Copy, Drop)]
pub(crate) enum Flaw {
    NoJson,
    NoObject,
    UnknownKind,
    Field(&'static str),
    Memory,
}

impl From<Trouble> for Flaw {
    fn from(trouble: Trouble) -> Flaw {
        match trouble {
            Trouble::Field(name) => Flaw::Field(name),
            Trouble::Memory => Flaw::Memory,
        }
    }
}

/// The verdict of a line, judged again after a failed allocation.
pub(crate) fn judged<K: Kinds>(alloc: Global, kinds: &K, line: &[u8]) -> Result<Verdict, Flaw>
    ensures { IfOk result (Comes (K.gives kinds.now) (K.waits kinds.now) line.now) }
{
    match judge(alloc, kinds, line) {
        Err(Flaw::Memory) => judge(alloc, kinds, line),
        verdict => verdict,
    }
}

fn judge<K: Kinds>(alloc: Global, kinds: &K, line: &[u8]) -> Result<Verdict, Flaw>
    ensures { IfOk result (Comes (K.gives kinds.now) (K.waits kinds.now) line.now) }
{
    let value = read(alloc, line)?;
    let (answer, waiting) = answer(alloc, kinds, &value)?;
    Ok(Verdict::of(value, answer, waiting)?)
}

fn read(alloc: Global, line: &[u8]) -> Result<Value, Flaw>
    ensures { IfOk result (λ v. read_text line.now ≡ Some (view v)) }
{
    match Value::from_slice(alloc, line) {
        Ok(value) if value.is_object() => Ok(value),
        Ok(_) => Err(Flaw::NoObject),
        Err(error) => Err(flaw_of(error)),
    }
}

fn flaw_of(error: Error) -> Flaw {
    match error.classify() {
        Category::Memory => Flaw::Memory,
        Category::Io | Category::Syntax | Category::Data | Category::Eof => Flaw::NoJson,
    }
}

/// The answer of a kind to the vector that a value is, and the fields that may be missing.
fn answer<K: Kinds>(
    alloc: Global,
    kinds: &K,
    value: &Value,
) -> Result<(Value, &'static [&'static str]), Flaw>
    ensures { IfOk result
        (λ r. Answers (K.gives kinds.now) (K.waits kinds.now) (view value.now) r.0 (map (λ w. w.now) r.1.now)) }
{
    let vector = Vector::of(value)?;
    match kinds.answer(alloc, vector.kind, vector.input) {
        Some(Ok(answer)) => Ok((answer, kinds.waiting(vector.kind))),
        Some(Err(trouble)) => Err(Flaw::from(trouble)),
        None => Err(Flaw::UnknownKind),
    }
}
