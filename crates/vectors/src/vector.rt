//! One vector.
ghost use Rattle.std.specs.Prelude.{◌≡◌, ◌≢◌, None, MatchResult};
ghost use Rattle.serde_json.specs.Find.{as_object};
ghost use Rattle.serde_json.specs.View.{view, members_view};
ghost use Rattle.vectors.specs.Vectors.{IsVector, named_field, wrong_field};

use crate::fields::{members, object, text};
use crate::trouble::Trouble;
use serde_json::{Map, Value};

/// A vector: a question, and the wanted answer.
#[derive(Drop)]
pub struct Vector<'v> {
    /// Its name.
    pub id: &'v str,
    /// The name of its kind.
    pub kind: &'v str,
    /// The input, an object.
    pub input: &'v Value,
    /// The wanted fields of the answer.
    pub wanted: &'v Map<String, Value>,
}

impl<'v> Vector<'v> {
    /// The vector that a value is, or the first of its fields that is missing or of another form.
    pub fn of(value: &'v Value) -> Result<Vector<'v>, Trouble>
        ensures { MatchResult result
            (λ v. IsVector (view value.now) v.id.now v.kind.now (view v.input.now) (members_view v.wanted.now.entries))
            (λ t. (wrong_field (view value.now) ≢ None) × (named_field t ≡ wrong_field (view value.now))) }
    {
        Ok(Vector {
            id: text(value, "id")?,
            kind: text(value, "kind")?,
            input: object(value, "in")?,
            wanted: members(value, "out")?,
        })
    }
}
