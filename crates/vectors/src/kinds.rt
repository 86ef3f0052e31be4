//! The kinds of vectors.

use crate::trouble::Trouble;
use serde_json::Value;
use std::alloc::Global;

/// A library that answers vectors, by their kinds.
///
/// A contract sees, for each call, a relation between the value, the call and an answer that
/// the call may give.
pub trait Kinds {
    ghost use Rattle.std.specs.Prelude.{List, Option, Result, ⊤, map};
    ghost use Rattle.serde_json.specs.Data.{Data};
    ghost use Rattle.serde_json.specs.View.{view};
    ghost use Rattle.serde_json.specs.declared.value.Value.{Value};
    ghost use Rattle.vectors.specs.declared.trouble.Trouble.{Trouble};
    ghost use Rattle.vectors.specs.Text.{Bytes};

    ghost gives: { Self → Bytes → Data → Option (Result Value Trouble) → Type 0 } = { λ _ _ _ _. ⊤ };

    ghost waits: { Self → Bytes → List Bytes → Type 0 } = { λ _ _ _. ⊤ };

    /// The answer of the kind with this name, if there is one.
    fn answer(&self, alloc: Global, kind: &str, input: &Value) -> Option<Result<Value, Trouble>>
        ensures { gives self.now kind.now (view input.now) result };

    /// The fields of a kind that may be missing in its answers.
    fn waiting(&self, kind: &str) -> &'static [&'static str]
        ensures { waits self.now kind.now (map (λ w. w.now) result.now) };
}
