//! The kinds of vectors. A kind is one module with one function, from what is asked to the answer.
ghost use Rattle.std.specs.Prelude.{◌≡◌};
ghost use Rattle.replay.specs.Waiting.{waiting_fields};

mod error;
mod excludes;
mod file;
mod glob;
mod global;
mod overrides;
mod path_or_parents;
mod rulefile;
mod rules;
mod set;
mod strip;
mod tree;
mod types;

use serde_json::Value;
use std::alloc::Global;
use vectors::{Kinds, Trouble};

/// The library, asked by the kinds.
#[derive(Clone, Copy)]
pub struct Library;

impl Kinds for Library {
    ghost waits = { λ _ kind names. names ≡ waiting_fields kind };

    fn answer(&self, alloc: Global, kind: &str, input: &Value) -> Option<Result<Value, Trouble>> {
        match kind {
            "error" => Some(error::answer(alloc, input)),
            "excludes" => Some(excludes::answer(alloc, input)),
            "file" => Some(file::answer(alloc, input)),
            "glob" => Some(glob::answer(alloc, input)),
            "global" => Some(global::answer(alloc, input)),
            "override" => Some(overrides::answer(alloc, input)),
            "path_or_parents" => Some(path_or_parents::answer(alloc, input)),
            "rulefile" => Some(rulefile::answer(alloc, input)),
            "rules" => Some(rules::answer(alloc, input)),
            "set" => Some(set::answer(alloc, input)),
            "strip" => Some(strip::answer(alloc, input)),
            "tree" => Some(tree::answer(alloc, input)),
            "types" => Some(types::answer(alloc, input)),
            _ => None,
        }
    }

    /// The field of a kind that isn't compared: a bound, which a clause states.
    fn waiting(&self, kind: &str) -> &'static [&'static str] {
        match kind {
            "set" => &["pass_bound"],
            _ => &[],
        }
    }
}
