//! The program `replay_ig`: runs the commands of `ig` as vectors say, with writers in memory, and
//! compares what they leave.
#![tactic(auto)]

ghost use Rattle.std.specs.Prelude.{◌≡◌, []};

mod ig;

use answers::replay_all;
use serde_json::Value;
use std::alloc::Global;
use std::process::ExitCode;
use vectors::{Kinds, Trouble};

/// The program's commands.
#[derive(Clone, Copy)]
struct Commands;

impl Kinds for Commands {
    ghost waits = { λ _ _ names. names ≡ [] };

    fn answer(&self, alloc: Global, kind: &str, input: &Value) -> Option<Result<Value, Trouble>> {
        match kind {
            "ig" => Some(ig::answer(alloc, input)),
            _ => None,
        }
    }

    /// No field of an answer may be missing.
    fn waiting(&self, _kind: &str) -> &'static [&'static str] {
        &[]
    }
}

fn main(rt: HostRuntime) -> ExitCode {
    ExitCode::from(replay_all(&rt, &Commands))
}
