//! The program `replay_every`: asks over all paths which rules of a list can decide and whether two
//! lists say the same, and compares the answers with vectors.
#![tactic(auto)]

mod dead;
mod lines;
mod same;
mod short;

use answers::replay_all;
use serde_json::Value;
use std::alloc::Global;
use std::process::ExitCode;
use vectors::{Kinds, Trouble};

/// The library, asked over all paths.
#[derive(Clone, Copy)]
pub struct Library;

impl Kinds for Library {
    fn answer(&self, alloc: Global, kind: &str, input: &Value) -> Option<Result<Value, Trouble>> {
        match kind {
            "dead" => Some(dead::answer(alloc, input)),
            "same" => Some(same::answer(alloc, input)),
            "short rules" => Some(short::rules(alloc, input)),
            "short lists" => Some(short::lists(alloc, input)),
            _ => None,
        }
    }

    /// The fields of a kind that may be missing: none.
    fn waiting(&self, _kind: &str) -> &'static [&'static str] {
        &[]
    }
}

fn main(rt: HostRuntime) -> ExitCode {
    ExitCode::from(replay_all(&rt, &Library))
}
