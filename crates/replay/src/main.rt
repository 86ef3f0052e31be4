//! The program `replay`: asks the library what vectors ask, and compares whole answers.
#![tactic(auto)]

mod clones;
mod kinds;
mod operations;
mod refusing;
mod rules;

use answers::replay_all;
use kinds::Library;
use std::process::ExitCode;

fn main(rt: HostRuntime) -> ExitCode {
    ExitCode::from(replay_all(&rt, &Library))
}
