//! The program `replay_walks`: asks walks, matchers of single paths and the commands of `igwalk` what
//! vectors ask, and compares whole answers.
#![tactic(auto)]

mod kinds;
mod settings;

use crate::kinds::Library;
use answers::replay_all;
use std::process::ExitCode;

fn main(rt: HostRuntime) -> ExitCode {
    ExitCode::from(replay_all(&rt, &Library))
}
