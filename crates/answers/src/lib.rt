//! What the programs that replay vectors share: answers put together as values, errors and bytes as
//! vectors write them, trees of files and environments that vectors describe, and the run over
//! files of vectors, and of programs that vectors run. Tests share the tree of which one call is refused.
#![tactic(auto)]

mod answer;
mod bounds;
mod counting;
mod environments;
mod error;
mod files;
mod hex_digits;
mod program;
mod refusing;
mod results;
mod runs;
mod tree_calls;
mod types;

pub use answer::{Answer, Items, Written};
pub use bounds::{Bounds, Questions};
pub use counting::{Calls, Counting};
pub use environments::{environment, name_of, outside_paths, variable};
pub use error::{fault_of, printed, shape};
pub use hex_digits::bytes_of;
pub use program::replay_all;
pub use refusing::Refusing;
pub use results::{but_for_memory, problem};
pub use runs::{ENDED, Outcome, answer_of_run, words_of};
pub use tree_calls::{CALLS, make_call, tree_of_calls, unrefused};
pub use types::{TypesCall, types_call};
