//! What `ig same` and `ig lint` find: the rules of files, over all paths, whatever a tree holds.
#![tactic(auto)]

mod compared;
mod dead;
mod diagnostic;
mod input;
mod lines;
mod linted;
mod notes;
mod reading;
mod texts;

pub use compared::{compare_rules, rule_in, shown};
pub use diagnostic::{Diagnostic, Wrong};
pub use linted::{Linted, Verdicts, lint};
pub use reading::{HowRead, RulesRead, is_input, read_file, read_side};
pub use texts::{json_of, text_of};
