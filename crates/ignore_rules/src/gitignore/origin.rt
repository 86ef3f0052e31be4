//! Where a rule comes from.
use std::marker::Model;
use std::sync::ArcStr;

/// Where a rule comes from.
#[derive(Drop)]
pub struct Origin {
    /// What was given with its line: the path of a file, or nothing.
    pub from: Option<ArcStr>,
    /// The number of its line in that file, from 1, and 0 for none.
    pub line: u64,
}

impl Model for Origin {
    ghost use Rattle.std.specs.Prelude.{option_map};
    ghost use Rattle.std.specs.Arc.{arc_str_bytes};
    ghost use Rattle.ignore_rules.specs.Rules.{Origin as Says, number_of};

    ghost Value = { Says };

    ghost view = { λ o. record { from = option_map arc_str_bytes o.from; line = number_of o.line } };
}
