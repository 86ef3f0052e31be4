//! Tables of rules that follow each other: of one rule, or of those of two tables.
ghost use Rattle.std.specs.Prelude.{◌≡◌};
ghost use Rattle.ignore_every.specs.Trees.{made_rows};

use crate::leaf::Leaf;
use crate::pair::Pair;
use crate::row::Row;

/// The table of rules that follow each other.
#[derive(Drop)]
pub struct Node {
    /// The index of the first of them.
    pub low: usize,
    /// The index after the last of them.
    pub high: usize,
    /// The table.
    pub made: Made,
}

/// A table, with what it is made of.
#[derive(Drop)]
pub enum Made {
    /// A table of no rules.
    OfNone(Vec<Row>),
    /// The table of one rule.
    OfRule(Leaf),
    /// The table of the rules of two tables.
    OfTwo(Branch),
}

/// A table of pairs, with the tables that it is of.
#[derive(Drop)]
pub struct Branch {
    /// The number of the table of the earlier rules.
    pub left: usize,
    /// The number of the table of the later rules.
    pub right: usize,
    /// The pairs.
    pub pair: Pair,
}

impl Node {
    /// The states of the table.
    pub(crate) fn rows(&self) -> &[Row]
        ensures { result.now ≡ made_rows self.now.made }
    {
        match &self.made {
            Made::OfNone(rows) => rows.as_slice(),
            Made::OfRule(leaf) => leaf.rows.as_slice(),
            Made::OfTwo(branch) => branch.pair.rows.as_slice(),
        }
    }
}
