//! Rules over all paths, whatever a tree holds: which rules of a list can decide at all, and whether
//! two lists say the same.

pub use ignore_every::{
    Analysis, Comparison, Counted, Difference, Error, Example, Finding, Folder, Question, Said,
    Verdict, Wanted, compare, differences, laws,
};
