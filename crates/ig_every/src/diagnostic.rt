//! What is wrong with a line of a file of rules.

use ignore_files::Name;

/// What is wrong with a line, or with the rule of a line.
#[derive(Debug, Drop)]
pub enum Wrong {
    /// The line isn't UTF-8, so neither it nor any line after it is read.
    NotUtf8,
    /// It has a byte order mark that isn't the first of its file.
    Mark,
    /// It has a carriage return that isn't its last character.
    Return,
    /// The white space at its end counts.
    Space,
    /// Git reads the white space at its end in another way.
    GitSpace,
    /// Its glob is invalid, for this reason.
    Invalid(Name),
    /// The same rule stands again at this line.
    Again(u64),
    /// The rule applies to no path.
    Nothing,
    /// Wherever the rule applies, the rules of these later lines decide.
    Overruled(Vec<u64>),
    /// The rule decides in ignored folders alone, as in this one, which the rule of this line
    /// ignores.
    InFolders(Name, u64),
    /// The rule decides on no path outside of ignored folders. Whether it decides in those would have
    /// needed more states than there may be.
    Unreached,
    /// Without the rule with `!` its file ignores the same paths. That is no mistake where another file
    /// ignores one that the rule decides on, so it is a note.
    NoEffect,
}

/// A line, and what is wrong with it.
#[derive(Debug, Drop)]
pub struct Diagnostic {
    /// The number of the line, from 1.
    pub line: u64,
    /// Its rule as it is written, without white space at the end; empty where the line has none.
    pub rule: Name,
    /// What is wrong.
    pub wrong: Wrong,
}
