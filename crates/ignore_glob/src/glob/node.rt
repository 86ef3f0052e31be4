//! What stands at a position of a glob.

use crate::glob::token::Class;

/// What stands at a position, with the position that comes next.
/// The inside of a recursive token is the position after its own.
#[derive(Debug, Drop)]
pub enum Node {
    /// This character.
    Literal(char, usize),
    /// `?`
    Any(usize),
    /// `*`
    Star(usize),
    /// `**/` at a start.
    Start(usize),
    /// `/**/`
    Middle(usize),
    /// `/**` at an end.
    End(usize),
    /// The inside of a start or of a middle.
    UntilSlash(usize),
    /// The inside of an end, or of a start that is the whole glob.
    UntilEnd(usize),
    /// `[..]`
    Class(Class, usize),
    /// `{..,..}`: the first position of each branch; without a branch the one that comes next.
    Fork(Vec<usize>),
}
