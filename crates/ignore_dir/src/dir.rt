//! Loaded directories, and their lists of rules.

use ignore_rules::gitignore::Gitignore;
use std::marker::Model;

/// What one directory holds for the rules.
#[derive(Debug, Drop)]
pub struct Dir {
    /// The rules of the custom files.
    pub custom: Gitignore,
    /// The rules of `.ignore`.
    pub ignore: Gitignore,
    /// The rules of `.gitignore`.
    pub gitignore: Gitignore,
    /// The rules of the exclude file.
    pub exclude: Gitignore,
    /// Whether a repository begins here: whether there is a `.git` or a `.jj`, where marks matter.
    pub mark: bool,
}

/// A directory, and the offset in a text at which the path past it begins. The offset is found once
/// for a directory, and serves all paths below it.
#[derive(Debug, Drop)]
pub struct Placed {
    /// The directory.
    pub dir: Dir,
    /// The offset, in bytes.
    pub offset: usize,
}

impl Model for Placed {
    ghost use Rattle.ignore_dir.specs.Lists.{Placed, placed_code};

    ghost Value = { Placed };

    ghost coded = { placed_code };

    ghost view = { λ p. (p.dir, p.offset) };
}

/// The four lists of rules of a directory, in the order in which they decide.
#[derive(Clone, Copy, Debug, PartialEq, Eq)]
pub enum Rank {
    /// The custom files.
    Custom,
    /// `.ignore`.
    Ignore,
    /// `.gitignore`.
    Gitignore,
    /// The exclude file.
    Exclude,
}
