//! Laws of joining and stripping paths, each as the contract of a function that does nothing.
ghost use Rattle.ignore_base.specs.Normalize.{NormalizesJoined, NormalizesToClean};
ghost use Rattle.ignore_base.specs.Paths.{JoinsName, JoinsNames, LeavesThePath, StripsByOffset, StripsDirectories};

/// A directory below a root, joined with names below it, is the root joined with all the names; so
/// with one name more it is the next directory below.
pub fn join_law()
    ensures name { JoinsName }
    ensures names { JoinsNames }
{}

/// A directory, stripped from a path below it, leaves the names after the directory: for each clean
/// root, each directory below it (or the root itself), without its leading `./`, and each clean
/// path below that directory.
pub fn strip_law()
    ensures { StripsDirectories }
{}

/// What is left of a path after the offset of a directory (`offset_below`): of the directory and a
/// relative path, joined, that path. And what is left of a path below a clean root when the
/// directory is stripped. So the offset is found once for a directory, for all paths below it.
pub fn offset_law()
    ensures left { LeavesThePath }
    ensures stripped { StripsByOffset }
{}

/// A clean path, joined to a root, is normalized to itself: for each root but the empty one and `-`
/// that is absolute, or whichever root where the working directory is absolute. And what a path is
/// normalized to is clean.
pub fn normalize_law()
    ensures joined { NormalizesJoined }
    ensures clean { NormalizesToClean }
{}
