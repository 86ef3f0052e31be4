//! Laws of the definitions, as calls that do nothing: each contract is the law.
ghost use Rattle.ignore_query.specs.Forget.{ListsKept, SameKeptAgrees};
ghost use Rattle.ignore_query.specs.Fresh.{NothingAgrees, NothingReportsAll};

use crate::incremental::IncrementalIgnore;

/// What keeps nothing agrees with each tree (`agrees`), and where nothing is kept a query reports
/// what one on the bare tree does (`reports`). So the first query of a fresh matcher is that of the
/// bare tree, with its error.
pub fn nothing_kept()
    ensures agrees { NothingAgrees }
    ensures reports { NothingReportsAll }
{}

/// The names by which the directories are listed that a matcher keeps (`kept_dirs`), and that
/// `forget` counts, are those of each directory of which something is kept, once, and of no other.
pub fn each_kept_once(matcher: &IncrementalIgnore)
    ensures { ListsKept matcher.now.cache }
{
    matcher.cache.dirs.map.len();
}

/// What is kept, and is right for one tree, is right for each other tree in which all of that is the
/// same: the kind of the root and its canonical path, what counts of the directories above it, and
/// what each directory holds that is kept and isn't ignored. So a host may tell its tree as it goes:
/// where all that is kept is the same in the whole tree, the answers are those of the whole tree.
pub fn what_is_kept_stays_right()
    ensures { SameKeptAgrees }
{}
