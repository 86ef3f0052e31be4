//! Why a call did nothing, and its number.
ghost use Rattle.std.specs.Prelude.{◌≡◌};
ghost use Rattle.ignore_base.specs.Problem.{problem_of};
ghost use Rattle.ignore_rules.specs.RuleFile.{is_memory};
ghost use Rattle.ignore_kept.specs.Stops.{ended_code, stop_code, tree_code};

use ignore::Error;
use ignore::files::TreeError;
use ignore::guide::GuideError;
use std::alloc::{AllocError, AllocFailed};

/// Why a call did nothing.
#[derive(Clone, Copy, Drop)]
pub enum Stopped {
    /// A text isn't UTF-8.
    NotUtf8,
    /// Out of memory.
    Memory,
    /// What is given isn't what it should be, as a line or a file: its error says why; or the check of
    /// a search over all paths refuses what it left.
    Invalid,
    /// A handle keeps something else, or isn't so far.
    Misused,
    /// The path isn't below the root.
    Outside,
    /// The tree isn't changed.
    Tree(TreeError),
    /// A walk took more steps than it may.
    Limit,
    /// A search over all paths would need more states than it may find.
    TooLarge,
}

impl Stopped {
    /// The number by which C knows it.
    pub fn code(self) -> u32
        ensures { result ≡ stop_code self }
    {
        match self {
            Stopped::NotUtf8 => 4,
            Stopped::Memory => 5,
            Stopped::Limit => 6,
            Stopped::Invalid => 7,
            Stopped::Misused => 9,
            Stopped::Outside => 10,
            Stopped::Tree(error) => tree_code(error),
            Stopped::TooLarge => 17,
        }
    }
}

fn tree_code(error: TreeError) -> u32
    ensures { result ≡ tree_code error }
{
    match error {
        TreeError::NotClean => 11,
        TreeError::NoParent => 12,
        TreeError::Exists => 13,
        TreeError::Missing => 14,
        TreeError::Memory => 5,
    }
}

/// Whether an error is out of memory.
pub(crate) fn is_memory(error: &Error) -> bool
    ensures { result ≡ is_memory (problem_of error.now) }
{
    matches!(error, Error::Memory)
}

/// The number of a call that returns nothing.
pub fn done(given: Result<(), Stopped>) -> u32
    ensures { result ≡ ended_code given }
{
    match given {
        Ok(()) => 0,
        Err(stopped) => stopped.code(),
    }
}

/// Of calls whose only error is out of memory.
impl From<Error> for Stopped {
    ghost use Rattle.std.specs.Prelude.{◌≡◌};
    ghost use Rattle.ignore_kept.specs.declared.stopped.Stopped.TheVariants.{Memory};

    ghost from_gives = { λ _ stopped. stopped ≡ Memory };

    fn from(_error: Error) -> Stopped {
        Stopped::Memory
    }
}

/// Of calls of a guide: a place, or a name, that is none is a call that isn't to be made.
impl From<GuideError> for Stopped {
    ghost use Rattle.std.specs.Prelude.{◌≡◌};
    ghost use Rattle.ignore_kept.specs.Stops.{guide_stop};

    ghost from_gives = { λ e stopped. stopped ≡ guide_stop e };

    fn from(error: GuideError) -> Stopped {
        match error {
            GuideError::Memory => Stopped::Memory,
            GuideError::NoPlace => Stopped::Misused,
            GuideError::NoName => Stopped::Misused,
            GuideError::HasChildren => Stopped::Misused,
        }
    }
}

impl From<AllocError> for Stopped {
    ghost use Rattle.std.specs.Prelude.{◌≡◌};
    ghost use Rattle.ignore_kept.specs.declared.stopped.Stopped.TheVariants.{Memory};

    ghost from_gives = { λ _ stopped. stopped ≡ Memory };

    fn from(_error: AllocError) -> Stopped {
        Stopped::Memory
    }
}

impl<T: Drop> From<AllocFailed<T>> for Stopped {
    ghost use Rattle.std.specs.Prelude.{◌≡◌};
    ghost use Rattle.ignore_kept.specs.declared.stopped.Stopped.TheVariants.{Memory};

    ghost from_gives = { λ _ stopped. stopped ≡ Memory };

    fn from(_error: AllocFailed<T>) -> Stopped {
        Stopped::Memory
    }
}
