//! Why rules aren't judged over all paths.

use crate::stopped::Stopped;
use ignore::every::Error;

impl From<Error> for Stopped {
    ghost use Rattle.std.specs.Prelude.{◌≡◌};
    ghost use Rattle.ignore_kept.specs.Judging.{search_stop};

    ghost from_gives = { λ error stopped. stopped ≡ search_stop error };

    fn from(error: Error) -> Stopped {
        match error {
            Error::TooLarge => Stopped::TooLarge,
            Error::Rejected => Stopped::Invalid,
            Error::Memory => Stopped::Memory,
        }
    }
}
