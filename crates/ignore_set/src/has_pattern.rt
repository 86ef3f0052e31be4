//! Values that hold a pattern.

use ignore_glob::glob::Pattern;

/// A value that holds a pattern, for all texts or for directories only, as a rule does.
pub trait HasPattern {
    ghost use Rattle.std.specs.Prelude.{◌≡◌};
    ghost use Rattle.ignore_set.specs.Sets.{Member};

    /// The pattern, with its restriction, that the value stands for.
    ghost member: { Self → Member };

    /// Its pattern.
    fn pattern(&self) -> &Pattern
        ensures { result.now ≡ (member self.now).reading };

    /// Whether it is for directories only.
    fn is_only_dir(&self) -> bool
        ensures { result ≡ (member self.now).only_dir };
}
