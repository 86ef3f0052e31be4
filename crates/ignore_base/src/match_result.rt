//! The answer of a matcher for a path.
ghost use Rattle.std.specs.Prelude.{◌≡◌};
ghost use Rattle.std.specs.Option.{ForSome, option_copied};
ghost use Rattle.ignore_base.specs.Match.{is_none, is_ignore, is_whitelist, inner, invert, match_or, IsMapped};

/// The answer of a matcher for a path, with the glob or rule that decided.
///
/// `T` is what decided: for a gitignore file, the rule of the line.
#[derive(Clone, Debug, Drop)]
pub enum Match<T> {
    /// No glob matched the path.
    None,
    /// The glob that decides ignores the path.
    Ignore(T),
    /// The glob that decides whitelists the path.
    Whitelist(T),
}

impl<T> Match<T> {
    /// Whether no glob matched the path.
    pub fn is_none(&self) -> bool
        ensures { result ≡ is_none self.now }
    {
        matches!(self, Match::None)
    }

    /// Whether the path is ignored.
    pub fn is_ignore(&self) -> bool
        ensures { result ≡ is_ignore self.now }
    {
        matches!(self, Match::Ignore(_))
    }

    /// Whether the path is whitelisted.
    pub fn is_whitelist(&self) -> bool
        ensures { result ≡ is_whitelist self.now }
    {
        matches!(self, Match::Whitelist(_))
    }

    /// The same match with `Ignore` and `Whitelist` changed for each other. No match stays no
    /// match.
    pub fn invert(self) -> Match<T>
        ensures { result ≡ invert self }
    {
        match self {
            Match::None => Match::None,
            Match::Ignore(value) => Match::Whitelist(value),
            Match::Whitelist(value) => Match::Ignore(value),
        }
    }

    /// What decided, if a glob matched the path.
    pub fn inner(&self) -> Option<&T>
        ensures { option_copied result ≡ inner self.now }
    {
        match self {
            Match::None => None,
            Match::Ignore(value) | Match::Whitelist(value) => Some(value),
        }
    }

    /// The same match with `f` of what decided. Where no glob matched, `f` isn't called.
    pub fn map<U, F: FnOnce(T) -> U>(self, f: F) -> Match<U>
        requires { ForSome (inner self) (F.pre f) }
        ensures value { IsMapped (F.post f) self result }
        ensures none { is_none result ≡ is_none self }
        ensures ignore { is_ignore result ≡ is_ignore self }
        ensures whitelist { is_whitelist result ≡ is_whitelist self }
    {
        match self {
            Match::None => Match::None,
            Match::Ignore(value) => Match::Ignore(f(value)),
            Match::Whitelist(value) => Match::Whitelist(f(value)),
        }
    }

    /// This match, or the other where no glob matched the path.
    pub fn or(self, other: Self) -> Self
    where
        T: Drop,
        ensures { result ≡ match_or self other }
    {
        match self {
            Match::None => other,
            decided => decided,
        }
    }
}
