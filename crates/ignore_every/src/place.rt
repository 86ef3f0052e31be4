//! The places of a search, and how names begin.
ghost use Rattle.std.specs.Prelude.{◌≡◌};
ghost use Rattle.ignore_every.specs.Names.{name_after, is_named};

/// How the present name of a path begins, by which it is known whether a slash may follow.
#[derive(Debug, Clone, Copy, PartialEq, Eq, Hash, Drop)]
pub enum NameStart {
    /// It has no character yet.
    Empty,
    /// It is `.`.
    Dot,
    /// It is `..`.
    Dots,
    /// It is a name.
    Named,
}

impl NameStart {
    /// How it begins after a character more.
    pub(crate) fn after(self, c: char) -> NameStart
        ensures { result ≡ name_after self c }
    {
        if c == '/' {
            return NameStart::Empty;
        }
        if c != '.' {
            return NameStart::Named;
        }
        match self {
            NameStart::Empty => NameStart::Dot,
            NameStart::Dot => NameStart::Dots,
            NameStart::Dots => NameStart::Named,
            NameStart::Named => NameStart::Named,
        }
    }

    /// Whether it is a name.
    pub(crate) fn is_named(self) -> bool
        ensures { result ≡ is_named self }
    {
        match self {
            NameStart::Empty => false,
            NameStart::Dot => false,
            NameStart::Dots => false,
            NameStart::Named => true,
        }
    }
}

/// One place of a search: paths that all rules go on from alike.
#[derive(Debug, Clone, Copy, Drop)]
pub struct Place {
    /// The state of the table of the first list, unless it isn't asked below here.
    pub left: Option<usize>,
    /// The state of the table of the second list, unless it isn't asked below here.
    pub right: Option<usize>,
    /// How the present name begins.
    pub name: NameStart,
    /// At least so many characters lead here.
    pub depth: usize,
}
