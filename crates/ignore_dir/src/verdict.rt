//! The verdict on a path.
ghost use Rattle.std.specs.Prelude.{◌≡◌};
ghost use Rattle.ignore_dir.specs.Verdict.{is_ignore};

/// What becomes of a path.
#[derive(Clone, Copy, Debug, PartialEq, Eq)]
pub enum Verdict {
    /// Nothing decides.
    None,
    /// It is ignored.
    Ignore,
    /// It is whitelisted.
    Whitelist,
}

impl Verdict {
    /// Whether the path is ignored.
    pub fn is_ignore(self) -> bool
        ensures { result ≡ is_ignore self }
    {
        match self {
            Verdict::None => false,
            Verdict::Ignore => true,
            Verdict::Whitelist => false,
        }
    }
}
