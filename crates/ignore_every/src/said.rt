//! What a list of rules says of a question, and where two lists differ.

use crate::findings::Question;

/// What a list says of a question.
#[derive(Debug, Clone, Copy, PartialEq, Eq, Drop)]
pub enum Verdict {
    /// Nothing: the question is reached, and no rule decides.
    None,
    /// Ignored: by the rule that decides, or by a folder on the way.
    Ignore,
    /// Whitelisted by the rule that decides.
    Whitelist,
}

/// A folder that a list ignores.
#[derive(Debug, Drop)]
pub struct Folder {
    /// The folder: a part of a question's path that ends before a slash.
    pub path: String,
    /// The index of the rule that ignores it.
    pub rule: usize,
}

/// What a list says of a question, and by which rule.
#[derive(Debug, Drop)]
pub enum Said {
    /// The list ignores no folder on the way, and no rule decides.
    Nothing,
    /// The list ignores no folder on the way, and the rule with this index decides and ignores.
    Ignored(usize),
    /// The list ignores no folder on the way, and the rule with this index decides and whitelists.
    Whitelisted(usize),
    /// The list ignores this folder on the way, and so all that is in it.
    InFolder(Folder),
}

/// Which verdicts count as the same.
#[derive(Debug, Clone, Copy, PartialEq, Eq, Drop)]
pub enum Counted {
    /// Each for itself.
    Verdicts,
    /// None and whitelist as one: what counts is whether an entry is ignored.
    Ignored,
}

/// Which differences are wanted.
#[derive(Debug, Clone, Copy, Drop)]
pub struct Wanted {
    /// Which verdicts count as the same.
    pub counted: Counted,
    /// How many at most.
    pub most: usize,
}

/// A question at which two lists differ.
#[derive(Debug, Drop)]
pub struct Difference {
    /// The question.
    pub question: Question,
    /// What the old list says.
    pub old: Said,
    /// What the new list says.
    pub new: Said,
}

/// Whether two lists say the same.
#[derive(Debug, Drop)]
pub enum Comparison {
    /// They say the same of every question.
    Same,
    /// They differ at this question, and at none that is shorter.
    Differ(Difference),
}

impl Said {
    ghost use Rattle.std.specs.Prelude.{◌≡◌};
    ghost use Rattle.ignore_every.specs.Verdicts.{said_verdict, said_rule};

    /// The verdict alone.
    pub fn verdict(&self) -> Verdict
        ensures { result ≡ said_verdict self.now }
    {
        match self {
            Said::Nothing => Verdict::None,
            Said::Ignored(_) => Verdict::Ignore,
            Said::Whitelisted(_) => Verdict::Whitelist,
            Said::InFolder(_) => Verdict::Ignore,
        }
    }

    /// The index of the rule by which it is said, if any: the one that decides, or the one that
    /// ignores the folder.
    pub fn rule(&self) -> Option<usize>
        ensures { result ≡ said_rule self.now }
    {
        match self {
            Said::Nothing => None,
            Said::Ignored(rule) => Some(*rule),
            Said::Whitelisted(rule) => Some(*rule),
            Said::InFolder(folder) => Some(folder.rule),
        }
    }
}
