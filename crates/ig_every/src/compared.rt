//! Two lists of rules, compared over all paths, and what they say of one.
ghost use Rattle.std.specs.Prelude.{◌≡◌, IfOk, string_bytes};
ghost use Rattle.std.specs.Option.{option_copied};
ghost use Rattle.ignore_every.specs.Differences.{AreDifferences};
ghost use Rattle.ig_every.specs.Compared.{rule_in, shown};

use ignore_every::{Difference, Error, Question, Said, Wanted, differences};
use ignore_rules::gitignore::{Gitignore, Glob};
use std::alloc::{AllocError, Global};

/// How many states may be needed to judge rules or to compare two lists, of all tables and of the
/// search together.
pub(crate) const MOST_STATES: usize = 1_000_000;

/// How many rules may be judged or compared: what is found of each names others, so that it takes time
/// for each pair.
const MOST_RULES: usize = 5_000;

/// How many bytes all of them may have.
const MOST_BYTES: usize = 1_000_000;

/// How many bytes each may have: no file system has longer paths, and each state takes room for each.
const LONGEST: usize = 4_096;

/// Whether rules are too many, or too long, to be judged or compared.
pub(crate) fn is_large(rules: &[Glob]) -> bool {
    let mut bytes = 0usize;
    for rule in rules {
        let length = rule.original().len();
        if length > LONGEST {
            return true;
        }
        bytes = bytes.saturating_add(length);
    }
    rules.len() > MOST_RULES || bytes > MOST_BYTES
}

/// Questions at which two lists of rules differ: as many as are wanted at most, the first a shortest
/// one, and no two by the same pair of rules. There are none where they say the same.
///
/// # Errors
/// `Error::TooLarge` where the rules of one are too many or too long, and where more than a million
/// states are needed; `Error::Rejected`, and `Error::Memory`.
pub fn compare_rules(
    alloc: Global,
    old: &Gitignore,
    new: &Gitignore,
    wanted: Wanted,
) -> Result<Vec<Difference>, Error>
    ensures { IfOk result (λ found. AreDifferences wanted old.now.rules new.now.rules found.items) }
{
    if is_large(old.rules()) || is_large(new.rules()) {
        return Err(Error::TooLarge);
    }
    differences(alloc, old, new, wanted, MOST_STATES)
}

/// The rule by which a list says what it says, if one decides.
pub fn rule_in<'g>(rules: &'g Gitignore, said: &Said) -> Option<&'g Glob>
    ensures { option_copied result ≡ rule_in rules.now.rules said.now }
{
    rules.rules().get(said.rule()?)
}

/// The path of a question as it is written: that of a directory with a slash after it.
pub fn shown(alloc: Global, question: &Question) -> Result<String, AllocError>
    ensures { IfOk result (λ text. string_bytes text ≡ shown question.now) }
{
    let mut text = String::from_str(alloc, question.path.as_str())?;
    if question.is_dir {
        text.push('/')?;
    }
    Ok(text)
}
