//! Whether two lists of rules say the same.
ghost use Rattle.std.specs.Prelude.{◌≡◌, IfOk, MatchOption, string_bytes};
ghost use Rattle.std.specs.Str.{chars};
ghost use Rattle.ignore_every.specs.Compared.{IsOverBoth};
ghost use Rattle.ignore_every.specs.Differences.{AreDifferences};
ghost use Rattle.ignore_every.specs.Verdicts.{AreDifferentAt, AreFirstDifferentAt, IsComparison, SaySame};

use crate::agree::is_alike;
use crate::alphabet::alphabet_of;
use crate::asked::asked_path;
use crate::error::Error;
use crate::findings::Question;
use crate::grow::nodes_of;
use crate::nodes::root_rows;
use crate::places::{Search, Side};
use crate::room::Room;
use crate::said::{Comparison, Counted, Difference, Wanted};
use crate::sayings::said_of;
use crate::trail::{Trail, trail_of};
use ignore_rules::gitignore::Gitignore;
use std::alloc::Global;

/// Two lists, with a search over what either of them reaches.
#[derive(Drop)]
pub struct Lists<'a> {
    /// Where strings are allocated.
    pub alloc: Global,
    /// The old list.
    pub old: &'a Gitignore,
    /// The new list.
    pub new: &'a Gitignore,
    /// Which verdicts count as the same.
    pub counted: Counted,
    /// What the search goes over.
    pub search: Search<'a>,
    /// What the search found.
    pub trail: Trail,
}

impl<'a> Lists<'a> {
    /// The question of these characters, where the lists differ at it.
    pub(crate) fn difference(&self, text: &[char], is_dir: bool) -> Result<Difference, Error>
        ensures is { IfOk result (λ d. AreDifferentAt self.now.counted self.now.old.now.rules self.now.new.now.rules d) }
        ensures same { IfOk result (λ d. chars (string_bytes d.question.path) ≡ text.now) }
    {
        let asked = asked_path(self.alloc, self.old, false, text)?;
        let Some(path) = asked else {
            return Err(Error::Rejected);
        };
        let old = said_of(self.alloc, self.old, text, is_dir)?;
        let new = said_of(self.alloc, self.new, text, is_dir)?;
        if is_alike(self.counted, old.verdict(), new.verdict()) {
            return Err(Error::Rejected);
        }
        Ok(Difference {
            question: Question { path, is_dir },
            old,
            new,
        })
    }

    /// The question of these characters, where it is one of the shortest at which the lists differ.
    fn first_difference(&self, text: &[char], is_dir: bool) -> Result<Difference, Error>
        requires { IsOverBoth self.now }
        ensures { IfOk result (λ d. AreFirstDifferentAt self.now.counted self.now.old.now.rules self.now.new.now.rules d) }
    {
        let difference = self.difference(text, is_dir)?;
        let places = self.trail.places.as_slice();
        if !self
            .search
            .agrees_before(self.counted, places, Some(text.len()))
        {
            return Err(Error::Rejected);
        }
        Ok(difference)
    }

    /// The first place of a name at which the lists differ, and for which kind of entry.
    fn first_apart(&self) -> Option<(usize, bool)> {
        for (number, place) in self.trail.places.iter().enumerate() {
            if !place.name.is_named() {
                continue;
            }
            if !self.search.agrees(self.counted, place, false) {
                return Some((number, false));
            }
            if !self.search.agrees(self.counted, place, true) {
                return Some((number, true));
            }
        }
        None
    }

    /// A shortest question at which the lists differ, if they do.
    pub(crate) fn first(&self) -> Result<Option<Difference>, Error>
        requires { IsOverBoth self.now }
        ensures { IfOk result (λ found. MatchOption found (SaySame self.now.counted self.now.old.now.rules self.now.new.now.rules)
            (λ d. AreFirstDifferentAt self.now.counted self.now.old.now.rules self.now.new.now.rules d)) }
    {
        let Some((place, is_dir)) = self.first_apart() else {
            let places = self.trail.places.as_slice();
            if !self.search.agrees_before(self.counted, places, None) {
                return Err(Error::Rejected);
            }
            return Ok(None);
        };
        let text = self.trail.text_to(self.alloc, place)?;
        let difference = self.first_difference(&text, is_dir)?;
        Ok(Some(difference))
    }
}

/// Questions at which two lists differ, the first of them a shortest one: at most as many as are
/// wanted, and no two by the same pair of rules. There are none where the lists say the same, or
/// where none is wanted. What the lists say, `limit` and the errors are those of `compare`.
///
/// # Errors
/// Those of `compare`.
pub fn differences(
    alloc: Global,
    old: &Gitignore,
    new: &Gitignore,
    wanted: Wanted,
    limit: usize,
) -> Result<Vec<Difference>, Error>
    ensures { IfOk result (λ found. AreDifferences wanted old.now.rules new.now.rules found.items) }
{
    let mut room = Room::new(limit);
    let alphabet = alphabet_of(alloc, old.rules(), new.rules())?;
    let old_nodes = nodes_of(alloc, old.rules(), &alphabet.letters, &mut room)?;
    let new_nodes = nodes_of(alloc, new.rules(), &alphabet.letters, &mut room)?;
    let Some(old_rows) = root_rows(old.rules(), &alphabet.letters, &old_nodes)? else {
        return Err(Error::Rejected);
    };
    let Some(new_rows) = root_rows(new.rules(), &alphabet.letters, &new_nodes)? else {
        return Err(Error::Rejected);
    };
    let search = Search {
        reached: true,
        both: true,
        left: Side {
            rules: old.rules(),
            rows: old_rows,
        },
        right: Side {
            rules: new.rules(),
            rows: new_rows,
        },
        letters: &alphabet.letters,
    };
    let trail = trail_of(alloc, &search, &mut room)?;
    let lists = Lists {
        alloc,
        old,
        new,
        counted: wanted.counted,
        search,
        trail,
    };
    lists.found(wanted.most)
}

/// Whether two lists say the same of every question: of every clean relative path and both kinds,
/// asked of each at its root. What a list says is the verdict of its last rule that applies, where it
/// ignores no folder on the way, and else that the entry is ignored. `Differ` has a shortest question
/// at which they differ. At most `limit` states are found, of tables and of the search together.
///
/// # Errors
/// `Error::TooLarge` where the tables or the search need more states; `Error::Memory`; and
/// `Error::Rejected`, which is never a guess, where what was found isn't accepted by its check.
pub fn compare(
    alloc: Global,
    old: &Gitignore,
    new: &Gitignore,
    counted: Counted,
    limit: usize,
) -> Result<Comparison, Error>
    ensures { IfOk result (λ comparison. IsComparison counted old.now.rules new.now.rules comparison) }
{
    let wanted = Wanted { counted, most: 1 };
    let mut found = differences(alloc, old, new, wanted, limit)?;
    match found.pop() {
        Some(difference) => Ok(Comparison::Differ(difference)),
        None => Ok(Comparison::Same),
    }
}
