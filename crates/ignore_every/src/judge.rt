//! What is found of each rule, over all paths.
ghost use Rattle.std.specs.Prelude.{◌≡◌, IfOk, IfSome, MatchOption, false, true, string_bytes};
ghost use Rattle.std.specs.Str.{chars};
ghost use Rattle.ignore_every.specs.Findings.{DecidesNever, IsShortest, IsRightFinding};
ghost use Rattle.ignore_every.specs.Sound.{IsSound, IsOver};

use crate::asked::asked_path;
use crate::decided::{decides, folder_on};
use crate::error::Error;
use crate::findings::{Example, Finding, Question};
use crate::misses::all_miss;
use crate::places::Search;
use crate::room::Room;
use crate::trail::{Trail, trail_of};
use ignore_rules::gitignore::Gitignore;
use std::alloc::{AllocError, Global};

/// Rules with a search over all paths, or over those that are reached.
#[derive(Drop)]
pub struct Judge<'a> {
    /// Where strings are allocated.
    pub alloc: Global,
    /// The rules.
    pub rules: &'a Gitignore,
    /// What the search goes over.
    pub search: Search<'a>,
    /// What the search found.
    pub trail: Trail,
}

impl<'a> Judge<'a> {
    /// The question of these characters, where it is one of the shortest on which a rule decides.
    fn checked(&self, index: usize, text: &[char], is_dir: bool) -> Result<Question, Error>
        requires { IsSound self.now }
        ensures shortest { IfOk result (λ question. IsShortest self.now.search.reached self.now.rules.now.rules index
            (chars (string_bytes question.path)) question.is_dir) }
        ensures same { IfOk result (λ question. chars (string_bytes question.path) ≡ text.now) }
    {
        let asked = asked_path(self.alloc, self.rules, self.search.reached, text)?;
        let Some(path) = asked else {
            return Err(Error::Rejected);
        };
        let is_decided = decides(self.rules.rules(), index, path.as_str(), is_dir)?;
        if !is_decided {
            return Err(Error::Rejected);
        }
        if !all_miss(
            &self.trail.places,
            self.search.left.rows,
            index,
            Some(text.len()),
        ) {
            return Err(Error::Rejected);
        }
        Ok(Question { path, is_dir })
    }

    /// A shortest question on which a rule decides, if there is any.
    fn shortest(&self, index: usize) -> Result<Option<Question>, Error>
        requires { IsSound self.now }
        ensures { IfOk result (λ found. MatchOption found (DecidesNever self.now.search.reached self.now.rules.now.rules index)
            (λ question. IsShortest self.now.search.reached self.now.rules.now.rules index (chars (string_bytes question.path))
            question.is_dir)) }
    {
        let Some((place, is_dir)) = self.trail.first_decided(self.search.left.rows, index) else {
            if !all_miss(&self.trail.places, self.search.left.rows, index, None) {
                return Err(Error::Rejected);
            }
            return Ok(None);
        };
        let text = self.trail.text_to(self.alloc, place)?;
        let question = self.checked(index, &text, is_dir)?;
        Ok(Some(question))
    }

    /// What is found of a rule that decides on this question, but on no reached one.
    fn example(&self, index: usize, question: Question) -> Result<Finding, Error>
        ensures { IfOk result (λ finding. DecidesNever true self.now.rules.now.rules index
            → IsShortest false self.now.rules.now.rules index (chars (string_bytes question.path)) question.is_dir
            → IsRightFinding self.now.rules.now.rules index finding) }
    {
        let text = characters(self.alloc, question.path.as_str())?;
        let found = folder_on(self.alloc, self.rules.rules(), &text)?;
        let Some(on) = found else {
            return Err(Error::Rejected);
        };
        Ok(Finding::DeadByFolders(Example {
            question,
            folder: on.0,
            rule: on.1,
        }))
    }

    /// What is found of a rule that decides on no reached question, by a search over all paths.
    fn dead(&self, index: usize) -> Result<Finding, Error>
        requires { IsOver false self.now.rules.now.rules self.now }
        ensures { IfOk result (λ finding. DecidesNever true self.now.rules.now.rules index
            → IsRightFinding self.now.rules.now.rules index finding) }
    {
        let found = self.shortest(index)?;
        match found {
            Some(question) => {
                let finding = self.example(index, question)?;
                Ok(finding)
            }
            None => {
                let named = self.reasons(index)?;
                Ok(Finding::Overruled(named))
            }
        }
    }

    /// The same search over all paths, unless it is too large.
    pub(crate) fn anywhere(&self, room: &mut Room) -> Result<Option<Judge<'a>>, Error>
        requires { IsSound self.now }
        ensures { IfOk result (λ found. IfSome found (λ judge. IsOver false self.now.rules.now.rules judge)) }
    {
        let search = Search {
            reached: false,
            both: self.search.both,
            left: self.search.left,
            right: self.search.right,
            letters: self.search.letters,
        };
        match trail_of(self.alloc, &search, room) {
            Ok(trail) => Ok(Some(Judge {
                alloc: self.alloc,
                rules: self.rules,
                search,
                trail,
            })),
            Err(Error::TooLarge) => Ok(None),
            Err(error) => Err(error),
        }
    }

    /// Whether each rule decides at some place.
    pub(crate) fn are_all_decided(&self) -> bool {
        for index in 0..self.rules.len() {
            if self
                .trail
                .first_decided(self.search.left.rows, index)
                .is_none()
            {
                return false;
            }
        }
        true
    }
}

/// The characters of a text.
fn characters(alloc: Global, text: &str) -> Result<Vec<char>, AllocError>
    ensures { IfOk result (λ all. all.items ≡ chars text.now) }
{
    text.chars().collect(alloc)
}

/// What is found of a rule that decides on no reached question.
fn finding_of_unreached(
    reached: &Judge<'_>,
    any: Option<&Judge<'_>>,
    index: usize,
) -> Result<Finding, Error>
    requires { IfSome any (λ other. IsOver false reached.now.rules.now.rules other.now) }
    ensures { IfOk result (λ finding. DecidesNever true reached.now.rules.now.rules index
        → IsRightFinding reached.now.rules.now.rules index finding) }
{
    match any {
        Some(judge) => {
            let finding = judge.dead(index)?;
            Ok(finding)
        }
        None => Ok(Finding::Unreached),
    }
}

/// What is found of a rule.
pub(crate) fn finding_of(
    reached: &Judge<'_>,
    any: Option<&Judge<'_>>,
    index: usize,
) -> Result<Finding, Error>
    requires reached { IsOver true reached.now.rules.now.rules reached.now }
    requires any { IfSome any (λ other. IsOver false reached.now.rules.now.rules other.now) }
    ensures { IfOk result (λ finding. IsRightFinding reached.now.rules.now.rules index finding) }
{
    let found = reached.shortest(index)?;
    match found {
        Some(question) => Ok(Finding::Live(question)),
        None => {
            let finding = finding_of_unreached(reached, any, index)?;
            Ok(finding)
        }
    }
}
