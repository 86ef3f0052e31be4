//! A survey, as an iterator.
ghost use Rattle.std.specs.Prelude.{◌≡◌, ◌<◌, ◌↔◌, List, [], ℕ, suc, true, false, None, Some, Ok, Err, IfErr, IfOk, IfSome, MatchOption, option_map, string_bytes, if◌then◌else◌};
ghost use Rattle.ignore_base.specs.declared.fault.Fault.TheVariants.{StepLimit};
ghost use Rattle.ignore_base.specs.Problem.{problem_of, io, memory};
ghost use Rattle.ignore_dir.specs.Scene.{QueryScene};
ghost use Rattle.ignore_dir.specs.Soft.{IsSoft};
ghost use Rattle.ignore_query.specs.declared.kept.Cache.{Cache};
ghost use Rattle.ignore_survey.specs.Middle.{GoesOn, IsUnlisted};
ghost use Rattle.ignore_survey.specs.Nexts.{IsLast, Nexts, Remaining, Shows, Starts, items_at_most};
ghost use Rattle.ignore_survey.specs.Stands.{Finds, Hands, Stands, found_of};
ghost use Rattle.ignore_survey.specs.Suits.{Grows, LeavesKept, LeavesNext, Reports, ReportsNext, Suits};
ghost use Rattle.ignore_survey.specs.Survey.{IsSurvey, Item as Yielded, is_open};
ghost use Rattle.ignore_survey.specs.Surveyed.{item_of};

use crate::stack::{Found, Stack};
use crate::surveyed::{Item, Surveyed, explained};
use ignore_base::{Error, Fault};
use ignore_files::{FileType, Files, Name};
use ignore_query::IncrementalIgnore;
use std::alloc::{AllocError, Global};
use std::collections::VecDeque;
use std::iter::FusedIterator;

/// A survey of the root of a matcher: an iterator of all entries in directories that aren't ignored,
/// each with the answer of the matcher and its reason.
///
/// A directory comes before what is in it, and what it lists comes in the order of the bytes of the
/// names. Links are not followed. What can't be listed is an error in its place. Nothing is listed
/// of an ignored directory, nor of one at the greatest depth, nor of the root `-`.
///
/// `Error::Memory`, and `Io(StepLimit)` where more items remain than it may yield, are the last item
/// where they come. After the last item there is none, however often one is asked for.
#[derive(Drop)]
pub struct Survey<'a, F: Files> {
    alloc: Global,
    files: &'a F,
    matcher: IncrementalIgnore,
    stack: Stack,
    left: u64,
    ended: bool,
}

/// What is to be listed next: a directory, where the survey goes on below it.
fn next_dir(alloc: Global, goes_on: bool, path: &str) -> Result<Option<Name>, AllocError>
    ensures { IfOk result (λ dir. dir ≡ (if goes_on then Some path.now else None)) }
{
    if !goes_on {
        return Ok(None);
    }
    Ok(Some(Name::from_str(alloc, path)?))
}

/// What is to be listed next after an entry: its path, where the survey goes on below it.
fn next_after(alloc: Global, entry: &Surveyed) -> Result<Option<Name>, AllocError>
    ensures { IfOk result (λ dir. dir ≡ (if entry.now.explanation.answer.descends then Some (string_bytes entry.now.path) else None)) }
{
    let goes_on = entry.explanation.answer.should_descend();
    Ok(next_dir(alloc, goes_on, entry.path.as_str())?)
}

/// Whether the root is surveyed.
#[tactic(auto, using(crate::proofs::SuitLemmas::grows_not))]
fn is_open<F: Files>(files: &F, matcher: &mut IncrementalIgnore) -> Result<bool, Error>
    ensures value { (g : QueryScene) → Suits F.Files files.now matcher.old g → IfOk result (λ goes_on. goes_on ≡ is_open g) }
    ensures kept { (g : QueryScene) → Suits F.Files files.now matcher.old g → matcher.new.cache ≡ matcher.old.cache }
    ensures suits { (g : QueryScene) → Suits F.Files files.now matcher.old g → Suits F.Files files.now matcher.new g }
    ensures grows { Grows F.Files files.now matcher.old matcher.new }
    ensures out_of_memory { IfErr result (λ e. problem_of e ≡ memory) }
{
    if matcher.root() == "-" {
        return Ok(false);
    }
    let answer = matcher.matched(files, "", true)?;
    Ok(answer.should_descend())
}

/// The error of a survey that may yield no item more.
fn step_limit() -> Error
    ensures { problem_of result ≡ io StepLimit }
{
    Error::Io(Fault::StepLimit)
}

impl<'a, F: Files> Survey<'a, F> {
    /// A survey of the root of a matcher over these files. The matcher keeps what it loads, as for
    /// its queries.
    ///
    /// # Errors
    /// `Error::Memory` alone.
    pub fn new(
        alloc: Global,
        files: &'a F,
        mut matcher: IncrementalIgnore,
    ) -> Result<Survey<'a, F>, Error>
        ensures whole { (g : QueryScene) (items : List Yielded) → Suits F.Files files.entry.now matcher g → IsSurvey g items
            → IfOk result (λ s. Remaining F.Files g s items) }
        ensures starts { (g : QueryScene) → Suits F.Files files.entry.now matcher g → IfOk result (λ s. Starts F.Files g s) }
        ensures suits { (g : QueryScene) → Suits F.Files files.entry.now matcher g → IfOk result (λ s. Suits F.Files s.files.now s.matcher g) }
        ensures kept { (g : QueryScene) → Suits F.Files files.entry.now matcher g → IfOk result (λ s. s.matcher.cache ≡ matcher.cache) }
        ensures files { IfOk result (λ s. s.files ≡ files.entry) }
        ensures grows { IfOk result (λ s. Grows F.Files files.entry.now matcher s.matcher) }
        ensures limit { IfOk result (λ s. s.left ≡ u64.MAX) }
        ensures goes_on { IfOk result (λ s. s.ended ≡ false) }
        ensures out_of_memory { IfErr result (λ e. problem_of e ≡ memory) }
    {
        let goes_on = is_open(files, &mut matcher)?;
        let waiting = next_dir(alloc, goes_on, "")?;
        let stack = Stack {
            waiting,
            frames: VecDeque::new(alloc),
        };
        Ok(Survey {
            alloc,
            files,
            matcher,
            stack,
            left: u64::MAX,
            ended: false,
        })
    }

    /// Lets it yield at most so many items more. Where more remain, `Io(StepLimit)` follows them.
    pub fn limit(&mut self, items: u64)
        ensures { self.new ≡ record self.old { left = items } }
    {
        self.left = items;
    }

    /// The matcher, with what it keeps.
    pub fn into_matcher(self) -> IncrementalIgnore
        ensures { result ≡ self.entry.matcher }
    {
        self.matcher
    }

    /// An entry with what becomes of it. Where the survey goes on below it, it is listed next.
    fn visit(&mut self, path: String, file_type: FileType) -> Result<Surveyed, Error>
        ensures hands { (g : QueryScene) (items : List Yielded) → Suits F.Files self.old.files.now self.old.matcher g
            → IfOk result (λ s. Finds g self.old.stack (Ok (string_bytes path, file_type)) items
            ↔ Hands g self.new.stack (item_of (Ok s)) items) }
        ensures reports { (g : QueryScene) → Suits F.Files self.old.files.now self.old.matcher g
            → IfOk result (λ s. Reports g self.old.matcher.cache (Ok s)) }
        ensures leaves { (g : QueryScene) → Suits F.Files self.old.files.now self.old.matcher g
            → IfOk result (λ s. LeavesKept g self.old.matcher.cache (Ok s) self.new.matcher.cache) }
        ensures suits { (g : QueryScene) → Suits F.Files self.old.files.now self.old.matcher g
            → Suits F.Files self.new.files.now self.new.matcher g }
        ensures files { self.new.files ≡ self.old.files }
        ensures grows { Grows F.Files self.old.files.now self.old.matcher self.new.matcher }
        ensures left { self.new.left ≡ self.old.left }
        ensures ended { self.new.ended ≡ self.old.ended }
        ensures soft { IfOk result (λ s. IsSoft (option_map problem_of s.error)) }
        ensures out_of_memory { IfErr result (λ e. problem_of e ≡ memory) }
    {
        let entry = explained(self.files, &mut self.matcher, path, file_type)?;
        self.stack.waiting = next_after(self.alloc, &entry)?;
        Ok(entry)
    }

    /// The item of what was listed.
    #[tactic(auto, using(crate::proofs::SuitLemmas::grows_not))]
    fn item(&mut self, found: Found) -> Result<Item, Error>
        ensures hands { (g : QueryScene) (items : List Yielded) → Suits F.Files self.old.files.now self.old.matcher g
            → IfOk result (λ item. Finds g self.old.stack (found_of found) items
            ↔ Hands g self.new.stack (item_of item) items) }
        ensures reports { (g : QueryScene) → Suits F.Files self.old.files.now self.old.matcher g
            → IfOk result (Reports g self.old.matcher.cache) }
        ensures leaves { (g : QueryScene) → Suits F.Files self.old.files.now self.old.matcher g
            → IfOk result (λ item. LeavesKept g self.old.matcher.cache item self.new.matcher.cache) }
        ensures suits { (g : QueryScene) → Suits F.Files self.old.files.now self.old.matcher g
            → Suits F.Files self.new.files.now self.new.matcher g }
        ensures files { self.new.files ≡ self.old.files }
        ensures grows { Grows F.Files self.old.files.now self.old.matcher self.new.matcher }
        ensures left { self.new.left ≡ self.old.left }
        ensures ended { self.new.ended ≡ self.old.ended }
        ensures goes_on { (root : List ℕ) → IfErr found (λ e. IsUnlisted root (problem_of e)) → IfOk result (GoesOn root) }
        ensures out_of_memory { IfErr result (λ e. problem_of e ≡ memory) }
    {
        match found {
            Err(error) => Ok(Err(error)),
            Ok((path, file_type)) => Ok(Ok(self.visit(path, file_type)?)),
        }
    }

    /// The next item, whatever the limit is.
    #[tactic(auto, using(crate::proofs::SuitLemmas::grows_not))]
    fn step(&mut self) -> Result<Option<Item>, Error>
        ensures given { (g : QueryScene) (items : List Yielded) → Suits F.Files self.old.files.now self.old.matcher g
            → IfOk result (λ next. Stands g self.old.stack items
            ↔ MatchOption next (items ≡ []) (λ item. Hands g self.new.stack (item_of item) items)) }
        ensures reports { (g : QueryScene) → Suits F.Files self.old.files.now self.old.matcher g
            → IfOk result (ReportsNext g self.old.matcher.cache) }
        ensures leaves { (g : QueryScene) → Suits F.Files self.old.files.now self.old.matcher g
            → IfOk result (λ next. LeavesNext g self.old.matcher.cache next self.new.ended self.new.matcher.cache) }
        ensures suits { (g : QueryScene) → Suits F.Files self.old.files.now self.old.matcher g
            → Suits F.Files self.new.files.now self.new.matcher g }
        ensures files { self.new.files ≡ self.old.files }
        ensures grows { Grows F.Files self.old.files.now self.old.matcher self.new.matcher }
        ensures left { self.new.left ≡ self.old.left }
        ensures ended { self.new.ended ≡ self.old.ended }
        ensures goes_on { IfOk result (λ next. IfSome next (GoesOn (string_bytes self.old.matcher.asked.root))) }
        ensures out_of_memory { IfErr result (λ e. problem_of e ≡ memory) }
    {
        let root = self.matcher.root();
        match self.stack.next(self.alloc, self.files, root)? {
            None => Ok(None),
            Some(found) => Ok(Some(self.item(found)?)),
        }
    }

    /// Ends the survey by an error.
    fn end(&mut self, error: Error) -> Option<Item>
        ensures item { option_map item_of result ≡ Some (Err (problem_of error)) }
        ensures reports { (g : QueryScene) (c : Cache) → ReportsNext g c result }
        ensures leaves { (g : QueryScene) (c d : Cache) → LeavesNext g c result true d }
        ensures files { self.new.files ≡ self.old.files }
        ensures matcher { self.new.matcher ≡ self.old.matcher }
        ensures left { self.new.left ≡ self.old.left }
        ensures ended { self.new.ended ≡ true }
    {
        self.ended = true;
        Some(Err(error))
    }

    /// The next item.
    #[tactic(auto, using(crate::proofs::SuitLemmas::grows_not))]
    fn advance(&mut self) -> Option<Item>
        ensures fewer { IfSome result (λ _. items_at_most self.new < items_at_most self.old) }
        ensures given { (g : QueryScene) (items : List Yielded) → Remaining F.Files g self.old items
            → Nexts F.Files g self.old (option_map item_of result) self.new items }
        ensures shows { (g : QueryScene) → Suits F.Files self.old.files.now self.old.matcher g → self.old.ended ≡ false
            → Shows g self.old.stack (option_map item_of result) self.new }
        ensures reports { (g : QueryScene) → Suits F.Files self.old.files.now self.old.matcher g
            → ReportsNext g self.old.matcher.cache result }
        ensures leaves { (g : QueryScene) → Suits F.Files self.old.files.now self.old.matcher g
            → LeavesNext g self.old.matcher.cache result self.new.ended self.new.matcher.cache }
        ensures suits { (g : QueryScene) → Suits F.Files self.old.files.now self.old.matcher g
            → Suits F.Files self.new.files.now self.new.matcher g }
        ensures same_files { self.new.files ≡ self.old.files }
        ensures grows { Grows F.Files self.old.files.now self.old.matcher self.new.matcher }
        ensures over { self.old.ended ≡ true → result ≡ None }
        ensures none { result ≡ None → self.new.ended ≡ true }
        ensures counted { self.old.left ≡ (if self.new.ended then self.new.left else suc self.new.left) }
        ensures goes_on { self.new.ended ≡ false → IfSome result (GoesOn (string_bytes self.old.matcher.asked.root)) }
        ensures last { self.old.ended ≡ false → self.new.ended ≡ true → IsLast (option_map item_of result) self.new.left }
    {
        if self.ended {
            return None;
        }
        match self.step() {
            Err(error) => self.end(error),
            Ok(None) => {
                self.ended = true;
                None
            }
            Ok(Some(item)) => {
                if self.left == 0 {
                    return self.end(step_limit());
                }
                self.left -= 1;
                Some(item)
            }
        }
    }
}

impl<'a, F: Files> Iterator for Survey<'a, F> {
    type Item = Item;

    ghost use Rattle.std.specs.Iterator.{at_most};
    ghost use Rattle.ignore_query.specs.declared.kept.Cache.{Cache};
    ghost use Rattle.ignore_survey.specs.Nexts.{NextGives, items_at_most};

    ghost next_gives = { λ a answer b. NextGives F.Files a answer b };

    ghost remaining = { λ a. at_most (items_at_most a) };

    fn next(&mut self) -> Option<Item> {
        self.advance()
    }
}

impl<'a, F: Files> FusedIterator for Survey<'a, F> {}
