//! What a survey has in hand: directories whose listings are half read, and one that is to be listed.
ghost use Rattle.std.specs.Prelude.{◌≡◌, ◌↔◌, [], Err, IfErr, IfOk, IfSome, List, MatchOption, None};
ghost use Rattle.ignore_base.specs.Problem.{problem_of};
ghost use Rattle.ignore_dir.specs.Scene.{QueryScene};
ghost use Rattle.ignore_files.specs.Gives.{IsHonest};
ghost use Rattle.ignore_survey.specs.Middle.{IsUnlisted};
ghost use Rattle.ignore_survey.specs.Stands.{Enters, Finds, Hands, Left, Stands, Takes, found_at, found_of};
ghost use Rattle.ignore_survey.specs.Survey.{Item as Yielded};

use crate::listing::{in_order, place, unlisted};
use ignore_base::Error;
use ignore_base::internal::join;
use ignore_files::{FileType, Files, Listed, Name};
use ignore_walk::internal::answer_of;
use std::alloc::{AllocError, Global};
use std::collections::VecDeque;

/// The path below the root and the kind of an entry that was listed, or an error in its place.
pub(crate) type Found = Result<(String, FileType), Error>;

/// A directory that was entered.
#[derive(Drop)]
pub struct Frame {
    /// Its path below the root.
    pub path: Name,
    /// What it lists and wasn't taken yet.
    pub rest: VecDeque<Listed>,
}

/// What changes in a survey.
#[derive(Drop)]
pub struct Stack {
    /// The path of the directory that is to be listed next.
    pub waiting: Option<Name>,
    /// The directories that were entered, the innermost first.
    pub frames: VecDeque<Frame>,
}

/// What is listed next, with its directory, which is taken from the frames. Directories of which
/// nothing is left are left.
fn take_listed(frames: &mut VecDeque<Frame>) -> Option<(Frame, Listed)>
    ensures { (g : QueryScene) (items : List Yielded) → Left g frames.old.items items
        ↔ MatchOption result (items ≡ []) (λ r. Takes g r.0 r.1 frames.new.items items) }
{
    while let Some(mut frame) = frames.pop_front() {
        if let Some(listed) = frame.rest.pop_front() {
            return Some((frame, listed));
        }
    }
    None
}

/// The directory at a path below the root, with what it lists; or the error in the place of that.
#[tactic(auto, using(crate::proofs::MiddleLemmas::is_unlisted))]
fn enter<F: Files>(
    alloc: Global,
    files: &F,
    root: &str,
    path: Name,
) -> Result<Result<Frame, Error>, AllocError>
    ensures enters { (g : QueryScene) → IsHonest F.Files files.now g.tree → g.root ≡ root.now → IfOk result (Enters g path) }
    ensures unlisted { IfOk result (λ r. IfErr r (λ e. IsUnlisted root.now (problem_of e))) }
{
    let place = place(alloc, root, path.as_str())?;
    match answer_of(alloc, files, place.as_str())? {
        Ok(listing) => {
            let rest = in_order(alloc, listing)?;
            Ok(Ok(Frame { path, rest }))
        }
        Err(fault) => Ok(Err(unlisted(alloc, root, path.as_str(), fault)?)),
    }
}

impl Stack {
    /// What is listed next, whose directory was listed already or is listed now.
    pub(crate) fn next<F: Files>(
        &mut self,
        alloc: Global,
        files: &F,
        root: &str,
    ) -> Result<Option<Found>, AllocError>
        ensures finds { (g : QueryScene) (items : List Yielded) → IsHonest F.Files files.now g.tree → g.root ≡ root.now
            → IfOk result (λ r. Stands g self.old items ↔ MatchOption r (items ≡ []) (λ found. Finds g self.new (found_of found) items)) }
        ensures unlisted { IfOk result (λ r. IfSome r (λ found. IfErr found (λ e. IsUnlisted root.now (problem_of e)))) }
    {
        if let Some(error) = self.open(alloc, files, root)? {
            return Ok(Some(Err(error)));
        }
        self.take(alloc, root)
    }

    /// Lists the directory that is to be listed next, if there is one. The result is the error in the
    /// place of what it lists, if it can't be listed.
    fn open<F: Files>(
        &mut self,
        alloc: Global,
        files: &F,
        root: &str,
    ) -> Result<Option<Error>, AllocError>
        ensures opens { (g : QueryScene) (items : List Yielded) → IsHonest F.Files files.now g.tree → g.root ≡ root.now
            → IfOk result (λ r. Stands g self.old items ↔ MatchOption r (Left g self.new.frames.items items)
            (λ e. Hands g self.new (Err (problem_of e)) items)) }
        ensures none_waits { IfOk result (λ _. self.new.waiting ≡ None) }
        ensures unlisted { IfOk result (λ r. IfSome r (λ e. IsUnlisted root.now (problem_of e))) }
    {
        let Some(path) = self.waiting.take() else {
            return Ok(None);
        };
        match enter(alloc, files, root, path)? {
            Ok(entered) => {
                self.frames.push_front(entered)?;
                Ok(None)
            }
            Err(error) => Ok(Some(error)),
        }
    }

    /// What is listed next in the directories that were entered.
    fn take(&mut self, alloc: Global, root: &str) -> Result<Option<Found>, AllocError>
        ensures finds { (g : QueryScene) (items : List Yielded) → g.root ≡ root.now → self.old.waiting ≡ None
            → IfOk result (λ r. Left g self.old.frames.items items
            ↔ MatchOption r (items ≡ []) (λ found. Finds g self.new (found_of found) items)) }
        ensures unlisted { IfOk result (λ r. IfSome r (λ found. IfErr found (λ e. IsUnlisted root.now (problem_of e)))) }
    {
        let Some((frame, listed)) = take_listed(&mut self.frames) else {
            return Ok(None);
        };
        let found = found_at(alloc, root, frame.path.as_str(), listed)?;
        self.frames.push_front(frame)?;
        Ok(Some(found))
    }
}

/// What a thing is that the directory at a path lists.
fn found_at(alloc: Global, root: &str, dir: &str, listed: Listed) -> Result<Found, AllocError>
    ensures { IfOk result (λ found. found_of found ≡ found_at root.now dir.now listed) }
{
    match listed {
        Listed::Entry { name, file_type } => {
            Ok(Ok((join(alloc, dir, name.as_str())?, file_type)))
        }
        Listed::Fault(fault) => Ok(Err(unlisted(alloc, root, dir, fault)?)),
    }
}
