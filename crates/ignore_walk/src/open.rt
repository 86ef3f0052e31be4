//! A directory that is entered: its load and its listing.
ghost use Rattle.std.specs.Prelude.{◌≡◌, ℕ, Bool, List, Option, IfOk, IsPermutation, option_map};
ghost use Rattle.std.specs.Result.{result_err};
ghost use Rattle.ignore_base.specs.Problem.{problem_of};
ghost use Rattle.ignore_base.specs.Text.{Path};
ghost use Rattle.ignore_files.specs.Gives.{IsHonest};
ghost use Rattle.ignore_files.specs.Shown.{Shows};
ghost use Rattle.ignore_files.specs.Tree.{Tree};
ghost use Rattle.ignore_dir.specs.Ground.{InLoads, InTree};
ghost use Rattle.ignore_dir.specs.Soft.{IsSoft};
ghost use Rattle.ignore_walk.specs.Answered.{as_answer};
ghost use Rattle.ignore_walk.specs.Paces.{IsListed};
ghost use Rattle.ignore_walk.specs.Suits.{IsOrderBy};
ghost use Rattle.ignore_walk.specs.Walked.{IsArranged, listing_of};

use crate::arrange::arranged;
use crate::callbacks::{Callbacks, Order};
use crate::child::all_named;
use ignore_base::{Error, Fault};
use ignore_dir::laws::one_load;
use ignore_dir::load::load_shown;
use ignore_dir::{Dir, Ground};
use ignore_files::internal::{Shown, answered};
use ignore_files::{Files, Listed, Listing, Name};
use std::alloc::{AllocError, Global};
use std::collections::VecDeque;

/// A directory that was loaded and listed.
#[derive(Drop)]
pub(crate) struct Directory {
    /// Its path.
    pub(crate) path: Name,
    /// Its path as the directories around it see it, with a final slash.
    pub(crate) text: Name,
    /// What it holds for the rules.
    pub(crate) dir: Dir,
    /// What it lists, in the order of the walk.
    pub(crate) rest: VecDeque<Listed>,
}

/// A directory that was loaded and listed, the error of its load, and the fault of its listing.
#[derive(Drop)]
pub(crate) struct Opened {
    pub(crate) directory: Directory,
    pub(crate) error: Option<Error>,
    pub(crate) fault: Option<Fault>,
}

/// What a directory holds for the rules, and what is wrong with its files.
pub(crate) fn loaded<F: Files>(
    ground: &Ground<'_, F>,
    path: &str,
) -> Result<(Dir, Option<Error>), AllocError>
    ensures dir { InLoads F.Files ground.now (λ tree loads. IfOk result (λ r. r.0 ≡ (loads path.now).0)) }
    ensures problem { InLoads F.Files ground.now (λ tree loads. IfOk result (λ r. option_map problem_of r.1 ≡ (loads path.now).1)) }
    ensures soft { IfOk result (λ r. IsSoft (option_map problem_of r.1)) }
{
    loaded_by(ground, path, &Shown::nothing())
}

/// The same of a directory whose listing may have shown its names.
fn loaded_by<F: Files>(
    ground: &Ground<'_, F>,
    path: &str,
    shown: &Shown<'_>,
) -> Result<(Dir, Option<Error>), AllocError>
    ensures dir { InLoads F.Files ground.now (λ tree loads. Shows tree path.now shown.now → IfOk result (λ r. r.0 ≡ (loads path.now).0)) }
    ensures problem { InLoads F.Files ground.now (λ tree loads. Shows tree path.now shown.now
        → IfOk result (λ r. option_map problem_of r.1 ≡ (loads path.now).1)) }
    ensures soft { IfOk result (λ r. IsSoft (option_map problem_of r.1)) }
{
    one_load();
    load_shown(ground, path, shown)
}

/// What the directory at a path lists, or the fault in place of that.
pub fn answer_of<F: Files>(
    alloc: Global,
    files: &F,
    path: &str,
) -> Result<Result<Listing, Fault>, AllocError>
    ensures value { (tree : Tree) → IsHonest F.Files files.now tree → IfOk result (λ answer. tree.list path.now ≡ answer) }
    ensures answered { IfOk result (λ answer. F.list_gives files.now path.now (as_answer answer)) }
{
    answered(files.list(alloc, path))
}

/// What an answer of these files shows of the names in a directory.
fn shown_by<'l, F: Files>(ground: &Ground<'_, F>, answer: &'l Result<Listing, Fault>) -> Shown<'l>
    ensures { InTree F.Files ground.now (λ tree. (dir : Path) → tree.list dir ≡ answer.now → Shows tree dir result) }
{
    match answer {
        Ok(listing) => Shown::by(ground.files, listing.as_slice()),
        Err(_) => Shown::nothing(),
    }
}

/// What was listed, each name that is none as a fault; and the fault of the listing.
fn listing_of(
    alloc: Global,
    answer: Result<Listing, Fault>,
) -> Result<(Vec<Listed>, Option<Fault>), AllocError>
    ensures listing { IfOk result (λ r. r.0.items ≡ listing_of answer) }
    ensures fault { IfOk result (λ r. r.1 ≡ result_err answer) }
{
    match answer {
        Ok(listing) => Ok((all_named(alloc, listing.into_vec())?, None)),
        Err(fault) => Ok((Vec::new(alloc), Some(fault))),
    }
}

/// What was listed at a path, in the order of the walk; and the fault of the listing.
fn listed<S: Callbacks>(
    alloc: Global,
    owner: &S,
    order: Order,
    path: &str,
    answer: Result<Listing, Fault>,
) -> Result<(VecDeque<Listed>, Option<Fault>), AllocError>
    ensures rest { (chosen : Option (List ℕ → List ℕ → List ℕ → Bool)) → IsOrderBy order (S.compares owner.now) chosen
        → IfOk result (λ r. IsArranged chosen path.now (listing_of answer) r.0.items) }
    ensures permuted { IfOk result (λ r. IsPermutation (listing_of answer) r.0.items) }
    ensures fault { IfOk result (λ r. r.1 ≡ result_err answer) }
{
    let (listing, fault) = listing_of(alloc, answer)?;
    let listing = arranged(alloc, owner, order, path, listing)?;
    Ok((VecDeque::from_vec(listing), fault))
}

/// Lists and loads a directory: what its listing lacks isn't asked for. `text` is its path as the
/// directories around it see it.
pub(crate) fn open<F: Files, S: Callbacks>(
    ground: &Ground<'_, F>,
    owner: &S,
    order: Order,
    path: Name,
    text: Name,
) -> Result<Opened, AllocError>
    ensures path { IfOk result (λ o. o.directory.path ≡ path) }
    ensures text { IfOk result (λ o. o.directory.text ≡ text) }
    ensures dir { InLoads F.Files ground.now (λ tree loads. IfOk result (λ o. o.directory.dir ≡ (loads path).0)) }
    ensures problem { InLoads F.Files ground.now (λ tree loads. IfOk result (λ o. option_map problem_of o.error ≡ (loads path).1)) }
    ensures soft { IfOk result (λ o. IsSoft (option_map problem_of o.error)) }
    ensures rest { InTree F.Files ground.now (λ tree. (chosen : Option (List ℕ → List ℕ → List ℕ → Bool))
        → IsOrderBy order (S.compares owner.now) chosen
        → IfOk result (λ o. IsArranged chosen path (listing_of (tree.list path)) o.directory.rest.items)) }
    ensures fault { InTree F.Files ground.now (λ tree. IfOk result (λ o. o.fault ≡ result_err (tree.list path))) }
    ensures listed { IfOk result (λ o. IsListed (F.list_gives ground.now.files.now) o.directory.path o.directory.rest.items) }
{
    let at = path.as_str();
    let answer = answer_of(ground.alloc, ground.files, at)?;
    let shown = shown_by(ground, &answer);
    let (dir, error) = loaded_by(ground, at, &shown)?;
    let (rest, fault) = listed(ground.alloc, owner, order, at, answer)?;
    let directory = Directory {
        path,
        text,
        dir,
        rest,
    };
    Ok(Opened {
        directory,
        error,
        fault,
    })
}
