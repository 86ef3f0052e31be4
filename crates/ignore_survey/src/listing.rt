//! What a directory lists, in the order of the names.
ghost use Rattle.std.specs.Cmp.Lexicographic.{slice_cmp};
ghost use Rattle.std.specs.Ordering.{is_lt, nat_cmp};
ghost use Rattle.std.specs.Prelude.{◌≡◌, IfOk, OnOk, map, string_bytes};
ghost use Rattle.ignore_base.specs.Problem.{problem_of, at_path, io};
ghost use Rattle.ignore_base.specs.Text.{Path};
ghost use Rattle.ignore_survey.specs.Survey.{by_name, place};
ghost use Rattle.ignore_walk.specs.Child.{named};
ghost use Rattle.ignore_walk.specs.Walked.{IsArranged, comes_before};

use ignore_base::internal::join;
use ignore_base::{Error, Fault};
use ignore_files::{Listed, Listing};
use ignore_walk::internal::all_named;
use std::alloc::{AllocError, Global};
use std::cmp::Ordering;
use std::collections::VecDeque;

/// How two listed things compare: faults come first, and entries compare as the bytes of their names.
fn compare(a: &Listed, b: &Listed) -> Ordering
    ensures { is_lt result ≡ comes_before (λ x y. is_lt (slice_cmp nat_cmp x y)) a.now b.now }
{
    match a {
        Listed::Fault(_) => match b {
            Listed::Fault(_) => Ordering::Equal,
            Listed::Entry { .. } => Ordering::Less,
        },
        Listed::Entry { name, .. } => match b {
            Listed::Fault(_) => Ordering::Greater,
            Listed::Entry { name: other, .. } => name.as_str().cmp(other.as_str()),
        },
    }
}

/// Sorts a listing by the names. What ties stays as it was listed.
fn sort(listing: &mut Vec<Listed>) -> Result<(), AllocError>
    ensures { (dir : Path) → OnOk result (IsArranged by_name dir listing.old.items listing.new.items) }
{
    listing.sort_by(
        |a: &Listed, b: &Listed| -> Ordering
            ensures { is_lt result ≡ comes_before (λ x y. is_lt (slice_cmp nat_cmp x y)) a.now b.now }
        { compare(a, b) },
    )
}

/// A listing in the order of the names, each name that is none as a fault.
pub(crate) fn in_order(alloc: Global, listing: Listing) -> Result<VecDeque<Listed>, AllocError>
    ensures { (dir : Path) → IfOk result (λ things. IsArranged by_name dir (map named listing) things.items) }
{
    let mut things = all_named(alloc, listing.into_vec())?;
    sort(&mut things)?;
    Ok(VecDeque::from_vec(things))
}

/// Where a directory is; the empty path is that of the root.
pub(crate) fn place(alloc: Global, root: &str, path: &str) -> Result<String, AllocError>
    ensures { IfOk result (λ text. string_bytes text ≡ place root.now path.now) }
{
    if path.is_empty() {
        return Ok(String::from_str(alloc, root)?);
    }
    join(alloc, root, path)
}

/// A fault of the listing of the directory at a path below the root.
pub(crate) fn unlisted(
    alloc: Global,
    root: &str,
    path: &str,
    fault: Fault,
) -> Result<Error, AllocError>
    ensures { IfOk result (λ e. problem_of e ≡ at_path (place root.now path.now) (io fault)) }
{
    let place = place(alloc, root, path)?;
    Error::Io(fault).with_path(alloc, place.as_str())
}
