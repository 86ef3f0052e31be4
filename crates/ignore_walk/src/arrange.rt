//! The order of what a directory lists.
ghost use Rattle.std.specs.Prelude.{◌≡◌, IfOk, OnOk, List, Option, ℕ, Bool, map, IsPermutation, IsSortedBy};
ghost use Rattle.std.specs.Cmp.{IsStrictWeakOrder};
ghost use Rattle.std.specs.List.Sorted.{IsStableBy};
ghost use Rattle.std.specs.Ordering.{is_lt};
ghost use Rattle.std.specs.declared.cmp.Ordering.{Ordering};
ghost use Rattle.ignore_base.specs.Text.{Path};
ghost use Rattle.ignore_walk.specs.Keyed.{key_of, path_in, comes_first};
ghost use Rattle.ignore_walk.specs.Suits.{order_by, IsOrderBy};
ghost use Rattle.ignore_walk.specs.Walked.{comes_before, IsArranged};
ghost use Rattle.ignore_walk.specs.declared.callbacks.Order.TheVariants.{ByName, ByPath};

use crate::callbacks::{Callbacks, Order};
use ignore_base::internal::join;
use ignore_files::{Listed, Name};
use std::alloc::{AllocError, Global};
use std::cmp::Ordering;

/// How two listed things compare: faults come first, and entries compare as their names do.
fn compare<S: Callbacks>(owner: &S, a: &Listed, b: &Listed) -> Ordering
    ensures { (cmp : Path → Path → Ordering) → S.compares owner.now cmp
        → is_lt result ≡ comes_before (λ x y. is_lt (cmp x y)) a.now b.now }
{
    match a {
        Listed::Fault(_) => match b {
            Listed::Fault(_) => Ordering::Equal,
            Listed::Entry { .. } => Ordering::Less,
        },
        Listed::Entry { name, .. } => match b {
            Listed::Fault(_) => Ordering::Greater,
            Listed::Entry { name: other, .. } => owner.compare(name.as_str(), other.as_str()),
        },
    }
}

/// Sorts a listing by name. What ties stays as it was listed.
fn sort_by_name<S: Callbacks>(owner: &S, listing: &mut Vec<Listed>) -> Result<(), AllocError>
    ensures arranged { (cmp : Path → Path → Ordering) (dir : List ℕ) → S.compares owner.now cmp → IsStrictWeakOrder (λ a b. is_lt (cmp a b))
        → OnOk result (IsArranged (order_by ByName cmp) dir listing.old.items listing.new.items) }
    ensures permuted { OnOk result (IsPermutation listing.old.items listing.new.items) }
{
    listing.sort_by(
        |a: &Listed, b: &Listed| -> Ordering
            ensures { (cmp : Path → Path → Ordering) → S.compares owner.entry.now cmp
                → is_lt result ≡ comes_before (λ x y. is_lt (cmp x y)) a.now b.now }
        { compare(owner, a, b) },
    )
}

/// A listed thing, with its path.
#[derive(Drop)]
struct PathListed {
    path: Name,
    listed: Listed,
}

/// The path of a listed thing; a fault has none.
fn path_of(alloc: Global, dir: &str, listed: &Listed) -> Result<Name, AllocError>
    ensures value { IfOk result (λ path. path ≡ path_in dir.now listed.now) }
{
    match listed {
        Listed::Fault(_) => Ok(Name::new(String::new(alloc))),
        Listed::Entry { name, .. } => Ok(Name::new(join(alloc, dir, name.as_str())?)),
    }
}

/// The things of a listing, each with its path.
fn keyed(alloc: Global, dir: &str, listing: Vec<Listed>) -> Result<Vec<PathListed>, AllocError>
    ensures value { IfOk result (λ all. all.items ≡ map (key_of dir.now) listing.items) }
{
    let mut all = Vec::with_capacity(alloc, listing.len())?;
    for listed in listing {
        let path = path_of(alloc, dir, &listed)?;
        all.push(PathListed { path, listed })?;
    }
    Ok(all)
}

/// How two of them compare: faults come first, and entries compare as their paths do.
fn compare_keyed<S: Callbacks>(owner: &S, a: &PathListed, b: &PathListed) -> Ordering
    ensures { (cmp : Path → Path → Ordering) → S.compares owner.now cmp → is_lt result ≡ comes_first cmp a.now b.now }
{
    match a.listed {
        Listed::Fault(_) => match b.listed {
            Listed::Fault(_) => Ordering::Equal,
            Listed::Entry { .. } => Ordering::Less,
        },
        Listed::Entry { .. } => match b.listed {
            Listed::Fault(_) => Ordering::Greater,
            Listed::Entry { .. } => owner.compare(a.path.as_str(), b.path.as_str()),
        },
    }
}

/// Sorts listed things by their paths. What ties stays as it was listed.
fn sort_by_path<S: Callbacks>(owner: &S, all: &mut Vec<PathListed>) -> Result<(), AllocError>
    ensures sorted { (cmp : Path → Path → Ordering) → S.compares owner.now cmp → IsStrictWeakOrder (λ a b. is_lt (cmp a b))
        → OnOk result (IsPermutation all.old.items all.new.items × IsSortedBy (comes_first cmp) all.new.items
        × IsStableBy (comes_first cmp) all.old.items all.new.items) }
    ensures permuted { OnOk result (IsPermutation all.old.items all.new.items) }
{
    all.sort_by(
        |a: &PathListed, b: &PathListed| -> Ordering
            ensures { (cmp : Path → Path → Ordering) → S.compares owner.entry.now cmp → is_lt result ≡ comes_first cmp a.now b.now }
        { compare_keyed(owner, a, b) },
    )
}

/// The things alone.
fn unkeyed(alloc: Global, all: Vec<PathListed>) -> Result<Vec<Listed>, AllocError>
    ensures { IfOk result (λ listing. listing.items ≡ map (λ p. p.listed) all.items) }
{
    let mut listing = Vec::with_capacity(alloc, all.len())?;
    for thing in all {
        listing.push(thing.listed)?;
    }
    Ok(listing)
}

/// A listing in the order of the paths. What ties stays as it was listed.
fn sorted_by_path<S: Callbacks>(
    alloc: Global,
    owner: &S,
    dir: &str,
    listing: Vec<Listed>,
) -> Result<Vec<Listed>, AllocError>
    ensures arranged { (cmp : Path → Path → Ordering) → S.compares owner.now cmp → IsStrictWeakOrder (λ a b. is_lt (cmp a b))
        → IfOk result (λ sorted. IsArranged (order_by ByPath cmp) dir.now listing.items sorted.items) }
    ensures permuted { IfOk result (λ sorted. IsPermutation listing.items sorted.items) }
{
    let mut all = keyed(alloc, dir, listing)?;
    sort_by_path(owner, &mut all)?;
    Ok(unkeyed(alloc, all)?)
}

/// A listing of a directory in the chosen order.
pub(crate) fn arranged<S: Callbacks>(
    alloc: Global,
    owner: &S,
    order: Order,
    dir: &str,
    mut listing: Vec<Listed>,
) -> Result<Vec<Listed>, AllocError>
    ensures arranged { (chosen : Option (List ℕ → List ℕ → List ℕ → Bool)) → IsOrderBy order (S.compares owner.now) chosen
        → IfOk result (λ sorted. IsArranged chosen dir.now listing.items sorted.items) }
    ensures permuted { IfOk result (λ sorted. IsPermutation listing.items sorted.items) }
{
    match order {
        Order::Listed => Ok(listing),
        Order::ByName => {
            sort_by_name(owner, &mut listing)?;
            Ok(listing)
        }
        Order::ByPath => sorted_by_path(alloc, owner, dir, listing),
    }
}
