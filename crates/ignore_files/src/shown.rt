//! What a listing shows of the names in a directory.
ghost use Rattle.std.specs.Prelude.{◌≡◌, map, bytes_eq};
ghost use Rattle.std.specs.Char.{is_ascii, to_ascii_lowercase};
ghost use Rattle.std.specs.List.{list_all};
ghost use Rattle.ignore_files.specs.Whole.{is_plain, differs, lacks};

use crate::files::Files;
use crate::types::Listed;
use ignore_base::text::{has_slash, is_proper};

/// What a listing of a directory shows of the names in it, or nothing.
/// For dependents.
#[derive(Clone, Copy)]
pub struct Shown<'a> {
    listing: Option<&'a [Listed]>,
}

impl<'a> Shown<'a> {
    ghost use Rattle.std.specs.Prelude.{◌≡◌, Ok, IsTrue};
    ghost use Rattle.ignore_base.specs.Text.{Path};
    ghost use Rattle.ignore_base.specs.Paths.{join_of};
    ghost use Rattle.ignore_files.specs.Gives.{IsHonest};
    ghost use Rattle.ignore_files.specs.Tree.{Tree};
    ghost use Rattle.ignore_files.specs.Shown.{Shows};
    ghost use Rattle.ignore_files.specs.Whole.{is_found, IsAbsent};

    /// Nothing is shown.
    pub fn nothing() -> Shown<'a>
        ensures { (tree : Tree) (dir : Path) → Shows tree dir result }
    {
        Shown { listing: None }
    }

    /// What this listing shows, which these files gave of a directory.
    pub fn by<F: Files>(files: &F, listing: &'a [Listed]) -> Shown<'a>
        ensures { (tree : Tree) (dir : Path) → IsHonest F.Files files.now tree → tree.list dir ≡ Ok listing.now
            → Shows tree dir result }
    {
        if files.listings_are_whole() {
            Shown {
                listing: Some(listing),
            }
        } else {
            Shown { listing: None }
        }
    }

    /// Whether nothing can be at this name in the directory.
    pub fn lacks(&self, name: &str) -> bool
        ensures absent { (tree : Tree) (dir : Path) → Shows tree dir self.now
            → IsTrue result → IsAbsent (is_found tree) (join_of dir name.now) }
    {
        match self.listing {
            Some(listing) => lacks(listing, name),
            None => false,
        }
    }
}

/// Whether a text is ASCII.
#[tactic(auto, using(crate::proofs::ShownLemmas::all_ascii, crate::proofs::ShownLemmas::some_not_ascii))]
fn is_ascii(text: &str) -> bool
    ensures { result ≡ list_all is_ascii text.now }
{
    text.is_ascii()
}

/// Whether it is a plain name: ASCII, without a slash, and not empty, `.` or `..`.
fn is_plain(name: &str) -> bool
    ensures { result ≡ is_plain name.now }
{
    is_proper(name) && !has_slash(name) && is_ascii(name)
}

/// Whether two names are alike, ASCII case not regarded.
#[tactic(auto, using(crate::proofs::ShownLemmas::tests_same))]
fn are_alike(one: &str, other: &str) -> bool
    ensures { result ≡ bytes_eq (map to_ascii_lowercase one.now) (map to_ascii_lowercase other.now) }
{
    one.eq_ignore_ascii_case(other)
}

/// Whether a listed thing is an entry with another name.
fn differs(name: &str, listed: &Listed) -> bool
    ensures { result ≡ differs name.now listed.now }
{
    match listed {
        Listed::Entry { name: other, .. } => !are_alike(other.as_str(), name),
        Listed::Fault(_) => false,
    }
}

/// Whether a listing lacks a plain name: whether each listed thing is an entry with another one.
fn lacks(listing: &[Listed], name: &str) -> bool
    ensures { result ≡ lacks listing.now name.now }
{
    is_plain(name) && listing.iter().all(|listed| differs(name, listed))
}
