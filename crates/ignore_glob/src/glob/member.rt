//! Which characters a literal and a class match.
ghost use Rattle.std.specs.Prelude.{IsTrue, ◌↔◌, ◌≡◌};
ghost use Rattle.std.specs.Arc.{arc_slice_items};
ghost use Rattle.ignore_glob.specs.Matches.{IsCaseOf, IsMember, other_case, in_ranges, is_listed};

use crate::glob::token::Class;

fn other_case(c: char) -> char
    ensures { result ≡ other_case c }
{
    if c.is_ascii_lowercase() {
        c.to_ascii_uppercase()
    } else {
        c.to_ascii_lowercase()
    }
}

/// Whether a literal matches the character.
pub fn is_case_of(fold: bool, c: char, d: char) -> bool
    ensures { IsTrue result ↔ IsCaseOf fold c d }
{
    if fold {
        d == c || d == other_case(c)
    } else {
        d == c
    }
}

fn is_in_ranges(ranges: &[(char, char)], c: char) -> bool
    ensures { result ≡ in_ranges ranges.now c }
{
    ranges.iter().any(|range| range.0 <= c && c <= range.1)
}

fn is_listed(fold: bool, ranges: &[(char, char)], c: char) -> bool
    ensures { result ≡ is_listed fold ranges.now c }
{
    if fold {
        is_in_ranges(ranges, c) || is_in_ranges(ranges, other_case(c))
    } else {
        is_in_ranges(ranges, c)
    }
}

/// Whether a class matches the character.
pub fn is_member(fold: bool, of: &Class, c: char) -> bool
    ensures { IsTrue result ↔ IsMember fold of.now.negated (arc_slice_items of.now.ranges) c }
{
    if of.negated {
        !is_listed(fold, &of.ranges, c)
    } else {
        is_listed(fold, &of.ranges, c)
    }
}
