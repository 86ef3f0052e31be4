//! The limits on depth and size.
ghost use Rattle.std.specs.Prelude.{◌≡◌};
ghost use Rattle.ignore_dir.specs.Limits as limits;

use crate::settings::Settings;
use crate::verdict::Verdict;

/// Whether a depth is above the least one, if there is one.
/// For dependents.
pub fn is_above(least: Option<usize>, depth: usize) -> bool
    ensures { result ≡ limits.is_above least depth }
{
    match least {
        Some(least) => depth < least,
        None => false,
    }
}

/// Whether a depth is the greatest one, if there is one, or below it.
/// For dependents.
pub fn is_deepest(most: Option<usize>, depth: usize) -> bool
    ensures { result ≡ limits.is_deepest most depth }
{
    match most {
        Some(most) => most <= depth,
        None => false,
    }
}

/// Whether a depth is below the greatest one, if there is one.
fn is_below(most: Option<usize>, depth: usize) -> bool
    ensures { result ≡ limits.is_below most depth }
{
    match most {
        Some(most) => most < depth,
        None => false,
    }
}

/// Whether a path is beyond the limits on depth: a file above the least one, or anything below the
/// greatest.
/// For dependents.
pub fn is_beyond(settings: &Settings, depth: usize, is_dir: bool) -> bool
    ensures { result ≡ limits.is_beyond settings.now depth is_dir }
{
    (!is_dir && is_above(settings.min_depth, depth)) || is_below(settings.max_depth, depth)
}

/// The greatest size of a path with this verdict, if it has one: a directory has none, nor has what
/// is ignored anyway.
/// For dependents.
pub fn size_limit(settings: &Settings, is_dir: bool, verdict: Verdict) -> Option<u64>
    ensures { result ≡ limits.size_limit settings.now is_dir verdict }
{
    if is_dir || verdict.is_ignore() {
        None
    } else {
        settings.max_filesize
    }
}
