//! Sizes in bytes, as they are written on a command line.
ghost use Rattle.std.specs.Prelude.{◌<◌, ℕ, MatchOption};
ghost use Rattle.ig_options.specs.Sizes.{IsSize, IsTimes};

/// The size of a text: a whole number, and then nothing, or `K`, `M` or `G` for 2 to the power of
/// 10, 20 or 30. There is none for other texts, and none above the greatest number.
pub(crate) fn size_of(text: &str) -> Option<u64>
    ensures { MatchOption result ((size : ℕ) → ¬ IsSize text.now size) (IsSize text.now) }
{
    if let Some(digits) = text.strip_suffix('K') {
        return times_of(digits, 1024);
    }
    if let Some(digits) = text.strip_suffix('M') {
        return times_of(digits, 1024 * 1024);
    }
    if let Some(digits) = text.strip_suffix('G') {
        return times_of(digits, 1024 * 1024 * 1024);
    }
    times_of(text, 1)
}

/// The number of a text of digits, times the size of a unit.
fn times_of(digits: &str, unit: u64) -> Option<u64>
    requires { 0 < unit }
    ensures { MatchOption result ((size : ℕ) → ¬ IsTimes digits.now unit size) (IsTimes digits.now unit) }
{
    if digits.starts_with('+') {
        return None;
    }
    digits.parse::<u64>().ok()?.checked_mul(unit)
}
