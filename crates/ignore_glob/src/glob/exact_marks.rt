//! The marks of literals, alone or after `**/` or `**/*`, counted from their text and the other.
ghost use Rattle.std.specs.Prelude.{◌≡◌, ◌+◌, ◌-◌, ◌^◌, ◌<◌, ◌∷◌, [], IfSome, IfNone, cond, length, min};
ghost use Rattle.std.specs.Str.{chars};
ghost use Rattle.ignore_glob.specs.Exact.{common, exact_marks, front_marks, later_marks, may_begin};

use crate::glob::kind::Kind;

/// How many marks a text leaves of literals; the number stops at `u64::MAX`.
pub(crate) fn exact_marks(kind: Kind, literals: &str, text: &str) -> u64
    ensures { result ≡ min (exact_marks kind (chars literals.now) (chars text.now)) (2 ^ 64 - 1) }
{
    let first = run(literals, text);
    match kind {
        Kind::Whole => first,
        _ => front_marks(kind, text)
            .saturating_add(first)
            .saturating_add(later_marks(kind, literals, text)),
    }
}

/// The marks of the positions before the literals.
fn front_marks(kind: Kind, text: &str) -> u64
    ensures { result ≡ min (front_marks kind (chars text.now)) (2 ^ 64 - 1) }
{
    let offsets = (text.chars().count() as u64).saturating_add(1);
    match kind {
        Kind::Whole => 0,
        Kind::Name => offsets.saturating_add(1),
        Kind::End => offsets.saturating_add(offsets).saturating_add(1),
    }
}

/// The marks of the literals that begin after a character of the text.
fn later_marks(kind: Kind, literals: &str, text: &str) -> u64
    ensures { result ≡ min (later_marks kind (chars literals.now) (chars text.now)) (2 ^ 64 - 1) }
{
    let mut count = 0u64;
    let mut rest = text;
    while let Some((d, more)) = first_of(rest) {
        count = count.saturating_add(run_after(kind, d, literals, more));
        rest = more;
    }
    count
}

/// The marks of the literals that begin after this character, where they may.
fn run_after(kind: Kind, d: char, literals: &str, text: &str) -> u64
    ensures { result ≡ min (cond (may_begin kind d) (1 + common (chars literals.now) (chars text.now)) 0) (2 ^ 64 - 1) }
{
    if may_begin(kind, d) {
        run(literals, text)
    } else {
        0
    }
}

fn may_begin(kind: Kind, d: char) -> bool
    ensures { result ≡ may_begin kind d }
{
    match kind {
        Kind::Whole => false,
        Kind::Name => d == '/',
        Kind::End => true,
    }
}

/// The marks of the literals that begin with the text: one more than both have in common.
fn run(literals: &str, text: &str) -> u64
    ensures { result ≡ min (1 + common (chars literals.now) (chars text.now)) (2 ^ 64 - 1) }
{
    let mut count = 1u64;
    let mut left = literals;
    let mut rest = text;
    while let Some((literals, text)) = past_alike(left, rest) {
        count = count.saturating_add(1);
        left = literals;
        rest = text;
    }
    count
}

/// What follows the first character of both, where it is the same.
fn past_alike<'a>(literals: &'a str, text: &'a str) -> Option<(&'a str, &'a str)>
    ensures some { IfSome result (λ rest. common (chars literals.now) (chars text.now)
        ≡ 1 + common (chars rest.0.now) (chars rest.1.now)) }
    ensures shorter { IfSome result (λ rest. length rest.1.now < length text.now) }
    ensures none { IfNone result (common (chars literals.now) (chars text.now) ≡ 0) }
{
    let (c, more) = first_of(literals)?;
    let (d, rest) = first_of(text)?;
    if c == d { Some((more, rest)) } else { None }
}

/// The first character, and what follows it.
fn first_of(text: &str) -> Option<(char, &str)>
    ensures some { IfSome result (λ found. chars text.now ≡ found.0 ∷ chars found.1.now) }
    ensures shorter { IfSome result (λ found. length found.1.now < length text.now) }
    ensures none { IfNone result (chars text.now ≡ []) }
{
    let mut rest = text.chars();
    match rest.next() {
        Some(c) => Some((c, rest.as_str())),
        None => None,
    }
}
