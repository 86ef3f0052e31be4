//! Quotes of paths, as git writes them: a byte as its letter or as three octal digits after a
//! backslash.
ghost use Rattle.std.specs.Prelude.{◌≡◌, ◌≢◌, ◌<◌, ◌+◌, IfOk, List, [], ◌∷◌, ℕ, MatchBool, MatchOption};
ghost use Rattle.ig_options.specs.Quotes.{IsQuoteOf, is_quoted, letter_of};
ghost use Rattle.ig_options.specs.QuoteSteps.{Closes, IsEscaped, IsFirst, IsOctal, IsValue, NoEscaped, NoFirst, NoOctal, NoValue, byte_of};

use std::alloc::{AllocError, Global};

/// The letter after a backslash that stands for a byte, if there is one.
pub fn letter_of(byte: u8) -> Option<u8>
    ensures { result ≡ letter_of byte }
{
    match byte {
        7 => Some(b'a'),
        8 => Some(b'b'),
        9 => Some(b't'),
        10 => Some(b'n'),
        11 => Some(b'v'),
        12 => Some(b'f'),
        13 => Some(b'r'),
        b'"' => Some(b'"'),
        b'\\' => Some(b'\\'),
        _ => None,
    }
}

/// Whether a byte is written after a backslash: control characters, quotes, backslashes, and all that
/// isn't ASCII.
pub fn is_quoted(byte: u8) -> bool
    ensures { result ≡ is_quoted byte }
{
    byte < 32 || byte >= 127 || byte == b'"' || byte == b'\\'
}

/// The byte for which a letter stands after a backslash.
fn meaning_of(letter: u8) -> Option<u8>
    ensures { result ≡ byte_of letter }
{
    match letter {
        b'a' => Some(7),
        b'b' => Some(8),
        b't' => Some(9),
        b'n' => Some(10),
        b'v' => Some(11),
        b'f' => Some(12),
        b'r' => Some(13),
        b'"' => Some(b'"'),
        b'\\' => Some(b'\\'),
        _ => None,
    }
}

/// The value of an octal digit.
fn digit_of(byte: u8) -> Option<u8>
    ensures { MatchOption result ((d : ℕ) → d < 8 → byte ≢ 48 + d) (λ d. (d < 8) × (byte ≡ 48 + d)) }
{
    if byte < b'0' {
        return None;
    }
    if byte > b'7' {
        return None;
    }
    Some(byte - b'0')
}

/// The byte of three octal digits.
fn octal_value(first: u8, second: u8, third: u8) -> Option<u8>
    ensures { MatchOption result (NoValue first second third) (IsValue first second third) }
{
    let a = digit_of(first)?;
    let b = digit_of(second)?;
    let c = digit_of(third)?;
    if a > 3 {
        return None;
    }
    Some(a * 64 + (b * 8 + c))
}

/// The byte of the three octal digits that a text begins with, and what follows them.
fn octal_of(text: &[u8]) -> Option<(u8, &[u8])>
    ensures { MatchOption result (NoOctal text.now) (λ p. IsOctal text.now p.0 p.1.now) }
{
    let (first, rest) = text.split_first()?;
    let (second, rest) = rest.split_first()?;
    let (third, rest) = rest.split_first()?;
    let byte = octal_value(*first, *second, *third)?;
    Some((byte, rest))
}

/// The byte for which a text stands that follows a backslash, and what follows that.
fn escaped_of(text: &[u8]) -> Option<(u8, &[u8])>
    ensures { MatchOption result (NoEscaped text.now) (λ p. IsEscaped text.now p.0 p.1.now) }
{
    let (letter, rest) = text.split_first()?;
    if let Some(byte) = meaning_of(*letter) {
        return Some((byte, rest));
    }
    octal_of(text)
}

/// The first byte that a quoted text stands for, and what follows it. None at a quote, at the end,
/// and at a backslash before anything else.
fn first_of(text: &[u8]) -> Option<(u8, &[u8])>
    ensures { MatchOption result (NoFirst text.now) (λ p. IsFirst text.now p.0 p.1.now) }
{
    let (byte, rest) = text.split_first()?;
    if *byte == b'"' {
        return None;
    }
    if *byte == b'\\' {
        return escaped_of(rest);
    }
    Some((*byte, rest))
}

/// Whether a text is one quote.
fn is_quote(text: &[u8]) -> bool
    ensures { MatchBool result (text.now ≡ 34 ∷ []) (text.now ≢ 34 ∷ []) }
{
    let Some((byte, rest)) = text.split_first() else {
        return false;
    };
    if *byte != b'"' {
        return false;
    }
    rest.is_empty()
}

/// The bytes for which a text stands that ends in a closing quote. None where it isn't one.
fn closed(alloc: Global, text: &[u8]) -> Result<Option<Vec<u8>>, AllocError>
    ensures { IfOk result (λ r. MatchOption r ((bytes : List ℕ) → ¬ Closes text.now bytes) (λ bytes. Closes text.now bytes.items)) }
{
    let mut rest = text;
    let mut bytes = Vec::new(alloc);
    while let Some((byte, after)) = first_of(rest) {
        bytes.push(byte)?;
        rest = after;
    }
    if is_quote(rest) {
        return Ok(Some(bytes));
    }
    Ok(None)
}

/// The bytes of a text between quotes. None where it isn't one.
pub(crate) fn unquoted(alloc: Global, text: &[u8]) -> Result<Option<Vec<u8>>, AllocError>
    ensures { IfOk result (λ r. MatchOption r ((bytes : List ℕ) → ¬ IsQuoteOf text.now bytes) (λ bytes. IsQuoteOf text.now bytes.items)) }
{
    let Some((first, rest)) = text.split_first() else {
        return Ok(None);
    };
    if *first != b'"' {
        return Ok(None);
    }
    closed(alloc, rest)
}
