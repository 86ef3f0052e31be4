//! The value of `core.excludesFile` in the bytes of one configuration of git.
ghost use Rattle.std.specs.Prelude.{◌≡◌, ◌↔◌, ◌≤◌, ◌++◌, ℕ, List, Option, length, drop, IsTrue};
ghost use Rattle.std.specs.Option.{option_copied};
ghost use Rattle.ignore_base.specs.Text.{Bytes};
ghost use Rattle.ignore_excludes.specs.Excludes.{is_space, trimmed_start, IsSolid, EndsLine, HasValue, Assigns, SetsKey, IsShortest};
ghost use Rattle.ignore_excludes.specs.Excludes.{IsPreferred, IsChosen, IsValue, StartsBlank, ClosesValue, IsUnquoted};

use memchr::memchr;
use std::str;

const KEY: &[u8; 12] = b"excludesfile";

fn is_space(byte: u8) -> bool
    ensures { result ≡ is_space byte }
{
    byte == b' ' || (b'\t' <= byte && byte <= b'\r')
}

/// How many bytes of white space the text begins with.
fn space_len(text: &[u8]) -> usize
    ensures within { result ≤ length text.now }
    ensures rest { drop result text.now ≡ trimmed_start text.now }
{
    for (i, byte) in text.iter().enumerate() {
        if !is_space(*byte) {
            return i;
        }
    }
    text.len()
}

/// The first word of the text, which is empty where white space comes first, and the rest.
fn split_word(text: &[u8]) -> (&[u8], &[u8])
    ensures parts { text.now ≡ result.0.now ++ result.1.now }
    ensures word { IsSolid result.0.now }
    ensures after { StartsBlank result.1.now }
{
    let end = text
        .iter()
        .position(|byte| is_space(*byte))
        .unwrap_or(text.len());
    text.split_at(end)
}

fn trim(text: &[u8]) -> &[u8]
    ensures { result.now ≡ trimmed_start text.now }
{
    &text[space_len(text)..]
}

/// Whether only white space precedes the next newline or the end.
fn ends_line(text: &[u8]) -> bool
    ensures { IsTrue result ↔ EndsLine text.now }
{
    for byte in text {
        if *byte == b'\n' {
            return true;
        }
        if !is_space(*byte) {
            return false;
        }
    }
    true
}

/// Whether the rest of the line has only white space and at most one `"`.
fn closes(text: &[u8]) -> bool
    ensures { IsTrue result ↔ ClosesValue text.now }
{
    if ends_line(text) {
        return true;
    }
    match trim(text).split_first() {
        None => false,
        Some((quote, rest)) => *quote == b'"' && ends_line(rest),
    }
}

/// The word without a final `"`, where something else is left.
fn unquoted(word: &[u8]) -> &[u8]
    ensures { IsUnquoted word.now result.now }
{
    match word.split_last() {
        None => word,
        Some((quote, prefix)) => {
            if *quote == b'"' && !prefix.is_empty() {
                prefix
            } else {
                word
            }
        }
    }
}

/// The shortest value that the text can begin with.
fn first_value(text: &[u8]) -> Option<&[u8]>
    ensures { IsShortest (λ value. HasValue value text.now) (option_copied result) }
{
    let (word, after) = split_word(text);
    if word.is_empty() {
        return None;
    }
    if ends_line(after) {
        return Some(unquoted(word));
    }
    if closes(after) {
        return Some(word);
    }
    None
}

/// The value after an equals sign.
fn assigned_value(text: &[u8]) -> Option<&[u8]>
    ensures { IsPreferred (λ quoted value. Assigns quoted value text.now) (option_copied result) }
{
    let text = trim(text);
    let (first, rest) = text.split_first()?;
    if *first == b'"' {
        if let Some(value) = first_value(trim(rest)) {
            return Some(value);
        }
    }
    first_value(text)
}

/// The value of the key that the text begins with.
fn value_of_key(text: &[u8]) -> Option<&[u8]>
    ensures { IsPreferred (λ quoted value. SetsKey quoted value text.now) (option_copied result) }
{
    let (key, rest) = text.split_at_checked(KEY.len())?;
    if !key.eq_ignore_ascii_case(KEY) {
        return None;
    }
    let (equals, rest) = trim(rest).split_first()?;
    if *equals != b'=' {
        return None;
    }
    assigned_value(rest)
}

/// The value of the first key that has one.
fn chosen_value(bytes: &[u8]) -> Option<&[u8]>
    ensures { IsChosen bytes.now (option_copied result) }
{
    let mut at = 0;
    loop {
        let (_, rest) = bytes.split_at(at);
        let start = space_len(rest);
        let (_, line) = rest.split_at(start);
        if let Some(value) = value_of_key(line) {
            return Some(value);
        }
        match memchr(b'\n', line) {
            None => return None,
            Some(end) => at += start + end + 1,
        }
    }
}

/// The value of `core.excludesFile` in the bytes of a configuration, without the quotes and white
/// space around it.
///
/// None where no line is the key with a value, and where the value isn't UTF-8.
pub(crate) fn excludes_value(bytes: &[u8]) -> Option<&str>
    ensures value { IsValue bytes.now (option_copied result) }
    ensures only { (other : Option Bytes) → IsValue bytes.now other → option_copied result ≡ other }
{
    str::from_utf8(chosen_value(bytes)?).ok()
}
