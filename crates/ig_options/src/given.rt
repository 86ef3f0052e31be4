//! The paths that `why` is asked about, and the files that `same` compares.
ghost use Rattle.std.specs.Prelude.{◌≡◌, IfOk, map};
ghost use Rattle.ig_options.specs.Given.{Gives, IsText, is_opened};

use crate::quotes::unquoted;
use ignore_files::Name;
use std::alloc::{AllocError, Global};

/// A path that `why` is asked about, or why there is none in its place.
#[derive(Debug, Drop)]
pub enum Given {
    /// A path.
    Path(Name),
    /// The record of standard input with this number, from 1, isn't UTF-8.
    NotText(u64),
    /// The record of standard input with this number, from 1, begins with a quote, and isn't quoted
    /// as git quotes a path.
    BadlyQuoted(u64),
}

/// The path of a record of standard input. It is as it stands where records end in NUL; else it is
/// unquoted, where it begins with a quote.
///
/// # Errors
/// Out of memory.
pub fn given_by(text: Vec<u8>, number: u64, has_nul: bool) -> Result<Given, AllocError>
    ensures given { IfOk result (Gives (is_opened has_nul text.items) text.items number) }
{
    if !is_opened(has_nul, text.as_slice()) {
        return Ok(text_of(text, number));
    }
    let alloc = *text.allocator();
    let quoted = text.as_slice();
    let found = unquoted(alloc, quoted)?;
    let Some(bytes) = found else {
        return Ok(Given::BadlyQuoted(number));
    };
    let given = text_of(bytes, number);
    Ok(given)
}

/// Whether a record is unquoted: it begins with a quote, and records don't end in NUL.
fn is_opened(has_nul: bool, text: &[u8]) -> bool
    ensures { result ≡ is_opened has_nul text.now }
{
    if has_nul {
        return false;
    }
    let Some((byte, _)) = text.split_first() else {
        return false;
    };
    *byte == b'"'
}

/// The path of these bytes.
fn text_of(bytes: Vec<u8>, number: u64) -> Given
    ensures { IsText bytes.items number result }
{
    match String::from_utf8(bytes) {
        Ok(text) => Given::Path(Name::new(text)),
        Err(_) => Given::NotText(number),
    }
}

/// The paths of words.
///
/// # Errors
/// Out of memory.
pub(crate) fn given_words(alloc: Global, words: &[&str]) -> Result<Vec<Given>, AllocError> {
    let mut given = Vec::new(alloc);
    for word in words {
        given.push(Given::Path(Name::from_str(alloc, word)?))?;
    }
    Ok(given)
}
