//! How a text ends.
ghost use Rattle.std.specs.Prelude.{◌≡◌, ◌++◌, ℕ, IsTrue, List, length, Some, IfSome};
ghost use Rattle.std.specs.Option.{option_map};
ghost use Rattle.std.specs.Str.{IsUtf8};
ghost use Rattle.ignore_glob.specs.Ends.{HasEnd};
ghost use Rattle.ignore_set.specs.Index.{Fits};

use ignore_glob::glob::{has_end, has_name};

/// How a text may end with another.
#[derive(Clone, Copy)]
pub(crate) enum Ending {
    /// After a slash, or as the whole of it.
    Name,
    /// In any way.
    End,
}

pub(crate) fn fits(ending: Ending, text: &str, end: &str) -> bool
    ensures yes { IsTrue result → Fits ending end.now text.now }
    ensures no { Fits ending end.now text.now → IsTrue result }
{
    match ending {
        Ending::Name => has_name(text, end),
        Ending::End => has_end(text, end),
    }
}

/// The end of a text, of this size, if a character begins there.
pub(crate) fn end_of(text: &str, size: usize) -> Option<&str>
    ensures found { IfSome result (λ end. HasEnd end.now text.now × (length end.now ≡ size)) }
    ensures each { (front end : List ℕ) → text.now ≡ front ++ end → IsUtf8 end → length end ≡ size
        → option_map (λ e. e.now) result ≡ Some end }
{
    let at = text.len().checked_sub(size)?;
    if text.is_char_boundary(at) {
        Some(&text[at..])
    } else {
        None
    }
}
