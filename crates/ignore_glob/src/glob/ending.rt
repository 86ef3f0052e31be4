//! How a text ends with another.
ghost use Rattle.std.specs.Prelude.{◌≡◌, ◌++◌, ◌∷◌, ℕ, IsTrue, List};
ghost use Rattle.ignore_glob.specs.Ends.{HasEnd, HasName};

/// For dependents: whether the text ends with this one.
pub fn has_end(text: &str, end: &str) -> bool
    ensures yes { IsTrue result → HasEnd end.now text.now }
    ensures no { (front : List ℕ) → text.now ≡ front ++ end.now → IsTrue result }
{
    text.ends_with(end)
}

/// For dependents: whether the text is this one, or ends with a slash and this one.
pub fn has_name(text: &str, name: &str) -> bool
    ensures yes { IsTrue result → HasName name.now text.now }
    ensures same { text.now ≡ name.now → IsTrue result }
    ensures after { (front : List ℕ) → text.now ≡ front ++ 47 ∷ name.now → IsTrue result }
{
    match text.strip_suffix(name) {
        Some(rest) => rest.is_empty() || rest.ends_with('/'),
        None => false,
    }
}
