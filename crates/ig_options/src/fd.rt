//! Words of fd, as globs and types.
ghost use Rattle.std.specs.Prelude.{◌≡◌, ◌∷◌, IfOk, string_bytes};
ghost use Rattle.ig_options.specs.Fd.{definition_of, without_dot};

use std::alloc::{AllocError, Global};

/// The name of the file type that the extensions of `-e` are.
pub(crate) const EXTENSIONS: &str = "extension";

/// The glob that ignores what a glob of `-E` matches.
pub(crate) fn exclusion_of(alloc: Global, glob: &str) -> Result<String, AllocError>
    ensures { IfOk result (λ text. string_bytes text ≡ 33 ∷ glob.now) }
{
    let mut text = String::from_str(alloc, "!")?;
    text.push_str(glob)?;
    Ok(text)
}

/// The definition by which the files whose names end in a dot and this extension of `-e` are of the
/// type of extensions. A dot before the extension is left out.
pub(crate) fn definition_of(alloc: Global, extension: &str) -> Result<String, AllocError>
    ensures { IfOk result (λ text. string_bytes text ≡ definition_of extension.now) }
{
    let mut text = String::from_str(alloc, "extension:*.")?;
    text.push_str(without_dot(extension))?;
    Ok(text)
}

/// An extension without a dot before it.
fn without_dot(extension: &str) -> &str
    ensures { result.now ≡ without_dot extension.now }
{
    match extension.strip_prefix('.') {
        Some(rest) => rest,
        None => extension,
    }
}
