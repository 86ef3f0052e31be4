//! What dependents need beside the surface.
ghost use Rattle.std.specs.Prelude.{◌≡◌, IfOk, string_bytes};
ghost use Rattle.ignore_base.specs.Paths.{join_of};

use std::alloc::{AllocError, Global};

/// As `text::join`, with the error of a failed allocation.
pub fn join(alloc: Global, base: &str, path: &str) -> Result<String, AllocError>
    ensures { IfOk result (λ text. string_bytes text ≡ join_of base.now path.now) }
{
    if path.starts_with('/') || base.is_empty() {
        return Ok(String::from_str(alloc, path)?);
    }
    let len = base.len().saturating_add(path.len()).saturating_add(1);
    let mut text = String::with_capacity(alloc, len)?;
    text.push_str(base)?;
    if !base.ends_with('/') {
        text.push('/')?;
    }
    text.push_str(path)?;
    Ok(text)
}
