//! Whether a value is asked that was made, or a clone of it.

use serde_json::Value;
use vectors::{Trouble, flag};

/// The name of the field that says so. Where it is missing no clone is made.
const CLONE: &str = "clone";

/// What is asked: a clone of what was made, where the vector says so, and else that itself.
pub fn asked<T: Clone>(input: &Value, made: T) -> Result<T, Trouble> {
    if input.get(CLONE).is_some() && flag(input, CLONE)? {
        return Ok(made.clone()?);
    }
    Ok(made)
}
