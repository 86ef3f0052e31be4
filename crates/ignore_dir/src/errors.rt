//! Errors that may be missing.
ghost use Rattle.std.specs.Prelude.{◌≡◌, ◌++◌, IfOk, OnOk, map, option_map};
ghost use Rattle.std.specs.Option.{option_to_list};
ghost use Rattle.ignore_base.specs.Problem.{problem_of};
ghost use Rattle.ignore_dir.specs.Load.{joined_some};

use ignore_base::Error;
use std::alloc::{AllocError, Global};

/// Appends an error, if there is one.
/// For dependents.
pub fn push_some(errors: &mut Vec<Error>, error: Option<Error>) -> Result<(), AllocError>
    ensures added { OnOk result (map problem_of errors.new.items ≡ map problem_of errors.old.items
        ++ option_to_list (option_map problem_of error)) }
{
    if let Some(error) = error {
        errors.push(error)?;
    }
    Ok(())
}

/// The errors that there are, as one.
/// For dependents.
pub fn joined_some(alloc: Global, errors: Vec<Option<Error>>) -> Result<Option<Error>, AllocError>
    ensures { IfOk result (λ error. option_map problem_of error ≡ joined_some (map (option_map problem_of) errors.items)) }
{
    let mut all = Vec::new(alloc);
    for error in errors {
        push_some(&mut all, error)?;
    }
    Ok(Error::joined(all))
}
