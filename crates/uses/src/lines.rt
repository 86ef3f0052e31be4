//! Lines that a user types in: the valid ones are added, and an invalid one changes nothing.
ghost use Rattle.std.specs.Prelude.{◌≡◌, ◌≢◌, IsTrue, IfOk, IfErr, OnErr};
ghost use Rattle.ignore.specs.Words.{memory, problem_of};
ghost use Rattle.uses.specs.Questions.{AddsIfValid};

use ignore::Error;
use ignore::gitignore::GitignoreBuilder;

/// Whether an error is of a glob.
fn is_of_glob(error: &Error) -> bool
    ensures { IsTrue result → problem_of error.now ≢ memory }
{
    matches!(error, Error::Glob { .. })
}

/// Adds a line if it is valid, and says whether it is.
///
/// # Errors
/// `Error::Memory` alone, and then the builder is as before.
pub fn add_if_valid(builder: &mut GitignoreBuilder, line: &str) -> Result<bool, Error>
    ensures added { IfOk result (λ valid. AddsIfValid builder.old line.now valid builder.new) }
    ensures unchanged { OnErr result (builder.new ≡ builder.old) }
    ensures out_of_memory { IfErr result (λ e. problem_of e ≡ memory) }
{
    match builder.push_line(None, line) {
        Ok(()) => Ok(true),
        Err(error) => {
            if is_of_glob(&error) {
                return Ok(false);
            }
            Err(Error::Memory)
        }
    }
}
