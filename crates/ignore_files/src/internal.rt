//! What dependents need beside the surface.
ghost use Rattle.std.specs.Prelude.{◌≡◌, Ok, Err, IfOk, OnErr, MatchResult};
ghost use Rattle.ignore_files.specs.declared.types.Refusal.TheVariants.{Memory};
ghost use Rattle.ignore_files.specs.declared.types.Refusal.TheVariants.{Fault as Refused};

pub use crate::shown::Shown;
use crate::types::Refusal;
use ignore_base::Fault;
use std::alloc::AllocError;

/// The answer of a tree, or the fault that it is. Out of memory, which is no answer, is the error.
pub fn answered<T>(answer: Result<T, Refusal>) -> Result<Result<T, Fault>, AllocError>
    ensures answered { IfOk result (λ found. MatchResult found
        (λ value. answer ≡ Ok value)
        (λ fault. answer ≡ Err (Refused fault))) }
    ensures out_of_memory { OnErr result (answer ≡ Err Memory) }
{
    match answer {
        Ok(value) => Ok(Ok(value)),
        Err(Refusal::Fault(fault)) => Ok(Err(fault)),
        Err(Refusal::Memory) => Err(AllocError),
    }
}
