//! What dependents need beside the surface.
ghost use Rattle.std.specs.Prelude.{◌≡◌, ◌≤◌, ◌↔◌, false, IsTrue, IsOk, IfOk};
ghost use Rattle.std.specs.Str.{chars};
ghost use Rattle.ignore_glob.specs.DoesMatch.{does_match};
ghost use Rattle.ignore_glob.specs.Positions.{positions};
ghost use Rattle.ignore_glob.specs.Reading.{Matches};
ghost use Rattle.ignore_glob.specs.Words.{has_braces};

use crate::glob::Pattern;
pub use crate::glob::automaton::Automaton;
pub use crate::glob::flags::Flags;
use std::alloc::AllocError;

/// As `Pattern::matches`, with the error of a failed allocation.
pub fn matches(pattern: &Pattern, text: &str) -> Result<bool, AllocError>
    ensures value { IfOk result (λ yes. IsTrue yes ↔ Matches pattern.now (chars text.now)) }
    ensures decided { IfOk result (λ yes. yes ≡ does_match pattern.now (chars text.now)) }
    ensures succeeds { has_braces pattern.now.tokens ≡ false → positions pattern.now.tokens ≤ 62 → IsOk result }
{
    Ok(pattern.matcher().matches(text)?)
}

/// The automaton of a pattern, which goes over a text a character at a time: for what has to go over
/// all texts.
pub fn automaton(pattern: &Pattern) -> Result<Automaton, AllocError>
    ensures { IfOk result (λ automaton. automaton ≡ pattern.now) }
{
    pattern.matcher().automaton()
}
