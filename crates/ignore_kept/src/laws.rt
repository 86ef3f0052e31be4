//! Laws of what C is told of rules over all paths, each as the contract of a function that does nothing.
ghost use Rattle.std.specs.Prelude.{◌≡◌, ℕ, List, Some, slice_get};
ghost use Rattle.ignore_base.specs.Text.{Bytes};
ghost use Rattle.ignore_every.specs.Findings.{IsReason};
ghost use Rattle.ignore_rules.specs.Rules.{Rule};
ghost use Rattle.ignore_kept.specs.Findings.{AreFindings, IsToldRight, TellsFinding, TellsOverruling};
ghost use Rattle.ignore_kept.specs.declared.findings.Dead.{Dead};
ghost use Rattle.ignore_kept.specs.declared.findings.Findings.{Findings};

/// What is told of a dead rule is so: it decides on no question that is reached, and what is told is
/// a finding of it that is right.
pub fn what_is_told_is_right()
    ensures { (rules : List Rule) (found : Findings) → AreFindings rules found → (index : ℕ) (dead : Dead) (text : Bytes)
        → TellsFinding (Some found) index 0 dead text → IsToldRight rules dead text }
{}

/// Of each rule that is told to overrule a dead one there is a question at which it decides and the
/// dead one applies.
pub fn what_overrules_decides()
    ensures { (rules : List Rule) (found : Findings) → AreFindings rules found → (index rule number other : ℕ)
        → slice_get found.dead.items index ≡ Some rule → TellsOverruling (Some found) index number 0 other
        → IsReason rules rule other }
{}
