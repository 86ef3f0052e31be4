//! Laws of searches over all paths, each as the contract of a function that does nothing.
ghost use Rattle.std.specs.Prelude.{◌≡◌, Bool, ℕ, List, Some, slice_get};
ghost use Rattle.ignore_rules.specs.Rules.{Rule};
ghost use Rattle.ignore_base.specs.Text.{Chars};
ghost use Rattle.ignore_every.specs.Questions.{IsAsked};
ghost use Rattle.ignore_every.specs.Searches.{Scope, IsSoundSearch, IsPlaceOf};
ghost use Rattle.ignore_every.specs.Verdicts.{IsDifference, IsSaid, SaySame, Says, said_verdict};
ghost use Rattle.ignore_every.specs.declared.said.Counted.{Counted};
ghost use Rattle.ignore_every.specs.declared.said.Said.{Said};
ghost use Rattle.ignore_every.specs.declared.said.Verdict.{Verdict};
ghost use Rattle.ignore_every.specs.declared.place.Place.{Place};

/// What is said of a question by a rule is what the list says of it.
pub fn what_is_said_is_the_verdict()
    ensures { (rules : List Rule) (path : Chars) (is_dir : Bool) (said : Said) → IsSaid rules path is_dir said
        → Says rules path is_dir (said_verdict said) }
{}

/// A list says one verdict of a question.
pub fn a_list_says_one_verdict()
    ensures { (rules : List Rule) (path : Chars) (is_dir : Bool) (v : Verdict) (w : Verdict) → Says rules path is_dir v → Says rules path is_dir w
        → v ≡ w }
{}

/// Two lists that differ at a question don't say the same.
pub fn lists_that_differ_dont_say_the_same()
    ensures { (counted : Counted) (old new : List Rule) (path : Chars) (is_dir : Bool) (before after : Said)
        → IsDifference counted old new path is_dir before after → SaySame counted old new → ⊥ }
{}

/// A closed search misses nothing: each clean path, or each that the rules reach, has a place in it,
/// which says which rule decides there.
pub fn a_closed_search_misses_nothing()
    ensures { (scope : Scope) (places : List Place) → IsSoundSearch scope places
        → (path : Chars) → IsAsked scope.reached scope.left.rules path
        → (i : ℕ) × (place : Place) × (slice_get places i ≡ Some place) × IsPlaceOf scope.left path place }
{}
