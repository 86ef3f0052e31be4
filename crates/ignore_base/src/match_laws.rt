//! What holds of every match, as contracts of functions that do nothing.
ghost use Rattle.std.specs.Prelude.{◌≡◌};
ghost use Rattle.ignore_base.specs.Match.{invert, match_or, match_map, IsMapped};

use crate::match_result::Match;

/// Inverting twice gives the match back.
pub fn invert_twice<T>()
    ensures { (m : Match T) → invert (invert m) ≡ m }
{}

/// `or` is associative, and no match is its unit on both sides.
pub fn or_is_associative<T>()
    ensures associative { (a b c : Match T) → match_or (match_or a b) c ≡ match_or a (match_or b c) }
    ensures unit_first { (m : Match T) → match_or Match.None m ≡ m }
    ensures unit_last { (m : Match T) → match_or m Match.None ≡ m }
{}

/// Where the closure computes a function, `map` gives that function's values.
pub fn map_by_a_function<T, U>()
    ensures { (f : T → U) (m : Match T) (n : Match U) → IsMapped (λ x y. y ≡ f x) m n → n ≡ match_map f m }
{}

/// A clone of a match is equal to it where clones of its value are.
pub fn clone_is_equal<T: Clone>()
    ensures { ((x y : T) → T.is_clone x y → y ≡ x) → (m n : Match T) → ⟦<Match<T> as Clone>⟧.is_clone m n → n ≡ m }
{}
