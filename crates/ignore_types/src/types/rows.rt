//! The rows of all default types, in five parts, each as a slice.
ghost use Rattle.std.specs.Prelude.{◌≡◌, map};
ghost use Rattle.ignore_types.specs.AllDefaults.{first_rows, second_rows, third_rows, fourth_rows, fifth_rows};

use crate::all_default_types::{FIFTH_TYPES, FIRST_TYPES, FOURTH_TYPES, SECOND_TYPES, THIRD_TYPES};
use crate::default_types::DefaultType;

#[tactic(auto, unfolding(crate::specs::AllDefaults::first_rows))]
pub(super) fn first_rows() -> &'static [DefaultType]
    ensures { map (λ r. (map (λ n. n.now) r.0.now, map (λ g. g.now) r.1.now)) result.now ≡ first_rows }
{
    &FIRST_TYPES
}

#[tactic(auto, unfolding(crate::specs::AllDefaults::second_rows))]
pub(super) fn second_rows() -> &'static [DefaultType]
    ensures { map (λ r. (map (λ n. n.now) r.0.now, map (λ g. g.now) r.1.now)) result.now ≡ second_rows }
{
    &SECOND_TYPES
}

#[tactic(auto, unfolding(crate::specs::AllDefaults::third_rows))]
pub(super) fn third_rows() -> &'static [DefaultType]
    ensures { map (λ r. (map (λ n. n.now) r.0.now, map (λ g. g.now) r.1.now)) result.now ≡ third_rows }
{
    &THIRD_TYPES
}

#[tactic(auto, unfolding(crate::specs::AllDefaults::fourth_rows))]
pub(super) fn fourth_rows() -> &'static [DefaultType]
    ensures { map (λ r. (map (λ n. n.now) r.0.now, map (λ g. g.now) r.1.now)) result.now ≡ fourth_rows }
{
    &FOURTH_TYPES
}

#[tactic(auto, unfolding(crate::specs::AllDefaults::fifth_rows))]
pub(super) fn fifth_rows() -> &'static [DefaultType]
    ensures { map (λ r. (map (λ n. n.now) r.0.now, map (λ g. g.now) r.1.now)) result.now ≡ fifth_rows }
{
    &FIFTH_TYPES
}
