//! Laws of the definitions, as calls that do nothing: each contract is the law.
ghost use Rattle.ignore_why.specs.Decides.{AloneDecides, FirstRankDecides};
ghost use Rattle.ignore_why.specs.QueryWhy.{AnswersByReason};

use ignore_levels::laws::the_nearest_directory_decides;
use ignore_rules::gitignore::laws::the_last_rule_decides;

/// The answer of a query is the one that goes with its reason.
pub fn answers_by_reason()
    ensures law { AnswersByReason }
{}

/// The rule that decides is the last that applies of its list, which is that of the nearest
/// directory that has a match for its rank, which is the first rank that has one. So no later rule
/// of its list matches the path.
pub fn the_first_rank_decides()
    ensures law { FirstRankDecides }
{
    the_last_rule_decides();
    the_nearest_directory_decides();
}

/// A list with the rule alone that decides gives the same answer as the whole list.
pub fn one_rule_decides()
    ensures law { AloneDecides }
{}
