//! Laws of the definitions, as calls that do nothing: each contract is the law.
ghost use Rattle.ignore_rules.specs.Answer.{AnswersByOffset, AnswersByTheLast};
ghost use Rattle.ignore_rules.specs.RuleFile.{AddsOneThing, AddsSomething, GivesOneResult, KeepsTheRoot};

use ignore_base::text::offset_law;
use ignore_glob::glob::laws::matching_is_decided;

/// The answer of a list of rules is that of its last rule that applies: the one with the greatest
/// index that matches the text and applies to the kind.
pub fn the_last_rule_decides()
    ensures { AnswersByTheLast }
{
    matching_is_decided();
}

/// Reading a file of rules gives one result: whatever was read, there is one list of rules and one
/// problem, or none, such that adding it to any builder with the same options appends these rules
/// and reports this problem, and does nothing else. So neither the root nor the rules that the
/// builder has before bear on what a file adds.
pub fn a_file_gives_one_result()
    ensures { GivesOneResult }
{}

/// Whatever was read of a file, adding it to a builder leads somewhere, to one builder with one
/// problem, or none, and keeps the root and the options of the builder.
pub fn a_file_adds_one_thing()
    ensures some { AddsSomething }
    ensures one { AddsOneThing }
    ensures kept { KeepsTheRoot }
{}

/// A matcher relative to a directory below a clean root needn't strip it from each path: `matched`
/// of a path below the directory is `answer` of what follows the offset of the directory
/// (`text::offset_below`), which is found once.
pub fn an_offset_strips()
    ensures { AnswersByOffset }
{
    offset_law();
}
