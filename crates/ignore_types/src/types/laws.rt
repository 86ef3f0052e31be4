//! Laws of the definitions, as calls that do nothing: each contract is the law.
ghost use Rattle.ignore_types.specs.TypeMatch.{AnswersByTheLastChoice};

use ignore_glob::glob::laws::matching_is_decided;

/// The answer of file types is that of the last choice that matches the name of the file: some of
/// its globs does, and no glob of a later choice.
pub fn the_last_choice_decides()
    ensures { AnswersByTheLastChoice }
{
    matching_is_decided();
}
