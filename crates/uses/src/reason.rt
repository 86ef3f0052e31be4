//! Why a path is ignored: the rule that decides, its line, and the file that it comes from.
ghost use Rattle.std.specs.Prelude.{◌≡◌, IfOk, IfErr, option_map};
ghost use Rattle.std.specs.Option.{option_and_then, option_copied};
ghost use Rattle.ignore.specs.Words.{memory, problem_of};
ghost use Rattle.uses.specs.Questions.{deciding_rule};

use ignore::gitignore::{Gitignore, Glob};
use ignore::{Error, Match};

/// The rule that decides about a path, if one does.
pub fn deciding_rule<'m>(
    rules: &'m Gitignore,
    path: &str,
    is_dir: bool,
) -> Result<Option<&'m Glob>, Error>
    ensures decides { IfOk result (λ rule. option_copied rule ≡ deciding_rule rules.now path.now is_dir) }
    ensures out_of_memory { IfErr result (λ e. problem_of e ≡ memory) }
{
    match rules.matched(path, is_dir)? {
        Match::None => Ok(None),
        Match::Ignore(rule) => Ok(Some(rule)),
        Match::Whitelist(rule) => Ok(Some(rule)),
    }
}

/// The line that decides about a path, if one does.
pub fn deciding_line<'m>(
    rules: &'m Gitignore,
    path: &str,
    is_dir: bool,
) -> Result<Option<&'m str>, Error>
    ensures line { IfOk result (λ line. option_copied line ≡ option_map (λ rule. rule.original) (deciding_rule rules.now path.now is_dir)) }
    ensures out_of_memory { IfErr result (λ e. problem_of e ≡ memory) }
{
    match deciding_rule(rules, path, is_dir)? {
        None => Ok(None),
        Some(rule) => Ok(Some(rule.original())),
    }
}

/// The file that this line comes from, where a rule decides and its file is known.
pub fn deciding_file<'m>(
    rules: &'m Gitignore,
    path: &str,
    is_dir: bool,
) -> Result<Option<&'m str>, Error>
    ensures file { IfOk result (λ file.
        option_copied file ≡ option_and_then (λ rule. rule.from) (deciding_rule rules.now path.now is_dir)) }
    ensures out_of_memory { IfErr result (λ e. problem_of e ≡ memory) }
{
    match deciding_rule(rules, path, is_dir)? {
        None => Ok(None),
        Some(rule) => Ok(rule.from()),
    }
}
