//! What decides on a path, by name.
ghost use Rattle.std.specs.Prelude.{◌≡◌, ◌-◌, IfOk, drop, length, option_map, string_bytes, take};
ghost use Rattle.std.specs.Str.{IsCharBoundary};
ghost use Rattle.std.specs.Option.{option_copied};
ghost use Rattle.ignore_base.specs.Match.{match_map};
ghost use Rattle.ignore_base.specs.Text.{Path};
ghost use Rattle.ignore_levels.specs.Reasons.{IsAtBoundary, IsInside, IsReasonInside, site_of, sited_of, why_of};
ghost use Rattle.ignore_why.specs.Cited.{directory_of, cited, cited_of, named, named_of, named_rule, rank_of, typed, typed_of};

use ignore_base::Match;
use ignore_dir::Rank;
use ignore_levels::{Origin, Reason, Ruling};
use ignore_rules::gitignore::Glob;
use ignore_rules::overrides;
use ignore_types::types;
use std::alloc::{AllocError, Global};

/// In which list a rule stands. The lists are asked in this order, and the first that has a match
/// decides.
#[derive(Clone, Copy, Debug, PartialEq, Eq)]
pub enum RuleRank {
    /// A file of a name that the caller chose.
    Custom,
    /// `.ignore`.
    Ignore,
    /// `.gitignore`.
    Gitignore,
    /// `info/exclude` of a repository.
    Exclude,
    /// The global file of git's configuration.
    Global,
    /// A file that was added by name.
    Explicit,
}

/// A rule that decides, by name.
#[derive(Debug, Drop)]
pub struct NamedRule {
    /// In which list it stands.
    pub rank: RuleRank,
    /// The directory whose list it is, up to and with its last slash: from `/` on, or from the root
    /// on where the canonical path of the root isn't known. None for the global file and one that
    /// was added by name.
    pub directory: Option<String>,
    /// Where its line was read: the path of a file. None where that wasn't given.
    pub source: Option<String>,
    /// The number of its line there, from 1.
    pub line: Option<u64>,
    /// The line, without trailing white space.
    pub original: String,
    /// Whether it whitelists.
    pub is_whitelist: bool,
}

/// A file type that decides, by its name and its glob.
#[derive(Debug, Drop)]
pub struct NamedType {
    /// Its name.
    pub name: String,
    /// The last of its globs that matches.
    pub glob: String,
}

/// What decides on a path.
#[derive(Debug, Drop)]
pub enum Cause {
    /// A glob of the command line as it was written; or, without one, that none matches where some
    /// glob whitelists.
    Override(Option<String>),
    /// A rule.
    Rule(NamedRule),
    /// A chosen file type; or, without one, that none matches where a type is selected.
    Type(Option<NamedType>),
    /// A leading dot of its name.
    Hidden,
}

/// In which list a rule stands, by where it stands.
fn rank_of(origin: Origin) -> RuleRank
    ensures { (text : Path) → result ≡ rank_of (site_of text origin) }
{
    match origin {
        Origin::Directory(Rank::Custom, _) => RuleRank::Custom,
        Origin::Directory(Rank::Ignore, _) => RuleRank::Ignore,
        Origin::Directory(Rank::Gitignore, _) => RuleRank::Gitignore,
        Origin::Directory(Rank::Exclude, _) => RuleRank::Exclude,
        Origin::Global => RuleRank::Global,
        Origin::Explicit => RuleRank::Explicit,
    }
}

/// The text before an offset: what precedes the path past it.
fn before(alloc: Global, text: &str, offset: usize) -> Result<String, AllocError>
    requires { IsCharBoundary text.now offset }
    ensures front { IfOk result (λ front. string_bytes front ≡ take (length text.now - length (drop offset text.now)) text.now) }
{
    Ok(String::from_str(alloc, &text[..offset])?)
}

/// The directory of a rule in a text.
fn directory_of(alloc: Global, text: &str, origin: Origin) -> Result<Option<String>, AllocError>
    ensures { IsAtBoundary text.now origin
        → IfOk result (λ dir. option_map string_bytes dir ≡ directory_of text.now (site_of text.now origin)) }
{
    match origin {
        Origin::Directory(_, offset) => {
            if !text.is_char_boundary(offset) {
                return Ok(None);
            }
            Ok(Some(before(alloc, text, offset)?))
        }
        Origin::Global => Ok(None),
        Origin::Explicit => Ok(None),
    }
}

/// A copy of a text, if there is one.
fn copied(alloc: Global, text: Option<&str>) -> Result<Option<String>, AllocError>
    ensures { IfOk result (λ copy. option_map string_bytes copy ≡ option_copied text.entry) }
{
    match text {
        Some(text) => Ok(Some(String::from_str(alloc, text)?)),
        None => Ok(None),
    }
}

/// A rule of the list of a rank, of a directory or of none, by name.
pub fn named_rule(
    alloc: Global,
    rank: RuleRank,
    directory: Option<String>,
    glob: &Glob,
) -> Result<NamedRule, AllocError>
    ensures { IfOk result (λ rule. named_of rule ≡ named_rule rank (option_map string_bytes directory) glob.now) }
{
    let source = copied(alloc, glob.from())?;
    let original = String::from_str(alloc, glob.original())?;
    Ok(NamedRule {
        rank,
        directory,
        source,
        line: glob.line(),
        original,
        is_whitelist: glob.is_whitelist(),
    })
}

/// The rule that decides, by name.
fn named(alloc: Global, text: &str, ruling: &Ruling<'_>) -> Result<NamedRule, AllocError>
    ensures { IsAtBoundary text.now ruling.now.origin
        → IfOk result (λ rule. named_of rule ≡ named text.now (sited_of text.now ruling.now)) }
{
    let directory = directory_of(alloc, text, ruling.origin)?;
    named_rule(alloc, rank_of(ruling.origin), directory, ruling.glob)
}

/// The glob of an override as it was written, if one matches.
fn written(alloc: Global, glob: &overrides::Glob<'_>) -> Result<Option<String>, AllocError>
    ensures { IfOk result (λ text. option_map string_bytes text ≡ option_map (λ rule. rule.original) glob.now) }
{
    match glob.rule() {
        Some(rule) => Ok(Some(String::from_str(alloc, rule.original())?)),
        None => Ok(None),
    }
}

/// The type that decides, by its name and its glob, if one matches.
fn named_type(alloc: Global, found: &types::Glob<'_>) -> Result<Option<NamedType>, AllocError>
    ensures { IfOk result (λ named. option_map typed_of named ≡ option_map typed found.now) }
{
    let Some(definition) = found.file_type_def() else {
        return Ok(None);
    };
    let Some(text) = found.glob() else {
        return Ok(None);
    };
    let name = String::from_str(alloc, definition.name())?;
    let glob = String::from_str(alloc, text)?;
    Ok(Some(NamedType { name, glob }))
}

/// What decides, by name.
fn caused_by(alloc: Global, text: &str, reason: &Reason<'_>) -> Result<Cause, AllocError>
    ensures { IsReasonInside text.now reason.now
        → IfOk result (λ cause. cited_of cause ≡ cited text.now (why_of text.now reason.now)) }
{
    match reason {
        Reason::Override(glob) => Ok(Cause::Override(written(alloc, glob)?)),
        Reason::Rule(ruling) => Ok(Cause::Rule(named(alloc, text, ruling)?)),
        Reason::Type(glob) => Ok(Cause::Type(named_type(alloc, glob)?)),
        Reason::Hidden => Ok(Cause::Hidden),
    }
}

/// For dependents: what decides, by name, of what was found by reference over a text.
///
/// # Errors
/// Out of memory.
pub fn causes(
    alloc: Global,
    text: &str,
    found: &Match<Reason<'_>>,
) -> Result<Match<Cause>, AllocError>
    ensures { IsInside text.now found.now → IfOk result (λ m. match_map cited_of m
        ≡ match_map (cited text.now) (match_map (why_of text.now) found.now)) }
{
    match found {
        Match::None => Ok(Match::None),
        Match::Ignore(reason) => Ok(Match::Ignore(caused_by(alloc, text, reason)?)),
        Match::Whitelist(reason) => Ok(Match::Whitelist(caused_by(alloc, text, reason)?)),
    }
}
