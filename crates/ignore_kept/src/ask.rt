//! What the rules of a handle say of a path.
ghost use Rattle.std.specs.Prelude.{◌≡◌, ◌++◌, [], IfOk, IfErr, Ok, Err, slice_get, string_bytes};
ghost use Rattle.ignore_base.specs.Match.{match_map};
ghost use Rattle.ignore_kept.specs.Asks.{Asks, AsksCode, Counted, Explains, Lists, TellsRule, listed, match_reason, no_reason, match_text, reason_of, rule_text, source_text};
ghost use Rattle.ignore_kept.specs.Codes.{match_code};
ghost use Rattle.ignore_kept.specs.Stops.{stop_code};
ghost use Rattle.ignore_kept.specs.declared.ask.Manner.TheVariants as manner;

use crate::as_git::matched_as_git;
use crate::kept::Kept;
use crate::room::text_of;
use crate::rule::{Counts, Reason};
use crate::stopped::Stopped;
use ignore::Match;
use ignore::gitignore::{Gitignore, Glob};
use std::alloc::{AllocError, Global};

/// How a path is asked about.
#[derive(Clone, Copy, Drop)]
pub enum Manner {
    /// By itself.
    Alone,
    /// Or else its nearest parent that has a match.
    WithParents,
    /// From the root down: an ignored directory that it is in decides.
    AsGit,
}

/// A path that is asked about.
#[derive(Clone, Copy, Drop)]
pub struct Question<'q> {
    pub path: &'q [u8],
    pub is_dir: bool,
    pub manner: Manner,
}

/// A path by itself.
pub fn alone(path: &[u8], is_dir: bool) -> Question<'_>
    ensures path { result.path.now ≡ path.now }
    ensures is_dir { result.is_dir ≡ is_dir }
    ensures manner { result.manner ≡ manner.Alone }
{
    Question {
        path,
        is_dir,
        manner: Manner::Alone,
    }
}

/// A path with its parents.
pub fn with_parents(path: &[u8], is_dir: bool) -> Question<'_>
    ensures path { result.path.now ≡ path.now }
    ensures is_dir { result.is_dir ≡ is_dir }
    ensures manner { result.manner ≡ manner.WithParents }
{
    Question {
        path,
        is_dir,
        manner: Manner::WithParents,
    }
}

/// A path as git asks about it.
pub fn as_git(path: &[u8], is_dir: bool) -> Question<'_>
    ensures path { result.path.now ≡ path.now }
    ensures is_dir { result.is_dir ≡ is_dir }
    ensures manner { result.manner ≡ manner.AsGit }
{
    Question {
        path,
        is_dir,
        manner: Manner::AsGit,
    }
}

/// What C is told: a number, and the rule that decided.
#[derive(Drop)]
pub struct ToldRule {
    pub code: u32,
    pub reason: Reason,
    pub text: Vec<u8>,
}

/// What the rules say.
fn ask<'k>(kept: &'k Kept, asked: Question<'_>) -> Result<Match<&'k Glob>, Stopped>
    ensures answered { IfOk result (λ m. Asks kept.now asked.entry.manner asked.entry.path.now asked.entry.is_dir (Ok (match_map (λ g. g.now) m))) }
    ensures refused { IfErr result (λ e. Asks kept.now asked.entry.manner asked.entry.path.now asked.entry.is_dir (Err e)) }
{
    let Kept::Rules(rules) = kept else {
        return Err(Stopped::Misused);
    };
    let path = text_of(asked.path)?;
    match asked.manner {
        Manner::Alone => Ok(rules.matched(path, asked.is_dir)?),
        Manner::WithParents => {
            if !rules.is_under_root(path) {
                return Err(Stopped::Outside);
            }
            Ok(rules.matched_path_or_any_parents(path, asked.is_dir)?)
        }
        Manner::AsGit => Ok(matched_as_git(rules, path, asked.is_dir)?),
    }
}

fn match_code(found: &Match<&Glob>) -> u32
    ensures { result ≡ match_code (match_map (λ g. g.now) found.now) }
{
    match found {
        Match::None => 1,
        Match::Ignore(_) => 2,
        Match::Whitelist(_) => 3,
    }
}

/// The number of what the rules say.
pub fn code(kept: &Kept, asked: Question<'_>) -> u32
    ensures { AsksCode kept.now asked.entry.manner asked.entry.path.now asked.entry.is_dir result }
{
    match ask(kept, asked) {
        Ok(found) => match_code(&found),
        Err(stopped) => stopped.code(),
    }
}

/// What the rules say, with the rule that decided.
pub fn explain(alloc: Global, kept: &Kept, asked: Question<'_>) -> ToldRule
    ensures { Explains kept.now asked.entry.manner asked.entry.path.now asked.entry.is_dir result.code result.reason result.text.items }
{
    match ask(kept, asked) {
        Ok(found) => match text_of_match(alloc, &found) {
            Ok(text) => ToldRule {
                code: match_code(&found),
                reason: reason_of_match(&found),
                text,
            },
            Err(_) => untold(alloc, Stopped::Memory),
        },
        Err(stopped) => untold(alloc, stopped),
    }
}

/// The rule at an index: whether it ignores or whitelists, and its parts.
pub fn rule(alloc: Global, kept: &Kept, index: usize) -> ToldRule
    ensures { TellsRule kept.now index result.code result.reason result.text.items }
{
    match list(kept, index) {
        Ok(found) => match text_of_match(alloc, &found) {
            Ok(text) => ToldRule {
                code: match_code(&found),
                reason: reason_of_match(&found),
                text,
            },
            Err(_) => untold(alloc, Stopped::Memory),
        },
        Err(stopped) => untold(alloc, stopped),
    }
}

fn list(kept: &Kept, index: usize) -> Result<Match<&Glob>, Stopped>
    ensures listed { IfOk result (λ m. Lists kept.now index (Ok (match_map (λ g. g.now) m))) }
    ensures refused { IfErr result (λ e. Lists kept.now index (Err e)) }
{
    let Kept::Rules(rules) = kept else {
        return Err(Stopped::Misused);
    };
    Ok(listed(rules, index))
}

fn listed(rules: &Gitignore, index: usize) -> Match<&Glob>
    ensures { match_map (λ g. g.now) result ≡ listed (slice_get rules.now.rules index) }
{
    match rules.rules().get(index) {
        None => Match::None,
        Some(rule) if rule.is_whitelist() => Match::Whitelist(rule),
        Some(rule) => Match::Ignore(rule),
    }
}

/// No answer.
fn untold(alloc: Global, stopped: Stopped) -> ToldRule
    ensures code { result.code ≡ stop_code stopped }
    ensures reason { result.reason ≡ no_reason }
    ensures text { result.text.items ≡ [] }
{
    ToldRule {
        code: stopped.code(),
        reason: NO_REASON,
        text: Vec::new(alloc),
    }
}

const NO_REASON: Reason = Reason {
    line: 0,
    source: 0,
    pattern: 0,
    glob: 0,
    has_source: false,
    is_only_dir: false,
};

fn reason_of_match(found: &Match<&Glob>) -> Reason
    ensures { result ≡ match_reason (match_map (λ g. g.now) found.now) }
{
    match found {
        Match::None => NO_REASON,
        Match::Ignore(rule) => reason_of(rule),
        Match::Whitelist(rule) => reason_of(rule),
    }
}

fn reason_of(rule: &Glob) -> Reason
    ensures { result ≡ reason_of rule.now }
{
    Reason {
        line: rule.line().unwrap_or(0),
        source: source_text(rule).len(),
        pattern: rule.original().len(),
        glob: rule.actual().len(),
        has_source: rule.from().is_some(),
        is_only_dir: rule.is_only_dir(),
    }
}

fn source_text(rule: &Glob) -> &str
    ensures { result.now ≡ source_text rule.now.from }
{
    match rule.from() {
        None => "",
        Some(path) => path,
    }
}

fn text_of_match(alloc: Global, found: &Match<&Glob>) -> Result<Vec<u8>, AllocError>
    ensures { IfOk result (λ text. text.items ≡ match_text (match_map (λ g. g.now) found.now)) }
{
    match found {
        Match::None => Ok(Vec::new(alloc)),
        Match::Ignore(rule) => rule_text(alloc, rule),
        Match::Whitelist(rule) => rule_text(alloc, rule),
    }
}

fn rule_text(alloc: Global, rule: &Glob) -> Result<Vec<u8>, AllocError>
    ensures { IfOk result (λ text. text.items ≡ rule_text rule.now) }
{
    let mut text = Vec::from_slice(alloc, source_text(rule).as_bytes())?;
    text.extend_from_slice(rule.original().as_bytes())?;
    text.extend_from_slice(rule.actual().as_bytes())?;
    Ok(text)
}

/// How many rules there are.
pub fn count(kept: &Kept) -> (u32, Counts)
    ensures { Counted kept.now result.0 result.1 }
{
    let Kept::Rules(rules) = kept else {
        return (Stopped::Misused.code(), NO_COUNTS);
    };
    let counts = Counts {
        ignores: rules.num_ignores(),
        whitelists: rules.num_whitelists(),
    };
    (0, counts)
}

const NO_COUNTS: Counts = Counts {
    ignores: 0,
    whitelists: 0,
};
