//! What becomes of a path by a matcher, and why, as C is told it; a guide's reasons are told so too.
ghost use Rattle.std.specs.Prelude.{◌≡◌, true, Ok, Err, IfOk, IfErr, is_some, option_map, string_bytes};
ghost use Rattle.ignore.specs.WalkWords.{Agrees, Stays, named_of, query, query_why, query_why_of};
ghost use Rattle.ignore_base.specs.Match.{match_map};
ghost use Rattle.ignore_kept.specs.Asks.{number_of, source_text};
ghost use Rattle.ignore_kept.specs.Explained.{AsksWhy, Explains, TellsReason, alone, cited_parts, explained_in, parts_of, rank_code, rule_parts, said_parts, texts_of, told_as, why_parts};
ghost use Rattle.ignore_kept.specs.Matching.{InScene};
ghost use Rattle.ignore_kept.specs.declared.stopped.Stopped.TheVariants.{Memory};
ghost use Rattle.ignore_why.specs.Cited.{cited_of, typed_of};
ghost use Rattle.ignore_why.specs.Cited.Cited.{on_override, on_type};

use crate::asker::{Asked, Found, code, rest_of};
use crate::kept::Kept;
use crate::room::text_of;
use crate::stopped::Stopped;
use ignore::files::MemoryTree;
use ignore::query_laws::what_is_kept_stays_right;
use ignore::{
    Cause, Explanation, IncrementalIgnore, IncrementalMatch, Match, NamedRule, NamedType, Reason,
    RuleRank,
};
use std::alloc::{AllocError, Global};

/// Why a matcher answers as it does, as C is told it: what kind of reason it is, in which list a
/// rule stands and the number of its line, 0 where that isn't known; a size and its limit; how many
/// bytes the texts have; whether the rule has a source, and whether the path is in an ignored
/// directory, whose reason it is.
#[repr(C)]
#[derive(Clone, Copy, Drop)]
pub struct Why {
    pub kind: u32,
    pub rank: u32,
    pub line: u64,
    pub size: u64,
    pub limit: u64,
    pub directory: usize,
    pub source: usize,
    pub pattern: usize,
    pub glob: usize,
    pub ancestor: usize,
    pub has_source: bool,
    pub is_inside: bool,
}

/// The same with the texts, which are of a reason.
#[derive(Clone, Copy)]
pub struct Lent<'r> {
    pub kind: u32,
    pub rank: u32,
    pub line: u64,
    pub size: u64,
    pub limit: u64,
    pub has_source: bool,
    pub is_inside: bool,
    /// The directory of the list of a rule.
    pub directory: &'r str,
    /// Where the line of a rule was read.
    pub source: &'r str,
    /// The line of a rule, a glob of a command line, or the name of a file type.
    pub pattern: &'r str,
    /// The glob of a file type.
    pub glob: &'r str,
    /// The ignored directory that the path is in.
    pub ancestor: &'r str,
}

/// What C is told: a number, what becomes of the path besides, why, and the texts of that.
#[derive(Drop)]
pub struct ToldReason {
    pub code: u32,
    pub found: Found,
    pub why: Why,
    pub text: Vec<u8>,
}

/// What becomes of a path, and why.
pub fn explain(alloc: Global, kept: &mut Kept, asked: Asked<'_>) -> ToldReason
    ensures { AsksWhy kept.old asked.entry.tree.now asked.entry.path.now asked.entry.is_dir result.code result.found result.why result.text.items kept.new }
{
    match ask(kept, asked) {
        Ok(explanation) => match told_of(alloc, explanation) {
            Ok(told) => told,
            Err(_) => untold(alloc, Stopped::Memory),
        },
        Err(stopped) => untold(alloc, stopped),
    }
}

/// The answer with its reason.
#[tactic(auto, using(crate::proofs::Explaining::explained))]
fn ask(kept: &mut Kept, asked: Asked<'_>) -> Result<Explanation, Stopped>
    ensures { Explains kept.old asked.entry.tree.now asked.entry.path.now asked.entry.is_dir (explained_in result) kept.new }
{
    let Kept::Matcher(matcher) = kept else {
        return Err(Stopped::Misused);
    };
    let Kept::Tree(tree) = asked.tree else {
        return Err(Stopped::Misused);
    };
    let Ok(path) = text_of(asked.path) else {
        return Err(Stopped::NotUtf8);
    };
    query(matcher, tree, path, asked.is_dir)
}

fn query(
    matcher: &mut IncrementalIgnore,
    tree: &MemoryTree,
    path: &str,
    is_dir: bool,
) -> Result<Explanation, Stopped>
    ensures value { InScene matcher.old tree.now (λ g. IfOk result (λ e. e.answer ≡ (query g path.now is_dir).0)) }
    ensures why { InScene matcher.old tree.now (λ g. IfOk result (λ e. query_why_of e.reason ≡ query_why g path.now is_dir)) }
    ensures agrees { InScene matcher.old tree.now (λ g. Agrees g matcher.new.cache) }
    ensures stays { Stays matcher.old.cache matcher.new.cache }
    ensures same { matcher.new.asked ≡ matcher.old.asked }
    ensures out_of_memory { IfErr result (λ e. e ≡ Memory) }
{
    tree.is_honest();
    what_is_kept_stays_right();
    let (explanation, _) = matcher.explain(tree, path, is_dir)?;
    Ok(explanation)
}

/// What is told of an answer with its reason.
pub(crate) fn told_of(alloc: Global, explanation: Explanation) -> Result<ToldReason, AllocError>
    ensures { IfOk result (λ t. TellsReason (explained_in (Ok explanation)) t.code t.found t.why t.text.items) }
{
    let parts = parts_of(&explanation.reason);
    let answer: Result<IncrementalMatch, Stopped> = Ok(explanation.answer);
    Ok(ToldReason {
        code: code(&answer),
        found: rest_of(&answer),
        why: told_as(&parts),
        text: texts_of(alloc, &parts)?,
    })
}

/// What is told where there is none.
pub(crate) fn untold(alloc: Global, stopped: Stopped) -> ToldReason
    ensures { TellsReason (Err stopped) result.code result.found result.why result.text.items }
{
    let answer: Result<IncrementalMatch, Stopped> = Err(stopped);
    ToldReason {
        code: code(&answer),
        found: rest_of(&answer),
        why: NO_WHY,
        text: Vec::new(alloc),
    }
}

const NO_WHY: Why = Why {
    kind: 0,
    rank: 0,
    line: 0,
    size: 0,
    limit: 0,
    directory: 0,
    source: 0,
    pattern: 0,
    glob: 0,
    ancestor: 0,
    has_source: false,
    is_inside: false,
};

/// The numbers of parts, and the lengths of their texts.
fn told_as(parts: &Lent<'_>) -> Why
    ensures { result ≡ told_as (parts_of parts.now) }
{
    Why {
        kind: parts.kind,
        rank: parts.rank,
        line: parts.line,
        size: parts.size,
        limit: parts.limit,
        directory: parts.directory.len(),
        source: parts.source.len(),
        pattern: parts.pattern.len(),
        glob: parts.glob.len(),
        ancestor: parts.ancestor.len(),
        has_source: parts.has_source,
        is_inside: parts.is_inside,
    }
}

/// The texts of parts, one after the other.
fn texts_of(alloc: Global, parts: &Lent<'_>) -> Result<Vec<u8>, AllocError>
    ensures { IfOk result (λ text. text.items ≡ texts_of (parts_of parts.now)) }
{
    let mut text = Vec::from_slice(alloc, parts.directory.as_bytes())?;
    text.extend_from_slice(parts.source.as_bytes())?;
    text.extend_from_slice(parts.pattern.as_bytes())?;
    text.extend_from_slice(parts.glob.as_bytes())?;
    text.extend_from_slice(parts.ancestor.as_bytes())?;
    Ok(text)
}

/// The parts of a reason.
fn parts_of(reason: &Reason) -> Lent<'_>
    ensures { parts_of result ≡ why_parts (query_why_of reason.now) }
{
    match reason {
        Reason::Unasked => alone(1),
        Reason::Unruled => alone(2),
        Reason::TooShallow => alone(3),
        Reason::TooDeep => alone(4),
        Reason::Decided(said) => said_parts(said),
        Reason::Larger { size, limit } => size_parts(*size, *limit),
        Reason::Inside { directory, cause } => inside_parts(directory.as_str(), said_parts(cause)),
    }
}

/// A size and its limit.
fn size_parts<'r>(size: u64, limit: u64) -> Lent<'r>
    ensures { parts_of result ≡ record (alone 12) { size = size; limit = limit } }
{
    Lent {
        size,
        limit,
        ..alone(12)
    }
}

/// The parts of the reason of a directory, for a path in it.
fn inside_parts<'r>(directory: &'r str, parts: Lent<'r>) -> Lent<'r>
    ensures { parts_of result ≡ record (parts_of parts.entry) { is_inside = true; ancestor = directory.now } }
{
    Lent {
        is_inside: true,
        ancestor: directory,
        ..parts
    }
}

fn said_parts(said: &Match<Cause>) -> Lent<'_>
    ensures { parts_of result ≡ said_parts (match_map cited_of said.now) }
{
    match said {
        Match::None => alone(5),
        Match::Ignore(cause) => cause_parts(cause),
        Match::Whitelist(cause) => cause_parts(cause),
    }
}

fn cause_parts(cause: &Cause) -> Lent<'_>
    ensures { parts_of result ≡ cited_parts (cited_of cause.now) }
{
    match cause {
        Cause::Rule(rule) => rule_parts(rule),
        Cause::Override(glob) => override_parts(glob),
        Cause::Type(found) => type_parts(found),
        Cause::Hidden => alone(11),
    }
}

/// A glob of a command line, or that none matches.
fn override_parts(glob: &Option<String>) -> Lent<'_>
    ensures { parts_of result ≡ cited_parts (on_override (option_map string_bytes glob.now)) }
{
    match glob {
        Some(glob) => pattern_parts(7, glob.as_str(), ""),
        None => alone(8),
    }
}

/// A file type, or that none matches.
fn type_parts(found: &Option<NamedType>) -> Lent<'_>
    ensures { parts_of result ≡ cited_parts (on_type (option_map typed_of found.now)) }
{
    match found {
        Some(found) => pattern_parts(9, found.name.as_str(), found.glob.as_str()),
        None => alone(10),
    }
}

/// A kind with a pattern and a glob.
fn pattern_parts<'r>(kind: u32, pattern: &'r str, glob: &'r str) -> Lent<'r>
    ensures { parts_of result ≡ record (alone kind) { pattern = pattern.now; glob = glob.now } }
{
    Lent {
        pattern,
        glob,
        ..alone(kind)
    }
}

fn rule_parts(rule: &NamedRule) -> Lent<'_>
    ensures { parts_of result ≡ rule_parts (named_of rule.now) }
{
    Lent {
        rank: rank_code(rule.rank),
        line: rule.line.unwrap_or(0),
        has_source: rule.source.is_some(),
        directory: text_in(&rule.directory),
        source: text_in(&rule.source),
        pattern: rule.original.as_str(),
        ..alone(6)
    }
}

/// A text; empty where there is none.
fn text_in(text: &Option<String>) -> &str
    ensures { result.now ≡ source_text (option_map string_bytes text.now) }
{
    match text {
        None => "",
        Some(text) => text.as_str(),
    }
}

/// The number of a list of rules, in the order in which they are asked.
fn rank_code(rank: RuleRank) -> u32
    ensures { result ≡ rank_code rank }
{
    match rank {
        RuleRank::Custom => 1,
        RuleRank::Ignore => 2,
        RuleRank::Gitignore => 3,
        RuleRank::Exclude => 4,
        RuleRank::Global => 5,
        RuleRank::Explicit => 6,
    }
}

/// A kind alone; 0 is that of no reason.
fn alone<'r>(kind: u32) -> Lent<'r>
    ensures { parts_of result ≡ alone kind }
{
    Lent {
        kind,
        rank: 0,
        line: 0,
        size: 0,
        limit: 0,
        has_source: false,
        is_inside: false,
        directory: "",
        source: "",
        pattern: "",
        glob: "",
        ancestor: "",
    }
}
