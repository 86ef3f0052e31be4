//! Rules with `!` that re-include nothing.
ghost use Rattle.std.specs.Prelude.{◌≡◌, ◌++◌, ◌+◌, ◌<◌, IfOk, IfSome, None, OnOk, Some, drop, length, slice_get, take, true};
ghost use Rattle.std.specs.Option.{option_copied, option_to_list};
ghost use Rattle.ignore_every.specs.Verdicts.{SaySame};
ghost use Rattle.ignore_every.specs.declared.said.Counted.TheVariants.{Ignored};
ghost use Rattle.ignore_rules.specs.Rules.{Building, built};
ghost use Rattle.ig_every.specs.Judged.{IsWritten, line_in};
ghost use Rattle.ig_every.specs.Notes.{AddsTexts, AreNotes, IsIdle, IsMarked, IsNote, others};
ghost use Rattle.ig_every.specs.Reading.{begun_by};
ghost use Rattle.ig_every.specs.declared.diagnostic.Wrong.{Wrong};

use crate::compared::MOST_STATES;
use crate::dead::{line_of, text_of};
use crate::diagnostic::{Diagnostic, Wrong};
use crate::reading::{HowRead, begin};
use ignore_base::Error;
use ignore_every::{
    Comparison, Counted, Difference, Error as Refused, Question, Said, Wanted, compare, differences,
};
use ignore_files::Name;
use ignore_rules::gitignore::{Gitignore, GitignoreBuilder, Glob};
use ignore_rules::internal::applies;
use std::alloc::{AllocError, Global};

/// How many paths are looked at, at most, that rules with `!` re-include.
const MOST_PATHS: usize = 1_000;

/// How many rules, at most, are left out in turn to see whether the others ignore the same.
const MOST_TRIED: usize = 32;

/// The rules of a file, how they are read, and what is wrong with each.
#[derive(Clone, Copy)]
pub(crate) struct Judged<'a> {
    pub(crate) alloc: Global,
    pub(crate) how: HowRead,
    pub(crate) rules: &'a Gitignore,
    pub(crate) found: &'a [Option<Diagnostic>],
}

/// Of the rules with which nothing is wrong, those with `!` that re-include nothing: without such a rule
/// the others ignore the same paths. A rule is left out of this where finding it out takes too many
/// states, or too many rules come before.
///
/// # Errors
/// Out of memory.
pub(crate) fn note_rules(judged: Judged<'_>) -> Result<Vec<Diagnostic>, AllocError>
    ensures { IfOk result (λ notes. AreNotes judged.entry.how judged.entry.rules.now.rules judged.entry.found.now (length judged.entry.rules.now.rules) notes.items) }
{
    let mut notes = Vec::new(judged.alloc);
    let useful = useful_rules(judged)?;
    let mut tried = 0usize;
    let rules = judged.rules.rules();
    for index in 0..rules.len() {
        let note = note_on(judged, useful.as_slice(), index, &mut tried)?;
        push_some(note, &mut notes)?;
    }
    Ok(notes)
}

/// Adds a note, if there is one.
fn push_some(note: Option<Diagnostic>, notes: &mut Vec<Diagnostic>) -> Result<(), AllocError>
    ensures { OnOk result (notes.new.items ≡ notes.old.items ++ option_to_list note) }
{
    if let Some(note) = note {
        notes.push(note)?;
    }
    Ok(())
}

/// The note on the rule with an index, where it re-includes nothing. `tried` counts for how many rules
/// this was looked for.
fn note_on(
    judged: Judged<'_>,
    useful: &[bool],
    index: usize,
    tried: &mut usize,
) -> Result<Option<Diagnostic>, AllocError>
    requires { index < length judged.rules.now.rules }
    ensures { IfOk result (λ note. IfSome note (IsNote judged.entry.how judged.entry.rules.now.rules judged.entry.found.now index)) }
{
    if *tried >= MOST_TRIED || !is_open(judged, useful, index) {
        return Ok(None);
    }
    *tried += 1;
    if !is_idle(judged, index)? {
        return Ok(None);
    }
    let note = note_of(judged, index)?;
    Ok(Some(note))
}

/// Whether a rule has to be left out to see whether it re-includes anything: it has a `!`, nothing is
/// wrong with it, and no path is known that it re-includes.
fn is_open(judged: Judged<'_>, useful: &[bool], index: usize) -> bool
    ensures { result ≡ true → IsMarked (slice_get judged.entry.rules.now.rules index) × (slice_get judged.entry.found.now index ≡ Some None) }
{
    is_marked(judged.rules.rules(), index)
        && is_well(judged.found.get(index))
        && !is_set(useful.get(index))
}

/// Whether the rule with an index has a `!`.
fn is_marked(rules: &[Glob], index: usize) -> bool
    ensures { result ≡ true → IsMarked (slice_get rules.now index) }
{
    match rules.get(index) {
        Some(rule) => rule.is_whitelist(),
        None => false,
    }
}

/// Whether nothing is wrong with a rule.
fn is_well(found: Option<&Option<Diagnostic>>) -> bool
    ensures { result ≡ true → option_copied found.entry ≡ Some None }
{
    match found {
        Some(one) => one.is_none(),
        None => false,
    }
}

/// Whether a mark is there and set.
fn is_set(mark: Option<&bool>) -> bool {
    match mark {
        Some(set) => *set,
        None => false,
    }
}

/// For each rule, whether a path is known that it re-includes. None is known where no rule has a `!`.
fn useful_rules(judged: Judged<'_>) -> Result<Vec<bool>, AllocError> {
    if judged.rules.num_whitelists() == 0 {
        return Ok(Vec::new(judged.alloc));
    }
    let rules = judged.rules.rules();
    let mut useful = vec![in judged.alloc; false; rules.len()]?;
    for difference in &re_included(judged)? {
        if let Some(index) = re_included_by(rules, difference)? {
            set(useful.as_mut_slice(), index);
        }
    }
    Ok(useful)
}

/// Sets the mark with an index.
fn set(marks: &mut [bool], index: usize) {
    if let Some(mark) = marks.get_mut(index) {
        *mark = true;
    }
}

/// Paths that would be ignored if there were no rules with `!`.
fn re_included(judged: Judged<'_>) -> Result<Vec<Difference>, AllocError> {
    let alloc = judged.alloc;
    let wanted = Wanted {
        counted: Counted::Ignored,
        most: MOST_PATHS,
    };
    let Some(bare) = known(ignoring_rules(judged))? else {
        return Ok(Vec::new(alloc));
    };
    match differences(alloc, &bare, judged.rules, wanted, MOST_STATES) {
        Ok(found) => Ok(found),
        Err(Refused::Memory) => Err(AllocError),
        Err(_) => Ok(Vec::new(alloc)),
    }
}

/// The rule that re-includes a path, where the others without it ignore that: of them the last one that
/// applies does.
fn re_included_by(rules: &[Glob], difference: &Difference) -> Result<Option<usize>, AllocError> {
    let Said::Whitelisted(index) = &difference.new else {
        return Ok(None);
    };
    let ignored = is_ignored_by_others(rules, *index, &difference.question)?;
    Ok(if ignored { Some(*index) } else { None })
}

/// Whether of the rules but the one with an index the last that applies to a path ignores it.
fn is_ignored_by_others(
    rules: &[Glob],
    index: usize,
    question: &Question,
) -> Result<bool, AllocError> {
    let mut ignored = false;
    for (place, rule) in rules.iter().enumerate() {
        if place != index && applies(rule, question.path.as_str(), question.is_dir)? {
            ignored = !rule.is_whitelist();
        }
    }
    Ok(ignored)
}

/// Whether the other rules without the one with an index ignore the same paths.
fn is_idle(judged: Judged<'_>, index: usize) -> Result<bool, AllocError>
    requires { index < length judged.rules.now.rules }
    ensures { IfOk result (λ idle. idle ≡ true → IsIdle judged.entry.how judged.entry.rules.now.rules index) }
{
    match rules_without(judged, index) {
        Ok(rest) => are_same(judged, &rest),
        Err(Error::Memory) => Err(AllocError),
        Err(_) => Ok(false),
    }
}

/// Whether these rules ignore the same paths.
fn are_same(judged: Judged<'_>, rest: &Gitignore) -> Result<bool, AllocError>
    ensures { IfOk result (λ same. same ≡ true → SaySame Ignored rest.now.rules judged.entry.rules.now.rules) }
{
    let counted = Counted::Ignored;
    match compare(judged.alloc, rest, judged.rules, counted, MOST_STATES) {
        Ok(Comparison::Same) => Ok(true),
        Ok(Comparison::Differ(_)) => Ok(false),
        Err(Refused::Memory) => Err(AllocError),
        Err(_) => Ok(false),
    }
}

/// The rules without the one with an index, as a list of their own.
fn rules_without(judged: Judged<'_>, index: usize) -> Result<Gitignore, Error>
    requires { index < length judged.rules.now.rules }
    ensures { IfOk result (λ made. (rest : Building) × AddsTexts (others judged.entry.rules.now.rules index) (begun_by judged.entry.how) rest
        × (made ≡ built rest)) }
{
    let rules = judged.rules.rules();
    let mut builder = begin(judged.alloc, judged.how)?;
    push_rules(rules_before(rules, index), &mut builder)?;
    push_rules(rules_after(rules, index), &mut builder)?;
    Ok(builder.into_gitignore())
}

/// The rules before the one with an index.
fn rules_before(rules: &[Glob], index: usize) -> &[Glob]
    requires { index < length rules.now }
    ensures { result.now ≡ take index rules.now }
{
    &rules[..index]
}

/// The rules after the one with an index.
fn rules_after(rules: &[Glob], index: usize) -> &[Glob]
    requires { index < length rules.now }
    ensures { result.now ≡ drop (index + 1) rules.now }
{
    &rules[index + 1..]
}

/// Adds the lines of rules.
fn push_rules(rules: &[Glob], builder: &mut GitignoreBuilder) -> Result<(), Error>
    ensures { OnOk result (AddsTexts rules.now builder.old builder.new) }
{
    for rule in rules {
        builder.push_line(None, rule.original())?;
    }
    Ok(())
}

/// The rules without a `!`, as a list of their own.
fn ignoring_rules(judged: Judged<'_>) -> Result<Gitignore, Error> {
    let mut builder = begin(judged.alloc, judged.how)?;
    for rule in judged.rules.rules() {
        if !rule.is_whitelist() {
            builder.push_line(None, rule.original())?;
        }
    }
    Ok(builder.into_gitignore())
}

/// A list of rules, where it could be made.
fn known(made: Result<Gitignore, Error>) -> Result<Option<Gitignore>, AllocError> {
    match made {
        Ok(rules) => Ok(Some(rules)),
        Err(Error::Memory) => Err(AllocError),
        Err(_) => Ok(None),
    }
}

/// The note on the rule with an index.
fn note_of(judged: Judged<'_>, index: usize) -> Result<Diagnostic, AllocError>
    requires { index < length judged.rules.now.rules }
    ensures line { IfOk result (λ d. d.line ≡ line_in judged.entry.rules.now.rules index) }
    ensures written { IfOk result (λ d. IsWritten d.rule (slice_get judged.entry.rules.now.rules index)) }
    ensures wrong { IfOk result (λ d. d.wrong ≡ Wrong.NoEffect) }
{
    let rules = judged.rules.rules();
    Ok(Diagnostic {
        line: line_of(rules, index),
        rule: Name::from_str(judged.alloc, text_of(rules, index))?,
        wrong: Wrong::NoEffect,
    })
}
