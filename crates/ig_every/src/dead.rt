//! Rules that decide on no path, or on none that is reached.
ghost use Rattle.std.specs.Prelude.{◌≡◌, ◌<◌, ℕ, true, IfOk, IfSome, List, length, map, slice_get};
ghost use Rattle.ignore_base.specs.Text.{Bytes};
ghost use Rattle.ignore_every.specs.Findings.{AreRightFindings, DecidesNever, IsExample, IsRightFinding};
ghost use Rattle.ignore_rules.specs.Rules.{Rule};
ghost use Rattle.ig_every.specs.Judged.{AreJudged, IsAgain, IsJudged, IsOverruled, IsSo, IsWritten, IsWrong, line_in};

use crate::compared::{MOST_STATES, is_large};
use crate::diagnostic::{Diagnostic, Wrong};
use ignore_every::{Analysis, Error, Example, Finding};
use ignore_files::Name;
use ignore_rules::gitignore::{Gitignore, Glob};
use std::alloc::{AllocError, Global};

/// What is wrong with each rule, in their order, if anything is.
///
/// # Errors
/// `Error::TooLarge` where the rules are too many or too long, and where more than `MOST_STATES` states
/// are needed; `Error::Rejected`, and `Error::Memory`.
pub(crate) fn lint_rules(alloc: Global, rules: &Gitignore) -> Result<Vec<Option<Diagnostic>>, Error>
    ensures { IfOk result (λ all. AreJudged rules.now.rules all.items) }
{
    if is_large(rules.rules()) {
        return Err(Error::TooLarge);
    }
    let analysis = Analysis::of(alloc, rules, MOST_STATES)?;
    let all = judged_of(alloc, rules.rules(), &analysis.findings)?;
    Ok(all)
}

/// What is wrong with each rule, of which these were found.
fn judged_of(
    alloc: Global,
    rules: &[Glob],
    findings: &[Finding],
) -> Result<Vec<Option<Diagnostic>>, AllocError>
    requires right { AreRightFindings rules.now findings.now }
    ensures { IfOk result (λ all. AreJudged rules.now all.items) }
{
    let mut all = Vec::new(alloc);
    for index in 0..rules.len() {
        let one = diagnostic_of(alloc, rules, index, &findings[index])?;
        all.push(one)?;
    }
    Ok(all)
}

/// What is wrong with the rule with an index, of which this was found, if anything is.
#[tactic(auto, using(crate::proofs::JudgeLemmas::is_named))]
fn diagnostic_of(
    alloc: Global,
    rules: &[Glob],
    index: usize,
    finding: &Finding,
) -> Result<Option<Diagnostic>, AllocError>
    requires within { index < length rules.now }
    requires right { IsRightFinding rules.now index finding.now }
    ensures { IfOk result (IsJudged rules.now index) }
{
    let text = text_of(rules, index);
    let Some(wrong) = wrong_of(alloc, rules, index, text, finding)? else {
        return Ok(None);
    };
    Ok(Some(Diagnostic {
        line: line_of(rules, index),
        rule: Name::from_str(alloc, text)?,
        wrong,
    }))
}

/// How the rule with an index is written.
#[tactic(auto, using(crate::proofs::JudgeLemmas::written))]
pub(crate) fn text_of(rules: &[Glob], index: usize) -> &str
    requires within { index < length rules.now }
    ensures { IsWritten result.now (slice_get rules.now index) }
{
    rules[index].original()
}

/// What is wrong with the rule with an index, which is written so and of which this was found, if
/// anything is: that the same stands again, before all else. A rule that does decides on nothing, so
/// that of one which decides no other is looked for.
fn wrong_of(
    alloc: Global,
    rules: &[Glob],
    index: usize,
    text: &str,
    finding: &Finding,
) -> Result<Option<Wrong>, AllocError>
    requires right { IsRightFinding rules.now index finding.now }
    ensures { IfOk result (IsWrong rules.now index text.now) }
{
    let Some(wrong) = found_wrong(alloc, rules, index, finding)? else {
        return Ok(None);
    };
    match again_after(rules, index, text) {
        Some(line) => Ok(Some(Wrong::Again(line))),
        None => Ok(Some(wrong)),
    }
}

/// What is wrong with the rule with an index, of which this was found.
fn found_wrong(
    alloc: Global,
    rules: &[Glob],
    index: usize,
    finding: &Finding,
) -> Result<Option<Wrong>, AllocError>
    requires right { IsRightFinding rules.now index finding.now }
    ensures { (text : Bytes) → IfOk result (IsWrong rules.now index text) }
{
    match finding {
        Finding::Live(_) => Ok(None),
        Finding::DeadByFolders(example) => Ok(Some(hidden(rules, example)?)),
        Finding::Overruled(named) => Ok(Some(overruled(lines_of(alloc, rules, named)?))),
        Finding::Unreached => Ok(Some(Wrong::Unreached)),
    }
}

/// That a rule decides in ignored folders alone, as in that of an example.
fn hidden(rules: &[Glob], example: &Example) -> Result<Wrong, AllocError>
    ensures { (index : ℕ) (text : Bytes) → DecidesNever true rules.now index → IsExample rules.now index example.now
        → IfOk result (IsSo rules.now index text) }
{
    let folder = Name::new(example.folder.clone()?);
    Ok(Wrong::InFolders(folder, line_of(rules, example.rule)))
}

/// That the rules of these lines decide wherever one applies: it applies to nothing, where there are
/// none.
fn overruled(lines: Vec<u64>) -> Wrong
    ensures { (rules : List Rule) (index : ℕ) (text : Bytes) → IsOverruled rules index lines.items → IsSo rules index text result }
{
    if lines.is_empty() {
        Wrong::Nothing
    } else {
        Wrong::Overruled(lines)
    }
}

/// The line of the first rule after an index that is written so.
#[tactic(auto, using(crate::proofs::JudgeLemmas::is_again))]
fn again_after(rules: &[Glob], index: usize, text: &str) -> Option<u64>
    ensures { IfSome result (IsAgain rules.now index text.now) }
{
    for place in index..rules.len() {
        if index < place && text_of(rules, place) == text {
            return Some(line_of(rules, place));
        }
    }
    None
}

/// The lines of the rules with these indices.
fn lines_of(alloc: Global, rules: &[Glob], indices: &[usize]) -> Result<Vec<u64>, AllocError>
    ensures { IfOk result (λ lines. lines.items ≡ map (line_in rules.now) indices.now) }
{
    let mut lines = Vec::new(alloc);
    for index in indices {
        lines.push(line_of(rules, *index))?;
    }
    Ok(lines)
}

/// The line of the rule with an index; 0 for none.
pub(crate) fn line_of(rules: &[Glob], index: usize) -> u64
    ensures { result ≡ line_in rules.now index }
{
    match rules.get(index) {
        Some(rule) => rule.line().unwrap_or(0),
        None => 0,
    }
}
