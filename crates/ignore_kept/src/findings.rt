//! Which rules of a handle can't decide, over all paths, as C is told it.
ghost use Rattle.std.specs.Prelude.{◌≡◌, ◌++◌, ◌∷◌, [], IfOk, IfErr, OnOk, Some, cond, length, slice_get};
ghost use Rattle.ignore_kept.specs.Findings.{AreDeadBelow, AreFindings, Finds, TellsFinding, TellsOverruling, TellsRule, alone, example_parts, is_dead, named_by, named_in, no_dead, overruled_parts, overruling_at, parts_in, parts_of, texts_of, told_as};
ghost use Rattle.ignore_kept.specs.Kinds.{findings_in};
ghost use Rattle.ignore_kept.specs.Judging.{IsUnjudged};

use crate::kept::Kept;
use crate::stopped::Stopped;
use ignore::every::{Analysis, Example, Finding};
use ignore::gitignore::Gitignore;
use std::alloc::{AllocError, Global};

/// What is found of rules, over all paths.
#[derive(Drop)]
pub struct Findings {
    /// What is found of each rule, in their order.
    pub all: Vec<Finding>,
    /// The indices of the rules that decide on no question which they reach, in order.
    pub dead: Vec<usize>,
}

/// A rule that decides on no question which the rules reach, as C is told it: what kind of finding it
/// is; the index of the rule; how many rules overrule it; how many bytes the path of an example and
/// the folder in it have, the rule that ignores this folder, and whether the path is a directory's.
#[repr(C)]
#[derive(Clone, Copy, Drop)]
pub struct Dead {
    pub kind: u32,
    pub rule: usize,
    pub overruling: usize,
    pub path: usize,
    pub folder: usize,
    pub folder_rule: usize,
    pub is_dir: bool,
}

/// The same without the rule, and with the texts, which are of a finding.
#[derive(Clone, Copy)]
pub struct Parts<'f> {
    pub kind: u32,
    pub overruling: usize,
    pub path: &'f str,
    pub folder: &'f str,
    pub folder_rule: usize,
    pub is_dir: bool,
}

/// What C is told: a number, a dead rule, and the texts of its example.
#[derive(Drop)]
pub struct ToldFinding {
    pub code: u32,
    pub dead: Dead,
    pub text: Vec<u8>,
}

/// What is found of the rules of a handle, with at most so many states.
#[tactic(auto, using(crate::proofs::Judged::finds, crate::proofs::Judged::finds_none))]
pub fn find(alloc: Global, kept: &Kept, limit: usize) -> Result<Kept, Stopped>
    ensures { Finds kept.now result }
{
    let Kept::Rules(rules) = kept else {
        return Err(Stopped::Misused);
    };
    let found = found_of(alloc, rules, limit)?;
    Ok(Kept::Findings(found))
}

#[tactic(auto, using(crate::proofs::DeadRules::are_findings, crate::proofs::Judged::unjudged, crate::proofs::Judged::unjudged_full))]
fn found_of(alloc: Global, rules: &Gitignore, limit: usize) -> Result<Findings, Stopped>
    ensures found { IfOk result (AreFindings rules.now.rules) }
    ensures unjudged { IfErr result IsUnjudged }
{
    let analysis = Analysis::of(alloc, rules, limit)?;
    let dead = dead_of(alloc, &analysis.findings)?;
    Ok(Findings {
        all: analysis.findings,
        dead,
    })
}

/// The indices of the dead rules.
fn dead_of(alloc: Global, findings: &[Finding]) -> Result<Vec<usize>, AllocError>
    ensures { IfOk result (λ dead. AreDeadBelow findings.now (length findings.now) dead.items) }
{
    let mut dead = Vec::new(alloc);
    for index in 0..findings.len() {
        push_dead(&mut dead, findings, index)?;
    }
    Ok(dead)
}

/// Adds an index, where its rule is dead.
fn push_dead(dead: &mut Vec<usize>, findings: &[Finding], index: usize) -> Result<(), AllocError>
    ensures { OnOk result (dead.new.items ≡ cond (is_dead (slice_get findings.now index)) (dead.old.items ++ index ∷ []) dead.old.items) }
{
    if is_dead_at(findings, index) {
        dead.push(index)?;
    }
    Ok(())
}

fn is_dead_at(findings: &[Finding], index: usize) -> bool
    ensures { result ≡ is_dead (slice_get findings.now index) }
{
    match findings.get(index) {
        None => false,
        Some(finding) => is_dead(finding),
    }
}

/// Whether a rule, of which this was found, decides on no question that is reached.
fn is_dead(finding: &Finding) -> bool
    ensures { result ≡ is_dead (Some finding.now) }
{
    match finding {
        Finding::Live(_) => false,
        Finding::DeadByFolders(_) => true,
        Finding::Overruled(_) => true,
        Finding::Unreached => true,
    }
}

/// What is found of the dead rule at an index of these.
pub fn rule(alloc: Global, kept: &Kept, index: usize) -> ToldFinding
    ensures { TellsFinding (findings_in kept.now) index result.code result.dead result.text.items }
{
    let Kept::Findings(found) = kept else {
        return untold(alloc, Stopped::Misused.code());
    };
    match found.dead.get(index) {
        None => untold(alloc, 1),
        Some(rule) => told_rule(alloc, &found.all, *rule),
    }
}

/// What is found of the rule with an index.
fn told_rule(alloc: Global, findings: &[Finding], rule: usize) -> ToldFinding
    ensures { TellsRule rule (slice_get findings.now rule) result.code result.dead result.text.items }
{
    match findings.get(rule) {
        None => untold(alloc, 1),
        Some(finding) => match told_of(alloc, rule, finding) {
            Ok(told) => told,
            Err(_) => untold(alloc, Stopped::Memory.code()),
        },
    }
}

fn untold(alloc: Global, code: u32) -> ToldFinding
    ensures code { result.code ≡ code }
    ensures dead { result.dead ≡ no_dead }
    ensures text { result.text.items ≡ [] }
{
    ToldFinding {
        code,
        dead: NO_DEAD,
        text: Vec::new(alloc),
    }
}

const NO_DEAD: Dead = Dead {
    kind: 0,
    rule: 0,
    overruling: 0,
    path: 0,
    folder: 0,
    folder_rule: 0,
    is_dir: false,
};

/// What is told of a finding.
fn told_of(alloc: Global, rule: usize, finding: &Finding) -> Result<ToldFinding, AllocError>
    ensures { IfOk result (λ t. (t.code ≡ 0) × (t.dead ≡ told_as rule (parts_of finding.now)) × (t.text.items ≡ texts_of (parts_of finding.now))) }
{
    let parts = parts_of(finding);
    let mut text = Vec::from_slice(alloc, parts.path.as_bytes())?;
    text.extend_from_slice(parts.folder.as_bytes())?;
    Ok(ToldFinding {
        code: 0,
        dead: Dead {
            kind: parts.kind,
            rule,
            overruling: parts.overruling,
            path: parts.path.len(),
            folder: parts.folder.len(),
            folder_rule: parts.folder_rule,
            is_dir: parts.is_dir,
        },
        text,
    })
}

/// The parts of a finding.
fn parts_of(finding: &Finding) -> Parts<'_>
    ensures { parts_in result ≡ parts_of finding.now }
{
    match finding {
        Finding::Live(_) => alone(0),
        Finding::Overruled(rules) => overruled_parts(rules),
        Finding::DeadByFolders(example) => example_parts(example),
        Finding::Unreached => alone(4),
    }
}

/// That these rules overrule one, which applies to nothing where there are none.
fn overruled_parts<'f>(rules: &[usize]) -> Parts<'f>
    ensures { parts_in result ≡ overruled_parts rules.now }
{
    if rules.is_empty() {
        return alone(2);
    }
    Parts {
        overruling: rules.len(),
        ..alone(1)
    }
}

/// An example of what a rule decides on in ignored folders.
fn example_parts(example: &Example) -> Parts<'_>
    ensures { parts_in result ≡ example_parts example.now }
{
    Parts {
        path: example.question.path.as_str(),
        folder: example.folder.as_str(),
        folder_rule: example.rule,
        is_dir: example.question.is_dir,
        ..alone(3)
    }
}

/// A kind alone; 0 is that of a rule that isn't dead.
fn alone<'f>(kind: u32) -> Parts<'f>
    ensures { parts_in result ≡ alone kind }
{
    Parts {
        kind,
        overruling: 0,
        path: "",
        folder: "",
        folder_rule: 0,
        is_dir: false,
    }
}

/// Of the rules that overrule the dead rule at an index, the one with a number.
pub fn overruling(kept: &Kept, index: usize, number: usize) -> (u32, usize)
    ensures { TellsOverruling (findings_in kept.now) index number result.0 result.1 }
{
    let Kept::Findings(found) = kept else {
        return (Stopped::Misused.code(), 0);
    };
    match overruling_at(found, index, number) {
        Some(rule) => (0, rule),
        None => (1, 0),
    }
}

fn overruling_at(found: &Findings, index: usize, number: usize) -> Option<usize>
    ensures { result ≡ overruling_at found.now index number }
{
    match found.dead.get(index) {
        None => None,
        Some(rule) => named_by(&found.all, *rule, number),
    }
}

/// Of the rules that overrule the one with an index, the one with a number.
fn named_by(findings: &[Finding], rule: usize, number: usize) -> Option<usize>
    ensures { result ≡ named_by (slice_get findings.now rule) number }
{
    match findings.get(rule) {
        None => None,
        Some(finding) => named_in(finding, number),
    }
}

fn named_in(finding: &Finding, number: usize) -> Option<usize>
    ensures { result ≡ slice_get (named_in finding.now) number }
{
    match finding {
        Finding::Overruled(rules) => rules.get(number).copied(),
        Finding::Live(_) => None,
        Finding::DeadByFolders(_) => None,
        Finding::Unreached => None,
    }
}
