//! Whether the rules of two handles say the same, over all paths, as C is told it.
ghost use Rattle.std.specs.Prelude.{◌≡◌, IfOk, IfErr, Ok, Err};
ghost use Rattle.ignore_every.specs.Verdicts.{IsComparison};
ghost use Rattle.ignore_kept.specs.Comparing.{Compared, Compares, TellsComparison, counted_by, difference_parts, verdict_code};
ghost use Rattle.ignore_kept.specs.Judging.{IsUnjudged};

use crate::kept::Kept;
use crate::stopped::Stopped;
use ignore::every::{self, Comparison, Counted, Difference, Verdict};
use ignore::gitignore::Gitignore;
use std::alloc::{AllocError, Global};

/// How two lists are compared: how many states are found at most; and whether an entry that is
/// whitelisted counts as one on which no rule decides, so that only what is ignored counts.
#[repr(C)]
#[derive(Clone, Copy, Drop)]
pub struct CompareOptions {
    pub limit: usize,
    pub only_ignored: bool,
}

/// What the rules of a handle are compared with, and how.
#[derive(Clone, Copy, Drop)]
pub struct Asked<'n> {
    pub new: &'n Kept,
    pub options: CompareOptions,
}

/// A question at which two lists differ, as C is told it: the number of each verdict, how many bytes
/// the path has, the index of the rule by which each is said, 0 where there is none, and whether the
/// path is a directory's.
#[repr(C)]
#[derive(Clone, Copy, Drop)]
pub struct DifferenceParts {
    pub before: u32,
    pub after: u32,
    pub path: usize,
    pub before_rule: usize,
    pub after_rule: usize,
    pub is_dir: bool,
}

/// What C is told: a number, where the lists differ, and the path of that.
#[derive(Drop)]
pub struct ToldDifference {
    pub code: u32,
    pub difference: DifferenceParts,
    pub text: Vec<u8>,
}

/// Whether the rules of two handles say the same, or else where they differ.
pub fn compare(alloc: Global, old: &Kept, asked: Asked<'_>) -> ToldDifference
    ensures { Compared old.now asked.entry.new.now asked.entry.options.only_ignored result.code result.difference result.text.items }
{
    match comparison(alloc, old, asked) {
        Ok(comparison) => match told_of(alloc, &comparison) {
            Ok(told) => told,
            Err(_) => untold(alloc, Stopped::Memory),
        },
        Err(stopped) => untold(alloc, stopped),
    }
}

fn comparison(alloc: Global, old: &Kept, asked: Asked<'_>) -> Result<Comparison, Stopped>
    ensures { Compares old.now asked.entry.new.now asked.entry.options.only_ignored result }
{
    let Kept::Rules(before) = old else {
        return Err(Stopped::Misused);
    };
    let Kept::Rules(after) = asked.new else {
        return Err(Stopped::Misused);
    };
    compared(alloc, before, after, asked.options)
}

#[tactic(auto, using(crate::proofs::Judged::unjudged))]
fn compared(
    alloc: Global,
    before: &Gitignore,
    after: &Gitignore,
    options: CompareOptions,
) -> Result<Comparison, Stopped>
    ensures same { IfOk result (IsComparison (counted_by options.only_ignored) before.now.rules after.now.rules) }
    ensures unjudged { IfErr result IsUnjudged }
{
    let counted = counted_by(options.only_ignored);
    let comparison = every::compare(alloc, before, after, counted, options.limit)?;
    Ok(comparison)
}

fn counted_by(only_ignored: bool) -> Counted
    ensures { result ≡ counted_by only_ignored }
{
    if only_ignored {
        Counted::Ignored
    } else {
        Counted::Verdicts
    }
}

/// What is told of a comparison.
fn told_of(alloc: Global, comparison: &Comparison) -> Result<ToldDifference, AllocError>
    ensures { IfOk result (λ t. TellsComparison (Ok comparison.now) t.code t.difference t.text.items) }
{
    match comparison {
        Comparison::Same => Ok(ToldDifference {
            code: 0,
            difference: NO_DIFFERENCE,
            text: Vec::new(alloc),
        }),
        Comparison::Differ(difference) => Ok(ToldDifference {
            code: 1,
            difference: difference_parts(difference),
            text: Vec::from_slice(alloc, difference.question.path.as_bytes())?,
        }),
    }
}

/// What is told where there is none.
fn untold(alloc: Global, stopped: Stopped) -> ToldDifference
    ensures { TellsComparison (Err stopped) result.code result.difference result.text.items }
{
    ToldDifference {
        code: stopped.code(),
        difference: NO_DIFFERENCE,
        text: Vec::new(alloc),
    }
}

const NO_DIFFERENCE: DifferenceParts = DifferenceParts {
    before: 0,
    after: 0,
    path: 0,
    before_rule: 0,
    after_rule: 0,
    is_dir: false,
};

fn difference_parts(difference: &Difference) -> DifferenceParts
    ensures { result ≡ difference_parts difference.now }
{
    DifferenceParts {
        before: verdict_code(difference.old.verdict()),
        after: verdict_code(difference.new.verdict()),
        path: difference.question.path.len(),
        before_rule: difference.old.rule().unwrap_or(0),
        after_rule: difference.new.rule().unwrap_or(0),
        is_dir: difference.question.is_dir,
    }
}

/// The number of a verdict.
fn verdict_code(verdict: Verdict) -> u32
    ensures { result ≡ verdict_code verdict }
{
    match verdict {
        Verdict::None => 1,
        Verdict::Ignore => 2,
        Verdict::Whitelist => 3,
    }
}
