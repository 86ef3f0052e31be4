//! The exports of rules over all paths.
ghost use Rattle.std.specs.Prelude.{◌≡◌, List, ℕ, Result, Ok, Err, IfOk, IfErr};
ghost use Rattle.ignore_kept.specs.Comparing.{Compared};
ghost use Rattle.ignore_kept.specs.Findings.{Finds, TellsFinding, TellsOverruling};
ghost use Rattle.ignore_kept.specs.Kinds.{findings_in};
ghost use Rattle.ignore_kept.specs.Rooms.{put_in};
ghost use Rattle.ignore_kept.specs.Stops.{ended_code};
ghost use Rattle.ignore_kept.specs.declared.kept.Kept.{Kept};
ghost use Rattle.ignore_kept.specs.declared.stopped.Stopped.{Stopped};

use crate::handle::{Handle, close, give_back, lend, open};
use core::mem;
use ignore_kept::compared::{self, Asked, CompareOptions, DifferenceParts, ToldDifference};
use ignore_kept::findings::{self, Dead, ToldFinding};
use ignore_kept::room::put;
use ignore_kept::{Kept, Stopped};
use std::alloc::Global;

/// Finds the rules that decide on no question which the rules reach, and hands out their handle.
#[unsafe(no_mangle)]
pub extern "C" fn ignore_rules_dead(rules: &mut Handle, limit: usize, out: &mut *mut u8) -> u32
    ensures kept { rules.new.value ≡ rules.old.value }
    ensures found { (given : Result Kept Stopped) × Finds rules.old.value given × (result ≡ ended_code given) }
{
    match mem::replace_with(rules, limit, found) {
        Ok(kept) => {
            let (at, _) = Box::into_raw_with_allocator(kept);
            *out = at as *mut u8;
            0
        }
        Err(stopped) => stopped.code(),
    }
}

fn found(rules: Handle, limit: usize) -> (Handle, Result<Box<Kept>, Stopped>)
    ensures kept { result.0.value ≡ rules.value }
    ensures found { IfOk result.1 (λ kept. Finds rules.value (Ok kept.value)) }
    ensures refused { IfErr result.1 (λ e. Finds rules.value (Err e)) }
{
    let kept = open(rules);
    let made = boxed(*Box::allocator(&kept), &kept, limit);
    (close(kept), made)
}

fn boxed(alloc: Global, rules: &Kept, limit: usize) -> Result<Box<Kept>, Stopped>
    ensures found { IfOk result (λ kept. Finds rules.now (Ok kept.value)) }
    ensures refused { IfErr result (λ e. Finds rules.now (Err e)) }
{
    let kept = findings::find(alloc, rules, limit)?;
    Ok(Box::new(alloc, kept)?)
}

/// What is found of the rule at an index of these, and the first bytes of the path of its example and
/// of the folder in that.
#[unsafe(no_mangle)]
pub extern "C" fn ignore_findings_rule(
    findings: &mut Handle,
    index: usize,
    finding: &mut Dead,
    room: &mut [u8],
) -> u32
    ensures kept { findings.new.value ≡ findings.old.value }
    ensures told { (text : List ℕ) × TellsFinding (findings_in findings.old.value) index result finding.new text × (room.new ≡ put_in text room.old) }
{
    let told = mem::replace_with(findings, index, rule);
    *finding = told.dead;
    put(&told.text, room);
    told.code
}

fn rule(findings: Handle, index: usize) -> (Handle, ToldFinding)
    ensures kept { result.0.value ≡ findings.value }
    ensures told { TellsFinding (findings_in findings.value) index result.1.code result.1.dead result.1.text.items }
{
    let kept = open(findings);
    let told = findings::rule(*Box::allocator(&kept), &kept, index);
    (close(kept), told)
}

/// Of the rules that overrule the one at an index of the findings, that with a number.
#[unsafe(no_mangle)]
pub extern "C" fn ignore_findings_overruling(
    findings: &mut Handle,
    index: usize,
    number: usize,
    rule: &mut usize,
) -> u32
    ensures kept { findings.new.value ≡ findings.old.value }
    ensures told { TellsOverruling (findings_in findings.old.value) index number result rule.new }
{
    let (code, found) = mem::replace_with(findings, (index, number), overruling);
    *rule = found;
    code
}

fn overruling(findings: Handle, at: (usize, usize)) -> (Handle, (u32, usize))
    ensures kept { result.0.value ≡ findings.value }
    ensures told { TellsOverruling (findings_in findings.value) at.0 at.1 result.1.0 result.1.1 }
{
    let kept = open(findings);
    let told = findings::overruling(&kept, at.0, at.1);
    (close(kept), told)
}

/// Frees findings.
#[unsafe(no_mangle)]
pub extern "C" fn ignore_findings_free(findings: Handle) {
    let _kept = open(findings);
}

/// Whether two lists of rules say the same of every question, or else a shortest one at which they
/// differ, and the first bytes of its path.
#[unsafe(no_mangle)]
pub extern "C" fn ignore_rules_same(
    before: &mut Handle,
    after: &mut Handle,
    options: &CompareOptions,
    difference: &mut DifferenceParts,
    room: &mut [u8],
) -> u32
    ensures before { before.new.value ≡ before.old.value }
    ensures after { after.new.value ≡ after.old.value }
    ensures told { (text : List ℕ) × Compared before.old.value after.old.value options.now.only_ignored result difference.new text × (room.new ≡ put_in text room.old) }
{
    let lent = mem::replace_with(after, (), |after, ()| lend(after));
    let asked = Asked {
        new: &lent,
        options: *options,
    };
    let said = mem::replace_with(before, asked, compared);
    mem::replace_with(after, lent, give_back);
    *difference = said.difference;
    put(&said.text, room);
    said.code
}

fn compared(rules: Handle, asked: Asked<'_>) -> (Handle, ToldDifference)
    ensures kept { result.0.value ≡ rules.value }
    ensures told { Compared rules.value asked.entry.new.now asked.entry.options.only_ignored result.1.code result.1.difference result.1.text.items }
{
    let kept = open(rules);
    let told = compared::compare(*Box::allocator(&kept), &kept, asked);
    (close(kept), told)
}
