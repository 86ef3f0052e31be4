//! The exports of rules.
ghost use Rattle.std.specs.Prelude.{◌≡◌, IfOk, IfErr, List, ℕ, Result, Ok, Err, length, string_bytes};
ghost use Rattle.ignore_kept.specs.Asks.{AsksCode, Counted, Explains, TellsRule};
ghost use Rattle.ignore_kept.specs.Lines.{Begins, Builds, FileAdds, LineAdds, SetsOptions, TellsProblem};
ghost use Rattle.ignore_kept.specs.Rooms.{put_in};
ghost use Rattle.ignore_kept.specs.Stops.{ended_code};
ghost use Rattle.ignore_kept.specs.declared.ask.Manner.TheVariants as manner;
ghost use Rattle.ignore_kept.specs.declared.kept.Kept.{Kept};
ghost use Rattle.ignore_kept.specs.declared.stopped.Stopped.{Stopped};

use crate::handle::{Handle, close, open};
use core::mem;
use ignore_kept::ask::{self, Question, ToldRule, alone, as_git, with_parents};
use ignore_kept::lines::{self, Problem};
use ignore_kept::room::put;
use ignore_kept::{Counts, Kept, Reason, RuleOptions, Stopped, done};
use std::alloc::Global;

/// Begins rules of a root, without lines, and hands out their handle.
#[unsafe(no_mangle)]
pub extern "C" fn ignore_rules_new(
    alloc: Global,
    root: &[u8],
    options: &RuleOptions,
    out: &mut *mut u8,
) -> u32
    ensures { (given : Result Kept Stopped) × Begins root.now options.now given × (result ≡ ended_code given) }
{
    match begun(alloc, root, options) {
        Ok(kept) => {
            let (at, _) = Box::into_raw_with_allocator(kept);
            *out = at as *mut u8;
            0
        }
        Err(stopped) => stopped.code(),
    }
}

fn begun(alloc: Global, root: &[u8], options: &RuleOptions) -> Result<Box<Kept>, Stopped>
    ensures begun { IfOk result (λ kept. Begins root.now options.now (Ok kept.value)) }
    ensures refused { IfErr result (λ e. Begins root.now options.now (Err e)) }
{
    let kept = lines::begin(alloc, root, options)?;
    Ok(Box::new(alloc, kept)?)
}

/// Sets how later lines are read.
#[unsafe(no_mangle)]
pub extern "C" fn ignore_rules_set_options(rules: &mut Handle, options: &RuleOptions) -> u32
    ensures { (given : Result (Unit {0}) Stopped) × SetsOptions rules.old.value options.now given rules.new.value × (result ≡ ended_code given) }
{
    mem::replace_with(rules, options, |rules, options| options_set(rules, options))
}

fn options_set(rules: Handle, options: &RuleOptions) -> (Handle, u32)
    ensures { (given : Result (Unit {0}) Stopped) × SetsOptions rules.value options.now given result.0.value × (result.1 ≡ ended_code given) }
{
    let mut kept = open(rules);
    let code = done(lines::set_options(&mut kept, options));
    (close(kept), code)
}

/// Adds a line, as in gitignore(5).
#[unsafe(no_mangle)]
pub extern "C" fn ignore_rules_add_line(rules: &mut Handle, from: &[u8], line: &[u8]) -> u32
    ensures { (given : Result (Unit {0}) Stopped) × LineAdds rules.old.value from.now line.now given rules.new.value × (result ≡ ended_code given) }
{
    mem::replace_with(rules, line, |rules, line| line_added(rules, from, line))
}

fn line_added(rules: Handle, from: &[u8], line: &[u8]) -> (Handle, u32)
    ensures { (given : Result (Unit {0}) Stopped) × LineAdds rules.value from.now line.now given result.0.value × (result.1 ≡ ended_code given) }
{
    let mut kept = open(rules);
    let alloc = *Box::allocator(&kept);
    let code = done(lines::add_line(alloc, &mut kept, from, line));
    (close(kept), code)
}

/// Adds the lines of a text that stands for the file at a path.
#[unsafe(no_mangle)]
pub extern "C" fn ignore_rules_add_file(rules: &mut Handle, path: &[u8], text: &[u8]) -> u32
    ensures { (given : Result (Unit {0}) Stopped) × FileAdds rules.old.value path.now text.now given rules.new.value × (result ≡ ended_code given) }
{
    mem::replace_with(rules, text, |rules, text| file_added(rules, path, text))
}

fn file_added(rules: Handle, path: &[u8], text: &[u8]) -> (Handle, u32)
    ensures { (given : Result (Unit {0}) Stopped) × FileAdds rules.value path.now text.now given result.0.value × (result.1 ≡ ended_code given) }
{
    let mut kept = open(rules);
    let code = done(lines::add_file(&mut kept, path, text));
    (close(kept), code)
}

/// Tells what is wrong with what was added last: its length, and its first bytes.
#[unsafe(no_mangle)]
pub extern "C" fn ignore_rules_problem(
    rules: &mut Handle,
    room: &mut [u8],
    whole: &mut usize,
) -> u32
    ensures kept { rules.new.value ≡ rules.old.value }
    ensures told { (text : List ℕ) × TellsProblem rules.old.value result text × (whole.new ≡ length text) × (room.new ≡ put_in text room.old) }
{
    let told = mem::replace_with(rules, (), |rules, ()| problem_told(rules));
    *whole = told.text.len();
    put(told.text.as_bytes(), room);
    told.code
}

fn problem_told(rules: Handle) -> (Handle, Problem)
    ensures kept { result.0.value ≡ rules.value }
    ensures told { TellsProblem rules.value result.1.code (string_bytes result.1.text) }
{
    let kept = open(rules);
    let told = lines::last_problem(*Box::allocator(&kept), &kept);
    (close(kept), told)
}

/// Makes the matcher of the lines: from now on the rules are asked.
#[unsafe(no_mangle)]
pub extern "C" fn ignore_rules_build(rules: &mut Handle) -> u32
    ensures { (given : Result (Unit {0}) Stopped) × Builds rules.old.value given rules.new.value × (result ≡ ended_code given) }
{
    mem::replace_with(rules, (), |rules, ()| built(rules))
}

fn built(rules: Handle) -> (Handle, u32)
    ensures { (given : Result (Unit {0}) Stopped) × Builds rules.value given result.0.value × (result.1 ≡ ended_code given) }
{
    let mut kept = open(rules);
    let code = mem::replace_with(&mut *kept, (), |kept, ()| {
        let (kept, result) = lines::build(kept);
        (kept, done(result))
    });
    (close(kept), code)
}

/// What the rules say of a path.
#[unsafe(no_mangle)]
pub extern "C" fn ignore_rules_matched(rules: &mut Handle, path: &[u8], is_dir: bool) -> u32
    ensures kept { rules.new.value ≡ rules.old.value }
    ensures told { AsksCode rules.old.value manner.Alone path.now is_dir result }
{
    mem::replace_with(rules, alone(path, is_dir), matched)
}

/// What the rules say of a path together with its parents.
#[unsafe(no_mangle)]
pub extern "C" fn ignore_rules_matched_path_or_any_parents(
    rules: &mut Handle,
    path: &[u8],
    is_dir: bool,
) -> u32
    ensures kept { rules.new.value ≡ rules.old.value }
    ensures told { AsksCode rules.old.value manner.WithParents path.now is_dir result }
{
    mem::replace_with(rules, with_parents(path, is_dir), matched)
}

/// What the rules say of a path as git asks them: from the root down the first ignored directory that
/// it is in decides, and else the path itself.
#[unsafe(no_mangle)]
pub extern "C" fn ignore_rules_matched_as_git(rules: &mut Handle, path: &[u8], is_dir: bool) -> u32
    ensures kept { rules.new.value ≡ rules.old.value }
    ensures told { AsksCode rules.old.value manner.AsGit path.now is_dir result }
{
    mem::replace_with(rules, as_git(path, is_dir), matched)
}

fn matched(rules: Handle, asked: Question<'_>) -> (Handle, u32)
    ensures kept { result.0.value ≡ rules.value }
    ensures told { AsksCode rules.value asked.entry.manner asked.entry.path.now asked.entry.is_dir result.1 }
{
    let kept = open(rules);
    let code = ask::code(&kept, asked);
    (close(kept), code)
}

/// As `ignore_rules_matched`, with the rule that decided: its reason, and the first bytes of its
/// source, its line and its glob.
#[unsafe(no_mangle)]
pub extern "C" fn ignore_rules_decided(
    rules: &mut Handle,
    path: &[u8],
    is_dir: bool,
    reason: &mut Reason,
    room: &mut [u8],
) -> u32
    ensures kept { rules.new.value ≡ rules.old.value }
    ensures told { (text : List ℕ) × Explains rules.old.value manner.Alone path.now is_dir result reason.new text × (room.new ≡ put_in text room.old) }
{
    hand_over(
        mem::replace_with(rules, alone(path, is_dir), explained),
        reason,
        room,
    )
}

/// As `ignore_rules_matched_path_or_any_parents`, with the rule that decided.
#[unsafe(no_mangle)]
pub extern "C" fn ignore_rules_decided_path_or_any_parents(
    rules: &mut Handle,
    path: &[u8],
    is_dir: bool,
    reason: &mut Reason,
    room: &mut [u8],
) -> u32
    ensures kept { rules.new.value ≡ rules.old.value }
    ensures told { (text : List ℕ) × Explains rules.old.value manner.WithParents path.now is_dir result reason.new text × (room.new ≡ put_in text room.old) }
{
    hand_over(
        mem::replace_with(rules, with_parents(path, is_dir), explained),
        reason,
        room,
    )
}

/// As `ignore_rules_matched_as_git`, with the rule that decided.
#[unsafe(no_mangle)]
pub extern "C" fn ignore_rules_decided_as_git(
    rules: &mut Handle,
    path: &[u8],
    is_dir: bool,
    reason: &mut Reason,
    room: &mut [u8],
) -> u32
    ensures kept { rules.new.value ≡ rules.old.value }
    ensures told { (text : List ℕ) × Explains rules.old.value manner.AsGit path.now is_dir result reason.new text × (room.new ≡ put_in text room.old) }
{
    hand_over(
        mem::replace_with(rules, as_git(path, is_dir), explained),
        reason,
        room,
    )
}

/// Hands out what is told: the reason and the first bytes of the texts, and the number as result.
fn hand_over(told: ToldRule, reason: &mut Reason, room: &mut [u8]) -> u32
    ensures code { result ≡ told.code }
    ensures reason { reason.new ≡ told.reason }
    ensures room { room.new ≡ put_in told.text.items room.old }
{
    *reason = told.reason;
    put(&told.text, room);
    told.code
}

fn explained(rules: Handle, asked: Question<'_>) -> (Handle, ToldRule)
    ensures kept { result.0.value ≡ rules.value }
    ensures told { Explains rules.value asked.entry.manner asked.entry.path.now asked.entry.is_dir result.1.code result.1.reason result.1.text.items }
{
    let kept = open(rules);
    let told = ask::explain(*Box::allocator(&kept), &kept, asked);
    (close(kept), told)
}

/// The rule at an index: whether it ignores or whitelists, its parts, and the first bytes of its
/// source, its line and its glob.
#[unsafe(no_mangle)]
pub extern "C" fn ignore_rules_rule(
    rules: &mut Handle,
    index: usize,
    reason: &mut Reason,
    room: &mut [u8],
) -> u32
    ensures kept { rules.new.value ≡ rules.old.value }
    ensures told { (text : List ℕ) × TellsRule rules.old.value index result reason.new text × (room.new ≡ put_in text room.old) }
{
    hand_over(mem::replace_with(rules, index, rule), reason, room)
}

fn rule(rules: Handle, index: usize) -> (Handle, ToldRule)
    ensures kept { result.0.value ≡ rules.value }
    ensures told { TellsRule rules.value index result.1.code result.1.reason result.1.text.items }
{
    let kept = open(rules);
    let told = ask::rule(*Box::allocator(&kept), &kept, index);
    (close(kept), told)
}

/// How many rules there are.
#[unsafe(no_mangle)]
pub extern "C" fn ignore_rules_counts(rules: &mut Handle, counts: &mut Counts) -> u32
    ensures kept { rules.new.value ≡ rules.old.value }
    ensures counted { Counted rules.old.value result counts.new }
{
    let (code, found) = mem::replace_with(rules, (), |rules, ()| counted(rules));
    *counts = found;
    code
}

fn counted(rules: Handle) -> (Handle, (u32, Counts))
    ensures kept { result.0.value ≡ rules.value }
    ensures counted { Counted rules.value result.1.0 result.1.1 }
{
    let kept = open(rules);
    let found = ask::count(&kept);
    (close(kept), found)
}

/// Frees rules.
#[unsafe(no_mangle)]
pub extern "C" fn ignore_rules_free(rules: Handle) {
    let _kept = open(rules);
}
