//! The command `unused`: the rules below a folder that decide on no entry there.
ghost use Rattle.std.specs.Prelude.{◌≡◌, ◌≢◌, ◌⊎◌, ◌++◌, ◌∷◌, ℕ, All, Bool, List, Ok, Some, None, [], Result, IfErr, IfOk, OnOk, codes, map, option_map, string_bytes, if◌then◌else◌};
ghost use Rattle.std.specs.Io.KnownBytes.{Appends};
ghost use Rattle.std.specs.Iterator.{IsFinite, YieldsThen};
ghost use Rattle.std.specs.List.{AllZip, flat_map};
ghost use Rattle.std.specs.Option.{option_copied, option_to_list};
ghost use Rattle.ignore_base.specs.Problem.{memory, problem_of};
ghost use Rattle.ignore_base.specs.Text.{Path};
ghost use Rattle.ignore_base.specs.declared.error.Error.{Error};
ghost use Rattle.ignore_dir.specs.Load.{Loaded};
ghost use Rattle.ignore_files.specs.Gives.{IsHonest};
ghost use Rattle.ignore_files.specs.Tree.{Tree};
ghost use Rattle.ignore_query.specs.Agrees.{Agrees};
ghost use Rattle.ignore_query.specs.Forget.{ListsKept, kept_dirs};
ghost use Rattle.ignore_query.specs.KeptRules.{kept_rules, rules_of};
ghost use Rattle.ignore_query.specs.Reached.{scene_of};
ghost use Rattle.ignore_query.specs.declared.incremental.IncrementalIgnore.{IncrementalIgnore};
ghost use Rattle.ignore_survey.specs.Surveyed.{item_of};
ghost use Rattle.ignore_survey.specs.declared.surveyed.Surveyed.{Surveyed};
ghost use Rattle.ignore_why.specs.Cited.{Named};
ghost use Rattle.ignore_why.specs.QueryWhy.{query_why_of};
ghost use Rattle.commands.specs.Walking.{IsTrimmed};
ghost use Rattle.ig_commands.specs.Counts.{counted};
ghost use Rattle.ig_commands.specs.Form.{rule_of};
ghost use Rattle.ig_commands.specs.Found.{FindsOf, deciding, first_at, met, read_in};
ghost use Rattle.ig_commands.specs.Reports.{report_of};
ghost use Rattle.ig_commands.specs.Rules.{Grows, rule_at};
ghost use Rattle.ig_commands.specs.Stops.{EndsAfter, IsOther, SaidBy};
ghost use Rattle.ig_commands.specs.Surveys.{AreMetBy, IsBegun, OfMatcher, OfRoot, all_seen, all_told, begun_in, begun_told, is_wrong, left_from, names_by, reports, seen_of, told_by, told_from, told_in};
ghost use Rattle.ig_commands.specs.Unused.{AreUnusedIn, FileRule, UnusedAsked, UnusedEnds, Writes};
ghost use Rattle.ig_commands.specs.Worktree.{worktree};

use crate::asking::{Asked, asked_met};
use crate::counts::{Counts, report_counts, status_of};
use crate::form::{Form, rule_of};
use crate::ignored::{matchers_of, note_item};
use crate::names::{Unnamed, end_names, leave_names};
use crate::reports::{report_all, report_rules};
use crate::rules::FileRules;
use crate::stop::Stop;
use crate::worktree::{Worktree, roots_of};
use crate::writing::refuse_or_end;
use commands::{Output, World};
use ig_options::Options;
use ignore::{IncrementalIgnore, query_laws};
use ignore_base::Error;
use ignore_files::Files;
use ignore_survey::{Item, Survey, Surveyed};
use ignore_types::types::TypesBuilder;
use std::alloc::{AllocError, Global};
use std::io::Write;

/// Writes each rule of each file of rules that is read at or below the root, and that decides on no
/// entry below it, as `SOURCE:LINE:PATTERN`, in the order of the sources and of the lines. What is
/// wrong with an entry, or stands in its place, is reported on `err`, and so is what is wrong with
/// the files of `--ignore-file`. It returns the status: 0 where there is such a rule, 1 where there
/// is none, 2 where something was reported, as where the options are rejected.
///
/// # Errors
/// Why it ended early, of which nothing was reported.
pub fn list_unused<F: Files, W: Output, E: Write>(
    world: &World<'_, F>,
    options: &Options,
    first: TypesBuilder,
    out: &mut W,
    err: &mut E,
) -> Result<u8, Stop>
    ensures lists { IfOk result (λ status. UnusedAsked F.Files world.now.files.now world.now.env.now options.now first status
        (Appends (W.contents out.old) (W.contents out.new)) (Appends (E.contents err.old) (E.contents err.new))) }
    ensures ended { IfErr result (UnusedEnds F.Files world.now.files.now world.now.env.now options.now first
        (Appends (W.contents out.old) (W.contents out.new)) (Appends (E.contents err.old) (E.contents err.new))) }
    ensures said { IfErr result (SaidBy (W.fails out.new)) }
{
    match asked_met(world, options, first) {
        Ok(asked) => find_in_worktree(world, options, asked, out, err),
        Err(error) => refuse_or_end(&error, err),
    }
}

/// Lists the rules that decide on no entry of the worktree of the roots.
fn find_in_worktree<F: Files, W: Output, E: Write>(
    world: &World<'_, F>,
    options: &Options,
    asked: Asked,
    out: &mut W,
    err: &mut E,
) -> Result<u8, Stop>
    ensures lists { IfOk result (λ status. (roots : List Path) × (all : List OfRoot) × (unused : List FileRule)
        × AllZip IsTrimmed (map string_bytes options.now.roots.items) roots
        × Writes options.now (map (option_map problem_of) asked.errors.items) all unused status (Appends (W.contents out.old) (W.contents out.new)) (Appends (E.contents err.old) (E.contents err.new))
        × ((tree : Tree) → IsHonest F.Files world.now.files.now tree → asked.walk.roots ≡ []
        → AreUnusedIn (worktree roots tree) world.now.env.now options.now asked.walk all unused)) }
    ensures ended { IfErr result (λ stop. ((roots : List Path) × (all : List OfRoot) × (is_whole : Bool) × AllZip IsTrimmed (map string_bytes options.now.roots.items) roots
        × EndsAfter [] (flat_map report_of (map (option_map problem_of) asked.errors.items) ++ told_by is_whole options.now all)
        (Appends (W.contents out.old) (W.contents out.new)) (Appends (E.contents err.old) (E.contents err.new)) stop
        × ((tree : Tree) → IsHonest F.Files world.now.files.now tree → asked.walk.roots ≡ []
        → AreMetBy is_whole (worktree roots tree) world.now.env.now options.now asked.walk all))
        ⊎ EndsAfter [] [] (Appends (W.contents out.old) (W.contents out.new)) (Appends (E.contents err.old) (E.contents err.new)) stop) }
    ensures said { IfErr result (SaidBy (W.fails out.new)) }
{
    let Ok(roots) = roots_of(world.alloc, options) else {
        return Err(Stop::Memory);
    };
    let worktree = Worktree {
        files: world.files,
        roots,
    };
    let met = World {
        alloc: world.alloc,
        files: &worktree,
        env: world.env,
    };
    worktree.is_honest();
    report_and_find(&met, options, asked, out, err)
}

/// The rules that were read, and those that decided on an entry.
#[derive(Drop)]
struct Found {
    read: FileRules,
    used: FileRules,
}

impl Found {
    /// No rules.
    fn new(alloc: Global) -> Found
        ensures none { (source : Path) (line : ℕ) → (rule_at result.read source line ≡ None) × (rule_at result.used source line ≡ None) }
    {
        Found {
            read: FileRules::new(alloc),
            used: FileRules::new(alloc),
        }
    }

    /// Notes the rule that decided on an entry, if one did.
    fn note_used(&mut self, entry: &Surveyed) -> Result<(), AllocError>
        ensures used { OnOk result (Grows (first_at (option_to_list (rule_of (query_why_of entry.now.explanation.reason)))) self.old.used self.new.used) }
        ensures read { self.new.read ≡ self.old.read }
    {
        match rule_of(&entry.explanation.reason) {
            Some(rule) => self.used.add(rule),
            None => Ok(()),
        }
    }

    /// Notes the rules of the directories that a matcher keeps.
    fn note_read(&mut self, matcher: &IncrementalIgnore) -> Result<(), Error>
        ensures read { OnOk result (Grows (first_at (kept_rules matcher.now.cache)) self.old.read self.new.read) }
        ensures used { self.new.used ≡ self.old.used }
        ensures loaded { (tree : Tree) (loads : List ℕ → Loaded) → let g = scene_of matcher.now.asked tree loads in Agrees g matcher.now.cache
            → OnOk result (kept_rules matcher.now.cache ≡ flat_map (rules_of g) (kept_dirs matcher.now.cache)) }
        ensures listed { ListsKept matcher.now.cache }
    {
        query_laws::each_kept_once(matcher);
        for rule in matcher.rules()? {
            self.read.add(&rule)?;
        }
        Ok(())
    }
}

/// Reports what is wrong with the files that are named, lists, and reports the counts.
#[tactic(auto, using(crate::proofs::StopLemmas::other_said))]
fn report_and_find<F: Files, W: Output, E: Write>(
    world: &World<'_, F>,
    options: &Options,
    asked: Asked,
    out: &mut W,
    err: &mut E,
) -> Result<u8, Stop>
    ensures lists { IfOk result (λ status. (all : List OfRoot) × (unused : List FileRule)
        × Writes options.now (map (option_map problem_of) asked.errors.items) all unused status (Appends (W.contents out.old) (W.contents out.new)) (Appends (E.contents err.old) (E.contents err.new))
        × ((tree : Tree) → IsHonest F.Files world.now.files.now tree → asked.walk.roots ≡ [] → AreUnusedIn tree world.now.env.now options.now asked.walk all unused)) }
    ensures ended { IfErr result (λ stop. (all : List OfRoot) × (is_whole : Bool)
        × EndsAfter [] (flat_map report_of (map (option_map problem_of) asked.errors.items) ++ told_by is_whole options.now all)
        (Appends (W.contents out.old) (W.contents out.new)) (Appends (E.contents err.old) (E.contents err.new)) stop
        × ((tree : Tree) → IsHonest F.Files world.now.files.now tree → asked.walk.roots ≡ []
        → AreMetBy is_whole tree world.now.env.now options.now asked.walk all)) }
    ensures said { IfErr result (SaidBy (W.fails out.new)) }
{
    let reported = report_all(&asked.errors, err)?;
    let Ok(matchers) = matchers_of(world, options, asked.walk) else {
        return Err(Stop::Memory);
    };
    let mut found = Found::new(world.alloc);
    let more = find_all(world, options, matchers, &mut found, err)?;
    let unused = found
        .read
        .write_without(&found.used, form_of(options), !options.quiet, out)?;
    let counts = Counts {
        reported: more.saturating_add(reported),
        found: unused,
    };
    report_counts(options, counts, err)?;
    Ok(status_of(counts))
}

/// How rules are written: without a root their sources are below the working directory.
fn form_of(options: &Options) -> Form<'static>
    ensures base { option_copied result.base ≡ (if options.now.is_bare then Some (codes ".") else None) }
    ensures null { result.null ≡ options.now.null }
{
    Form {
        base: if options.is_bare { Some(".") } else { None },
        null: options.null,
    }
}

/// Finds the rules below the root of each matcher. It returns how many times something was reported.
fn find_all<F: Files, E: Write>(
    world: &World<'_, F>,
    options: &Options,
    matchers: Vec<IncrementalIgnore>,
    found: &mut Found,
    err: &mut E,
) -> Result<u64, Stop>
    ensures found { IfOk result (λ count. (all : List (OfRoot × List Named)) × AllZip (FindsOf F.Files world.now.files.now) matchers.items all
        × Appends (E.contents err.old) (E.contents err.new) (all_told options.now (met all))
        × (count ≡ counted 0 (map (is_wrong options.now) (all_seen (met all))))
        × Grows (first_at (deciding (all_seen (met all)))) found.old.used found.new.used × Grows (first_at (read_in all)) found.old.read found.new.read) }
    ensures ended { IfErr result (λ stop. (done : List (OfRoot × List Named)) × (last : OfRoot) × (first rest : List IncrementalIgnore) × (matcher : IncrementalIgnore)
        × (matchers.items ≡ first ++ matcher ∷ rest) × AllZip (FindsOf F.Files world.now.files.now) first done
        × OfMatcher F.Files world.now.files.now IsBegun matcher last
        × EndsAfter [] (begun_told options.now (met done ++ last ∷ [])) (λ bs. bs ≡ []) (Appends (E.contents err.old) (E.contents err.new)) stop) }
    ensures other { IfErr result IsOther }
{
    let mut reported = 0u64;
    for matcher in matchers {
        let more = find_below(world, options, matcher, found, err)?;
        reported = reported.saturating_add(more);
    }
    Ok(reported)
}

/// Finds the rules at and below the root of a matcher, and those that decide on an entry there. It
/// returns how many times something was reported.
fn find_below<F: Files, E: Write>(
    world: &World<'_, F>,
    options: &Options,
    matcher: IncrementalIgnore,
    found: &mut Found,
    err: &mut E,
) -> Result<u64, Stop>
    ensures found { IfOk result (λ count. (r : OfRoot × List Named) × FindsOf F.Files world.now.files.now matcher r
        × Appends (E.contents err.old) (E.contents err.new) (told_in options.now r.0.1) × (count ≡ counted 0 (map (is_wrong options.now) r.0.1))
        × Grows (first_at (deciding r.0.1)) found.old.used found.new.used × Grows (first_at r.1) found.old.read found.new.read) }
    ensures ended { IfErr result (λ stop. (r : OfRoot) × OfMatcher F.Files world.now.files.now IsBegun matcher r
        × EndsAfter [] (begun_in options.now r.1) (λ bs. bs ≡ []) (Appends (E.contents err.old) (E.contents err.new)) stop) }
    ensures other { IfErr result IsOther }
{
    let Ok(mut survey) = Survey::new(world.alloc, world.files, matcher) else {
        return Err(Stop::Memory);
    };
    let mut names = None;
    let reported = find_items(&mut survey, options, found, &mut names, err)?;
    let Ok(_) = found.note_read(&survey.into_matcher()) else {
        return Err(Stop::Memory);
    };
    end_names(&names, err)?;
    Ok(reported)
}

/// Notes the rules that decide on the items of a survey, and reports what is wrong. It returns how
/// many times something was reported.
fn find_items<I: Iterator<Item = Item> + Drop, E: Write>(
    items: &mut I,
    options: &Options,
    found: &mut Found,
    names: &mut Option<Unnamed>,
    err: &mut E,
) -> Result<u64, Stop>
    requires ends { I.can_next items.old × IsFinite (I.remaining items.old) }
    ensures found { IfOk result (λ count. (all : List (Result Surveyed Error)) × YieldsThen I.next_gives items.old all None items.new
        × Appends (E.contents err.old) (E.contents err.new) (told_from options.now names.old (map seen_of all)) × (count ≡ counted 0 (map (is_wrong options.now) (map seen_of all)))
        × All (λ item. item_of item ≢ Err memory) all × Grows (first_at (deciding (map seen_of all))) found.old.used found.new.used
        × (names.new ≡ left_from names.old (map seen_of all))) }
    ensures ended { IfErr result (λ stop. (all : List (Result Surveyed Error)) × (x : Result Surveyed Error) × (v : I)
        × YieldsThen I.next_gives items.old all (Some x) v
        × EndsAfter [] (told_from options.now names.old (map seen_of all)) (λ bs. bs ≡ []) (Appends (E.contents err.old) (E.contents err.new)) stop
        × All (λ item. item_of item ≢ Err memory) all) }
    ensures read { found.new.read ≡ found.old.read }
    ensures other { IfErr result IsOther }
{
    let mut reported = 0u64;
    while let Some(item) = items.next() {
        let more = find_by(item, options, found, names, err)?;
        reported = reported.saturating_add(u64::from(more));
    }
    Ok(reported)
}

/// Notes the rule that decided on an entry, and reports what is wrong. It returns whether anything
/// is.
fn find_by<E: Write>(
    item: Item,
    options: &Options,
    found: &mut Found,
    names: &mut Option<Unnamed>,
    err: &mut E,
) -> Result<bool, Stop>
    ensures used { OnOk result (Grows (first_at (deciding (seen_of item ∷ []))) found.old.used found.new.used) }
    ensures read { found.new.read ≡ found.old.read }
    ensures reports { OnOk result (Appends (E.contents err.old) (E.contents err.new) (reports options.now names.old (seen_of item))) }
    ensures names { OnOk result (names.new ≡ names_by names.old (seen_of item)) }
    ensures wrong { IfOk result (λ any. any ≡ is_wrong options.now (seen_of item)) }
    ensures enough { OnOk result (item_of item ≢ Err memory) }
    ensures ended { IfErr result (EndsAfter [] [] (λ bs. bs ≡ []) (Appends (E.contents err.old) (E.contents err.new))) }
    ensures other { IfErr result IsOther }
{
    match item {
        Ok(entry) => match found.note_used(&entry) {
            Ok(()) => report_entry(&entry, options, names, err),
            Err(_) => Err(Stop::Memory),
        },
        Err(error) => Ok(note_item(error, names, err)?.reported),
    }
}

/// Reports the names of a folder that aren't UTF-8, which come first there, and what is wrong with the
/// files of rules that were read for an entry. It returns whether the second is.
fn report_entry<E: Write>(
    entry: &Surveyed,
    options: &Options,
    names: &mut Option<Unnamed>,
    err: &mut E,
) -> Result<bool, Stop>
    ensures reports { OnOk result (Appends (E.contents err.old) (E.contents err.new) (reports options.now names.old (seen_of (Ok entry.now)))) }
    ensures names { OnOk result (names.new ≡ names_by names.old (seen_of (Ok entry.now))) }
    ensures wrong { IfOk result (λ any. any ≡ is_wrong options.now (seen_of (Ok entry.now))) }
    ensures ended { IfErr result (λ stop. stop ≡ Stop.Silence) }
{
    leave_names(0, names, err)?;
    report_rules(options, entry.error.as_ref(), err)
}
