//! The command `ignored`: the topmost entries that are ignored.
ghost use Rattle.std.specs.Prelude.{◌≡◌, ◌≢◌, ◌++◌, ◌∷◌, ◌&&◌, ◌⊎◌, not, true, false, All, Bool, List, Ok, Err, None, Some, [], Result, IfErr, IfOk, OnOk, map, option_map, string_bytes, if◌then◌else◌};
ghost use Rattle.std.specs.Io.KnownBytes.{Appends};
ghost use Rattle.std.specs.Iterator.{Drains, IsFinite, YieldsThen};
ghost use Rattle.std.specs.List.{AllZip, flat_map};
ghost use Rattle.ignore_base.specs.Problem.{memory, problem_of};
ghost use Rattle.ignore_base.specs.Text.{Path};
ghost use Rattle.ignore_base.specs.declared.error.Error.{Error};
ghost use Rattle.ignore_files.specs.Gives.{IsHonest};
ghost use Rattle.ignore_files.specs.Tree.{Tree};
ghost use Rattle.ignore_query.specs.Fresh.{KeepsNothing};
ghost use Rattle.ignore_query.specs.declared.incremental.IncrementalIgnore.{IncrementalIgnore};
ghost use Rattle.ignore_survey.specs.Surveyed.{entry_of, item_of};
ghost use Rattle.ignore_survey.specs.declared.surveyed.Surveyed.{Surveyed};
ghost use Rattle.ignore.specs.Builder.{with_roots};
ghost use Rattle.ignore.specs.Matchers.{AreMatchers};
ghost use Rattle.commands.specs.Walking.{IsTrimmed};
ghost use Rattle.ig_commands.specs.Counts.{counted};
ghost use Rattle.ig_commands.specs.Ignored.{AreJudged, IgnoredAsked, IgnoredEnds, IsJudged, OfShown, Shown, Writes, all_met, all_written, entry_text, found_in, is_found, is_searched, is_topmost, seen_in, written};
ghost use Rattle.ig_commands.specs.Reports.{report_line, report_of};
ghost use Rattle.ig_commands.specs.Stops.{EndsAfter, IsOther, SaidBy};
ghost use Rattle.ig_commands.specs.Names.{told_before, with_name};
ghost use Rattle.ig_commands.specs.Surveys.{AreBegun, AreSurveys, IsBegun, IsWhole, OfMatcher, all_seen, all_told, begun_in, begun_told, is_wrong, item_names, item_told, left_from, name_place, names_by, reports, seen_of, told_from, told_in};
ghost use Rattle.ig_commands.specs.Worktree.{worktree};

use crate::asking::{Asked, asked_met};
use crate::counts::{Counts, Seen, report_counts, status_of};
use crate::form::{Form, write_reasoned};
use crate::names::{Unnamed, count_name, end_names, leave_names};
use crate::reports::{is_bad_name, report_all, report_rules};
use crate::repositories::holds_repository;
use crate::stop::Stop;
use crate::worktree::{Worktree, roots_of};
use crate::writing::{is_of_kind, refuse_or_end, report, write_path};
use commands::internal::trimmed_roots;
use commands::{Output, World};
use ig_options::Options;
use ignore::{IncrementalIgnore, WalkBuilder, WalkOptions, text};
use ignore_base::Error;
use ignore_files::{Files, Name};
use ignore_survey::{Item, Survey, Surveyed};
use ignore_types::types::TypesBuilder;
use std::alloc::Global;
use std::io::Write;

/// Writes the path of each entry below the roots that is ignored, and that isn't in an ignored
/// directory; with `-v` after its reason, as `why` writes it; with `--no-repositories` no folder that
/// holds a repository. What is wrong with an entry, or stands
/// in its place, is reported on `err`, and so is what is wrong with the files of `--ignore-file`. It
/// returns the status: 0 where such an entry was found, 1 where none was, 2 where something was
/// reported, as where the options are rejected.
///
/// # Errors
/// Why it ended early, of which nothing was reported.
pub fn list_ignored<F: Files, W: Output, E: Write>(
    world: &World<'_, F>,
    options: &Options,
    first: TypesBuilder,
    out: &mut W,
    err: &mut E,
) -> Result<u8, Stop>
    ensures lists { IfOk result (λ status. IgnoredAsked F.Files world.now.files.now world.now.env.now options.now first status
        (Appends (W.contents out.old) (W.contents out.new)) (Appends (E.contents err.old) (E.contents err.new))) }
    ensures ended { IfErr result (IgnoredEnds F.Files world.now.files.now world.now.env.now options.now first
        (Appends (W.contents out.old) (W.contents out.new)) (Appends (E.contents err.old) (E.contents err.new))) }
    ensures said { IfErr result (SaidBy (W.fails out.new)) }
{
    match asked_met(world, options, first) {
        Ok(asked) => survey_worktree(world, options, asked, out, err),
        Err(error) => refuse_or_end(&error, err),
    }
}

/// Lists in the worktree of the roots.
fn survey_worktree<F: Files, W: Output, E: Write>(
    world: &World<'_, F>,
    options: &Options,
    asked: Asked,
    out: &mut W,
    err: &mut E,
) -> Result<u8, Stop>
    ensures lists { IfOk result (λ status. (roots : List Path) × (all : List OfShown) × AllZip IsTrimmed (map string_bytes options.now.roots.items) roots
        × Writes options.now (map (option_map problem_of) asked.errors.items) all status (Appends (W.contents out.old) (W.contents out.new)) (Appends (E.contents err.old) (E.contents err.new))
        × ((tree : Tree) → IsHonest F.Files world.now.files.now tree → asked.walk.roots ≡ []
        → AreSurveys (worktree roots tree) world.now.env.now options.now asked.walk (all_met all) × AreJudged tree options.now all)) }
    ensures ended { IfErr result (λ stop. ((roots : List Path) × (all : List OfShown) × AllZip IsTrimmed (map string_bytes options.now.roots.items) roots
        × EndsAfter (all_written options.now all) (flat_map report_of (map (option_map problem_of) asked.errors.items) ++ begun_told options.now (all_met all))
        (Appends (W.contents out.old) (W.contents out.new)) (Appends (E.contents err.old) (E.contents err.new)) stop
        × ((tree : Tree) → IsHonest F.Files world.now.files.now tree → asked.walk.roots ≡ []
        → AreBegun (worktree roots tree) world.now.env.now options.now asked.walk (all_met all) × AreJudged tree options.now all))
        ⊎ EndsAfter [] [] (Appends (W.contents out.old) (W.contents out.new)) (Appends (E.contents err.old) (E.contents err.new)) stop) }
    ensures said { IfErr result (SaidBy (W.fails out.new)) }
{
    let Ok(roots) = roots_of(world.alloc, options) else {
        return Err(Stop::Memory);
    };
    let worktree = Worktree {
        files: world.files,
        roots,
    };
    let met = World {
        alloc: world.alloc,
        files: &worktree,
        env: world.env,
    };
    worktree.is_honest();
    let choice = Choice {
        options,
        bare: world.files,
    };
    report_and_survey(&met, &choice, asked, out, err)
}

/// What is listed of a worktree: by which options, and over the bare files, in which folders that hold
/// a repository are found.
#[derive(Drop)]
struct Choice<'a, G: Files> {
    options: &'a Options,
    bare: &'a G,
}

/// Reports what is wrong with the files that are named, lists, and reports the counts.
fn report_and_survey<F: Files, G: Files, W: Output, E: Write>(
    world: &World<'_, F>,
    choice: &Choice<'_, G>,
    asked: Asked,
    out: &mut W,
    err: &mut E,
) -> Result<u8, Stop>
    ensures lists { IfOk result (λ status. (all : List OfShown)
        × Writes choice.now.options.now (map (option_map problem_of) asked.errors.items) all status (Appends (W.contents out.old) (W.contents out.new)) (Appends (E.contents err.old) (E.contents err.new))
        × ((tree : Tree) → IsHonest F.Files world.now.files.now tree → asked.walk.roots ≡ [] → AreSurveys tree world.now.env.now choice.now.options.now asked.walk (all_met all))
        × ((tree : Tree) → IsHonest G.Files choice.now.bare.now tree → AreJudged tree choice.now.options.now all)) }
    ensures ended { IfErr result (λ stop. (all : List OfShown)
        × EndsAfter (all_written choice.now.options.now all) (flat_map report_of (map (option_map problem_of) asked.errors.items) ++ begun_told choice.now.options.now (all_met all))
        (Appends (W.contents out.old) (W.contents out.new)) (Appends (E.contents err.old) (E.contents err.new)) stop
        × ((tree : Tree) → IsHonest F.Files world.now.files.now tree → asked.walk.roots ≡ [] → AreBegun tree world.now.env.now choice.now.options.now asked.walk (all_met all))
        × ((tree : Tree) → IsHonest G.Files choice.now.bare.now tree → AreJudged tree choice.now.options.now all)) }
    ensures said { IfErr result (SaidBy (W.fails out.new)) }
{
    let reported = report_all(&asked.errors, err)?;
    let options = choice.options;
    let Ok(matchers) = matchers_of(world, options, asked.walk) else {
        return Err(Stop::Memory);
    };
    let counts = survey_all(world, choice, matchers, out, err)?;
    let counts = Counts {
        reported: counts.reported.saturating_add(reported),
        found: counts.found,
    };
    report_counts(options, counts, err)?;
    Ok(status_of(counts))
}

/// A matcher for each root, without the slashes at its end, by these settings.
pub(crate) fn matchers_of<F: Files>(
    world: &World<'_, F>,
    options: &Options,
    mut walk: WalkOptions,
) -> Result<Vec<IncrementalIgnore>, Error>
    ensures made { (tree : Tree) → IsHonest F.Files world.now.files.now tree
        → IfOk result (λ ms. (roots : List Path) × AllZip IsTrimmed (map string_bytes options.now.roots.items) roots
        × AreMatchers tree world.now.env.now (with_roots walk roots) ms.items) }
    ensures empty { IfOk result (λ ms. All (λ m. KeepsNothing m.cache) ms.items) }
{
    for root in trimmed_roots(world.alloc, &options.roots)? {
        walk.push_root(root.as_str())?;
    }
    WalkBuilder::from_options(walk).build_matchers(world.files, world.env)
}

/// Surveys the root of each matcher, and writes.
fn survey_all<F: Files, G: Files, W: Output, E: Write>(
    world: &World<'_, F>,
    choice: &Choice<'_, G>,
    matchers: Vec<IncrementalIgnore>,
    out: &mut W,
    err: &mut E,
) -> Result<Counts, Stop>
    ensures lists { IfOk result (λ counts. (all : List OfShown) × AllZip (λ m r. OfMatcher F.Files world.now.files.now IsWhole m (seen_in r)) matchers.items all
        × Appends (W.contents out.old) (W.contents out.new) (all_written choice.now.options.now all)
        × Appends (E.contents err.old) (E.contents err.new) (all_told choice.now.options.now (all_met all))
        × (counts.reported ≡ counted 0 (map (is_wrong choice.now.options.now) (all_seen (all_met all)))) × (counts.found ≡ found_in choice.now.options.now all)
        × ((tree : Tree) → IsHonest G.Files choice.now.bare.now tree → AreJudged tree choice.now.options.now all)) }
    ensures ended { IfErr result (λ stop. (done : List OfShown) × (last : OfShown) × (first rest : List IncrementalIgnore) × (matcher : IncrementalIgnore)
        × (matchers.items ≡ first ++ matcher ∷ rest) × AllZip (λ m r. OfMatcher F.Files world.now.files.now IsWhole m (seen_in r)) first done
        × OfMatcher F.Files world.now.files.now IsBegun matcher (seen_in last)
        × EndsAfter (all_written choice.now.options.now (done ++ last ∷ [])) (begun_told choice.now.options.now (all_met (done ++ last ∷ [])))
        (Appends (W.contents out.old) (W.contents out.new)) (Appends (E.contents err.old) (E.contents err.new)) stop
        × ((tree : Tree) → IsHonest G.Files choice.now.bare.now tree → AreJudged tree choice.now.options.now (done ++ last ∷ []))) }
    ensures said { IfErr result (SaidBy (W.fails out.new)) }
{
    let mut counts = Counts::begun(0);
    for matcher in matchers {
        counts = counts.and(survey_root(world, choice, matcher, out, err)?);
    }
    Ok(counts)
}

/// Surveys the root of a matcher, and writes.
fn survey_root<F: Files, G: Files, W: Output, E: Write>(
    world: &World<'_, F>,
    choice: &Choice<'_, G>,
    matcher: IncrementalIgnore,
    out: &mut W,
    err: &mut E,
) -> Result<Counts, Stop>
    ensures lists { IfOk result (λ counts. (r : OfShown) × OfMatcher F.Files world.now.files.now IsWhole matcher (seen_in r)
        × Appends (W.contents out.old) (W.contents out.new) (flat_map (written choice.now.options.now r.0) r.1)
        × Appends (E.contents err.old) (E.contents err.new) (told_in choice.now.options.now (seen_in r).1)
        × (counts.reported ≡ counted 0 (map (is_wrong choice.now.options.now) (seen_in r).1)) × (counts.found ≡ counted 0 (map (is_found choice.now.options.now) r.1))
        × ((tree : Tree) → IsHonest G.Files choice.now.bare.now tree → All (IsJudged tree choice.now.options.now r.0) r.1)) }
    ensures ended { IfErr result (λ stop. (r : OfShown) × OfMatcher F.Files world.now.files.now IsBegun matcher (seen_in r)
        × EndsAfter (flat_map (written choice.now.options.now r.0) r.1) (begun_in choice.now.options.now (seen_in r).1)
        (Appends (W.contents out.old) (W.contents out.new)) (Appends (E.contents err.old) (E.contents err.new)) stop
        × ((tree : Tree) → IsHonest G.Files choice.now.bare.now tree → All (IsJudged tree choice.now.options.now r.0) r.1)) }
    ensures said { IfErr result (SaidBy (W.fails out.new)) }
{
    let Ok(root) = String::from_str(world.alloc, matcher.root()) else {
        return Err(Stop::Memory);
    };
    let Ok(survey) = Survey::new(world.alloc, world.files, matcher) else {
        return Err(Stop::Memory);
    };
    let place = Place {
        alloc: world.alloc,
        options: choice.options,
        bare: choice.bare,
        root: root.as_str(),
    };
    let mut names = None;
    let counts = write_items(survey, &place, &mut names, out, err)?;
    end_names(&names, err)?;
    Ok(counts)
}

/// Where entries are, how they are written, and the files in which repositories are looked for.
#[derive(Drop)]
struct Place<'a, G: Files> {
    alloc: Global,
    options: &'a Options,
    bare: &'a G,
    root: &'a str,
}

/// Writes the items of a survey.
fn write_items<I: Iterator<Item = Item> + Drop, G: Files, W: Output, E: Write>(
    items: I,
    place: &Place<'_, G>,
    names: &mut Option<Unnamed>,
    out: &mut W,
    err: &mut E,
) -> Result<Counts, Stop>
    requires ends { I.can_next items × IsFinite (I.remaining items) }
    ensures lists { IfOk result (λ counts. (all : List (Result Surveyed Error)) × (shown : List Shown) × Drains I.next_gives items all
        × (map (λ s. s.0) shown ≡ map seen_of all)
        × Appends (W.contents out.old) (W.contents out.new) (flat_map (written place.now.options.now place.now.root.now) shown)
        × Appends (E.contents err.old) (E.contents err.new) (told_from place.now.options.now names.old (map (λ s. s.0) shown))
        × (names.new ≡ left_from names.old (map (λ s. s.0) shown))
        × (counts.reported ≡ counted 0 (map (is_wrong place.now.options.now) (map (λ s. s.0) shown))) × (counts.found ≡ counted 0 (map (is_found place.now.options.now) shown))
        × All (λ item. item_of item ≢ Err memory) all
        × ((tree : Tree) → IsHonest G.Files place.now.bare.now tree → All (IsJudged tree place.now.options.now place.now.root.now) shown)) }
    ensures ended { IfErr result (λ stop. (all : List (Result Surveyed Error)) × (shown : List Shown) × (x : Result Surveyed Error) × (v : I)
        × YieldsThen I.next_gives items all (Some x) v
        × (map (λ s. s.0) shown ≡ map seen_of all)
        × EndsAfter (flat_map (written place.now.options.now place.now.root.now) shown) (told_from place.now.options.now names.old (map (λ s. s.0) shown))
        (Appends (W.contents out.old) (W.contents out.new)) (Appends (E.contents err.old) (E.contents err.new)) stop
        × All (λ item. item_of item ≢ Err memory) all
        × ((tree : Tree) → IsHonest G.Files place.now.bare.now tree → All (IsJudged tree place.now.options.now place.now.root.now) shown)) }
    ensures said { IfErr result (SaidBy (W.fails out.new)) }
{
    let mut counts = Counts::begun(0);
    for item in items {
        counts = counts.with(write_item(item, place, names, out, err)?);
    }
    Ok(counts)
}

/// Writes what is listed of an item, and reports what is wrong.
#[tactic(auto, using(crate::proofs::StopLemmas::other_said))]
fn write_item<G: Files, W: Output, E: Write>(
    item: Item,
    place: &Place<'_, G>,
    names: &mut Option<Unnamed>,
    out: &mut W,
    err: &mut E,
) -> Result<Seen, Stop>
    ensures writes { IfOk result (λ seen. (left_out : Bool) × Appends (W.contents out.old) (W.contents out.new) (written place.now.options.now place.now.root.now (seen_of item, left_out))
        × (seen.found ≡ is_found place.now.options.now (seen_of item, left_out))
        × ((tree : Tree) → IsHonest G.Files place.now.bare.now tree → IsJudged tree place.now.options.now place.now.root.now (seen_of item, left_out))) }
    ensures reports { OnOk result (Appends (E.contents err.old) (E.contents err.new) (reports place.now.options.now names.old (seen_of item))) }
    ensures names { OnOk result (names.new ≡ names_by names.old (seen_of item)) }
    ensures counts { IfOk result (λ seen. seen.reported ≡ is_wrong place.now.options.now (seen_of item)) }
    ensures enough { OnOk result (item_of item ≢ Err memory) }
    ensures ended { IfErr result (EndsAfter [] [] (Appends (W.contents out.old) (W.contents out.new)) (Appends (E.contents err.old) (E.contents err.new))) }
    ensures said { IfErr result (SaidBy (W.fails out.new)) }
{
    match item {
        Ok(entry) => write_entry(&entry, place, names, out, err),
        Err(error) => note_item(error, names, err),
    }
}

/// Notes what stands in the place of an entry: one more name that isn't UTF-8, or else it is reported.
pub(crate) fn note_item<E: Write>(
    error: Error,
    names: &mut Option<Unnamed>,
    err: &mut E,
) -> Result<Seen, Stop>
    ensures reports { OnOk result (Appends (E.contents err.old) (E.contents err.new) (item_told names.old (problem_of error) (name_place (problem_of error)))) }
    ensures names { OnOk result (names.new ≡ item_names names.old (name_place (problem_of error))) }
    ensures seen { IfOk result (λ seen. (seen.reported ≡ true) × (seen.found ≡ false)) }
    ensures enough { OnOk result (problem_of error ≢ memory) }
    ensures ended { IfErr result (EndsAfter [] [] (λ bs. bs ≡ []) (Appends (E.contents err.old) (E.contents err.new))) }
    ensures other { IfErr result IsOther }
{
    match place_in(error) {
        Ok(place) => note_name(place, names, err),
        Err(error) => report_item(&error, err),
    }
}

/// The folder of a name that isn't UTF-8, where an error in the place of an entry is one; else the
/// error.
fn place_in(error: Error) -> Result<Name, Error>
    ensures place { IfOk result (λ place. name_place (problem_of error) ≡ Some place) }
    ensures other { IfErr result (λ e. (problem_of e ≡ problem_of error) × (name_place (problem_of error) ≡ None)) }
{
    match error {
        Error::WithPath { path, err } => {
            if is_bad_name(&err) {
                Ok(Name::new(path))
            } else {
                Err(Error::WithPath { path, err })
            }
        }
        other => Err(other),
    }
}

/// Counts a name in a folder that isn't UTF-8.
fn note_name<E: Write>(place: Name, names: &mut Option<Unnamed>, err: &mut E) -> Result<Seen, Stop>
    ensures reports { OnOk result (Appends (E.contents err.old) (E.contents err.new) (told_before place names.old)) }
    ensures names { OnOk result (names.new ≡ Some (with_name place 1 names.old)) }
    ensures seen { IfOk result (λ seen. (seen.reported ≡ true) × (seen.found ≡ false)) }
    ensures ended { IfErr result (λ stop. stop ≡ Stop.Silence) }
{
    count_name(place, 1, names, err)?;
    Ok(Seen {
        reported: true,
        found: false,
    })
}

/// Reports what stands in the place of an entry.
fn report_item<E: Write>(error: &Error, err: &mut E) -> Result<Seen, Stop>
    ensures reports { OnOk result (Appends (E.contents err.old) (E.contents err.new) (report_line (problem_of error.now))) }
    ensures seen { IfOk result (λ seen. (seen.reported ≡ true) × (seen.found ≡ false)) }
    ensures enough { OnOk result (problem_of error.now ≢ memory) }
    ensures ended { IfErr result (EndsAfter [] [] (λ bs. bs ≡ []) (Appends (E.contents err.old) (E.contents err.new))) }
    ensures other { IfErr result IsOther }
{
    match error {
        Error::Memory => Err(Stop::Memory),
        _ => report_problem(error, err),
    }
}

/// Reports a problem in the place of an entry.
fn report_problem<E: Write>(error: &Error, err: &mut E) -> Result<Seen, Stop>
    ensures reports { OnOk result (Appends (E.contents err.old) (E.contents err.new) (report_line (problem_of error.now))) }
    ensures seen { IfOk result (λ seen. (seen.reported ≡ true) × (seen.found ≡ false)) }
    ensures ended { IfErr result (λ stop. stop ≡ Stop.Silence) }
{
    report(error, err)?;
    Ok(Seen {
        reported: true,
        found: false,
    })
}

/// Writes an entry, where it is ignored and not left out, and reports the names of a folder that aren't
/// UTF-8, which come first there, and what is wrong with the files of rules that were read for it.
fn write_entry<G: Files, W: Output, E: Write>(
    entry: &Surveyed,
    place: &Place<'_, G>,
    names: &mut Option<Unnamed>,
    out: &mut W,
    err: &mut E,
) -> Result<Seen, Stop>
    ensures writes { IfOk result (λ seen. (left_out : Bool) × Appends (W.contents out.old) (W.contents out.new) (written place.now.options.now place.now.root.now (seen_of (Ok entry.now), left_out))
        × (seen.found ≡ is_found place.now.options.now (seen_of (Ok entry.now), left_out))
        × ((tree : Tree) → IsHonest G.Files place.now.bare.now tree → IsJudged tree place.now.options.now place.now.root.now (seen_of (Ok entry.now), left_out))) }
    ensures reports { OnOk result (Appends (E.contents err.old) (E.contents err.new) (reports place.now.options.now names.old (seen_of (Ok entry.now)))) }
    ensures names { OnOk result (names.new ≡ names_by names.old (seen_of (Ok entry.now))) }
    ensures counts { IfOk result (λ seen. seen.reported ≡ is_wrong place.now.options.now (seen_of (Ok entry.now))) }
    ensures ended { IfErr result (EndsAfter [] [] (Appends (W.contents out.old) (W.contents out.new)) (Appends (E.contents err.old) (E.contents err.new))) }
    ensures said { IfErr result (SaidBy (W.fails out.new)) }
{
    let options = place.options;
    let left_out = is_left_out(entry, place)?;
    let found = is_topmost(entry, options) && !left_out;
    write_found(found, entry, place, out)?;
    leave_names(0, names, err)?;
    let reported = report_rules(options, entry.error.as_ref(), err)?;
    Ok(Seen { reported, found })
}

/// Whether an entry is left out: it is a folder in which a repository is looked for, and holds one.
fn is_left_out<G: Files>(entry: &Surveyed, place: &Place<'_, G>) -> Result<bool, Stop>
    ensures judged { (tree : Tree) → IsHonest G.Files place.now.bare.now tree
        → IfOk result (λ left_out. IsJudged tree place.now.options.now place.now.root.now (seen_of (Ok entry.now), left_out)) }
    ensures ended { IfErr result (λ stop. stop ≡ Stop.Memory) }
{
    if !is_searched(entry, place.options) {
        return Ok(false);
    }
    let Ok(path) = text::join(place.alloc, place.root, entry.path.as_str()) else {
        return Err(Stop::Memory);
    };
    match holds_repository(place.alloc, place.bare, path.as_str()) {
        Ok(held) => Ok(held),
        Err(_) => Err(Stop::Memory),
    }
}

/// Whether a repository is looked for in an entry: that is asked for, and it is a folder that else
/// were listed.
fn is_searched(entry: &Surveyed, options: &Options) -> bool
    ensures { result ≡ is_searched options.now (entry_of entry.now) }
{
    options.no_repositories && is_topmost(entry, options) && entry.file_type.is_dir()
}

/// Whether an entry is to be listed: it is ignored, and no kind is chosen, or its kind is.
fn is_topmost(entry: &Surveyed, options: &Options) -> bool
    ensures { result ≡ is_topmost options.now (entry_of entry.now) }
{
    entry.explanation.answer.is_ignore() && is_of_kind(options, Some(entry.file_type))
}

/// Writes an entry, where it is listed, unless nothing is to be written.
fn write_found<G: Files, W: Output>(
    found: bool,
    entry: &Surveyed,
    place: &Place<'_, G>,
    out: &mut W,
) -> Result<(), Stop>
    ensures writes { OnOk result (Appends (W.contents out.old) (W.contents out.new)
        (if found && not place.now.options.now.quiet then entry_text place.now.options.now place.now.root.now (entry_of entry.now) else [])) }
    ensures ended { IfErr result (EndsAfter [] [] (Appends (W.contents out.old) (W.contents out.new)) (λ bs. bs ≡ [])) }
    ensures said { IfErr result (SaidBy (W.fails out.new)) }
{
    if !found || place.options.quiet {
        return Ok(());
    }
    write_ignored(entry, place, out)
}

/// Writes the path of an entry, after its reason where that is asked for.
fn write_ignored<G: Files, W: Output>(
    entry: &Surveyed,
    place: &Place<'_, G>,
    out: &mut W,
) -> Result<(), Stop>
    ensures writes { OnOk result (Appends (W.contents out.old) (W.contents out.new) (entry_text place.now.options.now place.now.root.now (entry_of entry.now))) }
    ensures ended { IfErr result (EndsAfter [] [] (Appends (W.contents out.old) (W.contents out.new)) (λ bs. bs ≡ [])) }
    ensures said { IfErr result (SaidBy (W.fails out.new)) }
{
    let Ok(path) = text::join(place.alloc, place.root, entry.path.as_str()) else {
        return Err(Stop::Memory);
    };
    let options = place.options;
    if !options.reasons {
        return write_path(options, path.as_str(), out);
    }
    let null = options.null;
    if options.is_bare {
        let form = Form {
            base: Some("."),
            null,
        };
        return write_reasoned(form, &entry.explanation, entry.path.as_str(), out);
    }
    let form = Form { base: None, null };
    write_reasoned(form, &entry.explanation, path.as_str(), out)
}
