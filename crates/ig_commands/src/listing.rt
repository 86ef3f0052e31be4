//! The command `ls`: the entries of a walk that the options choose.
ghost use Rattle.std.specs.Prelude.{◌≡◌, ◌≢◌, ◌++◌, ℕ, List, Result, Ok, Err, None, Some, false, [], map, option_map, OnOk, IfOk, IfErr};
ghost use Rattle.std.specs.Io.KnownBytes.{Appends};
ghost use Rattle.std.specs.Iterator.{Drains, IsFinite, YieldsThen};
ghost use Rattle.std.specs.List.{flat_map, list_any};
ghost use Rattle.ignore_base.specs.Problem.{memory, problem_of};
ghost use Rattle.ignore_base.specs.declared.error.Error.{Error};
ghost use Rattle.ignore_walk.specs.Entry.{Item, entry_of, item_of, problem_in};
ghost use Rattle.ignore_walk.specs.declared.entry.DirEntry.{DirEntry};
ghost use Rattle.ig_commands.specs.Folders.{last_in};
ghost use Rattle.ig_commands.specs.Listing.{AreBegunOf, AreFirstOf, AreListedOf, EndsAsked, Lists, ListsAsked, Writes, begun_reports};
ghost use Rattle.ig_commands.specs.Names.{still, told_at, told_before, with_name};
ghost use Rattle.ig_commands.specs.Reports.{Notes, fault_names, fault_told, first_reports, is_known, is_reported, name_depth, names_after, names_left, place_at, report_of, reports_of, to_report, whole_reports};
ghost use Rattle.ig_commands.specs.Stops.{EndsAfter, IsOther, SaidBy};
ghost use Rattle.ig_commands.specs.Writing.{is_found, is_listed, lines_of};

use crate::asking::{Asked, asked_for};
use crate::counts::{Counts, Seen, report_counts, status_of};
use crate::folders::Folders;
use crate::names::{Unnamed, count_name, end_names, leave_names};
use crate::reports::{name_depth, place_at, report_all, report_fault, report_rules};
use crate::stop::Stop;
use crate::writing::{is_listed, refuse_or_end, write_path};
use commands::internal::prepare_list;
use commands::{Output, World};
use ig_options::Options;
use ignore::walk_laws::{
    a_builder_without_closures, a_finished_walk_has_no_other_list, a_finished_walk_is_the_headline,
    a_run_begins_the_list, a_run_yields_the_list, only_the_last_item_ends,
};
use ignore::{Owner, WalkBuilder, WalkOptions};
use ignore_base::Error;
use ignore_files::{FileType, Files};
use ignore_types::types::TypesBuilder;
use ignore_walk::{DirEntry, Item};
use std::alloc::Global;
use std::io::Write;

/// Writes the paths of the entries of the walk that the options ask for. `first` has the file types
/// that exist without `--type-add`. What is wrong with an entry, or stands in its place, is reported
/// on `err`, and so is what is wrong with the files of `--ignore-file`. It returns the status: 0
/// where an entry was found, 1 where none was, 2 where something was reported, as where the options
/// are rejected.
///
/// # Errors
/// Why it ended early, of which nothing was reported.
pub fn list<F: Files, W: Output, E: Write>(
    world: &World<'_, F>,
    options: &Options,
    first: TypesBuilder,
    out: &mut W,
    err: &mut E,
) -> Result<u8, Stop>
    ensures lists { IfOk result (λ status. ListsAsked F.Files world.now.files.now world.now.env.now options.now first status
        (Appends (W.contents out.old) (W.contents out.new)) (Appends (E.contents err.old) (E.contents err.new))) }
    ensures ended { IfErr result (EndsAsked F.Files world.now.files.now world.now.env.now options.now first
        (Appends (W.contents out.old) (W.contents out.new)) (Appends (E.contents err.old) (E.contents err.new))) }
    ensures said { IfErr result (SaidBy (W.fails out.new)) }
{
    match asked_for(world, options, first) {
        Ok(asked) => report_and_walk(world, options, asked, out, err),
        Err(error) => refuse_or_end(&error, err),
    }
}

/// Reports what is wrong with the files that are named, lists, and reports the counts.
fn report_and_walk<F: Files, W: Output, E: Write>(
    world: &World<'_, F>,
    options: &Options,
    asked: Asked,
    out: &mut W,
    err: &mut E,
) -> Result<u8, Stop>
    ensures lists { IfOk result (λ status. (items : List Item) × Lists options.now (map (option_map problem_of) asked.errors.items) items
        status (Appends (W.contents out.old) (W.contents out.new)) (Appends (E.contents err.old) (E.contents err.new))
        × AreListedOf F.Files world.now.files.now world.now.env.now options.now asked.walk items) }
    ensures ended { IfErr result (λ stop. (items : List Item) × EndsAfter (flat_map (lines_of options.now) items)
        (begun_reports options.now (map (option_map problem_of) asked.errors.items) items) (Appends (W.contents out.old) (W.contents out.new)) (Appends (E.contents err.old) (E.contents err.new)) stop
        × AreFirstOf F.Files world.now.files.now world.now.env.now options.now asked.walk items) }
    ensures said { IfErr result (SaidBy (W.fails out.new)) }
{
    let reported = report_all(&asked.errors, err)?;
    let counts = walk_and_write(world, options, asked.walk, out, err)?;
    let counts = Counts {
        reported: counts.reported.saturating_add(reported),
        found: counts.found,
    };
    report_counts(options, counts, err)?;
    Ok(status_of(counts))
}

/// Walks and writes.
fn walk_and_write<F: Files, W: Output, E: Write>(
    world: &World<'_, F>,
    options: &Options,
    mut walk: WalkOptions,
    out: &mut W,
    err: &mut E,
) -> Result<Counts, Stop>
    ensures lists { IfOk result (λ counts. (items : List Item) × Writes options.now items (whole_reports options.now items) counts.reported counts.found (Appends (W.contents out.old) (W.contents out.new)) (Appends (E.contents err.old) (E.contents err.new))
        × AreListedOf F.Files world.now.files.now world.now.env.now options.now walk items) }
    ensures ended { IfErr result (λ stop. (items : List Item) × EndsAfter (flat_map (lines_of options.now) items)
        (first_reports options.now items) (Appends (W.contents out.old) (W.contents out.new)) (Appends (E.contents err.old) (E.contents err.new)) stop
        × AreBegunOf F.Files world.now.files.now world.now.env.now options.now walk items) }
    ensures said { IfErr result (SaidBy (W.fails out.new)) }
{
    let Ok(()) = prepare_list(world.alloc, &options.roots, &mut walk) else {
        return Err(Stop::Memory);
    };
    let builder = WalkBuilder::from_options(walk);
    let lent = &builder;
    let Ok(steps) = lent.build(world.files, world.env) else {
        return Err(Stop::Memory);
    };
    a_builder_without_closures(lent);
    a_finished_walk_is_the_headline::<F, Owner<'static>>();
    a_finished_walk_has_no_other_list::<F, Owner<'static>>();
    only_the_last_item_ends::<F, Owner<'static>>();
    a_run_yields_the_list::<F, Owner<'static>>();
    a_run_begins_the_list::<F, Owner<'static>>();
    let walked = write_items(steps, options, world.alloc, out, err)?;
    end_names(&walked.names, err)?;
    Ok(walked.counts)
}

/// What was counted in a walk: what was found and reported, and the names that aren't UTF-8 which are
/// still to be reported.
#[derive(Drop)]
struct Walked {
    counts: Counts,
    names: Option<Unnamed>,
}

/// What reports go by: the last entry at each depth, and the names that aren't UTF-8 which are still to
/// be reported.
#[derive(Drop)]
struct Met {
    alloc: Global,
    folders: Folders,
    names: Option<Unnamed>,
}

impl Met {
    /// Nothing was met.
    fn new(alloc: Global) -> Met
        ensures folders { (depth : ℕ) → last_in result.folders depth ≡ None }
        ensures names { result.names ≡ None }
    {
        Met {
            alloc,
            folders: Folders::new(alloc),
            names: None,
        }
    }
}

/// Writes the items of a walk.
fn write_items<I: Iterator<Item = Item>, W: Output, E: Write>(
    items: I,
    options: &Options,
    alloc: Global,
    out: &mut W,
    err: &mut E,
) -> Result<Walked, Stop>
    requires ends { I.can_next items × IsFinite (I.remaining items) }
    ensures lists { IfOk result (λ walked. (all : List (Result DirEntry Error)) × Drains I.next_gives items all
        × Writes options.now (map item_of all) (first_reports options.now (map item_of all)) walked.counts.reported walked.counts.found (Appends (W.contents out.old) (W.contents out.new)) (Appends (E.contents err.old) (E.contents err.new))
        × (walked.names ≡ names_left [] None (map item_of all))) }
    ensures ended { IfErr result (λ stop. (all : List (Result DirEntry Error)) × (x : Result DirEntry Error) × (v : I)
        × YieldsThen I.next_gives items all (Some x) v
        × EndsAfter (flat_map (lines_of options.now) (map item_of all)) (first_reports options.now (map item_of all)) (Appends (W.contents out.old) (W.contents out.new)) (Appends (E.contents err.old) (E.contents err.new)) stop) }
    ensures said { IfErr result (SaidBy (W.fails out.new)) }
{
    let mut met = Met::new(alloc);
    let mut counts = Counts::begun(0);
    for item in items {
        let one = write_item(item, options, &mut met, out, err)?;
        counts = counts.with(one);
    }
    Ok(Walked {
        counts,
        names: met.names,
    })
}

/// Writes an item, and notes it: an entry as the last one at its depth, and a name that isn't UTF-8 as
/// one more.
#[tactic(auto, using(crate::proofs::StopLemmas::other_said))]
fn write_item<W: Output, E: Write>(
    item: Item,
    options: &Options,
    met: &mut Met,
    out: &mut W,
    err: &mut E,
) -> Result<Seen, Stop>
    ensures lists { IfOk result (λ seen. Appends (W.contents out.old) (W.contents out.new) (lines_of options.now (item_of item))
        × Appends (E.contents err.old) (E.contents err.new) (reports_of options.now (last_in met.old.folders) met.old.names (item_of item))
        × (seen.reported ≡ is_reported options.now (item_of item)) × (seen.found ≡ is_found options.now (item_of item))) }
    ensures notes { OnOk result (Notes (item_of item) (last_in met.old.folders) (last_in met.new.folders)) }
    ensures names { OnOk result (met.new.names ≡ names_after (last_in met.old.folders) met.old.names (item_of item)) }
    ensures ended { IfErr result (EndsAfter [] [] (Appends (W.contents out.old) (W.contents out.new)) (Appends (E.contents err.old) (E.contents err.new))) }
    ensures enough { OnOk result (item_of item ≢ Err memory) }
    ensures cause { item_of item ≡ Err memory → IfErr result (λ stop. stop ≡ Stop.Memory) }
    ensures said { IfErr result (SaidBy (W.fails out.new)) }
{
    match item {
        Ok(entry) => note_and_write(entry, options, met, out, err),
        Err(Error::Memory) => Err(Stop::Memory),
        Err(error) => {
            note_fault(&error, met, err)?;
            Ok(Seen {
                reported: true,
                found: false,
            })
        }
    }
}

/// Notes an entry as the last one at its depth, and writes it.
fn note_and_write<W: Output, E: Write>(
    entry: DirEntry,
    options: &Options,
    met: &mut Met,
    out: &mut W,
    err: &mut E,
) -> Result<Seen, Stop>
    ensures lists { IfOk result (λ seen. Appends (W.contents out.old) (W.contents out.new) (lines_of options.now (item_of (Ok entry)))
        × Appends (E.contents err.old) (E.contents err.new) (reports_of options.now (last_in met.old.folders) met.old.names (item_of (Ok entry)))
        × (seen.reported ≡ is_reported options.now (item_of (Ok entry))) × (seen.found ≡ is_found options.now (item_of (Ok entry)))) }
    ensures notes { OnOk result (Notes (item_of (Ok entry)) (last_in met.old.folders) (last_in met.new.folders)) }
    ensures names { OnOk result (met.new.names ≡ names_after (last_in met.old.folders) met.old.names (item_of (Ok entry))) }
    ensures ended { IfErr result (EndsAfter [] [] (Appends (W.contents out.old) (W.contents out.new)) (Appends (E.contents err.old) (E.contents err.new))) }
    ensures said { IfErr result (SaidBy (W.fails out.new)) }
{
    let depth = entry.depth();
    let Ok(()) = met.folders.note(entry) else {
        return Err(Stop::Memory);
    };
    match met.folders.get(depth) {
        Some(entry) => write_entry(entry, options, &mut met.names, out, err),
        None => unreachable!(),
    }
}

/// Notes an error in the place of an entry: one more name that isn't UTF-8, or else it is reported.
fn note_fault<E: Write>(error: &Error, met: &mut Met, err: &mut E) -> Result<(), Stop>
    ensures told { OnOk result (Appends (E.contents err.old) (E.contents err.new) (fault_told (last_in met.old.folders) met.old.names (problem_of error.now) (name_depth (problem_of error.now)))) }
    ensures names { OnOk result (met.new.names ≡ fault_names (last_in met.old.folders) met.old.names (name_depth (problem_of error.now))) }
    ensures folders { met.new.folders ≡ met.old.folders }
    ensures ended { IfErr result (EndsAfter [] [] (λ bs. bs ≡ []) (Appends (E.contents err.old) (E.contents err.new))) }
    ensures other { IfErr result IsOther }
{
    match name_depth(error) {
        None => report_fault(error, &met.folders, err),
        Some(depth) => note_name(depth, met, err),
    }
}

/// Counts a name at a depth that isn't UTF-8.
fn note_name<E: Write>(depth: usize, met: &mut Met, err: &mut E) -> Result<(), Stop>
    ensures told { OnOk result (Appends (E.contents err.old) (E.contents err.new) (told_before (place_at (last_in met.old.folders) depth) met.old.names)) }
    ensures names { OnOk result (met.new.names ≡ Some (with_name (place_at (last_in met.old.folders) depth) depth met.old.names)) }
    ensures folders { met.new.folders ≡ met.old.folders }
    ensures ended { IfErr result (EndsAfter [] [] (λ bs. bs ≡ []) (Appends (E.contents err.old) (E.contents err.new))) }
    ensures other { IfErr result IsOther }
{
    let Ok(place) = place_at(met.alloc, &met.folders, depth) else {
        return Err(Stop::Memory);
    };
    count_name(place, depth, &mut met.names, err)
}

/// Writes an entry, where it is listed, and reports the names of a folder that is left, and its
/// problem, if it has one.
fn write_entry<W: Output, E: Write>(
    entry: &DirEntry,
    options: &Options,
    names: &mut Option<Unnamed>,
    out: &mut W,
    err: &mut E,
) -> Result<Seen, Stop>
    ensures lists { IfOk result (λ seen. Appends (W.contents out.old) (W.contents out.new) (lines_of options.now (item_of (Ok entry.now)))
        × Appends (E.contents err.old) (E.contents err.new) (told_at (entry_of entry.now).depth names.old ++ report_of (to_report options.now (problem_in entry.now)))
        × (seen.reported ≡ is_known (to_report options.now (problem_in entry.now))) × (seen.found ≡ is_listed options.now (entry_of entry.now).kind)) }
    ensures names { OnOk result (names.new ≡ still (entry_of entry.now).depth names.old) }
    ensures ended { IfErr result (EndsAfter [] [] (Appends (W.contents out.old) (W.contents out.new)) (Appends (E.contents err.old) (E.contents err.new))) }
    ensures said { IfErr result (SaidBy (W.fails out.new)) }
{
    let found = is_listed(options, entry.file_type());
    if found && !options.quiet {
        write_path(options, entry.path(), out)?;
    }
    leave_names(entry.depth(), names, err)?;
    let reported = report_rules(options, entry.error(), err)?;
    Ok(Seen { reported, found })
}
