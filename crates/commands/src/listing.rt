//! The command `list`: the entries of a walk, each on a line.
ghost use Rattle.std.specs.Prelude.{◌≡◌, ◌≢◌, ◌≤◌, ◌⊎◌, List, Option, Result, Ok, Err, Some, true, map, OnOk, IfOk, IfErr, if◌then◌else◌, string_bytes, []};
ghost use Rattle.std.specs.Io.KnownBytes.{Appends};
ghost use Rattle.std.specs.Iterator.{Drains, IsFinite, YieldsThen};
ghost use Rattle.std.specs.List.{AllZip};
ghost use Rattle.ignore_base.specs.Problem.{memory, problem_of};
ghost use Rattle.ignore_base.specs.declared.error.Error.{Error};
ghost use Rattle.ignore_walk.specs.Entry.{Item, item_of};
ghost use Rattle.ignore_walk.specs.declared.callbacks.Order.TheVariants.{ByName};
ghost use Rattle.ignore_walk.specs.declared.entry.DirEntry.{DirEntry};
ghost use Rattle.ignore.specs.Builder.{unset, with_order};
ghost use Rattle.commands.specs.Listing.{IsOf, Lists, report_line, lines_of, reports_of, is_reported};
ghost use Rattle.commands.specs.Stops.{EndsAfter, EndsReportedAfter, EndsUnreportedAfter, SaidBy};
ghost use Rattle.commands.specs.Walking.{AreBegunOf, AreListedOf, HasRoots, IsTrimmed};

use crate::output::Output;
use crate::stop::{Stop, report_stop};
use crate::world::World;
use crate::writing::write_line;
use ignore::walk_laws::{
    a_builder_without_closures, a_finished_walk_has_no_other_list, a_finished_walk_is_the_headline,
    a_run_begins_the_list, a_run_yields_the_list, only_the_last_item_ends,
};
use ignore::{Order, Owner, WalkBuilder, WalkOptions};
use ignore_base::Error;
use ignore_files::{Files, Name};
use ignore_walk::{DirEntry, Item};
use std::alloc::{AllocError, Global};
use std::io::Write;

/// How many steps the walk of a list may take, so that one of links without end has an end.
const MOST_STEPS: u64 = 1_000_000_000;

/// Writes the paths of the entries of a walk of these roots, each on a line. What is wrong with an
/// entry, or stands in its place, is reported on `err`. Names come in the order of texts, and the
/// settings are those of a new builder. It returns the status, as `run` does.
///
/// # Errors
/// Why the run ended, where that can't be written to `err`.
pub fn list<F: Files, W: Output, E: Write>(
    world: &World<'_, F>,
    roots: &[String],
    out: &mut W,
    err: &mut E,
) -> Result<u8, Stop>
    ensures lists { IfOk result (λ status. ((items : List Item) × Lists items status
        (Appends (W.contents out.old) (W.contents out.new)) (Appends (E.contents err.old) (E.contents err.new))
        × AreListedOf F.Files world.now.files.now world.now.env.now (map string_bytes roots.now) items)
        ⊎ ((status ≡ 2) × (items : List Item) × (next : Option Item) × EndsReportedAfter (SaidBy (W.fails out.new)) lines_of reports_of items next
        (Appends (W.contents out.old) (W.contents out.new)) (Appends (E.contents err.old) (E.contents err.new))
        × AreBegunOf F.Files world.now.files.now world.now.env.now (map string_bytes roots.now) items next)) }
    ensures unreported { IfErr result (λ stop. (items : List Item) × (next : Option Item)
        × EndsUnreportedAfter lines_of reports_of items next (Appends (W.contents out.old) (W.contents out.new))
        (Appends (E.contents err.old) (E.contents err.new)) stop
        × AreBegunOf F.Files world.now.files.now world.now.env.now (map string_bytes roots.now) items next) }
    ensures status { IfOk result (λ status. status ≤ 2) }
    ensures said { IfErr result (SaidBy (W.fails out.new)) }
{
    match walk_and_write(world, roots, out, err) {
        Ok(false) => Ok(0),
        Ok(true) => Ok(1),
        Err(stop) => report_stop(err, stop),
    }
}

/// Walks and writes. It returns whether something was reported.
fn walk_and_write<F: Files, W: Output, E: Write>(
    world: &World<'_, F>,
    roots: &[String],
    out: &mut W,
    err: &mut E,
) -> Result<bool, Stop>
    ensures lists { IfOk result (λ any. (items : List Item) × Lists items (if any then 1 else 0)
        (Appends (W.contents out.old) (W.contents out.new)) (Appends (E.contents err.old) (E.contents err.new))
        × AreListedOf F.Files world.now.files.now world.now.env.now (map string_bytes roots.now) items) }
    ensures ended { IfErr result (λ stop. (items : List Item) × (next : Option Item) × EndsAfter lines_of reports_of items next
        (Appends (W.contents out.old) (W.contents out.new)) (Appends (E.contents err.old) (E.contents err.new)) stop
        × AreBegunOf F.Files world.now.files.now world.now.env.now (map string_bytes roots.now) items next) }
    ensures said { IfErr result (SaidBy (W.fails out.new)) }
{
    let Ok(options) = list_options(world.alloc, roots) else {
        return Err(Stop::Memory);
    };
    let builder = WalkBuilder::from_options(options);
    let lent = &builder;
    let Ok(walk) = lent.build(world.files, world.env) else {
        return Err(Stop::Memory);
    };
    a_builder_without_closures(lent);
    a_finished_walk_is_the_headline::<F, Owner<'static>>();
    a_finished_walk_has_no_other_list::<F, Owner<'static>>();
    only_the_last_item_ends::<F, Owner<'static>>();
    a_run_yields_the_list::<F, Owner<'static>>();
    a_run_begins_the_list::<F, Owner<'static>>();
    write_items(walk, out, err)
}

/// The settings of a list of these roots: those at first, but by name.
fn list_options(alloc: Global, roots: &[String]) -> Result<WalkOptions, Error>
    ensures value { IfOk result (λ walk. HasRoots (map string_bytes roots.now) (with_order unset ByName) walk) }
{
    let mut walk = WalkOptions::empty(alloc);
    walk.sort(Order::ByName);
    prepare_list(alloc, roots, &mut walk)?;
    Ok(walk)
}

/// Adds roots, without the slashes at their ends, to the settings of a walk, and sets the limit of
/// steps of a list.
///
/// # Errors
/// `Error::Memory` alone.
pub fn prepare_list(alloc: Global, roots: &[String], walk: &mut WalkOptions) -> Result<(), Error>
    ensures added { OnOk result (HasRoots (map string_bytes roots.now) walk.old walk.new) }
    ensures out_of_memory { IfErr result (λ e. problem_of e ≡ memory) }
{
    let names = trimmed_roots(alloc, roots)?;
    for name in names {
        walk.push_root(name.as_str())?;
    }
    walk.limit(MOST_STEPS);
    Ok(())
}

/// The roots without the slashes at their ends.
pub fn trimmed_roots(alloc: Global, roots: &[String]) -> Result<Vec<Name>, AllocError>
    ensures { IfOk result (λ names. AllZip IsTrimmed (map string_bytes roots.now) names.items) }
{
    let mut names = Vec::new(alloc);
    for root in roots {
        names.push(Name::new(String::from_str(alloc, trimmed(root.as_str()))?))?;
    }
    Ok(names)
}

/// A root without the slashes at its end. Of slashes alone one is left.
fn trimmed(root: &str) -> &str
    ensures { IsTrimmed root.now result.now }
{
    let front = root.trim_end_matches('/');
    if front.is_empty() && !root.is_empty() {
        "/"
    } else {
        front
    }
}

/// Writes the items of a walk. It returns whether something was reported.
fn write_items<I: Iterator<Item = Item>, W: Output, E: Write>(
    items: I,
    out: &mut W,
    err: &mut E,
) -> Result<bool, Stop>
    requires ends { I.can_next items × IsFinite (I.remaining items) }
    ensures lists { IfOk result (λ any. (all : List (Result DirEntry Error)) × Drains I.next_gives items all × Lists (map item_of all)
        (if any then 1 else 0) (Appends (W.contents out.old) (W.contents out.new)) (Appends (E.contents err.old) (E.contents err.new))) }
    ensures ended { IfErr result (λ stop. (all : List (Result DirEntry Error)) × (x : Result DirEntry Error) × (v : I)
        × YieldsThen I.next_gives items all (Some x) v × (next : Option Item) × IsOf (item_of x) next
        × EndsAfter lines_of reports_of (map item_of all) next
        (Appends (W.contents out.old) (W.contents out.new)) (Appends (E.contents err.old) (E.contents err.new)) stop) }
    ensures said { IfErr result (SaidBy (W.fails out.new)) }
{
    let mut any = false;
    for item in items {
        any |= write_item(item, out, err)?;
    }
    Ok(any)
}

/// Writes an item. It returns whether something was reported.
#[tactic(auto, using(crate::proofs::ItemLemmas::ends_at))]
fn write_item<W: Output, E: Write>(item: Item, out: &mut W, err: &mut E) -> Result<bool, Stop>
    ensures lists { IfOk result (λ any. Appends (W.contents out.old) (W.contents out.new) (lines_of (item_of item))
        × Appends (E.contents err.old) (E.contents err.new) (reports_of (item_of item)) × (any ≡ is_reported (item_of item))) }
    ensures enough { OnOk result (item_of item ≢ Err memory) }
    ensures cause { item_of item ≡ Err memory → IfErr result (λ stop. stop ≡ Stop.Memory) }
    ensures only { IfErr result (λ stop. stop ≡ Stop.Memory → item_of item ≡ Err memory) }
    ensures ended { IfErr result (λ stop. (next : Option Item) × IsOf (item_of item) next
        × EndsAfter lines_of reports_of [] next (Appends (W.contents out.old) (W.contents out.new))
        (Appends (E.contents err.old) (E.contents err.new)) stop) }
    ensures said { IfErr result (SaidBy (W.fails out.new)) }
{
    match item {
        Ok(entry) => write_entry(&entry, out, err),
        Err(error) => report_problem(&error, err),
    }
}

/// Reports what stands in the place of an entry. Out of memory ends the run. It returns that it did.
#[tactic(auto, using(crate::proofs::LineLemmas::appends_nothing))]
fn report_problem<E: Write>(error: &Error, err: &mut E) -> Result<bool, Stop>
    ensures reports { IfOk result (λ any. (any ≡ true) × Appends (E.contents err.old) (E.contents err.new) (report_line (problem_of error.now))) }
    ensures enough { OnOk result (problem_of error.now ≢ memory) }
    ensures cause { problem_of error.now ≡ memory → IfErr result (λ stop. stop ≡ Stop.Memory) }
    ensures only { IfErr result (λ stop. stop ≡ Stop.Memory → problem_of error.now ≡ memory) }
    ensures kept { IfErr result (λ stop. stop ≡ Stop.Memory → Appends (E.contents err.old) (E.contents err.new) []) }
    ensures ended { IfErr result (λ stop. (stop ≡ Stop.Memory) ⊎ (stop ≡ Stop.Silence)) }
{
    match error {
        Error::Memory => Err(Stop::Memory),
        _ => report(error, err),
    }
}

/// Writes the path of an entry, and reports its problem, if it has one. It returns whether it has.
fn write_entry<W: Output, E: Write>(
    entry: &DirEntry,
    out: &mut W,
    err: &mut E,
) -> Result<bool, Stop>
    ensures lists { IfOk result (λ any. Appends (W.contents out.old) (W.contents out.new) (lines_of (item_of (Ok entry.now)))
        × Appends (E.contents err.old) (E.contents err.new) (reports_of (item_of (Ok entry.now)))
        × (any ≡ is_reported (item_of (Ok entry.now)))) }
    ensures ended { IfErr result (EndsAfter lines_of reports_of [] (Some (item_of (Ok entry.now)))
        (Appends (W.contents out.old) (W.contents out.new)) (Appends (E.contents err.old) (E.contents err.new))) }
    ensures enough { IfErr result (λ stop. stop ≢ Stop.Memory) }
    ensures said { IfErr result (SaidBy (W.fails out.new)) }
{
    write_line(entry.path(), out)?;
    match entry.error() {
        None => Ok(false),
        Some(error) => report(error, err),
    }
}

/// Reports an error. It returns that it did.
pub fn report<E: Write>(error: &Error, err: &mut E) -> Result<bool, Stop>
    ensures reports { IfOk result (λ any. (any ≡ true) × Appends (E.contents err.old) (E.contents err.new) (report_line (problem_of error.now))) }
    ensures ended { IfErr result (λ stop. stop ≡ Stop.Silence) }
{
    match writeln!(err, "igwalk: {error}") {
        Ok(()) => Ok(true),
        Err(_) => Err(Stop::Silence),
    }
}
