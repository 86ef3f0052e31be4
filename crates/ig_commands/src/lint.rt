//! The command `lint`: what is wrong with files of rules.
ghost use Rattle.std.specs.Prelude.{◌≡◌, ◌||◌, ◌==◌, ◌++◌, Bool, IfOk, List, OnOk, Option, false, is_some, length, nat_lt, not, true, IfErr};
ghost use Rattle.std.specs.Io.KnownBytes.{Appends};
ghost use Rattle.std.specs.List.{AllZip, flat_map, list_any};
ghost use Rattle.ignore_base.specs.Text.{Path};
ghost use Rattle.ignore_files.specs.Gives.{IsHonest};
ghost use Rattle.ignore_files.specs.Tree.{Tree};
ghost use Rattle.ig_every.specs.declared.diagnostic.Diagnostic.{Diagnostic};
ghost use Rattle.ig_every.specs.Linted.{IsLinted};
ghost use Rattle.ig_every.specs.Texts.{finding_json, wrong_text};
ghost use Rattle.ig_every.specs.declared.linted.Linted.{Linted};
ghost use Rattle.ig_commands.specs.Form.{at_end};
ghost use Rattle.ig_commands.specs.Lint.{HasOther, IsInFolders, IsLook, IsTold, LintAsked, LintsGiven, LintsMet, Look, LooksMet, MayNote, WritesLooks, after_line, fault_line, finding_fields, finding_text, has_rules, is_found, is_reported, lint_status, look_report, look_text, looked, option_text, refused_text, wanting};
ghost use Rattle.ig_commands.specs.Sides.{how_read};
ghost use Rattle.ig_commands.specs.Stops.{IsOther, SaidBy};

use crate::form::{Form, write_between, write_number, write_text};
use crate::reinclude::{is_reincluded, is_top};
use crate::sides::how_read;
use crate::sources::{Sources, find_sources, given_sources};
use crate::stop::Stop;
use crate::writing::write_bytes;
use commands::{Output, World};
use ig_every::{Diagnostic, Linted, Wrong, json_of, lint, text_of};
use ig_options::Options;
use ignore_base::{Error, Fault};
use ignore_every::Error as Refused;
use ignore_files::{Contents, Files, Name, Refusal};
use ignore_types::types::TypesBuilder;
use std::alloc::Global;
use std::io::Write;

/// Writes what is wrong with each file that is given; without one, with each file of rules that counts
/// in the working directory or below it, as `ignored` meets entries, and notes which rules with `!`
/// re-include nothing, in files above which no other has rules. It returns the status: 0 where nothing
/// is wrong, 1 where something is, 2 where something was reported, as where the options are rejected.
///
/// # Errors
/// Why it ended early, of which nothing was reported.
pub(crate) fn lint_files<F: Files, W: Output, E: Write>(
    world: &World<'_, F>,
    options: &Options,
    first: TypesBuilder,
    out: &mut W,
    err: &mut E,
) -> Result<u8, Stop>
    ensures lints { IfOk result (λ status. LintAsked F.Files world.now.files.now world.now.env.now options.now first false status
        (Appends (W.contents out.old) (W.contents out.new)) (Appends (E.contents err.old) (E.contents err.new))) }
    ensures said { IfErr result (SaidBy (W.fails out.new)) }
{
    let how = How {
        options,
        json: false,
    };
    lint_by(world, how, first, out, err)
}

/// The same, as objects of JSON, a line each.
///
/// # Errors
/// Why it ended early, of which nothing was reported.
pub(crate) fn lint_json<F: Files, W: Output, E: Write>(
    world: &World<'_, F>,
    options: &Options,
    first: TypesBuilder,
    out: &mut W,
    err: &mut E,
) -> Result<u8, Stop>
    ensures lints { IfOk result (λ status. LintAsked F.Files world.now.files.now world.now.env.now options.now first true status
        (Appends (W.contents out.old) (W.contents out.new)) (Appends (E.contents err.old) (E.contents err.new))) }
    ensures said { IfErr result (SaidBy (W.fails out.new)) }
{
    let how = How {
        options,
        json: true,
    };
    lint_by(world, how, first, out, err)
}

/// By which options files are looked at, and whether what is wrong is written as JSON.
#[derive(Clone, Copy)]
struct How<'o> {
    options: &'o Options,
    json: bool,
}

/// Writes what is wrong with the files that are given, or met.
fn lint_by<F: Files, W: Output, E: Write>(
    world: &World<'_, F>,
    how: How<'_>,
    first: TypesBuilder,
    out: &mut W,
    err: &mut E,
) -> Result<u8, Stop>
    ensures lints { IfOk result (λ status. LintAsked F.Files world.now.files.now world.now.env.now how.entry.options.now first how.entry.json status
        (Appends (W.contents out.old) (W.contents out.new)) (Appends (E.contents err.old) (E.contents err.new))) }
    ensures said { IfErr result (SaidBy (W.fails out.new)) }
{
    if has_none(how.options) {
        return lint_met(world, how, first, out, err);
    }
    lint_given(world, how, out, err)
}

/// Whether no file is given.
fn has_none(options: &Options) -> bool
    ensures { result ≡ (length options.now.paths.items == 0) }
{
    options.paths.as_slice().is_empty()
}

/// Writes what is wrong with the files that are given.
fn lint_given<F: Files, W: Output, E: Write>(
    world: &World<'_, F>,
    how: How<'_>,
    out: &mut W,
    err: &mut E,
) -> Result<u8, Stop>
    ensures lints { IfOk result (λ status. LintsGiven F.Files world.now.files.now how.entry.options.now how.entry.json status
        (Appends (W.contents out.old) (W.contents out.new)) (Appends (E.contents err.old) (E.contents err.new))) }
    ensures said { IfErr result (SaidBy (W.fails out.new)) }
{
    let Ok(sources) = given_sources(world.alloc, how.options) else {
        return Err(Stop::Memory);
    };
    let given = Linting {
        world,
        how,
        sources: &sources,
        may_note: false,
    };
    let paths = sources.outside.as_slice();
    let seen = look_at(&given, paths, out, err)?;
    Ok(status_by(false, seen))
}

/// Writes what is wrong with the files that are met.
#[tactic(auto, using(crate::proofs::StopLemmas::other_said))]
fn lint_met<F: Files, W: Output, E: Write>(
    world: &World<'_, F>,
    how: How<'_>,
    first: TypesBuilder,
    out: &mut W,
    err: &mut E,
) -> Result<u8, Stop>
    ensures lints { IfOk result (λ status. LintsMet F.Files world.now.files.now world.now.env.now how.entry.options.now first how.entry.json status
        (Appends (W.contents out.old) (W.contents out.new)) (Appends (E.contents err.old) (E.contents err.new))) }
    ensures said { IfErr result (SaidBy (W.fails out.new)) }
{
    match find_sources(world, how.options, first, err)? {
        Some(sources) => lint_all(world, how, &sources, out, err),
        None => Ok(2),
    }
}

/// Writes what is wrong with each of these files. It returns the status.
fn lint_all<F: Files, W: Output, E: Write>(
    world: &World<'_, F>,
    how: How<'_>,
    sources: &Sources,
    out: &mut W,
    err: &mut E,
) -> Result<u8, Stop>
    ensures lints { IfOk result (λ status. (first : List Look) × (rest : List Look)
        × WritesLooks how.entry.options.now how.entry.json (nat_lt 0 sources.now.reported) (first ++ rest) status (Appends (W.contents out.old) (W.contents out.new))
        × Appends (E.contents err.old) (E.contents err.new) (flat_map look_report (first ++ rest))
        × ((tree : Tree) → IsHonest F.Files world.now.files.now tree
        → LooksMet tree how.entry.options.now sources.now.outside.items sources.now.below.items first rest)) }
    ensures said { IfErr result (SaidBy (W.fails out.new)) }
{
    let outside = Linting {
        world,
        how,
        sources,
        may_note: false,
    };
    let above = sources.outside.as_slice();
    let first = look_at(&outside, above, out, err)?;
    let below = Linting {
        world,
        how,
        sources,
        may_note: !first.has_rules,
    };
    let met = sources.below.as_slice();
    let rest = look_at(&below, met, out, err)?;
    let seen = first.and(rest);
    Ok(status_by(is_any(sources), seen))
}

/// Whether something was reported while files were sought.
fn is_any(sources: &Sources) -> bool
    ensures { result ≡ nat_lt 0 sources.now.reported }
{
    sources.reported > 0
}

/// Which files are looked at, how, and whether rules that re-include nothing may be noted.
#[derive(Drop)]
struct Linting<'l, 'w, F: Files> {
    world: &'l World<'w, F>,
    how: How<'l>,
    sources: &'l Sources,
    may_note: bool,
}

/// What became of files: whether something was reported, whether something is wrong with one, and
/// whether one has rules.
#[derive(Clone, Copy)]
struct Seen {
    reported: bool,
    found: bool,
    has_rules: bool,
}

impl Seen {
    /// What became of these files and others.
    fn and(self, others: Seen) -> Seen
        ensures reported { result.reported ≡ (self.reported || others.reported) }
        ensures found { result.found ≡ (self.found || others.found) }
        ensures has_rules { result.has_rules ≡ (self.has_rules || others.has_rules) }
    {
        Seen {
            reported: self.reported || others.reported,
            found: self.found || others.found,
            has_rules: self.has_rules || others.has_rules,
        }
    }
}

/// The status: 2 where something was reported, before or of the files, else 1 where something is wrong,
/// and else 0.
fn status_by(any: bool, seen: Seen) -> u8
    ensures { result ≡ lint_status (any || seen.reported) seen.found }
{
    if any || seen.reported {
        2
    } else {
        u8::from(seen.found)
    }
}

/// Writes what is wrong with each of these files.
fn look_at<F: Files, W: Output, E: Write>(
    all: &Linting<'_, '_, F>,
    paths: &[Name],
    out: &mut W,
    err: &mut E,
) -> Result<Seen, Stop>
    ensures lints { IfOk result (λ seen. (looks : List Look) × (seen.reported ≡ list_any is_reported looks) × (seen.found ≡ list_any is_found looks)
        × Appends (W.contents out.old) (W.contents out.new) (flat_map (look_text all.now.how.options.now all.now.how.json) looks)
        × Appends (E.contents err.old) (E.contents err.new) (flat_map look_report looks)
        × (seen.has_rules ≡ list_any has_rules looks)
        × ((tree : Tree) → IsHonest F.Files all.now.world.now.files.now tree
        → AllZip (IsLook tree all.now.how.options.now (all.now.sources.now.outside.items ++ all.now.sources.now.below.items) all.now.may_note) paths.now looks)) }
    ensures said { IfErr result (SaidBy (W.fails out.new)) }
{
    let mut seen = Seen {
        reported: false,
        found: false,
        has_rules: false,
    };
    for path in paths {
        let more = lint_file(all, path.as_str(), out, err)?;
        seen = seen.and(more);
    }
    Ok(seen)
}

/// Writes what is wrong with a file.
#[tactic(auto, using(crate::proofs::StopLemmas::other_said))]
fn lint_file<F: Files, W: Output, E: Write>(
    all: &Linting<'_, '_, F>,
    path: &str,
    out: &mut W,
    err: &mut E,
) -> Result<Seen, Stop>
    ensures lints { IfOk result (λ seen. (look : Look) × (seen.reported ≡ is_reported look) × (seen.found ≡ is_found look)
        × Appends (W.contents out.old) (W.contents out.new) (look_text all.now.how.options.now all.now.how.json look)
        × Appends (E.contents err.old) (E.contents err.new) (look_report look)
        × (seen.has_rules ≡ has_rules look)
        × ((tree : Tree) → IsHonest F.Files all.now.world.now.files.now tree
        → IsLook tree all.now.how.options.now (all.now.sources.now.outside.items ++ all.now.sources.now.below.items) all.now.may_note path.now look)) }
    ensures said { IfErr result (SaidBy (W.fails out.new)) }
{
    match all.world.files.contents(all.world.alloc, path) {
        Ok(contents) => lint_contents(all, path, &contents, out, err),
        Err(refusal) => report_refusal(path, refusal, err),
    }
}

/// Reports that a file can't be read, unless memory ran out, which ends the command.
fn report_refusal<E: Write>(path: &str, refusal: Refusal, err: &mut E) -> Result<Seen, Stop>
    ensures reports { IfOk result (λ seen. (fault : Fault) × (refusal ≡ Refusal.Fault fault) × (seen.reported ≡ true) × (seen.found ≡ false) × (seen.has_rules ≡ false)
        × Appends (E.contents err.old) (E.contents err.new) (fault_line path.now fault)) }
    ensures other { IfErr result IsOther }
{
    match refusal {
        Refusal::Fault(fault) => {
            report_fault(path, fault, err)?;
            Ok(Seen {
                reported: true,
                found: false,
                has_rules: false,
            })
        }
        Refusal::Memory => Err(Stop::Memory),
    }
}

/// Writes what is wrong with a file, of which this was read.
#[tactic(auto, using(crate::proofs::StopLemmas::other_said))]
fn lint_contents<F: Files, W: Output, E: Write>(
    all: &Linting<'_, '_, F>,
    path: &str,
    contents: &Contents,
    out: &mut W,
    err: &mut E,
) -> Result<Seen, Stop>
    ensures lints { IfOk result (λ seen. (linted : Linted) × (told : List (Option Diagnostic)) × (has_notes : Bool)
        × MayNote all.now.may_note has_notes × IsLinted (how_read all.now.how.options.now) path.now contents.now.bytes has_notes linted
        × AllZip (IsTold (all.now.sources.now.outside.items ++ all.now.sources.now.below.items) path.now) linted.verdicts.rules.items told
        × (seen.has_rules ≡ has_rules (looked path.now contents.now.fault linted told))
        × (seen.reported ≡ is_reported (looked path.now contents.now.fault linted told)) × (seen.found ≡ is_found (looked path.now contents.now.fault linted told))
        × Appends (W.contents out.old) (W.contents out.new) (look_text all.now.how.options.now all.now.how.json (looked path.now contents.now.fault linted told))
        × Appends (E.contents err.old) (E.contents err.new) (look_report (looked path.now contents.now.fault linted told))) }
    ensures said { IfErr result (SaidBy (W.fails out.new)) }
{
    let linted = linted_of(all, path, contents)?;
    let found = write_linted(all, path, &linted, out)?;
    let reported = report_wanting(path, contents.fault, linted.verdicts.refused, err)?;
    Ok(Seen {
        reported,
        found,
        has_rules: has_rules(&linted),
    })
}

/// Whether a file has rules.
fn has_rules(linted: &Linted) -> bool
    ensures { result ≡ (not (length linted.now.verdicts.rules.items == 0) || is_some linted.now.verdicts.refused) }
{
    !linted.verdicts.rules.is_empty() || linted.verdicts.refused.is_some()
}

/// What is wrong with a file, of which this was read.
fn linted_of<F: Files>(
    all: &Linting<'_, '_, F>,
    path: &str,
    contents: &Contents,
) -> Result<Linted, Stop>
    ensures linted { IfOk result (λ linted. (has_notes : Bool) × MayNote all.now.may_note has_notes
        × IsLinted (how_read all.now.how.options.now) path.now contents.now.bytes has_notes linted) }
    ensures other { IfErr result IsOther }
{
    let Ok(has_notes) = wants_notes(all, path, contents) else {
        return Err(Stop::Memory);
    };
    let how = how_read(all.how.options);
    match lint(all.world.alloc, how, path, contents, has_notes) {
        Ok(linted) => Ok(linted),
        Err(_) => Err(Stop::Memory),
    }
}

/// Whether rules of a file that re-include nothing are noted: no other file is above it. A file without
/// a `!` has none.
fn wants_notes<F: Files>(
    all: &Linting<'_, '_, F>,
    path: &str,
    contents: &Contents,
) -> Result<bool, Error>
    ensures { IfOk result (MayNote all.now.may_note) }
{
    if !all.may_note || !contents.bytes.as_slice().contains(&b'!') {
        return Ok(false);
    }
    is_top(all.world, all.how.options, &all.sources.below, path)
}

/// Writes what is wrong with a file. It returns whether anything is.
fn write_linted<F: Files, W: Output>(
    all: &Linting<'_, '_, F>,
    path: &str,
    linted: &Linted,
    out: &mut W,
) -> Result<bool, Stop>
    ensures writes { IfOk result (λ found. (told : List (Option Diagnostic)) × AllZip (IsTold (all.now.sources.now.outside.items ++ all.now.sources.now.below.items) path.now) linted.now.verdicts.rules.items told
        × (found ≡ (not (length linted.now.lines.items == 0) || list_any is_some told))
        × Appends (W.contents out.old) (W.contents out.new) (flat_map (finding_text all.now.how.options.now all.now.how.json path.now) linted.now.lines.items
        ++ (flat_map (option_text all.now.how.options.now all.now.how.json path.now) told
        ++ flat_map (finding_text all.now.how.options.now all.now.how.json path.now) linted.now.verdicts.notes.items))) }
    ensures said { IfErr result (SaidBy (W.fails out.new)) }
{
    write_lines(all, path, linted, out)?;
    let is_told = write_verdicts(all, path, linted, out)?;
    write_notes(all, path, linted, out)?;
    Ok(has_found(linted, is_told))
}

/// Whether anything is wrong with the lines of a file, or told of its rules.
fn has_found(linted: &Linted, is_told: bool) -> bool
    ensures { result ≡ (not (length linted.now.lines.items == 0) || is_told) }
{
    !linted.lines.is_empty() || is_told
}

/// Writes what is wrong with the lines of a file.
fn write_lines<F: Files, W: Output>(
    all: &Linting<'_, '_, F>,
    path: &str,
    linted: &Linted,
    out: &mut W,
) -> Result<(), Stop>
    ensures writes { OnOk result (Appends (W.contents out.old) (W.contents out.new) (flat_map (finding_text all.now.how.options.now all.now.how.json path.now) linted.now.lines.items)) }
    ensures said { IfErr result (SaidBy (W.fails out.new)) }
{
    write_all(all.world.alloc, all.how, path, &linted.lines, out)
}

/// Writes the notes on the rules of a file.
fn write_notes<F: Files, W: Output>(
    all: &Linting<'_, '_, F>,
    path: &str,
    linted: &Linted,
    out: &mut W,
) -> Result<(), Stop>
    ensures writes { OnOk result (Appends (W.contents out.old) (W.contents out.new) (flat_map (finding_text all.now.how.options.now all.now.how.json path.now) linted.now.verdicts.notes.items)) }
    ensures said { IfErr result (SaidBy (W.fails out.new)) }
{
    write_all(all.world.alloc, all.how, path, &linted.verdicts.notes, out)
}

/// Writes what is told of the rules of a file. It returns whether anything is.
fn write_verdicts<F: Files, W: Output>(
    all: &Linting<'_, '_, F>,
    path: &str,
    linted: &Linted,
    out: &mut W,
) -> Result<bool, Stop>
    ensures writes { IfOk result (λ any. (told : List (Option Diagnostic)) × AllZip (IsTold (all.now.sources.now.outside.items ++ all.now.sources.now.below.items) path.now) linted.now.verdicts.rules.items told × (any ≡ list_any is_some told)
        × Appends (W.contents out.old) (W.contents out.new) (flat_map (option_text all.now.how.options.now all.now.how.json path.now) told)) }
    ensures said { IfErr result (SaidBy (W.fails out.new)) }
{
    write_rules(all, path, &linted.verdicts.rules, out)
}

/// Writes each of what is wrong with lines of a file.
fn write_all<W: Output>(
    alloc: Global,
    how: How<'_>,
    path: &str,
    found: &[Diagnostic],
    out: &mut W,
) -> Result<(), Stop>
    ensures writes { OnOk result (Appends (W.contents out.old) (W.contents out.new) (flat_map (finding_text how.entry.options.now how.entry.json path.now) found.now)) }
    ensures said { IfErr result (SaidBy (W.fails out.new)) }
{
    for diagnostic in found {
        write_found(alloc, how, path, diagnostic, out)?;
    }
    Ok(())
}

/// Writes what is wrong with the rules of a file. It returns whether anything is told.
fn write_rules<F: Files, W: Output>(
    all: &Linting<'_, '_, F>,
    path: &str,
    rules: &[Option<Diagnostic>],
    out: &mut W,
) -> Result<bool, Stop>
    ensures writes { IfOk result (λ any. (told : List (Option Diagnostic)) × AllZip (IsTold (all.now.sources.now.outside.items ++ all.now.sources.now.below.items) path.now) rules.now told × (any ≡ list_any is_some told)
        × Appends (W.contents out.old) (W.contents out.new) (flat_map (option_text all.now.how.options.now all.now.how.json path.now) told)) }
    ensures said { IfErr result (SaidBy (W.fails out.new)) }
{
    let mut any = false;
    for judged in rules {
        let is_told = write_told(all, path, judged, out)?;
        any = either(any, is_told);
    }
    Ok(any)
}

/// Whether one of two things is so.
fn either(one: bool, other: bool) -> bool
    ensures { result ≡ (one || other) }
{
    one || other
}

/// Writes what is wrong with a rule, if anything is, unless another file mends it. It returns whether it
/// is told.
fn write_told<F: Files, W: Output>(
    all: &Linting<'_, '_, F>,
    path: &str,
    judged: &Option<Diagnostic>,
    out: &mut W,
) -> Result<bool, Stop>
    ensures writes { IfOk result (λ is_told. (told : Option Diagnostic) × IsTold (all.now.sources.now.outside.items ++ all.now.sources.now.below.items) path.now judged.now told × (is_told ≡ is_some told)
        × Appends (W.contents out.old) (W.contents out.new) (option_text all.now.how.options.now all.now.how.json path.now told)) }
    ensures said { IfErr result (SaidBy (W.fails out.new)) }
{
    let Some(diagnostic) = judged else {
        return Ok(false);
    };
    let Ok(mended) = is_mended(all, path, diagnostic) else {
        return Err(Stop::Memory);
    };
    if mended {
        return Ok(false);
    }
    write_found(all.world.alloc, all.how, path, diagnostic, out)?;
    Ok(true)
}

/// Whether a rule decides in ignored folders alone, and another file re-includes the folder.
fn is_mended<F: Files>(
    all: &Linting<'_, '_, F>,
    path: &str,
    diagnostic: &Diagnostic,
) -> Result<bool, Error>
    ensures { IfOk result (λ mended. mended ≡ true → IsInFolders diagnostic.now.wrong
        × HasOther (all.now.sources.now.outside.items ++ all.now.sources.now.below.items) path.now) }
{
    match &diagnostic.wrong {
        Wrong::InFolders(folder, _) => has_way(all, path, folder.as_str()),
        _ => Ok(false),
    }
}

/// Whether another file re-includes a folder, by its path in the folder of a file.
fn has_way<F: Files>(all: &Linting<'_, '_, F>, path: &str, folder: &str) -> Result<bool, Error>
    ensures { IfOk result (λ found. found ≡ true → HasOther (all.now.sources.now.outside.items ++ all.now.sources.now.below.items) path.now) }
{
    let (outside, below) = (&all.sources.outside, &all.sources.below);
    let options = all.how.options;
    if is_reincluded(all.world, options, outside, path, folder)? {
        return Ok(true);
    }
    is_reincluded(all.world, options, below, path, folder)
}

/// Reports that a file can't be read to its end, or that its rules weren't judged. It returns whether
/// either is so.
fn report_wanting<E: Write>(
    path: &str,
    fault: Option<Fault>,
    refused: Option<Refused>,
    err: &mut E,
) -> Result<bool, Stop>
    ensures reports { IfOk result (λ reported. (reported ≡ (is_some fault || is_some refused))
        × Appends (E.contents err.old) (E.contents err.new) (wanting path.now fault refused)) }
    ensures ended { IfErr result (λ stop. stop ≡ Stop.Silence) }
{
    if let Some(fault) = fault {
        report_fault(path, fault, err)?;
        return Ok(true);
    }
    let Some(refused) = refused else {
        return Ok(false);
    };
    let text = unjudged_text(refused);
    match writeln!(err, "ig: {path}: {text}") {
        Ok(()) => Ok(true),
        Err(_) => Err(Stop::Silence),
    }
}

/// Why the rules of a file weren't judged.
fn unjudged_text(refused: Refused) -> &'static str
    ensures { result.now ≡ refused_text refused }
{
    match refused {
        Refused::TooLarge => "too many states to judge its rules",
        Refused::Rejected => "the search isn't accepted by its check",
        Refused::Memory => "the search isn't accepted by its check",
    }
}

/// Reports a fault of a file.
fn report_fault<E: Write>(path: &str, fault: Fault, err: &mut E) -> Result<(), Stop>
    ensures reports { OnOk result (Appends (E.contents err.old) (E.contents err.new) (fault_line path.now fault)) }
    ensures ended { IfErr result (λ stop. stop ≡ Stop.Silence) }
{
    match writeln!(err, "ig: {path}: {fault}") {
        Ok(()) => Ok(()),
        Err(_) => Err(Stop::Silence),
    }
}

/// Writes what is wrong with a line of a file, unless nothing is to be written.
fn write_found<W: Output>(
    alloc: Global,
    how: How<'_>,
    path: &str,
    found: &Diagnostic,
    out: &mut W,
) -> Result<(), Stop>
    ensures writes { OnOk result (Appends (W.contents out.old) (W.contents out.new) (finding_text how.entry.options.now how.entry.json path.now found.now)) }
    ensures said { IfErr result (SaidBy (W.fails out.new)) }
{
    if how.options.quiet {
        return Ok(());
    }
    let null = how.options.null;
    if how.json {
        return write_json(alloc, null, path, found, out);
    }
    write_line(alloc, null, path, found, out)
}

/// Writes what is wrong with a line of a file, as an object of JSON.
fn write_json<W: Output>(
    alloc: Global,
    null: bool,
    path: &str,
    found: &Diagnostic,
    out: &mut W,
) -> Result<(), Stop>
    ensures writes { OnOk result (Appends (W.contents out.old) (W.contents out.new) (finding_json path.now found.now ++ at_end null)) }
    ensures said { IfErr result (SaidBy (W.fails out.new)) }
{
    match json_of(alloc, path, found) {
        Ok(text) => write_record(null, text.as_str(), out),
        Err(_) => Err(Stop::Memory),
    }
}

/// Writes what is wrong with a line of a file, by its fields.
fn write_line<W: Output>(
    alloc: Global,
    null: bool,
    path: &str,
    found: &Diagnostic,
    out: &mut W,
) -> Result<(), Stop>
    ensures writes { OnOk result (Appends (W.contents out.old) (W.contents out.new) (finding_fields null path.now found.now)) }
    ensures said { IfErr result (SaidBy (W.fails out.new)) }
{
    let Ok(text) = text_of(alloc, &found.wrong) else {
        return Err(Stop::Memory);
    };
    let form = Form { base: None, null };
    write_fields(form, path, found, text.as_str(), out)
}

/// Writes a text, and what a record ends in.
fn write_record<W: Output>(null: bool, text: &str, out: &mut W) -> Result<(), Stop>
    ensures writes { OnOk result (Appends (W.contents out.old) (W.contents out.new) (text.now ++ at_end null)) }
    ensures said { IfErr result (SaidBy (W.fails out.new)) }
{
    write_bytes(text.as_bytes(), out)?;
    write_bytes(if null { b"\0" } else { b"\n" }, out)
}

/// Writes the fields of what is wrong with a line, of which this is the text.
fn write_fields<W: Output>(
    form: Form<'_>,
    path: &str,
    found: &Diagnostic,
    text: &str,
    out: &mut W,
) -> Result<(), Stop>
    requires { text.now ≡ wrong_text found.now.wrong }
    ensures writes { OnOk result (Appends (W.contents out.old) (W.contents out.new) (finding_fields form.entry.null path.now found.now)) }
    ensures said { IfErr result (SaidBy (W.fails out.new)) }
{
    write_text(form, path, out)?;
    write_between(form, out)?;
    write_number(Some(found.line), out)?;
    write_after_line(form, out)?;
    write_bytes(found.rule.as_str().as_bytes(), out)?;
    write_after_line(form, out)?;
    write_record(form.null, text, out)
}

/// Writes what separates the fields after the number of a line.
fn write_after_line<W: Output>(form: Form<'_>, out: &mut W) -> Result<(), Stop>
    ensures writes { OnOk result (Appends (W.contents out.old) (W.contents out.new) (after_line form.entry.null)) }
    ensures said { IfErr result (SaidBy (W.fails out.new)) }
{
    let between: &[u8] = if form.null { b"\0" } else { b": " };
    write_bytes(between, out)
}
