//! Reports of what is wrong in a walk: a problem that has no path is reported with its folder.
ghost use Rattle.std.specs.Prelude.{◌≡◌, ◌++◌, codes, None, Some, OnOk, IfOk, IfErr, map, option_map};
ghost use Rattle.std.specs.Io.KnownBytes.{Appends};
ghost use Rattle.std.specs.List.{flat_map};
ghost use Rattle.ignore_base.specs.Problem.{problem_of};
ghost use Rattle.ig_commands.specs.Counts.{counted};
ghost use Rattle.ig_commands.specs.Folders.{last_in};
ghost use Rattle.ig_commands.specs.Reports.{after_place, bare_depth, fault_line, folder_above, is_bad, is_bad_name, is_known, line_text, name_depth, place_at, place_of, report_of, to_report};

use crate::folders::Folders;
use crate::stop::Stop;
use crate::writing::report;
use ig_options::Options;
use ignore_base::{Error, Fault};
use ignore_files::Name;
use std::alloc::{AllocError, Global};
use std::io::Write;

/// The folder of something at a depth.
fn folder_above(folders: &Folders, depth: usize) -> Option<&str>
    ensures { option_map (λ path. path.now) result ≡ folder_above (last_in folders.now) depth }
{
    if depth == 0 {
        return None;
    }
    match folders.get(depth - 1) {
        Some(folder) => Some(folder.path()),
        None => None,
    }
}

/// The depth of an error of which no path is known.
fn bare_depth(error: &Error) -> Option<usize>
    ensures { result ≡ bare_depth (problem_of error.now) }
{
    match error {
        Error::WithDepth { depth, .. } => Some(*depth),
        _ => None,
    }
}

/// Whether a fault is that of a name that isn't UTF-8.
fn is_bad(fault: &Fault) -> bool
    ensures { result ≡ is_bad fault.now }
{
    match fault {
        Fault::BadName => true,
        _ => false,
    }
}

/// Whether an error is such a fault.
pub(crate) fn is_bad_name(error: &Error) -> bool
    ensures { result ≡ is_bad_name (problem_of error.now) }
{
    match error {
        Error::Io(fault) => is_bad(fault),
        _ => false,
    }
}

/// The depth of a name that isn't UTF-8, where an error in the place of an entry is one.
pub(crate) fn name_depth(error: &Error) -> Option<usize>
    ensures { result ≡ name_depth (problem_of error.now) }
{
    match error {
        Error::WithDepth { depth, err } => { if is_bad_name(err) { Some(*depth) } else { None } }
        _ => None,
    }
}

/// Where something at a depth is: its folder, or its depth, where no entry is that folder.
pub(crate) fn place_at(alloc: Global, folders: &Folders, depth: usize) -> Result<Name, AllocError>
    ensures { IfOk result (λ place. place ≡ place_at (last_in folders.now) depth) }
{
    match folder_above(folders, depth) {
        Some(folder) => Name::from_str(alloc, folder),
        None => depth_place(alloc, depth),
    }
}

/// A depth as a place.
fn depth_place(alloc: Global, depth: usize) -> Result<Name, AllocError>
    ensures { IfOk result (λ place. place ≡ place_of None depth) }
{
    Ok(Name::new(format!(in alloc; "depth {depth}")?))
}

/// Reports an error in the place of an entry, with its folder, where it has no path; or with its
/// depth, where no entry is that folder.
#[tactic(auto, using(crate::proofs::FaultLemmas::told_in, crate::proofs::FaultLemmas::told_at, crate::proofs::FaultLemmas::told_bare))]
pub(crate) fn report_fault<E: Write>(
    error: &Error,
    folders: &Folders,
    err: &mut E,
) -> Result<(), Stop>
    ensures reports { OnOk result (Appends (E.contents err.old) (E.contents err.new)
        (fault_line (last_in folders.now) (problem_of error.now))) }
    ensures ended { IfErr result (λ stop. stop ≡ Stop.Silence) }
{
    let Some(depth) = bare_depth(error) else {
        return report(error, err);
    };
    match folder_above(folders, depth) {
        Some(folder) => report_in(folder, error, err),
        None => report_at(depth, error, err),
    }
}

/// Reports an error in a folder.
fn report_in<E: Write>(folder: &str, error: &Error, err: &mut E) -> Result<(), Stop>
    ensures reports { OnOk result (Appends (E.contents err.old) (E.contents err.new)
        (codes "ig: " ++ after_place (Some folder.now) 0 (line_text (problem_of error.now)))) }
    ensures ended { IfErr result (λ stop. stop ≡ Stop.Silence) }
{
    match writeln!(err, "ig: {folder}: {error}") {
        Ok(()) => Ok(()),
        Err(_) => Err(Stop::Silence),
    }
}

/// Reports an error at a depth.
fn report_at<E: Write>(depth: usize, error: &Error, err: &mut E) -> Result<(), Stop>
    ensures reports { OnOk result (Appends (E.contents err.old) (E.contents err.new)
        (codes "ig: " ++ after_place None depth (line_text (problem_of error.now)))) }
    ensures ended { IfErr result (λ stop. stop ≡ Stop.Silence) }
{
    match writeln!(err, "ig: depth {depth}: {error}") {
        Ok(()) => Ok(()),
        Err(_) => Err(Stop::Silence),
    }
}

/// Reports each error, and returns how many there are.
pub(crate) fn report_all<E: Write>(errors: &[Option<Error>], err: &mut E) -> Result<u64, Stop>
    ensures reports { IfOk result (λ count. (count ≡ counted 0 (map is_known (map (option_map problem_of) errors.now)))
        × Appends (E.contents err.old) (E.contents err.new) (flat_map report_of (map (option_map problem_of) errors.now))) }
    ensures ended { IfErr result (λ stop. stop ≡ Stop.Silence) }
{
    let mut count = 0u64;
    for error in errors {
        count = count.saturating_add(u64::from(report_some(error.as_ref(), err)?));
    }
    Ok(count)
}

/// Reports an error of files of rules, if there is one, and unless these aren't to be reported. It
/// returns whether one is reported.
pub(crate) fn report_rules<E: Write>(
    options: &Options,
    error: Option<&Error>,
    err: &mut E,
) -> Result<bool, Stop>
    ensures reports { IfOk result (λ any. (any ≡ is_known (to_report options.now (option_map (λ e. problem_of e.now) error.entry)))
        × Appends (E.contents err.old) (E.contents err.new) (report_of (to_report options.now (option_map (λ e. problem_of e.now) error.entry)))) }
    ensures ended { IfErr result (λ stop. stop ≡ Stop.Silence) }
{
    if options.no_ignore_messages {
        return Ok(false);
    }
    report_some(error, err)
}

/// Reports an error, if there is one. It returns whether there is.
pub(crate) fn report_some<E: Write>(error: Option<&Error>, err: &mut E) -> Result<bool, Stop>
    ensures reports { IfOk result (λ any. (any ≡ is_known (option_map (λ e. problem_of e.now) error.entry))
        × Appends (E.contents err.old) (E.contents err.new) (report_of (option_map (λ e. problem_of e.now) error.entry))) }
    ensures ended { IfErr result (λ stop. stop ≡ Stop.Silence) }
{
    match error {
        None => Ok(false),
        Some(error) => {
            report(error, err)?;
            Ok(true)
        }
    }
}
