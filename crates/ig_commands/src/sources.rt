//! The files of rules that `lint` looks at.
ghost use Rattle.std.specs.Prelude.{◌≡◌, ◌⊎◌, ◌++◌, [], IfErr, IfOk, IfSome, None, OnOk, Option};
ghost use Rattle.std.specs.Io.KnownBytes.{Appends};
ghost use Rattle.ignore_base.specs.Text.{Bytes};
ghost use Rattle.ignore_base.specs.Problem.{Problem, memory, problem_of};
ghost use Rattle.ig_commands.specs.Lint.{CountsSoFar, IsCounted, StillCounts, given_path, given_paths};
ghost use Rattle.ig_commands.specs.Listing.{RefusesOptions};
ghost use Rattle.ig_commands.specs.Reports.{report_line};
ghost use Rattle.ig_commands.specs.Stops.{IsOther};

use crate::asking::{Asked, asked_met};
use crate::ignored::{matchers_of, note_item};
use crate::names::{Unnamed, end_names};
use crate::noted::{Noted, push_name};
use crate::reinclude::below;
use crate::root::root_of;
use crate::stop::Stop;
use crate::worktree::{Worktree, roots_of};
use crate::writing::{refuse_or_end, report};
use commands::World;
use ig_options::{Given, Options};
use ignore::{IncrementalIgnore, WalkOptions};
use ignore_base::Error;
use ignore_base::text::{file_name, folder_of};
use ignore_files::{Files, Name};
use ignore_rules::gitignore::gitconfig_excludes_path;
use ignore_survey::{Survey, Surveyed};
use ignore_types::types::TypesBuilder;
use std::alloc::{AllocError, Global};
use std::io::Write;

/// The exclude file of a repository, from its folder.
const EXCLUDE: &str = "/.git/info/exclude";

/// Files of rules.
#[derive(Drop)]
pub(crate) struct Sources {
    /// Those that are given, or that count in the working directory and lie neither in it nor below.
    pub(crate) outside: Vec<Name>,
    /// Those that are met in or below the working directory.
    pub(crate) below: Vec<Name>,
    /// How many times something was reported while they were sought.
    pub(crate) reported: u64,
}

/// The files that are given.
pub(crate) fn given_sources(alloc: Global, options: &Options) -> Result<Sources, AllocError>
    ensures given { IfOk result (λ sources. sources.outside.items ≡ given_paths options.now) }
    ensures alone { IfOk result (λ sources. sources.below.items ≡ []) }
{
    let mut outside = Vec::new(alloc);
    for given in &options.paths {
        push_given(alloc, given, &mut outside)?;
    }
    Ok(Sources {
        outside,
        below: Vec::new(alloc),
        reported: 0,
    })
}

/// Adds a path that is given.
fn push_given(alloc: Global, given: &Given, paths: &mut Vec<Name>) -> Result<(), AllocError>
    ensures { OnOk result (paths.new.items ≡ paths.old.items ++ given_path given.now) }
{
    match given {
        Given::Path(path) => push_name(alloc, path.as_str(), paths),
        _ => Ok(()),
    }
}

/// The files of rules that a walk of the working directory reads from elsewhere, in the order in which
/// it does, and those that are met in it and below, as `ignored` meets entries. None where the options
/// are rejected, which is reported.
pub(crate) fn find_sources<F: Files, E: Write>(
    world: &World<'_, F>,
    options: &Options,
    first: TypesBuilder,
    err: &mut E,
) -> Result<Option<Sources>, Stop>
    ensures refused { IfOk result (λ found. found ≡ None → (problem : Problem) × RefusesOptions world.now.env.now options.now first problem
        × Appends (E.contents err.old) (E.contents err.new) (report_line problem)) }
    ensures counted { IfOk result (λ found. IfSome found (λ s. IsCounted s.reported (Appends (E.contents err.old) (E.contents err.new)))) }
    ensures other { IfErr result IsOther }
{
    let named = Noted::new(world.alloc, world.files);
    match ask_noted(world, &named, options, first) {
        Ok(asked) => {
            let sources = survey_asked(world, options, asked, named.into_read(), err)?;
            Ok(Some(sources))
        }
        Err(error) => {
            refuse_or_end(&error, err)?;
            Ok(None)
        }
    }
}

/// What the options ask for, with what is read for it noted.
fn ask_noted<F: Files>(
    world: &World<'_, F>,
    named: &Noted<'_, F>,
    options: &Options,
    first: TypesBuilder,
) -> Result<Asked, Error>
    ensures { IfErr result (λ e. (problem_of e ≡ memory) ⊎ RefusesOptions world.now.env.now options.now first (problem_of e)) }
{
    let asking = World {
        alloc: world.alloc,
        files: named,
        env: world.env,
    };
    asked_met(&asking, options, first)
}

/// The files of rules that a walk reads from elsewhere, and those that are met, where these are the
/// files that were read for what is asked.
fn survey_asked<F: Files, E: Write>(
    world: &World<'_, F>,
    options: &Options,
    asked: Asked,
    outside: Vec<Name>,
    err: &mut E,
) -> Result<Sources, Stop>
    ensures counted { IfOk result (λ s. IsCounted s.reported (Appends (E.contents err.old) (E.contents err.new))) }
    ensures other { IfErr result IsOther }
{
    let Asked { walk, errors } = asked;
    let reported = report_unread(&errors, err)?;
    let mut sources = Sources {
        outside,
        below: Vec::new(world.alloc),
        reported,
    };
    survey_sources(world, options, walk, &mut sources, err)?;
    Ok(sources)
}

/// Reports of the files that are named those that can't be read, and returns how many these are. What
/// is wrong with the lines of the others is found as of any file.
fn report_unread<E: Write>(errors: &[Option<Error>], err: &mut E) -> Result<u64, Stop>
    ensures counted { IfOk result (λ count. IsCounted count (Appends (E.contents err.old) (E.contents err.new))) }
    ensures other { IfErr result IsOther }
{
    let mut count = 0u64;
    for error in errors {
        if let Some(error) = error {
            if is_of_file(error) {
                report(error, err)?;
                count = count.saturating_add(1);
            }
        }
    }
    Ok(count)
}

/// Whether an error is one of a file, and not of its lines.
fn is_of_file(error: &Error) -> bool {
    match error {
        Error::WithPath { err, .. } => !is_of_line(err),
        _ => false,
    }
}

/// Whether an error is one of a line.
fn is_of_line(error: &Error) -> bool {
    match error {
        Error::WithLineNumber { .. } => true,
        _ => false,
    }
}

/// Adds the files of rules that a walk of the worktree reads and meets.
fn survey_sources<F: Files, E: Write>(
    world: &World<'_, F>,
    options: &Options,
    walk: WalkOptions,
    sources: &mut Sources,
    err: &mut E,
) -> Result<(), Stop>
    ensures counted { OnOk result (StillCounts sources.old.reported (E.contents err.old) sources.new.reported (E.contents err.new)) }
    ensures other { IfErr result IsOther }
{
    let noted = Noted::new(world.alloc, world.files);
    let noting = World {
        alloc: world.alloc,
        files: &noted,
        env: world.env,
    };
    survey_worktree(&noting, options, walk, sources, err)?;
    match add_outside(world, options, &noted.into_read(), sources) {
        Ok(()) => Ok(()),
        Err(_) => Err(Stop::Memory),
    }
}

/// Adds the files of rules that are met in the worktree.
fn survey_worktree<F: Files, E: Write>(
    world: &World<'_, F>,
    options: &Options,
    walk: WalkOptions,
    sources: &mut Sources,
    err: &mut E,
) -> Result<(), Stop>
    ensures counted { OnOk result (StillCounts sources.old.reported (E.contents err.old) sources.new.reported (E.contents err.new)) }
    ensures other { IfErr result IsOther }
{
    let Ok(roots) = roots_of(world.alloc, options) else {
        return Err(Stop::Memory);
    };
    let worktree = Worktree {
        files: world.files,
        roots,
    };
    let met = World {
        alloc: world.alloc,
        files: &worktree,
        env: world.env,
    };
    let Ok(matchers) = matchers_of(&met, options, walk) else {
        return Err(Stop::Memory);
    };
    for matcher in matchers {
        survey_root(&met, options, matcher, sources, err)?;
    }
    Ok(())
}

/// Adds the files of rules that are met below the root of a matcher.
fn survey_root<F: Files, E: Write>(
    world: &World<'_, F>,
    options: &Options,
    matcher: IncrementalIgnore,
    sources: &mut Sources,
    err: &mut E,
) -> Result<(), Stop>
    ensures counted { OnOk result (StillCounts sources.old.reported (E.contents err.old) sources.new.reported (E.contents err.new)) }
    ensures other { IfErr result IsOther }
{
    let Ok(survey) = Survey::new(world.alloc, world.files, matcher) else {
        return Err(Stop::Memory);
    };
    let mut names = None;
    let seeking = Seeking {
        alloc: world.alloc,
        options,
    };
    for item in survey {
        note_met(seeking, item, &mut names, sources, err)?;
    }
    end_names(&names, err)
}

/// By which options files of rules are sought.
#[derive(Clone, Copy)]
struct Seeking<'o> {
    alloc: Global,
    options: &'o Options,
}

/// Adds an entry, where it is a file of rules, or notes what stands in its place, which is counted.
fn note_met<E: Write>(
    seeking: Seeking<'_>,
    item: Result<Surveyed, Error>,
    names: &mut Option<Unnamed>,
    sources: &mut Sources,
    err: &mut E,
) -> Result<(), Stop>
    ensures counted { OnOk result ((start : Option Bytes) → CountsSoFar sources.old.reported names.old start (E.contents err.old)
        → CountsSoFar sources.new.reported names.new start (E.contents err.new)) }
    ensures other { IfErr result IsOther }
{
    match item {
        Ok(entry) => add_met(seeking, &entry, sources),
        Err(error) => {
            note_item(error, names, err)?;
            sources.reported = sources.reported.saturating_add(1);
            Ok(())
        }
    }
}

/// Adds an entry, where it is a file of rules.
fn add_met(seeking: Seeking<'_>, entry: &Surveyed, sources: &mut Sources) -> Result<(), Stop>
    ensures kept { OnOk result (sources.new.reported ≡ sources.old.reported) }
    ensures other { IfErr result IsOther }
{
    let path = entry.path.as_str();
    if entry.file_type.is_dir() || !is_of_rules(seeking.options, path) {
        return Ok(());
    }
    match push_name(seeking.alloc, path, &mut sources.below) {
        Ok(()) => Ok(()),
        Err(_) => Err(Stop::Memory),
    }
}

/// Adds of the files that were read those of rules that lie elsewhere and count: the global file, exclude
/// files, and those of folders above.
fn add_outside<F: Files>(
    world: &World<'_, F>,
    options: &Options,
    read: &[Name],
    sources: &mut Sources,
) -> Result<(), Error>
    ensures { OnOk result (sources.new.reported ≡ sources.old.reported) }
{
    let global = gitconfig_excludes_path(world.alloc, world.files, world.env)?;
    let global = match &global {
        Some(path) => path.as_str(),
        None => "",
    };
    let top = root_of(world)?;
    for path in read {
        let path = path.as_str();
        if path == global || is_elsewhere(options, top.as_str(), path) {
            let shown = path.strip_prefix("./").unwrap_or(path);
            push_name(world.alloc, shown, &mut sources.outside)?;
        }
    }
    Ok(())
}

/// Whether a file that was read is an exclude file, or one of rules in a folder above, and counts. The
/// path of what is above is a full one.
fn is_elsewhere(options: &Options, top: &str, path: &str) -> bool {
    let is_full = path.starts_with('/');
    match rank_of(options, path) {
        0 => match path.strip_suffix(EXCLUDE) {
            Some(folder) => !is_full || counts_above(options, top, folder),
            None => path.ends_with("info/exclude"),
        },
        1 => is_full && counts_above(options, top, folder_of(path)),
        _ => is_full && !options.no_ignore_parent,
    }
}

/// Whether git's rules of a folder above count: those above the nearest repository don't.
fn counts_above(options: &Options, top: &str, folder: &str) -> bool {
    let is_within = options.no_require_git || folder == top || below(top, folder).is_some();
    is_within && !options.no_ignore_parent
}

/// Whether a path has the name of a file of rules.
fn is_of_rules(options: &Options, path: &str) -> bool {
    rank_of(options, path) > 0
}

/// The rank of a file of rules by its name: of two that have something to say, that of a higher rank
/// counts. 0 for any other file.
pub(crate) fn rank_of(options: &Options, path: &str) -> u8 {
    let Some(name) = file_name(path) else {
        return 0;
    };
    if is_among(name, options.ignore_names.as_slice()) {
        return 3;
    }
    match name {
        ".ignore" => 2,
        ".gitignore" => 1,
        _ => 0,
    }
}

/// Whether a name is one of these.
fn is_among(name: &str, names: &[Name]) -> bool {
    names.iter().any(|other| name == other.as_str())
}
