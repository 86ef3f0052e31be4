//! The command `why`: why paths are ignored or not.
ghost use Rattle.std.specs.Prelude.{◌≡◌, ◌⊎◌, ◌++◌, ◌||◌, ℕ, List, [], Some, true, false, IfErr, IfOk, OnOk, map, option_map, string_bytes, if◌then◌else◌};
ghost use Rattle.std.specs.Io.KnownBytes.{Appends};
ghost use Rattle.std.specs.List.{flat_map};
ghost use Rattle.std.specs.Option.{option_copied};
ghost use Rattle.ignore_base.specs.Normalize.{normalize_of};
ghost use Rattle.ignore_base.specs.Paths.{ends_with_slash, join_of};
ghost use Rattle.ignore_base.specs.Problem.{memory, problem_of};
ghost use Rattle.ignore_base.specs.Text.{Path};
ghost use Rattle.ignore_dir.specs.Load.{Loaded};
ghost use Rattle.ignore_dir.specs.Query.{is_dir_there};
ghost use Rattle.ignore_dir.specs.Verdict.{is_ignore};
ghost use Rattle.ignore_files.specs.Gives.{IsHonest};
ghost use Rattle.ignore_files.specs.Tree.{Tree};
ghost use Rattle.ignore_query.specs.Agrees.{Agrees};
ghost use Rattle.ignore_query.specs.Fresh.{KeepsNothing};
ghost use Rattle.ignore_query.specs.Reached.{InEachScene, dir_of, scene_of};
ghost use Rattle.ignore_query.specs.declared.kept.Cache.{Cache};
ghost use Rattle.ig_options.specs.declared.given.Given.{Given};
ghost use Rattle.ignore_why.specs.QueryWhy.{query_why_of};
ghost use Rattle.ig_commands.specs.Counts.{counted};
ghost use Rattle.ig_commands.specs.Form.{reasoned};
ghost use Rattle.ig_commands.specs.Reports.{report_of};
ghost use Rattle.ig_commands.specs.Stops.{EndsAfter, IsUnwritten, SaidBy};
ghost use Rattle.ig_commands.specs.Why.{AreAll, AreBegun, AreSaid, IsMatcherOf, IsSaid, IsSaidOf, WhyAsked, WhyEnds, Writes};
ghost use Rattle.ig_commands.specs.Why.{is_found, is_left_out, is_wrong, outside_line, record_line, reports, said_of, written};
ghost use Rattle.ig_commands.specs.Why.{Said as Plain};

use crate::asking::{Asked, asked_for};
use crate::counts::{Counts, Seen, status_of};
use crate::form::{Form, write_reasoned};
use crate::reports::{report_all, report_rules};
use crate::root::root_of;
use crate::stop::Stop;
use crate::writing::refuse_or_end;
use commands::{Output, World};
use ig_options::{Given, Options};
use ignore::{IncrementalIgnore, WalkBuilder, WalkOptions, text};
use ignore_base::Error;
use ignore_files::{Files, Refusal};
use ignore_types::types::TypesBuilder;
use ignore_why::Explanation;
use std::alloc::Global;
use std::io::Write;

/// What becomes of what is given in the place of a path.
#[derive(Drop)]
pub(crate) enum Said<'g> {
    /// The record of standard input with this number isn't UTF-8.
    NotText(u64),
    /// The record of standard input with this number isn't quoted as git quotes a path.
    BadlyQuoted(u64),
    /// The path isn't below the root.
    Outside(&'g str),
    /// What becomes of the path and why, and what is wrong with the files of rules that were read
    /// for it.
    Told(&'g str, Explanation, Option<Error>),
}

/// Writes each path after its reason, as `git check-ignore -v -n` does. The root is the nearest
/// folder at or above the working directory that has `.git` or `.jj`, else the working directory; a
/// path outside of it is reported in its place. It returns the status: 0 where a path is ignored, 1
/// where none is, 2 where something was reported, as where the options are rejected.
///
/// # Errors
/// Why it ended early, of which nothing was reported.
pub fn why<F: Files, W: Output, E: Write>(
    world: &World<'_, F>,
    options: &Options,
    first: TypesBuilder,
    out: &mut W,
    err: &mut E,
) -> Result<u8, Stop>
    ensures answers { IfOk result (λ status. WhyAsked F.Files world.now.files.now world.now.env.now options.now first status
        (Appends (W.contents out.old) (W.contents out.new)) (Appends (E.contents err.old) (E.contents err.new))) }
    ensures ended { IfErr result (WhyEnds F.Files world.now.files.now world.now.env.now options.now first
        (Appends (W.contents out.old) (W.contents out.new)) (Appends (E.contents err.old) (E.contents err.new))) }
    ensures said { IfErr result (SaidBy (W.fails out.new)) }
{
    match asked_for(world, options, first) {
        Ok(asked) => report_and_ask(world, options, asked, out, err),
        Err(error) => refuse_or_end(&error, err),
    }
}

/// Reports what is wrong with the files that are named, and asks.
fn report_and_ask<F: Files, W: Output, E: Write>(
    world: &World<'_, F>,
    options: &Options,
    asked: Asked,
    out: &mut W,
    err: &mut E,
) -> Result<u8, Stop>
    ensures answers { IfOk result (λ status. (root : Path) × (said : List Plain)
        × Writes options.now (map (option_map problem_of) asked.errors.items) root said status (Appends (W.contents out.old) (W.contents out.new)) (Appends (E.contents err.old) (E.contents err.new))
        × ((tree : Tree) → IsHonest F.Files world.now.files.now tree → AreAll tree world.now.env.now asked.walk options.now.paths.items root said)) }
    ensures ended { IfErr result (λ stop. (root : Path) × (said : List Plain)
        × EndsAfter (flat_map (written options.now root) said) (flat_map report_of (map (option_map problem_of) asked.errors.items) ++ flat_map (reports options.now root) said)
        (Appends (W.contents out.old) (W.contents out.new)) (Appends (E.contents err.old) (E.contents err.new)) stop
        × ((tree : Tree) → IsHonest F.Files world.now.files.now tree → AreBegun tree world.now.env.now asked.walk options.now.paths.items root said)) }
    ensures said { IfErr result (SaidBy (W.fails out.new)) }
{
    let reported = report_all(&asked.errors, err)?;
    let Ok(mut matcher) = matcher_of(world, asked.walk) else {
        return Err(Stop::Memory);
    };
    let counts = ask_all(world, options, &mut matcher, out, err)?;
    Ok(status_of(Counts {
        reported: counts.reported.saturating_add(reported),
        found: counts.found,
    }))
}

/// A matcher for the paths below the root, by these settings.
pub(crate) fn matcher_of<F: Files>(
    world: &World<'_, F>,
    mut walk: WalkOptions,
) -> Result<IncrementalIgnore, Error>
    ensures asked { (tree : Tree) → IsHonest F.Files world.now.files.now tree
        → IfOk result (IsMatcherOf tree world.now.env.now walk) }
    ensures fresh { (tree : Tree) (loads : List ℕ → Loaded) → IfOk result (λ m. Agrees (scene_of m.asked tree loads) m.cache) }
    ensures empty { IfOk result (λ m. KeepsNothing m.cache) }
    ensures out_of_memory { IfErr result (λ e. problem_of e ≡ memory) }
{
    let root = root_of(world)?;
    walk.push_root(root.as_str())?;
    let mut matchers = WalkBuilder::from_options(walk).build_matchers(world.files, world.env)?;
    match matchers.pop() {
        Some(matcher) => Ok(matcher),
        None => unreachable!(),
    }
}

/// Asks about each path, and writes.
fn ask_all<F: Files, W: Output, E: Write>(
    world: &World<'_, F>,
    options: &Options,
    matcher: &mut IncrementalIgnore,
    out: &mut W,
    err: &mut E,
) -> Result<Counts, Stop>
    ensures answers { IfOk result (λ counts. (said : List Plain)
        × Appends (W.contents out.old) (W.contents out.new) (flat_map (written options.now (string_bytes matcher.old.asked.root)) said)
        × Appends (E.contents err.old) (E.contents err.new) (flat_map (reports options.now (string_bytes matcher.old.asked.root)) said)
        × (counts.reported ≡ counted 0 (map (is_wrong options.now) said)) × (counts.found ≡ counted 0 (map is_found said))
        × InEachScene F.Files world.now.files.now matcher.old.asked (λ g. Agrees g matcher.old.cache
        → AreSaid g (dir_of matcher.old.asked) options.now.paths.items matcher.old.cache matcher.new.cache said)) }
    ensures ended { IfErr result (λ stop. (said : List Plain) × (first rest : List Given) × (last : Cache)
        × EndsAfter (flat_map (written options.now (string_bytes matcher.old.asked.root)) said) (flat_map (reports options.now (string_bytes matcher.old.asked.root)) said)
        (Appends (W.contents out.old) (W.contents out.new)) (Appends (E.contents err.old) (E.contents err.new)) stop
        × (options.now.paths.items ≡ first ++ rest)
        × InEachScene F.Files world.now.files.now matcher.old.asked (λ g. Agrees g matcher.old.cache
        → AreSaid g (dir_of matcher.old.asked) first matcher.old.cache last said)) }
    ensures said { IfErr result (SaidBy (W.fails out.new)) }
{
    let mut counts = Counts::begun(0);
    for given in &options.paths {
        let said = ask(world, matcher, given)?;
        counts = counts.with(write_said(options, matcher.root(), &said, out, err)?);
    }
    Ok(counts)
}

/// What becomes of what is given, by a matcher.
pub(crate) fn ask<'g, F: Files>(
    world: &World<'_, F>,
    matcher: &mut IncrementalIgnore,
    given: &'g Given,
) -> Result<Said<'g>, Stop>
    ensures said { InEachScene F.Files world.now.files.now matcher.old.asked (λ g. Agrees g matcher.old.cache
        → IfOk result (λ s. IsSaid g (dir_of matcher.old.asked) given.now matcher.old.cache matcher.new.cache (said_of s))) }
    ensures agrees { InEachScene F.Files world.now.files.now matcher.old.asked (λ g. Agrees g matcher.old.cache → Agrees g matcher.new.cache) }
    ensures same { matcher.new.asked ≡ matcher.old.asked }
    ensures ended { IfErr result (λ stop. stop ≡ Stop.Memory) }
{
    match given {
        Given::Path(path) => ask_path(world, matcher, path.as_str()),
        Given::NotText(number) => Ok(Said::NotText(*number)),
        Given::BadlyQuoted(number) => Ok(Said::BadlyQuoted(*number)),
    }
}

/// What becomes of a path, by a matcher.
fn ask_path<'g, F: Files>(
    world: &World<'_, F>,
    matcher: &mut IncrementalIgnore,
    path: &'g str,
) -> Result<Said<'g>, Stop>
    ensures said { InEachScene F.Files world.now.files.now matcher.old.asked (λ g. Agrees g matcher.old.cache
        → IfOk result (λ s. IsSaidOf g (normalize_of (dir_of matcher.old.asked) g.root path.now) path.now matcher.old.cache matcher.new.cache (said_of s))) }
    ensures agrees { InEachScene F.Files world.now.files.now matcher.old.asked (λ g. Agrees g matcher.old.cache → Agrees g matcher.new.cache) }
    ensures same { matcher.new.asked ≡ matcher.old.asked }
    ensures ended { IfErr result (λ stop. stop ≡ Stop.Memory) }
{
    let Ok(below) = matcher.normalize(path) else {
        return Err(Stop::Memory);
    };
    let Some(below) = below else {
        return Ok(Said::Outside(path));
    };
    let is_dir = is_dir_for(world, matcher.root(), path, below.as_str())?;
    match matcher.explain(world.files, below.as_str(), is_dir) {
        Ok((explanation, error)) => Ok(Said::Told(path, explanation, error)),
        Err(_) => Err(Stop::Memory),
    }
}

/// Whether a path is asked about as a directory: it ends with a slash, or one is there, which isn't
/// a link to one. It is known below the root by another text.
fn is_dir_for<F: Files>(
    world: &World<'_, F>,
    root: &str,
    given: &str,
    below: &str,
) -> Result<bool, Stop>
    ensures value { (tree : Tree) → IsHonest F.Files world.now.files.now tree
        → IfOk result (λ yes. yes ≡ (is_dir_there (tree.stat (join_of root.now below.now) false) || ends_with_slash given.now)) }
    ensures ended { IfErr result (λ stop. stop ≡ Stop.Memory) }
{
    if ends_with_slash(given) {
        return Ok(true);
    }
    is_dir_there(world.alloc, world.files, root, below)
}

/// Whether a path ends with a slash.
fn ends_with_slash(path: &str) -> bool
    ensures { result ≡ ends_with_slash path.now }
{
    path.ends_with('/')
}

/// Whether there is a directory at a path below a root, which isn't a link to one.
fn is_dir_there<F: Files>(alloc: Global, files: &F, root: &str, path: &str) -> Result<bool, Stop>
    ensures value { (tree : Tree) → IsHonest F.Files files.now tree
        → IfOk result (λ yes. yes ≡ is_dir_there (tree.stat (join_of root.now path.now) false)) }
    ensures ended { IfErr result (λ stop. stop ≡ Stop.Memory) }
{
    let Ok(joined) = text::join(alloc, root, path) else {
        return Err(Stop::Memory);
    };
    match files.stat(alloc, joined.as_str(), false) {
        Ok(metadata) => Ok(metadata.is_dir()),
        Err(Refusal::Fault(_)) => Ok(false),
        Err(Refusal::Memory) => Err(Stop::Memory),
    }
}

/// Writes a path after its reason, and reports what is wrong.
pub(crate) fn write_said<W: Output, E: Write>(
    options: &Options,
    root: &str,
    said: &Said<'_>,
    out: &mut W,
    err: &mut E,
) -> Result<Seen, Stop>
    ensures writes { OnOk result (Appends (W.contents out.old) (W.contents out.new) (written options.now root.now (said_of said.now))) }
    ensures reports { OnOk result (Appends (E.contents err.old) (E.contents err.new) (reports options.now root.now (said_of said.now))) }
    ensures reported { IfOk result (λ seen. seen.reported ≡ is_wrong options.now (said_of said.now)) }
    ensures found { IfOk result (λ seen. seen.found ≡ is_found (said_of said.now)) }
    ensures ended { IfErr result (EndsAfter [] [] (Appends (W.contents out.old) (W.contents out.new)) (Appends (E.contents err.old) (E.contents err.new))) }
    ensures said { IfErr result (SaidBy (W.fails out.new)) }
{
    match said {
        Said::NotText(number) => report_record(*number, "is not UTF-8", err),
        Said::BadlyQuoted(number) => report_record(*number, "is badly quoted", err),
        Said::Outside(path) => report_outside(path, root, err),
        Said::Told(path, explanation, error) => {
            write_answer(options, root, path, explanation, out)?;
            Ok(Seen {
                reported: report_rules(options, error.as_ref(), err)?,
                found: explanation.answer.is_ignore(),
            })
        }
    }
}

/// Writes a path after its reason, unless nothing is to be written, or only what is ignored and that
/// isn't.
fn write_answer<W: Output>(
    options: &Options,
    root: &str,
    path: &str,
    explanation: &Explanation,
    out: &mut W,
) -> Result<(), Stop>
    ensures writes { OnOk result (Appends (W.contents out.old) (W.contents out.new)
        (if is_left_out options.now (is_ignore explanation.now.answer.verdict) then []
        else reasoned (Some root.now) options.now.null (query_why_of explanation.now.reason) path.now)) }
    ensures ended { IfErr result IsUnwritten }
    ensures said { IfErr result (SaidBy (W.fails out.new)) }
{
    if is_left_out(options, explanation.answer.is_ignore()) {
        return Ok(());
    }
    write_reasoned(form_of(options, root), explanation, path, out)
}

/// Whether a path isn't written, by whether it is ignored.
fn is_left_out(options: &Options, is_ignored: bool) -> bool
    ensures { result ≡ is_left_out options.now is_ignored }
{
    options.quiet || (options.only_ignored && !is_ignored)
}

/// How paths below a root are written.
fn form_of<'r>(options: &Options, root: &'r str) -> Form<'r>
    ensures base { option_copied result.base ≡ Some root.now }
    ensures null { result.null ≡ options.now.null }
{
    Form {
        base: Some(root),
        null: options.null,
    }
}

/// Something was reported, and nothing found.
const REPORTED: Seen = Seen {
    reported: true,
    found: false,
};

/// Reports that a path is outside of the root.
fn report_outside<E: Write>(path: &str, root: &str, err: &mut E) -> Result<Seen, Stop>
    ensures reports { OnOk result (Appends (E.contents err.old) (E.contents err.new) (outside_line root.now path.now)) }
    ensures seen { IfOk result (λ seen. (seen.reported ≡ true) × (seen.found ≡ false)) }
    ensures ended { IfErr result (λ stop. stop ≡ Stop.Silence) }
{
    match writeln!(err, "ig: {path}: outside of {root}") {
        Ok(()) => Ok(REPORTED),
        Err(_) => Err(Stop::Silence),
    }
}

/// Reports what is wrong with a record of standard input.
fn report_record<E: Write>(number: u64, what: &str, err: &mut E) -> Result<Seen, Stop>
    ensures reports { OnOk result (Appends (E.contents err.old) (E.contents err.new) (record_line number what.now)) }
    ensures seen { IfOk result (λ seen. (seen.reported ≡ true) × (seen.found ≡ false)) }
    ensures ended { IfErr result (λ stop. stop ≡ Stop.Silence) }
{
    match writeln!(err, "ig: path {number} of standard input {what}") {
        Ok(()) => Ok(REPORTED),
        Err(_) => Err(Stop::Silence),
    }
}
