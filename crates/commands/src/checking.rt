//! The command `check`: what becomes of paths below a root, each on a line.
ghost use Rattle.std.specs.Prelude.{◌≡◌, ◌≢◌, ◌≤◌, ◌⊎◌, ℕ, All, List, [], Option, Some, false, OnErr, OnOk, IfOk, IfErr, IfSome, map, option_map, string_bytes, if◌then◌else◌};
ghost use Rattle.std.specs.Io.KnownBytes.{Appends};
ghost use Rattle.ignore_base.specs.Paths.{join_of};
ghost use Rattle.ignore_base.specs.Problem.{problem_of};
ghost use Rattle.ignore_dir.specs.Load.{Loaded};
ghost use Rattle.ignore_dir.specs.Query.{is_dir_there};
ghost use Rattle.ignore_files.specs.Gives.{IsHonest};
ghost use Rattle.ignore_files.specs.Tree.{Tree};
ghost use Rattle.ignore_query.specs.Agrees.{Agrees};
ghost use Rattle.ignore_query.specs.Fresh.{KeepsNothing};
ghost use Rattle.ignore_query.specs.Reached.{InEachScene, scene_of};
ghost use Rattle.ignore_query.specs.declared.kept.Cache.{Cache};
ghost use Rattle.commands.specs.Checking.{AreAnswers, AreAnswersSoFar, AreFirst, Checked, Checks, IsAnswer, IsMatcher, IsReport, ReportsInTurn};
ghost use Rattle.commands.specs.Checking.{answer_at, check_line, checked, is_wrong, line_for, report_for, with_next, word_of};
ghost use Rattle.commands.specs.Listing.{is_known, report_of};
ghost use Rattle.commands.specs.Stops.{BreaksOff, EndsAfter, EndsReportedAfter, EndsUnreportedAfter, SaidBy};

use crate::listing::report;
use crate::output::Output;
use crate::stop::{Stop, report_stop};
use crate::world::World;
use crate::writing::{write_bytes, write_line};
use ignore::{IncrementalIgnore, IncrementalMatch, WalkBuilder, text};
use ignore_base::Error;
use ignore_files::{Files, Refusal};
use std::io::Write;

/// Writes what becomes of each of these paths below a root, by the settings of a new builder: the
/// word of the answer and the path, on a line. What is wrong with the files of rules that are read
/// for it is reported on `err`. It returns the status, as `run` does.
///
/// # Errors
/// Why the run ended, where that can't be written to `err`.
pub fn check<F: Files, W: Output, E: Write>(
    world: &World<'_, F>,
    root: &str,
    paths: &[String],
    out: &mut W,
    err: &mut E,
) -> Result<u8, Stop>
    ensures checks { IfOk result (λ status. ((all : List Checked) × Checks (map string_bytes paths.now) all status
        (Appends (W.contents out.old) (W.contents out.new)) (Appends (E.contents err.old) (E.contents err.new))
        × ((tree : Tree) → IsHonest F.Files world.now.files.now tree → AreAnswers tree world.now.env.now root.now all))
        ⊎ ((status ≡ 2) × (all : List Checked) × (next : Option Checked) × AreFirst (map string_bytes paths.now) (with_next all next)
        × EndsReportedAfter (SaidBy (W.fails out.new)) line_for report_for all next (Appends (W.contents out.old) (W.contents out.new))
        (Appends (E.contents err.old) (E.contents err.new))
        × ((tree : Tree) → IsHonest F.Files world.now.files.now tree → AreAnswersSoFar tree world.now.env.now root.now (with_next all next)))) }
    ensures unreported { IfErr result (λ stop. (all : List Checked) × (next : Option Checked)
        × AreFirst (map string_bytes paths.now) (with_next all next)
        × EndsUnreportedAfter line_for report_for all next (Appends (W.contents out.old) (W.contents out.new))
        (Appends (E.contents err.old) (E.contents err.new)) stop
        × ((tree : Tree) → IsHonest F.Files world.now.files.now tree → AreAnswersSoFar tree world.now.env.now root.now (with_next all next))) }
    ensures status { IfOk result (λ status. status ≤ 2) }
    ensures said { IfErr result (SaidBy (W.fails out.new)) }
{
    match ask_and_write(world, root, paths, out, err) {
        Ok(false) => Ok(0),
        Ok(true) => Ok(1),
        Err(stop) => report_stop(err, stop),
    }
}

/// Asks a new matcher, and writes. It returns whether something was reported.
fn ask_and_write<F: Files, W: Output, E: Write>(
    world: &World<'_, F>,
    root: &str,
    paths: &[String],
    out: &mut W,
    err: &mut E,
) -> Result<bool, Stop>
    ensures checks { IfOk result (λ any. (all : List Checked) × Checks (map string_bytes paths.now) all (if any then 1 else 0)
        (Appends (W.contents out.old) (W.contents out.new)) (Appends (E.contents err.old) (E.contents err.new))
        × ((tree : Tree) → IsHonest F.Files world.now.files.now tree → AreAnswers tree world.now.env.now root.now all)) }
    ensures ended { IfErr result (λ stop. (all : List Checked) × (next : Option Checked)
        × AreFirst (map string_bytes paths.now) (with_next all next)
        × EndsAfter line_for report_for all next (Appends (W.contents out.old) (W.contents out.new))
        (Appends (E.contents err.old) (E.contents err.new)) stop
        × ((tree : Tree) → IsHonest F.Files world.now.files.now tree → AreAnswersSoFar tree world.now.env.now root.now (with_next all next))) }
    ensures said { IfErr result (SaidBy (W.fails out.new)) }
{
    let Ok(mut matcher) = matcher_below(world, root) else {
        return Err(Stop::Memory);
    };
    check_paths(world, &mut matcher, paths, out, err)
}

/// A matcher of the paths below a root, by the settings of a new builder.
fn matcher_below<F: Files>(world: &World<'_, F>, root: &str) -> Result<IncrementalIgnore, Error>
    ensures asked { (tree : Tree) → IsHonest F.Files world.now.files.now tree → IfOk result (λ m. IsMatcher tree world.now.env.now root.now m) }
    ensures fresh { (tree : Tree) (loads : List ℕ → Loaded) → IfOk result (λ m. Agrees (scene_of m.asked tree loads) m.cache) }
    ensures empty { IfOk result (λ m. KeepsNothing m.cache) }
{
    let builder = WalkBuilder::new(world.alloc, root)?;
    let mut matchers = builder.build_matchers(world.files, world.env)?;
    match matchers.pop() {
        Some(matcher) => Ok(matcher),
        None => unreachable!(),
    }
}

/// Asks a matcher about paths, and writes. It returns whether something was reported.
fn check_paths<F: Files, W: Output, E: Write>(
    world: &World<'_, F>,
    matcher: &mut IncrementalIgnore,
    paths: &[String],
    out: &mut W,
    err: &mut E,
) -> Result<bool, Stop>
    ensures checks { IfOk result (λ any. (all : List Checked) × Checks (map string_bytes paths.now) all (if any then 1 else 0)
        (Appends (W.contents out.old) (W.contents out.new)) (Appends (E.contents err.old) (E.contents err.new))
        × InEachScene F.Files world.now.files.now matcher.old.asked (λ g. Agrees g matcher.old.cache
        → All (IsAnswer g) all × ReportsInTurn g all matcher.old.cache matcher.new.cache)) }
    ensures ended { IfErr result (λ stop. (all : List Checked) × (next : Option Checked) × (last : Cache)
        × AreFirst (map string_bytes paths.now) (with_next all next)
        × EndsAfter line_for report_for all next (Appends (W.contents out.old) (W.contents out.new))
        (Appends (E.contents err.old) (E.contents err.new)) stop
        × InEachScene F.Files world.now.files.now matcher.old.asked (λ g. Agrees g matcher.old.cache
        → All (IsAnswer g) (with_next all next) × ReportsInTurn g (with_next all next) matcher.old.cache last)) }
    ensures said { IfErr result (SaidBy (W.fails out.new)) }
{
    let mut any = false;
    for path in paths {
        any |= check_path(world, matcher, path.as_str(), out, err)?;
    }
    Ok(any)
}

/// Asks a matcher about a path, and writes. It returns whether something was reported.
fn check_path<F: Files, W: Output, E: Write>(
    world: &World<'_, F>,
    matcher: &mut IncrementalIgnore,
    path: &str,
    out: &mut W,
    err: &mut E,
) -> Result<bool, Stop>
    ensures checks { IfOk result (λ any. (c : Checked) × (c.path ≡ path.now)
        × Appends (W.contents out.old) (W.contents out.new) (line_for c)
        × Appends (E.contents err.old) (E.contents err.new) (report_for c) × (any ≡ is_wrong c)
        × InEachScene F.Files world.now.files.now matcher.old.asked (λ g. Agrees g matcher.old.cache
        → IsAnswer g c × IsReport g matcher.old.cache matcher.new.cache c.path c.problem)) }
    ensures ended { IfErr result (λ stop. (next : Option Checked) × EndsAfter line_for report_for [] next
        (Appends (W.contents out.old) (W.contents out.new)) (Appends (E.contents err.old) (E.contents err.new)) stop
        × IfSome next (λ c. (c.path ≡ path.now) × InEachScene F.Files world.now.files.now matcher.old.asked (λ g. Agrees g matcher.old.cache
        → IsAnswer g c × IsReport g matcher.old.cache matcher.new.cache c.path c.problem))) }
    ensures agrees { InEachScene F.Files world.now.files.now matcher.old.asked (λ g. Agrees g matcher.old.cache → Agrees g matcher.new.cache) }
    ensures same { matcher.new.asked ≡ matcher.old.asked }
    ensures said { IfErr result (SaidBy (W.fails out.new)) }
{
    let (found, error) = ask(world, matcher, path)?;
    write_checked(path, found, error, out, err)
}

/// Writes what becomes of a path, and reports an error, if there is one. It returns whether there
/// is.
fn write_checked<W: Output, E: Write>(
    path: &str,
    found: IncrementalMatch,
    error: Option<Error>,
    out: &mut W,
    err: &mut E,
) -> Result<bool, Stop>
    ensures writes { IfOk result (λ any.
        Appends (W.contents out.old) (W.contents out.new) (line_for (checked path.now found (option_map problem_of error)))
        × Appends (E.contents err.old) (E.contents err.new) (report_for (checked path.now found (option_map problem_of error)))
        × (any ≡ is_wrong (checked path.now found (option_map problem_of error)))) }
    ensures ended { IfErr result (EndsAfter line_for report_for [] (Some (checked path.now found (option_map problem_of error)))
        (Appends (W.contents out.old) (W.contents out.new)) (Appends (E.contents err.old) (E.contents err.new))) }
    ensures said { IfErr result (SaidBy (W.fails out.new)) }
{
    write_found(found, path, out)?;
    report_some(error, err)
}

/// What becomes of a path, and what is wrong with the files of rules that were read for it.
fn ask<F: Files>(
    world: &World<'_, F>,
    matcher: &mut IncrementalIgnore,
    path: &str,
) -> Result<(IncrementalMatch, Option<Error>), Stop>
    ensures value { InEachScene F.Files world.now.files.now matcher.old.asked (λ g. Agrees g matcher.old.cache
        → IfOk result (λ r. r.0 ≡ answer_at g path.now)) }
    ensures reports { InEachScene F.Files world.now.files.now matcher.old.asked (λ g. Agrees g matcher.old.cache
        → IfOk result (λ r. IsReport g matcher.old.cache matcher.new.cache path.now (option_map problem_of r.1))) }
    ensures ended { IfErr result (λ stop. stop ≡ Stop.Memory) }
    ensures agrees { InEachScene F.Files world.now.files.now matcher.old.asked (λ g. Agrees g matcher.old.cache → Agrees g matcher.new.cache) }
    ensures same { matcher.new.asked ≡ matcher.old.asked }
{
    let is_dir = is_dir_at(world, matcher.root(), path)?;
    match matcher.matched_with_errors(world.files, path, is_dir) {
        Ok(answer) => Ok(answer),
        Err(_) => Err(Stop::Memory),
    }
}

/// Whether there is a directory at a path below a root, which isn't a link to one.
fn is_dir_at<F: Files>(world: &World<'_, F>, root: &str, path: &str) -> Result<bool, Stop>
    ensures value { (tree : Tree) → IsHonest F.Files world.now.files.now tree
        → IfOk result (λ yes. yes ≡ is_dir_there (tree.stat (join_of root.now path.now) false)) }
    ensures ended { IfErr result (λ stop. stop ≡ Stop.Memory) }
{
    let Ok(joined) = text::join(world.alloc, root, path) else {
        return Err(Stop::Memory);
    };
    match world.files.stat(world.alloc, joined.as_str(), false) {
        Ok(metadata) => Ok(metadata.is_dir()),
        Err(Refusal::Fault(_)) => Ok(false),
        Err(Refusal::Memory) => Err(Stop::Memory),
    }
}

/// Writes the word of an answer and its path, on a line.
#[tactic(auto, using(crate::proofs::StopLemmas::cut_first))]
fn write_found<W: Output>(found: IncrementalMatch, path: &str, out: &mut W) -> Result<(), Stop>
    ensures writes { OnOk result (Appends (W.contents out.old) (W.contents out.new) (check_line found path.now)) }
    ensures cut { OnErr result (BreaksOff [] (check_line found path.now) (Appends (W.contents out.old) (W.contents out.new))) }
    ensures ended { IfErr result (λ stop. stop ≡ Stop.Write) }
    ensures said { IfErr result (SaidBy (W.fails out.new)) }
{
    write_bytes(word_for(found).as_bytes(), out)?;
    write_bytes(b" ", out)?;
    write_line(path, out)
}

/// The word of an answer.
fn word_for(found: IncrementalMatch) -> &'static str
    ensures { result.now ≡ word_of found.verdict }
{
    if found.is_ignore() {
        "ignore"
    } else if found.is_whitelist() {
        "whitelist"
    } else {
        "none"
    }
}

/// Reports an error, if there is one. It returns whether there is.
fn report_some<E: Write>(error: Option<Error>, err: &mut E) -> Result<bool, Stop>
    ensures reports { IfOk result (λ any. (any ≡ is_known (option_map problem_of error))
        × Appends (E.contents err.old) (E.contents err.new) (report_of (option_map problem_of error))) }
    ensures ended { IfErr result (λ stop. (stop ≡ Stop.Silence) × (report_of (option_map problem_of error) ≢ [])) }
{
    match error {
        None => Ok(false),
        Some(error) => report(&error, err),
    }
}
