//! The run of the program, over any two writers.
ghost use Rattle.std.specs.Prelude.{◌≡◌, ◌≢◌, ◌≤◌, ◌⊎◌, ◌==◌, ◌∷◌, ◌++◌, [], ℕ, List, Option, None, Some, true, false, OnOk, IfOk, IfErr, codes, length};
ghost use Rattle.std.specs.Prelude.{map, string_bytes, if◌then◌else◌};
ghost use Rattle.std.specs.Io.KnownBytes.{Appends};
ghost use Rattle.std.specs.Str.Lines.{lines};
ghost use Rattle.ignore_base.specs.Text.{Path};
ghost use Rattle.ignore_base.specs.Errors.{problem_text};
ghost use Rattle.ignore_base.specs.Problem.{problem_of, memory};
ghost use Rattle.ignore_files.specs.Gives.{IsHonest};
ghost use Rattle.ignore_files.specs.Tree.{Tree};
ghost use Rattle.ignore_rules.specs.Rules.{begun, built};
ghost use Rattle.ignore_walk.specs.Entry.{Item};
ghost use Rattle.commands.specs.Listing.{Lists, lines_of, reports_of};
ghost use Rattle.commands.specs.Checking.{AreAnswers, AreAnswersSoFar, AreFirst, Checked, Checks, line_for, report_for, with_next};
ghost use Rattle.commands.specs.Walking.{AreBegunOf, AreListedOf};
ghost use Rattle.commands.specs.Words.{Question, command_of, of_check, of_list, of_match, request_view};
ghost use Rattle.commands.specs.Stops.{BreaksOff, Ends, EndsAnswer, EndsLine, EndsLines, EndsReported, EndsReportedAfter, EndsUnreported, EndsUnreportedAfter, SaidBy, line_stop, reason};
ghost use Rattle.commands.specs.Matching.{AddsAll, AddsOne, Prints, answer_line, answer_of, refusal};

use crate::checking::check;
use crate::listing::list;
use crate::output::Output;
use crate::stop::{Stop, report_stop};
use crate::words::{Command, Request, read_command};
use crate::world::World;
use crate::writing::{write_bytes, write_line};
use ignore_base::{Error, Match};
use ignore_files::Files;
use ignore_rules::gitignore::{Gitignore, GitignoreBuilder};
use std::alloc::Global;
use std::io::Write;

/// Reports a rejected line, counted from 1. Out of memory ends the run.
fn report_refusal<E: Write>(err: &mut E, number: u64, error: Error) -> Result<(), Stop>
    ensures reports { OnOk result (Appends (E.contents err.old) (E.contents err.new) (refusal number (problem_of error))) }
    ensures line { OnOk result (problem_of error ≢ memory) }
    ensures unreported { IfErr result (λ stop. stop ≡ line_stop (problem_of error)) }
    ensures kept { IfErr result (λ stop. stop ≡ Stop.Memory → Appends (E.contents err.old) (E.contents err.new) []) }
{
    match &error {
        Error::Glob { .. } => match writeln!(err, "igwalk: line {number}: {error}") {
            Ok(()) => Ok(()),
            Err(_) => Err(Stop::Silence),
        },
        _ => Err(Stop::Memory),
    }
}

/// Adds a line of rules, counted from 1, and reports it where it is rejected. Returns whether it
/// was.
fn add_or_report<E: Write>(
    builder: &mut GitignoreBuilder,
    number: u64,
    line: &str,
    err: &mut E,
) -> Result<bool, Stop>
    ensures added { IfOk result (AddsOne builder.old number line.now builder.new (Appends (E.contents err.old) (E.contents err.new))) }
    ensures ended { IfErr result (EndsLine builder.old.options line.now (Appends (E.contents err.old) (E.contents err.new))) }
{
    match builder.push_line(None, line) {
        Ok(()) => Ok(false),
        Err(error) => {
            report_refusal(err, number, error)?;
            Ok(true)
        }
    }
}

/// Adds the lines of rules, and reports each that is rejected. Returns whether one was.
fn add_lines<E: Write>(
    builder: &mut GitignoreBuilder,
    rules: &str,
    err: &mut E,
) -> Result<bool, Stop>
    ensures added { (root : Path) → builder.old ≡ begun root
        → IfOk result (AddsAll root (lines rules.now) builder.new (Appends (E.contents err.old) (E.contents err.new))) }
    ensures ended { (root : Path) → builder.old ≡ begun root
        → IfErr result (EndsLines root (lines rules.now) (Appends (E.contents err.old) (E.contents err.new))) }
{
    let mut number = 0u64;
    let mut refused = false;
    for line in rules.lines() {
        number += 1;
        refused |= add_or_report(builder, number, line, err)?;
    }
    Ok(refused)
}

/// Writes the answer of a matcher for a path.
fn write_answer<W: Output>(
    out: &mut W,
    matcher: &Gitignore,
    path: &str,
    is_dir: bool,
) -> Result<(), Stop>
    ensures answers { OnOk result (Appends (W.contents out.old) (W.contents out.new)
        (answer_line (answer_of matcher.now path.now is_dir))) }
    ensures ended { IfErr result (EndsAnswer (Appends (W.contents out.old) (W.contents out.new))) }
    ensures said { IfErr result (SaidBy (W.fails out.new)) }
{
    match matcher.matched(path, is_dir) {
        Ok(Match::None) => write_line("none", out),
        Ok(Match::Ignore(rule)) => write_rule(b"ignore ", rule.original(), out),
        Ok(Match::Whitelist(rule)) => write_rule(b"whitelist ", rule.original(), out),
        Err(_) => Err(Stop::Memory),
    }
}

/// Writes a word with the space after it, and a rule, on a line.
fn write_rule<W: Output>(word: &[u8], rule: &str, out: &mut W) -> Result<(), Stop>
    ensures writes { OnOk result (Appends (W.contents out.old) (W.contents out.new) (word.now ++ (rule.now ++ 10 ∷ []))) }
    ensures ended { IfErr result (λ stop. stop ≡ Stop.Write) }
    ensures said { IfErr result (SaidBy (W.fails out.new)) }
{
    write_bytes(word, out)?;
    write_line(rule, out)
}

/// Answers a question. Returns whether a line of its rules was rejected.
fn answer<W: Output, E: Write>(
    alloc: Global,
    request: Request<'_>,
    out: &mut W,
    err: &mut E,
) -> Result<bool, Stop>
    ensures prints { IfOk result (λ refused. Prints (request_view request.entry) (if refused then 1 else 0)
        (Appends (W.contents out.old) (W.contents out.new)) (Appends (E.contents err.old) (E.contents err.new))) }
    ensures ended { IfErr result (Ends (request_view request.entry)
        (Appends (W.contents out.old) (W.contents out.new)) (Appends (E.contents err.old) (E.contents err.new))) }
    ensures said { IfErr result (SaidBy (W.fails out.new)) }
{
    let Ok(mut builder) = GitignoreBuilder::new(alloc, request.root) else {
        return Err(Stop::Memory);
    };
    let refused = add_lines(&mut builder, request.rules, err)?;
    let matcher = builder.into_gitignore();
    write_answer(out, &matcher, request.path, request.is_dir)?;
    Ok(refused)
}

/// Answers a question, and reports why that ended early. It returns the status.
fn answer_or_report<W: Output, E: Write>(
    alloc: Global,
    request: Request<'_>,
    out: &mut W,
    err: &mut E,
) -> Result<u8, Stop>
    ensures prints { IfOk result (λ status. Prints (request_view request.entry) status
        (Appends (W.contents out.old) (W.contents out.new)) (Appends (E.contents err.old) (E.contents err.new))
        ⊎ ((status ≡ 2) × EndsReported (SaidBy (W.fails out.new)) (request_view request.entry) (Appends (W.contents out.old) (W.contents out.new))
        (Appends (E.contents err.old) (E.contents err.new)))) }
    ensures unreported { IfErr result (EndsUnreported (request_view request.entry)
        (Appends (W.contents out.old) (W.contents out.new)) (Appends (E.contents err.old) (E.contents err.new))) }
    ensures status { IfOk result (λ status. status ≤ 2) }
    ensures said { IfErr result (SaidBy (W.fails out.new)) }
{
    match answer(alloc, request, out, err) {
        Ok(false) => Ok(0),
        Ok(true) => Ok(1),
        Err(stop) => report_stop(err, stop),
    }
}

/// Runs the command in the words after the program's name.
///
/// - `match ROOT RULES PATH d|f` writes the answer of the lines of RULES, relative to ROOT, for
///   PATH, a directory (`d`) or not (`f`): `none`, or `ignore` or `whitelist` and the line that
///   decided. A rejected line is reported on `err`, and the other lines count.
/// - `list ROOT..` writes the paths of the entries of a walk, each on a line, and reports on `err`
///   what is wrong with an entry or stands in its place.
/// - `check ROOT PATH..` writes what becomes of each path below ROOT, by the rules of its tree:
///   `none`, `ignore` or `whitelist` and the path. What is wrong with files of rules is reported on
///   `err`.
///
/// It returns the status: 0; 1 where something was reported; 2 for wrong arguments, out of memory
/// and what can't be written, each reported on `err`. Wrong arguments are found before anything is
/// written to `out`.
///
/// # Errors
/// Why the run ended, where that can't be written to `err`. The status is then 2 too.
pub fn run<F: Files, W: Output, E: Write>(
    world: &World<'_, F>,
    words: &[String],
    out: &mut W,
    err: &mut E,
) -> Result<u8, Stop>
    ensures wrong { command_of (map string_bytes words.now) ≡ None → Appends (W.contents out.old) (W.contents out.new) [] }
    ensures usage { command_of (map string_bytes words.now) ≡ None
        → IfOk result (λ status. (status ≡ 2) × Appends (E.contents err.old) (E.contents err.new) (reason Stop.Usage)) }
    ensures usage_unreported { command_of (map string_bytes words.now) ≡ None → IfErr result (λ stop. (stop ≡ Stop.Usage)
        × BreaksOff [] (reason Stop.Usage) (Appends (E.contents err.old) (E.contents err.new))) }
    ensures prints { (question : Question) → command_of (map string_bytes words.now) ≡ Some (of_match question)
        → IfOk result (λ status. Prints question status (Appends (W.contents out.old) (W.contents out.new))
        (Appends (E.contents err.old) (E.contents err.new))
        ⊎ ((status ≡ 2) × EndsReported (SaidBy (W.fails out.new)) question (Appends (W.contents out.old) (W.contents out.new))
        (Appends (E.contents err.old) (E.contents err.new)))) }
    ensures unreported { (question : Question) → command_of (map string_bytes words.now) ≡ Some (of_match question)
        → IfErr result (EndsUnreported question (Appends (W.contents out.old) (W.contents out.new))
        (Appends (E.contents err.old) (E.contents err.new))) }
    ensures lists { (roots : List Path) → command_of (map string_bytes words.now) ≡ Some (of_list roots)
        → IfOk result (λ status. ((items : List Item) × Lists items status
        (Appends (W.contents out.old) (W.contents out.new)) (Appends (E.contents err.old) (E.contents err.new))
        × AreListedOf F.Files world.now.files.now world.now.env.now roots items)
        ⊎ ((status ≡ 2) × (items : List Item) × (next : Option Item) × EndsReportedAfter (SaidBy (W.fails out.new)) lines_of reports_of items next
        (Appends (W.contents out.old) (W.contents out.new)) (Appends (E.contents err.old) (E.contents err.new))
        × AreBegunOf F.Files world.now.files.now world.now.env.now roots items next)) }
    ensures unreported_list { (roots : List Path) → command_of (map string_bytes words.now) ≡ Some (of_list roots)
        → IfErr result (λ stop. (items : List Item) × (next : Option Item)
        × EndsUnreportedAfter lines_of reports_of items next (Appends (W.contents out.old) (W.contents out.new))
        (Appends (E.contents err.old) (E.contents err.new)) stop
        × AreBegunOf F.Files world.now.files.now world.now.env.now roots items next) }
    ensures checks { (root : Path) (paths : List Path) → command_of (map string_bytes words.now) ≡ Some (of_check root paths)
        → IfOk result (λ status. ((all : List Checked) × Checks paths all status
        (Appends (W.contents out.old) (W.contents out.new)) (Appends (E.contents err.old) (E.contents err.new))
        × ((tree : Tree) → IsHonest F.Files world.now.files.now tree → AreAnswers tree world.now.env.now root all))
        ⊎ ((status ≡ 2) × (all : List Checked) × (next : Option Checked) × AreFirst paths (with_next all next)
        × EndsReportedAfter (SaidBy (W.fails out.new)) line_for report_for all next (Appends (W.contents out.old) (W.contents out.new))
        (Appends (E.contents err.old) (E.contents err.new))
        × ((tree : Tree) → IsHonest F.Files world.now.files.now tree → AreAnswersSoFar tree world.now.env.now root (with_next all next)))) }
    ensures unreported_check { (root : Path) (paths : List Path) → command_of (map string_bytes words.now) ≡ Some (of_check root paths)
        → IfErr result (λ stop. (all : List Checked) × (next : Option Checked) × AreFirst paths (with_next all next)
        × EndsUnreportedAfter line_for report_for all next (Appends (W.contents out.old) (W.contents out.new))
        (Appends (E.contents err.old) (E.contents err.new)) stop
        × ((tree : Tree) → IsHonest F.Files world.now.files.now tree → AreAnswersSoFar tree world.now.env.now root (with_next all next))) }
    ensures status { IfOk result (λ status. status ≤ 2) }
    ensures said { IfErr result (SaidBy (W.fails out.new)) }
{
    match read_command(words) {
        Some(Command::Match(request)) => answer_or_report(world.alloc, request, out, err),
        Some(Command::List(roots)) => list(world, roots, out, err),
        Some(Command::Check(root, paths)) => check(world, root, paths, out, err),
        None => report_stop(err, Stop::Usage),
    }
}
