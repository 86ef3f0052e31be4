//! The command `same`: whether two files of rules say the same of every path.
ghost use Rattle.std.specs.Prelude.{◌≡◌, ◌≢◌, ◌⊎◌, ◌++◌, ◌||◌, List, [], IfErr, IfOk, OnOk, option_map, true, false, unwrap_or};
ghost use Rattle.std.specs.Io.KnownBytes.{Appends};
ghost use Rattle.std.specs.Option.{option_copied};
ghost use Rattle.ignore_base.specs.Problem.{problem_of};
ghost use Rattle.ignore_base.specs.Text.{Bytes};
ghost use Rattle.ignore_files.specs.Gives.{IsHonest};
ghost use Rattle.ignore_files.specs.Tree.{Tree};
ghost use Rattle.ignore_every.specs.declared.said.Difference.{Difference};
ghost use Rattle.ig_commands.specs.Reports.{is_known, report_of};
ghost use Rattle.ig_commands.specs.Same.{Compares, EndsComparing, IsInput, SameAsked, SameEnds, difference_text, differences_text, do_differ, is_fault, is_told, is_unopened, is_unread, refused_line, side, side_told, status_by, told, verdict_word};
ghost use Rattle.ig_commands.specs.Sides.{AreRead};
ghost use Rattle.ig_commands.specs.Stops.{EndsAfter, IsUnwritten, SaidBy};

use crate::form::{Form, Origin, write_after, write_before, write_no_rule, write_rule};
use crate::input::read_stop;
use crate::reports::{report_rules, report_some};
use crate::sides::{Sides, given_at, read_sides, takes_input, wanted_by};
use crate::stop::Stop;
use crate::writing::write_bytes;
use commands::{Output, World};
use ig_every::{RulesRead, compare_rules, rule_in, shown};
use ig_options::Options;
use ignore_base::Error;
use ignore_every::{Difference, Error as Refused, Said, Verdict};
use ignore_files::Files;
use ignore_rules::gitignore::{Gitignore, Glob};
use std::alloc::Global;
use std::io::{BufRead, Write};

/// By which options two files are compared, and how many paths are written at most at which they
/// differ; one, where no number is given, or 0.
#[derive(Clone, Copy)]
pub(crate) struct Asked<'o> {
    pub(crate) options: &'o Options,
    pub(crate) most: Option<usize>,
}

/// Writes nothing where the two files that are given say the same of every path; else a shortest path
/// at which they differ, twice: after what OLD says of it and by which rule, and after the same of
/// NEW; with `--paths` so many such paths, no two by the same pair of rules. `-` is standard input. An invalid line is reported, and the other lines are compared; where a
/// file can't be read, that is reported alone. It returns the status: 0 where they say the same, 1
/// where they differ, 2 where something was reported, as that there is too much to compare.
///
/// # Errors
/// Why it ended early, of which nothing was reported.
pub(crate) fn same<F: Files, R: BufRead + Drop, W: Output, E: Write>(
    world: &World<'_, F>,
    asked: Asked<'_>,
    input: R,
    out: &mut W,
    err: &mut E,
) -> Result<u8, Stop>
    ensures compares { IfOk result (λ status. SameAsked F.Files world.now.files.now asked.entry.options.now asked.entry.most (R.remaining input) status
        (Appends (W.contents out.old) (W.contents out.new)) (Appends (E.contents err.old) (E.contents err.new))) }
    ensures ended { IfErr result (SameEnds F.Files world.now.files.now asked.entry.options.now asked.entry.most (R.remaining input)
        (Appends (W.contents out.old) (W.contents out.new)) (Appends (E.contents err.old) (E.contents err.new))) }
    ensures said { IfErr result (SaidBy (W.fails out.new)) }
{
    let options = asked.options;
    let bytes = input_bytes(world.alloc, options, input)?;
    let Ok(sides) = read_sides(world.alloc, world.files, options, bytes.as_slice()) else {
        return Err(Stop::Memory);
    };
    report_and_compare(world.alloc, asked, &sides, out, err)
}

/// The bytes of standard input, where it is one of the two files.
fn input_bytes<R: BufRead + Drop>(
    alloc: Global,
    options: &Options,
    mut input: R,
) -> Result<Vec<u8>, Stop>
    ensures read { IfOk result (λ bytes. IsInput options.now (R.remaining input) bytes.items) }
    ensures ended { IfErr result (λ stop. (stop ≡ Stop.Read) ⊎ (stop ≡ Stop.Memory)) }
{
    let mut bytes = Vec::new(alloc);
    if !takes_input(options) {
        return Ok(bytes);
    }
    match input.read_to_end(&mut bytes) {
        Ok(_) => Ok(bytes),
        Err(error) => Err(read_stop(&error)),
    }
}

/// Reports what is wrong with the files, and compares.
fn report_and_compare<W: Output, E: Write>(
    alloc: Global,
    asked: Asked<'_>,
    sides: &Sides,
    out: &mut W,
    err: &mut E,
) -> Result<u8, Stop>
    ensures compares { IfOk result (λ status. Compares asked.entry.options.now asked.entry.most sides.now status (Appends (W.contents out.old) (W.contents out.new)) (Appends (E.contents err.old) (E.contents err.new))) }
    ensures ended { IfErr result (EndsComparing asked.entry.options.now asked.entry.most sides.now (Appends (W.contents out.old) (W.contents out.new)) (Appends (E.contents err.old) (E.contents err.new))) }
    ensures said { IfErr result (SaidBy (W.fails out.new)) }
{
    let options = asked.options;
    let reported = report_sides(options, sides, err)?;
    if is_one_unread(sides) {
        return Ok(2);
    }
    let (old, new) = (&sides.old.rules, &sides.new.rules);
    match compare_rules(alloc, old, new, wanted_by(options, asked.most)) {
        Ok(found) => {
            let found = found.as_slice();
            write_differences(alloc, options, sides, found, out)?;
            Ok(status_by(reported, do_differ(found)))
        }
        Err(refused) => refuse_comparison(options, refused, err),
    }
}

/// The status: 2 where something was reported, else 1 where the files differ, and else 0.
fn status_by(reported: bool, differ: bool) -> u8
    ensures { result ≡ status_by reported differ }
{
    if reported { 2 } else { u8::from(differ) }
}

/// Whether one of two files can't be read at all.
fn is_one_unread(sides: &Sides) -> bool
    ensures { result ≡ (is_unread sides.now.old || is_unread sides.now.new) }
{
    is_unread(&sides.old) || is_unread(&sides.new)
}

/// Whether a file can't be read at all.
fn is_unread(side: &RulesRead) -> bool
    ensures { result ≡ is_unread side.now }
{
    match &side.problem {
        Some(problem) => is_unopened(problem),
        None => false,
    }
}

/// Whether an error is that a file can't be opened, and none of its lines.
fn is_unopened(error: &Error) -> bool
    ensures { result ≡ is_unopened (problem_of error.now) }
{
    match error {
        Error::WithPath { err, .. } => is_fault(err),
        _ => false,
    }
}

/// Whether an error is one of the file system.
fn is_fault(error: &Error) -> bool
    ensures { result ≡ is_fault (problem_of error.now) }
{
    match error {
        Error::Io(_) => true,
        _ => false,
    }
}

/// Reports what is wrong with both files. It returns whether anything is that counts.
fn report_sides<E: Write>(options: &Options, sides: &Sides, err: &mut E) -> Result<bool, Stop>
    ensures reports { IfOk result (λ any. (any ≡ is_told options.now sides.now)
        × Appends (E.contents err.old) (E.contents err.new) (told options.now sides.now)) }
    ensures ended { IfErr result (λ stop. stop ≡ Stop.Silence) }
{
    let old = report_side(options, &sides.old, err)?;
    let new = report_side(options, &sides.new, err)?;
    Ok(old || new)
}

/// Reports what is wrong with a file. It returns whether anything is that counts.
fn report_side<E: Write>(options: &Options, side: &RulesRead, err: &mut E) -> Result<bool, Stop>
    ensures reports { IfOk result (λ any. (any ≡ is_known (side_told options.now side.now))
        × Appends (E.contents err.old) (E.contents err.new) (report_of (side_told options.now side.now))) }
    ensures ended { IfErr result (λ stop. stop ≡ Stop.Silence) }
{
    if is_unread(side) {
        return report_some(side.problem.as_ref(), err);
    }
    report_rules(options, side.problem.as_ref(), err)
}

/// Reports why two files can't be compared, unless memory ran out, which ends the command.
fn refuse_comparison<E: Write>(options: &Options, refused: Refused, err: &mut E) -> Result<u8, Stop>
    ensures reports { IfOk result (λ status. (status ≡ 2)
        × Appends (E.contents err.old) (E.contents err.new) (refused_line options.now refused)) }
    ensures known { IfOk result (λ status. refused ≢ Refused.Memory) }
    ensures ended { IfErr result (λ stop. (stop ≡ Stop.Memory) ⊎ (stop ≡ Stop.Silence)) }
    ensures kept { IfErr result (λ stop. stop ≡ Stop.Memory → Appends (E.contents err.old) (E.contents err.new) []) }
{
    let text = match refused {
        Refused::Memory => return Err(Stop::Memory),
        Refused::TooLarge => "too many states to compare them",
        Refused::Rejected => "the comparison isn't accepted by its check",
    };
    let (old, new) = (given_at(options, 0), given_at(options, 1));
    match writeln!(err, "ig: {old}, {new}: {text}") {
        Ok(()) => Ok(2),
        Err(_) => Err(Stop::Silence),
    }
}

/// Whether two files differ, which do so at these questions.
fn do_differ(found: &[Difference]) -> bool
    ensures { result ≡ do_differ found.now }
{
    !found.is_empty()
}

/// Writes each path at which two files differ, after what each says of it.
fn write_differences<W: Output>(
    alloc: Global,
    options: &Options,
    sides: &Sides,
    found: &[Difference],
    out: &mut W,
) -> Result<(), Stop>
    ensures writes { OnOk result (Appends (W.contents out.old) (W.contents out.new) (differences_text options.now sides.now found.now)) }
    ensures ended { IfErr result (λ stop. (done : List Difference) × (rest : List Difference) × (found.now ≡ done ++ rest)
        × EndsAfter (differences_text options.now sides.now done) [] (Appends (W.contents out.old) (W.contents out.new)) (λ bs. bs ≡ []) stop) }
    ensures said { IfErr result (SaidBy (W.fails out.new)) }
{
    for difference in found {
        write_difference(alloc, options, sides, difference, out)?;
    }
    Ok(())
}

/// Writes a path at which two files differ, after what each says of it.
fn write_difference<W: Output>(
    alloc: Global,
    options: &Options,
    sides: &Sides,
    difference: &Difference,
    out: &mut W,
) -> Result<(), Stop>
    ensures writes { OnOk result (Appends (W.contents out.old) (W.contents out.new) (difference_text options.now sides.now difference.now)) }
    ensures ended { IfErr result (EndsAfter [] [] (Appends (W.contents out.old) (W.contents out.new)) (λ bs. bs ≡ [])) }
    ensures said { IfErr result (SaidBy (W.fails out.new)) }
{
    if options.quiet {
        return Ok(());
    }
    let Ok(path) = shown(alloc, &difference.question) else {
        return Err(Stop::Memory);
    };
    let form = Form {
        base: None,
        null: options.null,
    };
    write_side(form, &sides.old.rules, &difference.old, path.as_str(), out)?;
    write_side(form, &sides.new.rules, &difference.new, path.as_str(), out)
}

/// Writes a path after what a file says of it: the verdict, and the rule by which it is said.
fn write_side<W: Output>(
    form: Form<'_>,
    rules: &Gitignore,
    said: &Said,
    path: &str,
    out: &mut W,
) -> Result<(), Stop>
    ensures writes { OnOk result (Appends (W.contents out.old) (W.contents out.new) (side (option_copied form.entry.base) form.entry.null rules.now said.now path.now)) }
    ensures ended { IfErr result IsUnwritten }
    ensures said { IfErr result (SaidBy (W.fails out.new)) }
{
    write_bytes(word_of(said.verdict()).as_bytes(), out)?;
    write_before(form, out)?;
    match rule_in(rules, said) {
        Some(rule) => write_rule(form, &origin_in(rule), out)?,
        None => write_no_rule(form, out)?,
    }
    write_after(form, path, out)
}

/// The word for a verdict.
fn word_of(verdict: Verdict) -> &'static str
    ensures { result.now ≡ verdict_word verdict }
{
    match verdict {
        Verdict::None => "none",
        Verdict::Ignore => "ignore",
        Verdict::Whitelist => "whitelist",
    }
}

/// Where a rule was read.
fn origin_in(rule: &Glob) -> Origin<'_>
    ensures source { result.source.now ≡ unwrap_or rule.now.from [] }
    ensures line { result.line ≡ rule.now.line }
    ensures pattern { result.pattern.now ≡ rule.now.original }
{
    Origin {
        source: rule.from().unwrap_or(""),
        line: rule.line(),
        pattern: rule.original(),
    }
}
