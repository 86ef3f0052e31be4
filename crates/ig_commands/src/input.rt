//! `why` of the paths of standard input, each of which is answered as it comes.
ghost use Rattle.std.specs.Prelude.{◌≡◌, ◌⊎◌, ◌++◌, List, [], IfErr, IfOk, IfSome, OnOk, map, option_map, string_bytes};
ghost use Rattle.std.specs.Io.KnownBytes.{Appends, Keeps};
ghost use Rattle.std.specs.IoError.{error_kind};
ghost use Rattle.std.specs.List.{flat_map};
ghost use Rattle.ignore_base.specs.Problem.{problem_of};
ghost use Rattle.ignore_base.specs.Text.{Path};
ghost use Rattle.ignore_files.specs.Gives.{IsHonest};
ghost use Rattle.ignore_files.specs.Tree.{Tree};
ghost use Rattle.ignore_query.specs.Agrees.{Agrees};
ghost use Rattle.ignore_query.specs.Reached.{InEachScene, dir_of};
ghost use Rattle.ignore_query.specs.declared.kept.Cache.{Cache};
ghost use Rattle.ig_options.specs.Given.{Gives, is_opened};
ghost use Rattle.ig_options.specs.declared.given.Given.{Given};
ghost use Rattle.ig_commands.specs.Counts.{counted};
ghost use Rattle.ig_commands.specs.Input.{AreGiven, BeginsGiving};
ghost use Rattle.ig_commands.specs.Reports.{report_of};
ghost use Rattle.ig_commands.specs.Run.{types_at_first};
ghost use Rattle.ig_commands.specs.Stops.{EndsAfter, EndsReading, IsUnwritten, SaidBy, read_stop};
ghost use Rattle.ig_commands.specs.Why.{AreAll, AreBegun, AreSaid, InputAsked, InputEnds, IsSaid, Writes, is_found, is_wrong, reports, written};
ghost use Rattle.ig_commands.specs.Why.{Said as Plain};

use crate::asking::{Asked, asked_for, default_types};
use crate::counts::{Counts, Seen, status_of};
use crate::reports::report_all;
use crate::stop::Stop;
use crate::why::{ask, matcher_of, write_said};
use crate::writing::{refuse_or_end, write_stop};
use commands::{Output, World};
use ig_options::{Options, given_by};
use ignore::IncrementalIgnore;
use ignore_files::Files;
use std::io;
use std::io::{BufRead, Write};

/// Over which files paths are asked about, and by which options.
#[derive(Drop)]
struct Asking<'q, 'w, F: Files> {
    world: &'q World<'w, F>,
    options: &'q Options,
}

/// A record of standard input, and its number, from 1.
#[derive(Drop)]
struct Record {
    text: Vec<u8>,
    number: u64,
}

/// Writes each path of standard input after its reason, as it comes, and as `why` does. Records end
/// in NUL with `-z`, and else in a newline; the last one needs no end. It returns the status.
///
/// # Errors
/// Why it ended early, of which nothing was reported.
pub(crate) fn why_input<F: Files, R: BufRead + Drop, W: Output, E: Write>(
    world: &World<'_, F>,
    options: &Options,
    input: R,
    out: &mut W,
    err: &mut E,
) -> Result<u8, Stop>
    ensures answers { IfOk result (λ status. InputAsked F.Files world.now.files.now world.now.env.now options.now types_at_first (R.remaining input) status
        (Appends (W.contents out.old) (W.contents out.new)) (Appends (E.contents err.old) (E.contents err.new))) }
    ensures ended { IfErr result (InputEnds F.Files world.now.files.now world.now.env.now options.now types_at_first (R.remaining input)
        (Appends (W.contents out.old) (W.contents out.new)) (Appends (E.contents err.old) (E.contents err.new))) }
    ensures said { IfErr result (SaidBy (W.fails out.new)) }
{
    let Ok(first) = default_types(world.alloc) else {
        return Err(Stop::Memory);
    };
    match asked_for(world, options, first) {
        Ok(asked) => report_and_answer(&Asking { world, options }, asked, input, out, err),
        Err(error) => refuse_or_end(&error, err),
    }
}

/// Reports what is wrong with the files that are named, and answers.
fn report_and_answer<F: Files, R: BufRead + Drop, W: Output, E: Write>(
    asking: &Asking<'_, '_, F>,
    asked: Asked,
    input: R,
    out: &mut W,
    err: &mut E,
) -> Result<u8, Stop>
    ensures answers { IfOk result (λ status. (root : Path) × (given : List Given) × (said : List Plain)
        × IfSome (R.remaining input) (λ bytes. AreGiven asking.now.options.now bytes given)
        × Writes asking.now.options.now (map (option_map problem_of) asked.errors.items) root said status (Appends (W.contents out.old) (W.contents out.new)) (Appends (E.contents err.old) (E.contents err.new))
        × ((tree : Tree) → IsHonest F.Files asking.now.world.now.files.now tree → AreAll tree asking.now.world.now.env.now asked.walk given root said)) }
    ensures ended { IfErr result (λ stop. (root : Path) × (given : List Given) × (said : List Plain)
        × IfSome (R.remaining input) (λ bytes. BeginsGiving asking.now.options.now bytes given)
        × EndsReading (flat_map (written asking.now.options.now root) said) (flat_map report_of (map (option_map problem_of) asked.errors.items) ++ flat_map (reports asking.now.options.now root) said)
        (Appends (W.contents out.old) (W.contents out.new)) (Appends (E.contents err.old) (E.contents err.new)) stop
        × ((tree : Tree) → IsHonest F.Files asking.now.world.now.files.now tree → AreBegun tree asking.now.world.now.env.now asked.walk given root said)) }
    ensures said { IfErr result (SaidBy (W.fails out.new)) }
{
    let reported = report_all(&asked.errors, err)?;
    let Ok(mut matcher) = matcher_of(asking.world, asked.walk) else {
        return Err(Stop::Memory);
    };
    let counts = answer_all(asking, &mut matcher, input, out, err)?;
    Ok(status_of(Counts {
        reported: counts.reported.saturating_add(reported),
        found: counts.found,
    }))
}

/// Answers each path of standard input as it comes: the output is flushed after each.
fn answer_all<F: Files, R: BufRead + Drop, W: Output, E: Write>(
    asking: &Asking<'_, '_, F>,
    matcher: &mut IncrementalIgnore,
    input: R,
    out: &mut W,
    err: &mut E,
) -> Result<Counts, Stop>
    ensures answers { IfOk result (λ counts. (given : List Given) × (said : List Plain)
        × IfSome (R.remaining input) (λ bytes. AreGiven asking.now.options.now bytes given)
        × Appends (W.contents out.old) (W.contents out.new) (flat_map (written asking.now.options.now (string_bytes matcher.old.asked.root)) said)
        × Appends (E.contents err.old) (E.contents err.new) (flat_map (reports asking.now.options.now (string_bytes matcher.old.asked.root)) said)
        × (counts.reported ≡ counted 0 (map (is_wrong asking.now.options.now) said)) × (counts.found ≡ counted 0 (map is_found said))
        × InEachScene F.Files asking.now.world.now.files.now matcher.old.asked (λ g. Agrees g matcher.old.cache
        → AreSaid g (dir_of matcher.old.asked) given matcher.old.cache matcher.new.cache said)) }
    ensures ended { IfErr result (λ stop. (given : List Given) × (said : List Plain) × (last : Cache)
        × IfSome (R.remaining input) (λ bytes. BeginsGiving asking.now.options.now bytes given)
        × EndsReading (flat_map (written asking.now.options.now (string_bytes matcher.old.asked.root)) said) (flat_map (reports asking.now.options.now (string_bytes matcher.old.asked.root)) said)
        (Appends (W.contents out.old) (W.contents out.new)) (Appends (E.contents err.old) (E.contents err.new)) stop
        × InEachScene F.Files asking.now.world.now.files.now matcher.old.asked (λ g. Agrees g matcher.old.cache
        → AreSaid g (dir_of matcher.old.asked) given matcher.old.cache last said)) }
    ensures said { IfErr result (SaidBy (W.fails out.new)) }
{
    let end = if asking.options.null { 0u8 } else { b'\n' };
    let mut counts = Counts::begun(0);
    let mut number = 0u64;
    for text in input.split(asking.world.alloc, end) {
        let text = match text {
            Ok(text) => text,
            Err(error) => return Err(read_stop(&error)),
        };
        number = number.saturating_add(1);
        let seen = answer(asking, matcher, Record { text, number }, out, err)?;
        counts = counts.with(seen);
        flush(out)?;
    }
    Ok(counts)
}

/// Answers about what a record gives.
fn answer<F: Files, W: Output, E: Write>(
    asking: &Asking<'_, '_, F>,
    matcher: &mut IncrementalIgnore,
    piece: Record,
    out: &mut W,
    err: &mut E,
) -> Result<Seen, Stop>
    ensures answers { IfOk result (λ seen. (given : Given) × (one : Plain)
        × Gives (is_opened asking.now.options.now.null piece.text.items) piece.text.items piece.number given
        × Appends (W.contents out.old) (W.contents out.new) (written asking.now.options.now (string_bytes matcher.old.asked.root) one)
        × Appends (E.contents err.old) (E.contents err.new) (reports asking.now.options.now (string_bytes matcher.old.asked.root) one)
        × (seen.reported ≡ is_wrong asking.now.options.now one) × (seen.found ≡ is_found one)
        × InEachScene F.Files asking.now.world.now.files.now matcher.old.asked (λ g. Agrees g matcher.old.cache
        → IsSaid g (dir_of matcher.old.asked) given matcher.old.cache matcher.new.cache one × Agrees g matcher.new.cache)) }
    ensures same { matcher.new.asked ≡ matcher.old.asked }
    ensures ended { IfErr result (EndsAfter [] [] (Appends (W.contents out.old) (W.contents out.new)) (Appends (E.contents err.old) (E.contents err.new))) }
    ensures said { IfErr result (SaidBy (W.fails out.new)) }
{
    let Ok(given) = given_by(piece.text, piece.number, asking.options.null) else {
        return Err(Stop::Memory);
    };
    let said = ask(asking.world, matcher, &given)?;
    let seen = write_said(asking.options, matcher.root(), &said, out, err)?;
    Ok(seen)
}

/// Writes what an output still keeps.
#[tactic(auto, using(crate::proofs::StopLemmas::said_as))]
fn flush<W: Output>(out: &mut W) -> Result<(), Stop>
    ensures written { Keeps (W.contents out.old) (W.contents out.new) }
    ensures ended { IfErr result IsUnwritten }
    ensures said { IfErr result (SaidBy (W.fails out.new)) }
{
    match out.flush() {
        Ok(()) => Ok(()),
        Err(error) => Err(write_stop(error.kind())),
    }
}

/// Why a failed read ends a command.
pub(crate) fn read_stop(error: &io::Error) -> Stop
    ensures kind { result ≡ read_stop (error_kind error.now) }
    ensures ended { (result ≡ Stop.Read) ⊎ (result ≡ Stop.Memory) }
{
    match error.kind() {
        io::ErrorKind::OutOfMemory => Stop::Memory,
        _ => Stop::Read,
    }
}
