//! The run of the program, over any two writers.
ghost use Rattle.std.specs.Prelude.{◌≡◌, ◌≢◌, ◌⊎◌, Ok, Err, [], IfOk, IfErr, true};
ghost use Rattle.std.specs.Io.KnownBytes.{Appends, Keeps};
ghost use Rattle.ignore_base.specs.Problem.{memory, problem_of};
ghost use Rattle.ig_commands.specs.Listing.{RefusesOptions};
ghost use Rattle.ig_commands.specs.Run.{Does, DoesBy, DoesTold, Ends, EndsBefore, EndsBy, EndsTold, Finishes, Runs, Shows, types_at_first};
ghost use Rattle.ig_commands.specs.Stops.{EndsAfter, IsUnwritten, SaidBy, reason, stop_status};
ghost use Rattle.ig_options.specs.declared.options.Options.{Options};

use crate::asking::{check_options, default_types};
use crate::ignored::list_ignored;
use crate::input::why_input;
use crate::lint::{lint_files, lint_json};
use crate::listing::list;
use crate::same::{Asked, same};
use crate::stop::{Stop, report_stop};
use crate::types::list_types;
use crate::unused::list_unused;
use crate::why::why;
use crate::writing::{refuse_or_end, write_stop};
use clap::error::ErrorKind;
use commands::{Output, World};
use ig_options::{Options, Task, hint_of, read_words};
use ignore_base::Error;
use ignore_files::{Fault, Files, Refusal};
use ignore_types::types::TypesBuilder;
use std::alloc::Global;
use std::io;
use std::io::{BufRead, Write};

/// How a run ended: its status, and whether its time is asked for.
#[derive(Clone, Copy)]
pub struct Ran {
    /// The status.
    pub status: u8,
    /// Whether the time that it took is to be reported.
    pub is_timed: bool,
}

/// Runs the command in the words after the program's name: lists what the rules keep, what they
/// ignore, why, rules that decide on nothing, or the file types. `input` is read where the paths of
/// `why` are to come from there. It returns the status.
///
/// # Errors
/// Why the run ended, where that can't be written to `err`.
pub fn run<F: Files, R: BufRead + Drop, W: Output, E: Write>(
    world: &World<'_, F>,
    words: &[String],
    input: R,
    out: &mut W,
    err: &mut E,
) -> Result<Ran, Stop>
    ensures runs { IfOk result (λ ran. Runs F.Files world.now.files.now world.now.env.now (R.remaining input) (W.fails out.new) ran.status ran.is_timed
        (W.contents out.old) (W.contents out.new) (E.contents err.old) (E.contents err.new)) }
    ensures unreported { IfErr result (λ stop. stop ≢ Stop.Closed) }
    ensures said { IfErr result (SaidBy (W.fails out.new)) }
{
    match read_task(world, words) {
        Ok((task, options)) => {
            let call = Call {
                task,
                options: &options,
            };
            run_timed(world, &call, input, out, err)
        }
        Err(error) => run_shown(&error, out, err),
    }
}

/// Runs a command, and ends it.
fn run_timed<F: Files, R: BufRead + Drop, W: Output, E: Write>(
    world: &World<'_, F>,
    call: &Call<'_>,
    input: R,
    out: &mut W,
    err: &mut E,
) -> Result<Ran, Stop>
    ensures runs { IfOk result (λ ran. (ran.is_timed ≡ call.now.options.now.stats)
        × Finishes (DoesTold call.now.options.now.no_messages F.Files world.now.files.now world.now.env.now call.now.options.now types_at_first call.now.task (R.remaining input))
        (EndsTold call.now.options.now.no_messages F.Files world.now.files.now world.now.env.now call.now.options.now types_at_first call.now.task (R.remaining input))
        (W.fails out.new) ran.status (W.contents out.old) (W.contents out.new) (E.contents err.old) (E.contents err.new)) }
    ensures unreported { IfErr result (λ stop. stop ≢ Stop.Closed) }
    ensures said { IfErr result (SaidBy (W.fails out.new)) }
{
    let ended = run_told(world, call, input, out, err);
    end_run(ended, call.options.stats, out, err)
}

/// Writes what the parser of words has to say, and ends the run.
fn run_shown<W: Output, E: Write>(
    error: &clap::Error,
    out: &mut W,
    err: &mut E,
) -> Result<Ran, Stop>
    ensures runs { IfOk result (λ ran. Finishes Shows EndsBefore (W.fails out.new) ran.status (W.contents out.old) (W.contents out.new) (E.contents err.old) (E.contents err.new)) }
    ensures unreported { IfErr result (λ stop. stop ≢ Stop.Closed) }
    ensures said { IfErr result (SaidBy (W.fails out.new)) }
{
    let ended = show(error, out, err);
    end_run(ended, false, out, err)
}

/// How a run ends that has returned its status, or why it ended early.
fn end_run<W: Output, E: Write>(
    ended: Result<u8, Stop>,
    is_timed: bool,
    out: &mut W,
    err: &mut E,
) -> Result<Ran, Stop>
    ensures kept { IfOk ended (λ given. IfOk result (λ ran. ((ran.status ≡ given) × (E.contents err.new ≡ E.contents err.old))
        ⊎ ((stop : Stop) × IsUnwritten stop × (ran.status ≡ stop_status stop)
        × Appends (E.contents err.old) (E.contents err.new) (reason stop) × SaidBy (W.fails out.new) stop))) }
    ensures reported { IfErr ended (λ stop. IfOk result (λ ran. (ran.status ≡ stop_status stop)
        × Appends (E.contents err.old) (E.contents err.new) (reason stop))) }
    ensures unreported { IfErr result (λ stop. stop ≢ Stop.Closed) }
    ensures written { Keeps (W.contents out.old) (W.contents out.new) }
    ensures timed { IfOk result (λ ran. ran.is_timed ≡ is_timed) }
    ensures still { IfErr ended (λ stop. SaidBy (W.fails out.old) stop → SaidBy (W.fails out.new) stop) }
    ensures said { IfErr ended (SaidBy (W.fails out.old)) → IfErr result (SaidBy (W.fails out.new)) }
{
    let status = finish(ended, out, err)?;
    Ok(Ran { status, is_timed })
}

/// Ends a command that has returned its status, or why it ended early: writes what its output still
/// keeps, and reports why the command, or that, ended early.
///
/// # Errors
/// Why it ended, where that can't be written to `err`.
pub fn finish<W: Output, E: Write>(
    ended: Result<u8, Stop>,
    out: &mut W,
    err: &mut E,
) -> Result<u8, Stop>
    ensures kept { IfOk ended (λ given. IfOk result (λ status. ((status ≡ given) × (E.contents err.new ≡ E.contents err.old))
        ⊎ ((stop : Stop) × IsUnwritten stop × (status ≡ stop_status stop)
        × Appends (E.contents err.old) (E.contents err.new) (reason stop) × SaidBy (W.fails out.new) stop))) }
    ensures reported { IfErr ended (λ stop. IfOk result (λ status. (status ≡ stop_status stop)
        × Appends (E.contents err.old) (E.contents err.new) (reason stop))) }
    ensures unreported { IfErr result (λ stop. stop ≢ Stop.Closed) }
    ensures written { Keeps (W.contents out.old) (W.contents out.new) }
    ensures still { IfErr ended (λ stop. SaidBy (W.fails out.old) stop → SaidBy (W.fails out.new) stop) }
    ensures said { IfErr ended (SaidBy (W.fails out.old)) → IfErr result (SaidBy (W.fails out.new)) }
{
    match flushed(ended, out) {
        Ok(status) => Ok(status),
        Err(stop) => report_stop(err, stop),
    }
}

/// Writes what an output still keeps, after a command that didn't end early.
#[tactic(auto, using(crate::proofs::StopLemmas::said_as))]
fn flushed<W: Output>(ended: Result<u8, Stop>, out: &mut W) -> Result<u8, Stop>
    ensures ended { IfErr ended (λ stop. result ≡ Err stop) }
    ensures status { IfOk ended (λ status. (result ≡ Ok status) ⊎ ((stop : Stop) × IsUnwritten stop × (result ≡ Err stop))) }
    ensures written { Keeps (W.contents out.old) (W.contents out.new) }
    ensures still { IfErr ended (λ stop. SaidBy (W.fails out.old) stop → SaidBy (W.fails out.new) stop) }
    ensures said { IfErr ended (SaidBy (W.fails out.old)) → IfErr result (SaidBy (W.fails out.new)) }
{
    let status = ended?;
    match out.flush() {
        Ok(()) => Ok(status),
        Err(error) => Err(write_stop(error.kind())),
    }
}

/// The command of the words, and its options.
fn read_task<F: Files>(
    world: &World<'_, F>,
    words: &[String],
) -> Result<(Task, Options), clap::Error> {
    match hint_for(world, words) {
        Some(error) => Err(error),
        None => read_words(world.alloc, words),
    }
}

/// What the parser has to say of a first word that is like a command, where there is no such entry.
fn hint_for<F: Files>(world: &World<'_, F>, words: &[String]) -> Option<clap::Error> {
    let (first, _) = words.split_first()?;
    let found = match hint_of(world.alloc, first.as_str()) {
        Ok(found) => found?,
        Err(error) => return Some(clap::Error::from(error)),
    };
    match world.files.stat(world.alloc, first.as_str(), false) {
        Err(Refusal::Fault(Fault::NotFound)) => Some(found),
        _ => None,
    }
}

/// A command, and its options.
#[derive(Drop)]
struct Call<'o> {
    task: Task,
    options: &'o Options,
}

/// Runs a command, and reports what is wrong with what it reads unless that isn't asked for.
fn run_told<F: Files, R: BufRead + Drop, W: Output, E: Write>(
    world: &World<'_, F>,
    call: &Call<'_>,
    input: R,
    out: &mut W,
    err: &mut E,
) -> Result<u8, Stop>
    ensures done { IfOk result (λ status. DoesTold call.now.options.now.no_messages F.Files world.now.files.now world.now.env.now call.now.options.now types_at_first call.now.task (R.remaining input)
        status (Appends (W.contents out.old) (W.contents out.new)) (Appends (E.contents err.old) (E.contents err.new))) }
    ensures ended { IfErr result (EndsTold call.now.options.now.no_messages F.Files world.now.files.now world.now.env.now call.now.options.now types_at_first call.now.task (R.remaining input)
        (Appends (W.contents out.old) (W.contents out.new)) (Appends (E.contents err.old) (E.contents err.new))) }
    ensures said { IfErr result (SaidBy (W.fails out.new)) }
{
    if call.options.no_messages {
        return run_untold(world, call, input, out, err);
    }
    run_call(world, call, input, out, err)
}

/// Runs a command, and reports nothing but that its options are rejected.
fn run_untold<F: Files, R: BufRead + Drop, W: Output, E: Write>(
    world: &World<'_, F>,
    call: &Call<'_>,
    input: R,
    out: &mut W,
    err: &mut E,
) -> Result<u8, Stop>
    ensures done { IfOk result (λ status. DoesTold true F.Files world.now.files.now world.now.env.now call.now.options.now types_at_first call.now.task (R.remaining input)
        status (Appends (W.contents out.old) (W.contents out.new)) (Appends (E.contents err.old) (E.contents err.new))) }
    ensures ended { IfErr result (EndsTold true F.Files world.now.files.now world.now.env.now call.now.options.now types_at_first call.now.task (R.remaining input)
        (Appends (W.contents out.old) (W.contents out.new)) (Appends (E.contents err.old) (E.contents err.new))) }
    ensures said { IfErr result (SaidBy (W.fails out.new)) }
{
    match check_asked(world, call.options) {
        Ok(()) => run_call(world, call, input, out, &mut Nowhere),
        Err(error) => refuse_or_end(&error, err),
    }
}

/// Runs a command, which reads standard input where the paths of `why` are to come from there.
fn run_call<F: Files, R: BufRead + Drop, W: Output, E: Write>(
    world: &World<'_, F>,
    call: &Call<'_>,
    input: R,
    out: &mut W,
    err: &mut E,
) -> Result<u8, Stop>
    ensures done { IfOk result (λ status. DoesBy call.now.options.now.stdin F.Files world.now.files.now world.now.env.now call.now.options.now types_at_first call.now.task (R.remaining input)
        status (Appends (W.contents out.old) (W.contents out.new)) (Appends (E.contents err.old) (E.contents err.new))) }
    ensures ended { IfErr result (EndsBy call.now.options.now.stdin F.Files world.now.files.now world.now.env.now call.now.options.now types_at_first call.now.task (R.remaining input)
        (Appends (W.contents out.old) (W.contents out.new)) (Appends (E.contents err.old) (E.contents err.new))) }
    ensures said { IfErr result (SaidBy (W.fails out.new)) }
{
    if call.options.stdin {
        return why_input(world, call.options, input, out, err);
    }
    run_task(world, call, input, out, err)
}

/// Whether the options are rejected, with all default types at first.
fn check_asked<F: Files>(world: &World<'_, F>, options: &Options) -> Result<(), Error>
    ensures refused { IfErr result (λ e. (problem_of e ≡ memory) ⊎ RefusesOptions world.now.env.now options.now types_at_first (problem_of e)) }
{
    let first = default_types(world.alloc)?;
    check_options(world.alloc, world.env, options, first)
}

/// A writer that keeps nothing.
#[derive(Drop)]
struct Nowhere;

impl Write for Nowhere {
    fn write(&mut self, bytes: &[u8]) -> io::Result<usize> {
        Ok(bytes.len())
    }

    fn flush(&mut self) -> io::Result<()> {
        Ok(())
    }
}

/// Runs a command.
fn run_task<F: Files, R: BufRead + Drop, W: Output, E: Write>(
    world: &World<'_, F>,
    call: &Call<'_>,
    input: R,
    out: &mut W,
    err: &mut E,
) -> Result<u8, Stop>
    ensures done { IfOk result (λ status. Does F.Files world.now.files.now world.now.env.now call.now.options.now types_at_first call.now.task (R.remaining input)
        status (Appends (W.contents out.old) (W.contents out.new)) (Appends (E.contents err.old) (E.contents err.new))) }
    ensures ended { IfErr result (Ends F.Files world.now.files.now world.now.env.now call.now.options.now types_at_first call.now.task (R.remaining input)
        (Appends (W.contents out.old) (W.contents out.new)) (Appends (E.contents err.old) (E.contents err.new))) }
    ensures said { IfErr result (SaidBy (W.fails out.new)) }
{
    let options = call.options;
    let Ok(first) = default_types(world.alloc) else {
        return Err(Stop::Memory);
    };
    match call.task {
        Task::List => list(world, options, first, out, err),
        Task::Ignored => list_ignored(world, options, first, out, err),
        Task::Why => why(world, options, first, out, err),
        Task::Unused => list_unused(world, options, first, out, err),
        Task::Lint => lint_files(world, options, first, out, err),
        Task::LintJson => lint_json(world, options, first, out, err),
        Task::Same(most) => same(world, Asked { options, most }, input, out, err),
        Task::Types => list_types(first, options, out, err),
    }
}

/// Writes what the parser of words has to say: help and version to the output, mistakes to the
/// errors.
#[tactic(auto, using(crate::proofs::StopLemmas::said_as))]
fn show<W: Output, E: Write>(error: &clap::Error, out: &mut W, err: &mut E) -> Result<u8, Stop>
    ensures shows { IfOk result (λ status. Shows status (Appends (W.contents out.old) (W.contents out.new)) (Appends (E.contents err.old) (E.contents err.new))) }
    ensures ended { IfErr result (EndsAfter [] [] (Appends (W.contents out.old) (W.contents out.new)) (Appends (E.contents err.old) (E.contents err.new))) }
    ensures said { IfErr result (SaidBy (W.fails out.new)) }
{
    if error.kind() == ErrorKind::OutOfMemory {
        return Err(Stop::Memory);
    }
    if error.use_stderr() {
        return match write!(err, "{error}") {
            Ok(()) => Ok(2),
            Err(_) => Err(Stop::Silence),
        };
    }
    match write!(out, "{error}") {
        Ok(()) => Ok(0),
        Err(error) => Err(write_stop(error.kind())),
    }
}
