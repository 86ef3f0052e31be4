//! Writing to the output, and reports to the errors.
ghost use Rattle.std.specs.Prelude.{◌≡◌, ◌≢◌, ◌⊎◌, [], OnOk, IfOk, IfErr, None, true};
ghost use Rattle.std.specs.Io.KnownBytes.{Appends};
ghost use Rattle.std.specs.List.{list_any};
ghost use Rattle.ignore_base.specs.Problem.{memory, problem_of};
ghost use Rattle.ig_commands.specs.Reports.{report_line};
ghost use Rattle.ig_commands.specs.Stops.{IsUnwritten, SaidBy, write_stop};
ghost use Rattle.ig_commands.specs.Writing.{asks_for_files, chooses, is_chosen, is_listed, is_of_kind, is_positive, is_regular, record_of, shown};

use crate::stop::{Stop, Unwritten};
use commands::Output;
use commands::internal::write_whole;
use ig_options::Options;
use ignore_base::Error;
use ignore_base::text::trim_root;
use ignore_files::{FileType, Name};
use std::io::{ErrorKind, Write};

/// Writes bytes to the output.
#[tactic(auto, using(crate::proofs::StopLemmas::said_as))]
pub(crate) fn write_bytes<W: Output>(bytes: &[u8], out: &mut W) -> Result<(), Stop>
    ensures writes { OnOk result (Appends (W.contents out.old) (W.contents out.new) bytes.now) }
    ensures ended { IfErr result IsUnwritten }
    ensures said { IfErr result (SaidBy (W.fails out.new)) }
{
    match write_whole(bytes, out) {
        Ok(()) => Ok(()),
        Err(kind) => Err(write_stop(kind)),
    }
}

/// Why a write that failed by an error of this kind ends a command.
pub(crate) fn write_stop(kind: ErrorKind) -> Stop
    ensures kind { result ≡ write_stop kind }
    ensures ended { IsUnwritten result }
{
    match kind {
        ErrorKind::BrokenPipe => Stop::Closed,
        ErrorKind::StorageFull => Stop::Write(Unwritten::Full),
        ErrorKind::QuotaExceeded => Stop::Write(Unwritten::Quota),
        ErrorKind::FileTooLarge => Stop::Write(Unwritten::TooLarge),
        _ => Stop::Write(Unwritten::Other),
    }
}

/// Writes a path, and what it ends in: a newline, or NUL. Without a root its leading `./` is left
/// out.
pub(crate) fn write_path<W: Output>(options: &Options, path: &str, out: &mut W) -> Result<(), Stop>
    ensures writes { OnOk result (Appends (W.contents out.old) (W.contents out.new) (record_of options.now path.now)) }
    ensures ended { IfErr result IsUnwritten }
    ensures said { IfErr result (SaidBy (W.fails out.new)) }
{
    write_bytes(shown(options.is_bare, path).as_bytes(), out)?;
    let end: &[u8] = if options.null { b"\0" } else { b"\n" };
    write_bytes(end, out)
}

/// The path as it is written.
fn shown(is_bare: bool, path: &str) -> &str
    ensures { result.now ≡ shown is_bare path.now }
{
    if is_bare { trim_root(path) } else { path }
}

/// Reports an error.
pub(crate) fn report<E: Write>(error: &Error, err: &mut E) -> Result<(), Stop>
    ensures reports { OnOk result (Appends (E.contents err.old) (E.contents err.new) (report_line (problem_of error.now))) }
    ensures ended { IfErr result (λ stop. stop ≡ Stop.Silence) }
{
    match writeln!(err, "ig: {error}") {
        Ok(()) => Ok(()),
        Err(_) => Err(Stop::Silence),
    }
}

/// Reports that the options are wrong.
pub(crate) fn refuse<E: Write>(error: &Error, err: &mut E) -> Result<u8, Stop>
    ensures reports { IfOk result (λ status. (status ≡ 2)
        × Appends (E.contents err.old) (E.contents err.new) (report_line (problem_of error.now))) }
    ensures unreported { IfErr result (λ stop. stop ≡ Stop.Silence) }
{
    report(error, err)?;
    Ok(2)
}

/// Reports that the options are wrong, unless memory ran out, which ends the command.
#[tactic(auto, using(crate::proofs::StopLemmas::appends_none))]
pub(crate) fn refuse_or_end<E: Write>(error: &Error, err: &mut E) -> Result<u8, Stop>
    ensures reports { IfOk result (λ status. (status ≡ 2)
        × Appends (E.contents err.old) (E.contents err.new) (report_line (problem_of error.now))) }
    ensures enough { OnOk result (problem_of error.now ≢ memory) }
    ensures ended { IfErr result (λ stop. (stop ≡ Stop.Memory) ⊎ (stop ≡ Stop.Silence)) }
    ensures kept { IfErr result (λ stop. stop ≡ Stop.Memory → Appends (E.contents err.old) (E.contents err.new) []) }
{
    match error {
        Error::Memory => Err(Stop::Memory),
        _ => refuse(error, err),
    }
}

/// Whether entries of this kind are listed. Where no kind is chosen, all are; but files alone where
/// a type is chosen, or a glob that lists what it matches.
pub(crate) fn is_listed(options: &Options, kind: Option<FileType>) -> bool
    ensures { result ≡ is_listed options.now kind }
{
    if chooses(options) {
        return is_chosen(options, kind);
    }
    !asks_for_files(options) || is_regular(kind)
}

/// Whether no kind is chosen, or this one is.
pub(crate) fn is_of_kind(options: &Options, kind: Option<FileType>) -> bool
    ensures { result ≡ is_of_kind options.now kind }
{
    !chooses(options) || is_chosen(options, kind)
}

/// Whether a kind is chosen.
fn chooses(options: &Options) -> bool
    ensures { result ≡ chooses options.now }
{
    options.files || options.dirs || options.links
}

/// Whether a type is chosen, or a glob lists what it matches.
fn asks_for_files(options: &Options) -> bool
    ensures { result ≡ asks_for_files options.now }
{
    let types = options.types.as_slice();
    !types.is_empty()
        || any_positive(options.globs.as_slice())
        || any_positive(options.iglobs.as_slice())
}

/// Whether one of these globs lists what it matches.
fn any_positive(globs: &[Name]) -> bool
    ensures { result ≡ list_any is_positive globs.now }
{
    globs.iter().any(|glob| is_positive(glob.as_str()))
}

/// Whether a glob lists what it matches: it doesn't begin with `!`.
fn is_positive(glob: &str) -> bool
    ensures { result ≡ is_positive glob.now }
{
    !glob.starts_with('!')
}

/// Whether a kind is that of a file.
fn is_regular(kind: Option<FileType>) -> bool
    ensures { result ≡ is_regular kind }
{
    match kind {
        None => false,
        Some(FileType::File) => true,
        Some(FileType::Dir) => false,
        Some(FileType::Symlink) => false,
        Some(FileType::Other) => false,
    }
}

/// Whether this kind is chosen.
fn is_chosen(options: &Options, kind: Option<FileType>) -> bool
    ensures { result ≡ is_chosen options.now kind }
{
    match kind {
        None => false,
        Some(FileType::File) => options.files,
        Some(FileType::Dir) => options.dirs,
        Some(FileType::Symlink) => options.links,
        Some(FileType::Other) => false,
    }
}
