//! Running the vectors of a file, line by line.
ghost use Rattle.std.specs.Prelude.{◌≡◌, ◌==◌, ◌<◌, ◌∷◌, OnOk, IfSome, length, option_map, position};
ghost use Rattle.std.specs.List.{slice_split};
ghost use Rattle.vectors.specs.Lines.{CountsLine, CountsLines, lines_left};
ghost use Rattle.vectors.specs.Tallies.{with_unread};

use crate::kinds::Kinds;
use crate::line::{Flaw, judged};
use crate::tally::Tally;
use std::alloc::Global;
use std::io::{self, Write};

/// Why a run ends early.
#[derive(Clone, Copy, Drop)]
pub enum Stop {
    /// An allocation failed twice.
    Memory,
    /// A report can't be written.
    Write,
}

/// A file of vectors.
#[derive(Clone, Copy)]
pub struct File<'f> {
    /// Its name in reports.
    pub name: &'f str,
    /// What it holds.
    pub bytes: &'f [u8],
}

/// Where a run reports.
#[derive(Drop)]
pub struct Reports<W: Write, E: Write> {
    /// Takes the vectors with another answer than the wanted one.
    pub out: W,
    /// Takes the lines that are no vectors.
    pub err: E,
}

/// The place of a line: the name of its file, and its number, counted from 1.
#[derive(Clone, Copy)]
struct Place<'n> {
    name: &'n str,
    number: u64,
}

/// A line, and its place.
#[derive(Clone, Copy)]
struct Line<'l> {
    place: Place<'l>,
    bytes: &'l [u8],
}

/// Runs each vector of a file. A vector with another answer than the wanted one is reported on
/// the output, and a line that is no vector as an error; both are counted.
pub fn replay<K: Kinds, W: Write, E: Write>(
    alloc: Global,
    kinds: &K,
    file: File<'_>,
    tally: &mut Tally,
    reports: &mut Reports<W, E>,
) -> Result<(), Stop>
    ensures counts { OnOk result
        (CountsLines (K.gives kinds.now) (K.waits kinds.now) (slice_split (λ b. b == 10) file.entry.bytes.now) tally.old tally.new) }
{
    let name = file.name;
    let mut number = 0u64;
    let mut rest = Some(file.bytes);
    while let Some(left) = rest {
        let (bytes, later) = first_line(left);
        number = number.saturating_add(1);
        let place = Place { name, number };
        count_line(alloc, kinds, Line { place, bytes }, tally, reports)?;
        rest = later;
    }
    Ok(())
}

/// The first line, and what follows its newline, if it has one.
fn first_line(bytes: &[u8]) -> (&[u8], Option<&[u8]>)
    ensures line { slice_split (λ b. b == 10) bytes.now ≡ result.0.now ∷ lines_left (option_map (λ l. l.now) result.1) }
    ensures shorter { IfSome result.1 (λ l. length l.now < length bytes.now) }
{
    match newline(bytes) {
        Some(at) => (&bytes[..at], Some(&bytes[at + 1..])),
        None => (bytes, None),
    }
}

fn newline(bytes: &[u8]) -> Option<usize>
    ensures place { result ≡ position (λ b. b == 10) bytes.now }
    ensures bound { IfSome result (λ at. at < length bytes.now) }
{
    bytes.iter().position(|byte| *byte == b'\n')
}

fn count_line<K: Kinds, W: Write, E: Write>(
    alloc: Global,
    kinds: &K,
    line: Line<'_>,
    tally: &mut Tally,
    reports: &mut Reports<W, E>,
) -> Result<(), Stop>
    ensures { OnOk result (CountsLine (K.gives kinds.now) (K.waits kinds.now) line.entry.bytes.now tally.old tally.new) }
{
    if line.bytes.is_empty() {
        return Ok(());
    }
    match judged(alloc, kinds, line.bytes) {
        Ok(verdict) => write_result(tally.count(verdict, &mut reports.out)),
        Err(flaw) => refuse(flaw, line.place, tally, &mut reports.err),
    }
}

fn refuse<E: Write>(
    flaw: Flaw,
    place: Place<'_>,
    tally: &mut Tally,
    err: &mut E,
) -> Result<(), Stop>
    ensures { tally.new ≡ with_unread tally.old }
{
    tally.refuse();
    match flaw {
        Flaw::NoJson => write_result(report(err, place, "no JSON")),
        Flaw::NoObject => write_result(report(err, place, "no object")),
        Flaw::UnknownKind => write_result(report(err, place, "unknown kind")),
        Flaw::Field(field) => write_result(report_field(err, place, field)),
        Flaw::Memory => Err(Stop::Memory),
    }
}

/// Reports why a line is no vector.
fn report<E: Write>(err: &mut E, place: Place<'_>, flaw: &str) -> io::Result<()> {
    let Place { name, number } = place;
    writeln!(err, "replay: {name}: line {number}: {flaw}")
}

/// Reports which field of a line is missing or of another form.
fn report_field<E: Write>(err: &mut E, place: Place<'_>, field: &str) -> io::Result<()> {
    let Place { name, number } = place;
    writeln!(err, "replay: {name}: line {number}: bad field {field}")
}

fn write_result(write_result: io::Result<()>) -> Result<(), Stop> {
    match write_result {
        Ok(()) => Ok(()),
        Err(_) => Err(Stop::Write),
    }
}
