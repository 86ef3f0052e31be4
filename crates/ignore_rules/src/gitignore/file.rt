//! Adding files of rules to a builder.
ghost use Rattle.std.specs.Prelude.{◌≡◌, ◌⊎◌, ◌++◌, ◌∷◌, [], ◌<◌, ◌≤◌, ◌+◌, length, take, drop, map, None, Some, Ok, Err, IfOk, IfErr};
ghost use Rattle.std.specs.Prelude.{OnOk, OnErr, option_map, List, Result};
ghost use Rattle.std.specs.Arc.{arc_str_bytes};
ghost use Rattle.std.specs.Option.{option_copied};
ghost use Rattle.std.specs.Str.Lines.{strip_carriage_return};
ghost use Rattle.ignore_files.specs.declared.types.Contents.{Contents};
ghost use Rattle.ignore_files.specs.declared.types.Refusal.{Refusal};
ghost use Rattle.ignore_files.specs.Gives.{IsHonest};
ghost use Rattle.ignore_files.specs.Tree.{Tree};
ghost use Rattle.ignore_base.specs.Problem.{problem_of, memory, io, Problem};
ghost use Rattle.ignore_rules.specs.Rules.{AddsLineOf, Refuses, line_of_file};
ghost use Rattle.ignore_rules.specs.RuleFile.{AddsFile, AddsAnswer, AddsContents, AddsLines, first_line, lines_read, at_line_of, in_file};
ghost use Rattle.ignore_rules.specs.RuleFile.{is_memory, line_content, unmarked};
ghost use Rattle.ignore_rules.specs.RuleSteps.{IsOneSegment, IsLineRead, IsLastLineRead, IsLineAt, AddsOrReports, Keeps};

use crate::gitignore::builder::GitignoreBuilder;
use crate::gitignore::origin::Origin;
use crate::internal;
use ignore_base::Error;
use ignore_files::{Contents, Fault, Files};
use memchr::memchr;
use std::alloc::{AllocError, Global};
use std::str;
use std::sync::ArcStr;

/// What is read at a place where a line begins.
#[derive(Drop)]
enum Line<'b> {
    /// A line, and the place of the next.
    Text(&'b str, usize),
    /// The fault that ends reading in the line.
    Fault(Fault),
    /// The end of the file.
    End,
}

impl GitignoreBuilder {
    /// Adds the rules of a file, line by line, as `add_line` does with the path as `from`.
    ///
    /// Each rule has the number of its line. A line ends before `\n` or `\r\n`. Each U+FEFF at the start of the file is skipped. Reading
    /// stops at the first line that isn't UTF-8 (`Fault::InvalidData`) or in which a fault of the
    /// file system occurs; the lines before it count.
    ///
    /// The result reports the errors of the file: that it can't be opened, as `Error::WithPath` of
    /// `Error::Io`, or the error of each rejected line, as `Error::WithPath` of
    /// `Error::WithLineNumber` (without the path where that is empty). Several errors are one
    /// `Error::Partial`, in order.
    ///
    /// # Errors
    /// `Error::Memory` alone, and then the builder is as before.
    pub fn add<F: Files>(&mut self, files: &F, path: &str) -> Result<Option<Error>, Error>
        ensures added { (tree : Tree) → IsHonest F.Files files.now tree
            → IfOk result (λ problem. AddsFile tree path.now self.old self.new (option_map problem_of problem)) }
        ensures answered { IfOk result (λ problem. (answer : Result Contents Refusal) × F.contents_gives files.now path.now answer
            × AddsAnswer path.now answer self.old self.new (option_map problem_of problem)) }
        ensures out_of_memory { IfErr result (λ e. problem_of e ≡ memory) }
        ensures unchanged { OnErr result (self.new ≡ self.old) }
    {
        Ok(internal::add(self, files, path)?)
    }

    pub(crate) fn add_contents(
        &mut self,
        path: &str,
        contents: &Contents,
    ) -> Result<Option<Error>, AllocError>
        ensures added { IfOk result (λ problem. AddsContents path.now (Ok contents.now) self.old self.new (option_map problem_of problem)) }
        ensures unchanged { OnErr result (self.new ≡ self.old) }
    {
        let count = self.rule_count();
        match self.add_lines(path, contents.bytes.as_slice(), contents.fault) {
            Ok(problems) => Ok(Error::joined(problems)),
            Err(error) => {
                self.truncate_rules(count);
                Err(error)
            }
        }
    }

    fn add_lines(
        &mut self,
        path: &str,
        bytes: &[u8],
        fault: Option<Fault>,
    ) -> Result<Vec<Error>, AllocError>
        ensures added { IfOk result (λ problems. AddsLines path.now 1 (lines_read bytes.now fault) self.old self.new
            (map problem_of problems.items)) }
        ensures kept { Keeps self.old self.new }
    {
        let from = ArcStr::from_str(self.allocator(), path)?;
        let mut problems = Vec::new(self.allocator());
        let mut at = 0;
        let mut number = 0;
        loop {
            match line_at(bytes, at, fault) {
                Line::Text(text, next) => {
                    at = next;
                    number += 1;
                    self.add_or_report(&from, number, text, &mut problems)?;
                }
                Line::Fault(fault) => {
                    let error = at_line(self.allocator(), path, number + 1, Error::from(fault))?;
                    problems.push(error)?;
                    return Ok(problems);
                }
                Line::End => return Ok(problems),
            }
        }
    }

    /// Adds the line with a number; its error, if any, is appended to the problems.
    fn add_or_report(
        &mut self,
        from: &ArcStr,
        number: u64,
        line: &str,
        problems: &mut Vec<Error>,
    ) -> Result<(), AllocError>
        requires { 1 ≤ number }
        ensures added_or_reported { OnOk result (AddsOrReports (arc_str_bytes from.now) number line.now self.old self.new
            (map problem_of problems.old.items) (map problem_of problems.new.items)) }
        ensures kept { Keeps self.old self.new }
    {
        match self.push_line_of(from, number, line_content(number, line)) {
            Ok(()) => Ok(()),
            Err(error) => {
                if is_memory(&error) {
                    return Err(AllocError);
                }
                let error = at_line(self.allocator(), from.as_str(), number, error)?;
                problems.push(error)?;
                Ok(())
            }
        }
    }

    /// As `push_line`, with a path as `from`, which the rules of its file share, and the number of
    /// the line.
    fn push_line_of(&mut self, from: &ArcStr, number: u64, line: &str) -> Result<(), Error>
        requires { 1 ≤ number }
        ensures added { OnOk result (AddsLineOf self.old (line_of_file (arc_str_bytes from.now) number) line.now self.new) }
        ensures refused { IfErr result (λ e. (problem_of e ≡ memory) ⊎ Refuses self.old.options line.now (problem_of e)) }
        ensures unchanged { OnErr result (self.new ≡ self.old) }
    {
        let Some(parsed_line) = self.parsed_line(line)? else {
            return Ok(());
        };
        let origin = Origin {
            from: Some(from.clone()?),
            line: number,
        };
        self.push_parsed(origin, parsed_line)
    }
}

/// For dependents: the first line of what was read of a file, as lines are read in a file of rules;
/// none where there is no line. A U+FEFF stays.
///
/// # Errors
/// The fault that keeps the line from being read whole.
pub fn first_line(contents: &Contents) -> Result<Option<&str>, Fault>
    ensures value { IfOk result (λ line. first_line contents.now ≡ Ok (option_copied line)) }
    ensures fault { IfErr result (λ fault. first_line contents.now ≡ Err fault) }
{
    match line_at(contents.bytes.as_slice(), 0, contents.fault) {
        Line::Text(text, _) => Ok(Some(text)),
        Line::Fault(fault) => Err(fault),
        Line::End => Ok(None),
    }
}

fn line_at(bytes: &[u8], at: usize, fault: Option<Fault>) -> Line<'_>
    requires { at ≤ length bytes.now }
    ensures { IsLineAt bytes.now fault at result }
{
    let rest = &bytes[at..];
    match memchr(b'\n', rest) {
        Some(end) => line_of(without_return(&rest[..end]), at + end + 1),
        None => last_line(rest, fault, bytes.len()),
    }
}

/// The last line, which has no newline, if it isn't empty; a fault occurs in it.
fn last_line(rest: &[u8], fault: Option<Fault>, end: usize) -> Line<'_>
    requires { IsOneSegment rest.now }
    ensures { IsLastLineRead rest.now fault end result }
{
    match fault {
        Some(fault) => Line::Fault(fault),
        None if rest.is_empty() => Line::End,
        None => line_of(rest, end),
    }
}

fn line_of(line: &[u8], next: usize) -> Line<'_>
    ensures { IsLineRead line.now next result }
{
    match str::from_utf8(line) {
        Ok(text) => Line::Text(text, next),
        Err(_) => Line::Fault(Fault::InvalidData),
    }
}

fn without_return(line: &[u8]) -> &[u8]
    ensures { result.now ≡ strip_carriage_return line.now }
{
    if !line.is_empty() && line[line.len() - 1] == b'\r' {
        &line[..line.len() - 1]
    } else {
        line
    }
}

/// The content of the line with a number: the first line without each leading U+FEFF.
fn line_content(number: u64, line: &str) -> &str
    ensures { result.now ≡ line_content number line.now }
{
    if number == 1 { unmarked(line) } else { line }
}

fn unmarked(text: &str) -> &str
    ensures { result.now ≡ unmarked text.now }
{
    text.trim_start_matches("\u{feff}")
}

fn is_memory(error: &Error) -> bool
    ensures { result ≡ is_memory (problem_of error.now) }
{
    matches!(error, Error::Memory)
}

/// The error with its line of a file.
fn at_line(alloc: Global, path: &str, line: u64, err: Error) -> Result<Error, AllocError>
    ensures { IfOk result (λ e. problem_of e ≡ at_line_of path.now line (problem_of err)) }
{
    let err = Box::new(alloc, err)?;
    let error = Error::WithLineNumber { line, err };
    if path.is_empty() {
        Ok(error)
    } else {
        error.with_path(alloc, path)
    }
}
