//! Rules to which lines are added, as a handle keeps them.
ghost use Rattle.std.specs.Prelude.{◌≡◌, [], IfOk, IfErr, IsOk, Ok, Err, Some, option_map, string_bytes};
ghost use Rattle.ignore_base.specs.Errors.{problem_text};
ghost use Rattle.ignore_base.specs.Problem.{problem_of};
ghost use Rattle.ignore_kept.specs.Lines.{Begins, LineAdds, Pushes, FileAdds, Builds, TellsProblem, TellsText, SetsOptions, read_with, source_of};

use crate::kept::{Kept, Lines};
use crate::room::text_of;
use crate::rule::RuleOptions;
use crate::stopped::{Stopped, is_memory};
use crate::text::Text;
use ignore::Error;
use ignore::gitignore::GitignoreBuilder;
use std::alloc::{AllocError, Global};
use std::mem;

/// Rules of a root, without lines.
pub fn begin(alloc: Global, root: &[u8], options: &RuleOptions) -> Result<Kept, Stopped>
    ensures { Begins root.now options.now result }
{
    let root = text_of(root)?;
    let mut builder = GitignoreBuilder::new(alloc, root)?;
    read_by(&mut builder, options)?;
    Ok(Kept::Lines(Lines {
        builder,
        problem: None,
    }))
}

/// Sets how later lines are read.
fn read_by(builder: &mut GitignoreBuilder, options: &RuleOptions) -> Result<(), Error>
    ensures succeeds { IsOk result }
    ensures value { builder.new ≡ read_with builder.old options.now }
{
    builder
        .case_insensitive(options.case_insensitive)?
        .allow_unclosed_class(options.allow_unclosed_class)
        .git_trailing_spaces(options.git_trailing_spaces);
    Ok(())
}

fn set(lines: &mut Lines, options: &RuleOptions)
    ensures { lines.new ≡ record lines.old { builder = read_with lines.old.builder options.now } }
{
    match read_by(&mut lines.builder, options) {
        Ok(()) => {}
        Err(_) => unreachable!(),
    }
}

/// Sets how later lines are read.
pub fn set_options(kept: &mut Kept, options: &RuleOptions) -> Result<(), Stopped>
    ensures { SetsOptions kept.old options.now result kept.new }
{
    let Kept::Lines(lines) = kept else {
        return Err(Stopped::Misused);
    };
    set(lines, options);
    Ok(())
}

/// Adds a line. Its source is none where it is empty.
pub fn add_line(alloc: Global, kept: &mut Kept, from: &[u8], line: &[u8]) -> Result<(), Stopped>
    ensures { LineAdds kept.old from.now line.now result kept.new }
{
    let Kept::Lines(lines) = kept else {
        return Err(Stopped::Misused);
    };
    let (from, line) = (source(alloc, text_of(from)?)?, text_of(line)?);
    push_line(lines, from, line)
}

fn push_line(lines: &mut Lines, from: Option<String>, line: &str) -> Result<(), Stopped>
    ensures { Pushes lines.old (option_map string_bytes from) line.now result lines.new }
{
    match lines.builder.push_line(from, line) {
        Ok(()) => {
            lines.problem = None;
            Ok(())
        }
        Err(error) => {
            if is_memory(&error) {
                return Err(Stopped::Memory);
            }
            lines.problem = Some(error);
            Err(Stopped::Invalid)
        }
    }
}

/// Adds the lines of a text that stands for the file at a path.
pub fn add_file(kept: &mut Kept, path: &[u8], text: &[u8]) -> Result<(), Stopped>
    ensures { FileAdds kept.old path.now text.now result kept.new }
{
    let Kept::Lines(lines) = kept else {
        return Err(Stopped::Misused);
    };
    let path = text_of(path)?;
    let text = Text { bytes: text };
    lines.problem = lines.builder.add(&text, path)?;
    match &lines.problem {
        None => Ok(()),
        Some(_) => Err(Stopped::Invalid),
    }
}

/// Makes the matcher of the lines.
pub fn build(kept: Kept) -> (Kept, Result<(), Stopped>)
    ensures { Builds kept result.1 result.0 }
{
    match kept {
        Kept::Lines(lines) => (Kept::Rules(lines.builder.into_gitignore()), Ok(())),
        other => (other, Err(Stopped::Misused)),
    }
}

/// The source of a line.
fn source(alloc: Global, from: &str) -> Result<Option<String>, AllocError>
    ensures { IfOk result (λ source. option_map string_bytes source ≡ source_of from.now) }
{
    if from.is_empty() {
        return Ok(None);
    }
    Ok(Some(String::from_str(alloc, from)?))
}

/// What C is told of what is wrong: a number, and a text.
#[derive(Drop)]
pub struct Problem {
    pub code: u32,
    pub text: String,
}

/// What is wrong with what was added last.
pub fn last_problem(alloc: Global, kept: &Kept) -> Problem
    ensures { TellsProblem kept.now result.code (string_bytes result.text) }
{
    let Kept::Lines(lines) = kept else {
        return no_problem(alloc, Stopped::Misused.code());
    };
    match &lines.problem {
        Some(error) => told_problem(alloc, error),
        None => no_problem(alloc, 1),
    }
}

/// No text, and why.
pub(crate) fn no_problem(alloc: Global, code: u32) -> Problem
    ensures code { result.code ≡ code }
    ensures text { string_bytes result.text ≡ [] }
{
    Problem {
        code,
        text: String::new(alloc),
    }
}

/// The text of an error.
pub(crate) fn told_problem(alloc: Global, error: &Error) -> Problem
    ensures { TellsText (Some (problem_of error.now)) result.code (string_bytes result.text) }
{
    match text_of_error(alloc, error) {
        Ok(text) => Problem { code: 0, text },
        Err(_) => Problem {
            code: Stopped::Memory.code(),
            text: String::new(alloc),
        },
    }
}

/// The text of an error.
pub fn text_of_error(alloc: Global, error: &Error) -> Result<String, AllocError>
    ensures { IfOk result (λ text. string_bytes text ≡ problem_text (problem_of error.now)) }
{
    Ok(format!(in alloc; "{error}")?)
}
