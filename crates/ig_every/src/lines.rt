//! What is wrong with lines by themselves.
ghost use Rattle.std.specs.Prelude.{◌≡◌, ◌⊎◌, ◌++◌, ◌==◌, IfErr, IfOk, None, OnOk, Option, Some, map, option_map, slice_get, string_bytes};
ghost use Rattle.std.specs.List.{slice_split};
ghost use Rattle.std.specs.Str.Lines.{strip_carriage_return};
ghost use Rattle.ignore_base.specs.Problem.{glob, memory, problem_of};
ghost use Rattle.ignore_base.specs.Text.{Bytes};
ghost use Rattle.ignore_rules.specs.RuleFile.{line_content, unmarked};
ghost use Rattle.ignore_rules.specs.Rules.{AddsLine, Building, Refuses, built};
ghost use Rattle.ig_every.specs.Lines.{AddsWrong, AreWrongFrom, AreWrongLines, IsInvalid, after_mark, blank_wrong, ends_blank, has_mark, mark_wrong, original_in, return_wrong, rule_text, space_wrong, texts_in, told, wrong_of};
ghost use Rattle.ig_every.specs.Reading.{begun_by};
ghost use Rattle.ig_every.specs.declared.diagnostic.Wrong.{Wrong};

use crate::diagnostic::{Diagnostic, Wrong};
use crate::reading::{HowRead, begin};
use ignore_base::Error;
use ignore_files::Name;
use ignore_rules::gitignore::Gitignore;
use std::alloc::{AllocError, Global};
use std::str;

/// What a line parses to by itself.
#[derive(Drop)]
struct Parsed {
    /// The text of its rule; empty for none.
    rule: Name,
    /// Why its glob is invalid, if it is.
    why: Option<Name>,
}

/// The number of a line, and the text of its rule.
#[derive(Clone, Copy)]
struct Line<'r> {
    number: u64,
    rule: &'r str,
}

/// What is wrong with each line of a file, by itself, in their order.
///
/// # Errors
/// Out of memory.
pub(crate) fn lint_lines(
    alloc: Global,
    how: HowRead,
    bytes: &[u8],
) -> Result<Vec<Diagnostic>, AllocError>
    ensures { IfOk result (λ found. AreWrongLines how bytes.now found.items) }
{
    let lines = lines_of(alloc, bytes)?;
    lint_each(alloc, how, &lines)
}

/// What is between newlines.
fn lines_of(alloc: Global, bytes: &[u8]) -> Result<Vec<&[u8]>, AllocError>
    ensures { IfOk result (λ lines. map (λ line. line.now) lines.items ≡ slice_split (λ b. b == 10) bytes.now) }
{
    bytes.split(|byte| *byte == b'\n').collect(alloc)
}

/// What is wrong with each of these lines.
fn lint_each(alloc: Global, how: HowRead, lines: &[&[u8]]) -> Result<Vec<Diagnostic>, AllocError>
    ensures { IfOk result (λ found. AreWrongFrom how 1 (texts_in (map (λ line. line.now) lines.now)) found.items) }
{
    let mut found = Vec::new(alloc);
    for (index, line) in lines.iter().enumerate() {
        let is_text = lint_bytes(how, index as u64 + 1, without_return(line), &mut found)?;
        if !is_text {
            return Ok(found);
        }
    }
    Ok(found)
}

/// A line without the carriage return that it ends with.
fn without_return(line: &[u8]) -> &[u8]
    ensures { result.now ≡ strip_carriage_return line.now }
{
    if !line.is_empty() && line[line.len() - 1] == b'\r' {
        &line[..line.len() - 1]
    } else {
        line
    }
}

/// Adds what is wrong with a line. It returns whether it is text.
fn lint_bytes(
    how: HowRead,
    number: u64,
    line: &[u8],
    found: &mut Vec<Diagnostic>,
) -> Result<bool, AllocError>
    ensures { IfOk result (λ is_text. AddsWrong how number line.now is_text found.old.items found.new.items) }
{
    match str::from_utf8(line) {
        Ok(text) => {
            lint_text(how, number, text, found)?;
            Ok(true)
        }
        Err(_) => {
            let line = Line { number, rule: "" };
            add(line, Some(Wrong::NotUtf8), found)?;
            Ok(false)
        }
    }
}

/// Adds what is wrong with a line that is text.
fn lint_text(
    how: HowRead,
    number: u64,
    text: &str,
    found: &mut Vec<Diagnostic>,
) -> Result<(), AllocError>
    ensures { OnOk result ((why : Option Bytes) × IsInvalid how (line_content number text.now) why
        × (found.new.items ≡ found.old.items ++ wrong_of number text.now (line_content number text.now)
        (rule_text how.git_trailing_spaces (line_content number text.now)) why)) }
{
    let alloc = *found.allocator();
    let content = content_of(number, text);
    let Parsed { rule, why } = parsed_line(alloc, how, content)?;
    let line = Line {
        number,
        rule: rule.as_str(),
    };
    add(line, mark_wrong(number, text), found)?;
    add(line, return_wrong(text), found)?;
    add(line, space_wrong(alloc, content, line.rule)?, found)?;
    add(line, invalid_of(why), found)?;
    Ok(())
}

/// What is parsed of a line: of the first one what follows each mark that it begins with.
fn content_of(number: u64, text: &str) -> &str
    ensures { result.now ≡ line_content number text.now }
{
    if number == 1 { unmarked(text) } else { text }
}

/// A text without the marks that it begins with.
fn unmarked(text: &str) -> &str
    ensures { result.now ≡ unmarked text.now }
{
    text.trim_start_matches("\u{feff}")
}

/// That a byte order mark isn't the first of its file, where one isn't.
fn mark_wrong(number: u64, text: &str) -> Option<Wrong>
    ensures { result ≡ mark_wrong number text.now }
{
    if has_mark(after_mark(number, text)) {
        Some(Wrong::Mark)
    } else {
        None
    }
}

/// A line without the mark that is the first of its file.
fn after_mark(number: u64, text: &str) -> &str
    ensures { result.now ≡ after_mark number text.now }
{
    if number == 1 {
        without_mark(text)
    } else {
        text
    }
}

/// A text without the mark that it begins with.
fn without_mark(text: &str) -> &str
    ensures { result.now ≡ after_mark 1 text.now }
{
    text.strip_prefix("\u{feff}").unwrap_or(text)
}

/// Whether a byte order mark stands in a text.
fn has_mark(text: &str) -> bool
    ensures { result ≡ has_mark text.now }
{
    text.contains("\u{feff}")
}

/// That a carriage return isn't the last of its line, where one isn't.
fn return_wrong(text: &str) -> Option<Wrong>
    ensures { result ≡ return_wrong text.now }
{
    if text.as_bytes().contains(&b'\r') {
        Some(Wrong::Return)
    } else {
        None
    }
}

/// What is wrong with the white space at the end of a line, which parses to this rule.
fn space_wrong(alloc: Global, content: &str, rule: &str) -> Result<Option<Wrong>, AllocError>
    ensures { IfOk result (λ wrong. wrong ≡ space_wrong content.now rule.now) }
{
    if !ends_blank(content) {
        return Ok(None);
    }
    let git = HowRead {
        case_insensitive: false,
        git_trailing_spaces: true,
    };
    let git = parsed_line(alloc, git, content)?;
    Ok(blank_wrong(rule, git.rule.as_str()))
}

/// What is wrong with the white space at the end of a rule, of which git reads this.
fn blank_wrong(rule: &str, git: &str) -> Option<Wrong>
    ensures { result ≡ blank_wrong git.now rule.now }
{
    if rule != git {
        Some(Wrong::GitSpace)
    } else if ends_blank(rule) {
        Some(Wrong::Space)
    } else {
        None
    }
}

/// Whether a text ends with white space.
fn ends_blank(text: &str) -> bool
    ensures { result ≡ ends_blank text.now }
{
    text.trim_end().len() < text.len()
}

/// That a glob is invalid, where it is.
fn invalid_of(why: Option<Name>) -> Option<Wrong>
    ensures { result ≡ option_map Wrong.Invalid why }
{
    match why {
        Some(why) => Some(Wrong::Invalid(why)),
        None => None,
    }
}

/// Adds what is wrong, if anything is, with a line.
fn add(line: Line<'_>, wrong: Option<Wrong>, found: &mut Vec<Diagnostic>) -> Result<(), AllocError>
    ensures { OnOk result (found.new.items ≡ found.old.items ++ told line.entry.number line.entry.rule.now wrong) }
{
    let Some(wrong) = wrong else {
        return Ok(());
    };
    found.push(Diagnostic {
        line: line.number,
        rule: Name::from_str(*found.allocator(), line.rule)?,
        wrong,
    })?;
    Ok(())
}

/// What a line parses to.
fn parsed_line(alloc: Global, how: HowRead, content: &str) -> Result<Parsed, AllocError>
    ensures { IfOk result (λ parsed. (parsed.rule ≡ rule_text how.git_trailing_spaces content.now) × IsInvalid how content.now parsed.why) }
{
    match rule_of(alloc, how, content) {
        Ok(rules) => valid_line(alloc, &rules),
        Err(error) => invalid_line(error),
    }
}

/// A line with the first of these rules, if there is one.
fn valid_line(alloc: Global, rules: &Gitignore) -> Result<Parsed, AllocError>
    ensures { IfOk result (λ parsed. (parsed.rule ≡ original_in (slice_get rules.now.rules 0)) × (parsed.why ≡ None)) }
{
    Ok(Parsed {
        rule: Name::from_str(alloc, first_of(rules))?,
        why: None,
    })
}

/// A line that is refused with this error, which is out of memory for any but one of a glob.
fn invalid_line(error: Error) -> Result<Parsed, AllocError>
    ensures { IfOk result (λ parsed. (why : Bytes) × (problem_of error ≡ glob (Some parsed.rule) why) × (parsed.why ≡ Some why)) }
{
    match error {
        Error::Glob { glob, err } => invalid_rule(glob, err),
        _ => Err(AllocError),
    }
}

/// A line of this rule, whose glob is invalid for this reason; out of memory, where no rule is given.
fn invalid_rule(rule: Option<String>, why: String) -> Result<Parsed, AllocError>
    ensures { IfOk result (λ parsed. (option_map string_bytes rule ≡ Some parsed.rule) × (parsed.why ≡ Some (string_bytes why))) }
{
    match rule {
        Some(rule) => Ok(Parsed {
            rule: Name::new(rule),
            why: Some(Name::new(why)),
        }),
        None => Err(AllocError),
    }
}

/// The rules of a line: one, or none.
fn rule_of(alloc: Global, how: HowRead, content: &str) -> Result<Gitignore, Error>
    ensures added { IfOk result (λ rules. (new : Building) × AddsLine (begun_by how) None content.now new × (rules ≡ built new)) }
    ensures refused { IfErr result (λ e. (problem_of e ≡ memory) ⊎ Refuses (begun_by how).options content.now (problem_of e)) }
{
    let mut builder = begin(alloc, how)?;
    builder.push_line(None, content)?;
    Ok(builder.into_gitignore())
}

/// How the first of some rules is written; empty without one.
fn first_of(rules: &Gitignore) -> &str
    ensures { result.now ≡ original_in (slice_get rules.now.rules 0) }
{
    match rules.rules().first() {
        Some(rule) => rule.original(),
        None => "",
    }
}
