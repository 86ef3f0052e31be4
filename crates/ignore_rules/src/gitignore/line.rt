//! Parsing one line to its parts, before its glob is parsed.
ghost use Rattle.std.specs.Prelude.{◌≡◌, ◌≤◌, ◌==◌, ◌⊎◌, IfOk, Some, length, string_bytes};
ghost use Rattle.std.specs.List.{suffix_len};
ghost use Rattle.ignore_glob.specs.GlobFaults.{glob_fault_text};
ghost use Rattle.ignore_base.specs.Problem.{problem_of, memory, glob};
ghost use Rattle.ignore_rules.specs.Line.{has_prefix, has_suffix, without_prefix, without_suffix, default_trimmed, git_trimmed, trimmed};
ghost use Rattle.ignore_rules.specs.Line.{is_escaped, is_anchored, body, pattern, is_floating, placed, actual, parsed_line};

use ignore_base::Error;
use ignore_base::text::has_slash;
use ignore_glob::glob::GlobFault;
use std::alloc::{AllocError, Global};
use std::marker::Model;

/// A parsed line: one that is neither blank nor a comment.
#[derive(Drop)]
pub struct ParsedLine {
    /// The line without trailing white space.
    pub original: String,
    /// Its glob.
    pub actual: String,
    /// Whether it begins with `!`.
    pub is_whitelist: bool,
    /// Whether it ends with `/`, and so applies to directories only.
    pub is_only_dir: bool,
}

impl Model for ParsedLine {
    ghost use Rattle.std.specs.Prelude.{string_bytes};
    ghost use Rattle.ignore_rules.specs.Line.{ParsedLine as Says};

    ghost Value = { Says };

    ghost view = { λ w. record {
      original = string_bytes w.original;
      actual = string_bytes w.actual;
      is_whitelist = w.is_whitelist;
      is_only_dir = w.is_only_dir;
    } };
}

impl ParsedLine {
    /// What the line parses to: nothing for a comment or a blank line. `as_git` says whether white
    /// space at its end is read by git's own rule.
    pub fn of(alloc: Global, line: &str, as_git: bool) -> Result<Option<ParsedLine>, AllocError>
        ensures { IfOk result (λ parsed. parsed ≡ parsed_line as_git line.now) }
    {
        let text = trimmed(line, as_git);
        if has_prefix(line, "#") || text.is_empty() {
            return Ok(None);
        }
        let rest = body(text);
        let original = String::from_str(alloc, text)?;
        let actual = actual(alloc, text, pattern(text, rest))?;
        Ok(Some(ParsedLine {
            original,
            actual,
            is_whitelist: has_prefix(text, "!"),
            is_only_dir: has_suffix(rest, "/"),
        }))
    }

    /// The glob of the line.
    pub fn actual(&self) -> &str
        ensures { result.now ≡ self.now.actual }
    {
        self.actual.as_str()
    }

    /// The error of a line whose glob is invalid, or `Error::Memory`.
    pub fn refused(self, alloc: Global, fault: GlobFault) -> Error
        ensures { (problem_of result ≡ memory) ⊎ (problem_of result ≡ glob (Some self.original) (glob_fault_text fault)) }
    {
        fault.error_of(alloc, self.original)
    }
}

/// The glob of a line, of which this is the pattern.
fn actual(alloc: Global, line: &str, bare: &str) -> Result<String, AllocError>
    requires { bare.now ≡ pattern line.now }
    ensures { IfOk result (λ text. string_bytes text ≡ actual line.now) }
{
    let mut text = placed(alloc, line, bare)?;
    if has_suffix(text.as_str(), "/**") {
        text.push_str("/*")?;
    }
    Ok(text)
}

fn placed(alloc: Global, line: &str, bare: &str) -> Result<String, AllocError>
    requires { bare.now ≡ pattern line.now }
    ensures { IfOk result (λ text. string_bytes text ≡ placed line.now) }
{
    if !is_floating(line, bare) {
        return String::from_str(alloc, bare);
    }
    let mut text = String::with_capacity(alloc, bare.len().saturating_add(3))?;
    text.push_str("**/")?;
    text.push_str(bare)?;
    Ok(text)
}

fn is_floating(line: &str, bare: &str) -> bool
    requires { bare.now ≡ pattern line.now }
    ensures { result ≡ is_floating line.now }
{
    !is_anchored(line) && !has_slash(bare) && bare != "**"
}

/// The pattern of a line, of which this is the body.
fn pattern<'a>(line: &str, rest: &'a str) -> &'a str
    requires { rest.now ≡ body line.now }
    ensures { result.now ≡ pattern line.now }
{
    if has_suffix(rest, "/") {
        without_suffix(without_suffix(rest, "/"), "\\")
    } else {
        rest
    }
}

fn body(line: &str) -> &str
    ensures { result.now ≡ body line.now }
{
    if is_escaped(line) {
        without_prefix(line, "\\")
    } else {
        without_prefix(without_prefix(line, "!"), "/")
    }
}

fn is_escaped(line: &str) -> bool
    ensures { result ≡ is_escaped line.now }
{
    has_prefix(line, "\\!") || has_prefix(line, "\\#")
}

fn is_anchored(line: &str) -> bool
    ensures { result ≡ is_anchored line.now }
{
    has_prefix(without_prefix(line, "!"), "/")
}

fn trimmed(line: &str, as_git: bool) -> &str
    ensures { result.now ≡ trimmed as_git line.now }
{
    if as_git {
        git_trimmed(line)
    } else {
        default_trimmed(line)
    }
}

fn default_trimmed(line: &str) -> &str
    ensures { result.now ≡ default_trimmed line.now }
{
    if has_suffix(line, "\\ ") {
        line
    } else {
        line.trim_end()
    }
}

fn git_trimmed(line: &str) -> &str
    ensures { result.now ≡ git_trimmed line.now }
{
    let bytes = line.as_bytes();
    let end = bytes.len() - run_at_end(bytes, b' ');
    let backslashes = run_at_end(&bytes[..end], b'\\');
    if end < bytes.len() && backslashes % 2 == 1 {
        &line[..end + 1]
    } else {
        &line[..end]
    }
}

/// How often this byte stands at the end of the text, one after the other.
fn run_at_end(text: &[u8], byte: u8) -> usize
    ensures within { result ≤ length text.now }
    ensures run { result ≡ suffix_len (λ b. b == byte) text.now }
{
    text.iter().rev().take_while(|b| **b == byte).count()
}

fn has_prefix(text: &str, start: &str) -> bool
    ensures { result ≡ has_prefix start.now text.now }
{
    text.starts_with(start)
}

fn has_suffix(text: &str, end: &str) -> bool
    ensures { result ≡ has_suffix end.now text.now }
{
    text.ends_with(end)
}

fn without_prefix<'a>(text: &'a str, start: &str) -> &'a str
    ensures { result.now ≡ without_prefix start.now text.now }
{
    text.strip_prefix(start).unwrap_or(text)
}

fn without_suffix<'a>(text: &'a str, end: &str) -> &'a str
    ensures { result.now ≡ without_suffix end.now text.now }
{
    text.strip_suffix(end).unwrap_or(text)
}
