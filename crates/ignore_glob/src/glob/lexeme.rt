//! Lexing a glob: its lexemes from the left.
ghost use Rattle.std.specs.Prelude.{◌≡◌, ◌≢◌, ◌+◌, ◌<◌, ◌≤◌, ◌++◌, ◌∷◌, [], ℕ, List, take, drop, length, replicate, IfOk, IfErr, Ok, Err};
ghost use Rattle.ignore_glob.specs.Lexing.{Step, lexeme, fault, Begins, Lexed, NoStarFirst};
ghost use Rattle.ignore_glob.specs.declared.glob.options.Options.{Options};
ghost use Rattle.ignore_glob.specs.GlobFaults.{IfFault};
ghost use Rattle.ignore_glob.specs.LexemeViews.{lexeme_view, row_view};
ghost use Rattle.ignore_glob.specs.ParserSteps.{ClosesBefore};

use crate::glob::class::{after_last_closing, body, ranges_of, sign};
use crate::glob::fault::{GlobFault, PatternError};
use crate::glob::options::Options;
use crate::glob::token::Class;
use std::alloc::Global;
use std::sync::ArcSlice;

/// One lexeme of a glob.
#[derive(Drop)]
pub enum Lexeme {
    /// A character that stands for itself.
    Char(char),
    /// A backslash and this character.
    Escaped(char),
    /// `?`
    Any,
    /// A maximal run of this many stars.
    Run(usize),
    /// A class in brackets.
    Class(Class),
    /// `{`
    Opening,
    /// `,` inside braces.
    Comma,
    /// `}`
    Closing,
}

/// How deep braces may nest.
const MAX_LEVELS: usize = 64;

/// How many stars the text begins with.
fn run_length(text: &[char]) -> usize
    ensures within { result ≤ length text.now }
    ensures stars { text.now ≡ replicate result 42 ++ drop result text.now }
    ensures whole { NoStarFirst (drop result text.now) }
{
    for i in 0..text.len() {
        if text[i] != '*' {
            return i;
        }
    }
    text.len()
}

/// What a `[` begins, before this text.
fn bracket(
    alloc: Global,
    options: Options,
    depth: usize,
    text: &[char],
    after_last: usize,
) -> Result<(Lexeme, &[char], usize), PatternError>
    requires { ClosesBefore after_last text.now }
    ensures lexeme { IfOk result (λ found. Begins options depth (91 ∷ text.now) (lexeme (lexeme_view found.0) found.1.now found.2)) }
    ensures fault { IfErr result (λ e. IfFault e (λ f. Begins options depth (91 ∷ text.now) (fault f))) }
{
    let (negated, inside) = sign(text);
    let Some((body, rest)) = body(inside, after_last) else {
        if options.allow_unclosed_class {
            return Ok((Lexeme::Char('['), text, depth));
        }
        return Err(PatternError::Fault(GlobFault::UnclosedClass));
    };
    match ranges_of(alloc, body)? {
        Some(ranges) => {
            let shared = ArcSlice::from_vec(ranges)?;
            let class = Class {
                negated,
                ranges: shared,
            };
            Ok((Lexeme::Class(class), rest, depth))
        }
        None => Err(PatternError::Fault(GlobFault::InvalidRange)),
    }
}

/// What a backslash begins, before this text.
fn escape(depth: usize, text: &[char]) -> Result<(Lexeme, &[char], usize), PatternError>
    ensures lexeme { (o : Options) → IfOk result (λ found. Begins o depth (92 ∷ text.now)
        (lexeme (lexeme_view found.0) found.1.now found.2)) }
    ensures fault { (o : Options) → IfErr result (λ e. IfFault e (λ f. Begins o depth (92 ∷ text.now) (fault f))) }
{
    match text.split_first() {
        Some((c, rest)) => Ok((Lexeme::Escaped(*c), rest, depth)),
        None => Err(PatternError::Fault(GlobFault::DanglingEscape)),
    }
}

/// The lexeme that begins with this character, before this text; what follows it, and the depth
/// there.
fn lexeme_from(
    alloc: Global,
    options: Options,
    depth: usize,
    first: char,
    text: &[char],
    after_last: usize,
) -> Result<(Lexeme, &[char], usize), PatternError>
    requires { ClosesBefore after_last text.now }
    ensures lexeme { IfOk result (λ found. Begins options depth (first ∷ text.now) (lexeme (lexeme_view found.0) found.1.now found.2)) }
    ensures fault { IfErr result (λ e. IfFault e (λ f. Begins options depth (first ∷ text.now) (fault f))) }
{
    match first {
        '?' => Ok((Lexeme::Any, text, depth)),
        '*' => {
            let n = run_length(text);
            Ok((Lexeme::Run(n + 1), &text[n..], depth))
        }
        '\\' => escape(depth, text),
        '[' => bracket(alloc, options, depth, text, after_last),
        '{' => {
            if depth < MAX_LEVELS {
                Ok((Lexeme::Opening, text, depth + 1))
            } else {
                Err(PatternError::Fault(GlobFault::TooDeep))
            }
        }
        '}' => {
            if depth > 0 {
                Ok((Lexeme::Closing, text, depth - 1))
            } else {
                Err(PatternError::Fault(GlobFault::UnopenedAlternates))
            }
        }
        ',' => {
            if depth > 0 {
                Ok((Lexeme::Comma, text, depth))
            } else {
                Ok((Lexeme::Char(','), text, depth))
            }
        }
        _ => Ok((Lexeme::Char(first), text, depth)),
    }
}

/// The row of lexemes of a text.
///
/// # Errors
/// The leftmost parse error, or `Memory`.
pub fn lexemes(alloc: Global, options: Options, text: &[char]) -> Result<Vec<Lexeme>, PatternError>
    ensures row { IfOk result (λ row. Lexed options 0 text.now (Ok (row_view row.items))) }
    ensures fault { IfErr result (λ e. IfFault e (λ f. Lexed options 0 text.now (Err f))) }
{
    let after_last = after_last_closing(text);
    let mut row = Vec::with_capacity(alloc, text.len())?;
    let mut rest = text;
    let mut depth = 0;
    while let Some((first, after)) = rest.split_first() {
        let (lexeme, more, next) = lexeme_from(alloc, options, depth, *first, after, after_last)?;
        row.push(lexeme)?;
        rest = more;
        depth = next;
    }
    if depth > 0 {
        return Err(PatternError::Fault(GlobFault::UnclosedAlternates));
    }
    Ok(row)
}
