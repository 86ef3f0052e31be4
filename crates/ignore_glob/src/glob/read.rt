//! Parsing a glob: the tokens of its row of lexemes.
ghost use Rattle.std.specs.Prelude.{◌≡◌, ◌+◌, ◌<◌, ◌≤◌, ◌∷◌, ℕ, suc, length, IsTrue, IfOk, IfErr};
ghost use Rattle.std.specs.Str.{chars};
ghost use Rattle.ignore_glob.specs.Glob.{Tokens, Branches};
ghost use Rattle.ignore_glob.specs.Lexing.{comma, closing};
ghost use Rattle.ignore_glob.specs.GlobFaults.{IfFault};
ghost use Rattle.ignore_glob.specs.Row.{Row, Inner, Ends, Reads, IsFaulty, times, add_branch};
ghost use Rattle.ignore_glob.specs.View.{view, tokens_view, branches_view};
ghost use Rattle.ignore_glob.specs.LexemeViews.{row_view, left_view, simple_token_view};
ghost use Rattle.ignore_glob.specs.ParserSteps.{Balanced, put_tokens, put_branches};

use crate::glob::fault::PatternError;
use crate::glob::lexeme::{Lexeme, lexemes};
use crate::glob::meaning::{Left, Meaning, SimpleToken, meaning_of};
use crate::glob::options::Options;
use crate::glob::token::{Class, Token};
use std::alloc::{AllocError, Global};

/// The token of a simple token.
fn token_of(given: SimpleToken) -> Result<Token, AllocError>
    ensures { IfOk result (λ token. view token ≡ simple_token_view given.entry) }
{
    match given {
        SimpleToken::Literal(c) => Ok(Token::Literal(c)),
        SimpleToken::Any => Ok(Token::Any),
        SimpleToken::Star => Ok(Token::Star),
        SimpleToken::Start => Ok(Token::RecursiveStart),
        SimpleToken::Middle => Ok(Token::RecursiveMiddle),
        SimpleToken::End => Ok(Token::RecursiveEnd),
        SimpleToken::Class(class) => {
            let negated = class.negated;
            let ranges = class.ranges.clone()?;
            Ok(Token::Class(Class { negated, ranges }))
        }
    }
}

/// Appends a token so many times.
fn push_times(tokens: &mut Vec<Token>, n: usize, given: SimpleToken) -> Result<(), AllocError>
    ensures { IfOk result (λ _. (ts : Tokens) → put_tokens tokens.new.items ts
        ≡ put_tokens tokens.old.items (times n (simple_token_view given.entry) ts)) }
{
    for _i in 0..n {
        let token = token_of(given)?;
        tokens.push(token)?;
    }
    Ok(())
}

/// Appends a branch, unless it has no tokens.
fn push_branch(branches: &mut Vec<Vec<Token>>, tokens: Vec<Token>) -> Result<(), AllocError>
    ensures { IfOk result (λ _. (bs : Branches) → put_branches branches.new.items bs
        ≡ put_branches branches.old.items (add_branch (tokens_view tokens.items) bs)) }
{
    if !tokens.is_empty() {
        branches.push(tokens)?;
    }
    Ok(())
}

/// Whether the branch that ends here is the last of its braces, and what follows its end.
fn past_branch(row: &[Lexeme]) -> (bool, &[Lexeme])
    requires ends { Ends (row_view row.now) }
    requires balance { (d : ℕ) × Balanced (row_view row.now) (suc d) }
    ensures last { IsTrue result.0 → row_view row.now ≡ closing ∷ row_view result.1.now }
    ensures further { (IsTrue result.0 → ⊥) → row_view row.now ≡ comma ∷ row_view result.1.now }
{
    let Some((first, more)) = row.split_first() else {
        unreachable!();
    };
    match first {
        Lexeme::Comma => (false, more),
        Lexeme::Closing => (true, more),
        Lexeme::Char(_)
        | Lexeme::Escaped(_)
        | Lexeme::Any
        | Lexeme::Run(_)
        | Lexeme::Class(_)
        | Lexeme::Opening => unreachable!(),
    }
}

/// Room for the tokens of a glob, of which each lexeme gives one at the most, but for runs of
/// stars; a branch has none at first.
fn room(left: Left, row: &[Lexeme]) -> usize {
    match left {
        Left::GlobStart => row.len(),
        Left::BranchStart | Left::Lexeme => 0,
    }
}

/// The tokens of a glob or a branch up to its end, and what follows.
#[cycle(read)]
fn read_level(
    alloc: Global,
    left: Left,
    row: &[Lexeme],
) -> Result<(Vec<Token>, &[Lexeme]), AllocError>
    requires { (d : ℕ) × Balanced (row_view row.now) d }
    ensures level { IfOk result (λ found. Row (left_view left) (row_view row.now) (tokens_view found.0.items) (row_view found.1.now)) }
    ensures ends { IfOk result (λ found. Ends (row_view found.1.now)) }
    ensures balance { IfOk result (λ found. (d : ℕ) → Balanced (row_view row.now) d → Balanced (row_view found.1.now) d) }
    ensures shorter { IfOk result (λ found. length (row_view found.1.now) ≤ length (row_view row.now)) }
{
    let mut tokens = Vec::with_capacity(alloc, room(left, row))?;
    let mut here = left;
    let mut rest = row;
    loop {
        match meaning_of(here, rest) {
            Meaning::Gives(n, given, more) => {
                push_times(&mut tokens, n, given)?;
                rest = more;
            }
            Meaning::Braces(inner) => {
                let (branches, after) = read_branches(alloc, inner)?;
                tokens.push(Token::Alternates(branches))?;
                rest = after;
            }
            Meaning::Ended => return Ok((tokens, rest)),
        }
        here = Left::Lexeme;
    }
}

/// The branches up to the closing brace, and what follows it.
#[cycle(read)]
fn read_branches(alloc: Global, row: &[Lexeme]) -> Result<(Vec<Vec<Token>>, &[Lexeme]), AllocError>
    requires { (d : ℕ) × Balanced (row_view row.now) (suc d) }
    ensures inner { IfOk result (λ found. Inner (row_view row.now) (branches_view found.0.items) (row_view found.1.now)) }
    ensures balance { IfOk result (λ found. (d : ℕ) → Balanced (row_view row.now) (suc d) → Balanced (row_view found.1.now) d) }
    ensures shorter { IfOk result (λ found. length (row_view found.1.now) < length (row_view row.now)) }
{
    let mut branches = Vec::new(alloc);
    let mut rest = row;
    loop {
        let (tokens, after) = read_level(alloc, Left::BranchStart, rest)?;
        push_branch(&mut branches, tokens)?;
        let (is_last, more) = past_branch(after);
        if is_last {
            return Ok((branches, more));
        }
        rest = more;
    }
}

/// The tokens of a glob.
///
/// # Errors
/// The leftmost parse error, or `Memory`.
pub(crate) fn read(alloc: Global, text: &str, options: Options) -> Result<Vec<Token>, PatternError>
    ensures value { IfOk result (λ tokens. Reads options (chars text.now) (tokens_view tokens.items)) }
    ensures fault { IfErr result (λ e. IfFault e (λ f. IsFaulty options (chars text.now) f)) }
{
    let characters = characters_of(alloc, text)?;
    let row = lexemes(alloc, options, characters.as_slice())?;
    let (tokens, _) = read_level(alloc, Left::GlobStart, row.as_slice())?;
    Ok(tokens)
}

/// The characters of a text.
fn characters_of(alloc: Global, text: &str) -> Result<Vec<char>, AllocError>
    ensures { IfOk result (λ all. all.items ≡ chars text.now) }
{
    let mut all = Vec::with_capacity(alloc, text.len())?;
    for c in text.chars() {
        all.push(c)?;
    }
    Ok(all)
}
