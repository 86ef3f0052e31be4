//! The token that a row of lexemes begins with: its neighbours decide what a run of two stars
//! means.
ghost use Rattle.std.specs.Prelude.{◌≡◌, ◌⊎◌, ◌+◌, ◌<◌, ◌≤◌, ◌↔◌, ◌∷◌, [], List, length, IsTrue, IfSome, IfNone};
ghost use Rattle.ignore_glob.specs.Lexing as P;
ghost use Rattle.ignore_glob.specs.Row as R;
ghost use Rattle.ignore_glob.specs.Row.{IsSlash, IsStart, Ends, AtEnd, BeforeSlash, stars_before, Means};
ghost use Rattle.ignore_glob.specs.LexemeViews.{lexeme_view, row_view, left_view, meaning_view};

use crate::glob::lexeme::Lexeme;
use crate::glob::token::Class;

/// What is left of a place.
#[derive(Clone, Copy)]
pub enum Left {
    /// Nothing: the glob starts here.
    GlobStart,
    /// Nothing of the branch that starts here.
    BranchStart,
    /// A lexeme.
    Lexeme,
}

/// A token without branches.
#[derive(Clone, Copy)]
pub enum SimpleToken<'a> {
    /// This character.
    Literal(char),
    /// `?`
    Any,
    /// `*`
    Star,
    /// `**/` at a start.
    Start,
    /// `/**/`
    Middle,
    /// `/**` at an end.
    End,
    /// `[..]`
    Class(&'a Class),
}

/// What a row begins with.
#[derive(Clone, Copy)]
pub enum Meaning<'a> {
    /// So many times this token, and then this row.
    Gives(usize, SimpleToken<'a>, &'a [Lexeme]),
    /// Braces, and then this row: their branches, and what follows them.
    Braces(&'a [Lexeme]),
    /// The end of the glob or of a branch.
    Ended,
}

fn is_pair(lexeme: &Lexeme) -> bool
    ensures { IsTrue result ↔ (lexeme_view lexeme.now ≡ P.run 2) }
{
    match lexeme {
        Lexeme::Run(n) => *n == 2,
        _ => false,
    }
}

fn is_plain_slash(lexeme: &Lexeme) -> bool
    ensures { IsTrue result ↔ (lexeme_view lexeme.now ≡ P.char 47) }
{
    match lexeme {
        Lexeme::Char(c) => *c == '/',
        _ => false,
    }
}

fn is_branch_end(lexeme: &Lexeme) -> bool
    ensures { IsTrue result ↔ ((lexeme_view lexeme.now ≡ P.comma) ⊎ (lexeme_view lexeme.now ≡ P.closing)) }
{
    match lexeme {
        Lexeme::Comma | Lexeme::Closing => true,
        _ => false,
    }
}

fn is_end(row: &[Lexeme]) -> bool
    ensures { IsTrue result ↔ Ends (row_view row.now) }
{
    match row.split_first() {
        Some((first, _)) => is_branch_end(first),
        None => true,
    }
}

/// What follows a leading `**/`.
fn past_slash(row: &[Lexeme]) -> Option<&[Lexeme]>
    ensures some { IfSome result (λ more. row_view row.now ≡ P.run 2 ∷ P.char 47 ∷ row_view more.now) }
    ensures shorter { IfSome result (λ more. length more.now < length row.now) }
    ensures none { IfNone result (BeforeSlash (row_view row.now) → ⊥) }
{
    let (first, more) = row.split_first()?;
    if !is_pair(first) {
        return None;
    }
    let (second, rest) = more.split_first()?;
    if is_plain_slash(second) {
        Some(rest)
    } else {
        None
    }
}

/// How many times the row begins with `**/`, and what follows.
fn past_chain(row: &[Lexeme]) -> (usize, &[Lexeme])
    ensures chain { row_view row.now ≡ stars_before result.0 (row_view result.1.now) }
    ensures whole { BeforeSlash (row_view result.1.now) → ⊥ }
{
    let mut n = 0;
    let mut rest = row;
    while let Some(more) = past_slash(rest) {
        n += 1;
        rest = more;
    }
    (n, rest)
}

/// What follows a leading `**` that ends the glob or a branch.
fn past_end(row: &[Lexeme]) -> Option<&[Lexeme]>
    ensures some { IfSome result (λ more. row_view row.now ≡ P.run 2 ∷ row_view more.now) }
    ensures ends { IfSome result (λ more. Ends (row_view more.now)) }
    ensures none { IfNone result (AtEnd (row_view row.now) → ⊥) }
{
    let (first, more) = row.split_first()?;
    if is_pair(first) && is_end(more) {
        Some(more)
    } else {
        None
    }
}

/// What a slash begins, before this row.
fn after_slash(row: &[Lexeme]) -> Meaning<'_>
    ensures { (p : R.Left) (l : P.Lexeme) → IsSlash l → Means p (l ∷ row_view row.now) (meaning_view result) }
{
    let (n, rest) = past_chain(row);
    if let Some(more) = past_end(rest) {
        Meaning::Gives(1, SimpleToken::End, more)
    } else if n > 0 {
        Meaning::Gives(1, SimpleToken::Middle, rest)
    } else {
        Meaning::Gives(1, SimpleToken::Literal('/'), rest)
    }
}

fn is_start(left: Left) -> bool
    ensures { IsTrue result ↔ IsStart (left_view left) }
{
    match left {
        Left::GlobStart | Left::BranchStart => true,
        Left::Lexeme => false,
    }
}

/// A run of two that is the whole glob.
fn is_alone(left: Left, n: usize, after: &[Lexeme]) -> bool
    ensures { IsTrue result ↔ ((left_view left ≡ R.glob_start) × (n ≡ 2) × (row_view after.now ≡ [])) }
{
    match left {
        Left::GlobStart => n == 2 && after.is_empty(),
        Left::BranchStart | Left::Lexeme => false,
    }
}

/// What a row begins with whose first lexeme is a run.
fn at_run<'a>(left: Left, row: &'a [Lexeme], n: usize, after: &'a [Lexeme]) -> Meaning<'a>
    requires { row_view row.now ≡ P.run n ∷ row_view after.now }
    ensures { Means (left_view left) (row_view row.now) (meaning_view result) }
{
    if !is_start(left) {
        return Meaning::Gives(n, SimpleToken::Star, after);
    }
    let (k, rest) = past_chain(row);
    if k > 0 {
        match past_end(rest) {
            Some(more) => Meaning::Gives(1, SimpleToken::Start, more),
            None => Meaning::Gives(1, SimpleToken::Start, rest),
        }
    } else if is_alone(left, n, after) {
        Meaning::Gives(1, SimpleToken::Start, after)
    } else {
        Meaning::Gives(n, SimpleToken::Star, after)
    }
}

/// What a character begins, before this row.
fn at_character(c: char, rest: &[Lexeme]) -> Meaning<'_>
    ensures plain { (p : R.Left) → Means p (P.char c ∷ row_view rest.now) (meaning_view result) }
    ensures escaped { (p : R.Left) → Means p (P.escaped c ∷ row_view rest.now) (meaning_view result) }
{
    if c == '/' {
        after_slash(rest)
    } else {
        Meaning::Gives(1, SimpleToken::Literal(c), rest)
    }
}

/// What a row begins with, given what is left of it.
pub fn meaning_of(left: Left, row: &[Lexeme]) -> Meaning<'_>
    ensures { Means (left_view left) (row_view row.now) (meaning_view result) }
{
    let Some((first, rest)) = row.split_first() else {
        return Meaning::Ended;
    };
    match first {
        Lexeme::Char(c) => at_character(*c, rest),
        Lexeme::Escaped(c) => at_character(*c, rest),
        Lexeme::Any => Meaning::Gives(1, SimpleToken::Any, rest),
        Lexeme::Run(n) => at_run(left, row, *n, rest),
        Lexeme::Class(class) => Meaning::Gives(1, SimpleToken::Class(class), rest),
        Lexeme::Opening => Meaning::Braces(rest),
        Lexeme::Comma => Meaning::Ended,
        Lexeme::Closing => Meaning::Ended,
    }
}
