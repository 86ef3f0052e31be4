//! The text by which a pattern can be looked up: where it is literals, alone or after `**/` or
//! `**/*`.
ghost use Rattle.std.specs.Prelude.{◌≡◌, IfOk, IfSome, IfNone, string_bytes};
ghost use Rattle.ignore_base.specs.Text.{Bytes};
ghost use Rattle.std.specs.Option.{option_map};
ghost use Rattle.ignore_glob.specs.Forms.{Form, other, literal_of, is_start, is_star, literals, keyed, below_form, tokens_form, key_form};
ghost use Rattle.ignore_glob.specs.View.{view, tokens_view};

use crate::glob::token::Token;
use std::alloc::{AllocError, Global};

/// The text, never empty, by which a pattern can be looked up.
#[derive(Debug, Drop)]
pub enum Key {
    /// The pattern matches this text alone.
    Whole(String),
    /// It matches this text, and what ends with a slash and this text.
    Name(String),
    /// It matches what ends with this text.
    End(String),
    /// It is of another form, or folds case.
    Other,
}

/// The key of the pattern of these tokens, where case isn't folded.
pub(crate) fn key_of(alloc: Global, tokens: &[Token]) -> Result<Key, AllocError>
    ensures { IfOk result (λ key. key_form key ≡ tokens_form (tokens_view tokens.now)) }
{
    match tokens {
        [] => Ok(Key::Other),
        [first, rest @ ..] => {
            if is_start(first) {
                key_below(alloc, rest)
            } else {
                match some_text(alloc, tokens)? {
                    Some(text) => Ok(Key::Whole(text)),
                    None => Ok(Key::Other),
                }
            }
        }
    }
}

fn key_below(alloc: Global, tokens: &[Token]) -> Result<Key, AllocError>
    ensures { IfOk result (λ key. key_form key ≡ below_form (tokens_view tokens.now)) }
{
    match tokens {
        [] => Ok(Key::Other),
        [first, rest @ ..] => {
            if is_star(first) {
                match some_text(alloc, rest)? {
                    Some(text) => Ok(Key::End(text)),
                    None => Ok(Key::Other),
                }
            } else {
                match some_text(alloc, tokens)? {
                    Some(text) => Ok(Key::Name(text)),
                    None => Ok(Key::Other),
                }
            }
        }
    }
}

/// The text of tokens that are literals alone, unless it is empty.
fn some_text(alloc: Global, tokens: &[Token]) -> Result<Option<String>, AllocError>
    ensures some { IfOk result (λ found. IfSome found (λ text. (form : Bytes → Form)
        → form (string_bytes text) ≡ keyed form (literals (tokens_view tokens.now)))) }
    ensures none { IfOk result (λ found. IfNone found ((form : Bytes → Form) → other ≡ keyed form (literals (tokens_view tokens.now)))) }
{
    match literal_text(alloc, tokens)? {
        None => Ok(None),
        Some(text) => {
            if text.is_empty() {
                Ok(None)
            } else {
                Ok(Some(text))
            }
        }
    }
}

/// The text of tokens that are literals alone.
pub(crate) fn literal_text(alloc: Global, tokens: &[Token]) -> Result<Option<String>, AllocError>
    ensures { IfOk result (λ text. option_map string_bytes text ≡ literals (tokens_view tokens.now)) }
{
    let mut text = String::with_capacity(alloc, tokens.len())?;
    for token in tokens {
        match literal_of(token) {
            Some(c) => text.push(c)?,
            None => return Ok(None),
        }
    }
    Ok(Some(text))
}

#[tactic(auto, using(crate::proofs::Views::view_equations))]
pub(crate) fn literal_of(token: &Token) -> Option<char>
    ensures { result ≡ literal_of (view token.now) }
{
    match token {
        Token::Literal(c) => Some(*c),
        Token::Any => None,
        Token::Star => None,
        Token::RecursiveStart => None,
        Token::RecursiveMiddle => None,
        Token::RecursiveEnd => None,
        Token::Class(_) => None,
        Token::Alternates(_) => None,
    }
}

#[tactic(auto, using(crate::proofs::Views::view_equations))]
fn is_start(token: &Token) -> bool
    ensures { result ≡ is_start (view token.now) }
{
    match token {
        Token::RecursiveStart => true,
        Token::Literal(_) => false,
        Token::Any => false,
        Token::Star => false,
        Token::RecursiveMiddle => false,
        Token::RecursiveEnd => false,
        Token::Class(_) => false,
        Token::Alternates(_) => false,
    }
}

#[tactic(auto, using(crate::proofs::Views::view_equations))]
fn is_star(token: &Token) -> bool
    ensures { result ≡ is_star (view token.now) }
{
    match token {
        Token::Star => true,
        Token::Literal(_) => false,
        Token::Any => false,
        Token::RecursiveStart => false,
        Token::RecursiveMiddle => false,
        Token::RecursiveEnd => false,
        Token::Class(_) => false,
        Token::Alternates(_) => false,
    }
}
