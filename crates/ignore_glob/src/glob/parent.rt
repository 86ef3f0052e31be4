//! The one parent of the texts that a pattern matches.
ghost use Rattle.std.specs.Prelude.{◌≡◌, ◌≢◌, ◌≤◌, ℕ, false, List, IfOk, IfSome, All, drop, length, string_bytes};
ghost use Rattle.std.specs.Str.{chars, IsUtf8};
ghost use Rattle.ignore_glob.specs.Ends.{HasParent};
ghost use Rattle.ignore_glob.specs.Matches.{slash, token_matches, tokens_match, glob_matches};
ghost use Rattle.ignore_glob.specs.View.{view, tokens_view};

use crate::glob::key::literal_text;
use crate::glob::member::is_member;
use crate::glob::token::Token;
use std::alloc::{AllocError, Global};

/// The parent of each text that these tokens match where case isn't folded, if up to their last
/// slash they are literals.
pub(crate) fn parent_of(alloc: Global, tokens: &[Token]) -> Result<Option<String>, AllocError>
    ensures { IfOk result (λ found. IfSome found (λ parent. (text : List ℕ) → IsUtf8 text
        → glob_matches false (tokens_view tokens.now) (chars text) → HasParent (string_bytes parent) text)) }
{
    let size = past_slashes(tokens);
    match literal_text(alloc, &tokens[..size])? {
        None => Ok(None),
        Some(text) => {
            if text.as_str().ends_with('/') {
                Ok(Some(text))
            } else {
                Ok(None)
            }
        }
    }
}

/// A place from which no token matches a slash: the first one, or one after a token that may.
fn past_slashes(tokens: &[Token]) -> usize
    ensures within { result ≤ length tokens.now }
    ensures plain { (w : List ℕ) → tokens_match false (tokens_view (drop result tokens.now)) w → All (λ d. d ≢ slash) w }
{
    for i in (0..tokens.len()).rev() {
        if may_match_slash(&tokens[i]) {
            return i + 1;
        }
    }
    0
}

/// Whether what the token matches may have a slash in it.
#[tactic(auto, using(crate::proofs::Views::view_equations))]
fn may_match_slash(token: &Token) -> bool
    ensures { result ≡ false → (w : List ℕ) → token_matches false (view token.now) w → All (λ d. d ≢ slash) w }
{
    match token {
        Token::Literal(c) => *c == '/',
        Token::Any => false,
        Token::Star => false,
        Token::Class(class) => is_member(false, class, '/'),
        Token::RecursiveStart => true,
        Token::RecursiveMiddle => true,
        Token::RecursiveEnd => true,
        Token::Alternates(_) => true,
    }
}
