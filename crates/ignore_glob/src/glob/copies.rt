//! Copies of tokens.
ghost use Rattle.std.specs.Prelude.{◌≡◌, IfOk};
ghost use Rattle.ignore_glob.specs.View.{tokens_view};

use crate::glob::token::{Class, Token};
use std::alloc::AllocError;

impl Clone for Token {
    ghost use Rattle.std.specs.Prelude.{◌≡◌};
    ghost use Rattle.ignore_glob.specs.View.{view};

    ghost is_clone = { λ t u. view u ≡ view t };

    fn clone(&self) -> Result<Token, AllocError> {
        match self {
            Token::Literal(c) => Ok(Token::Literal(*c)),
            Token::Any => Ok(Token::Any),
            Token::Star => Ok(Token::Star),
            Token::RecursiveStart => Ok(Token::RecursiveStart),
            Token::RecursiveMiddle => Ok(Token::RecursiveMiddle),
            Token::RecursiveEnd => Ok(Token::RecursiveEnd),
            Token::Class(class) => {
                let ranges = class.ranges.clone()?;
                Ok(Token::Class(Class {
                    negated: class.negated,
                    ranges,
                }))
            }
            Token::Alternates(branches) => {
                let mut copies = Vec::with_capacity(*branches.allocator(), branches.len())?;
                for branch in branches {
                    let mut copy = Vec::with_capacity(*branch.allocator(), branch.len())?;
                    for token in branch {
                        copy.push(token.clone()?)?;
                    }
                    copies.push(copy)?;
                }
                Ok(Token::Alternates(copies))
            }
        }
    }
}

/// A copy of these tokens, with the same allocator.
pub fn copied(tokens: &Vec<Token>) -> Result<Vec<Token>, AllocError>
    ensures { IfOk result (λ copies. tokens_view copies.items ≡ tokens_view tokens.now.items) }
{
    let mut copies = Vec::with_capacity(*tokens.allocator(), tokens.len())?;
    for token in tokens {
        copies.push(token.clone()?)?;
    }
    Ok(copies)
}
