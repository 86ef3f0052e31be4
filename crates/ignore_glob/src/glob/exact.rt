//! Patterns of literals, alone or after `**/` or `**/*`: a text is compared with them.
ghost use Rattle.std.specs.Prelude.{◌≡◌, ◌+◌, ◌-◌, ◌^◌, ◌<◌, ◌≤◌, ◌↔◌, ◌++◌, ℕ, false, IsTrue, IsOk, IfOk, IfSome, List, length, map, min, string_bytes};
ghost use Rattle.std.specs.Str.{chars, IsUtf8};
ghost use Rattle.ignore_glob.specs.Exact.{exact_reading, kind_tokens, front_tokens};
ghost use Rattle.ignore_glob.specs.Glob.{literal};
ghost use Rattle.ignore_glob.specs.Forms.{key_form, form_of};
ghost use Rattle.ignore_glob.specs.Needles.{HasOneOf};
ghost use Rattle.ignore_glob.specs.NodeLists.{glob_nodes, nodes_view};
ghost use Rattle.ignore_glob.specs.Positions.{CountsMarks, positions};
ghost use Rattle.ignore_glob.specs.Reading.{Matches};
ghost use Rattle.ignore_glob.specs.View.{view, tokens_view};

use crate::glob::ending::{has_end, has_name};
use crate::glob::exact_marks::exact_marks;
use crate::glob::key::{Key, key_of};
use crate::glob::kind::Kind;
use crate::glob::needle::alone;
use crate::glob::token::Token;
use std::alloc::{AllocError, Global};
use std::marker::Model;

/// A pattern of literals, at least one, alone or after `**/` or `**/*`. It doesn't fold case.
#[derive(Debug, Drop)]
pub(crate) struct Exact {
    kind: Kind,
    text: String,
}

impl Model for Exact {
    ghost use Rattle.std.specs.Prelude.{◌<◌, length, string_bytes};
    ghost use Rattle.ignore_glob.specs.Codes.{reading_code};
    ghost use Rattle.ignore_glob.specs.Exact.{exact_reading};
    ghost use Rattle.ignore_glob.specs.Reading.{Reading};

    ghost Value = { Reading };

    ghost coded = { reading_code };

    ghost view = { λ e. exact_reading e.kind (string_bytes e.text) };

    ghost invariant = { λ e. 0 < length (string_bytes e.text) };
}

/// The pattern of these tokens, if it is literals, alone or after `**/` or `**/*`, and case isn't
/// folded.
pub(crate) fn exact_of(
    alloc: Global,
    tokens: &[Token],
    case_insensitive: bool,
) -> Result<Option<Exact>, AllocError>
    ensures { IfOk result (λ found. IfSome found (λ e. e
        ≡ record { tokens = tokens_view tokens.now; case_insensitive = case_insensitive })) }
{
    if case_insensitive {
        return Ok(None);
    }
    match key_of(alloc, tokens)? {
        Key::Whole(text) => Ok(Some(Exact::new(Kind::Whole, text))),
        Key::Name(text) => Ok(Some(Exact::new(Kind::Name, text))),
        Key::End(text) => Ok(Some(Exact::new(Kind::End, text))),
        Key::Other => Ok(None),
    }
}

impl Exact {
    fn new(kind: Kind, text: String) -> Exact
        requires { 0 < length (string_bytes text) }
        ensures { result ≡ exact_reading kind (string_bytes text) }
    {
        Exact { kind, text }
    }

    /// Whether the glob matches the whole text.
    pub(crate) fn matches(&self, text: &str) -> bool
        ensures { IsTrue result ↔ Matches self.now (chars text.now) }
    {
        match self.kind {
            Kind::Whole => text == self.text.as_str(),
            Kind::Name => has_name(text, self.text.as_str()),
            Kind::End => has_end(text, self.text.as_str()),
        }
    }

    /// As `matches`, with the number of marks, which stops at `u64::MAX`.
    pub(crate) fn matches_counted(&self, text: &str) -> (bool, u64)
        ensures value { IsTrue result.0 ↔ Matches self.now (chars text.now) }
        ensures counted { (n : ℕ) × CountsMarks self.now.case_insensitive self.now.tokens (chars text.now) n × (result.1 ≡ min n (2 ^ 64 - 1)) }
    {
        let marks = exact_marks(self.kind, self.text.as_str(), text);
        (self.matches(text), marks)
    }

    /// The tokens of the glob.
    pub(crate) fn tokens(&self) -> Result<Vec<Token>, AllocError>
        ensures tokens { IfOk result (λ tokens. tokens_view tokens.items ≡ self.now.tokens) }
        ensures case { self.now.case_insensitive ≡ false }
    {
        let mut tokens = front_of(*self.text.allocator(), self.kind)?;
        push_literals(&mut tokens, self.text.as_str())?;
        Ok(tokens)
    }

    /// How many positions the glob has: one for each character, two for `**/` and one for `*`.
    pub(crate) fn positions(&self) -> usize
        ensures { result ≡ positions self.now.tokens }
    {
        let before = match self.kind {
            Kind::Whole => 0,
            Kind::Name => 2,
            Kind::End => 3,
        };
        self.text.chars().count() + before
    }

    /// The text by which the pattern can be looked up.
    pub(crate) fn key(&self) -> Result<Key, AllocError>
        ensures { IfOk result (λ key. key_form key ≡ form_of self.now) }
    {
        let text = self.text.clone()?;
        match self.kind {
            Kind::Whole => Ok(Key::Whole(text)),
            Kind::Name => Ok(Key::Name(text)),
            Kind::End => Ok(Key::End(text)),
        }
    }

    /// The literals, which are in each text that the pattern matches.
    pub(crate) fn needles(&self) -> Result<Vec<String>, AllocError>
        ensures { IfOk result (λ needles. (text : List ℕ) → IsUtf8 text → Matches self.now (chars text)
            → HasOneOf (map string_bytes needles.items) text) }
    {
        alone(*self.text.allocator(), self.text.as_str())
    }
}

/// The tokens before the literals.
#[tactic(auto, using(crate::proofs::Views::view_equations))]
fn front_of(alloc: Global, kind: Kind) -> Result<Vec<Token>, AllocError>
    ensures { IfOk result (λ tokens. map view tokens.items ≡ front_tokens kind) }
{
    let mut tokens = Vec::new(alloc);
    match kind {
        Kind::Whole => Ok(tokens),
        Kind::Name => {
            tokens.push(Token::RecursiveStart)?;
            Ok(tokens)
        }
        Kind::End => {
            tokens.push(Token::RecursiveStart)?;
            tokens.push(Token::Star)?;
            Ok(tokens)
        }
    }
}

/// Appends the literals of a text.
fn push_literals(tokens: &mut Vec<Token>, text: &str) -> Result<(), AllocError>
    ensures { IfOk result (λ _. map view tokens.new.items ≡ map view tokens.old.items ++ map literal (chars text.now)) }
{
    for c in text.chars() {
        tokens.push(Token::Literal(c))?;
    }
    Ok(())
}

impl Clone for Exact {
    ghost use Rattle.std.specs.Prelude.{◌≡◌};

    ghost is_clone = { λ p q. q ≡ p };

    fn clone(&self) -> Result<Exact, AllocError> {
        Ok(Exact {
            kind: self.kind,
            text: self.text.clone()?,
        })
    }
}
