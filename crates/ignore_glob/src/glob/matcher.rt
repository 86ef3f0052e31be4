//! What a pattern keeps to match texts.
ghost use Rattle.std.specs.Prelude.{◌≡◌, ◌-◌, ◌^◌, ◌≤◌, ◌↔◌, ℕ, false, IsTrue, IsOk, IfOk, IfSome, List, map, min, string_bytes};
ghost use Rattle.std.specs.Str.{chars, IsUtf8};
ghost use Rattle.ignore_glob.specs.Ends.{HasParent};
ghost use Rattle.ignore_glob.specs.Forms.{key_form, form_of};
ghost use Rattle.ignore_glob.specs.Needles.{HasOneOf};
ghost use Rattle.ignore_glob.specs.Positions.{CountsMarks, positions};
ghost use Rattle.ignore_glob.specs.Reading.{Matches};
ghost use Rattle.ignore_glob.specs.View.{tokens_view};
ghost use Rattle.ignore_glob.specs.Words.{has_braces};

use crate::glob::automaton::Automaton;
use crate::glob::exact::{Exact, exact_of};
use crate::glob::key::Key;
use crate::glob::token::Token;
use std::alloc::AllocError;

/// What a pattern keeps to match texts.
#[derive(Debug, Drop)]
pub(crate) enum Matcher {
    /// Literals, with which texts are compared.
    Exact(Exact),
    /// The nodes of a glob of another form, or of one that folds case.
    Automaton(Box<Automaton>),
}

impl Matcher {
    ghost use Rattle.ignore_glob.specs.Matcher.{reading_of};

    /// The matcher of these tokens; `case_insensitive` makes it match both ASCII cases.
    pub(crate) fn of(tokens: Vec<Token>, case_insensitive: bool) -> Result<Matcher, AllocError>
        ensures { IfOk result (λ m. reading_of m
            ≡ record { tokens = tokens_view tokens.items; case_insensitive = case_insensitive }) }
    {
        let alloc = *tokens.allocator();
        if let Some(exact) = exact_of(alloc, &tokens, case_insensitive)? {
            return Ok(Matcher::Exact(exact));
        }
        let automaton = Automaton::from_tokens(tokens, case_insensitive)?;
        let automaton = Box::new(alloc, automaton)?;
        Ok(Matcher::Automaton(automaton))
    }

    /// Whether the glob matches the whole text.
    pub(crate) fn matches(&self, text: &str) -> Result<bool, AllocError>
        ensures value { IfOk result (λ yes. IsTrue yes ↔ Matches (reading_of self.now) (chars text.now)) }
        ensures succeeds { has_braces (reading_of self.now).tokens ≡ false → positions (reading_of self.now).tokens ≤ 62 → IsOk result }
    {
        match self {
            Matcher::Exact(exact) => Ok(exact.matches(text)),
            Matcher::Automaton(automaton) => automaton.matches(text),
        }
    }

    /// As `matches`, with the number of marks, which stops at `u64::MAX`.
    pub(crate) fn matches_counted(&self, text: &str) -> Result<(bool, u64), AllocError>
        ensures value { IfOk result (λ found. IsTrue found.0 ↔ Matches (reading_of self.now) (chars text.now)) }
        ensures counted { IfOk result (λ found. (n : ℕ)
            × CountsMarks (reading_of self.now).case_insensitive (reading_of self.now).tokens (chars text.now) n
            × (found.1 ≡ min n (2 ^ 64 - 1))) }
        ensures succeeds { has_braces (reading_of self.now).tokens ≡ false → positions (reading_of self.now).tokens ≤ 62 → IsOk result }
    {
        match self {
            Matcher::Exact(exact) => Ok(exact.matches_counted(text)),
            Matcher::Automaton(automaton) => automaton.matches_counted(text),
        }
    }

    /// The automaton of the glob, also where texts are compared with its literals.
    pub(crate) fn automaton(&self) -> Result<Automaton, AllocError>
        ensures { IfOk result (λ automaton. automaton ≡ reading_of self.now) }
    {
        match self {
            Matcher::Exact(exact) => {
                let tokens = exact.tokens()?;
                Automaton::from_tokens(tokens, false)
            }
            Matcher::Automaton(automaton) => automaton.as_ref().clone(),
        }
    }

    /// How many positions the glob has.
    pub(crate) fn positions(&self) -> usize
        ensures { result ≡ positions (reading_of self.now).tokens }
    {
        match self {
            Matcher::Exact(exact) => exact.positions(),
            Matcher::Automaton(automaton) => automaton.positions(),
        }
    }

    /// The text by which the pattern can be looked up, if it has a form for that.
    pub(crate) fn key(&self) -> Result<Key, AllocError>
        ensures { IfOk result (λ key. key_form key ≡ form_of (reading_of self.now)) }
    {
        match self {
            Matcher::Exact(exact) => exact.key(),
            Matcher::Automaton(automaton) => automaton.key(),
        }
    }

    /// Texts, one of which is in each text that the pattern matches; where none is known, or case is
    /// folded, the empty text alone.
    pub(crate) fn needles(&self) -> Result<Vec<String>, AllocError>
        ensures { IfOk result (λ needles. (text : List ℕ) → IsUtf8 text → Matches (reading_of self.now) (chars text)
            → HasOneOf (map string_bytes needles.items) text) }
    {
        match self {
            Matcher::Exact(exact) => exact.needles(),
            Matcher::Automaton(automaton) => automaton.needles(),
        }
    }

    /// The parent of all texts that the pattern matches, where one is known.
    pub(crate) fn parent(&self) -> Result<Option<String>, AllocError>
        ensures { IfOk result (λ found. IfSome found (λ parent. (text : List ℕ) → IsUtf8 text
            → Matches (reading_of self.now) (chars text) → HasParent (string_bytes parent) text)) }
    {
        match self {
            Matcher::Exact(_) => Ok(None),
            Matcher::Automaton(automaton) => automaton.parent(),
        }
    }
}

impl Clone for Matcher {
    ghost use Rattle.std.specs.Prelude.{◌≡◌};
    ghost use Rattle.ignore_glob.specs.Matcher.{reading_of};

    ghost is_clone = { λ m n. reading_of n ≡ reading_of m };

    fn clone(&self) -> Result<Matcher, AllocError> {
        match self {
            Matcher::Exact(exact) => Ok(Matcher::Exact(exact.clone()?)),
            Matcher::Automaton(automaton) => Ok(Matcher::Automaton(automaton.clone()?)),
        }
    }
}
