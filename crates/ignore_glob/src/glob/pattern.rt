//! A parsed glob, and the texts that it matches.
ghost use Rattle.std.specs.Prelude.{◌≡◌, ◌+◌, ◌-◌, ◌*◌, ◌^◌, ◌≤◌, ◌↔◌, ℕ, false, IsTrue, IsOk, IfOk, IfErr, IfSome, List, length};
ghost use Rattle.std.specs.Prelude.{map, min, string_bytes};
ghost use Rattle.std.specs.Str.{chars, IsUtf8};
ghost use Rattle.ignore_glob.specs.DoesMatch.{does_match};
ghost use Rattle.ignore_glob.specs.Ends.{HasParent};
ghost use Rattle.ignore_glob.specs.Forms.{key_form, form_of};
ghost use Rattle.ignore_glob.specs.Positions.{CountsMarks, positions};
ghost use Rattle.ignore_glob.specs.Needles.{HasOneOf};
ghost use Rattle.ignore_glob.specs.Matcher.{reading_of};
ghost use Rattle.ignore_glob.specs.GlobFaults.{IfFault};
ghost use Rattle.ignore_base.specs.Problem.{problem_of, memory};
ghost use Rattle.ignore_glob.specs.Reading.{Matches};
ghost use Rattle.ignore_glob.specs.Row.{Reads, IsFaulty};
ghost use Rattle.ignore_glob.specs.View.{tokens_view};
ghost use Rattle.ignore_glob.specs.Words.{has_braces};

use crate::glob::fault::PatternError;
use crate::glob::key::Key;
use crate::glob::matcher::Matcher;
use crate::glob::options::Options;
use crate::glob::read::read;
use crate::glob::token::Token;
use crate::internal;
use ignore_base::Error;
use std::alloc::{AllocError, Global};
use std::marker::Model;

/// A parsed glob, which matches some texts.
///
/// `*` and `?` match no slash, a class may match one, and a glob that is `**` or `**/` alone
/// matches everything.
#[derive(Debug, Drop)]
pub struct Pattern {
    matcher: Matcher,
}

impl Model for Pattern {
    ghost use Rattle.ignore_glob.specs.Codes.{reading_code};
    ghost use Rattle.ignore_glob.specs.Matcher.{reading_of};
    ghost use Rattle.ignore_glob.specs.Reading.{Reading};

    ghost Value = { Reading };

    ghost coded = { reading_code };

    ghost view = { λ p. reading_of p.matcher };
}

impl Pattern {
    /// The pattern of these tokens; `case_insensitive` makes it match both ASCII cases.
    pub(crate) fn from_tokens(
        tokens: Vec<Token>,
        case_insensitive: bool,
    ) -> Result<Pattern, AllocError>
        ensures { IfOk result (λ p. p ≡ record { tokens = tokens_view tokens.items; case_insensitive = case_insensitive }) }
    {
        Ok(Pattern {
            matcher: Matcher::of(tokens, case_insensitive)?,
        })
    }

    /// Parses a glob, which has at most as many positions as characters.
    ///
    /// # Errors
    /// `PatternError::Fault` with the leftmost parse error, exactly where the glob is invalid, or
    /// `PatternError::Memory`.
    pub fn parse(alloc: Global, glob: &str, options: Options) -> Result<Pattern, PatternError>
        ensures reading { IfOk result (λ p. Reads options (chars glob.now) p.tokens) }
        ensures case { IfOk result (λ p. p.case_insensitive ≡ options.case_insensitive) }
        ensures bounded { IfOk result (λ p. positions p.tokens ≤ length (chars glob.now)) }
        ensures fault { IfErr result (λ e. IfFault e (λ f. IsFaulty options (chars glob.now) f)) }
    {
        let tokens = read(alloc, glob, options)?;
        Ok(Pattern::from_tokens(tokens, options.case_insensitive)?)
    }

    /// Whether the glob matches the whole text.
    ///
    /// # Errors
    /// `Error::Memory` alone, since the positions that are reached are kept for the time of the
    /// call. Without braces and with at most 62 positions there is no error: no memory is
    /// requested.
    pub fn matches(&self, text: &str) -> Result<bool, Error>
        ensures out_of_memory { IfErr result (λ e. problem_of e ≡ memory) }
        ensures value { IfOk result (λ yes. IsTrue yes ↔ Matches self.now (chars text.now)) }
        ensures decided { IfOk result (λ yes. yes ≡ does_match self.now (chars text.now)) }
        ensures succeeds { has_braces self.now.tokens ≡ false → positions self.now.tokens ≤ 62 → IsOk result }
    {
        Ok(internal::matches(self, text)?)
    }

    /// As `matches`, with the number of marks: the pairs of a position of the glob and an offset in
    /// the text that are reached from its first position at the start of the text, by the steps of
    /// the glob and the characters of the text. No pair is reached twice, so this bounds the work.
    /// The number stops at `u64::MAX`.
    ///
    /// # Errors
    /// `Error::Memory` alone, and none where `matches` has none.
    pub fn matches_counted(&self, text: &str) -> Result<(bool, u64), Error>
        ensures out_of_memory { IfErr result (λ e. problem_of e ≡ memory) }
        ensures value { IfOk result (λ found. IsTrue found.0 ↔ Matches self.now (chars text.now)) }
        ensures counted { IfOk result (λ found. (n : ℕ) × CountsMarks self.now.case_insensitive self.now.tokens (chars text.now) n
            × (found.1 ≡ min n (2 ^ 64 - 1))) }
        ensures least { IfOk result (λ found. 1 ≤ found.1) }
        ensures matched { IfOk result (λ found. IsTrue found.0 → min (length (chars text.now) + 1) (2 ^ 64 - 1) ≤ found.1) }
        ensures most { IfOk result (λ found. found.1 ≤ (positions self.now.tokens + 1) * (length (chars text.now) + 1)) }
        ensures succeeds { has_braces self.now.tokens ≡ false → positions self.now.tokens ≤ 62 → IsOk result }
    {
        Ok(self.matcher.matches_counted(text)?)
    }

    pub(crate) fn matcher(&self) -> &Matcher
        ensures { reading_of result.now ≡ self.now }
    {
        &self.matcher
    }

    /// How many positions the glob has: one for each token, inside branches too, and a second one
    /// for each recursive token.
    pub fn positions(&self) -> usize
        ensures { result ≡ positions self.now.tokens }
    {
        self.matcher.positions()
    }

    /// For dependents: the text by which the pattern can be looked up, if it has a form for that.
    pub fn key(&self) -> Result<Key, AllocError>
        ensures { IfOk result (λ key. key_form key ≡ form_of self.now) }
    {
        self.matcher.key()
    }

    /// For dependents: texts, one of which is in each text that the pattern matches; where none is
    /// known, or case is folded, the empty text alone.
    pub fn needles(&self) -> Result<Vec<String>, AllocError>
        ensures { IfOk result (λ needles. (text : List ℕ) → IsUtf8 text → Matches self.now (chars text)
            → HasOneOf (map string_bytes needles.items) text) }
    {
        self.matcher.needles()
    }

    /// For dependents: the parent of all texts that the pattern matches, which ends with a slash;
    /// `None` where they may have several, or case is folded, or where the pattern has a key.
    pub fn parent(&self) -> Result<Option<String>, AllocError>
        ensures { IfOk result (λ found. IfSome found (λ parent. (text : List ℕ) → IsUtf8 text → Matches self.now (chars text)
            → HasParent (string_bytes parent) text)) }
    {
        self.matcher.parent()
    }
}

impl Clone for Pattern {
    ghost use Rattle.std.specs.Prelude.{◌≡◌};

    ghost is_clone = { λ p q. q ≡ p };

    fn clone(&self) -> Result<Pattern, AllocError> {
        Ok(Pattern {
            matcher: self.matcher.clone()?,
        })
    }
}
