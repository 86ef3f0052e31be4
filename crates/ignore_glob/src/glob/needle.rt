//! Texts that are in every text that tokens match.
ghost use Rattle.std.specs.Prelude.{◌≡◌, ◌++◌, ◌∷◌, [], ℕ, Bool, false, List, IfOk, map, string_bytes, encode_utf8};
ghost use Rattle.std.specs.Arc.{arc_slice_items};
ghost use Rattle.ignore_glob.specs.Glob.{class, alternates};
ghost use Rattle.ignore_glob.specs.Matches.{token_matches, tokens_match, glob_matches};
ghost use Rattle.ignore_glob.specs.Needles.{utf8, BeginsWith, HasOneOf, EndsAndHas};
ghost use Rattle.ignore_glob.specs.View.{view, tokens_view, branches_view};

use crate::glob::key::literal_of;
use crate::glob::token::{Class, Token};
use std::alloc::{AllocError, Global};

/// At most so many branches of braces, or characters of a class, are spelled out.
const MOST_CHOICES: usize = 16;

/// A literal of so many bytes is known well enough without the token after it.
const LONG: usize = 3;

/// What is known of the texts that some tokens match.
#[derive(Drop)]
struct Known {
    /// One of these is in the text.
    needles: Vec<String>,
    /// The text ends with this one.
    run: String,
}

/// Texts, one of which is in each text that these tokens match where case isn't folded.
pub(crate) fn needles_of(alloc: Global, tokens: &[Token]) -> Result<Vec<String>, AllocError>
    ensures { IfOk result (λ needles. (w : List ℕ) → glob_matches false (tokens_view tokens.now) w
        → HasOneOf (map string_bytes needles.items) (utf8 w)) }
{
    let mut known = Known::nothing(alloc)?;
    for token in tokens {
        known = known.after(alloc, token)?;
    }
    known.needles(alloc)
}

/// The empty text alone, which is in every text.
pub(crate) fn anything(alloc: Global) -> Result<Vec<String>, AllocError>
    ensures { IfOk result (λ needles. (text : List ℕ) → HasOneOf (map string_bytes needles.items) text) }
{
    alone(alloc, "")
}

impl Known {
    fn nothing(alloc: Global) -> Result<Known, AllocError>
        ensures { IfOk result (λ known. EndsAndHas (string_bytes known.run) (map string_bytes known.needles.items) []) }
    {
        let needles = anything(alloc)?;
        Ok(Known {
            needles,
            run: String::new(alloc),
        })
    }

    /// What is known after one token more.
    fn after(self, alloc: Global, token: &Token) -> Result<Known, AllocError>
        ensures { IfOk result (λ known. (text w : List ℕ) → EndsAndHas (string_bytes self.run) (map string_bytes self.needles.items) text
            → token_matches false (view token.now) w
            → EndsAndHas (string_bytes known.run) (map string_bytes known.needles.items) (text ++ utf8 w)) }
    {
        match literal_of(token) {
            Some(c) => self.and(c),
            None => self.past(alloc, token),
        }
    }

    fn and(self, c: char) -> Result<Known, AllocError>
        ensures { IfOk result (λ known. (text : List ℕ) → EndsAndHas (string_bytes self.run) (map string_bytes self.needles.items) text
            → EndsAndHas (string_bytes known.run) (map string_bytes known.needles.items) (text ++ utf8 (c ∷ []))) }
    {
        let mut run = self.run;
        run.push(c)?;
        Ok(Known {
            needles: self.needles,
            run,
        })
    }

    fn past(self, alloc: Global, token: &Token) -> Result<Known, AllocError>
        ensures { IfOk result (λ known. (text w : List ℕ) → EndsAndHas (string_bytes self.run) (map string_bytes self.needles.items) text
            → token_matches false (view token.now) w
            → EndsAndHas (string_bytes known.run) (map string_bytes known.needles.items) (text ++ utf8 w)) }
    {
        let more = extended(alloc, self.run.as_str(), token)?;
        Ok(Known {
            needles: longer(self.needles, more),
            run: String::new(alloc),
        })
    }

    /// The needles, the last run among what they are chosen from.
    fn needles(self, alloc: Global) -> Result<Vec<String>, AllocError>
        ensures { IfOk result (λ needles. (text : List ℕ) → EndsAndHas (string_bytes self.run) (map string_bytes self.needles.items) text
            → HasOneOf (map string_bytes needles.items) text) }
    {
        let last = alone(alloc, self.run.as_str())?;
        Ok(longer(self.needles, last))
    }
}

/// Of two lists the one whose shortest text is longer.
fn longer(a: Vec<String>, b: Vec<String>) -> Vec<String>
    ensures { (text : List ℕ) → HasOneOf (map string_bytes a.items) text → HasOneOf (map string_bytes b.items) text
        → HasOneOf (map string_bytes result.items) text }
{
    if least(&a) < least(&b) { b } else { a }
}

/// The length of the shortest text.
fn least(texts: &[String]) -> usize {
    let mut least = usize::MAX;
    for text in texts {
        least = least.min(text.as_str().len());
    }
    least
}

/// This text alone.
pub(crate) fn alone(alloc: Global, text: &str) -> Result<Vec<String>, AllocError>
    ensures { IfOk result (λ texts. map string_bytes texts.items ≡ text.now ∷ []) }
{
    let text = String::from_str(alloc, text)?;
    let mut texts = Vec::with_capacity(alloc, 1)?;
    texts.push(text)?;
    Ok(texts)
}

/// Texts, one of which is in each that ends with the run and then what the token matches.
#[tactic(auto, using(crate::proofs::Views::view_equations))]
fn extended(alloc: Global, run: &str, token: &Token) -> Result<Vec<String>, AllocError>
    ensures { IfOk result (λ texts. (front w : List ℕ) → token_matches false (view token.now) w
        → HasOneOf (map string_bytes texts.items) ((front ++ run.now) ++ utf8 w)) }
{
    if run.len() >= LONG {
        return alone(alloc, run);
    }
    match token {
        Token::Class(class) => by_class(alloc, run, class),
        Token::Alternates(branches) => by_branches(alloc, run, branches),
        _ => alone(alloc, run),
    }
}

/// Texts, one of which is in each that ends with the run and then a character of the class.
fn by_class(alloc: Global, run: &str, listed: &Class) -> Result<Vec<String>, AllocError>
    ensures { IfOk result (λ texts. (front w : List ℕ) → token_matches false (class listed.now.negated (arc_slice_items listed.now.ranges)) w
        → HasOneOf (map string_bytes texts.items) ((front ++ run.now) ++ utf8 w)) }
{
    if listed.negated || listed.ranges.len() > MOST_CHOICES {
        return alone(alloc, run);
    }
    let mut texts = Vec::with_capacity(alloc, listed.ranges.len())?;
    for range in listed.ranges.as_slice() {
        if range.0 != range.1 {
            return alone(alloc, run);
        }
        texts.push(with_char(alloc, run, range.0)?)?;
    }
    Ok(texts)
}

fn with_char(alloc: Global, run: &str, c: char) -> Result<String, AllocError>
    ensures { IfOk result (λ text. string_bytes text ≡ run.now ++ encode_utf8 c) }
{
    let mut text = String::with_capacity(alloc, run.len().saturating_add(c.len_utf8()))?;
    text.push_str(run)?;
    text.push(c)?;
    Ok(text)
}

/// Texts, one of which is in each that ends with the run and then what a branch matches: the run,
/// and how the branch begins.
fn by_branches(alloc: Global, run: &str, branches: &[Vec<Token>]) -> Result<Vec<String>, AllocError>
    ensures { IfOk result (λ texts. (front w : List ℕ) → token_matches false (alternates (branches_view branches.now)) w
        → HasOneOf (map string_bytes texts.items) ((front ++ run.now) ++ utf8 w)) }
{
    if branches.is_empty() || branches.len() > MOST_CHOICES {
        return alone(alloc, run);
    }
    let mut texts = Vec::with_capacity(alloc, branches.len())?;
    for branch in branches {
        texts.push(spelled(alloc, run, branch)?)?;
    }
    Ok(texts)
}

/// The run, and how each text begins that the tokens match.
fn spelled(alloc: Global, run: &str, tokens: &[Token]) -> Result<String, AllocError>
    ensures { IfOk result (λ text. (w : List ℕ) → tokens_match false (tokens_view tokens.now) w
        → BeginsWith (string_bytes text) (run.now ++ utf8 w)) }
{
    let mut text = String::with_capacity(alloc, run.len().saturating_add(tokens.len()))?;
    text.push_str(run)?;
    for token in tokens {
        match literal_of(token) {
            Some(c) => text.push(c)?,
            None => return Ok(text),
        }
    }
    Ok(text)
}
