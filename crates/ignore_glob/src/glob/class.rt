//! Classes of characters.
ghost use Rattle.std.specs.Prelude.{◌≡◌, ◌≢◌, ◌+◌, ◌<◌, ◌++◌, ◌∷◌, ℕ, List, true, false, take, drop, length, nat_le, IfOk};
ghost use Rattle.std.specs.Prelude.{IfSome, IfNone, Ok};
ghost use Rattle.std.specs.List.{AllByRecursion, list_all};
ghost use Rattle.ignore_base.specs.Text.{Chars};
ghost use Rattle.ignore_glob.specs.Lexing.{Closes, turns, NoTurn, Items, last_end, ranges, are_in_order, is_negated, after_sign};
ghost use Rattle.ignore_glob.specs.ParserSteps.{ClosesBefore};

use std::alloc::{AllocError, Global};

/// Whether a sign negates, and what follows it.
pub fn sign(inside: &[char]) -> (bool, &[char])
    ensures negated { result.0 ≡ is_negated inside.now }
    ensures rest { result.1.now ≡ after_sign inside.now }
{
    match inside {
        ['!' | '^', rest @ ..] => (true, rest),
        _ => (false, inside),
    }
}

/// How many characters follow each `]` at least: those after the last one.
pub fn after_last_closing(text: &[char]) -> usize
    ensures { ClosesBefore result text.now }
{
    let mut after = text.len();
    for i in 0..text.len() {
        if text[i] == ']' {
            after = text.len() - i - 1;
        }
    }
    after
}

/// The index of the first `]`, given how many characters follow each `]` at least.
fn closing(text: &[char], after_last: usize) -> Option<usize>
    requires { ClosesBefore after_last text.now }
    ensures within { IfSome result (λ n. n < length text.now) }
    ensures before { IfSome result (λ n. AllByRecursion (λ c. c ≢ 93) (take n text.now)) }
    ensures found { IfSome result (λ n. text.now ≡ take n text.now ++ 93 ∷ drop (n + 1) text.now) }
    ensures none { IfNone result ((m r : Chars) → text.now ≡ m ++ 93 ∷ r → ⊥) }
{
    if text.len() <= after_last {
        return None;
    }
    for i in 0..text.len() {
        if text[i] == ']' {
            return Some(i);
        }
    }
    None
}

/// The body of a class, and what follows its `]`.
pub fn body(inside: &[char], after_last: usize) -> Option<(&[char], &[char])>
    requires { ClosesBefore after_last inside.now }
    ensures some { IfSome result (λ found. Closes inside.now found.0.now found.1.now) }
    ensures none { IfNone result ((b r : Chars) → Closes inside.now b r → ⊥) }
{
    let (_, more) = inside.split_first()?;
    let n = closing(more, after_last)?;
    Some((&inside[..n + 1], &inside[n + 2..]))
}

/// The end of a range that the text begins with, after a `-`, and what follows.
fn turn(text: &[char]) -> Option<(char, &[char])>
    ensures some { IfSome result (λ found. text.now ≡ 45 ∷ found.0 ∷ found.1.now) }
    ensures none { IfNone result (NoTurn text.now) }
{
    let (dash, more) = text.split_first()?;
    if *dash != '-' {
        return None;
    }
    let (end, rest) = more.split_first()?;
    Some((*end, rest))
}

/// The first item of a body, whether its ends are in order, and what follows.
fn item(body: &[char]) -> ((char, char), bool, &[char])
    requires { 0 < length body.now }
    ensures { (ends : Chars) × (body.now ≡ result.0.0 ∷ (turns ends ++ result.2.now)) × NoTurn result.2.now
        × (result.0.1 ≡ last_end result.0.0 ends) × (result.1 ≡ list_all (nat_le result.0.0) ends) }
{
    let Some((low, more)) = body.split_first() else {
        unreachable!();
    };
    let mut high = *low;
    let mut rest = more;
    let mut ordered = true;
    while let Some((end, more)) = turn(rest) {
        ordered = ordered && *low <= end;
        high = end;
        rest = more;
    }
    ((*low, high), ordered, rest)
}

/// The ranges of a body, if all are in order.
pub fn ranges_of(alloc: Global, body: &[char]) -> Result<Option<Vec<(char, char)>>, AllocError>
    ensures some { IfOk result (λ found. IfSome found
        (λ all. (items : List (ℕ × Chars)) × Items body.now items × (are_in_order items ≡ true) × (all.items ≡ ranges items))) }
    ensures none { IfOk result (λ found. IfNone found ((items : List (ℕ × Chars)) × Items body.now items × (are_in_order items ≡ false))) }
{
    let mut all = Vec::new(alloc);
    let mut rest = body;
    while !rest.is_empty() {
        let (range, ordered, more) = item(rest);
        if !ordered {
            return Ok(None);
        }
        all.push(range)?;
        rest = more;
    }
    Ok(Some(all))
}
