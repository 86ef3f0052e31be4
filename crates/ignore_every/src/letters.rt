//! Letters: intervals of characters that all tests answer alike.
ghost use Rattle.std.specs.Prelude.{◌≡◌, ◌≢◌, ◌≤◌, ◌==◌, ℕ, IsTrue};
ghost use Rattle.std.specs.Char.{IsScalar};
ghost use Rattle.ignore_base.specs.Text.{is_slash};
ghost use Rattle.ignore_glob.specs.PositionSets.{AreAlike};
ghost use Rattle.ignore_every.specs.Letters.{AreAllAlike, AreAllIn, IsOfLetter};

use crate::places::letter_at;
use ignore_glob::internal::Automaton;

/// Characters that stand for one letter: all from the first to the last.
#[derive(Debug, Clone, Copy, Drop)]
pub struct Interval {
    /// The first.
    pub first: char,
    /// The last.
    pub last: char,
    /// The number of the letter.
    pub letter: usize,
}

/// Whether all characters of an interval are alike, by the tests of an automaton.
fn is_even(automaton: &Automaton, first: char, last: char) -> bool
    ensures { IsTrue result → (c : ℕ) → first ≤ c → c ≤ last → AreAlike automaton.now first c }
{
    if first == last {
        return true;
    }
    automaton.is_even(first, last)
}

/// Whether a character is alike to each of an interval, by the tests of all automata.
fn are_all_alike(automata: &[Automaton], mark: char, first: char, last: char) -> bool
    ensures { IsTrue result → (c : ℕ) → first ≤ c → c ≤ last → AreAllAlike automata.now mark c }
{
    for automaton in automata {
        if !automaton.are_alike(mark, first) {
            return false;
        }
        if !is_even(automaton, first, last) {
            return false;
        }
    }
    true
}

/// Whether a character does the same to a name as another.
fn is_same_mark(mark: char, c: char) -> bool
    ensures slash { IsTrue result → is_slash mark ≡ is_slash c }
    ensures dot { IsTrue result → (mark == 46) ≡ (c == 46) }
{
    if mark == '/' {
        return c == '/';
    }
    if mark == '.' {
        return c == '.';
    }
    c != '/' && c != '.'
}

/// Whether a character does the same to a name as each of an interval.
fn is_same_kind(mark: char, first: char, last: char) -> bool
    ensures slash { IsTrue result → (c : ℕ) → first ≤ c → c ≤ last → is_slash mark ≡ is_slash c }
    ensures dot { IsTrue result → (c : ℕ) → first ≤ c → c ≤ last → (mark == 46) ≡ (c == 46) }
{
    if first == last {
        return is_same_mark(mark, first);
    }
    first > '/' && mark != '/' && mark != '.'
}

/// Whether an interval follows what lies below a number without a gap: only surrogates lie between.
fn follows(below: u32, first: u32) -> bool
    ensures { IsTrue result → (c : ℕ) → IsScalar c → below ≤ c → first ≤ c }
{
    if first <= below {
        return true;
    }
    below >= 0xD800 && first <= 0xE000
}

/// Whether each character that a path may have is in some interval.
fn are_all_in(intervals: &[Interval]) -> bool
    ensures { IsTrue result → AreAllIn intervals.now 1_114_112 }
{
    let mut below: u32 = 1;
    for interval in intervals {
        let first = interval.first as u32;
        let last = interval.last as u32;
        if !follows(below, first) {
            return false;
        }
        if last < below {
            return false;
        }
        below = last + 1;
    }
    below >= 1_114_112
}

/// Whether each character of an interval is alike to the one that stands for its letter.
fn is_interval_right(automata: &[Automaton], letters: &[char], interval: Interval) -> bool
    ensures { IsTrue result → (c : ℕ) → interval.first ≤ c → c ≤ interval.last → IsOfLetter automata.now letters.now interval.letter c }
{
    let Some(mark) = letter_at(letters, interval.letter) else {
        return false;
    };
    if !is_same_kind(mark, interval.first, interval.last) {
        return false;
    }
    are_all_alike(automata, mark, interval.first, interval.last)
}

/// Whether each character that a path may have is alike to the one that stands for some letter.
pub(crate) fn is_alphabet(automata: &[Automaton], letters: &[char], intervals: &[Interval]) -> bool
    ensures { IsTrue result → (c : ℕ) → IsScalar c → c ≢ 0 → (a : ℕ) × IsOfLetter automata.now letters.now a c }
{
    if !are_all_in(intervals) {
        return false;
    }
    for interval in intervals {
        if !is_interval_right(automata, letters, *interval) {
            return false;
        }
    }
    true
}
