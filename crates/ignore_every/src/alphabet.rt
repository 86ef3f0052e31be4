//! The letters of lists of rules: intervals of characters in which no test of a rule changes.
ghost use Rattle.std.specs.Prelude.{◌≡◌, ◌++◌, IfOk, map};
ghost use Rattle.ignore_every.specs.Machines.{IsAlphabet};

use crate::error::Error;
use crate::letters::{Interval, is_alphabet};
use ignore_glob::internal::Automaton;
use ignore_rules::gitignore::Glob;
use ignore_rules::internal::automaton;
use std::alloc::{AllocError, Global};
use std::collections::HashMap;

/// Letters, each by the character that stands for it, and the intervals of characters of each.
#[derive(Drop)]
pub(crate) struct Alphabet {
    pub letters: Vec<char>,
    pub intervals: Vec<Interval>,
}

/// Adds the automata of rules.
fn push_automata(automata: &mut Vec<Automaton>, rules: &[Glob]) -> Result<(), AllocError>
    ensures { IfOk result (λ done. automata.new.items ≡ automata.old.items ++ map (λ rule. rule.reading) rules.now) }
{
    for rule in rules {
        automata.push(automaton(rule)?)?;
    }
    Ok(())
}

/// The automata of two lists of rules.
fn automata_of(alloc: Global, left: &[Glob], right: &[Glob]) -> Result<Vec<Automaton>, AllocError>
    ensures { IfOk result (λ automata. automata.items ≡ map (λ rule. rule.reading) (left.now ++ right.now)) }
{
    let mut automata = Vec::new(alloc);
    push_automata(&mut automata, left)?;
    push_automata(&mut automata, right)?;
    Ok(automata)
}

/// The other ASCII case of a letter; of any other character itself.
fn other_case(c: char) -> char {
    if c.is_ascii_uppercase() {
        c.to_ascii_lowercase()
    } else {
        c.to_ascii_uppercase()
    }
}

/// Whether a character is in a range.
fn is_in(range: (char, char), c: char) -> bool {
    range.0 <= c && c <= range.1
}

/// A range of characters that a rule tests for.
#[derive(Clone, Copy, PartialEq, Eq, PartialOrd, Ord, Drop)]
struct Test {
    /// The first of them.
    first: char,
    /// The last of them.
    last: char,
    /// Whether the other case of a character is tested too.
    folds: bool,
}

impl Test {
    /// What the test answers a character.
    fn answer(&self, c: char) -> bool {
        is_in((self.first, self.last), c)
            || (self.folds && is_in((self.first, self.last), other_case(c)))
    }
}

/// Whether an automaton takes both cases of each letter alike: where it folds case, or where its
/// tests are such that folding case makes no difference.
fn does_fold(automaton: &Automaton) -> bool {
    for letter in 'a'..='z' {
        if !automaton.are_alike(letter, other_case(letter)) {
            return false;
        }
    }
    true
}

/// What automata test characters for, each once.
fn tests_of(alloc: Global, automata: &[Automaton]) -> Result<Vec<Test>, AllocError> {
    let mut tests = Vec::new(alloc);
    for automaton in automata {
        let folds = does_fold(automaton);
        for (first, last) in automaton.tested_ranges()? {
            tests.push(Test { first, last, folds })?;
        }
    }
    tests.sort()?;
    tests.dedup();
    Ok(tests)
}

/// The numbers at which an interval begins, in order, each once.
fn cuts_of(alloc: Global, tests: &[Test]) -> Result<Vec<u32>, AllocError> {
    let mut cuts: Vec<u32> = Vec::new(alloc);
    for ascii in 1..=128 {
        cuts.push(ascii)?;
    }
    cuts.push(0xD800)?;
    cuts.push(0xE000)?;
    cuts.push(0x11_0000)?;
    for test in tests {
        cuts.push((test.first as u32).max(1))?;
        cuts.push((test.last as u32).saturating_add(1))?;
    }
    cuts.sort()?;
    cuts.dedup();
    Ok(cuts)
}

/// The interval between two numbers, unless it has surrogates.
fn interval_between(from: u32, to: u32) -> Option<Interval> {
    if to == 0 {
        return None;
    }
    let Some(first) = char::from_u32(from) else {
        return None;
    };
    let Some(last) = char::from_u32(to - 1) else {
        return None;
    };
    Some(Interval {
        first,
        last,
        letter: usize::MAX,
    })
}

/// The intervals between cuts.
fn intervals_of(alloc: Global, cuts: &[u32]) -> Result<Vec<Interval>, AllocError> {
    let mut intervals = Vec::new(alloc);
    let mut from = 1;
    for to in cuts {
        if *to > from {
            if let Some(interval) = interval_between(from, *to) {
                intervals.push(interval)?;
            }
            from = *to;
        }
    }
    Ok(intervals)
}

/// How all tests answer a character.
fn answers_of(alloc: Global, tests: &[Test], c: char) -> Result<Vec<bool>, AllocError> {
    let mut answers = Vec::new(alloc);
    answers.push(c == '/')?;
    answers.push(c == '.')?;
    for test in tests {
        answers.push(test.answer(c))?;
    }
    Ok(answers)
}

/// Which characters stand for a letter before others: small letters, then what can be printed.
fn turn_of(c: char) -> usize {
    if c.is_ascii_lowercase() {
        0
    } else if c.is_ascii_graphic() {
        1
    } else {
        2
    }
}

/// Gives each interval its letter, and tells the characters that stand for them.
fn letters_of(
    alloc: Global,
    tests: &[Test],
    intervals: &mut Vec<Interval>,
) -> Result<Vec<char>, AllocError> {
    let mut letters = Vec::new(alloc);
    let mut numbers: HashMap<Vec<bool>, usize> = HashMap::new(alloc);
    for turn in 0..3 {
        for index in 0..intervals.len() {
            let Some(interval) = intervals.get_mut(index) else {
                continue;
            };
            if turn_of(interval.first) != turn {
                continue;
            }
            let answers = answers_of(alloc, tests, interval.first)?;
            match numbers.get(&answers) {
                Some(number) => interval.letter = *number,
                None => {
                    interval.letter = letters.len();
                    numbers.insert(answers, letters.len())?;
                    letters.push(interval.first)?;
                }
            }
        }
    }
    Ok(letters)
}

/// The letters of two lists of rules.
pub(crate) fn alphabet_of(alloc: Global, left: &[Glob], right: &[Glob]) -> Result<Alphabet, Error>
    ensures { IfOk result (λ alphabet. IsAlphabet (left.now ++ right.now) alphabet.letters.items) }
{
    let automata = automata_of(alloc, left, right)?;
    let tests = tests_of(alloc, &automata)?;
    let cuts = cuts_of(alloc, &tests)?;
    let mut intervals = intervals_of(alloc, &cuts)?;
    let letters = letters_of(alloc, &tests, &mut intervals)?;
    if !is_alphabet(&automata, &letters, &intervals) {
        return Err(Error::Rejected);
    }
    Ok(Alphabet { letters, intervals })
}
