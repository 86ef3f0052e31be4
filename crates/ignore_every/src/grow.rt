//! The tables of a list of rules: of each rule, and of pairs of them up to one of all rules. What is
//! made here is checked afterwards.

use crate::error::Error;
use crate::leaf::{Leaf, LeafRule};
use crate::node::{Branch, Made, Node};
use crate::pair::{Pair, later};
use crate::room::Room;
use crate::row::{Row, decider_of, next_of, taking_of};
use ignore_glob::internal::{Automaton, Flags};
use ignore_rules::gitignore::Glob;
use ignore_rules::internal::automaton;
use std::alloc::{AllocError, Global};
use std::collections::HashMap;

/// The sets that a set leads to by each letter.
fn steps_of(
    alloc: Global,
    automaton: &Automaton,
    set: &Flags,
    letters: &[char],
) -> Result<Vec<Flags>, AllocError> {
    let mut steps = Vec::new(alloc);
    for c in letters {
        steps.push(automaton.step(set, *c)?)?;
    }
    Ok(steps)
}

/// The sets of one rule, by their numbers.
#[derive(Drop)]
struct Sets {
    sets: Vec<Flags>,
    numbers: HashMap<Vec<bool>, usize>,
}

impl Sets {
    /// The number of a set, which may be a new one.
    fn number(&mut self, set: Flags, room: &mut Room) -> Result<usize, Error> {
        if let Some(number) = self.numbers.get(&set.all) {
            return Ok(*number);
        }
        room.take()?;
        let number = self.sets.len();
        self.numbers.insert(set.all.clone()?, number)?;
        self.sets.push(set)?;
        Ok(number)
    }

    /// Where a state leads by each letter.
    fn next(
        &mut self,
        alloc: Global,
        steps: Vec<Flags>,
        room: &mut Room,
    ) -> Result<Vec<Option<usize>>, Error> {
        let mut next = Vec::new(alloc);
        for set in steps {
            next.push(Some(self.number(set, room)?))?;
        }
        Ok(next)
    }
}

/// The index of a rule, where it decides for a kind of entry at a set.
fn decider_at(rule: &LeafRule, set: &Flags, is_dir: bool) -> Option<usize> {
    if (!rule.is_only_dir || is_dir) && rule.automaton.ends(set) {
        Some(rule.index)
    } else {
        None
    }
}

/// The table of one rule.
fn leaf_of(
    alloc: Global,
    rule: &LeafRule,
    letters: &[char],
    room: &mut Room,
) -> Result<Leaf, Error> {
    let mut found = Sets {
        sets: Vec::new(alloc),
        numbers: HashMap::new(alloc),
    };
    found.number(rule.automaton.begin()?, room)?;
    let mut rows = Vec::new(alloc);
    for state in 0..usize::MAX {
        let Some(set) = found.sets.get(state) else {
            break;
        };
        let file = decider_at(rule, set, false);
        let dir = decider_at(rule, set, true);
        let mut taking = Vec::new(alloc);
        if rule.automaton.ends(set) {
            taking.push(rule.index)?;
        }
        let steps = steps_of(alloc, &rule.automaton, set, letters)?;
        let next = found.next(alloc, steps, room)?;
        rows.push(Row {
            next,
            file,
            dir,
            taking,
        })?;
    }
    let Sets { sets, numbers: _ } = found;
    Ok(Leaf { sets, rows })
}

/// The pairs of states of two tables, by their numbers.
#[derive(Drop)]
struct Parts {
    parts: Vec<(usize, usize)>,
    numbers: HashMap<(usize, usize), usize>,
}

impl Parts {
    /// The number of a pair, which may be a new one.
    fn number(&mut self, part: (usize, usize), room: &mut Room) -> Result<usize, Error> {
        if let Some(number) = self.numbers.get(&part) {
            return Ok(*number);
        }
        room.take()?;
        let number = self.parts.len();
        self.numbers.insert(part, number)?;
        self.parts.push(part)?;
        Ok(number)
    }

    /// Where a pair leads by a letter, where both tables know.
    fn step(
        &mut self,
        left: Option<usize>,
        right: Option<usize>,
        room: &mut Room,
    ) -> Result<Option<usize>, Error> {
        let Some(left) = left else {
            return Ok(None);
        };
        let Some(right) = right else {
            return Ok(None);
        };
        Ok(Some(self.number((left, right), room)?))
    }
}

/// The decider at a pair for a kind of entry.
fn decider_at_pair(
    left: &[Row],
    right: &[Row],
    part: (usize, usize),
    is_dir: bool,
) -> Option<usize> {
    let earlier = decider_of(left, part.0, is_dir).unwrap_or(None);
    let after = decider_of(right, part.1, is_dir).unwrap_or(None);
    later(after, earlier)
}

/// Adds the rules whose globs take what leads to a state.
fn push_taking(taking: &mut Vec<usize>, rows: &[Row], state: usize) -> Result<(), AllocError> {
    if let Some(known) = taking_of(rows, state) {
        for index in known {
            taking.push(*index)?;
        }
    }
    Ok(())
}

/// The table of the rules of two tables.
fn pair_of(
    alloc: Global,
    left: &[Row],
    right: &[Row],
    letters: usize,
    room: &mut Room,
) -> Result<Pair, Error> {
    let mut found = Parts {
        parts: Vec::new(alloc),
        numbers: HashMap::new(alloc),
    };
    found.number((0, 0), room)?;
    let mut rows = Vec::new(alloc);
    for state in 0..usize::MAX {
        let Some(part) = found.parts.get(state).copied() else {
            break;
        };
        let file = decider_at_pair(left, right, part, false);
        let dir = decider_at_pair(left, right, part, true);
        let mut next = Vec::new(alloc);
        for letter in 0..letters {
            let l = next_of(left, part.0, letter);
            let r = next_of(right, part.1, letter);
            next.push(found.step(l, r, room)?)?;
        }
        let mut taking = Vec::new(alloc);
        push_taking(&mut taking, left, part.0)?;
        push_taking(&mut taking, right, part.1)?;
        rows.push(Row {
            next,
            file,
            dir,
            taking,
        })?;
    }
    let Parts { parts, numbers: _ } = found;
    Ok(Pair { parts, rows })
}

/// The tables that are made, and which of them aren't part of a pair yet.
#[derive(Drop)]
struct Grown {
    nodes: Vec<Node>,
    open: Vec<usize>,
}

impl Grown {
    fn push(&mut self, node: Node) -> Result<(), Error> {
        self.open.push(self.nodes.len())?;
        self.nodes.push(node)?;
        Ok(())
    }

    /// Pairs the last two open tables, where there are two.
    fn pair_last(&mut self, alloc: Global, letters: usize, room: &mut Room) -> Result<(), Error> {
        if self.open.len() < 2 {
            return Ok(());
        }
        let Some(right) = self.open.pop() else {
            return Ok(());
        };
        let Some(left) = self.open.pop() else {
            return Ok(());
        };
        let node = self.paired(alloc, left, right, letters, room)?;
        self.push(node)
    }

    fn paired(
        &self,
        alloc: Global,
        left: usize,
        right: usize,
        letters: usize,
        room: &mut Room,
    ) -> Result<Node, Error> {
        let Some(earlier) = self.nodes.get(left) else {
            return Err(Error::Rejected);
        };
        let Some(after) = self.nodes.get(right) else {
            return Err(Error::Rejected);
        };
        let pair = pair_of(alloc, earlier.rows(), after.rows(), letters, room)?;
        Ok(Node {
            low: earlier.low,
            high: after.high,
            made: Made::OfTwo(Branch { left, right, pair }),
        })
    }
}

/// The table of one rule, with its index.
fn node_of(
    alloc: Global,
    index: usize,
    glob: &Glob,
    letters: &[char],
    room: &mut Room,
) -> Result<Node, Error> {
    let rule = LeafRule {
        index,
        is_only_dir: glob.is_only_dir(),
        automaton: automaton(glob)?,
    };
    let leaf = leaf_of(alloc, &rule, letters, room)?;
    Ok(Node {
        low: index,
        high: index.saturating_add(1),
        made: Made::OfRule(leaf),
    })
}

/// The table of no rules: its one state leads to itself.
fn none_of(alloc: Global, letters: &[char], room: &mut Room) -> Result<Node, Error> {
    room.take()?;
    let mut next = Vec::new(alloc);
    for _ in letters {
        next.push(Some(0))?;
    }
    let mut rows = Vec::new(alloc);
    rows.push(Row {
        next,
        file: None,
        dir: None,
        taking: Vec::new(alloc),
    })?;
    Ok(Node {
        low: 0,
        high: 0,
        made: Made::OfNone(rows),
    })
}

/// The tables of a list of rules; the last one is of all rules.
pub(crate) fn nodes_of(
    alloc: Global,
    rules: &[Glob],
    letters: &[char],
    room: &mut Room,
) -> Result<Vec<Node>, Error> {
    let mut grown = Grown {
        nodes: Vec::new(alloc),
        open: Vec::new(alloc),
    };
    if rules.is_empty() {
        grown.push(none_of(alloc, letters, room)?)?;
    }
    for (index, glob) in rules.iter().enumerate() {
        let node = node_of(alloc, index, glob, letters, room)?;
        grown.push(node)?;
        for _ in 0..index.saturating_add(1).trailing_zeros() {
            grown.pair_last(alloc, letters.len(), room)?;
        }
    }
    for _ in 0..grown.open.len() {
        grown.pair_last(alloc, letters.len(), room)?;
    }
    let Grown { nodes, open: _ } = grown;
    Ok(nodes)
}
