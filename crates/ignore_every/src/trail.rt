//! The places of a search, breadth first. What is found here is checked afterwards.
ghost use Rattle.std.specs.Prelude.{IfOk};
ghost use Rattle.ignore_every.specs.Scopes.{scope_of};
ghost use Rattle.ignore_every.specs.Searches.{IsClosed};

use crate::error::Error;
use crate::place::{NameStart, Place};
use crate::places::Search;
use crate::room::Room;
use crate::row::{Row, decider_of, is_some_of};
use std::alloc::{AllocError, Global};
use std::collections::HashMap;

/// The places that a search found, and how it came to them.
#[derive(Drop)]
pub struct Trail {
    /// The places, the first of them that of the empty path.
    pub places: Vec<Place>,
    /// For each place and each letter the place that comes next, or a number that no place has.
    pub next: Vec<Vec<usize>>,
    /// From which place each was found, and by which character.
    pub from: Vec<(usize, char)>,
}

/// What tells two places apart.
#[derive(Clone, Copy, PartialEq, Eq, Hash, Drop)]
struct Key {
    left: Option<usize>,
    right: Option<usize>,
    name: NameStart,
}

/// A search that goes on.
#[derive(Drop)]
struct Found {
    trail: Trail,
    numbers: HashMap<Key, usize>,
}

impl Found {
    /// The number of a place, which may be a new one.
    fn number(
        &mut self,
        place: Place,
        from: (usize, char),
        room: &mut Room,
    ) -> Result<usize, Error> {
        let key = Key {
            left: place.left,
            right: place.right,
            name: place.name,
        };
        if let Some(number) = self.numbers.get(&key) {
            return Ok(*number);
        }
        room.take()?;
        let number = self.trail.places.len();
        self.numbers.insert(key, number)?;
        self.trail.places.push(place)?;
        self.trail.from.push(from)?;
        Ok(number)
    }

    /// The place that comes next by a letter, or a number that no place has.
    fn step(
        &mut self,
        search: &Search<'_>,
        here: (usize, Place),
        letter: (usize, char),
        room: &mut Room,
    ) -> Result<usize, Error> {
        if !search.goes_on(&here.1, letter.1) {
            return Ok(usize::MAX);
        }
        let place = Place {
            left: search.left.step(search.reached, here.1.left, letter)?,
            right: search.right.step(search.reached, here.1.right, letter)?,
            name: here.1.name.after(letter.1),
            depth: here.1.depth.saturating_add(1),
        };
        self.number(place, (here.0, letter.1), room)
    }
}

/// All places of a search.
fn found_by(alloc: Global, search: &Search<'_>, room: &mut Room) -> Result<Trail, Error> {
    let mut found = Found {
        trail: Trail {
            places: Vec::new(alloc),
            next: Vec::new(alloc),
            from: Vec::new(alloc),
        },
        numbers: HashMap::new(alloc),
    };
    let root = Place {
        left: Some(0),
        right: search.start(),
        name: NameStart::Empty,
        depth: 0,
    };
    found.number(root, (0, '/'), room)?;
    for number in 0..usize::MAX {
        let Some(place) = found.trail.places.get(number).copied() else {
            break;
        };
        let mut next = Vec::new(alloc);
        for (letter, c) in search.letters.iter().enumerate() {
            next.push(found.step(search, (number, place), (letter, *c), room)?)?;
        }
        found.trail.next.push(next)?;
    }
    let Found { trail, numbers: _ } = found;
    Ok(trail)
}

/// All places of a search, which are closed.
pub(crate) fn trail_of(alloc: Global, search: &Search<'_>, room: &mut Room) -> Result<Trail, Error>
    ensures { IfOk result (λ trail. IsClosed (scope_of search.now) trail.places.items) }
{
    let trail = found_by(alloc, search, room)?;
    if !search.is_closed(&trail.places, &trail.next) {
        return Err(Error::Rejected);
    }
    Ok(trail)
}

/// Whether a rule decides at a place for a kind of entry.
fn is_decided(rows: &[Row], place: &Place, is_dir: bool, index: usize) -> bool {
    let Some(state) = place.left else {
        return false;
    };
    match decider_of(rows, state, is_dir) {
        Some(decider) => is_some_of(decider, index),
        None => false,
    }
}

impl Trail {
    /// The first place of a name at which a rule decides, and for which kind of entry.
    pub(crate) fn first_decided(&self, rows: &[Row], index: usize) -> Option<(usize, bool)> {
        for (number, place) in self.places.iter().enumerate() {
            if !place.name.is_named() {
                continue;
            }
            if is_decided(rows, place, false, index) {
                return Some((number, false));
            }
            if is_decided(rows, place, true, index) {
                return Some((number, true));
            }
        }
        None
    }

    /// The characters by which the search came to a place.
    pub(crate) fn text_to(&self, alloc: Global, place: usize) -> Result<Vec<char>, AllocError> {
        let mut text = Vec::new(alloc);
        let mut at = place;
        for _ in 0..self.places.len() {
            if at == 0 {
                break;
            }
            let Some((before, c)) = self.from.get(at).copied() else {
                break;
            };
            text.push(c)?;
            at = before;
        }
        text.reverse();
        Ok(text)
    }
}
