//! A text that several indexes are asked about.
ghost use Rattle.std.specs.Prelude.{◌≡◌, drop};
ghost use Rattle.ignore_set.specs.Others.{IsMaskOver};

use crate::needle::mask_back;
use std::marker::Model;

/// For dependents: a text of which indexes are asked, each about what follows an offset.
///
/// An index whose patterns aren't all in tables looks at three bytes that follow each other at a
/// time, and what it finds out is kept here for the next one: no byte is looked at so for two
/// indexes, and none is before an index needs it.
#[derive(Debug, Drop)]
pub struct Haystack<'t> {
    text: &'t str,
    from: usize,
    mask: u64,
}

impl<'t> Model for Haystack<'t> {
    ghost use Rattle.std.specs.Prelude.{◌≡◌, ◌≤◌, ℕ, List, drop, length};
    ghost use Rattle.std.specs.Coded.{coded_list, coded_ℕ};
    ghost use Rattle.ignore_set.specs.Others.{mask_of};

    ghost Value = { List ℕ };

    ghost coded = { coded_list coded_ℕ };

    ghost view = { λ h. h.text.now };

    ghost invariant = { λ h. (h.from ≤ length h.text.now) × (h.mask ≡ mask_of (drop h.from h.text.now)) };
}

impl<'t> Haystack<'t> {
    /// A text of which nothing has been looked at.
    pub fn new(text: &'t str) -> Haystack<'t>
        ensures { result ≡ text.now }
    {
        Haystack {
            text,
            from: text.len(),
            mask: 0,
        }
    }

    /// The text.
    pub fn text(&self) -> &'t str
        ensures { result.now ≡ self.now }
    {
        self.text
    }

    /// A mask over what follows an offset.
    pub(crate) fn mask_from(&mut self, offset: usize) -> u64
        ensures over { IsMaskOver (drop offset self.old) result }
        ensures same { self.new ≡ self.old }
    {
        if self.from <= offset {
            return self.mask;
        }
        let mask = mask_back(self.text, offset, self.from, self.mask);
        self.mask = mask;
        self.from = offset;
        mask
    }
}
