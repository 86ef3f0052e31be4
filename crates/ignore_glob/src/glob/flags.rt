//! A set of positions as flags.
ghost use Rattle.std.specs.Prelude.{◌≡◌, ◌<◌, ◌≤◌, ◌↔◌, ◌⊎◌, ℕ, IsTrue, IfOk, length, count_by};
ghost use Rattle.std.specs.Coded.{Π_prop, →_prop, ×_prop, le_prop};
ghost use Rattle.ignore_glob.specs.Flags.{IsFlagged};

use std::alloc::{AllocError, Global};

/// A flag for each position, and the part of them outside of which none is set.
#[derive(Drop)]
pub struct Flags {
    /// The flags, one for each position.
    pub all: Vec<bool>,
    /// No flag before this position is set.
    pub low: usize,
    /// No flag at this position or after it is set.
    pub high: usize,
    ghost ends: { high ≤ length all.items },
    ghost within: { (q : ℕ) → IsFlagged all.items q → (low ≤ q) × (q < high) } by { Π_prop (λ q. →_prop (×_prop le_prop le_prop)) },
}

impl Flags {
    /// So many flags, none of them set.
    pub fn new(alloc: Global, n: usize) -> Result<Flags, AllocError>
        ensures len { IfOk result (λ flags. length flags.all.items ≡ n) }
        ensures clear { IfOk result (λ flags. (q : ℕ) → IsFlagged flags.all.items q → ⊥) }
    {
        let all = vec![in alloc; false; n]?;
        Ok(Flags {
            all,
            low: n,
            high: 0,
        })
    }

    /// Sets a flag.
    pub fn set(&mut self, q: usize)
        requires { q < length self.old.all.items }
        ensures len { length self.new.all.items ≡ length self.old.all.items }
        ensures low { self.new.low ≤ self.old.low }
        ensures flagged { (p : ℕ) → IsFlagged self.new.all.items p ↔ (IsFlagged self.old.all.items p ⊎ (p ≡ q)) }
    {
        self.low = self.low.min(q);
        self.high = self.high.max(q + 1);
        self.all[q] = true;
    }

    /// Whether the flag is set.
    pub fn has(&self, q: usize) -> bool
        requires { q < length self.now.all.items }
        ensures { IsTrue result ↔ IsFlagged self.now.all.items q }
    {
        self.all[q]
    }

    /// Whether no flag is set.
    pub fn is_clear(&self) -> bool
        ensures { IsTrue result → (q : ℕ) → IsFlagged self.now.all.items q → ⊥ }
    {
        self.low >= self.high
    }

    /// Takes all flags back.
    pub fn clear(&mut self)
        ensures len { length self.new.all.items ≡ length self.old.all.items }
        ensures clear { (q : ℕ) → IsFlagged self.new.all.items q → ⊥ }
    {
        for p in self.low..self.high {
            self.all[p] = false;
        }
        self.low = self.all.len();
        self.high = 0;
    }

    /// How many flags are set.
    pub fn count(&self) -> u64
        ensures { result ≡ count_by (λ b. b) self.now.all.items }
    {
        let mut count = 0;
        for p in self.low..self.high {
            if self.all[p] {
                count += 1;
            }
        }
        count
    }
}
