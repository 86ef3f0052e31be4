//! Counting the verdicts of vectors.
ghost use Rattle.std.specs.Prelude.{◌≡◌, ◌≤◌, ◌↔◌, Some};
ghost use Rattle.vectors.specs.Tallies.{nothing, with_passed, with_failed, with_unread, tally_text};

use std::fmt;
use std::marker::Model;

/// How many vectors passed and failed, and how many lines were no vectors.
#[derive(Drop)]
pub struct Tally {
    passed: u64,
    failed: u64,
    unread: u64,
}

impl Model for Tally {
    ghost use Rattle.vectors.specs.Tallies.{Counts};

    ghost Value = { Counts };

    ghost view = { λ t. record {
      passed = t.passed;
      failed = t.failed;
      unread = t.unread;
    } };
}

impl Tally {
    /// No counts yet.
    pub fn new() -> Tally
        ensures { result ≡ nothing }
    {
        Tally {
            passed: 0,
            failed: 0,
            unread: 0,
        }
    }

    /// Counts a vector whose answer is the wanted one.
    pub fn pass(&mut self)
        ensures { self.new ≡ with_passed self.old }
    {
        self.passed = self.passed.saturating_add(1);
    }

    /// Counts a vector whose answer is another one.
    pub fn fail(&mut self)
        ensures { self.new ≡ with_failed self.old }
    {
        self.failed = self.failed.saturating_add(1);
    }

    /// Counts a line that is no vector.
    pub fn refuse(&mut self)
        ensures { self.new ≡ with_unread self.old }
    {
        self.unread = self.unread.saturating_add(1);
    }

    /// The status of a completed run: 0, or 1 where a vector failed or a line was no vector.
    pub fn status(&self) -> u8
        ensures good { (result ≡ 0) ↔ ((self.now.failed ≡ 0) × (self.now.unread ≡ 0)) }
        ensures bound { result ≤ 1 }
    {
        if self.failed == 0 && self.unread == 0 {
            0
        } else {
            1
        }
    }
}

/// The text of the counts, without that of the lines that are no vectors.
impl fmt::Display for Tally {
    ghost output = { λ t. Some (tally_text t) };

    fn fmt<W: fmt::Write>(&self, f: &mut fmt::Formatter<W>) -> fmt::Result {
        let passed = self.passed;
        let failed = self.failed;
        write!(f, "{passed} passed, {failed} failed")
    }
}
