//! The verdict of a vector.
ghost use Rattle.std.specs.Prelude.{◌≡◌, [], map, IfOk, IfErr, OnErr};
ghost use Rattle.std.specs.Io.KnownBytes.{Appends};
ghost use Rattle.serde_json.specs.View.{view};
ghost use Rattle.vectors.specs.Vectors.{named_field, wrong_field};
ghost use Rattle.vectors.specs.Verdicts.{Judges, IsBare, counted};

use crate::agree::agrees;
use crate::tally::Tally;
use crate::trouble::Trouble;
use crate::vector::Vector;
use serde_json::Value;
use std::io::{self, Write};

/// The verdict of a vector.
#[derive(Drop)]
pub enum Verdict {
    /// The answer is the wanted one.
    Passed,
    /// The answer is another one: the vector and the answer.
    Failed(Value, Value),
}

impl Verdict {
    /// The verdict of a vector with this answer, where these fields may be missing.
    pub fn of(value: Value, answer: Value, waiting: &[&str]) -> Result<Verdict, Trouble>
        ensures judges { IfOk result (Judges (view value) (view answer) (map (λ w. w.now) waiting.now)) }
        ensures reported { IfErr result (λ t. named_field t ≡ wrong_field (view value)) }
    {
        let vector = Vector::of(&value)?;
        if agrees(vector.wanted, &answer, waiting) {
            return Ok(Verdict::Passed);
        }
        Ok(Verdict::Failed(value, answer))
    }
}

impl Tally {
    /// Counts a verdict, and reports an answer other than the wanted one on `out`. The verdict is
    /// counted also where the report can't be written.
    pub fn count<W: Write>(&mut self, verdict: Verdict, out: &mut W) -> io::Result<()>
        ensures counts { self.new ≡ counted verdict self.old }
        ensures silent { IsBare verdict → Appends (W.contents out.old) (W.contents out.new) [] }
    {
        match verdict {
            Verdict::Passed => self.pass(),
            Verdict::Failed(value, answer) => {
                self.fail();
                report_difference(&value, &answer, out)?;
            }
        }
        Ok(())
    }
}

/// Reports an answer other than the wanted one.
fn report_difference<W: Write>(value: &Value, answer: &Value, out: &mut W) -> io::Result<()> {
    let (Some(id), Some(wanted)) = (value.get("id"), value.get("out")) else {
        return Ok(());
    };
    writeln!(out, "{id}: wanted {wanted}, got {answer}")
}
