//! Which rules of a list decide on no path.
ghost use Rattle.std.specs.Prelude.{◌≡◌, IfOk, IfSome, true, false};
ghost use Rattle.ignore_every.specs.Findings.{AreRightFindings};
ghost use Rattle.ignore_every.specs.Sound.{IsOver};

use crate::alphabet::alphabet_of;
use crate::error::Error;
use crate::findings::Finding;
use crate::grow::nodes_of;
use crate::judge::{Judge, finding_of};
use crate::nodes::root_rows;
use crate::places::{Search, Side};
use crate::room::Room;
use crate::trail::trail_of;
use ignore_rules::gitignore::Gitignore;
use std::alloc::Global;

/// What is found of each rule of a list, over all paths.
#[derive(Debug, Drop)]
pub struct Analysis {
    /// What is found of each rule, in their order.
    pub findings: Vec<Finding>,
}

/// What is found of each rule.
fn findings_of(
    alloc: Global,
    reached: &Judge<'_>,
    any: Option<&Judge<'_>>,
) -> Result<Vec<Finding>, Error>
    requires reached { IsOver true reached.now.rules.now.rules reached.now }
    requires any { IfSome any (λ other. IsOver false reached.now.rules.now.rules other.now) }
    ensures { IfOk result (λ findings. AreRightFindings reached.now.rules.now.rules findings.items) }
{
    let mut findings = Vec::new(alloc);
    for index in 0..reached.rules.len() {
        let finding = finding_of(reached, any, index)?;
        findings.push(finding)?;
    }
    Ok(findings)
}

impl Analysis {
    /// For each rule, whether it can decide at all: over all clean relative paths, asked of the
    /// rules at their root. At most `limit` states are found, of tables and searches together, of
    /// which each takes some bytes for each letter: intervals of characters that all rules treat
    /// alike.
    ///
    /// # Errors
    /// `Error::TooLarge` where the tables or the search over reached paths need more states;
    /// `Error::Memory`; and `Error::Rejected`, which is never a guess, where what was found isn't
    /// accepted by its check.
    pub fn of(alloc: Global, rules: &Gitignore, limit: usize) -> Result<Analysis, Error>
        ensures { IfOk result (λ analysis. AreRightFindings rules.now.rules analysis.findings.items) }
    {
        if rules.is_empty() {
            return Ok(Analysis {
                findings: Vec::new(alloc),
            });
        }
        let mut room = Room::new(limit);
        let (none, _) = rules.rules().split_at(0);
        let alphabet = alphabet_of(alloc, rules.rules(), none)?;
        let nodes = nodes_of(alloc, rules.rules(), &alphabet.letters, &mut room)?;
        let Some(rows) = root_rows(rules.rules(), &alphabet.letters, &nodes)? else {
            return Err(Error::Rejected);
        };
        let search = Search {
            reached: true,
            both: false,
            left: Side {
                rules: rules.rules(),
                rows,
            },
            right: Side { rules: none, rows },
            letters: &alphabet.letters,
        };
        let trail = trail_of(alloc, &search, &mut room)?;
        let reached = Judge {
            alloc,
            rules,
            search,
            trail,
        };
        if reached.are_all_decided() {
            let findings = findings_of(alloc, &reached, None)?;
            return Ok(Analysis { findings });
        }
        let any = reached.anywhere(&mut room)?;
        let findings = findings_of(alloc, &reached, any.as_ref())?;
        Ok(Analysis { findings })
    }
}
