//! Whether tables are right, each by those before it.
ghost use Rattle.std.specs.Prelude.{◌≡◌, ℕ, List, IsTrue, IfOk, IfSome, None, Some, false, length, slice_get, true};
ghost use Rattle.ignore_rules.specs.Rules.{Rule};
ghost use Rattle.ignore_every.specs.Machines.{IsRightTable};
ghost use Rattle.ignore_every.specs.Rows.{decider_of, table_of};
ghost use Rattle.ignore_every.specs.Trees.{AreRightBelow, IsRightNode, IsRuleAt};

use crate::leaf::{Leaf, LeafRule};
use crate::node::{Branch, Made, Node};
use crate::pair::Pair;
use crate::row::{Row, decider_of};
use ignore_rules::gitignore::Glob;
use ignore_rules::internal::automaton;
use std::alloc::AllocError;

/// The rule with this index, for its table.
fn rule_at(rules: &[Glob], index: usize) -> Result<Option<LeafRule>, AllocError>
    ensures { IfOk result (λ found. IfSome found (λ rule. IsRuleAt rules.now index rule)) }
{
    match rules.get(index) {
        Some(glob) => {
            let automaton = automaton(glob)?;
            Ok(Some(LeafRule {
                index,
                is_only_dir: glob.is_only_dir(),
                automaton,
            }))
        }
        None => Ok(None),
    }
}

/// Whether no rule decides at the first state for a kind of entry.
fn is_undecided(rows: &[Row], is_dir: bool) -> bool
    ensures { IsTrue result → decider_of rows.now 0 is_dir ≡ Some None }
{
    match decider_of(rows, 0, is_dir) {
        Some(decider) => decider.is_none(),
        None => false,
    }
}

/// Whether a table is right for no rules: it has one state, and there no rule decides.
fn is_none_right(low: usize, high: usize, rows: &[Row]) -> bool
    ensures { IsTrue result → (rules : List Rule) (letters : List ℕ) → IsRightTable rules letters low high (table_of rows.now) }
{
    if low != high {
        return false;
    }
    if rows.len() > 1 {
        return false;
    }
    if !is_undecided(rows, false) {
        return false;
    }
    is_undecided(rows, true)
}

/// Whether a table of sets is right for the rule of its index.
fn is_leaf_right(
    rules: &[Glob],
    letters: &[char],
    low: usize,
    high: usize,
    leaf: &Leaf,
) -> Result<bool, AllocError>
    ensures { IfOk result (λ right. IsTrue right → IsRightTable rules.now letters.now low high (table_of leaf.now.rows.items)) }
{
    if high == 0 {
        return Ok(false);
    }
    if high - 1 != low {
        return Ok(false);
    }
    let found = rule_at(rules, low)?;
    let Some(rule) = found else {
        return Ok(false);
    };
    let is_right = leaf.is_right(letters, &rule)?;
    Ok(is_right)
}

/// Whether a table of pairs is right, where the tables that it is of are.
fn is_pair_right(left: &Node, right: &Node, low: usize, high: usize, pair: &Pair) -> bool
    ensures { IsTrue result → (rules : List Rule) (letters : List ℕ) → IsRightNode rules letters left.now
        → IsRightNode rules letters right.now → IsRightTable rules letters low high (table_of pair.now.rows.items) }
{
    if left.low != low {
        return false;
    }
    if left.high != right.low {
        return false;
    }
    if right.high != high {
        return false;
    }
    if low > left.high {
        return false;
    }
    if left.high > high {
        return false;
    }
    pair.is_right(left.rows(), right.rows())
}

/// The table with this number, if there is one.
fn node_at(nodes: &[Node], number: usize) -> Option<&Node>
    ensures { IfSome result (λ node. slice_get nodes.now number ≡ Some node.now) }
{
    nodes.get(number)
}

/// Whether a table of pairs is right, where the tables before it are.
fn is_branch_right(nodes: &[Node], number: usize, low: usize, high: usize, branch: &Branch) -> bool
    ensures { IsTrue result → (rules : List Rule) (letters : List ℕ) → AreRightBelow rules letters nodes.now number
        → IsRightTable rules letters low high (table_of branch.now.pair.rows.items) }
{
    if branch.left >= number {
        return false;
    }
    if branch.right >= number {
        return false;
    }
    let Some(left) = node_at(nodes, branch.left) else {
        return false;
    };
    let Some(right) = node_at(nodes, branch.right) else {
        return false;
    };
    is_pair_right(left, right, low, high, &branch.pair)
}

/// Whether a table is right, where those before it are.
fn is_node_right(
    rules: &[Glob],
    letters: &[char],
    nodes: &[Node],
    number: usize,
    node: &Node,
) -> Result<bool, AllocError>
    ensures { IfOk result (λ right. IsTrue right → AreRightBelow rules.now letters.now nodes.now number
        → IsRightNode rules.now letters.now node.now) }
{
    match &node.made {
        Made::OfNone(rows) => Ok(is_none_right(node.low, node.high, rows)),
        Made::OfRule(leaf) => is_leaf_right(rules, letters, node.low, node.high, leaf),
        Made::OfTwo(branch) => Ok(is_branch_right(nodes, number, node.low, node.high, branch)),
    }
}

/// Whether all these tables are right.
fn are_nodes_right(rules: &[Glob], letters: &[char], nodes: &[Node]) -> Result<bool, AllocError>
    ensures { IfOk result (λ right. IsTrue right → AreRightBelow rules.now letters.now nodes.now (length nodes.now)) }
{
    for (number, node) in nodes.iter().enumerate() {
        let is_right = is_node_right(rules, letters, nodes, number, node)?;
        if !is_right {
            return Ok(false);
        }
    }
    Ok(true)
}

/// The states of the last table, where it is right for all rules.
pub(crate) fn root_rows<'a>(
    rules: &[Glob],
    letters: &[char],
    nodes: &'a [Node],
) -> Result<Option<&'a [Row]>, AllocError>
    ensures { IfOk result (λ root. IfSome root (λ rows. IsRightTable rules.now letters.now 0 (length rules.now) (table_of rows.now))) }
{
    if !are_nodes_right(rules, letters, nodes)? {
        return Ok(None);
    }
    let Some(root) = nodes.last() else {
        return Ok(None);
    };
    if root.low != 0 || root.high != rules.len() {
        return Ok(None);
    }
    Ok(Some(root.rows()))
}
