//! Sets of positions, a character at a time.
ghost use Rattle.std.specs.Prelude.{◌≡◌, ◌≤◌, ◌++◌, ◌∷◌, [], ℕ, IsTrue, IfOk};
ghost use Rattle.ignore_base.specs.Text.{Chars};
ghost use Rattle.ignore_glob.specs.Flags.{AllLeadOn};
ghost use Rattle.ignore_glob.specs.NodeLists.{node_view, nodes_view};
ghost use Rattle.ignore_glob.specs.PositionSets.{AreLastMarks, StepAlike, AllStepAlike, are_even, node_ranges, nodes_ranges};

use crate::glob::flags::Flags;
use crate::glob::marks::advance;
use crate::glob::member::{is_case_of, is_member};
use crate::glob::node::Node;
use std::alloc::{AllocError, Global};

/// The set after a text and one more character, where `set` is the set after the text.
pub(crate) fn stepped(
    alloc: Global,
    fold: bool,
    nodes: &[Node],
    set: &Flags,
    c: char,
) -> Result<Flags, AllocError>
    requires on { AllLeadOn (nodes_view nodes.now) }
    ensures { (text : Chars) → AreLastMarks fold (nodes_view nodes.now) text set.now.all.items
        → IfOk result (λ next. AreLastMarks fold (nodes_view nodes.now) (text ++ c ∷ []) next.all.items) }
{
    let mut next = Flags::new(alloc, nodes.len() + 1)?;
    if set.all.len() != nodes.len() + 1 {
        return Ok(next);
    }
    advance(fold, nodes, set, c, &mut next);
    Ok(next)
}

/// Whether both characters lead from the node to the same positions.
fn node_steps_alike(fold: bool, node: &Node, c: char, d: char) -> bool
    ensures { IsTrue result → StepAlike fold (node_view node.now) c d }
{
    match node {
        Node::Literal(k, _) => is_case_of(fold, *k, c) == is_case_of(fold, *k, d),
        Node::Class(class, _) => is_member(fold, class, c) == is_member(fold, class, d),
        Node::Any(_) | Node::Star(_) | Node::Middle(_) | Node::End(_) | Node::UntilSlash(_) => (c
            == '/')
            == (d == '/'),
        Node::Start(_) | Node::UntilEnd(_) | Node::Fork(_) => true,
    }
}

/// Whether both characters lead from each node to the same positions.
pub(crate) fn step_alike(fold: bool, nodes: &[Node], c: char, d: char) -> bool
    ensures { IsTrue result → AllStepAlike fold (nodes_view nodes.now) c d }
{
    for node in nodes {
        if !node_steps_alike(fold, node, c, d) {
            return false;
        }
    }
    true
}

/// Whether a class has all characters from `from` to `to`, or none of them, by each of its ranges.
fn are_even(ranges: &[(char, char)], from: char, to: char) -> bool
    ensures { result ≡ are_even from to ranges.now }
{
    ranges.iter().all(|range| range.1 < from || to < range.0 || (range.0 <= from && to <= range.1))
}

/// Whether the node tests all characters from `from` to `to` alike; none of them is ASCII.
fn node_steps_evenly(fold: bool, node: &Node, from: char, to: char) -> bool
    requires { 128 ≤ from }
    ensures { IsTrue result → (c : ℕ) → from ≤ c → c ≤ to → StepAlike fold (node_view node.now) from c }
{
    match node {
        Node::Literal(k, _) => *k < from || to < *k,
        Node::Class(class, _) => are_even(&class.ranges, from, to),
        Node::Any(_)
        | Node::Star(_)
        | Node::Start(_)
        | Node::Middle(_)
        | Node::End(_)
        | Node::UntilSlash(_)
        | Node::UntilEnd(_)
        | Node::Fork(_) => true,
    }
}

/// Whether all characters from `from` to `to` lead from each node to the same positions.
pub(crate) fn step_evenly(fold: bool, nodes: &[Node], from: char, to: char) -> bool
    ensures { IsTrue result → (c : ℕ) → from ≤ c → c ≤ to → AllStepAlike fold (nodes_view nodes.now) from c }
{
    if from.is_ascii() {
        return from == to;
    }
    for node in nodes {
        if !node_steps_evenly(fold, node, from, to) {
            return false;
        }
    }
    true
}

/// Appends the ranges that a node tests for.
fn push_ranges(ranges: &mut Vec<(char, char)>, node: &Node) -> Result<(), AllocError>
    ensures { IfOk result (λ _. ranges.new.items ≡ ranges.old.items ++ node_ranges (node_view node.now)) }
{
    match node {
        Node::Literal(k, _) => ranges.push((*k, *k))?,
        Node::Class(class, _) => ranges.extend_from_slice(&class.ranges)?,
        Node::Any(_)
        | Node::Star(_)
        | Node::Start(_)
        | Node::Middle(_)
        | Node::End(_)
        | Node::UntilSlash(_)
        | Node::UntilEnd(_)
        | Node::Fork(_) => {}
    }
    Ok(())
}

/// The ranges that nodes test for.
pub(crate) fn ranges_of(alloc: Global, nodes: &[Node]) -> Result<Vec<(char, char)>, AllocError>
    ensures { IfOk result (λ ranges. ranges.items ≡ nodes_ranges (nodes_view nodes.now)) }
{
    let mut ranges = Vec::new(alloc);
    for node in nodes {
        push_ranges(&mut ranges, node)?;
    }
    Ok(ranges)
}
