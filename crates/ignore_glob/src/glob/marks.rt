//! The pass over sets of positions, for globs of any length: a flag for each position.
ghost use Rattle.std.specs.Prelude.{◌≡◌, ◌<◌, ◌≤◌, ◌+◌, ◌-◌, ◌^◌, ◌↔◌, ◌⊎◌, ℕ, Bool, IsTrue, IfOk, length, min, All, Contains};
ghost use Rattle.std.specs.Str.{chars};
ghost use Rattle.ignore_glob.specs.Nodes.{StepsByNothing, StepsBy, Reached, SteppedTo, Marked};
ghost use Rattle.ignore_glob.specs.Flags.{IsFlagged, LeadsOn, AllLeadOn, AreFlags, Count, StepsAt, StepsAtBy};
ghost use Rattle.ignore_glob.specs.NodeLists.{node_view, nodes_view};

use crate::glob::flags::Flags;
use crate::glob::member::{is_case_of, is_member};
use crate::glob::node::Node;
use std::alloc::{AllocError, Global};

/// Flags what the node at `p` leads to by no character.
fn flag_by_nothing(node: &Node, p: usize, end: usize, flags: &mut Flags)
    requires end { length flags.old.all.items ≡ end + 1 }
    requires within { LeadsOn (node_view node.now) p end }
    ensures len { length flags.new.all.items ≡ length flags.old.all.items }
    ensures flagged { (q : ℕ) → IsFlagged flags.new.all.items q
        ↔ (IsFlagged flags.old.all.items q ⊎ StepsByNothing (node_view node.now) p q) }
{
    match node {
        Node::Star(next) => flags.set(*next),
        Node::UntilEnd(next) => flags.set(*next),
        Node::Start(next) => {
            flags.set(p + 1);
            flags.set(*next);
        }
        Node::Fork(firsts) => flag_all(flags, firsts),
        Node::Literal(_, _)
        | Node::Any(_)
        | Node::Middle(_)
        | Node::End(_)
        | Node::UntilSlash(_)
        | Node::Class(_, _) => {}
    }
}

fn flag_all(flags: &mut Flags, positions: &[usize])
    requires { All (λ q. q < length flags.old.all.items) positions.now }
    ensures len { length flags.new.all.items ≡ length flags.old.all.items }
    ensures flagged { (p : ℕ) → IsFlagged flags.new.all.items p ↔ (IsFlagged flags.old.all.items p ⊎ Contains positions.now p) }
{
    let mut rest = positions;
    while let Some((first, more)) = rest.split_first() {
        flags.set(*first);
        rest = more;
    }
}

fn close_at(nodes: &[Node], p: usize, flags: &mut Flags)
    requires position { p < length nodes.now }
    requires len { length flags.old.all.items ≡ length nodes.now + 1 }
    requires on { AllLeadOn (nodes_view nodes.now) }
    ensures len { length flags.new.all.items ≡ length flags.old.all.items }
    ensures flagged { (q : ℕ) → IsFlagged flags.new.all.items q
        ↔ (IsFlagged flags.old.all.items q ⊎ StepsAt (nodes_view nodes.now) (IsFlagged flags.old.all.items) p q) }
{
    if flags.has(p) {
        flag_by_nothing(&nodes[p], p, nodes.len(), flags);
    }
}

/// Flags all that is reached by no character.
fn close(nodes: &[Node], flags: &mut Flags)
    requires len { length flags.old.all.items ≡ length nodes.now + 1 }
    requires on { AllLeadOn (nodes_view nodes.now) }
    ensures len { length flags.new.all.items ≡ length flags.old.all.items }
    ensures flagged { (q : ℕ) → IsFlagged flags.new.all.items q ↔ Reached (nodes_view nodes.now) (IsFlagged flags.old.all.items) q }
{
    for p in flags.low..nodes.len() {
        if p >= flags.high {
            return;
        }
        close_at(nodes, p, flags);
    }
}

/// Flags what the node at `p` leads to by the character.
fn flag_by(fold: bool, node: &Node, c: char, p: usize, end: usize, flags: &mut Flags)
    requires end { length flags.old.all.items ≡ end + 1 }
    requires position { p ≤ end }
    requires within { LeadsOn (node_view node.now) p end }
    ensures len { length flags.new.all.items ≡ length flags.old.all.items }
    ensures flagged { (q : ℕ) → IsFlagged flags.new.all.items q
        ↔ (IsFlagged flags.old.all.items q ⊎ StepsBy fold (node_view node.now) c p q) }
{
    match node {
        Node::Literal(k, next) => {
            if is_case_of(fold, *k, c) {
                flags.set(*next);
            }
        }
        Node::Any(next) => {
            if c != '/' {
                flags.set(*next);
            }
        }
        Node::Star(_) => {
            if c != '/' {
                flags.set(p);
            }
        }
        Node::Middle(next) => {
            if c == '/' {
                flags.set(p + 1);
                flags.set(*next);
            }
        }
        Node::End(_) => {
            if c == '/' {
                flags.set(p + 1);
            }
        }
        Node::UntilSlash(next) => {
            flags.set(p);
            if c == '/' {
                flags.set(*next);
            }
        }
        Node::UntilEnd(_) => flags.set(p),
        Node::Class(class, next) => {
            if is_member(fold, class, c) {
                flags.set(*next);
            }
        }
        Node::Start(_) | Node::Fork(_) => {}
    }
}

fn step_at(fold: bool, nodes: &[Node], from: &Flags, c: char, p: usize, flags: &mut Flags)
    requires position { p < length nodes.now }
    requires from { length from.now.all.items ≡ length nodes.now + 1 }
    requires len { length flags.old.all.items ≡ length nodes.now + 1 }
    requires on { AllLeadOn (nodes_view nodes.now) }
    ensures len { length flags.new.all.items ≡ length flags.old.all.items }
    ensures flagged { (q : ℕ) → IsFlagged flags.new.all.items q
        ↔ (IsFlagged flags.old.all.items q ⊎ StepsAtBy fold (nodes_view nodes.now) (IsFlagged from.now.all.items) c p q) }
{
    if from.has(p) {
        flag_by(fold, &nodes[p], c, p, nodes.len(), flags);
    }
}

/// Flags what the flagged positions lead to by the character, and nothing else.
fn step(fold: bool, nodes: &[Node], from: &Flags, c: char, flags: &mut Flags)
    requires from { length from.now.all.items ≡ length nodes.now + 1 }
    requires len { length flags.old.all.items ≡ length nodes.now + 1 }
    requires clear { (q : ℕ) → IsFlagged flags.old.all.items q → ⊥ }
    requires on { AllLeadOn (nodes_view nodes.now) }
    ensures len { length flags.new.all.items ≡ length flags.old.all.items }
    ensures flagged { (q : ℕ) → IsFlagged flags.new.all.items q ↔ SteppedTo fold (nodes_view nodes.now) (IsFlagged from.now.all.items) c q }
{
    for p in from.low..from.high.min(nodes.len()) {
        step_at(fold, nodes, from, c, p, flags);
    }
}

/// The positions that are marked at offset 0.
pub(crate) fn first_marks(alloc: Global, nodes: &[Node]) -> Result<Flags, AllocError>
    requires { AllLeadOn (nodes_view nodes.now) }
    ensures { IfOk result (λ flags. AreFlags (nodes_view nodes.now) (Reached (nodes_view nodes.now) (λ q. q ≡ 0)) flags.all.items) }
{
    let mut flags = Flags::new(alloc, nodes.len() + 1)?;
    flags.set(0);
    close(nodes, &mut flags);
    Ok(flags)
}

/// The positions that are marked past one more character, where those before it are `from`.
pub(crate) fn advance(fold: bool, nodes: &[Node], from: &Flags, c: char, flags: &mut Flags)
    requires on { AllLeadOn (nodes_view nodes.now) }
    requires from { length from.now.all.items ≡ length nodes.now + 1 }
    requires len { length flags.old.all.items ≡ length nodes.now + 1 }
    ensures len { length flags.new.all.items ≡ length nodes.now + 1 }
    ensures flagged { (q : ℕ) → IsFlagged flags.new.all.items q
        ↔ Reached (nodes_view nodes.now) (SteppedTo fold (nodes_view nodes.now) (IsFlagged from.now.all.items) c) q }
{
    flags.clear();
    step(fold, nodes, from, c, flags);
    close(nodes, flags);
}

/// Whether the text is matched, and how many marks there are.
pub fn matches_counted(
    alloc: Global,
    fold: bool,
    nodes: &[Node],
    text: &str,
) -> Result<(bool, u64), AllocError>
    requires on { AllLeadOn (nodes_view nodes.now) }
    ensures matched { IfOk result (λ found. IsTrue found.0
        ↔ Marked fold (nodes_view nodes.now) (chars text.now) (length (chars text.now)) (length nodes.now)) }
    ensures count { IfOk result (λ found. (n : ℕ) × Count fold (nodes_view nodes.now) (chars text.now) (length (chars text.now)) n
        × (found.1 ≡ min n (2 ^ 64 - 1))) }
{
    let mut here = first_marks(alloc, nodes)?;
    let mut next = Flags::new(alloc, nodes.len() + 1)?;
    let mut count = here.count();
    for c in text.chars() {
        if here.is_clear() {
            return Ok((false, count));
        }
        advance(fold, nodes, &here, c, &mut next);
        count = count.saturating_add(next.count());
        let before = here;
        here = next;
        next = before;
    }
    Ok((here.has(nodes.len()), count))
}
