//! The pass over a text: in one machine word where the glob fits it, else by flags.
ghost use Rattle.std.specs.Prelude.{◌≡◌, ◌≢◌, ◌-◌, ◌^◌, ◌↔◌, ℕ, IsTrue, IfOk, IsOk, None, length, min};
ghost use Rattle.std.specs.Str.{chars};
ghost use Rattle.ignore_glob.specs.Nodes.{Marked};
ghost use Rattle.ignore_glob.specs.Flags.{AllLeadOn, Count};
ghost use Rattle.ignore_glob.specs.NodeLists.{nodes_view};
ghost use Rattle.ignore_glob.specs.Words.{word_of};

use crate::glob::marks;
use crate::glob::node::Node;
use crate::glob::word::Masks;
use std::alloc::{AllocError, Global};

/// Whether the text is matched.
pub fn matches(
    alloc: Global,
    fold: bool,
    nodes: &[Node],
    masks: Option<Masks>,
    text: &str,
) -> Result<bool, AllocError>
    requires masks { masks ≡ word_of (nodes_view nodes.now) }
    requires on { AllLeadOn (nodes_view nodes.now) }
    ensures matched { IfOk result (λ yes. IsTrue yes
        ↔ Marked fold (nodes_view nodes.now) (chars text.now) (length (chars text.now)) (length nodes.now)) }
    ensures succeeds { masks ≢ None → IsOk result }
{
    match masks {
        Some(masks) => Ok(masks.matches(fold, nodes, text)),
        None => {
            let (yes, _) = marks::matches_counted(alloc, fold, nodes, text)?;
            Ok(yes)
        }
    }
}

/// Whether the text is matched, and how many marks there are.
pub fn matches_counted(
    alloc: Global,
    fold: bool,
    nodes: &[Node],
    masks: Option<Masks>,
    text: &str,
) -> Result<(bool, u64), AllocError>
    requires masks { masks ≡ word_of (nodes_view nodes.now) }
    requires on { AllLeadOn (nodes_view nodes.now) }
    ensures matched { IfOk result (λ found. IsTrue found.0
        ↔ Marked fold (nodes_view nodes.now) (chars text.now) (length (chars text.now)) (length nodes.now)) }
    ensures count { IfOk result (λ found. (n : ℕ) × Count fold (nodes_view nodes.now) (chars text.now) (length (chars text.now)) n
        × (found.1 ≡ min n (2 ^ 64 - 1))) }
    ensures succeeds { masks ≢ None → IsOk result }
{
    match masks {
        Some(masks) => Ok(masks.matches_counted(fold, nodes, text)),
        None => marks::matches_counted(alloc, fold, nodes, text),
    }
}
