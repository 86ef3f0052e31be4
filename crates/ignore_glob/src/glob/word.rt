//! The pass over sets of positions that are one machine word each: for short globs without braces.
ghost use Rattle.std.specs.Prelude.{◌≡◌, ◌<◌, ◌≤◌, ◌+◌, ◌*◌, ◌-◌, ◌^◌, ◌↔◌, ◌⊎◌, ◌∷◌, [], ℕ, suc, IsTrue, Some, length, min};
ghost use Rattle.std.specs.Str.{chars};
ghost use Rattle.ignore_glob.specs.Nodes.{Reached, SteppedTo, Marked};
ghost use Rattle.ignore_glob.specs.Flags.{AllLeadOn, Count};
ghost use Rattle.ignore_glob.specs.NodeLists.{node_view, nodes_view};
ghost use Rattle.ignore_glob.specs.Words.{Has, Tests, TestsAt, Closed, masks, leads_next, is_line, word_of};

use crate::glob::member::{is_case_of, is_member};
use crate::glob::node::Node;

/// Which positions take which steps: a bit for each, the first position's the lowest.
#[derive(Debug, Clone, Copy, Drop)]
pub struct Masks {
    /// To the next position by a character that the node matches.
    tested: u64,
    /// To themselves by all but a slash.
    stars: u64,
    /// To themselves by each character.
    insides: u64,
    /// To the next position by a slash.
    by_slash: u64,
    /// To the next position but one by a slash.
    middles: u64,
    /// To the next position by no character.
    free: u64,
    /// To the next position but one by no character.
    starts: u64,
}

/// Whether the node at `p` leads to the position after it, or after its inside.
fn leads_next(node: &Node, p: usize) -> bool
    requires { p < 62 }
    ensures { result ≡ leads_next (node_view node.now) p }
{
    match node {
        Node::Literal(_, next) => *next == p + 1,
        Node::Any(next) => *next == p + 1,
        Node::Star(next) => *next == p + 1,
        Node::Start(next) => *next == p + 2,
        Node::Middle(next) => *next == p + 2,
        Node::End(next) => *next == p + 2,
        Node::UntilSlash(next) => *next == p + 1,
        Node::UntilEnd(next) => *next == p + 1,
        Node::Class(_, next) => *next == p + 1,
        Node::Fork(_) => false,
    }
}

/// Whether each node leads to the position after it, or after its inside.
fn is_line(nodes: &[Node]) -> bool
    requires { length nodes.now ≤ 62 }
    ensures { result ≡ is_line (nodes_view nodes.now) 0 }
{
    for p in 0..nodes.len() {
        if !leads_next(&nodes[p], p) {
            return false;
        }
    }
    true
}

/// The masks of a glob that fits a word: it has no braces, and at most 62 positions.
pub fn word_of(nodes: &[Node]) -> Option<Masks>
    ensures { result ≡ word_of (nodes_view nodes.now) }
{
    if nodes.len() <= 62 && is_line(nodes) {
        Some(masks_of(nodes))
    } else {
        None
    }
}

fn masks_of(nodes: &[Node]) -> Masks
    requires { length nodes.now ≤ 62 }
    ensures { result ≡ masks (nodes_view nodes.now) }
{
    let mut masks = Masks::none();
    let mut p = nodes.len();
    while p > 0 {
        p -= 1;
        masks = masks.after(Masks::of(&nodes[p]));
    }
    masks
}

impl Masks {
    /// Those of no node.
    fn none() -> Masks
        ensures { result ≡ masks [] }
    {
        Masks {
            tested: 0,
            stars: 0,
            insides: 0,
            by_slash: 0,
            middles: 0,
            free: 0,
            starts: 0,
        }
    }

    /// Those of one node.
    fn of(node: &Node) -> Masks
        ensures { result ≡ masks (node_view node.now ∷ []) }
    {
        let none = Masks::none();
        match node {
            Node::Literal(_, _) => Masks { tested: 1, ..none },
            Node::Any(_) => Masks { tested: 1, ..none },
            Node::Class(_, _) => Masks { tested: 1, ..none },
            Node::Star(_) => Masks {
                stars: 1,
                free: 1,
                ..none
            },
            Node::Start(_) => Masks {
                free: 1,
                starts: 1,
                ..none
            },
            Node::Middle(_) => Masks {
                by_slash: 1,
                middles: 1,
                ..none
            },
            Node::End(_) => Masks {
                by_slash: 1,
                ..none
            },
            Node::UntilSlash(_) => Masks {
                insides: 1,
                by_slash: 1,
                ..none
            },
            Node::UntilEnd(_) => Masks {
                insides: 1,
                free: 1,
                ..none
            },
            Node::Fork(_) => none,
        }
    }

    /// Those of nodes of which the first has `first`, and the others these.
    fn after(self, first: Masks) -> Masks
        requires tested { (first.tested < 2) × (self.tested < 2 ^ 62) }
        requires stars { (first.stars < 2) × (self.stars < 2 ^ 62) }
        requires insides { (first.insides < 2) × (self.insides < 2 ^ 62) }
        requires by_slash { (first.by_slash < 2) × (self.by_slash < 2 ^ 62) }
        requires middles { (first.middles < 2) × (self.middles < 2 ^ 62) }
        requires free { (first.free < 2) × (self.free < 2 ^ 62) }
        requires starts { (first.starts < 2) × (self.starts < 2 ^ 62) }
        ensures { result ≡ record {
          tested = first.tested + 2 * self.tested;
          stars = first.stars + 2 * self.stars;
          insides = first.insides + 2 * self.insides;
          by_slash = first.by_slash + 2 * self.by_slash;
          middles = first.middles + 2 * self.middles;
          free = first.free + 2 * self.free;
          starts = first.starts + 2 * self.starts;
        } }
    {
        Masks {
            tested: first.tested + 2 * self.tested,
            stars: first.stars + 2 * self.stars,
            insides: first.insides + 2 * self.insides,
            by_slash: first.by_slash + 2 * self.by_slash,
            middles: first.middles + 2 * self.middles,
            free: first.free + 2 * self.free,
            starts: first.starts + 2 * self.starts,
        }
    }

    /// All that is reached from these positions by no character.
    fn close(self, set: u64) -> u64
        requires free { self.free < 2 ^ 62 }
        requires starts { self.starts < 2 ^ 62 }
        ensures { (q : ℕ) → Has result q ↔ Closed self set q }
    {
        let mut set = spread(set, self.free);
        loop {
            let more = set | (set & self.starts) << 2;
            if more == set {
                return set;
            }
            set = spread(more, self.free);
        }
    }

    /// The positions to which the character leads from these.
    fn step(self, fold: bool, nodes: &[Node], set: u64, c: char) -> u64
        requires word { word_of (nodes_view nodes.now) ≡ Some self }
        ensures { (q : ℕ) → Has result q ↔ SteppedTo fold (nodes_view nodes.now) (Has set) c q }
    {
        let on = tested(fold, nodes, set & self.tested, c);
        if c == '/' {
            set & self.insides | (on | set & self.by_slash) << 1 | (set & self.middles) << 2
        } else {
            set & self.insides | set & self.stars | on << 1
        }
    }

    /// The positions that are marked past one more character, where those before it are `set`.
    fn advance(self, fold: bool, nodes: &[Node], set: u64, c: char) -> u64
        requires word { word_of (nodes_view nodes.now) ≡ Some self }
        ensures { (q : ℕ) → Has result q
            ↔ Reached (nodes_view nodes.now) (SteppedTo fold (nodes_view nodes.now) (Has set) c) q }
    {
        self.close(self.step(fold, nodes, set, c))
    }

    /// The last position, if it is an inside from which each text leads to the end.
    fn matches_all(self, end: usize) -> u64
        requires { end ≤ 62 }
        ensures { (p : ℕ) → Has result p → Has self.insides p × Has self.free p × (p + 1 ≡ end) }
    {
        if end == 0 {
            return 0;
        }
        self.insides & self.free & 1 << (end - 1)
    }

    /// Whether the text is matched.
    pub fn matches(self, fold: bool, nodes: &[Node], text: &str) -> bool
        requires word { word_of (nodes_view nodes.now) ≡ Some self }
        ensures { IsTrue result
            ↔ Marked fold (nodes_view nodes.now) (chars text.now) (length (chars text.now)) (length nodes.now) }
    {
        let all = self.matches_all(nodes.len());
        let mut here = self.close(1);
        for c in text.chars() {
            if here == 0 {
                return false;
            }
            if here & all != 0 {
                return true;
            }
            here = self.advance(fold, nodes, here, c);
        }
        has(here, nodes.len())
    }

    /// Whether the text is matched, and how many marks there are.
    pub fn matches_counted(self, fold: bool, nodes: &[Node], text: &str) -> (bool, u64)
        requires word { word_of (nodes_view nodes.now) ≡ Some self }
        requires on { AllLeadOn (nodes_view nodes.now) }
        ensures matched { IsTrue result.0
            ↔ Marked fold (nodes_view nodes.now) (chars text.now) (length (chars text.now)) (length nodes.now) }
        ensures count { (n : ℕ) × Count fold (nodes_view nodes.now) (chars text.now) (length (chars text.now)) n
            × (result.1 ≡ min n (2 ^ 64 - 1)) }
    {
        let mut here = self.close(1);
        let mut count = u64::from(here.count_ones());
        for c in text.chars() {
            if here == 0 {
                return (false, count);
            }
            here = self.advance(fold, nodes, here, c);
            count = count.saturating_add(u64::from(here.count_ones()));
        }
        (has(here, nodes.len()), count)
    }
}

/// The set, and what follows each of its free positions without a gap: a sum carries past them.
fn spread(set: u64, free: u64) -> u64
    requires { free < 2 ^ 62 }
    ensures first { Has result 0 ↔ Has set 0 }
    ensures next { (p : ℕ) → Has result (suc p) ↔ (Has set (suc p) ⊎ (Has result p × Has free p)) }
    ensures greater { set ≤ result }
{
    set | ((set & free) + free) ^ free
}

/// Whether the set has the position.
fn has(set: u64, p: usize) -> bool
    requires { p < 64 }
    ensures { IsTrue result ↔ Has set p }
{
    set >> p & 1 == 1
}

/// Whether the node matches the character.
fn tests(fold: bool, node: &Node, c: char) -> bool
    ensures { IsTrue result ↔ Tests fold (node_view node.now) c }
{
    match node {
        Node::Literal(k, _) => is_case_of(fold, *k, c),
        Node::Any(_) => c != '/',
        Node::Class(class, _) => is_member(fold, class, c),
        Node::Star(_)
        | Node::Start(_)
        | Node::Middle(_)
        | Node::End(_)
        | Node::UntilSlash(_)
        | Node::UntilEnd(_)
        | Node::Fork(_) => false,
    }
}

/// Those of these positions whose nodes match the character.
fn tested(fold: bool, nodes: &[Node], set: u64, c: char) -> u64
    requires { (p : ℕ) → Has set p → p < length nodes.now }
    ensures { (p : ℕ) → Has result p ↔ TestsAt fold (nodes_view nodes.now) set c p }
{
    let mut found = 0;
    let mut left = set;
    while left != 0 {
        let p = left.trailing_zeros();
        let bit = 1u64 << p;
        left &= !bit;
        if tests(fold, &nodes[p as usize], c) {
            found |= bit;
        }
    }
    found
}
