//! A glob compiled to its nodes, which are passed over for each text.
ghost use Rattle.std.specs.Prelude.{◌≡◌, ◌-◌, ◌^◌, ◌≤◌, ◌↔◌, ◌++◌, ◌∷◌, [], ℕ, false, IsTrue, IsOk, IfOk, IfSome, List};
ghost use Rattle.std.specs.Prelude.{map, min, string_bytes};
ghost use Rattle.std.specs.Coded.{Coded-set, coded_list, coded_option};
ghost use Rattle.std.specs.Str.{chars, IsUtf8};
ghost use Rattle.ignore_base.specs.Text.{Chars};
ghost use Rattle.ignore_glob.specs.DoesMatch.{does_match};
ghost use Rattle.ignore_glob.specs.Ends.{HasParent};
ghost use Rattle.ignore_glob.specs.Forms.{key_form, form_of};
ghost use Rattle.ignore_glob.specs.Positions.{CountsMarks, positions};
ghost use Rattle.ignore_glob.specs.Needles.{HasOneOf};
ghost use Rattle.ignore_glob.specs.NodeLists.{glob_nodes, node_code, nodes_view};
ghost use Rattle.ignore_glob.specs.PositionSets.{IsSetAfter, AreAlike, tested_ranges};
ghost use Rattle.ignore_glob.specs.Reading.{Matches};
ghost use Rattle.ignore_glob.specs.View.{tokens_view};
ghost use Rattle.ignore_glob.specs.Words.{has_braces, masks_code, word_of};

use crate::glob::copies::copied;
use crate::glob::flags::Flags;
use crate::glob::key::{Key, key_of};
use crate::glob::marks::first_marks;
use crate::glob::needle::{anything, needles_of};
use crate::glob::node::Node;
use crate::glob::nodes::nodes_of;
use crate::glob::parent::parent_of;
use crate::glob::pass;
use crate::glob::sets::{ranges_of, step_alike, step_evenly, stepped};
use crate::glob::token::Token;
use crate::glob::word::{Masks, word_of};
use std::alloc::AllocError;
use std::marker::Model;

/// The tokens of a glob with its nodes, and their masks where they fit a word.
#[derive(Debug, Drop)]
pub struct Automaton {
    tokens: Vec<Token>,
    nodes: Vec<Node>,
    masks: Option<Masks>,
    case_insensitive: bool,
    ghost compiled: { nodes_view nodes.items ≡ glob_nodes (tokens_view tokens.items) } by { Coded-set (coded_list node_code) _ _ },
    ghost masked: { masks ≡ word_of (nodes_view nodes.items) } by { Coded-set (coded_option masks_code) _ _ },
}

impl Model for Automaton {
    ghost use Rattle.ignore_glob.specs.Reading.{Reading};
    ghost use Rattle.ignore_glob.specs.Codes.{reading_code};

    ghost Value = { Reading };

    ghost coded = { reading_code };

    ghost use Rattle.ignore_glob.specs.View.{tokens_view};

    ghost view = { λ p. record { tokens = tokens_view p.tokens.items; case_insensitive = p.case_insensitive } };
}

impl Automaton {
    /// The automaton of these tokens; `case_insensitive` makes it match both ASCII cases.
    pub(crate) fn from_tokens(
        tokens: Vec<Token>,
        case_insensitive: bool,
    ) -> Result<Automaton, AllocError>
        ensures { IfOk result (λ p. p ≡ record { tokens = tokens_view tokens.items; case_insensitive = case_insensitive }) }
    {
        let nodes = nodes_of(*tokens.allocator(), &tokens)?;
        let mut tokens = tokens;
        tokens.shrink_to_fit();
        let masks = word_of(&nodes);
        Ok(Automaton {
            tokens,
            nodes,
            masks,
            case_insensitive,
        })
    }

    /// Whether the glob matches the whole text.
    pub(crate) fn matches(&self, text: &str) -> Result<bool, AllocError>
        ensures value { IfOk result (λ yes. IsTrue yes ↔ Matches self.now (chars text.now)) }
        ensures succeeds { has_braces self.now.tokens ≡ false → positions self.now.tokens ≤ 62 → IsOk result }
    {
        let alloc = *self.nodes.allocator();
        Ok(pass::matches(alloc, self.case_insensitive, &self.nodes, self.masks, text)?)
    }

    /// As `matches`, with the number of marks, which stops at `u64::MAX`.
    pub(crate) fn matches_counted(&self, text: &str) -> Result<(bool, u64), AllocError>
        ensures value { IfOk result (λ found. IsTrue found.0 ↔ Matches self.now (chars text.now)) }
        ensures counted { IfOk result (λ found. (n : ℕ) × CountsMarks self.now.case_insensitive self.now.tokens (chars text.now) n
            × (found.1 ≡ min n (2 ^ 64 - 1))) }
        ensures succeeds { has_braces self.now.tokens ≡ false → positions self.now.tokens ≤ 62 → IsOk result }
    {
        let alloc = *self.nodes.allocator();
        Ok(pass::matches_counted(alloc, self.case_insensitive, &self.nodes, self.masks, text)?)
    }

    /// The set of positions that the empty text leads to, as a flag for each position.
    pub fn begin(&self) -> Result<Flags, AllocError>
        ensures { IfOk result (λ set. IsSetAfter self.now [] set.all.items) }
    {
        first_marks(*self.nodes.allocator(), &self.nodes)
    }

    /// The set that a text and one more character lead to, where `set` is the one that the text
    /// leads to.
    pub fn step(&self, set: &Flags, c: char) -> Result<Flags, AllocError>
        ensures { (text : Chars) → IsSetAfter self.now text set.now.all.items
            → IfOk result (λ next. IsSetAfter self.now (text ++ c ∷ []) next.all.items) }
    {
        stepped(
            *self.nodes.allocator(),
            self.case_insensitive,
            &self.nodes,
            set,
            c,
        )
    }

    /// Whether the glob matches a text that leads to this set.
    pub fn ends(&self, set: &Flags) -> bool
        ensures { (text : Chars) → IsSetAfter self.now text set.now.all.items → result ≡ does_match self.now text }
    {
        let end = self.nodes.len();
        end < set.all.len() && set.has(end)
    }

    /// Whether both characters lead to the same set after each text: all tests of the pattern answer
    /// them alike.
    pub fn are_alike(&self, c: char, d: char) -> bool
        ensures { IsTrue result → AreAlike self.now c d }
    {
        step_alike(self.case_insensitive, &self.nodes, c, d)
    }

    /// Whether all characters from `from` to `to` lead to the same set after each text. Of more than
    /// one character it is told only where none is ASCII.
    pub fn is_even(&self, from: char, to: char) -> bool
        ensures { IsTrue result → (c : ℕ) → from ≤ c → c ≤ to → AreAlike self.now from c }
    {
        step_evenly(self.case_insensitive, &self.nodes, from, to)
    }

    /// The ranges of characters that the pattern tests for, a literal as a range of one, in the order
    /// of writing.
    pub fn tested_ranges(&self) -> Result<Vec<(char, char)>, AllocError>
        ensures { IfOk result (λ ranges. ranges.items ≡ tested_ranges self.now) }
    {
        ranges_of(*self.nodes.allocator(), &self.nodes)
    }

    /// How many positions the glob has.
    pub(crate) fn positions(&self) -> usize
        ensures { result ≡ positions self.now.tokens }
    {
        self.nodes.len()
    }

    /// The text by which the pattern can be looked up, if it has a form for that.
    pub(crate) fn key(&self) -> Result<Key, AllocError>
        ensures { IfOk result (λ key. key_form key ≡ form_of self.now) }
    {
        if self.case_insensitive {
            Ok(Key::Other)
        } else {
            key_of(*self.tokens.allocator(), &self.tokens)
        }
    }

    /// Texts, one of which is in each text that the pattern matches; where none is known, or case is
    /// folded, the empty text alone.
    pub(crate) fn needles(&self) -> Result<Vec<String>, AllocError>
        ensures { IfOk result (λ needles. (text : List ℕ) → IsUtf8 text → Matches self.now (chars text)
            → HasOneOf (map string_bytes needles.items) text) }
    {
        let alloc = *self.tokens.allocator();
        if self.case_insensitive {
            anything(alloc)
        } else {
            needles_of(alloc, &self.tokens)
        }
    }

    /// The parent of all texts that the pattern matches, where one is known.
    pub(crate) fn parent(&self) -> Result<Option<String>, AllocError>
        ensures { IfOk result (λ found. IfSome found (λ parent. (text : List ℕ) → IsUtf8 text → Matches self.now (chars text)
            → HasParent (string_bytes parent) text)) }
    {
        if self.case_insensitive {
            Ok(None)
        } else {
            parent_of(*self.tokens.allocator(), &self.tokens)
        }
    }
}

impl Clone for Automaton {
    ghost use Rattle.std.specs.Prelude.{◌≡◌};

    ghost is_clone = { λ p q. q ≡ p };

    fn clone(&self) -> Result<Automaton, AllocError> {
        let tokens = copied(&self.tokens)?;
        Automaton::from_tokens(tokens, self.case_insensitive)
    }
}
