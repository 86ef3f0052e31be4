//! Laws of parsing globs, each as the contract of a function that does nothing.
ghost use Rattle.std.specs.Prelude.{◌≡◌, ◌⊎◌, ◌↔◌, ◌+◌, ◌*◌, ◌≤◌, ℕ, Bool, List, Result, length, map, IsTrue};
ghost use Rattle.ignore_base.specs.Text.{Chars};
ghost use Rattle.ignore_glob.specs.Lexing.{Lexeme, Lexed};
ghost use Rattle.ignore_glob.specs.Glob.{Tokens};
ghost use Rattle.ignore_glob.specs.Matches.{glob_matches};
ghost use Rattle.ignore_glob.specs.Positions.{first, the_end, Entry, table, positions, IsMarked, HasNoDuplicates, CountsMarks};
ghost use Rattle.ignore_glob.specs.DoesMatch.{does_match};
ghost use Rattle.ignore_glob.specs.Reading.{Reading, Matches};
ghost use Rattle.ignore_glob.specs.Row.{Reads, IsFaulty};
ghost use Rattle.ignore_glob.specs.declared.glob.options.Options.{Options};
ghost use Rattle.ignore_glob.specs.declared.glob.fault.GlobFault.{GlobFault};

/// A text lexes to exactly one row of lexemes, or to exactly one error, never both.
pub fn one_outcome()
    ensures one { (o : Options) (text : Chars) → (out : Result (List Lexeme) GlobFault) × Lexed o 0 text out }
    ensures same { (o : Options) (text : Chars) (a b : Result (List Lexeme) GlobFault) → Lexed o 0 text a → Lexed o 0 text b → a ≡ b }
{}

/// A text parses to exactly one list of tokens or to exactly one error, never both, for all
/// options.
pub fn one_reading()
    ensures some { (o : Options) (text : Chars) → ((ts : Tokens) × Reads o text ts) ⊎ ((f : GlobFault) × IsFaulty o text f) }
    ensures one { (o : Options) (text : Chars) (ts us : Tokens) → Reads o text ts → Reads o text us → ts ≡ us }
    ensures one_fault { (o : Options) (text : Chars) (f g : GlobFault) → IsFaulty o text f → IsFaulty o text g → f ≡ g }
    ensures never_both { (o : Options) (text : Chars) (ts : Tokens) (f : GlobFault) → Reads o text ts → IsFaulty o text f → ⊥ }
{}

/// The test of matching is true exactly where a pattern matches the text.
pub fn matching_is_decided()
    ensures { (reading : Reading) (text : Chars) → IsTrue (does_match reading text) ↔ Matches reading text }
{}

/// A glob matches a text exactly where its end is marked at the end of the text.
pub fn matching_is_a_mark()
    ensures { (fold : Bool) (ts : Tokens) (text : Chars) → (glob_matches fold ts text ↔ IsMarked fold ts text the_end (length text)) }
{}

/// The number of marks of a text is one number: at least one, at least one for each offset where
/// the glob matches, and at most one for each position, the end among them, and each offset.
pub fn marks_are_bounded()
    ensures one { (fold : Bool) (ts : Tokens) (text : Chars) (n m : ℕ) → CountsMarks fold ts text n → CountsMarks fold ts text m → n ≡ m }
    ensures least { (fold : Bool) (ts : Tokens) (text : Chars) (n : ℕ) → CountsMarks fold ts text n → 1 ≤ n }
    ensures matched { (fold : Bool) (ts : Tokens) (text : Chars) (n : ℕ) → CountsMarks fold ts text n → glob_matches fold ts text
        → length text + 1 ≤ n }
    ensures most { (fold : Bool) (ts : Tokens) (text : Chars) (n : ℕ) → CountsMarks fold ts text n
        → n ≤ (positions ts + 1) * (length text + 1) }
{}

/// The positions of a glob differ from each other, and are at most as many as its characters.
pub fn positions_are_bounded()
    ensures differ { (ts : Tokens) → HasNoDuplicates (map (λ (e : Entry). e.0) (table ts first the_end)) }
    ensures most { (o : Options) (text : Chars) (ts : Tokens) → Reads o text ts → positions ts ≤ length text }
{}
