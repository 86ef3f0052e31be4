//! A law of what a host tells, as a call that does nothing: its contract is the law.
ghost use Rattle.std.specs.Prelude.{◌≡◌, Err, List, ℕ, true};
ghost use Rattle.ignore_base.specs.declared.fault.Fault.TheVariants.{NotFound};
ghost use Rattle.ignore_files.specs.Tree.{Tree};
ghost use Rattle.ignore_guide.specs.Hosted.{IsGivenOf, IsToldOf};
ghost use Rattle.ignore_guide.specs.Told.{AreOf, IsAlmostFresh, IsFresh, is_lacked, kind_alone};
ghost use Rattle.ignore_guide.specs.declared.hosted.Given.{Given};
ghost use Rattle.ignore_guide.specs.declared.missing.Question.{Question};
ghost use Rattle.ignore_guide.specs.declared.told.Told.{Told};

/// A host that answers by what a tree has has told what this has: at first nothing was told, or only what
/// the names of a directory lack; and each answer keeps it.
pub fn what_is_given_is_of_the_tree()
    ensures at_first { (tree : Tree) (told : Told) → IsFresh told → AreOf tree told }
    ensures lacked { (tree : Tree) (told : Told) → IsAlmostFresh told
        → ((path : List ℕ) → is_lacked told path ≡ true → kind_alone (tree.stat path true) ≡ Err NotFound) → AreOf tree told }
    ensures more { (tree : Tree) (question : Question) (given : Given) (old new : Told) → AreOf tree old → IsGivenOf tree question given
        → IsToldOf question given old new → AreOf tree new }
{}
