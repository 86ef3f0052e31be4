//! What dependents need beside the surface.
ghost use Rattle.std.specs.Prelude.{◌≡◌, IfOk, OnErr, Result, option_map};
ghost use Rattle.std.specs.Str.{chars};
ghost use Rattle.ignore_base.specs.Problem.{problem_of};
ghost use Rattle.ignore_files.specs.declared.types.Contents.{Contents};
ghost use Rattle.ignore_files.specs.declared.types.Refusal.{Refusal};
ghost use Rattle.ignore_files.specs.Gives.{IsHonest};
ghost use Rattle.ignore_files.specs.Tree.{Tree};
ghost use Rattle.ignore_rules.specs.Answer.{does_apply};
ghost use Rattle.ignore_rules.specs.RuleFile.{AddsAnswer, AddsFile};
ghost use Rattle.ignore_rules.specs.Rules.{begun, with_case_insensitive};

use crate::gitignore::{GitignoreBuilder, Glob};
use ignore_base::Error;
use ignore_files::Files;
use ignore_files::internal::answered;
use ignore_glob::internal::Automaton;
use ignore_set::HasPattern;
use std::alloc::{AllocError, Global};

/// The automaton of a rule's glob, for what has to go over all texts.
pub fn automaton(rule: &Glob) -> Result<Automaton, AllocError>
    ensures { IfOk result (λ automaton. automaton ≡ rule.now.reading) }
{
    ignore_glob::internal::automaton(rule.pattern())
}

/// Whether a rule applies to a path, as it is left when the root is stripped: its glob matches it,
/// and a rule for directories only is asked of a directory.
pub fn applies(rule: &Glob, stripped: &str, is_dir: bool) -> Result<bool, AllocError>
    ensures { IfOk result (λ yes. yes ≡ does_apply (chars stripped.now) is_dir rule.now) }
{
    rule.applies(stripped, is_dir)
}

/// As `GitignoreBuilder::new` and then `case_insensitive`, with the error of a failed allocation.
pub fn begun(
    alloc: Global,
    root: &str,
    case_insensitive: bool,
) -> Result<GitignoreBuilder, AllocError>
    ensures { IfOk result (λ b. b ≡ with_case_insensitive (begun root.now) case_insensitive) }
{
    GitignoreBuilder::begun(alloc, root, case_insensitive)
}

/// As `GitignoreBuilder::add`, with the error of a failed allocation.
pub fn add<F: Files>(
    builder: &mut GitignoreBuilder,
    files: &F,
    path: &str,
) -> Result<Option<Error>, AllocError>
    ensures added { (tree : Tree) → IsHonest F.Files files.now tree
        → IfOk result (λ problem. AddsFile tree path.now builder.old builder.new (option_map problem_of problem)) }
    ensures answered { IfOk result (λ problem. (answer : Result Contents Refusal) × F.contents_gives files.now path.now answer
        × AddsAnswer path.now answer builder.old builder.new (option_map problem_of problem)) }
    ensures unchanged { OnErr result (builder.new ≡ builder.old) }
{
    match answered(files.contents(builder.allocator(), path))? {
        Ok(contents) => builder.add_contents(path, &contents),
        Err(fault) => {
            let error = Error::from(fault).with_path(builder.allocator(), path)?;
            Ok(Some(error))
        }
    }
}
