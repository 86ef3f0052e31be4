//! The rules of the directories that are kept.
ghost use Rattle.std.specs.Prelude.{◌≡◌, ◌++◌, IfOk, IfErr, OnOk, map};
ghost use Rattle.ignore_base.specs.Problem.{problem_of, memory};
ghost use Rattle.ignore_query.specs.KeptRules.{kept_rules, named_in, rules_in, rules_kept};
ghost use Rattle.ignore_why.specs.Cited.{named_of};

use crate::incremental::IncrementalIgnore;
use crate::kept::{Cache, Kept};
use ignore_base::Error;
use ignore_dir::Dir;
use ignore_dir::laws::steps_are_whole;
use ignore_levels::Level;
use ignore_rules::gitignore::Glob;
use ignore_why::internal::named_rule;
use ignore_why::{NamedRule, RuleRank};
use std::alloc::{AllocError, Global};

/// A rule of the list of a rank in a directory, by name.
fn named_in(alloc: Global, dir: &str, rank: RuleRank, glob: &Glob) -> Result<NamedRule, AllocError>
    ensures { IfOk result (λ rule. named_of rule ≡ named_in dir.now rank glob.now) }
{
    let directory = String::from_str(alloc, dir)?;
    named_rule(alloc, rank, Some(directory), glob)
}

/// Appends the rules of the list of a rank in a directory.
fn push_list(
    rules: &mut Vec<NamedRule>,
    dir: &str,
    rank: RuleRank,
    globs: &[Glob],
) -> Result<(), AllocError>
    ensures { OnOk result (map named_of rules.new.items ≡ map named_of rules.old.items ++ map (named_in dir.now rank) globs.now) }
{
    let alloc = *rules.allocator();
    for glob in globs {
        let rule = named_in(alloc, dir, rank, glob)?;
        rules.push(rule)?;
    }
    Ok(())
}

/// Appends the rules that a directory holds.
fn push_dir(rules: &mut Vec<NamedRule>, path: &str, dir: &Dir) -> Result<(), AllocError>
    ensures { OnOk result (map named_of rules.new.items ≡ map named_of rules.old.items ++ rules_in path.now dir.now) }
{
    push_list(rules, path, RuleRank::Custom, dir.custom.rules())?;
    push_list(rules, path, RuleRank::Ignore, dir.ignore.rules())?;
    push_list(rules, path, RuleRank::Gitignore, dir.gitignore.rules())?;
    push_list(rules, path, RuleRank::Exclude, dir.exclude.rules())
}

impl Cache {
    ghost use Rattle.std.specs.Prelude.{◌+◌, length, string_bytes};
    ghost use Rattle.std.specs.Option.{option_copied};
    ghost use Rattle.std.specs.BTreeMap.{IsOrdered};
    ghost use Rattle.std.specs.String.{string_cmp};
    ghost use Rattle.ignore_query.specs.KeptRules.{own_level};

    /// The level of the directory with this key, where it has one of its own.
    fn own_level(&self, key: &str, kept: Kept) -> Option<&Level>
        ensures { option_copied result ≡ own_level self.now key.now kept }
    {
        let Kept::Loaded(Some(place)) = kept else {
            return None;
        };
        let level = self.levels.level(place)?;
        if level.offset == self.base.len() + key.len() {
            Some(level)
        } else {
            None
        }
    }

    /// Appends the rules of the directory with this key.
    fn push_rules(
        &self,
        rules: &mut Vec<NamedRule>,
        key: &str,
        kept: Kept,
    ) -> Result<(), AllocError>
        ensures { OnOk result (map named_of rules.new.items ≡ map named_of rules.old.items ++ rules_kept self.now key.now kept) }
    {
        let Some(level) = self.own_level(key, kept) else {
            return Ok(());
        };
        let mut path = self.base.clone()?;
        path.push_str(key)?;
        push_dir(rules, path.as_str(), &level.dir)
    }

    /// The rules of all directories that are kept below the root, and of the root.
    fn rules(&self, alloc: Global) -> Result<Vec<NamedRule>, AllocError>
        ensures rules { IfOk result (λ rules. map named_of rules.items ≡ kept_rules self.now) }
        ensures ordered { IsOrdered string_cmp self.now.dirs.map }
    {
        let mut rules = Vec::new(alloc);
        for (key, kept) in self.dirs.map.iter() {
            self.push_rules(&mut rules, key.as_str(), *kept)?;
        }
        Ok(rules)
    }
}

impl IncrementalIgnore {
    ghost use Rattle.std.specs.Prelude.{ℕ, List};
    ghost use Rattle.std.specs.List.{flat_map};
    ghost use Rattle.ignore_dir.specs.Load.{Loaded};
    ghost use Rattle.ignore_files.specs.Tree.{Tree};
    ghost use Rattle.ignore_query.specs.Agrees.{Agrees};
    ghost use Rattle.ignore_query.specs.Forget.{kept_dirs};
    ghost use Rattle.ignore_query.specs.KeptRules.{rules_of};
    ghost use Rattle.ignore_query.specs.Reached.{scene_of};

    /// The rules of the directories that are kept: of the root, and of the directories below it
    /// that questions came through. A directory comes before those below it, and its rules in the
    /// order in which its lists decide: custom files, `.ignore`, `.gitignore`, the exclude file;
    /// those of a list in the order of their lines, of which the last one that matches decides.
    ///
    /// No file is read for it: where nothing was asked yet, there is none. The rules of the
    /// directories above the root aren't among them, nor are the global file's and those of files
    /// that were added by name.
    ///
    /// # Errors
    /// `Error::Memory` alone.
    pub fn rules(&self) -> Result<Vec<NamedRule>, Error>
        ensures loaded { (tree : Tree) (loads : List ℕ → Loaded) → let g = scene_of self.now.asked tree loads in
            Agrees g self.now.cache
            → IfOk result (λ rules. map named_of rules.items ≡ flat_map (rules_of g) (kept_dirs self.now.cache)) }
        ensures rules { IfOk result (λ rules. map named_of rules.items ≡ kept_rules self.now.cache) }
        ensures out_of_memory { IfErr result (λ e. problem_of e ≡ memory) }
    {
        steps_are_whole();
        Ok(self.cache.rules(*self.asked.root.allocator())?)
    }
}
