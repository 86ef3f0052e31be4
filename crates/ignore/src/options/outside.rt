//! What a builder reads of the files: files added by name, and the global file.
ghost use Rattle.std.specs.Prelude.{◌≡◌, IfOk, IfErr, option_map};
ghost use Rattle.ignore_base.specs.Problem.{problem_of, memory};
ghost use Rattle.ignore_dir.specs.Load.{started};
ghost use Rattle.ignore_files.specs.Gives.{IsHonest};
ghost use Rattle.ignore_files.specs.Tree.{Tree};
ghost use Rattle.std.specs.Option.{option_copied};
ghost use Rattle.ignore.specs.Asked.{base_dir, explicit_start, IsAnswerOf, IsFileOf, IsGlobal, IsGlobalBy, IsOutside, IsOutsideBy};

use crate::options::WalkOptions;
use ignore_base::Error;
use ignore_dir::Outside;
use ignore_files::{Env, Files};
use ignore_rules::gitignore::{Gitignore, GitignoreBuilder};
use ignore_rules::internal::{add, begun};
use std::alloc::AllocError;

impl WalkOptions {
    /// The rules of a file, relative to a directory, and its error.
    pub(crate) fn explicit_rules<F: Files>(
        &self,
        files: &F,
        dir: &str,
        path: &str,
    ) -> Result<(Gitignore, Option<Error>), AllocError>
        ensures read { (tree : Tree) → IsHonest F.Files files.now tree
            → IfOk result (λ r. IsFileOf tree path.now (explicit_start self.now dir.now) r.0 (option_map problem_of r.1)) }
        ensures answered { IfOk result (λ r. IsAnswerOf (F.contents_gives files.now path.now) path.now
            (explicit_start self.now dir.now) r.0 (option_map problem_of r.1)) }
    {
        let mut builder = begun(self.settings.allocator(), dir, false)?;
        builder.git_trailing_spaces(self.settings.get().git_trailing_spaces);
        let error = add(&mut builder, files, path)?;
        Ok((builder.into_gitignore(), error))
    }

    /// The directory of `current_dir`, or else the working directory, if it is known.
    pub(crate) fn base_dir<'e>(&'e self, env: &'e Env) -> Option<&'e str>
        ensures { option_copied result ≡ base_dir self.now env.now }
    {
        match &self.current_dir {
            Some(dir) => Some(dir.as_str()),
            None => known_dir(env),
        }
    }

    /// The rules from outside of the directories, for a walk or for matchers. The global file is
    /// read now, where it is asked for, relative to the directory of `current_dir`, or else to the
    /// working directory of `env`; where no directory is known, it has no rules. Its errors aren't
    /// reported. Case and trailing spaces are as set.
    ///
    /// # Errors
    /// `Error::Memory` alone.
    pub(crate) fn outside<F: Files>(&self, files: &F, env: &Env) -> Result<Outside, Error>
        ensures read { (tree : Tree) → IsHonest F.Files files.now tree
            → IfOk result (λ o. IsOutside tree env.now self.now o) }
        ensures answered { IfOk result (λ o. IsOutsideBy (F.contents_gives files.now) env.now self.now o) }
        ensures out_of_memory { IfErr result (λ e. problem_of e ≡ memory) }
    {
        let global = self.global_rules(files, env)?;
        Ok(Outside {
            overrides: self.overrides.clone()?,
            types: self.types.clone()?,
            global,
            explicit: self.explicit.clone()?,
        })
    }

    /// The rules of the global file.
    fn global_rules<F: Files>(&self, files: &F, env: &Env) -> Result<Gitignore, Error>
        ensures read { (tree : Tree) → IsHonest F.Files files.now tree
            → IfOk result (λ rules. IsGlobal tree env.now self.now rules) }
        ensures answered { IfOk result (λ rules. IsGlobalBy (F.contents_gives files.now) env.now self.now rules) }
        ensures out_of_memory { IfErr result (λ e. problem_of e ≡ memory) }
    {
        if !self.settings.get().git_global {
            return Ok(Gitignore::empty(self.settings.allocator()));
        }
        match self.base_dir(env) {
            None => Ok(Gitignore::empty(self.settings.allocator())),
            Some(dir) => {
                let builder = self.global_builder(dir)?;
                let (rules, _) = builder.build_global(files, env)?;
                Ok(rules)
            }
        }
    }

    /// A builder for the rules of the global file, relative to a directory.
    fn global_builder(&self, dir: &str) -> Result<GitignoreBuilder, AllocError>
        ensures value { IfOk result (λ b. b ≡ started self.now.settings dir.now) }
    {
        let settings = self.settings.get();
        let mut builder = begun(self.settings.allocator(), dir, settings.case_insensitive)?;
        builder.git_trailing_spaces(settings.git_trailing_spaces);
        Ok(builder)
    }
}

/// The working directory, if it is known.
fn known_dir(env: &Env) -> Option<&str>
    ensures { option_copied result ≡ env.now.current_dir }
{
    match &env.current_dir {
        Some(dir) => Some(dir.as_str()),
        None => None,
    }
}
