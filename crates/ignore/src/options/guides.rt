//! Guides, by plain settings.
ghost use Rattle.std.specs.Prelude.{◌≡◌, IfOk, IfErr, None};
ghost use Rattle.ignore_base.specs.Problem.{problem_of, memory};
ghost use Rattle.ignore_files.specs.Gives.{IsHonest};
ghost use Rattle.ignore_files.specs.Tree.{Tree};
ghost use Rattle.ignore_guide.specs.Asking.{first_unread};
ghost use Rattle.ignore_guide.specs.Places.{entered_at};
ghost use Rattle.ignore_guide.specs.declared.places.Place.{Place};
ghost use Rattle.ignore.specs.Asked.{IsOutside, IsOutsideBy};
ghost use Rattle.ignore.specs.AskedNext.{AsksFile, AsksGlobal, AsksNext};

use crate::options::WalkOptions;
use ignore_base::Error;
use ignore_files::{Env, Files, Name};
use ignore_guide::internal::{next_file, next_outside};
use ignore_guide::{Guide, Question, Told};
use std::alloc::AllocError;

impl WalkOptions {
    /// A guide by these settings, without places; the roots don't count. The global file is read now,
    /// where it is asked for, as `WalkBuilder::build_matchers` reads it.
    ///
    /// # Errors
    /// `Error::Memory` alone.
    pub fn guide<F: Files>(&self, files: &F, env: &Env) -> Result<Guide, Error>
        ensures settings { IfOk result (λ g. g.settings ≡ self.now.settings) }
        ensures read { (tree : Tree) → IsHonest F.Files files.now tree
            → IfOk result (λ g. IsOutside tree env.now self.now g.outside) }
        ensures answered { IfOk result (λ g. IsOutsideBy (F.contents_gives files.now) env.now self.now g.outside) }
        ensures empty { IfOk result (λ g. (place : Place) → entered_at g.places place ≡ None) }
        ensures out_of_memory { IfErr result (λ e. problem_of e ≡ memory) }
    {
        let outside = self.outside(files, env)?;
        let settings = self.settings.get().clone()?;
        Ok(Guide::new(self.settings.allocator(), settings, outside))
    }

    /// What a host is to be asked next before the files of rules at these paths can be added, and then
    /// the guide be made, by what it told: those files in their order, and then what leads to git's
    /// global file, and that; nothing where no directory is known that they are relative to. For
    /// dependents.
    ///
    /// # Errors
    /// Out of memory.
    pub fn next_for_guide(
        &self,
        told: &Told,
        env: &Env,
        paths: &[Name],
    ) -> Result<Option<Question>, AllocError>
        ensures { IfOk result (λ q. AsksNext told.now env.now self.now paths.now q) }
    {
        match self.base_dir(env) {
            None => Ok(None),
            Some(_) => self.next_known(told, env, paths),
        }
    }

    /// The same where a directory is known that rules from outside are relative to.
    fn next_known(
        &self,
        told: &Told,
        env: &Env,
        paths: &[Name],
    ) -> Result<Option<Question>, AllocError>
        ensures { IfOk result (λ q. AsksFile told.now env.now self.now.settings.git_global (first_unread told.now paths.now) q) }
    {
        let next = next_file(self.settings.allocator(), told, paths)?;
        match next {
            Some(question) => Ok(Some(question)),
            None => self.next_global(told, env),
        }
    }

    /// What leads to git's global file, where that is asked for.
    fn next_global(&self, told: &Told, env: &Env) -> Result<Option<Question>, AllocError>
        ensures { IfOk result (λ q. AsksGlobal told.now env.now self.now.settings.git_global q) }
    {
        if !self.settings.get().git_global {
            return Ok(None);
        }
        next_outside(self.settings.allocator(), told, env)
    }
}
