//! Matchers of single paths.
ghost use Rattle.std.specs.Prelude.{◌≡◌, All, IfOk, IfErr, length};
ghost use Rattle.ignore_base.specs.Problem.{problem_of, memory};
ghost use Rattle.ignore_files.specs.Gives.{IsHonest};
ghost use Rattle.ignore_files.specs.Tree.{Tree};
ghost use Rattle.ignore_dir.specs.Scene.{QueryScene};
ghost use Rattle.ignore_query.specs.Agrees.{Agrees};
ghost use Rattle.ignore_query.specs.Fresh.{KeepsNothing};
ghost use Rattle.ignore.specs.Matchers.{AreMatchers, AreMatchersBy};

use crate::builder::WalkBuilder;
use ignore_base::Error;
use ignore_files::{Env, Files};
use ignore_query::IncrementalIgnore;
use ignore_query::laws::nothing_kept;

impl WalkBuilder {
    /// A matcher of single paths for each root, in the order of the roots, which keeps nothing yet.
    /// The global file is read now, and what is wrong with it isn't reported. `normalize` of a
    /// matcher goes by the working directory of `env`, never by that of `current_dir`. Over any files
    /// the rules from outside are by answers that the files gave.
    ///
    /// # Errors
    /// `Error::Memory` alone.
    pub fn build_matchers<F: Files>(
        &self,
        files: &F,
        env: &Env,
    ) -> Result<Vec<IncrementalIgnore>, Error>
        ensures read { (tree : Tree) → IsHonest F.Files files.now tree
            → IfOk result (λ ms. AreMatchers tree env.now self.now.options ms.items) }
        ensures answered { IfOk result (λ ms. AreMatchersBy (F.contents_gives files.now) env.now self.now.options ms.items) }
        ensures fresh { (g : QueryScene) → IfOk result (λ ms. All (λ m. Agrees g m.cache) ms.items) }
        ensures empty { IfOk result (λ ms. All (λ m. KeepsNothing m.cache) ms.items) }
        ensures counted { IfOk result (λ ms. length ms.items ≡ length self.now.options.roots) }
        ensures out_of_memory { IfErr result (λ e. problem_of e ≡ memory) }
    {
        nothing_kept();
        let outside = self.options.outside(files, env)?;
        Ok(self.options.matchers_by(&outside, env)?)
    }
}
