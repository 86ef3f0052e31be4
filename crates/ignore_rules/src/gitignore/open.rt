//! Matchers of whole files.
ghost use Rattle.std.specs.Prelude.{◌≡◌, IfOk, IfErr, option_map, Result};
ghost use Rattle.ignore_files.specs.declared.types.Contents.{Contents};
ghost use Rattle.ignore_files.specs.declared.types.Refusal.{Refusal};
ghost use Rattle.ignore_files.specs.Gives.{IsHonest};
ghost use Rattle.ignore_files.specs.Tree.{Tree};
ghost use Rattle.ignore_base.specs.Problem.{problem_of, memory};
ghost use Rattle.ignore_base.specs.Paths.{folder_of};
ghost use Rattle.ignore_rules.specs.Matchers.{IsMatcherOf, BuildsFile, BuildsAnswer};
ghost use Rattle.ignore_rules.specs.Rules.{begun};

use crate::gitignore::builder::GitignoreBuilder;
use crate::gitignore::matcher::Gitignore;
use crate::internal;
use ignore_base::Error;
use ignore_base::text::folder_of;
use ignore_files::Files;
use std::alloc::{AllocError, Global};

impl Gitignore {
    /// The matcher of one file of rules, relative to the directory of the file, and the errors of
    /// the file, as `GitignoreBuilder::add` reports them. The directory is what precedes the last
    /// `/` of the path: the empty text without a `/`, and `/` for a path directly below it. One
    /// leading `./` of it is stripped.
    ///
    /// A fault of the file system isn't reported: a file that can't be read gives the rules of the
    /// lines before the fault, or none.
    ///
    /// # Errors
    /// `Error::Memory` alone.
    pub fn new<F: Files>(
        alloc: Global,
        files: &F,
        path: &str,
    ) -> Result<(Gitignore, Option<Error>), Error>
        ensures read { (tree : Tree) → IsHonest F.Files files.now tree
            → IfOk result (λ r. IsMatcherOf tree path.now r.0 (option_map problem_of r.1)) }
        ensures answered { IfOk result (λ r. (answer : Result Contents Refusal) × F.contents_gives files.now path.now answer
            × BuildsAnswer path.now answer (begun (folder_of path.now)) r.0 (option_map problem_of r.1)) }
        ensures out_of_memory { IfErr result (λ e. problem_of e ≡ memory) }
    {
        let builder = GitignoreBuilder::new(alloc, folder_of(path))?;
        Ok(builder.build_file(files, path)?)
    }
}

impl GitignoreBuilder {
    /// The matcher of this builder's rules and then those of a file, and the errors of the file.
    pub(crate) fn build_file<F: Files>(
        mut self,
        files: &F,
        path: &str,
    ) -> Result<(Gitignore, Option<Error>), AllocError>
        ensures read { (tree : Tree) → IsHonest F.Files files.now tree
            → IfOk result (λ r. BuildsFile tree path.now self r.0 (option_map problem_of r.1)) }
        ensures answered { IfOk result (λ r. (answer : Result Contents Refusal) × F.contents_gives files.now path.now answer
            × BuildsAnswer path.now answer self r.0 (option_map problem_of r.1)) }
    {
        let error = internal::add(&mut self, files, path)?;
        Ok((self.into_gitignore(), Error::without_fault(error)))
    }
}
