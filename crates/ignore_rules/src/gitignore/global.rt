//! Matchers of the global file, which git's configuration names.
ghost use Rattle.std.specs.Prelude.{◌≡◌, Option, None, Some, true, IfOk, IfErr, IsOkAnd, option_map, string_bytes};
ghost use Rattle.ignore_base.specs.Text.{Path};
ghost use Rattle.ignore_files.specs.Gives.{IsHonest};
ghost use Rattle.ignore_files.specs.Tree.{Tree};
ghost use Rattle.ignore_base.specs.declared.fault.Fault.TheVariants.{NoCurrentDir};
ghost use Rattle.ignore_base.specs.Problem.{problem_of, memory, io};
ghost use Rattle.ignore_excludes.specs.ExcludesSearch.{IsExcludesPath};
ghost use Rattle.ignore_rules.specs.Matchers.{BuildsGlobal, BuildsAnyAnswer, IsGlobalMatcher, global_file, is_file_there};
ghost use Rattle.ignore_rules.specs.Rules.{begun, empty};

use crate::gitignore::builder::GitignoreBuilder;
use crate::gitignore::matcher::Gitignore;
use ignore_base::Error;
use ignore_excludes::internal::excludes_path;
use ignore_files::internal::answered;
use ignore_files::{Env, Fault, Files};
use std::alloc::{AllocError, Global};

impl GitignoreBuilder {
    /// The matcher of this builder's rules and then those of the global file, and the errors of
    /// that file, as `add` reports them. The global file is where `gitconfig_excludes_path` leads,
    /// if a file is there. Where none is, the result is the empty matcher, without the rules that
    /// were added. A fault of the file system isn't reported.
    ///
    /// The rules of the global file are relative to the root of this builder, as in the original.
    ///
    /// # Errors
    /// `Error::Memory` alone.
    pub fn build_global<F: Files>(
        self,
        files: &F,
        env: &Env,
    ) -> Result<(Gitignore, Option<Error>), Error>
        ensures read { (tree : Tree) → IsHonest F.Files files.now tree
            → IfOk result (λ r. BuildsGlobal tree env.now self r.0 (option_map problem_of r.1)) }
        ensures answered { IfOk result (λ r. BuildsAnyAnswer (F.contents_gives files.now) self r.0 (option_map problem_of r.1)) }
        ensures out_of_memory { IfErr result (λ e. problem_of e ≡ memory) }
    {
        let alloc = self.allocator();
        match global_file(alloc, files, env)? {
            None => Ok((Gitignore::empty(alloc), None)),
            Some(path) => Ok(self.build_file(files, path.as_str())?),
        }
    }
}

impl Gitignore {
    /// The matcher of the global file, relative to the working directory of `env`, and the errors
    /// of the file, as `GitignoreBuilder::build_global` reports them. Where the working directory
    /// is unknown, the result is the empty matcher and `Error::Io` of `Fault::NoCurrentDir`.
    ///
    /// # Errors
    /// `Error::Memory` alone.
    pub fn global<F: Files>(
        alloc: Global,
        files: &F,
        env: &Env,
    ) -> Result<(Gitignore, Option<Error>), Error>
        ensures read { (tree : Tree) → IsHonest F.Files files.now tree
            → IfOk result (λ r. IsGlobalMatcher tree env.now r.0 (option_map problem_of r.1)) }
        ensures answered { (dir : Path) → env.now.current_dir ≡ Some dir
            → IfOk result (λ r. BuildsAnyAnswer (F.contents_gives files.now) (begun dir) r.0 (option_map problem_of r.1)) }
        ensures unknown { env.now.current_dir ≡ None
            → IsOkAnd result (λ r. (r.0 ≡ empty) × (option_map problem_of r.1 ≡ Some (io NoCurrentDir))) }
        ensures out_of_memory { IfErr result (λ e. problem_of e ≡ memory) }
    {
        match &env.current_dir {
            None => {
                let error = Error::from(Fault::NoCurrentDir);
                Ok((Gitignore::empty(alloc), Some(error)))
            }
            Some(dir) => {
                let builder = GitignoreBuilder::new(alloc, dir.as_str())?;
                builder.build_global(files, env)
            }
        }
    }
}

/// The path of the global file, if a file is there.
fn global_file<F: Files>(alloc: Global, files: &F, env: &Env) -> Result<Option<String>, AllocError>
    ensures found { (tree : Tree) → IsHonest F.Files files.now tree
        → IfOk result (λ path. (found : Option Path) × IsExcludesPath tree env.now found
        × (option_map string_bytes path ≡ global_file tree found)) }
{
    match excludes_path(alloc, files, env)? {
        None => Ok(None),
        Some(path) => {
            if is_file(alloc, files, path.as_str())? {
                Ok(Some(path))
            } else {
                Ok(None)
            }
        }
    }
}

fn is_file<F: Files>(alloc: Global, files: &F, path: &str) -> Result<bool, AllocError>
    ensures { (tree : Tree) → IsHonest F.Files files.now tree → IfOk result (λ yes. yes ≡ is_file_there (tree.stat path.now true)) }
{
    match answered(files.stat(alloc, path, true))? {
        Ok(metadata) => Ok(metadata.is_file()),
        Err(_) => Ok(false),
    }
}
