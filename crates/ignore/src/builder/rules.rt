//! Rules from outside of the directories: overrides, file types, files added by name, the global
//! file.
ghost use Rattle.std.specs.Prelude.{◌≡◌, List, ℕ, Option, None, Some, IfOk, IfErr, IsOkAnd, OnOk, OnErr, option_map, string_bytes};
ghost use Rattle.ignore_base.specs.declared.fault.Fault.TheVariants.{NoCurrentDir};
ghost use Rattle.ignore_base.specs.Problem.{problem_of, memory, io};
ghost use Rattle.ignore_files.specs.Gives.{IsHonest};
ghost use Rattle.ignore_files.specs.Tree.{Tree};
ghost use Rattle.ignore.specs.Asked.{AddsIgnore, AddsIgnoreBy, base_dir};
ghost use Rattle.ignore.specs.Asked.{IsOutside, IsOutsideBy};
ghost use Rattle.ignore.specs.Builder.{with_overrides, with_types, with_custom, with_current_dir};

use crate::builder::WalkBuilder;
use ignore_base::Error;
use ignore_dir::Outside;
use ignore_files::{Env, Files};
use ignore_rules::overrides::Override;
use ignore_types::types::Types;

impl WalkBuilder {
    /// The globs of a command line, which decide before all other rules. At first there are none.
    pub fn overrides(&mut self, overrides: Override) -> &mut Self
        ensures same_reference { result.ghost_name ≡ self.entry.ghost_name }
        ensures value { result.now ≡ record self.old { options = with_overrides self.old.options overrides } }
    {
        self.options.overrides(overrides);
        self
    }

    /// The chosen file types. At first none are.
    pub fn types(&mut self, types: Types) -> &mut Self
        ensures same_reference { result.ghost_name ≡ self.entry.ghost_name }
        ensures value { result.now ≡ record self.old { options = with_types self.old.options types } }
    {
        self.options.types(types);
        self
    }

    /// The directory that the global file is relative to, and files that `add_ignore` adds from now
    /// on, in place of the working directory.
    pub fn current_dir(&mut self, dir: String) -> &mut Self
        ensures same_reference { result.ghost_name ≡ self.entry.ghost_name }
        ensures value { result.now ≡ record self.old { options = with_current_dir self.old.options (string_bytes dir) } }
    {
        self.options.current_dir(dir);
        self
    }

    /// Adds a name of custom files of rules, which are read in each directory. They precede all
    /// other files, and a later name overrides an earlier one.
    ///
    /// # Errors
    /// `Error::Memory` alone. What holds of the builder after an error is proved of
    /// `push_custom_ignore_filename`, which does the work, and not of this call.
    pub fn add_custom_ignore_filename(&mut self, name: &str) -> Result<&mut Self, Error>
        ensures same_reference { IfOk result (λ b. b.ghost_name ≡ self.entry.ghost_name) }
        ensures added { IfOk result (λ b. b.now ≡ record self.old { options = with_custom self.old.options name.now }) }
        ensures out_of_memory { IfErr result (λ e. problem_of e ≡ memory) }
    {
        self.push_custom_ignore_filename(name)?;
        Ok(self)
    }

    /// As `add_custom_ignore_filename`, without the builder in what is returned. After an error the
    /// builder is as before.
    pub fn push_custom_ignore_filename(&mut self, name: &str) -> Result<(), Error>
        ensures added { OnOk result (self.new ≡ record self.old { options = with_custom self.old.options name.now }) }
        ensures out_of_memory { IfErr result (λ e. problem_of e ≡ memory) }
        ensures unchanged { OnErr result (self.new ≡ self.old) }
    {
        self.options.push_custom_ignore_filename(name)
    }

    /// Reads a file of rules now, and adds it after the others that were added so: the last one
    /// that has a match decides, and all other ranks precede them. The rules are relative to the
    /// directory of `current_dir` as it is set, or else to the working directory of `env`. They are
    /// case sensitive, and have the mode of trailing spaces as it is set.
    ///
    /// The result reports each error of the file, faults among them, as `GitignoreBuilder::add`
    /// does. Where no directory is known, nothing is read and added, and the result is `Error::Io`
    /// of `Fault::NoCurrentDir`.
    ///
    /// # Errors
    /// `Error::Memory` alone, and then the builder is as before.
    pub fn add_ignore<F: Files>(
        &mut self,
        files: &F,
        env: &Env,
        path: &str,
    ) -> Result<Option<Error>, Error>
        ensures read { (tree : Tree) → IsHonest F.Files files.now tree
            → IfOk result (λ e. AddsIgnore tree env.now path.now self.old.options self.new.options (option_map problem_of e)) }
        ensures answered { (dir : List ℕ) → base_dir self.old.options env.now ≡ Some dir
            → IfOk result (λ e. AddsIgnoreBy (F.contents_gives files.now path.now) path.now dir self.old.options self.new.options
            (option_map problem_of e)) }
        ensures unknown { base_dir self.old.options env.now ≡ None
            → IsOkAnd result (λ e. (option_map problem_of e ≡ Some (io NoCurrentDir)) × (self.new ≡ self.old)) }
        ensures rest { self.new ≡ record self.old { options = self.new.options } }
        ensures out_of_memory { IfErr result (λ e. problem_of e ≡ memory) }
        ensures unchanged { OnErr result (self.new ≡ self.old) }
    {
        self.options.add_ignore(files, env, path)
    }

    /// The rules from outside of the directories, for a walk or for matchers. The global file is
    /// read now, where it is asked for, relative to the directory of `current_dir`, or else to the
    /// working directory of `env`; where no directory is known, it has no rules. Its errors aren't
    /// reported. Case and trailing spaces are as set.
    /// For dependents.
    ///
    /// # Errors
    /// `Error::Memory` alone.
    pub fn outside<F: Files>(&self, files: &F, env: &Env) -> Result<Outside, Error>
        ensures read { (tree : Tree) → IsHonest F.Files files.now tree
            → IfOk result (λ o. IsOutside tree env.now self.now.options o) }
        ensures answered { IfOk result (λ o. IsOutsideBy (F.contents_gives files.now) env.now self.now.options o) }
        ensures out_of_memory { IfErr result (λ e. problem_of e ≡ memory) }
    {
        self.options.outside(files, env)
    }
}
